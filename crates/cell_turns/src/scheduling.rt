//! Schedules of turns and acts by hand, on one thread.
ghost use Rattle.std.specs.Prelude.{◌≡◌, ◌≤◌, ◌<◌, ◌+◌, ◌^◌, ◌++◌, ◌∷◌, [], List, Bool, true, false, IfOk, OnOk, OnErr};
ghost use Rattle.cell_types.specs.declared.words.Actor.TheVariants as actors;
ghost use Rattle.cell_types.specs.declared.words.Machine.{Machine as MachineValue};
ghost use Rattle.cell_rules.specs.History.{History};
ghost use Rattle.cell_rules.specs.Legal.{legal};
ghost use Rattle.cell_ledger.specs.Held.{Held};
ghost use Rattle.cell_turns.specs.declared.six.Six.{Six as SixValue};
ghost use Rattle.cell_turns.specs.declared.schedule.Step.{Step as StepValue};
ghost use Rattle.cell_turns.specs.declared.schedule.Step.TheVariants as steps;
ghost use Rattle.cell_turns.specs.declared.watch.Watch.{Watch as WatchValue};
ghost use Rattle.cell_turns.specs.Six.{at, map_six};
ghost use Rattle.cell_ports.specs.Logs.{Log, ActLog};
ghost use Rattle.cell_turns.specs.Sent.{Sends};
ghost use Rattle.cell_turns.specs.Acts.{Did, ActedAtMost};
ghost use Rattle.cell_turns.specs.Minds.{machine_of_watch, has_failed_command};
ghost use Rattle.cell_turns.specs.Schedules.{Scheduled, Grown, AllSent, act_at, CanStop, Stopped};
ghost use Rattle.cell_turns.specs.Steps.{TurnedAt, TurnedAway, GrewBy, IsSameLoan};

use crate::hands::hand;
use crate::schedule::OutOfMemory;
use crate::turns::send::send;
use crate::turns::{TurnAt, book_turn};
use crate::{Ports, Six, Step, TurnError, Watch, Watches};
use cell_ledger::{Kept, Run, Shares};
use cell_ports::{OperatorPort, Plan, Port};
use cell_types::Entry;
use std::alloc::Global;

/// What a schedule did.
#[derive(Debug, Drop)]
pub struct Ran {
    /// The entries of each machine.
    pub machines: Six<Vec<Entry>>,
    /// The operator's entries.
    pub operator: Vec<Entry>,
    /// How many turns answered `Refused`.
    pub refused: usize,
}

impl Ran {
    /// What no step did.
    pub fn new(alloc: Global) -> Ran
        ensures machines { (m : MachineValue) → (at result.machines m).items ≡ [] }
        ensures operator { result.operator.items ≡ [] }
        ensures refused { result.refused ≡ 0 }
    {
        Ran {
            machines: no_entries(alloc),
            operator: Vec::new(alloc),
            refused: 0,
        }
    }

    /// Forgets what was done. The lists keep their places.
    fn clear(&mut self)
        ensures machines { (m : MachineValue) → (at self.new.machines m).items ≡ [] }
        ensures operator { self.new.operator.items ≡ [] }
        ensures refused { self.new.refused ≡ 0 }
    {
        self.machines.feed.clear();
        self.machines.table.clear();
        self.machines.robot.clear();
        self.machines.press1.clear();
        self.machines.press2.clear();
        self.machines.deposit.clear();
        self.operator.clear();
        self.refused = 0;
    }
}

/// The book, its shares and the watches, lent to the steps of a schedule.
#[derive(Drop)]
pub struct LentState<'l, R: Run> {
    pub kept: &'l mut Kept<R>,
    pub shares: &'l mut Shares<R>,
    pub watches: &'l mut Watches,
}

/// A turn of a machine, and its command. It answers whether the turn was refused.
fn take_turn<P: Port, R: Run>(
    turn: &TurnAt<'_>,
    port: &mut P,
    kept: &mut Kept<R>,
    shares: &mut Shares<R>,
    watch: &mut Watch,
    entries: &mut Vec<Entry>,
) -> Result<bool, OutOfMemory>
    requires { machine_of_watch watch.old ≡ turn.now.machine }
    ensures turned { IfOk result (λ refused. refused ≡ false
        → TurnedAt turn.now.plan.now turn.now.machine turn.now.reading kept.old kept.new watch.old watch.new) }
    ensures refused { IfOk result (λ refused. refused ≡ true
        → TurnedAway turn.now.plan.now turn.now.machine turn.now.reading kept.old kept.new watch.old watch.new) }
    ensures grew { IfOk result (λ _. GrewBy (actors.Machine turn.now.machine) kept.old kept.new shares.old shares.new
        entries.old.items entries.new.items) }
    ensures sends { P.tells port.new ≡ true → (before : Log) (was : Bool)
        → Sends before was (P.log port.old) entries.old.items (has_failed_command watch.old)
        → Sends before was (P.log port.new) entries.new.items (has_failed_command watch.new) }
    ensures unread { P.tells port.new ≡ true → (P.log port.new).answers ≡ (P.log port.old).answers }
    ensures still { P.tells port.new ≡ true → P.tells port.old ≡ true }
    ensures machine { machine_of_watch watch.new ≡ turn.now.machine }
    ensures unchanged { OnErr result ((port.new ≡ port.old) × (kept.new ≡ kept.old) × (shares.new ≡ shares.old)
        × (watch.new ≡ watch.old)) }
{
    let booked = match book_turn(turn, kept, shares, watch, entries) {
        Ok(booked) => booked,
        Err(TurnError::OutOfMemory) => return Err(OutOfMemory),
        Err(TurnError::Refused(_)) => return Ok(true),
    };
    if let Some(entry) = booked {
        let _ = send(port, watch, &entry);
    }
    Ok(false)
}

/// Takes one step of a schedule, and adds what it did. Its clauses tell of the step after any steps that led to this
/// state.
#[inline(always)]
fn add_step<P: Port, O: OperatorPort, R: Run>(
    step: &Step,
    ran: &mut Ran,
    ports: &mut Ports<P>,
    operator: &mut O,
    state: &mut LentState<'_, R>,
    plan: &Plan,
) -> Result<(), OutOfMemory>
    requires machines { (m : MachineValue) → machine_of_watch (at state.old.watches.now m) ≡ m }
    requires room { ran.old.refused + 1 < 2 ^ 64 }
    ensures machines { (m : MachineValue) → machine_of_watch (at state.new.watches.now m) ≡ m }
    ensures kept { IsSameLoan state.old.kept state.new.kept }
    ensures shares { IsSameLoan state.old.shares state.new.shares }
    ensures watches { IsSameLoan state.old.watches state.new.watches }
    ensures few { ran.new.refused ≤ ran.old.refused + 1 }
    ensures still { O.tells operator.new ≡ true → O.tells operator.old ≡ true }
    ensures grown { OnOk result ((before : History) (h : Held)
        → Grown before state.old.kept.now h state.old.shares.now (map_six (λ v. v.items) ran.old.machines)
        ran.old.operator.items
        → Grown before state.new.kept.now h state.new.shares.now (map_six (λ v. v.items) ran.new.machines)
        ran.new.operator.items) }
    ensures sent { OnOk result ((before : SixValue P) (ws : SixValue WatchValue)
        → AllSent P.tells P.log before ports.old ws state.old.watches.now
        (map_six (λ v. v.items) ran.old.machines)
        → AllSent P.tells P.log before ports.new ws state.new.watches.now
        (map_six (λ v. v.items) ran.new.machines)) }
    ensures did { OnOk result ((acts : ActLog) → O.tells operator.new ≡ true
        → Did acts (O.log operator.old) ran.old.operator.items
        → Did acts (O.log operator.new) ran.new.operator.items) }
    ensures scheduled { OnOk result ((steps : List StepValue) (before : History) (ws : SixValue WatchValue)
        (acts : ActLog) → Scheduled plan.now steps ran.old.refused before state.old.kept.now ws state.old.watches.now
        (O.tells operator.old) acts (O.log operator.old)
        → Scheduled plan.now (steps ++ step.now ∷ []) ran.new.refused before state.new.kept.now ws state.new.watches.now
        (O.tells operator.new) acts (O.log operator.new)) }
    ensures unchanged { OnErr result ((state.new.kept.now ≡ state.old.kept.now)
        × (state.new.shares.now ≡ state.old.shares.now) × (state.new.watches.now ≡ state.old.watches.now)
        × (ports.new ≡ ports.old)) }
    ensures acted { O.tells operator.new ≡ true
        → OnErr result (ActedAtMost (act_at step.now) (O.log operator.old) (O.log operator.new)) }
    ensures stops { OnErr result (CanStop state.old.kept.now.limits state.old.kept.now.entries step.now) }
{
    let kept = &mut *state.kept;
    let shares = &mut *state.shares;
    match *step {
        Step::Turn(machine, reading) => {
            let turn = TurnAt {
                machine,
                reading,
                plan,
            };
            let watches = &mut *state.watches;
            let watch = watches.pick(machine);
            let port = ports.pick(machine);
            let entries = ran.machines.pick(machine);
            let refused = match take_turn(&turn, port, kept, shares, watch, entries) {
                Ok(refused) => refused,
                Err(error) => return Err(error),
            };
            ran.refused += refused as usize;
            Ok(())
        }
        Step::Hand(entry) => match hand(entry, operator, kept, shares, &mut ran.operator) {
            Ok(_) => Ok(()),
            Err(error) => Err(error),
        },
    }
}

fn no_entries(alloc: Global) -> Six<Vec<Entry>>
    ensures { (m : MachineValue) → (at result m).items ≡ [] }
{
    Six {
        feed: Vec::new(alloc),
        table: Vec::new(alloc),
        robot: Vec::new(alloc),
        press1: Vec::new(alloc),
        press2: Vec::new(alloc),
        deposit: Vec::new(alloc),
    }
}

/// Takes the steps, one after another, on this thread. The readings of turns come from the steps, and commands go to
/// the ports, which aren't read. A turn that answers `Refused` does nothing but count. An entry by hand that isn't the
/// operator's, that the book refuses, or whose act by hand fails, does nothing.
///
/// `OutOfMemory` comes where a list can't take one more entry, or the book can't for a plate in quarantine. The steps
/// before stand; at an entry by hand the operator's act may have been done without its entry.
pub fn run_schedule<P: Port, O: OperatorPort, R: Run>(
    alloc: Global,
    steps: &[Step],
    ports: &mut Ports<P>,
    operator: &mut O,
    kept: &mut Kept<R>,
    shares: &mut Shares<R>,
    watches: &mut Watches,
    plan: &Plan,
) -> Result<Ran, OutOfMemory>
    requires { (m : MachineValue) → machine_of_watch (at watches.old m) ≡ m }
    ensures machines { (m : MachineValue) → machine_of_watch (at watches.new m) ≡ m }
    ensures grown { IfOk result (λ ran. Grown kept.old kept.new shares.old shares.new
        (map_six (λ v. v.items) ran.machines) ran.operator.items) }
    ensures sent { IfOk result (λ ran. AllSent P.tells P.log ports.old ports.new watches.old watches.new
        (map_six (λ v. v.items) ran.machines)) }
    ensures did { IfOk result (λ ran. O.tells operator.new ≡ true
        → Did (O.log operator.old) (O.log operator.new) ran.operator.items) }
    ensures scheduled { IfOk result (λ ran. Scheduled plan.now steps.now ran.refused kept.old kept.new watches.old
        watches.new (O.tells operator.new) (O.log operator.old) (O.log operator.new)) }
    ensures legal { OnOk result (legal kept.new.limits kept.new.entries ≡ true) }
    ensures stopped { OnErr result (Stopped P.tells P.log plan.now steps.now ports.old ports.new kept.old kept.new
        shares.old shares.new watches.old watches.new (O.tells operator.new) (O.log operator.old)
        (O.log operator.new)) }
{
    let mut ran = Ran::new(alloc);
    for step in steps {
        let mut state = LentState {
            kept: &mut *kept,
            shares: &mut *shares,
            watches: &mut *watches,
        };
        let taken = add_step(step, &mut ran, ports, operator, &mut state, plan);
        if let Err(error) = taken {
            return Err(error);
        }
    }
    kept.is_lawful();
    Ok(ran)
}

/// Takes one step, as `run_schedule` takes a list of one. What it did is told in `ran`, whose lists the caller keeps
/// from step to step; what they had before is dropped, and their places stay, so that a step that books nothing takes
/// no memory.
#[inline(always)]
pub fn run_step<P: Port, O: OperatorPort, R: Run>(
    step: &Step,
    ran: &mut Ran,
    ports: &mut Ports<P>,
    operator: &mut O,
    state: &mut LentState<'_, R>,
    plan: &Plan,
) -> Result<(), OutOfMemory>
    requires { (m : MachineValue) → machine_of_watch (at state.old.watches.now m) ≡ m }
    ensures machines { (m : MachineValue) → machine_of_watch (at state.new.watches.now m) ≡ m }
    ensures kept { IsSameLoan state.old.kept state.new.kept }
    ensures shares { IsSameLoan state.old.shares state.new.shares }
    ensures watches { IsSameLoan state.old.watches state.new.watches }
    ensures grown { OnOk result (Grown state.old.kept.now state.new.kept.now state.old.shares.now state.new.shares.now
        (map_six (λ v. v.items) ran.new.machines) ran.new.operator.items) }
    ensures sent { OnOk result (AllSent P.tells P.log ports.old ports.new state.old.watches.now
        state.new.watches.now (map_six (λ v. v.items) ran.new.machines)) }
    ensures did { OnOk result (O.tells operator.new ≡ true
        → Did (O.log operator.old) (O.log operator.new) ran.new.operator.items) }
    ensures scheduled { OnOk result (Scheduled plan.now (step.now ∷ []) ran.new.refused state.old.kept.now
        state.new.kept.now state.old.watches.now state.new.watches.now (O.tells operator.new)
        (O.log operator.old) (O.log operator.new)) }
    ensures legal { OnOk result (legal state.new.kept.now.limits state.new.kept.now.entries ≡ true) }
    ensures stopped { OnErr result (Stopped P.tells P.log plan.now (step.now ∷ []) ports.old ports.new
        state.old.kept.now state.new.kept.now state.old.shares.now state.new.shares.now state.old.watches.now
        state.new.watches.now (O.tells operator.new) (O.log operator.old)
        (O.log operator.new)) }
{
    ran.clear();
    let taken = add_step(step, ran, ports, operator, state, plan);
    if let Err(error) = taken {
        return Err(error);
    }
    state.kept.is_lawful();
    Ok(())
}
