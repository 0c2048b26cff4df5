//! The steps of a run that follows a journal.
ghost use Rattle.std.specs.Prelude.{◌≡◌, ◌∷◌, ◌++◌, [], None, IfOk, IfErr, if◌then◌else◌};
ghost use Rattle.cell_types.specs.declared.words.Machine.{Machine as MachineValue};
ghost use Rattle.cell_types.specs.declared.words.Entry.{Entry as EntryValue};
ghost use Rattle.cell_turns.specs.declared.schedule.Step.TheVariants as steps;
ghost use Rattle.cell_turns.specs.declared.six.Six.{Six as SixValue};
ghost use Rattle.cell_turns.specs.Minds.{Mind, machine_of_watch};
ghost use Rattle.cell_turns.specs.Six.{at};
ghost use Rattle.cell_turns.specs.Schedules.{FitAll, now};
ghost use Rattle.cell_runs.specs.Rounds.{Operates, Reaches, Stops, Takes, place, turn_of};

use crate::lent::{LentHands, lend_port};
use cell_ledger::{Kept, Run, Shares};
use cell_plant::Plant;
use cell_workers::{End, LentState, Plan, Ran, Step, Watches, run_step};
use operator_desk::{Script, entry_of};

/// What a run has from step to step.
#[derive(Drop)]
pub(crate) struct Progress<R: Run> {
    pub(crate) kept: Kept<R>,
    pub(crate) shares: Shares<R>,
    pub(crate) watches: Watches,
    /// What the last step did.
    pub(crate) ran: Ran,
    pub(crate) script: Script,
    /// The operator's hands failed.
    pub(crate) lost: bool,
}

/// One step. It answers whether the operator booked an entry in it, or the end that the step sets.
#[inline(always)]
pub(crate) fn take_step<C: Plant, R: Run>(
    step: Step,
    plant: &mut C,
    cell: &mut Progress<R>,
    plan: &Plan,
) -> Result<bool, End>
    requires { (m : MachineValue) → machine_of_watch (at cell.old.watches m) ≡ m }
    ensures machines { (m : MachineValue) → machine_of_watch (at cell.new.watches m) ≡ m }
    ensures limits { cell.new.kept.limits ≡ cell.old.kept.limits }
    ensures same { (cell.new.script ≡ cell.old.script) × (cell.new.lost ≡ cell.old.lost) }
    ensures took { IfOk result (λ _. (minds : SixValue Mind) → FitAll cell.old.watches minds
        → Takes cell.old.kept.limits plan.now (step ∷ []) (now cell.old.kept.entries minds) cell.new.kept.entries
        cell.new.watches) }
    ensures booked { IfOk result (λ booked. (minds : SixValue Mind) → FitAll cell.old.watches minds → (e : EntryValue)
        → step ≡ steps.Hand e → cell.new.kept.entries ≡ cell.old.kept.entries ++ (if booked then e ∷ [] else [])) }
    ensures stops { IfErr result (λ e. (minds : SixValue Mind) → FitAll cell.old.watches minds
        → Stops cell.old.kept.limits plan.now (turn_of step ∷ []) (now cell.old.kept.entries minds)
        cell.new.kept.entries e) }
    ensures unchanged { IfErr result (λ _. (minds : SixValue Mind) → FitAll cell.old.watches minds
        → cell.new.kept.entries ≡ cell.old.kept.entries) }
{
    let mut state = LentState {
        kept: &mut cell.kept,
        shares: &mut cell.shares,
        watches: &mut cell.watches,
    };
    let mut lent = Some(plant);
    let mut ports = lend_port(&step, &mut lent);
    let mut hands = LentHands { plant: lent };
    let taken = run_step(
        &step,
        &mut cell.ran,
        &mut ports,
        &mut hands,
        &mut state,
        plan,
    );
    match taken {
        Ok(()) if cell.ran.refused > 0 => Err(End::Full),
        Ok(()) => Ok(!cell.ran.operator.is_empty()),
        Err(_) => Err(End::Memory),
    }
}

/// The operator's next action, if there is one. Where his act fails, nothing is booked and he does nothing more.
pub(crate) fn act<C: Plant, R: Run>(
    plant: &mut C,
    cell: &mut Progress<R>,
    plan: &Plan,
) -> Result<(), End>
    requires { (m : MachineValue) → machine_of_watch (at cell.old.watches m) ≡ m }
    ensures machines { (m : MachineValue) → machine_of_watch (at cell.new.watches m) ≡ m }
    ensures limits { cell.new.kept.limits ≡ cell.old.kept.limits }
    ensures operates { IfOk result (λ _. (minds : SixValue Mind) → FitAll cell.old.watches minds
        → Reaches (Operates cell.old.kept.limits plan.now
        (place (now cell.old.kept.entries minds) cell.old.script cell.old.lost)) cell.new.kept.entries cell.new.watches
        cell.new.script cell.new.lost) }
    ensures stops { IfErr result (λ e. (minds : SixValue Mind) → FitAll cell.old.watches minds
        → Stops cell.old.kept.limits plan.now (None ∷ []) (now cell.old.kept.entries minds) cell.new.kept.entries e) }
    ensures unchanged { IfErr result (λ _. (minds : SixValue Mind) → FitAll cell.old.watches minds
        → cell.new.kept.entries ≡ cell.old.kept.entries) }
{
    if cell.lost {
        return Ok(());
    }
    let Some(action) = cell.script.next(cell.kept.book()) else {
        return Ok(());
    };
    if take_step(Step::Hand(entry_of(action)), plant, cell, plan)? {
        cell.script.done();
    } else {
        cell.lost = true;
    }
    Ok(())
}
