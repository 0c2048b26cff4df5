//! A whole run, and what it reports.
ghost use Rattle.std.specs.Prelude.{◌≡◌, ◌≤◌, ◌+◌, ◌++◌, ◌∷◌, [], true, List, length, take, map, IfOk, IfSome};
ghost use Rattle.std.specs.Prelude.{IsTrue};
ghost use Rattle.cell_types.specs.Entries.{actor_of};
ghost use Rattle.cell_types.specs.Same.{same_machine};
ghost use Rattle.cell_types.specs.declared.words.Machine.{Machine as MachineValue};
ghost use Rattle.cell_rules.specs.Views.{count_of};
ghost use Rattle.cell_ledger.specs.Counts.{nothing, plus};
ghost use Rattle.cell_ledger.specs.New.{AreBlank};
ghost use Rattle.cell_turns.specs.Schedules.{same_actor, entries_of};
ghost use Rattle.cell_turns.specs.Six.{at, map_six};
ghost use Rattle.operator_desk.specs.declared.line.Line.{Line};
ghost use Rattle.cell_workers.specs.Operating.{Follows};
ghost use Rattle.cell_workers.specs.Standing.{all_called_for};
ghost use Rattle.cell_workers.specs.Report.{IsReport, AreAllOf};

use crate::ends::End;
use crate::hall::{Hall, Room};
use crate::team::{Actors, Done, Lent, Seven, Workplace, crew_of, lend, run_team};
use crate::{OperatorPort, Plan, Port, Ports, Six};
use cell_journal::Journal;
use cell_ledger::{Blanks, Kept, Run, Shares};
use cell_types::same::is_entry;
use cell_types::{Actor, Entry, Machine, Totals, actor_of};
use operator_desk::Script;
use plate_book::Book;
use std::alloc::Global;
use std::marker::Brand;
use std::sync::{Condvar, Mutex, Wait};
use std::thread::Threads;

/// Why there is no report.
#[derive(Clone, Copy, PartialEq, Eq, Debug)]
pub enum RunError {
    /// Memory was refused before the workers began.
    OutOfMemory,
    /// A thread was refused. The workers that had begun have ended.
    ThreadRefused,
    /// Some actor's entries in the journal aren't that worker's list.
    JournalDisagrees,
}

/// What a run did.
#[derive(Drop)]
pub struct Report {
    pub journal: Journal,
    pub totals: Totals,
    /// For each worker, the machines in their order and then the operator, its entries and what they count.
    pub workers: [(Vec<Entry>, Totals); 7],
    pub end: End,
}

fn is_same_machine(some: Machine, other: Machine) -> bool
    ensures { result ≡ same_machine some other }
{
    some == other
}

fn is_of(actor: Actor, entry: &Entry) -> bool
    ensures { result ≡ same_actor actor (actor_of entry.now) }
{
    match actor {
        Actor::Machine(machine) => match actor_of(*entry) {
            Actor::Machine(other) => is_same_machine(machine, other),
            Actor::Operator => false,
        },
        Actor::Operator => match actor_of(*entry) {
            Actor::Machine(_) => false,
            Actor::Operator => true,
        },
    }
}

/// The place in a list after an entry of the journal: the next one where the entry is the actor's, and stands there;
/// the same where it is another's.
fn place_after(entries: &[Entry], k: usize, actor: Actor, entry: &Entry) -> Option<usize>
    requires { k ≤ length entries.now }
    ensures within { IfSome result (λ n. n ≤ length entries.now) }
    ensures same { IfSome result (λ n. take n entries.now ≡ take k entries.now ++ entries_of actor (entry.now ∷ [])) }
{
    if !is_of(actor, entry) {
        return Some(k);
    }
    let next = entries.get(k)?;
    if is_entry(next, entry) {
        Some(k + 1)
    } else {
        None
    }
}

/// Whether these are the actor's entries of the journal.
fn agrees(journal: &Journal, actor: Actor, entries: &[Entry]) -> bool
    ensures { IsTrue result → entries.now ≡ entries_of actor journal.now.entries }
{
    let mut k = 0;
    for place in 0..journal.len() {
        k = match place_after(entries, k, actor, &journal.at(place)) {
            Some(next) => next,
            None => return false,
        };
    }
    k == entries.len()
}

/// Whether each worker's list is its actor's entries of the journal.
fn all_agree(journal: &Journal, lists: &Seven<(Vec<Entry>, Totals)>) -> bool
    ensures { result ≡ true → AreAllOf journal.now.entries (map_six (λ w. w.0.items) lists.now.machines)
        lists.now.operator.0.items }
{
    let machines = &lists.machines;
    agrees(
        journal,
        Actor::Machine(Machine::Feed),
        machines.feed.0.as_slice(),
    ) && agrees(
        journal,
        Actor::Machine(Machine::Table),
        machines.table.0.as_slice(),
    ) && agrees(
        journal,
        Actor::Machine(Machine::Robot),
        machines.robot.0.as_slice(),
    ) && agrees(
        journal,
        Actor::Machine(Machine::Press1),
        machines.press1.0.as_slice(),
    ) && agrees(
        journal,
        Actor::Machine(Machine::Press2),
        machines.press2.0.as_slice(),
    ) && agrees(
        journal,
        Actor::Machine(Machine::Deposit),
        machines.deposit.0.as_slice(),
    ) && agrees(journal, Actor::Operator, lists.operator.0.as_slice())
}

/// A worker's list with what its shares count, and its shares put together with those of others.
fn gather_done<R: Run>(
    kept: &mut Kept<R>,
    done: Done<R>,
    others: Shares<R>,
) -> ((Vec<Entry>, Totals), Shares<R>)
    ensures kept { kept.new ≡ kept.old }
    ensures counted { result.0.1 ≡ count_of result.0.0.items }
    ensures parts { result.1.parts ≡ 1 + others.parts }
    ensures sum { result.1.counts ≡ plus result.0.1 others.counts }
{
    let Done { entries, shares } = done;
    let counts = shares.counts();
    let all = kept.gather(shares, others);
    ((entries, counts), all)
}

/// Each worker's list with what its shares count, and the shares of all.
#[tactic(auto, using(crate::proofs::Reports::plus_nothing))]
fn gather_team<R: Run>(
    kept: &mut Kept<R>,
    team: Seven<Done<R>>,
) -> (Seven<(Vec<Entry>, Totals)>, Shares<R>)
    ensures kept { kept.new ≡ kept.old }
    ensures machines { (machine : MachineValue) → (at result.0.machines machine).1
        ≡ count_of (at result.0.machines machine).0.items }
    ensures operator { result.0.operator.1 ≡ count_of result.0.operator.0.items }
    ensures list { result.0.operator.0.items ≡ team.operator.entries.items }
    ensures parts { result.1.parts ≡ 7 }
    ensures sum { result.1.counts ≡ plus result.0.machines.feed.1
        (plus result.0.machines.table.1 (plus result.0.machines.robot.1
        (plus result.0.machines.press1.1 (plus result.0.machines.press2.1
        (plus result.0.machines.deposit.1 (plus result.0.operator.1 nothing)))))) }
{
    let Seven { machines, operator } = team;
    let Done { entries, shares } = operator;
    let counts = shares.counts();
    let (deposit, all) = gather_done(kept, machines.deposit, shares);
    let (press2, all) = gather_done(kept, machines.press2, all);
    let (press1, all) = gather_done(kept, machines.press1, all);
    let (robot, all) = gather_done(kept, machines.robot, all);
    let (table, all) = gather_done(kept, machines.table, all);
    let (feed, all) = gather_done(kept, machines.feed, all);
    let machines = Six {
        feed,
        table,
        robot,
        press1,
        press2,
        deposit,
    };
    let lists = Seven {
        machines,
        operator: (entries, counts),
    };
    (lists, all)
}

/// What the workers bring back, against the journal.
fn settle<R: Run>(hall: Hall<R>, team: Seven<Done<R>>) -> Result<Report, RunError>
    requires { R.parts ≡ 7 }
    ensures { (script : List Line) → Follows R.limits script team.operator.entries.items
        → IfOk result (λ r. IsReport R.limits script r.journal.entries r.totals
        (map (λ w. (w.0.items, w.1)) r.workers)) }
{
    let Hall {
        mut kept,
        idle: _,
        lost: _,
        end,
    } = hall;
    let (lists, mut all) = gather_team(&mut kept, team);
    kept.audit(&mut all);
    kept.is_lawful();
    let totals = all.counts();
    let journal = kept.into_book().into_journal();
    let same = all_agree(&journal, &lists);
    let Seven { machines, operator } = lists;
    let Six {
        feed,
        table,
        robot,
        press1,
        press2,
        deposit,
    } = machines;
    let workers = [feed, table, robot, press1, press2, deposit, operator];
    if !same {
        return Err(RunError::JournalDisagrees);
    }
    Ok(Report {
        journal,
        totals,
        workers,
        end: end.unwrap_or(End::Stalled),
    })
}

fn open_room<R: Run>(kept: Kept<R>) -> Room<R>
    requires { all_called_for kept.limits kept.entries ≡ true }
{
    Room {
        hall: Mutex::new(Hall {
            kept,
            idle: [false; 7],
            lost: [false; 7],
            end: None,
        }),
        moved: Condvar::new(),
    }
}

/// Runs all seven over a book that is tied to these ledgers, and settles what they bring back.
fn run_and_settle<
    R: Run + Send + Sync,
    P: Port + Drop + Send,
    O: OperatorPort + Drop + Send,
    W: Threads + Wait + Sync,
>(
    rt: &W,
    alloc: Global,
    book: Book,
    blanks: Blanks,
    acting: Actors<P, O>,
    plan: &Plan,
) -> Result<Report, RunError>
    requires parts { R.parts ≡ 7 }
    requires limits { book.limits ≡ R.limits }
    requires empty { book.entries ≡ [] }
    requires ledgers { AreBlank R.Run blanks }
    ensures { IfOk result (λ r. IsReport R.limits acting.script r.journal.entries r.totals
        (map (λ w. (w.0.items, w.1)) r.workers)) }
{
    let (kept, all) = Kept::<R>::new(book, blanks);
    let crew = crew_of(all);
    let place = Workplace {
        room: open_room(kept),
        plan: *plan,
        alloc,
    };
    let Some(team) = run_team(rt, &place, crew, acting) else {
        return Err(RunError::ThreadRefused);
    };
    let Workplace { room, .. } = place;
    let Room { hall, moved: _ } = room;
    settle(hall.into_inner(), team)
}

/// Runs the cell: seven workers, the six machines' and the operator's, each on a thread of its own, over an empty book.
/// The operator's entries are those of the script.
pub fn run_cell<P: Port + Send, O: OperatorPort + Send, W: Threads + Wait + Sync>(
    rt: &W,
    alloc: Global,
    ports: &mut Ports<P>,
    operator: &mut O,
    script: Script,
    plan: &Plan,
) -> Result<Report, RunError>
    ensures { IfOk result (λ r. IsReport (record { entries = plan.now.journal_limit; plates = plan.now.plates }) script
        r.journal.entries r.totals (map (λ w. (w.0.items, w.1)) r.workers)) }
{
    let Ok(book) = Book::new(alloc, plan.journal_limit, plan.plates) else {
        return Err(RunError::OutOfMemory);
    };
    let acting = Actors {
        ports: lend(ports),
        operator: Lent(operator),
        script,
    };
    run_and_settle::<Brand, _, _, _>(rt, alloc, book, Blanks::new(7), acting, plan)
}
