//! A run on one thread that follows a journal: for each of its entries the entry's actor alone acts, until he books
//! one.
ghost use Rattle.std.specs.Prelude.{◌≡◌, ◌<◌, ◌+◌, ◌++◌, [], false, Some, IfOk, IfErr, option_to_list};
ghost use Rattle.cell_types.specs.Entries.{actor_of};
ghost use Rattle.cell_types.specs.declared.words.Machine.{Machine as MachineValue};
ghost use Rattle.cell_types.specs.declared.words.Actor.TheVariants as actors;
ghost use Rattle.cell_turns.specs.declared.six.Six.{Six as SixValue};
ghost use Rattle.cell_turns.specs.Minds.{Mind, machine_of_watch};
ghost use Rattle.cell_turns.specs.Six.{at};
ghost use Rattle.cell_turns.specs.Schedules.{FitAll, now};
ghost use Rattle.cell_ledger.specs.New.{AreBlank};
ghost use Rattle.cell_runs.specs.Cells.{IsReached};
ghost use Rattle.cell_runs.specs.Rounds.{Reaches, place};
ghost use Rattle.cell_runs.specs.Followed.{Acts, Ends, EndsAt, Halts, IsFollowed};
ghost use Rattle.cell_runs.specs.Runs.{limits_of};

use crate::steps::{Progress, act, take_step};
use cell_journal::Journal;
use cell_ledger::{Blanks, Kept, Run};
use cell_plant::Plant;
use cell_turns::empty_book;
use cell_types::same::is_entry;
use cell_types::{Actor, Entry, Machine, actor_of};
use cell_workers::{End, Plan, Ran, Step, Watches};
use operator_desk::Script;
use plate_book::Book;
use std::alloc::{AllocError, Global};

/// How a journal was followed.
#[derive(Clone, Copy, PartialEq, Eq, Debug)]
pub enum Followed {
    /// Each of its entries was booked, and no other.
    Whole,
    /// In place of this entry, counted from 1, its actor booked another one, or none.
    Parted {
        number: u32,
        wanted: Entry,
        booked: Option<Entry>,
    },
    /// Memory was refused.
    Memory,
}

/// What is left where a journal was followed: the book, and how it was.
#[derive(Drop)]
pub struct Following {
    pub book: Book,
    pub followed: Followed,
}

// Turns of a machine, each at what it shows, until one books an entry, and at most the plan's. It answers the
// entry.
fn work<C: Plant, R: Run>(
    machine: Machine,
    plant: &mut C,
    cell: &mut Progress<R>,
    plan: &Plan,
) -> Result<Option<Entry>, End>
    requires { (m : MachineValue) → machine_of_watch (at cell.old.watches m) ≡ m }
    ensures machines { (m : MachineValue) → machine_of_watch (at cell.new.watches m) ≡ m }
    ensures limits { cell.new.kept.limits ≡ cell.old.kept.limits }
    ensures works { IfOk result (λ booked. (minds : SixValue Mind) → FitAll cell.old.watches minds
        → Reaches (Acts cell.old.kept.limits plan.now (actors.Machine machine)
        (place (now cell.old.kept.entries minds) cell.old.script cell.old.lost) booked) cell.new.kept.entries
        cell.new.watches cell.new.script cell.new.lost) }
    ensures grown { IfOk result (λ booked. (minds : SixValue Mind) → FitAll cell.old.watches minds
        → cell.new.kept.entries ≡ cell.old.kept.entries ++ option_to_list booked) }
    ensures halts { IfErr result (λ e. (minds : SixValue Mind) → FitAll cell.old.watches minds
        → Halts cell.old.kept.limits plan.now (actors.Machine machine)
        (place (now cell.old.kept.entries minds) cell.old.script cell.old.lost) cell.new.kept.entries e) }
    ensures unchanged { IfErr result (λ _. (minds : SixValue Mind) → FitAll cell.old.watches minds
        → cell.new.kept.entries ≡ cell.old.kept.entries) }
{
    let before = cell.kept.book().journal().len();
    for _turn in 0..plan.turns {
        let reading = plant.read(machine);
        take_step(Step::Turn(machine, reading), plant, cell, plan)?;
        let booked = cell.kept.book().journal().get(before);
        if booked.is_some() {
            return Ok(booked);
        }
    }
    Ok(None)
}

// The operator's next action, if there is one. It answers the entry that he booked.
fn operate<C: Plant, R: Run>(
    plant: &mut C,
    cell: &mut Progress<R>,
    plan: &Plan,
) -> Result<Option<Entry>, End>
    requires { (m : MachineValue) → machine_of_watch (at cell.old.watches m) ≡ m }
    ensures machines { (m : MachineValue) → machine_of_watch (at cell.new.watches m) ≡ m }
    ensures limits { cell.new.kept.limits ≡ cell.old.kept.limits }
    ensures operates { IfOk result (λ booked. (minds : SixValue Mind) → FitAll cell.old.watches minds
        → Reaches (Acts cell.old.kept.limits plan.now actors.Operator
        (place (now cell.old.kept.entries minds) cell.old.script cell.old.lost) booked) cell.new.kept.entries
        cell.new.watches cell.new.script cell.new.lost) }
    ensures grown { IfOk result (λ booked. (minds : SixValue Mind) → FitAll cell.old.watches minds
        → cell.new.kept.entries ≡ cell.old.kept.entries ++ option_to_list booked) }
    ensures halts { IfErr result (λ e. (minds : SixValue Mind) → FitAll cell.old.watches minds
        → Halts cell.old.kept.limits plan.now actors.Operator
        (place (now cell.old.kept.entries minds) cell.old.script cell.old.lost) cell.new.kept.entries e) }
    ensures unchanged { IfErr result (λ _. (minds : SixValue Mind) → FitAll cell.old.watches minds
        → cell.new.kept.entries ≡ cell.old.kept.entries) }
{
    let before = cell.kept.book().journal().len();
    act(plant, cell, plan)?;
    Ok(cell.kept.book().journal().get(before))
}

// Lets the actor of an entry act. It answers the entry that he booked.
fn let_act<C: Plant, R: Run>(
    wanted: &Entry,
    plant: &mut C,
    cell: &mut Progress<R>,
    plan: &Plan,
) -> Result<Option<Entry>, End>
    requires { (m : MachineValue) → machine_of_watch (at cell.old.watches m) ≡ m }
    ensures machines { (m : MachineValue) → machine_of_watch (at cell.new.watches m) ≡ m }
    ensures limits { cell.new.kept.limits ≡ cell.old.kept.limits }
    ensures acts { IfOk result (λ booked. (minds : SixValue Mind) → FitAll cell.old.watches minds
        → Reaches (Acts cell.old.kept.limits plan.now (actor_of wanted.now)
        (place (now cell.old.kept.entries minds) cell.old.script cell.old.lost) booked) cell.new.kept.entries
        cell.new.watches cell.new.script cell.new.lost) }
    ensures grown { IfOk result (λ booked. (minds : SixValue Mind) → FitAll cell.old.watches minds
        → cell.new.kept.entries ≡ cell.old.kept.entries ++ option_to_list booked) }
    ensures halts { IfErr result (λ e. (minds : SixValue Mind) → FitAll cell.old.watches minds
        → Halts cell.old.kept.limits plan.now (actor_of wanted.now)
        (place (now cell.old.kept.entries minds) cell.old.script cell.old.lost) cell.new.kept.entries e) }
    ensures unchanged { IfErr result (λ _. (minds : SixValue Mind) → FitAll cell.old.watches minds
        → cell.new.kept.entries ≡ cell.old.kept.entries) }
{
    match actor_of(*wanted) {
        Actor::Machine(machine) => work(machine, plant, cell, plan),
        Actor::Operator => operate(plant, cell, plan),
    }
}

// In place of an entry of this number another one was booked, or none.
fn parted(number: u32, wanted: &Entry, booked: Option<Entry>) -> Followed
    ensures { result ≡ Followed.Parted number wanted.now booked }
{
    Followed::Parted {
        number,
        wanted: *wanted,
        booked,
    }
}

// Follows one entry of a journal, of this number. The error is how the journal was followed where this entry wasn't
// booked.
fn follow_entry<C: Plant, R: Run>(
    number: u32,
    wanted: &Entry,
    plant: &mut C,
    cell: &mut Progress<R>,
    plan: &Plan,
) -> Result<(), Followed>
    requires { (m : MachineValue) → machine_of_watch (at cell.old.watches m) ≡ m }
    ensures machines { (m : MachineValue) → machine_of_watch (at cell.new.watches m) ≡ m }
    ensures limits { cell.new.kept.limits ≡ cell.old.kept.limits }
    ensures acts { IfOk result (λ _. (minds : SixValue Mind) → FitAll cell.old.watches minds
        → Reaches (Acts cell.old.kept.limits plan.now (actor_of wanted.now)
        (place (now cell.old.kept.entries minds) cell.old.script cell.old.lost) (Some wanted.now)) cell.new.kept.entries
        cell.new.watches cell.new.script cell.new.lost) }
    ensures ends { IfErr result (λ how. (minds : SixValue Mind) → FitAll cell.old.watches minds
        → EndsAt cell.old.kept.limits plan.now (place (now cell.old.kept.entries minds) cell.old.script cell.old.lost)
        number wanted.now cell.new.kept.entries how) }
{
    match let_act(wanted, plant, cell, plan) {
        Ok(Some(booked)) => {
            if is_entry(&booked, wanted) {
                Ok(())
            } else {
                Err(parted(number, wanted, Some(booked)))
            }
        }
        Ok(None) => Err(parted(number, wanted, None)),
        Err(End::Memory) => Err(Followed::Memory),
        Err(_) => Err(parted(number, wanted, None)),
    }
}

// Follows the entries of a journal, until one isn't booked.
fn follow_entries<C: Plant, R: Run>(
    journal: &Journal,
    plant: &mut C,
    cell: &mut Progress<R>,
    plan: &Plan,
) -> Followed
    requires { (m : MachineValue) → machine_of_watch (at cell.old.watches m) ≡ m }
    ensures machines { (m : MachineValue) → machine_of_watch (at cell.new.watches m) ≡ m }
    ensures limits { cell.new.kept.limits ≡ cell.old.kept.limits }
    ensures ends { (minds : SixValue Mind) → FitAll cell.old.watches minds
        → Ends cell.old.kept.limits plan.now (place (now cell.old.kept.entries minds) cell.old.script cell.old.lost)
        journal.now.entries cell.new.kept.entries result }
{
    for i in 0..journal.len() {
        let wanted = journal.at(i);
        if let Err(followed) = follow_entry(i + 1, &wanted, plant, cell, plan) {
            return followed;
        }
    }
    Followed::Whole
}

/// Follows a journal over a cell on one thread, into an empty book within the plan's limits: for each of its entries
/// the entry's actor alone acts, until he books one. A machine takes turns at what it shows, at most as many as the
/// plan has; the operator does his next action, if there is one. It ends at the first entry in whose place another is
/// booked, or none. The cell is always reached, and its rounds are neither opened nor closed. The error is that the
/// book's memory was refused.
pub fn follow_over<C: Plant, R: Run>(
    alloc: Global,
    blanks: Blanks,
    cell: &mut C,
    script: Script,
    plan: &Plan,
    journal: &Journal,
) -> Result<Following, AllocError>
    requires parts { 0 < R.parts }
    requires limits { R.limits ≡ limits_of plan.now }
    requires ledgers { AreBlank R.Run blanks }
    requires reached { IsReached C.told }
    ensures limits { IfOk result (λ following. following.book.limits ≡ R.limits) }
    ensures followed { IfOk result (λ following. IsFollowed R.limits plan.now script journal.now.entries
        following.book.entries following.followed) }
{
    let book = empty_book(alloc, plan)?;
    let watches = Watches::start(&book);
    let (kept, shares) = Kept::<R>::new(book, blanks);
    let mut progress = Progress {
        kept,
        shares,
        watches,
        ran: Ran::new(alloc),
        script,
        lost: false,
    };
    let followed = follow_entries(journal, cell, &mut progress, plan);
    progress.kept.is_lawful();
    Ok(Following {
        book: progress.kept.into_book(),
        followed,
    })
}
