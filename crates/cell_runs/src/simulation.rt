//! Runs on one thread, over the simulated cell and over ports and hands.
ghost use Rattle.std.specs.Prelude.{◌≡◌, [], IfOk};
ghost use Rattle.cell_runs.specs.Cells.{IsSimulated};
ghost use Rattle.cell_runs.specs.Followed.{IsFollowed};
ghost use Rattle.cell_runs.specs.Rounds.{IsRunFrom};
ghost use Rattle.cell_runs.specs.Runs.{limits_of};

use crate::follow::{Following, follow_over};
use crate::rounds::{Outcome, run_over};
use cell_journal::Journal;
use cell_ledger::Blanks;
use cell_plant::Ported;
use cell_turns::empty_book;
use cell_workers::{OperatorPort, Plan, Port};
use operator_desk::Script;
use plate_book::Book;
use sim_plant::SimPlant;
use std::alloc::{AllocError, Global};
use std::marker::Brand;

/// Runs a cell of ports and hands on one thread, in rounds, from a book's journal on. The cell is where that journal
/// left it.
pub fn run_on<P: Port, O: OperatorPort>(
    alloc: Global,
    book: Book,
    cell: &mut Ported<P, O>,
    script: Script,
    plan: &Plan,
) -> Outcome
    requires { book.limits ≡ limits_of plan.now }
    ensures limits { result.book.limits ≡ limits_of plan.now }
    ensures run { IsRunFrom (limits_of plan.now) plan.now book.entries script result.book.entries result.end }
{
    run_over::<_, Brand>(alloc, book, Blanks::new(1), cell, script, plan)
}

/// Runs the simulated cell on one thread, in rounds, from a book's journal on. The cell is where that journal left it.
pub fn simulate_from(
    alloc: Global,
    book: Book,
    cell: &mut SimPlant<'_>,
    script: Script,
    plan: &Plan,
) -> Outcome
    requires { book.limits ≡ limits_of plan.now }
    ensures limits { result.book.limits ≡ limits_of plan.now }
    ensures simulated { IsSimulated (limits_of plan.now) plan.now cell.old book.entries script cell.new
        result.book.entries result.end }
{
    let blanks = Blanks::new(1);
    run_over::<_, Brand>(alloc, book, blanks, cell, script, plan)
}

/// Runs the simulated cell on one thread, in rounds, with an empty book. The error is that the book's memory was
/// refused.
pub fn simulate(
    alloc: Global,
    cell: &mut SimPlant<'_>,
    script: Script,
    plan: &Plan,
) -> Result<Outcome, AllocError>
    ensures limits { IfOk result (λ outcome. outcome.book.limits ≡ limits_of plan.now) }
    ensures simulated { IfOk result (λ outcome. IsSimulated (limits_of plan.now) plan.now cell.old [] script cell.new
        outcome.book.entries outcome.end) }
{
    let book = empty_book(alloc, plan)?;
    Ok(simulate_from(alloc, book, cell, script, plan))
}

/// Follows a journal over a cell of ports and hands on one thread: for each of its entries the entry's actor alone
/// acts, until he books one. The error is that the book's memory was refused.
pub fn follow_journal<P: Port, O: OperatorPort>(
    alloc: Global,
    cell: &mut Ported<P, O>,
    script: Script,
    plan: &Plan,
    journal: &Journal,
) -> Result<Following, AllocError>
    ensures limits { IfOk result (λ following. following.book.limits ≡ limits_of plan.now) }
    ensures followed { IfOk result (λ following. IsFollowed (limits_of plan.now) plan.now script journal.now.entries
        following.book.entries following.followed) }
{
    follow_over::<_, Brand>(alloc, Blanks::new(1), cell, script, plan, journal)
}

/// Follows a journal over the simulated cell on one thread, as `follow_journal` does over ports and hands. The cell is
/// where runs start.
pub(crate) fn follow_simulated(
    alloc: Global,
    cell: &mut SimPlant<'_>,
    script: Script,
    plan: &Plan,
    journal: &Journal,
) -> Result<Following, AllocError>
    ensures limits { IfOk result (λ following. following.book.limits ≡ limits_of plan.now) }
    ensures followed { IfOk result (λ following. IsFollowed (limits_of plan.now) plan.now script journal.now.entries
        following.book.entries following.followed) }
{
    follow_over::<_, Brand>(alloc, Blanks::new(1), cell, script, plan, journal)
}
