//! A run on one thread, in rounds.
ghost use Rattle.std.specs.Prelude.{◌≡◌, ◌<◌};
ghost use Rattle.cell_ledger.specs.New.{AreBlank};
ghost use Rattle.cell_runs.specs.Cells.{IsReached, Ran};
ghost use Rattle.cell_runs.specs.Rounds.{IsRunFrom};

use cell_ledger::{Blanks, Run};
use cell_plant::{Plant, Unkept};
use cell_rounds::{Start, Terms, control};
use cell_workers::{End, Plan};
use operator_desk::Script;
use plate_book::Book;
use std::alloc::Global;

/// What a run left: its book, and how it ended.
#[derive(Drop)]
pub struct Outcome {
    pub book: Book,
    pub end: End,
}

/// Runs a cell on one thread, in rounds, from the book's journal on, until all are idle or an end is set: each machine
/// in order takes a turn at what it shows, and then the operator does his next action. The cell is always reached, and
/// nobody does or wants anything there.
pub fn run_over<C: Plant, R: Run>(
    alloc: Global,
    book: Book,
    blanks: Blanks,
    cell: &mut C,
    script: Script,
    plan: &Plan,
) -> Outcome
    requires parts { 0 < R.parts }
    requires limits { book.limits ≡ R.limits }
    requires ledgers { AreBlank R.Run blanks }
    requires reached { IsReached C.told }
    ensures limits { result.book.limits ≡ R.limits }
    ensures run { IsRunFrom R.limits plan.now book.entries script result.book.entries result.end }
    // The cell was asked and answered all that such a run asks.
    ensures ran { Ran C.told R.limits plan.now cell.old book.entries script cell.new result.book.entries result.end }
{
    let start = Start {
        book,
        script,
        pending: None,
    };
    let terms = Terms { plan, waits: false };
    let ran = control::<_, _, R>(alloc, cell, &mut Unkept, start, blanks, terms);
    // The cell is reached, and no entry is kept, so that it halted by an end
    Outcome {
        book: ran.book,
        end: ran.halt.end(),
    }
}
