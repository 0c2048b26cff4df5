//! A new run's book.
ghost use Rattle.std.specs.Prelude.{◌≡◌, [], IfOk};
ghost use Rattle.cell_turns.specs.Books.{limits_of};

use cell_ports::Plan;
use plate_book::Book;
use std::alloc::{AllocError, Global};

/// An empty book within a plan's limits.
pub fn empty_book(alloc: Global, plan: &Plan) -> Result<Book, AllocError>
    ensures { IfOk result (λ book. book ≡ record { limits = limits_of plan.now; entries = [] }) }
{
    match Book::new(alloc, plan.journal_limit, plan.plates) {
        Ok(book) => Ok(book),
        Err(_) => Err(AllocError),
    }
}
