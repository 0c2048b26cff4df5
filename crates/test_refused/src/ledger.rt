//! Books with ledgers.
ghost use Rattle.std.specs.Prelude.{◌≡◌, ◌<◌};
ghost use Rattle.cell_ledger.specs.New.{AreBlank};

use crate::book::{CLEARED, book_to_clear, check_as_it_was, check_cleared, totals};
use cell_ledger::{Blanks, Kept, Run, Shares};
use plate_book::{Book, Refusal};
use std::alloc::Global;
use std::marker::Brand;
use std::process::Abort;
use test_samples::{call_begins, call_ends, entry_of, plate};

// Clears the plate in a book with ledgers, whose shares count its entries.
fn clear_with<R: Run>(rt: &impl Abort, alloc: Global, kept: &mut Kept<R>, shares: &mut Shares<R>) {
    let first = plate(1).expect(rt, "a plate");
    let entry = entry_of(CLEARED).expect(rt, "a record");
    call_begins(alloc);
    let answer = kept.apply(shares, entry);
    call_ends(alloc, answer.is_err());
    if let Err(why) = answer {
        assert!(rt; why == Refusal::OutOfMemory);
        check_as_it_was(rt, kept.book(), first);
        assert!(rt; shares.counts() == totals(9, 0));
        let entry = entry_of(CLEARED).expect(rt, "a record");
        let again = kept.apply(shares, entry);
        assert!(rt; again == Ok(()));
    }
    check_cleared(rt, kept.book(), first);
    assert!(rt; shares.counts() == totals(10, 1));
}

// The same of a book with blank ledgers.
fn clear_kept<R: Run>(rt: &impl Abort, alloc: Global, book: Book, blanks: Blanks)
    requires parts { 0 < R.parts }
    requires limits { book.limits ≡ R.limits }
    requires ledgers { AreBlank R.Run blanks }
{
    let (mut kept, mut shares) = Kept::<R>::new(book, blanks);
    clear_with(rt, alloc, &mut kept, &mut shares);
}

#[test]
fn kept_apply(rt: HostRuntime) {
    let (alloc, blanks) = (rt.alloc(), Blanks::new(1));
    let book = book_to_clear(&rt, alloc);
    clear_kept::<Brand>(&rt, alloc, book, blanks);
}
