//! The cell after the first entries of a book.
ghost use Rattle.std.specs.Prelude.{◌≡◌, ◌≤◌, length, slice_index_or, take};
ghost use Rattle.cell_types.specs.declared.words.Machine.{Machine};
ghost use Rattle.cell_types.specs.Same.{machine_number};
ghost use Rattle.cell_types.specs.After.{after};
ghost use Rattle.cell_journal.specs.Snapshots.{seen, state_of};

use cell_journal::Snapshot;
use plate_book::Book;

/// The cell after the first entries of a book: what they left, and how many plates each machine forged. It is read as
/// `Reads` of cell_reads.
#[derive(Drop)]
pub struct Past<'a> {
    pub(crate) book: &'a Book,
    pub(crate) taken: u32,
    pub(crate) left: Snapshot,
    pub(crate) forged: [u32; 6],
    ghost within: { taken ≤ length book.now.entries },
    ghost leaves: { state_of left ≡ seen (after (take taken book.now.entries)) },
    ghost counts: { (m : Machine) → slice_index_or forged (machine_number m) 0
        ≡ (after (take taken book.now.entries)).forged_by m },
}
