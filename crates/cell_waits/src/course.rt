//! The cell after more and more entries of a book.
ghost use Rattle.std.specs.Prelude.{◌≡◌, ◌≤◌, ◌<◌, ◌+◌, ◌^◌, if◌then◌else◌, length, slice_index_or, take};
ghost use Rattle.cell_types.specs.declared.words.Machine.{Machine};
ghost use Rattle.cell_types.specs.Same.{machine_number};
ghost use Rattle.cell_rules.specs.Situations.{situation_of};
ghost use Rattle.cell_rules.specs.Views.{is_forged_by};
ghost use Rattle.cell_waits.specs.Past.{entries_of, taken_of, told};

use crate::past::Past;
use cell_journal::Snapshot;
use cell_types::{Entry, machine_number};
use plate_book::Book;

// Counts a forging for the machine that did it.
fn note_forging(counts: &mut [u32; 6], entry: &Entry)
    requires { (m : Machine) → slice_index_or counts.old (machine_number m) 0 + 1 < 2 ^ 32 }
    ensures { (m : Machine) → slice_index_or counts.new (machine_number m) 0
        ≡ (if is_forged_by m entry.now then slice_index_or counts.old (machine_number m) 0 + 1 else slice_index_or
        counts.old (machine_number m) 0) }
{
    if let Entry::Forged { press, .. } = entry {
        counts[machine_number(*press)] += 1;
    }
}

impl<'a> Past<'a> {
    /// The cell at a book's opening.
    pub fn at_opening(book: &'a Book) -> Self
        ensures entries { entries_of result ≡ book.now.entries }
        ensures taken { taken_of result ≡ 0 }
    {
        Past {
            book,
            taken: 0,
            left: Snapshot::opening(),
            forged: [0; 6],
        }
    }

    /// The cell after the first `i` entries of a book, which are gone through one by one.
    pub fn after(book: &'a Book, i: u32) -> Self
        requires { i ≤ length book.now.entries }
        ensures entries { entries_of result ≡ book.now.entries }
        ensures taken { taken_of result ≡ i }
    {
        let mut past = Past::at_opening(book);
        for _taken in 0..i {
            past.step();
        }
        past
    }

    /// Goes on by one entry, if there is one more.
    pub fn step(&mut self)
        ensures entries { entries_of self.new ≡ entries_of self.old }
        ensures taken { taken_of self.old < length (entries_of self.old) → taken_of self.new ≡ taken_of self.old + 1 }
        ensures stays { taken_of self.old ≡ length (entries_of self.old) → taken_of self.new ≡ taken_of self.old }
    {
        let journal = self.book.journal();
        if self.taken < journal.len() {
            let entry = journal.at(self.taken);
            note_forging(&mut self.forged, &entry);
            self.left.change(entry);
            self.taken += 1;
        }
    }

    /// The cell tells what the entries before it tell. The call does nothing: its clause is for proofs.
    pub fn is_told(&self)
        ensures { told self.now ≡ situation_of (take (taken_of self.now) (entries_of self.now)) }
    {
        self.book.is_lawful();
    }
}
