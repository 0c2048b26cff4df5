//! The cell while events are told, one after the other.
ghost use Rattle.cell_journal.specs.Snapshots.{IsCounted, state_of};

use cell_journal::Snapshot;
use cell_types::{Entry, MAX_ENTRIES};

/// What the entries so far left, in the order in which they are told.
#[derive(Drop)]
pub(crate) struct Walk {
    snapshot: Snapshot,
    ghost counted: { IsCounted (state_of snapshot) },
}

impl Walk {
    /// Before the first entry.
    pub(crate) fn at_opening() -> Walk {
        Walk {
            snapshot: Snapshot::opening(),
        }
    }

    /// What is left now.
    pub(crate) fn now(&self) -> Snapshot {
        self.snapshot
    }

    /// Goes on behind an entry. A journal has at most six entries more than `MAX_ENTRIES`.
    pub(crate) fn pass(&mut self, entry: &Entry) {
        if self.snapshot.totals.entries <= MAX_ENTRIES + 6 {
            self.snapshot.change(*entry);
        }
    }
}
