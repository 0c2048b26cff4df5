//! What is kept of the entries so far.
ghost use Rattle.std.specs.Prelude.{◌≡◌, ◌+◌, [], ◌∷◌, ℕ, List, length, max};
ghost use Rattle.cell_types.specs.After.{Snapshot as State, opening, step};
ghost use Rattle.cell_journal.specs.Snapshots.{HasRoom, seen, seen_step, state_of};
ghost use Rattle.cell_measures.specs.Times.{Ended, motion_of};
ghost use Rattle.cell_events.specs.Events.{begin_of};
ghost use Rattle.cell_events.specs.Places.{place_told, plate_told};
ghost use Rattle.cell_events.specs.Pasts.{Keeps};

use crate::event::Site;
use crate::places::{place_told, plate_told};
use cell_journal::Snapshot;
use cell_measures::motion_of;
use cell_types::{Entry, PlateId, axis_number};

/// What the entries so far left, and when each axis was started last.
#[derive(Drop)]
pub(crate) struct Past {
    snapshot: Snapshot,
    starts: [u64; 9],
}

// The later of two times.
fn later(one: u64, other: u64) -> u64
    ensures { result ≡ max one other }
{
    if one < other { other } else { one }
}

impl Past {
    /// Before the first entry.
    pub(crate) fn at_opening() -> Past
        ensures { Keeps result [] opening }
    {
        Past {
            snapshot: Snapshot::opening(),
            starts: [0; 9],
        }
    }

    /// When the next entry began, which ends at a time.
    pub(crate) fn begin(&self, entry: &Entry, end: u64) -> u64
        ensures { (past : List Ended) (s : State) → Keeps self.now past s
            → result ≡ begin_of past (motion_of entry.now) end }
    {
        match motion_of(*entry) {
            Some(motion) => self.starts[axis_number(motion.axis)],
            None => end,
        }
    }

    /// The plate of which the next entry tells.
    pub(crate) fn plate(&self, entry: &Entry) -> Option<PlateId>
        ensures { (past : List Ended) (s : State) → Keeps self.now past s → result ≡ plate_told s.plate entry.now }
    {
        plate_told(&self.snapshot, entry)
    }

    /// Where that is of which the next entry tells.
    pub(crate) fn place(&self, entry: &Entry) -> Option<Site>
        ensures { (past : List Ended) (s : State) → Keeps self.now past s → result ≡ place_told s.plate entry.now }
    {
        place_told(&self.snapshot, entry)
    }

    /// Goes on behind an entry that ends at a time.
    pub(crate) fn pass(&mut self, entry: &Entry, end: u64)
        requires { HasRoom (state_of self.old.snapshot) }
        ensures { (past : List Ended) (s : State) → Keeps self.old past s
            → Keeps self.new (record { entry = entry.now; at = end } ∷ past) (step entry.now s) }
    {
        self.snapshot.change(*entry);
        if let Entry::Started { axis, .. } = entry {
            let place = axis_number(*axis);
            self.starts[place] = later(end, self.starts[place]);
        }
    }
}
