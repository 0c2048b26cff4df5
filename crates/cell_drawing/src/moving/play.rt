//! A journal as it is played: what each entry changes, and when.
ghost use Rattle.cell_journal.specs.Snapshots.{IsCounted, state_of};

use cell_journal::{Journal, Snapshot};
use cell_picture::{Facts, facts_of};
use cell_types::{Entry, MAX_ENTRIES};

/// How many milliseconds a beat has, in which times are counted.
pub const BEAT: u32 = 50;

// How many beats the opening is seen before the first entry, and the end after the last one.
const BEFORE: u32 = 20;

const AFTER: u32 = 40;

// How many beats more than one a motion is seen before the entry that ends it.
const MOTION: u32 = 3;

// How many beats more than one is seen what a failure or the operator has changed.
const FAILURE: u32 = 24;

/// What an entry changes, and when.
#[derive(Clone, Copy)]
pub struct Moment {
    pub entry: Entry,
    /// In beats, from the drawing's start.
    pub time: u32,
    pub before: Facts,
    pub after: Facts,
}

/// Whether an entry ends a motion.
pub fn is_arrival(entry: &Entry) -> bool {
    matches!(
        entry,
        Entry::Arrived { .. } | Entry::Conveyed { .. } | Entry::Forged { .. }
    )
}

/// Whether an entry tells of a failure, or is the operator's.
pub fn is_mishap(entry: &Entry) -> bool {
    matches!(
        entry,
        Entry::Declared { .. }
            | Entry::StopAsked { .. }
            | Entry::Quarantined { .. }
            | Entry::Repaired { .. }
            | Entry::Expected { .. }
            | Entry::Reinstated { .. }
    )
}

/// The cell while a journal is played: what its first entries left, and how many beats are over.
#[derive(Drop)]
pub struct Player {
    snapshot: Snapshot,
    time: u32,
    ghost counted: { IsCounted (state_of snapshot) },
}

impl Player {
    /// The cell at the opening.
    pub fn at_opening() -> Player {
        Player {
            snapshot: Snapshot::opening(),
            time: BEFORE,
        }
    }

    /// Plays the next entry.
    pub fn play(&mut self, entry: Entry) -> Moment {
        let before = facts_of(&self.snapshot);
        // A journal has no more entries.
        if self.snapshot.totals.entries <= MAX_ENTRIES {
            self.snapshot.change(entry);
        }
        let waits = if is_arrival(&entry) { MOTION } else { 0 };
        let time = self.time.saturating_add(1).saturating_add(waits);
        let stays = if is_mishap(&entry) { FAILURE } else { 0 };
        self.time = time.saturating_add(stays);
        Moment {
            entry,
            time,
            before,
            after: facts_of(&self.snapshot),
        }
    }
}

/// The first entries of a journal, which are played in a loop.
#[derive(Clone, Copy)]
pub struct Reel<'a> {
    pub journal: &'a Journal,
    pub entries: u32,
    /// How many beats they take.
    pub total: u32,
}

impl<'a> Reel<'a> {
    /// The first `entries` entries of a journal.
    pub fn new(journal: &'a Journal, entries: u32) -> Reel<'a> {
        let mut player = Player::at_opening();
        for place in 0..entries {
            if let Some(entry) = journal.get(place) {
                let _ = player.play(entry);
            }
        }
        Reel {
            journal,
            entries,
            total: player.time.saturating_add(AFTER),
        }
    }
}
