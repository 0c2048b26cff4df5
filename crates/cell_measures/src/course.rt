//! What a machine does from entry to entry.
ghost use Rattle.std.specs.Prelude.{◌≡◌, ◌≤◌, max};
ghost use Rattle.cell_measures.specs.Sums.{whole};

use crate::measures::{Doing, Spent};
use cell_types::Entry;

/// How a machine spent the time up to its last entry, and what it has done since.
#[derive(Clone, Copy, Debug)]
pub(crate) struct Course {
    spent: Spent,
    // When its last entry ended.
    since: u64,
    failed_at: Option<u64>,
    moving: u32,
    zones: u32,
}

impl Course {
    pub(crate) const BEGIN: Course = Course {
        spent: Spent::NOTHING,
        since: 0,
        failed_at: None,
        moving: 0,
        zones: 0,
    };

    /// How the machine spent the time up to its last entry.
    pub(crate) fn spent(&self) -> Spent
        ensures { result ≡ self.now.spent }
    {
        self.spent
    }

    /// Lets the time go on. From `waits_from` on the machine waited to claim a zone, if it did nothing else.
    pub(crate) fn go_on(&mut self, time: u64, waits_from: Option<u64>)
        requires { whole self.old.spent ≡ self.old.since }
        ensures whole { whole self.new.spent ≡ self.new.since }
        ensures since { self.new.since ≡ max self.old.since time }
    {
        let time = time.max(self.since);
        let begin = match waits_from {
            Some(from) => from.max(self.since).min(time),
            None => time,
        };
        self.pass(begin, false);
        self.pass(time, true);
    }

    // What the machine does; it may wait for a zone.
    fn doing(&self, waits: bool) -> Doing {
        if self.failed_at.is_some() {
            Doing::Failed
        } else if self.moving > 0 {
            Doing::Moving
        } else if waits {
            Doing::Waiting
        } else if self.zones > 0 {
            Doing::Holding
        } else {
            Doing::Idle
        }
    }

    // Counts the time since the last count.
    fn pass(&mut self, time: u64, waits: bool)
        requires whole { whole self.old.spent ≡ self.old.since }
        requires later { self.old.since ≤ time }
        ensures whole { whole self.new.spent ≡ self.new.since }
        ensures since { self.new.since ≡ time }
    {
        let span = time - self.since;
        let doing = self.doing(waits);
        self.spent.add(doing, span);
        self.since = time;
    }

    /// Does what an entry of the machine says. It gives how long the machine was failed, where the entry is its repair.
    pub(crate) fn follow(&mut self, entry: &Entry, end: u64) -> Option<u64>
        ensures spent { self.new.spent ≡ self.old.spent }
        ensures since { self.new.since ≡ self.old.since }
    {
        match entry {
            Entry::Started { .. } => self.moving = self.moving.saturating_add(1),
            Entry::Arrived { .. } | Entry::Conveyed { .. } | Entry::Forged { .. } => {
                self.moving = self.moving.saturating_sub(1);
            }
            Entry::Claimed { .. } => self.zones = self.zones.saturating_add(1),
            Entry::Yielded { .. } => self.zones = self.zones.saturating_sub(1),
            Entry::Declared { .. } => self.failed_at = Some(end),
            Entry::Repaired { .. } => return self.repair(end),
            _ => {}
        }
        None
    }

    // The machine's axes stand at home, and it holds no zone. It gives how long it was failed.
    fn repair(&mut self, end: u64) -> Option<u64>
        ensures spent { self.new.spent ≡ self.old.spent }
        ensures since { self.new.since ≡ self.old.since }
    {
        self.moving = 0;
        self.zones = 0;
        let failed_at = self.failed_at;
        self.failed_at = None;
        match failed_at {
            Some(at) => Some(end.saturating_sub(at)),
            None => None,
        }
    }
}
