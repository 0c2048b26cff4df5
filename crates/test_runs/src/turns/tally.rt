//! What many schedules made, counted together.
use crate::turns::stage::Stage;
use cell_journal::Journal;
use cell_ledger::Run;
use cell_types::{Entry, Kind};

/// How many entries of each kind, and what else came, in some schedules.
#[derive(Clone, Copy, Debug, Default)]
pub(crate) struct Tally {
    pub(crate) schedules: u32,
    pub(crate) steps: u64,
    /// By the place of the kind.
    pub(crate) kinds: [u32; 17],
    /// The declared causes, by their place.
    pub(crate) causes: [u32; 11],
    /// Turns that were refused as the journal was full, and as no plate may be admitted.
    pub(crate) full: u32,
    pub(crate) past_plates: u32,
    /// Commands and acts by hand that failed.
    pub(crate) commands_failed: u32,
    pub(crate) acts_failed: u32,
    /// Entries by hand that weren't booked, and weren't to be.
    pub(crate) spared: u32,
    /// Schedules in which some plate was delivered.
    pub(crate) delivering: u32,
}

// The kind of an entry.
fn kind_of(entry: &Entry) -> Kind {
    match entry {
        Entry::Lamp { .. } => Kind::Lamp,
        Entry::Admitted { .. } => Kind::Admitted,
        Entry::Claimed { .. } => Kind::Claimed,
        Entry::Yielded { .. } => Kind::Yielded,
        Entry::Started { .. } => Kind::Started,
        Entry::Arrived { .. } => Kind::Arrived,
        Entry::Conveyed { .. } => Kind::Conveyed,
        Entry::Forged { .. } => Kind::Forged,
        Entry::Gripped { .. } => Kind::Gripped,
        Entry::Dropped { .. } => Kind::Dropped,
        Entry::Delivered { .. } => Kind::Delivered,
        Entry::Declared { .. } => Kind::Declared,
        Entry::StopAsked { .. } => Kind::StopAsked,
        Entry::Quarantined { .. } => Kind::Quarantined,
        Entry::Repaired { .. } => Kind::Repaired,
        Entry::Expected { .. } => Kind::Expected,
        Entry::Reinstated { .. } => Kind::Reinstated,
    }
}

impl Tally {
    // Counts the entries of a journal.
    fn count_entries(&mut self, journal: &Journal) {
        for place in 0..journal.len() {
            let Some(entry) = journal.get(place) else {
                return;
            };
            let kind = kind_of(&entry) as usize;
            self.kinds[kind] = self.kinds[kind].saturating_add(1);
            if let Entry::Declared { cause, .. } = entry {
                let cause = cause as usize;
                self.causes[cause] = self.causes[cause].saturating_add(1);
            }
        }
    }

    /// Counts a schedule of so many steps, by what is left of it, beside what is counted on its way.
    pub(crate) fn count_schedule<R: Run, P, O>(&mut self, steps: usize, stage: &Stage<R, P, O>) {
        let book = stage.kept.book();
        let ports = &stage.ports;
        self.schedules = self.schedules.saturating_add(1);
        self.steps = self.steps.saturating_add(steps as u64);
        self.count_entries(book.journal());
        if book.totals().delivered > 0 {
            self.delivering = self.delivering.saturating_add(1);
        }
        self.acts_failed = self.acts_failed.saturating_add(stage.hands.failures());
        for &port in &[
            &ports.feed,
            &ports.table,
            &ports.robot,
            &ports.press1,
            &ports.press2,
            &ports.deposit,
        ] {
            self.commands_failed = self.commands_failed.saturating_add(port.failures());
        }
    }

    /// Whether all that can come came in a thousand schedules: many entries of every kind, and many faults of each
    /// cause but stray positions, which are rare; turns were refused for either reason, ports and hands failed, and in
    /// many schedules plates got through the cell.
    pub(crate) fn has_all(&self) -> bool {
        let mut common = 0u32;
        for made in self.causes {
            common = common.saturating_add(u32::from(made >= 50));
        }
        for made in self.kinds {
            if made < 100 {
                return false;
            }
        }
        let refused = self.full.min(self.past_plates).min(self.spared);
        let failed = self.commands_failed.min(self.acts_failed);
        let is_whole = self.schedules == 1_000 && common >= 10;
        is_whole && refused >= 1_000 && failed >= 100 && self.delivering >= 200
    }
}
