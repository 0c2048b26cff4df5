//! Who holds which zone from when on.
use crate::measures::Held;
use cell_types::{Entry, Machine, ZONES, Zone, owner, zone_number};

// Who holds a zone, and since when.
#[derive(Clone, Copy, Debug)]
struct Holder {
    machine: Machine,
    since: u64,
}

/// How long each zone was held, and who holds it.
#[derive(Clone, Copy, Debug)]
pub(crate) struct Holders {
    held: [Held; 5],
    now: [Option<Holder>; 5],
    // Who holds each zone, or held it last.
    last: [Option<Holder>; 5],
}

impl Holders {
    pub(crate) const NONE: Holders = Holders {
        held: [Held {
            by_owner: 0,
            by_visitor: 0,
        }; 5],
        now: [None; 5],
        last: [None; 5],
    };

    // Counts how long a zone was held, which is free then.
    fn free(&mut self, zone: Zone, time: u64) {
        let place = zone_number(zone);
        let Some(holder) = self.now[place] else {
            return;
        };
        self.now[place] = None;
        let span = time.saturating_sub(holder.since);
        let held = &mut self.held[place];
        if holder.machine == owner(zone) {
            held.by_owner = held.by_owner.saturating_add(span);
        } else {
            held.by_visitor = held.by_visitor.saturating_add(span);
        }
    }

    // Whether a machine holds a zone.
    fn is_held_by(&self, zone: Zone, machine: Machine) -> bool {
        match self.now[zone_number(zone)] {
            Some(holder) => holder.machine == machine,
            None => false,
        }
    }

    // From when on another machine than this one held a zone last, if one did.
    fn other_since(&self, machine: Machine, zone: Zone) -> Option<u64> {
        let last = self.last[zone_number(zone)];
        match last {
            Some(holder) => {
                if holder.machine == machine {
                    None
                } else {
                    Some(holder.since)
                }
            }
            None => None,
        }
    }

    /// From when on another machine held the zone that an entry claims, if one did before.
    pub(crate) fn waits_from(&self, entry: &Entry) -> Option<u64> {
        match entry {
            Entry::Claimed { machine, zone } => self.other_since(*machine, *zone),
            _ => None,
        }
    }

    /// Does what an entry says of zones.
    pub(crate) fn follow(&mut self, entry: &Entry, end: u64) {
        match entry {
            Entry::Claimed { machine, zone } => {
                let holder = Some(Holder {
                    machine: *machine,
                    since: end,
                });
                self.now[zone_number(*zone)] = holder;
                self.last[zone_number(*zone)] = holder;
            }
            Entry::Yielded { zone, .. } => self.free(*zone, end),
            Entry::Repaired { machine } => self.free_all_of(*machine, end),
            _ => {}
        }
    }

    // Frees the zones that a machine holds.
    fn free_all_of(&mut self, machine: Machine, time: u64) {
        for zone in ZONES {
            if self.is_held_by(zone, machine) {
                self.free(zone, time);
            }
        }
    }

    /// How long each zone was held up to a time.
    pub(crate) fn held_until(mut self, time: u64) -> [Held; 5] {
        for zone in ZONES {
            self.free(zone, time);
        }
        self.held
    }
}
