//! What is told of how a journal's time goes.
ghost use Rattle.std.specs.Prelude.{◌≡◌, ◌<◌, ◌+◌, ◌^◌, Some, slice_get};
ghost use Rattle.cell_types.specs.Same.{machine_number, zone_number};
ghost use Rattle.cell_measures.specs.Sums.{whole};

use cell_types::{Machine, Zone, machine_number, zone_number};
use std::alloc::AllocError;

/// The least, the median and the greatest of some times. Of an even number of times the median is the lower of the two
/// in the middle.
#[derive(Clone, Copy, Debug, PartialEq, Eq)]
pub struct Spread {
    pub least: u64,
    pub median: u64,
    pub most: u64,
}

impl Spread {
    /// The spread of these times, which it puts in order; `None` of no times.
    pub(crate) fn of(times: &mut Vec<u64>) -> Result<Option<Spread>, AllocError> {
        times.sort()?;
        let middle = times.len().saturating_sub(1) / 2;
        match (times.first(), times.get(middle), times.last()) {
            (Some(least), Some(median), Some(most)) => Ok(Some(Spread {
                least: *least,
                median: *median,
                most: *most,
            })),
            _ => Ok(None),
        }
    }
}

/// How a machine spent the time. A time that is of several kinds is counted for the first of them, in this order; the
/// five add up to the journal's time.
#[derive(Clone, Copy, Debug, PartialEq, Eq)]
pub struct Spent {
    /// Failed: from a declaration to the repair.
    pub failed: u64,
    /// At least one of its axes moved.
    pub moving: u64,
    /// It waited to claim a zone that wasn't free.
    pub waiting: u64,
    /// It held a zone.
    pub holding: u64,
    /// None of these.
    pub idle: u64,
}

impl Spent {
    pub(crate) const NOTHING: Spent = Spent {
        failed: 0,
        moving: 0,
        waiting: 0,
        holding: 0,
        idle: 0,
    };

    /// Adds a time.
    pub(crate) fn add(&mut self, doing: Doing, span: u64)
        requires { whole self.old + span < 2 ^ 64 }
        ensures { whole self.new ≡ whole self.old + span }
    {
        match doing {
            Doing::Failed => self.failed += span,
            Doing::Moving => self.moving += span,
            Doing::Waiting => self.waiting += span,
            Doing::Holding => self.holding += span,
            Doing::Idle => self.idle += span,
        }
    }
}

/// What a machine does at a time.
#[derive(Clone, Copy, Debug)]
pub(crate) enum Doing {
    Failed,
    Moving,
    Waiting,
    Holding,
    Idle,
}

/// How long a zone was held, by each of the two machines that may.
#[derive(Clone, Copy, Debug, PartialEq, Eq)]
pub struct Held {
    pub by_owner: u64,
    pub by_visitor: u64,
}

/// How the time of a journal goes, where each entry is as early as it can be. All times are in the units of the
/// durations.
#[derive(Clone, Copy, Debug, PartialEq, Eq)]
pub struct Measures {
    /// How many entries the journal has.
    pub entries: u32,
    /// When the last entry ends.
    pub time: u64,
    /// How many plates were delivered.
    pub delivered: u64,
    /// The times of the delivered plates, from laying in to taking out.
    pub plate: Option<Spread>,
    /// A thousand times the plates for each 1,000 units after the first delivery; `None` where all are delivered at
    /// once.
    pub rate: Option<u64>,
    /// How each machine spent the time, in the order of machines.
    pub machines: [Spent; 6],
    /// How long each zone was held, in the order of zones.
    pub zones: [Held; 5],
    /// How many declarations there are.
    pub declared: u64,
    /// The times from declarations to the next delivery, of those that have one.
    pub to_delivery: Option<Spread>,
    /// The times from declarations to the repair, of those that have one.
    pub to_repair: Option<Spread>,
}

impl Measures {
    /// Those of a journal without entries.
    pub const NONE: Measures = Measures {
        entries: 0,
        time: 0,
        delivered: 0,
        plate: None,
        rate: None,
        machines: [Spent::NOTHING; 6],
        zones: [Held {
            by_owner: 0,
            by_visitor: 0,
        }; 5],
        declared: 0,
        to_delivery: None,
        to_repair: None,
    };

    /// How a machine spent the time.
    pub fn of_machine(&self, machine: Machine) -> Spent
        ensures spent { slice_get self.now.machines (machine_number machine) ≡ Some result }
    {
        self.machines[machine_number(machine)]
    }

    /// How long a zone was held.
    pub fn of_zone(&self, zone: Zone) -> Held
        ensures held { slice_get self.now.zones (zone_number zone) ≡ Some result }
    {
        self.zones[zone_number(zone)]
    }
}
