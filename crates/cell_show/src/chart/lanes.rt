//! The lanes of a chart, and what goes on in each.
use crate::chart::bar::What;
use cell_types::{
    Axis, Machine, Station, Zone, axis_number, machine_number, station_number, zone_number,
};

/// A lane of a chart. That of a machine's failure is behind the lanes of its axes.
#[derive(Clone, Copy, Debug)]
pub(crate) enum Lane {
    Axis(Axis),
    Zone(Zone),
    Station(Station),
    Failure(Machine),
}

/// How high a lane is, and where the first one begins.
const HEIGHT: u64 = 22;

const TOP: u64 = 74;

/// How far the zones and the stations are from what stands above them.
const SPACE: u64 = 16;

impl Lane {
    // Its place among all lanes.
    fn place(self) -> usize {
        match self {
            Lane::Axis(axis) => axis_number(axis),
            Lane::Zone(zone) => zone_number(zone).saturating_add(9),
            Lane::Station(station) => station_number(station).saturating_add(14),
            Lane::Failure(machine) => machine_number(machine).saturating_add(23),
        }
    }

    /// Where it begins, from the drawing's upper edge.
    pub(crate) fn top(self) -> u64 {
        let (row, space) = match self {
            Lane::Axis(axis) => (axis_number(axis), 0),
            Lane::Zone(_) => (self.place(), SPACE),
            Lane::Station(_) => (self.place(), SPACE.saturating_mul(2)),
            Lane::Failure(machine) => (first_row(machine), 0),
        };
        TOP.saturating_add(HEIGHT.saturating_mul(row as u64))
            .saturating_add(space)
    }

    /// How high it is.
    pub(crate) fn height(self) -> u64 {
        match self {
            Lane::Failure(machine) => HEIGHT.saturating_mul(row_count(machine)),
            _ => HEIGHT,
        }
    }
}

/// Where the last lane ends.
pub(crate) fn bottom() -> u64 {
    Lane::Station(Station::DepEnd).top().saturating_add(HEIGHT)
}

// The row of a machine's first axis.
fn first_row(machine: Machine) -> usize {
    match machine {
        Machine::Feed => 0,
        Machine::Table => 1,
        Machine::Robot => 3,
        Machine::Press1 => 6,
        Machine::Press2 => 7,
        Machine::Deposit => 8,
    }
}

// How many axes a machine has.
fn row_count(machine: Machine) -> u64 {
    match machine {
        Machine::Table => 2,
        Machine::Robot => 3,
        _ => 1,
    }
}

/// What goes on in a lane, and since when.
#[derive(Clone, Copy, Debug)]
pub(crate) struct Open {
    pub(crate) what: What,
    pub(crate) since: u64,
}

/// What goes on in each lane.
#[derive(Clone, Copy, Debug)]
pub(crate) struct Lanes {
    open: [Option<Open>; 29],
}

impl Lanes {
    /// Lanes in which nothing goes on.
    pub(crate) const EMPTY: Lanes = Lanes { open: [None; 29] };

    /// From a time on this goes on in a lane.
    pub(crate) fn begin(&mut self, lane: Lane, what: What, since: u64) {
        if let Some(open) = self.open.get_mut(lane.place()) {
            *open = Some(Open { what, since });
        }
    }

    /// What goes on in a lane, which ends.
    pub(crate) fn take(&mut self, lane: Lane) -> Option<Open> {
        let taken = self.open_in(lane);
        if let Some(open) = self.open.get_mut(lane.place()) {
            *open = None;
        }
        taken
    }

    // What goes on in a lane.
    fn open_in(&self, lane: Lane) -> Option<Open> {
        match self.open.get(lane.place()) {
            Some(open) => *open,
            None => None,
        }
    }

    /// The machine that holds a zone.
    pub(crate) fn holder(&self, zone: Zone) -> Option<Machine> {
        match self.open_in(Lane::Zone(zone)) {
            Some(
                Open {
                    what: What::Holder(machine),
                    ..
                },
            ) => Some(machine),
            _ => None,
        }
    }
}
