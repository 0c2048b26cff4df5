//! Where the world contradicts entries that were booked.
ghost use Rattle.std.specs.Prelude.{◌<◌, IfSome};

use cell_sim::World;
use cell_types::texts::{axis_word, pose_word, station_word};
use cell_types::{Axis, Entry, Machine, Pose, STATIONS, Station, press_axis, station_of_arm};
use std::fmt;

/// What is so in the world where an entry says otherwise.
#[derive(Clone, Copy, Debug, PartialEq, Eq)]
pub(crate) enum Fact {
    /// The axis is at this pose, or moves and has left it.
    At(Axis, Pose),
    /// The station has no plate.
    Empty(Station),
    /// The station has another plate, laid in at this number.
    Other(Station, u32),
    /// The plate is at this station still.
    Still(Station),
}

impl fmt::Display for Fact {
    fn fmt<W: fmt::Write>(&self, f: &mut fmt::Formatter<W>) -> fmt::Result {
        match *self {
            Fact::At(axis, pose) => write!(f, "{} is at {}", axis_word(axis), pose_word(pose)),
            Fact::Empty(station) => write!(f, "{} is empty", station_word(station)),
            Fact::Other(station, plate) => write!(
                f,
                "{} has the plate laid in as number {plate}",
                station_word(station)
            ),
            Fact::Still(station) => write!(f, "the plate is at {}", station_word(station)),
        }
    }
}

// What contradicts that an axis is at rest at a pose.
fn unless_at(world: &World, axis: Axis, pose: Pose) -> Option<Fact> {
    let state = world.axis_state(axis);
    if state.at == pose && state.going.is_none() {
        None
    } else {
        Some(Fact::At(axis, state.at))
    }
}

// What contradicts that the plate which was laid in at this number is at a station.
fn unless_on(world: &World, station: Station, plate: Option<u32>) -> Option<Fact> {
    match world.plate_at(station) {
        None => Some(Fact::Empty(station)),
        Some(number) if Some(number) == plate => None,
        Some(number) => Some(Fact::Other(station, number)),
    }
}

// What contradicts that the plate which was laid in at this number is out of the cell.
fn unless_out(world: &World, plate: Option<u32>) -> Option<Fact> {
    for station in STATIONS {
        if plate.is_some() && world.plate_at(station) == plate {
            return Some(Fact::Still(station));
        }
    }
    None
}

// What contradicts that a press forged the plate which was laid in at this number.
fn unless_forged(world: &World, press: Machine, plate: Option<u32>) -> Option<Fact> {
    let station = match press {
        Machine::Press1 => Station::Press1,
        Machine::Press2 => Station::Press2,
        _ => return None,
    };
    let axis = press_axis(press)?;
    match unless_at(world, axis, Pose::Top) {
        Some(fact) => Some(fact),
        None => unless_on(world, station, plate),
    }
}

/// What contradicts in the world an entry that was booked and whose command was sent, where its plate, if it names one,
/// was laid in at this number. Entries of which the world knows nothing are never contradicted.
pub(crate) fn contradiction(world: &World, entry: &Entry, plate: Option<u32>) -> Option<Fact> {
    match *entry {
        Entry::Arrived { axis, at } => unless_at(world, axis, at),
        Entry::Conveyed { dest, .. } => unless_on(world, dest, plate),
        Entry::Forged { press, .. } => unless_forged(world, press, plate),
        Entry::Gripped { arm, .. } => unless_on(world, station_of_arm(arm), plate),
        Entry::Dropped { dest, .. } => unless_on(world, dest, plate),
        Entry::Admitted { .. } | Entry::Reinstated { .. } => match world.plate_at(Station::FeedIn) {
            Some(_) => None,
            None => Some(Fact::Empty(Station::FeedIn)),
        },
        Entry::Delivered { .. } => unless_out(world, plate),
        _ => None,
    }
}

/// The kinds of entries that the world can contradict.
pub(crate) const KINDS: usize = 8;

/// Which of these kinds an entry is, from 0, if it is one.
pub(crate) fn kind_of(entry: &Entry) -> Option<usize>
    ensures { IfSome result (λ kind. kind < 8) }
{
    match *entry {
        Entry::Arrived { .. } => Some(0),
        Entry::Conveyed { .. } => Some(1),
        Entry::Forged { .. } => Some(2),
        Entry::Gripped { .. } => Some(3),
        Entry::Dropped { .. } => Some(4),
        Entry::Admitted { .. } => Some(5),
        Entry::Reinstated { .. } => Some(6),
        Entry::Delivered { .. } => Some(7),
        _ => None,
    }
}

/// An entry that the world contradicts.
#[derive(Clone, Copy, Debug)]
pub(crate) struct Untruth {
    pub(crate) round: u32,
    pub(crate) entry: Entry,
    pub(crate) fact: Fact,
}

/// The entries that the world contradicts.
#[derive(Clone, Copy, Debug)]
pub(crate) struct Untruths {
    /// How many they are. At `u32::MAX` the count stays.
    count: u32,
    /// The first of each kind, in the kinds' order.
    pub(crate) firsts: [Option<Untruth>; KINDS],
}

impl Untruths {
    /// None came yet.
    pub(crate) fn none() -> Untruths {
        Untruths {
            count: 0,
            firsts: [None; KINDS],
        }
    }

    /// How many came.
    pub(crate) fn count(&self) -> u32 {
        self.count
    }

    /// Counts one that came.
    pub(crate) fn add(&mut self, untruth: Untruth) {
        self.count = self.count.saturating_add(1);
        let Some(kind) = kind_of(&untruth.entry) else {
            return;
        };
        if self.firsts[kind].is_none() {
            self.firsts[kind] = Some(untruth);
        }
    }
}
