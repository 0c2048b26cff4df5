//! The simulated cell as it is.
//!
//! A motion begins with the command to move an axis and goes on with the readings of its machine. The first reading
//! shows the pose that the axis leaves, the second nothing, the third and all later ones the pose that it reaches, and
//! at the third the axis has that pose. A belt shows the plate that it carries, at the stations where the motion begins
//! and ends, in place of switches; from the third reading on the plate is where the motion ends. All else is shown as
//! it is. A motion of a longer duration shows nothing in as many readings.
//!
//! A stopped motion goes on showing what it last showed. A motion ends where another of its axis begins or the axis is
//! put at home, and that of a belt also where the belt is turned off.
ghost use Rattle.std.specs.Prelude.{◌≡◌};
ghost use Rattle.cell_sim.specs.Looks.{is_belt};
ghost use Rattle.cell_sim.specs.Parts.{axis_at, collided, plate_at, plate_lost, plate_moved};
ghost use Rattle.cell_sim.specs.Parts.{with_motion, with_plate, with_pose};
ghost use Rattle.cell_sim.specs.Simulated.{opening_with, watched_opening};

mod commands;
mod hands;
mod readings;
mod state;
mod takeover;
mod watching;

use crate::axis::AxisInWorld;
use crate::motion::Moving;
use crate::watch::Watch;
use cell_measures::Durations;
use cell_types::{Axis, Colour, Pose, Station, axis_number, station_number};
use std::marker::Model;

/// A plate as it is.
#[derive(Clone, Copy, Debug)]
struct Plate {
    /// The number at which it was laid, from 1.
    number: u32,
    is_forged: bool,
}

/// A simulated cell: where its axes and plates are, which motions go on, its lights, and how often machines met. A
/// watched one counts besides how often its safety rules were broken.
#[derive(Debug, Drop)]
pub struct World {
    axes: [AxisInWorld; 9],
    plates: [Option<Plate>; 9],
    feed_light: Colour,
    deposit_light: Colour,
    /// How many plates are to be laid, but for those that are laid back.
    plan: u32,
    /// How many were laid, those that were laid back included.
    laid: u32,
    /// How many were taken out by hand from before a press, and so can be laid back. At `u32::MAX` the count stays.
    cleared: u32,
    collisions: u32,
    /// How many plates were forged, taken out under the deposit light and taken out by hand, and how many are gone by a
    /// fault or a broken rule. At `u32::MAX` a count stays.
    forged: u32,
    taken_out: u32,
    removed: u32,
    lost: u32,
    /// The plate that was taken out last under the deposit light.
    last_taken_out: Option<u32>,
    /// The round, from 1, and in how many rounds each machine moved. At `u32::MAX` a count stays.
    round: u32,
    moving_rounds: [u32; 6],
    /// Whether who lays the plates lays the next one onto whatever is on the belt, since the light was turned green.
    is_trusting: bool,
    /// The count of broken rules, which is on in a watched world.
    watch: Watch,
    /// In how many readings each motion shows nothing, one at least.
    durations: Durations,
}

impl Model for World {
    ghost use Rattle.cell_sim.specs.Simulated.{Simulated};

    ghost Value = { Simulated };

    ghost view = { λ w. record {
      axes = w.axes;
      plates = w.plates;
      feed_light = w.feed_light;
      deposit_light = w.deposit_light;
      planned = w.plan;
      laid = w.laid;
      cleared = w.cleared;
      collisions = w.collisions;
      forged = w.forged;
      taken_out = w.taken_out;
      removed = w.removed;
      lost = w.lost;
      last_taken_out = w.last_taken_out;
      round = w.round;
      moving_rounds = w.moving_rounds;
      is_trusting = w.is_trusting;
      watch = w.watch;
      durations = w.durations;
    } };
}

impl World {
    /// A cell at the opening: all axes at home, no plate in it, both lights red. At the beginning of the feed belt up
    /// to `plates` plates are laid, one at a time, where the feed light is green, and besides as many as were taken out
    /// by hand from before a press.
    pub fn new(plates: u32) -> World
        ensures { result ≡ opening_with plates }
    {
        World {
            axes: [
                AxisInWorld::new(Axis::FeedBelt),
                AxisInWorld::new(Axis::TableLift),
                AxisInWorld::new(Axis::TableTurn),
                AxisInWorld::new(Axis::RobotTurn),
                AxisInWorld::new(Axis::ArmOne),
                AxisInWorld::new(Axis::ArmTwo),
                AxisInWorld::new(Axis::PressOne),
                AxisInWorld::new(Axis::PressTwo),
                AxisInWorld::new(Axis::DepositBelt),
            ],
            plates: [None; 9],
            feed_light: Colour::Red,
            deposit_light: Colour::Red,
            plan: plates,
            laid: 0,
            cleared: 0,
            collisions: 0,
            forged: 0,
            taken_out: 0,
            removed: 0,
            lost: 0,
            last_taken_out: None,
            round: 1,
            moving_rounds: [0; 6],
            is_trusting: false,
            watch: Watch::new(false),
            durations: Durations::ONE,
        }
    }

    /// A watched cell at the opening: as `new`, and it counts how often each safety rule is broken. What a broken rule
    /// does to a plate is done in a watched cell alone; where no rule is broken, it moves and shows as one that isn't
    /// watched.
    pub fn watched(plates: u32) -> World
        ensures { result ≡ watched_opening plates }
    {
        World {
            watch: Watch::new(true),
            ..World::new(plates)
        }
    }

    /// The same cell with motions that take these durations, each counted in readings of its machine. A motion of 1 or
    /// 0 is as short as it can be, as all are in a new cell: one reading shows nothing between its ends.
    pub fn with_durations(mut self, durations: Durations) -> World
        ensures { result ≡ record self { durations = durations } }
    {
        self.durations = durations;
        self
    }

    /// The same cell once more.
    pub fn copy(&self) -> World
        ensures { result ≡ self.now }
    {
        World { ..*self }
    }

    /// How often an axis of the table, a press or the deposit belt was told to move while an arm was out there, and how
    /// often an arm was told to lay a plate down where there is no station or a full one. At `u32::MAX` the count
    /// stays.
    pub fn collisions(&self) -> u32
        ensures { result ≡ self.now.collisions }
    {
        self.collisions
    }

    fn axis(&self, axis: Axis) -> AxisInWorld
        ensures { result ≡ axis_at self.now axis }
    {
        self.axes[axis_number(axis)]
    }

    fn set_motion(&mut self, axis: Axis, motion: Option<Moving>)
        ensures { self.new ≡ with_motion axis motion self.old }
    {
        self.axes[axis_number(axis)].motion = motion;
    }

    fn set_pose(&mut self, axis: Axis, pose: Pose)
        ensures { self.new ≡ with_pose axis pose self.old }
    {
        self.axes[axis_number(axis)].pose = pose;
    }

    fn plate(&self, station: Station) -> Option<u32>
        ensures { result ≡ plate_at self.now station }
    {
        match self.plates[station_number(station)] {
            Some(plate) => Some(plate.number),
            None => None,
        }
    }

    fn set_plate(&mut self, station: Station, plate: Option<Plate>)
        ensures { self.new ≡ with_plate station plate self.old }
    {
        self.plates[station_number(station)] = plate;
    }

    // The plate of a station, if there is one, is gone.
    fn lose_plate(&mut self, station: Station)
        ensures { self.new ≡ plate_lost station self.old }
    {
        if self.plate(station).is_some() {
            self.set_plate(station, None);
            self.lost = self.lost.saturating_add(1);
        }
    }

    // A plate moves from a station to another one, which is empty.
    fn move_plate(&mut self, from: Station, to: Station)
        ensures { self.new ≡ plate_moved from to self.old }
    {
        if self.plate(to).is_some() {
            return;
        }
        let plate = self.plates[station_number(from)];
        self.set_plate(from, None);
        self.set_plate(to, plate);
    }

    fn count_collision(&mut self)
        ensures { self.new ≡ collided self.old }
    {
        self.collisions = self.collisions.saturating_add(1);
    }
}

fn is_belt(axis: Axis) -> bool
    ensures { result ≡ is_belt axis }
{
    matches!(axis, Axis::FeedBelt | Axis::DepositBelt)
}
