//! What a world says of itself.
ghost use Rattle.std.specs.Prelude.{◌≡◌, ◌<◌, ◌+◌, ◌-◌, ◌^◌, ◌↔◌, Some, IsTrue, All, not, slice_get};
ghost use Rattle.std.specs.List.{list_any};
ghost use Rattle.cell_types.specs.Texts.{all_station};
ghost use Rattle.cell_sim.specs.Commands.{motion_number};
ghost use Rattle.cell_sim.specs.Parts.{has_plate, in_turn, is_axis_moving, is_machine_moving, plate_at, state_of};
ghost use Rattle.cell_sim.specs.Readings.{after_round, round_noted, rounds_moved};
ghost use Rattle.cell_sim.specs.Simulated.{broken, firsts, rule_number};

use crate::watch::{Occasion, SafetyRule};
use crate::world::World;
use cell_types::{
    Axis, AxisState, MACHINES, Machine, STATIONS, Station, axes_of, axis_number, machine_number,
};

/// Where its axes and plates are.
impl World {
    /// The pose that an axis has or has left, and where it is going. It is going from the command to move it until it
    /// has arrived, also where it was stopped on its way; one that was stopped before it left isn't going. A belt has
    /// the pose `Rest` always.
    pub fn axis_state(&self, axis: Axis) -> AxisState
        ensures { result ≡ state_of self.now axis }
    {
        self.axes[axis_number(axis)].state(axis)
    }

    /// The number of the motion that the next command to an axis begins, from 1. At `u32::MAX` it stays.
    pub fn next_motion(&self, axis: Axis) -> u32
        ensures { result ≡ motion_number self.now axis }
    {
        self.axes[axis_number(axis)].commands.saturating_add(1)
    }

    /// Whether a motion of an axis is under way: it has begun, and neither arrived nor been stopped. One that a fault
    /// keeps where it is has begun too.
    pub fn is_moving(&self, axis: Axis) -> bool
        ensures { result ≡ is_axis_moving self.now axis }
    {
        self.axes[axis_number(axis)].is_moving()
    }

    /// Whether a motion of an axis of this machine is under way.
    pub fn is_machine_moving(&self, machine: Machine) -> bool
        ensures { result ≡ is_machine_moving self.now machine }
    {
        for axis in axes_of(machine) {
            if self.is_moving(*axis) {
                return true;
            }
        }
        false
    }

    /// The plate at a station, by the number at which it was laid in, from 1. A plate that is laid back gets a new
    /// number.
    pub fn plate_at(&self, station: Station) -> Option<u32>
        ensures { result ≡ plate_at self.now station }
    {
        self.plate(station)
    }

    /// Whether no station has a plate.
    pub fn is_empty(&self) -> bool
        ensures { result ≡ not (list_any (has_plate self.now) all_station) }
    {
        !self.has_any(&STATIONS)
    }

    // Whether one of these stations has a plate.
    fn has_any(&self, stations: &[Station]) -> bool
        ensures { result ≡ list_any (has_plate self.now) stations.now }
    {
        for station in stations {
            if self.plate(*station).is_some() {
                return true;
            }
        }
        false
    }
}

/// What became of its plates. What was laid in is in the cell, taken out, removed or lost.
impl World {
    /// How many plates were laid in, those that were laid back included.
    pub fn laid(&self) -> u32
        ensures { result ≡ self.now.laid }
    {
        self.laid
    }

    /// How many plates are still to be laid in, those included that can be laid back.
    pub fn left(&self) -> u32
        ensures { self.now.planned + self.now.cleared < 2 ^ 32 →
            result ≡ self.now.planned + self.now.cleared - self.now.laid }
    {
        self.plan
            .saturating_add(self.cleared)
            .saturating_sub(self.laid)
    }

    /// How many plates were forged. A plate that is forged again doesn't count again. At `u32::MAX` the count stays.
    pub fn forged(&self) -> u32
        ensures { result ≡ self.now.forged }
    {
        self.forged
    }

    /// How many plates were taken out from the deposit belt's end under its green light. At `u32::MAX` the count stays.
    pub fn taken_out(&self) -> u32
        ensures { result ≡ self.now.taken_out }
    {
        self.taken_out
    }

    /// The plate that was taken out last from the deposit belt's end. A reading of the deposit machine takes out one
    /// plate at most.
    pub fn last_taken_out(&self) -> Option<u32>
        ensures { result ≡ self.now.last_taken_out }
    {
        self.last_taken_out
    }

    /// How many plates the operator took out by hand, from any station. At `u32::MAX` the count stays.
    pub fn removed(&self) -> u32
        ensures { result ≡ self.now.removed }
    {
        self.removed
    }

    /// How many plates are gone: by a fault that loses plates, or in a watched world by a broken rule. At `u32::MAX`
    /// the count stays.
    pub fn lost(&self) -> u32
        ensures { result ≡ self.now.lost }
    {
        self.lost
    }
}

/// Its rounds and the safety rules.
impl World {
    /// Ends a round, whose number, counted from 1, stands in the occasions of broken rules.
    #[tactic(auto, unfolding(crate::specs::Readings::after_round))]
    pub fn end_round(&mut self)
        ensures { self.new ≡ after_round self.old }
    {
        self.note_rounds(&MACHINES);
        self.round = self.round.saturating_add(1);
    }

    fn note_rounds(&mut self, machines: &[Machine])
        ensures { self.new ≡ in_turn round_noted machines.now self.old }
    {
        for machine in machines {
            self.note_round(*machine);
        }
    }

    // A round in which a machine moved is counted.
    fn note_round(&mut self, machine: Machine)
        ensures { self.new ≡ round_noted machine self.old }
    {
        if self.is_machine_moving(machine) {
            let place = machine_number(machine);
            self.moving_rounds[place] = self.moving_rounds[place].saturating_add(1);
        }
    }

    /// In how many rounds a machine moved: at how many ends of rounds a motion of an axis of it was under way.
    pub fn moving_rounds(&self, machine: Machine) -> u32
        ensures { result ≡ rounds_moved self.now machine }
    {
        self.moving_rounds[machine_number(machine)]
    }

    /// Whether no safety rule was broken. Of a world that isn't watched that isn't known, and the answer is that none
    /// was.
    pub fn is_safe(&self) -> bool
        ensures { IsTrue result ↔ All (λ n. n ≡ 0) (broken self.now) }
    {
        self.watch.counts.iter().all(|&count| count == 0)
    }

    /// How often a safety rule was broken; 0 where the world isn't watched. At `u32::MAX` the count stays.
    pub fn broken(&self, rule: SafetyRule) -> u32
        ensures { slice_get (broken self.now) (rule_number rule) ≡ Some result }
    {
        self.watch.count_of(rule)
    }

    /// Where a safety rule was broken first; `None` where it wasn't, or the world isn't watched.
    pub fn first_broken(&self, rule: SafetyRule) -> Option<Occasion>
        ensures { slice_get (firsts self.now) (rule_number rule) ≡ Some result }
    {
        self.watch.first_of(rule)
    }
}
