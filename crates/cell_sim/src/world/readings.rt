//! What readings do and show in a world.
ghost use Rattle.std.specs.Prelude.{◌≡◌, ◌+◌, IsFalse};
ghost use Rattle.cell_types.specs.Cell.{axes_of, stations_of};
ghost use Rattle.cell_sim.specs.Parts.{axis_at, has_plate, in_turn, plate_lost};
ghost use Rattle.cell_sim.specs.Readings.{advanced, after_reading, arrived, axis_skipped, bit_if, forges, gone_on};
ghost use Rattle.cell_sim.specs.Readings.{is_reading_missing, is_silent_in, laid_in, left_with, plate_laid};
ghost use Rattle.cell_sim.specs.Readings.{plate_taken, presence, put_down, read_on, senses, shown, shown_on};
ghost use Rattle.cell_sim.specs.Readings.{switches, switches_of};

use crate::fault::Fault;
use crate::motion::{Moving, Path, Phase};
use crate::watch::SafetyRule;
use crate::world::{Plate, World};
use cell_diagnosis::Reading;
use cell_types::{
    Axis, Belt, Colour, Command, Machine, Pose, Station, axes_of, machine_of_axis, press_of,
    station_number, stations_of,
};

impl World {
    /// What a machine shows; `None` where the reading is missing. Before each reading, also a missing one, a plate is
    /// laid or taken where the machine's light is green. Each machine is told apart here, so that its reading is
    /// compiled by itself.
    #[tactic(auto, unfolding(crate::specs::Readings::after_reading, crate::specs::Readings::shown))]
    pub fn read(&mut self, machine: Machine) -> Option<Reading>
        ensures world { self.new ≡ after_reading self.old machine }
        ensures shown { result ≡ shown self.old machine }
    {
        match machine {
            Machine::Feed => {
                self.lay_plate();
                self.reading_of(Machine::Feed)
            }
            Machine::Table => self.reading_of(Machine::Table),
            Machine::Robot => self.reading_of(Machine::Robot),
            Machine::Press1 => self.reading_of(Machine::Press1),
            Machine::Press2 => self.reading_of(Machine::Press2),
            Machine::Deposit => {
                self.take_plate();
                self.reading_of(Machine::Deposit)
            }
        }
    }

    // What a machine that is a constant at each call shows.
    #[inline(always)]
    #[tactic(auto, unfolding(crate::specs::Readings::read_on, crate::specs::Readings::shown_on))]
    fn reading_of(&mut self, machine: Machine) -> Option<Reading>
        ensures world { self.new ≡ read_on machine self.old }
        ensures shown { result ≡ shown_on machine self.old }
    {
        if self.is_missing(machine) {
            return None;
        }
        self.advance_machine(machine);
        Some(Reading {
            switches: self.switches(machine),
            presence: self.presence(machine),
        })
    }

    // Where the feed light is green, the belt is empty and a plate is left, it is laid at the belt's beginning. So many
    // are left as fewer were laid than are to be laid and can be laid back. Where the light is trusted, the belt isn't
    // looked at.
    #[tactic(auto, unfolding(crate::specs::Readings::plate_laid))]
    fn lay_plate(&mut self)
        ensures { self.new ≡ plate_laid self.old }
    {
        let is_empty = self.plate(Station::FeedIn).is_none()
            && self.plate(Station::FeedEnd).is_none();
        let is_left = self.laid < self.plan.saturating_add(self.cleared);
        if self.feed_light == Colour::Green && is_left && (is_empty || self.is_trusting) {
            self.laid += 1;
            self.is_trusting = false;
            self.lay(self.laid, is_empty);
        }
    }

    // A plate is laid at the belt's beginning.
    #[tactic(auto, unfolding(crate::specs::Readings::laid_in))]
    fn lay(&mut self, number: u32, is_empty: bool)
        ensures { self.new ≡ laid_in number is_empty self.old }
    {
        if !is_empty {
            self.count_broken(
                SafetyRule::LaidOntoFullBelt,
                Command::Lamp(Belt::Feed, Colour::Green),
            );
        }
        self.put_down(number);
    }

    // Where a plate lies at the belt's beginning, the new one is gone.
    fn put_down(&mut self, number: u32)
        ensures { self.new ≡ put_down number self.old }
    {
        if self.plate(Station::FeedIn).is_some() {
            self.lost = self.lost.saturating_add(1);
            return;
        }
        let plate = Plate {
            number,
            is_forged: false,
        };
        self.set_plate(Station::FeedIn, Some(plate));
    }

    // Where the deposit light is green, the plate at the belt's end is taken.
    #[tactic(auto, unfolding(crate::specs::Readings::plate_taken))]
    fn take_plate(&mut self)
        ensures { self.new ≡ plate_taken self.old }
    {
        let plate = self.plate(Station::DepEnd);
        if self.deposit_light == Colour::Green && plate.is_some() {
            self.set_plate(Station::DepEnd, None);
            self.taken_out = self.taken_out.saturating_add(1);
            self.last_taken_out = plate;
        }
    }

    // Whether a machine's reading is missing: one of its motions is silent still. Its motions then don't go on.
    #[inline(always)]
    fn is_missing(&mut self, machine: Machine) -> bool
        ensures is { result ≡ is_reading_missing self.old machine }
        ensures still { IsFalse result → self.new ≡ self.old }
        ensures world { self.new ≡ in_turn axis_skipped (axes_of machine) self.old }
    {
        let mut is_missing = false;
        for axis in axes_of(machine) {
            if self.skip_reading(*axis) {
                is_missing = true;
            }
        }
        is_missing
    }

    #[inline(always)]
    #[tactic(auto, unfolding(crate::specs::Readings::axis_skipped))]
    fn skip_reading(&mut self, axis: Axis) -> bool
        ensures is { result ≡ is_silent_in (axis_at self.old axis).motion }
        ensures still { IsFalse result → self.new ≡ self.old }
        ensures world { self.new ≡ axis_skipped axis self.old }
    {
        let Some(motion) = self.axis(axis).motion else {
            return false;
        };
        if motion.missing == 0 {
            return false;
        }
        let skipped = Moving {
            missing: motion.missing - 1,
            ..motion
        };
        self.set_motion(axis, Some(skipped));
        true
    }

    #[inline(always)]
    fn advance_machine(&mut self, machine: Machine)
        ensures { self.new ≡ in_turn advanced (axes_of machine) self.old }
    {
        for axis in axes_of(machine) {
            self.advance(*axis);
        }
    }

    // The motion of an axis goes on by one reading, unless it has arrived or was stopped.
    #[inline(always)]
    #[tactic(auto, unfolding(crate::specs::Readings::advanced))]
    fn advance(&mut self, axis: Axis)
        ensures { self.new ≡ advanced axis self.old }
    {
        if self.axis(axis).is_moving() {
            self.advance_motion(axis);
        }
    }

    #[inline(never)]
    fn advance_motion(&mut self, axis: Axis)
        ensures { self.new ≡ gone_on axis (axis_at self.old axis).motion self.old }
    {
        let Some(motion) = self.axis(axis).motion else {
            return;
        };
        let phase = motion.next_phase();
        self.set_motion(axis, Some(Moving { phase, ..motion }));
        match (motion.phase, phase) {
            (Phase::Seen, Phase::Between(_)) => self.leave(axis, motion.fault),
            (Phase::Between(_), Phase::Arrived) => {
                self.arrive(axis, motion.path);
                self.look(motion.goal(axis).map(|to| Command::On(axis, to)));
            }
            _ => {}
        }
    }

    // An axis leaves. Where it is its motion's fault, the plates that its machine holds now, or the arm, are gone.
    #[tactic(auto, unfolding(crate::specs::Readings::left_with))]
    fn leave(&mut self, axis: Axis, fault: Option<Fault>)
        ensures { self.new ≡ left_with fault axis self.old }
    {
        if !matches!(fault, Some(Fault::LosePlate)) {
            return;
        }
        match axis {
            Axis::ArmOne => self.lose_plate(Station::Arm1),
            Axis::ArmTwo => self.lose_plate(Station::Arm2),
            _ => self.lose_plates(machine_of_axis(axis)),
        }
    }

    fn lose_plates(&mut self, machine: Machine)
        ensures { self.new ≡ in_turn plate_lost (stations_of machine) self.old }
    {
        for station in stations_of(machine) {
            self.lose_plate(*station);
        }
    }

    // An axis is where its motion leads. The plate that a belt carries is there too, unless it was taken from the belt
    // or another plate lies there; in a watched world it is gone where it can't lie. At the top a press forges its
    // plate.
    #[tactic(auto, unfolding(crate::specs::Readings::arrived))]
    fn arrive(&mut self, axis: Axis, path: Path)
        ensures { self.new ≡ arrived axis path self.old }
    {
        match path {
            Path::Poses { from: _, to } => {
                self.set_pose(axis, to);
                if to == Pose::Top {
                    self.forge(axis);
                }
            }
            Path::Stations { from, to, plate } => {
                if self.plate(from) == plate {
                    self.look_at_carrying(from, to);
                    self.move_plate(from, to);
                }
            }
        }
    }

    // A press forges the plate that is in it.
    #[tactic(auto, unfolding(crate::specs::Readings::forges))]
    fn forge(&mut self, axis: Axis)
        ensures { self.new ≡ forges axis self.old }
    {
        let Some(press) = press_of(machine_of_axis(axis)) else {
            return;
        };
        let place = station_number(press.station);
        let Some(plate) = self.plates[place] else {
            return;
        };
        if plate.is_forged {
            self.count_broken(SafetyRule::ForgedTwice, Command::On(axis, Pose::Top));
        } else {
            self.forged = self.forged.saturating_add(1);
            self.plates[place] = Some(Plate {
                is_forged: true,
                ..plate
            });
        }
    }

    #[inline(always)]
    fn switches(&self, machine: Machine) -> [u8; 3]
        ensures { result ≡ switches self.now machine }
    {
        match machine {
            Machine::Feed | Machine::Deposit => [0, 0, 0],
            Machine::Table => [
                self.switches_of(Axis::TableLift),
                self.switches_of(Axis::TableTurn),
                0,
            ],
            Machine::Robot => [
                self.switches_of(Axis::RobotTurn),
                self.switches_of(Axis::ArmOne),
                self.switches_of(Axis::ArmTwo),
            ],
            Machine::Press1 => [self.switches_of(Axis::PressOne), 0, 0],
            Machine::Press2 => [self.switches_of(Axis::PressTwo), 0, 0],
        }
    }

    fn switches_of(&self, axis: Axis) -> u8
        ensures { result ≡ switches_of self.now axis }
    {
        self.axis(axis).switches(axis)
    }

    #[inline(always)]
    #[tactic(auto, using(crate::proofs::Bits::three_bits, crate::proofs::Bits::two_bits))]
    fn presence(&self, machine: Machine) -> u8
        ensures { result ≡ presence self.now machine }
    {
        match machine {
            Machine::Feed => {
                self.sensor(Axis::FeedBelt, Station::FeedIn, 1)
                    | self.sensor(Axis::FeedBelt, Station::FeedEnd, 2)
                    | self.sensor(Axis::FeedBelt, Station::Table, 4)
            }
            Machine::Table => self.plate_bit(Station::Table, 1),
            Machine::Robot => self.plate_bit(Station::Arm1, 1) | self.plate_bit(Station::Arm2, 2),
            Machine::Press1 => self.plate_bit(Station::Press1, 1),
            Machine::Press2 => self.plate_bit(Station::Press2, 1),
            Machine::Deposit => {
                self.sensor(Axis::DepositBelt, Station::DepIn, 1)
                    | self.sensor(Axis::DepositBelt, Station::DepEnd, 2)
            }
        }
    }

    // The bit of a station where a plate is.
    fn plate_bit(&self, station: Station, bit: u8) -> u8
        ensures { result ≡ bit_if (has_plate self.now station) bit }
    {
        if self.plate(station).is_some() {
            bit
        } else {
            0
        }
    }

    // The bit of a station as a belt's machine shows it. While the belt is between two stations it doesn't show the
    // plate that it carries; a fault of the motion can keep the first station's bit or show both.
    fn sensor(&self, belt: Axis, station: Station, bit: u8) -> u8
        ensures { result ≡ bit_if (senses self.now belt station) bit }
    {
        let Some(motion) = self.axis(belt).motion else {
            return self.plate_bit(station, bit);
        };
        if motion.shows_by_fault(station) {
            return bit;
        }
        if motion.hides(station, self.plate(station)) {
            return 0;
        }
        self.plate_bit(station, bit)
    }
}
