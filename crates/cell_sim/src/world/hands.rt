//! What the operator does by hand in a world.
ghost use Rattle.std.specs.Prelude.{◌≡◌};
ghost use Rattle.std.specs.List.{list_any};
ghost use Rattle.cell_ports.specs.declared.port.Act.TheVariants as act;
ghost use Rattle.cell_sim.specs.Hands.{after_hand, axis_homed, carried, carried_by, count_removed, is_anywhere};
ghost use Rattle.cell_sim.specs.Hands.{is_plate_at, taken_out, taken_where};
ghost use Rattle.cell_sim.specs.Parts.{axis_at, in_turn};

use crate::axis::AxisInWorld;
use crate::world::World;
use cell_types::{Axis, Machine, STATIONS, Station, axes_of, axis_number, home, is_before_press};

impl World {
    /// Takes out the plate at a station. Where there is none and a belt's motion from there wasn't ended, it takes out
    /// the plate that this motion carried, wherever it is. Where there is none either, nothing happens. A plate that
    /// was taken so from a station before a press is laid at the belt's beginning once more, as any other.
    #[tactic(auto, unfolding(crate::specs::Hands::after_remove))]
    pub fn remove(&mut self, station: Station)
        ensures { self.new ≡ after_hand self.old (act.Remove station) }
    {
        if self.plate(station).is_some() {
            self.set_plate(station, None);
            self.count_removed(station);
            return;
        }
        let plate = self.carried(station);
        if self.is_anywhere(plate) {
            self.take_out(plate);
            self.count_removed(station);
        }
    }

    // One more plate was taken out by hand; from before a press it can be laid back.
    fn count_removed(&mut self, station: Station)
        ensures { self.new ≡ count_removed station self.old }
    {
        self.removed = self.removed.saturating_add(1);
        if is_before_press(station) {
            self.cleared = self.cleared.saturating_add(1);
        }
    }

    // The plate that a belt's motion carried from a station, if one did. At a station the motion of one belt begins.
    fn carried(&self, station: Station) -> Option<u32>
        ensures { result ≡ carried self.now station }
    {
        match self.carried_by(Axis::FeedBelt, station) {
            Some(plate) => Some(plate),
            None => self.carried_by(Axis::DepositBelt, station),
        }
    }

    fn carried_by(&self, belt: Axis, station: Station) -> Option<u32>
        ensures { result ≡ carried_by (axis_at self.now belt).motion station }
    {
        match self.axis(belt).motion {
            Some(motion) => motion.plate_from(station),
            None => None,
        }
    }

    fn is_plate_at(&self, plate: Option<u32>, station: Station) -> bool
        ensures { result ≡ is_plate_at self.now plate station }
    {
        plate.is_some() && self.plate(station) == plate
    }

    #[tactic(auto, unfolding(crate::specs::Hands::is_anywhere))]
    fn is_anywhere(&self, plate: Option<u32>) -> bool
        ensures { result ≡ is_anywhere self.now plate }
    {
        self.is_at_any(plate, &STATIONS)
    }

    fn is_at_any(&self, plate: Option<u32>, stations: &[Station]) -> bool
        ensures { result ≡ list_any (is_plate_at self.now plate) stations.now }
    {
        for station in stations {
            if self.is_plate_at(plate, *station) {
                return true;
            }
        }
        false
    }

    // A plate is taken out, wherever it is.
    #[tactic(auto, unfolding(crate::specs::Hands::taken_out))]
    fn take_out(&mut self, plate: Option<u32>)
        ensures { self.new ≡ taken_out plate self.old }
    {
        self.take_from(plate, &STATIONS);
    }

    fn take_from(&mut self, plate: Option<u32>, stations: &[Station])
        ensures { self.new ≡ in_turn (taken_where plate) stations.now self.old }
    {
        for station in stations {
            self.take_where(plate, *station);
        }
    }

    fn take_where(&mut self, plate: Option<u32>, station: Station)
        ensures { self.new ≡ taken_where plate station self.old }
    {
        if self.is_plate_at(plate, station) {
            self.set_plate(station, None);
        }
    }

    /// Puts the axes of a machine at home and ends its motions.
    #[tactic(auto, unfolding(crate::specs::Hands::after_home))]
    pub fn home(&mut self, machine: Machine)
        ensures { self.new ≡ after_hand self.old (act.Home machine) }
    {
        self.put_all_home(axes_of(machine));
        self.look(None);
    }

    fn put_all_home(&mut self, axes: &[Axis])
        ensures { self.new ≡ in_turn axis_homed axes.now self.old }
    {
        for axis in axes {
            self.put_home(*axis);
        }
    }

    // An axis is at home, and its motion ends.
    fn put_home(&mut self, axis: Axis)
        ensures { self.new ≡ axis_homed axis self.old }
    {
        let place = axis_number(axis);
        self.axes[place] = AxisInWorld {
            pose: home(axis),
            motion: None,
            ..self.axes[place]
        };
    }
}
