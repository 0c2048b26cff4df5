//! The facts of one station, axis, zone, machine or light.
ghost use Rattle.std.specs.Prelude.{◌≡◌};
ghost use Rattle.cell_picture.specs.Parts.{asked_shown, axis_shown, failed_shown, holder_shown, lamp_shown};
ghost use Rattle.cell_picture.specs.Parts.{plate_shown};

use crate::{Facts, ShownPlate};
use cell_types::{
    Axis, AxisState, Belt, Colour, Machine, Station, Zone, axis_number, belt_number,
    machine_number, station_number, zone_number,
};

/// The plate that is shown at a station.
pub fn plate_at(facts: &Facts, station: Station) -> Option<ShownPlate>
    ensures { result ≡ plate_shown facts.now station }
{
    facts.plates[station_number(station)]
}

/// The pose that an axis has or has left, and where it is going.
pub fn axis_at(facts: &Facts, axis: Axis) -> AxisState
    ensures { result ≡ axis_shown facts.now axis }
{
    facts.axes[axis_number(axis)]
}

/// The machine that holds a zone.
pub fn holder_at(facts: &Facts, zone: Zone) -> Option<Machine>
    ensures { result ≡ holder_shown facts.now zone }
{
    facts.holders[zone_number(zone)]
}

/// Whether a machine is booked failed.
pub fn is_failed(facts: &Facts, machine: Machine) -> bool
    ensures { result ≡ failed_shown facts.now machine }
{
    facts.failed[machine_number(machine)]
}

/// Whether a stop is asked of a machine.
pub fn is_asked(facts: &Facts, machine: Machine) -> bool
    ensures { result ≡ asked_shown facts.now machine }
{
    facts.asked[machine_number(machine)]
}

/// The colour of a belt's light.
pub fn lamp_at(facts: &Facts, belt: Belt) -> Colour
    ensures { result ≡ lamp_shown facts.now belt }
{
    facts.lamps[belt_number(belt)]
}
