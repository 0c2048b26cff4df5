//! Where in a drawing of the cell its parts stand. The moving picture and the page are drawn by the same places.
ghost use Rattle.std.specs.Prelude.{◌≡◌};
ghost use Rattle.cell_drawing.specs.Spots.{plate_spot};

use crate::ink::{Rectangle, Spot, xy};
use cell_types::{Axis, Belt, Machine, Pose, Station, Zone};

/// The robot's centre.
pub const CENTRE: Spot = Spot { x: 400, y: 250 };

/// Where a plate stands at a station. An arm has it where it ends.
pub fn plate_spot(station: Station) -> Spot
    ensures { result ≡ plate_spot station }
{
    match station {
        Station::FeedIn => xy(52, 250),
        Station::FeedEnd => xy(168, 250),
        Station::Table => xy(250, 250),
        Station::Arm1 | Station::Arm2 => CENTRE,
        Station::Press1 => xy(400, 100),
        Station::Press2 => xy(400, 400),
        Station::DepIn => xy(550, 250),
        Station::DepEnd => xy(666, 250),
    }
}

/// A square round a spot.
pub fn square(centre: Spot, half: u32) -> Rectangle {
    Rectangle {
        corner: xy(centre.x.saturating_sub(half), centre.y.saturating_sub(half)),
        width: half.saturating_mul(2),
        height: half.saturating_mul(2),
    }
}

// A rectangle between a place across and one further right, and two places down.
fn between(x: u32, right: u32, y: u32, bottom: u32) -> Rectangle {
    Rectangle {
        corner: xy(x, y),
        width: right.saturating_sub(x),
        height: bottom.saturating_sub(y),
    }
}

/// The rectangle of a machine's shape: of the table and of the robot's middle that round a circle.
pub fn body_of(machine: Machine) -> Rectangle {
    match machine {
        Machine::Feed => between(20, 200, 222, 278),
        Machine::Table => square(plate_spot(Station::Table), 42),
        Machine::Robot => square(CENTRE, 18),
        Machine::Press1 => square(plate_spot(Station::Press1), 42),
        Machine::Press2 => square(plate_spot(Station::Press2), 42),
        Machine::Deposit => between(518, 698, 222, 278),
    }
}

/// Half of how large the bed is on which a plate lies in a press or on the table: the larger, the higher it is.
pub fn bed_half(pose: Pose) -> u32 {
    match pose {
        Pose::Top | Pose::High => 36,
        Pose::Bottom => 24,
        _ => 30,
    }
}

/// Where a machine's name begins.
pub fn name_spot(machine: Machine) -> Spot {
    match machine {
        Machine::Feed => xy(20, 299),
        Machine::Table => xy(192, 312),
        Machine::Robot => xy(484, 316),
        Machine::Press1 => xy(484, 96),
        Machine::Press2 => xy(484, 418),
        Machine::Deposit => xy(606, 299),
    }
}

/// Where a line below a machine's name begins.
pub fn line_spot(machine: Machine, line: u32) -> Spot {
    let Spot { x, y } = name_spot(machine);
    xy(x, y.saturating_add(line.saturating_mul(17)))
}

/// Where a belt's light is.
pub fn light_spot(belt: Belt) -> Spot {
    match belt {
        Belt::Feed => xy(31, 204),
        Belt::Deposit => xy(614, 204),
    }
}

/// The place between two machines that a zone is.
pub fn zone_area(zone: Zone) -> Rectangle {
    match zone {
        Zone::Z1 => between(191, 209, 222, 278),
        Zone::Z2 => between(296, 318, 222, 278),
        Zone::Z3 => between(350, 458, 148, 176),
        Zone::Z4 => between(350, 458, 324, 352),
        Zone::Z5 => between(484, 510, 222, 278),
    }
}

/// Where a zone's name is.
pub fn zone_spot(zone: Zone) -> Spot {
    match zone {
        Zone::Z1 => xy(200, 209),
        Zone::Z2 => xy(307, 209),
        Zone::Z3 => xy(367, 162),
        Zone::Z4 => xy(367, 338),
        Zone::Z5 => xy(497, 209),
    }
}

/// Where the name of a zone's holder begins.
pub fn holder_spot(zone: Zone) -> Spot {
    match zone {
        Zone::Z1 => xy(176, 194),
        Zone::Z2 => xy(290, 194),
        Zone::Z3 => xy(410, 166),
        Zone::Z4 => xy(410, 342),
        Zone::Z5 => xy(480, 194),
    }
}

/// Where a pose stands on the scale of the heights of a press or of the table.
pub fn height_spot(axis: Axis, pose: Pose) -> Spot {
    let height = match pose {
        Pose::Top => 64,
        Pose::Middle | Pose::High => 32,
        _ => 0,
    };
    let Spot { x, y } = match axis {
        Axis::PressOne => xy(465, 132),
        Axis::PressTwo => xy(465, 432),
        _ => xy(250, 196),
    };
    xy(x, y.saturating_sub(height))
}
