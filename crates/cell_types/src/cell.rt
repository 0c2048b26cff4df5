//! The cell in tables: the lists of its words, what belongs to which machine, homes and zones, the motions of the
//! belts, and what an arm faces. Who owns and visits a zone, and the numbers of words and bits, are this project's
//! profile.
ghost use Rattle.std.specs.Prelude.{◌≡◌, ◌<◌, [], Some, IfSome, option_map};
ghost use Rattle.cell_types.specs.Same.{machine_number, station_number, axis_number, zone_number, belt_number};
ghost use Rattle.cell_types.specs.Cell.{machine_of_axis, machine_of_station, is_before_press, machine_of_belt, axes_of};
ghost use Rattle.cell_types.specs.Cell.{stations_of, place_in_machine, poses, is_pose_of, home, owner, visitor};
ghost use Rattle.cell_types.specs.Cell.{press_axis, press_of, station_of_arm, axis_of_arm, motion_to, motion_named};
ghost use Rattle.cell_types.specs.Cell.{faced_of, faced, grips_at, drops_at};

use crate::{Arm, Axis, Belt, Machine, Pose, Station, Zone};

/// All machines, in their order.
pub const MACHINES: [Machine; 6] = [
    Machine::Feed,
    Machine::Table,
    Machine::Robot,
    Machine::Press1,
    Machine::Press2,
    Machine::Deposit,
];

/// All stations, in their order.
pub const STATIONS: [Station; 9] = [
    Station::FeedIn,
    Station::FeedEnd,
    Station::Table,
    Station::Arm1,
    Station::Arm2,
    Station::Press1,
    Station::Press2,
    Station::DepIn,
    Station::DepEnd,
];

/// All axes, in their order.
pub const AXES: [Axis; 9] = [
    Axis::FeedBelt,
    Axis::TableLift,
    Axis::TableTurn,
    Axis::RobotTurn,
    Axis::ArmOne,
    Axis::ArmTwo,
    Axis::PressOne,
    Axis::PressTwo,
    Axis::DepositBelt,
];

/// All poses and motions, in their order.
pub const POSES: [Pose; 18] = [
    Pose::Rest,
    Pose::ToEnd,
    Pose::ToTable,
    Pose::Low,
    Pose::High,
    Pose::Belt,
    Pose::Robot,
    Pose::Table1,
    Pose::P1Load,
    Pose::P1Unload,
    Pose::P2Load,
    Pose::P2Unload,
    Pose::Deposit2,
    Pose::In,
    Pose::Out,
    Pose::Middle,
    Pose::Top,
    Pose::Bottom,
];

/// All zones, in their order.
pub const ZONES: [Zone; 5] = [Zone::Z1, Zone::Z2, Zone::Z3, Zone::Z4, Zone::Z5];

/// Both arms, in their order.
pub const ARMS: [Arm; 2] = [Arm::Arm1, Arm::Arm2];

/// Both belts, in their order.
pub const BELTS: [Belt; 2] = [Belt::Feed, Belt::Deposit];

/// A machine's place in the order of machines, from 0.
pub fn machine_number(machine: Machine) -> usize
    ensures value { result ≡ machine_number machine }
    ensures below { result < 6 }
{
    machine as usize
}

/// A station's place in the order of stations, from 0.
pub fn station_number(station: Station) -> usize
    ensures value { result ≡ station_number station }
    ensures below { result < 9 }
{
    station as usize
}

/// An axis's place in the order of axes, from 0.
pub fn axis_number(axis: Axis) -> usize
    ensures value { result ≡ axis_number axis }
    ensures below { result < 9 }
{
    axis as usize
}

/// A zone's place in the order of zones, from 0.
pub fn zone_number(zone: Zone) -> usize
    ensures value { result ≡ zone_number zone }
    ensures below { result < 5 }
{
    zone as usize
}

/// A belt's place in the order of belts, from 0.
pub fn belt_number(belt: Belt) -> usize
    ensures value { result ≡ belt_number belt }
    ensures below { result < 2 }
{
    belt as usize
}

/// The machine that an axis belongs to.
pub fn machine_of_axis(axis: Axis) -> Machine
    ensures { result ≡ machine_of_axis axis }
{
    match axis {
        Axis::FeedBelt => Machine::Feed,
        Axis::TableLift | Axis::TableTurn => Machine::Table,
        Axis::RobotTurn | Axis::ArmOne | Axis::ArmTwo => Machine::Robot,
        Axis::PressOne => Machine::Press1,
        Axis::PressTwo => Machine::Press2,
        Axis::DepositBelt => Machine::Deposit,
    }
}

/// The machine that a station belongs to.
pub fn machine_of_station(station: Station) -> Machine
    ensures { result ≡ machine_of_station station }
{
    match station {
        Station::FeedIn | Station::FeedEnd => Machine::Feed,
        Station::Table => Machine::Table,
        Station::Arm1 | Station::Arm2 => Machine::Robot,
        Station::Press1 => Machine::Press1,
        Station::Press2 => Machine::Press2,
        Station::DepIn | Station::DepEnd => Machine::Deposit,
    }
}

/// Whether a station is before a press, so that no plate there is forged.
pub fn is_before_press(station: Station) -> bool
    ensures { result ≡ is_before_press station }
{
    matches!(
        station,
        Station::FeedIn | Station::FeedEnd | Station::Table | Station::Arm1
    )
}

/// The machine of a belt, whose light stands for it.
pub fn machine_of_belt(belt: Belt) -> Machine
    ensures { result ≡ machine_of_belt belt }
{
    match belt {
        Belt::Feed => Machine::Feed,
        Belt::Deposit => Machine::Deposit,
    }
}

/// The axes of a machine, in their order.
pub fn axes_of(machine: Machine) -> &'static [Axis]
    ensures { result.now ≡ axes_of machine }
{
    match machine {
        Machine::Feed => &[Axis::FeedBelt],
        Machine::Table => &[Axis::TableLift, Axis::TableTurn],
        Machine::Robot => &[Axis::RobotTurn, Axis::ArmOne, Axis::ArmTwo],
        Machine::Press1 => &[Axis::PressOne],
        Machine::Press2 => &[Axis::PressTwo],
        Machine::Deposit => &[Axis::DepositBelt],
    }
}

/// The stations of a machine, in their order.
pub fn stations_of(machine: Machine) -> &'static [Station]
    ensures { result.now ≡ stations_of machine }
{
    match machine {
        Machine::Feed => &[Station::FeedIn, Station::FeedEnd],
        Machine::Table => &[Station::Table],
        Machine::Robot => &[Station::Arm1, Station::Arm2],
        Machine::Press1 => &[Station::Press1],
        Machine::Press2 => &[Station::Press2],
        Machine::Deposit => &[Station::DepIn, Station::DepEnd],
    }
}

/// A station's place among those of its machine, from 0, which is the number of its bit in the machine's presence byte.
pub fn place_in_machine(station: Station) -> u32
    ensures value { result ≡ place_in_machine station }
    ensures below { result < 2 }
{
    match station {
        Station::FeedIn
        | Station::Table
        | Station::Arm1
        | Station::Press1
        | Station::Press2
        | Station::DepIn => 0,
        Station::FeedEnd | Station::Arm2 | Station::DepEnd => 1,
    }
}

/// The poses of an axis, in their order. A belt has one, and moves by motions.
pub fn poses_of(axis: Axis) -> &'static [Pose]
    ensures { result.now ≡ poses axis }
{
    match axis {
        Axis::FeedBelt | Axis::DepositBelt => &[Pose::Rest],
        Axis::TableLift => &[Pose::Low, Pose::High],
        Axis::TableTurn => &[Pose::Belt, Pose::Robot],
        Axis::RobotTurn => &[
            Pose::Table1,
            Pose::P1Load,
            Pose::P1Unload,
            Pose::P2Load,
            Pose::P2Unload,
            Pose::Deposit2,
        ],
        Axis::ArmOne | Axis::ArmTwo => &[Pose::In, Pose::Out],
        Axis::PressOne | Axis::PressTwo => &[Pose::Middle, Pose::Top, Pose::Bottom],
    }
}

/// Whether an axis has a pose.
pub fn is_pose_of(axis: Axis, pose: Pose) -> bool
    ensures { result ≡ is_pose_of axis pose }
{
    poses_of(axis).contains(&pose)
}

/// The pose in which an axis stands at the opening and after a repair of its machine.
pub fn home(axis: Axis) -> Pose
    ensures { result ≡ home axis }
{
    match axis {
        Axis::FeedBelt | Axis::DepositBelt => Pose::Rest,
        Axis::TableLift => Pose::Low,
        Axis::TableTurn => Pose::Belt,
        Axis::RobotTurn => Pose::Table1,
        Axis::ArmOne | Axis::ArmTwo => Pose::In,
        Axis::PressOne | Axis::PressTwo => Pose::Middle,
    }
}

/// The machine that owns a zone.
pub fn owner(zone: Zone) -> Machine
    ensures { result ≡ owner zone }
{
    match zone {
        Zone::Z1 | Zone::Z2 => Machine::Table,
        Zone::Z3 => Machine::Press1,
        Zone::Z4 => Machine::Press2,
        Zone::Z5 => Machine::Deposit,
    }
}

/// The machine that visits a zone which another one owns.
pub fn visitor(zone: Zone) -> Machine
    ensures { result ≡ visitor zone }
{
    match zone {
        Zone::Z1 => Machine::Feed,
        Zone::Z2 | Zone::Z3 | Zone::Z4 | Zone::Z5 => Machine::Robot,
    }
}

/// The axis of a press; `None` for a machine that is no press.
pub fn press_axis(machine: Machine) -> Option<Axis>
    ensures { result ≡ press_axis machine }
{
    match machine {
        Machine::Press1 => Some(Axis::PressOne),
        Machine::Press2 => Some(Axis::PressTwo),
        _ => None,
    }
}

/// The station of an arm, where the plate is that it holds.
pub fn station_of_arm(arm: Arm) -> Station
    ensures { result ≡ station_of_arm arm }
{
    match arm {
        Arm::Arm1 => Station::Arm1,
        Arm::Arm2 => Station::Arm2,
    }
}

/// The axis along which an arm extends and retracts.
pub fn axis_of_arm(arm: Arm) -> Axis
    ensures { result ≡ axis_of_arm arm }
{
    match arm {
        Arm::Arm1 => Axis::ArmOne,
        Arm::Arm2 => Axis::ArmTwo,
    }
}

/// A press: the machine, its axis, the zone that it owns, and its station.
#[derive(Clone, Copy, Debug, PartialEq, Eq)]
pub struct Press {
    pub machine: Machine,
    pub axis: Axis,
    pub zone: Zone,
    pub station: Station,
}

/// The first press.
pub const PRESS1: Press = Press {
    machine: Machine::Press1,
    axis: Axis::PressOne,
    zone: Zone::Z3,
    station: Station::Press1,
};

/// The second press.
pub const PRESS2: Press = Press {
    machine: Machine::Press2,
    axis: Axis::PressTwo,
    zone: Zone::Z4,
    station: Station::Press2,
};

/// The press that a machine is; `None` for a machine that is no press.
pub fn press_of(machine: Machine) -> Option<Press>
    ensures value { result ≡ press_of machine }
    ensures axis { option_map (λ (p : Press). p.axis) result ≡ press_axis machine }
    ensures zone { IfSome result (λ p. owner p.zone ≡ machine) }
    ensures station { IfSome result (λ p. machine_of_station p.station ≡ machine) }
{
    match machine {
        Machine::Press1 => Some(PRESS1),
        Machine::Press2 => Some(PRESS2),
        _ => None,
    }
}

/// A motion of a belt: its name, and the stations from which and to which it carries a plate.
#[derive(Clone, Copy, Debug, PartialEq, Eq)]
pub struct BeltMotion {
    pub to: Pose,
    pub from: Station,
    pub dest: Station,
}

const FEED_TO_END: BeltMotion = BeltMotion {
    to: Pose::ToEnd,
    from: Station::FeedIn,
    dest: Station::FeedEnd,
};

const FEED_TO_TABLE: BeltMotion = BeltMotion {
    to: Pose::ToTable,
    from: Station::FeedEnd,
    dest: Station::Table,
};

const DEPOSIT_TO_END: BeltMotion = BeltMotion {
    to: Pose::ToEnd,
    from: Station::DepIn,
    dest: Station::DepEnd,
};

/// The motion of a belt that ends at a station; `None` where there is none.
pub fn motion_to(axis: Axis, dest: Station) -> Option<BeltMotion>
    ensures { result ≡ motion_to axis dest }
{
    match (axis, dest) {
        (Axis::FeedBelt, Station::FeedEnd) => Some(FEED_TO_END),
        (Axis::FeedBelt, Station::Table) => Some(FEED_TO_TABLE),
        (Axis::DepositBelt, Station::DepEnd) => Some(DEPOSIT_TO_END),
        _ => None,
    }
}

/// The motion of a belt by its name; `None` where there is none.
pub fn motion_named(axis: Axis, name: Pose) -> Option<BeltMotion>
    ensures value { result ≡ motion_named axis name }
    ensures same { IfSome result (λ m. motion_to axis m.dest ≡ Some m) }
    ensures named { IfSome result (λ m. m.to ≡ name) }
{
    match (axis, name) {
        (Axis::FeedBelt, Pose::ToEnd) => Some(FEED_TO_END),
        (Axis::FeedBelt, Pose::ToTable) => Some(FEED_TO_TABLE),
        (Axis::DepositBelt, Pose::ToEnd) => Some(DEPOSIT_TO_END),
        _ => None,
    }
}

/// What an arm faces: the station, its machine and zone, and where that machine's axes have to rest for the arm to go
/// out, as those before the arms in the order of axes and those after.
#[derive(Clone, Copy, Debug)]
pub struct Facing {
    pub station: Station,
    pub owner: Machine,
    pub zone: Zone,
    pub before: &'static [(Axis, Pose)],
    pub after: &'static [(Axis, Pose)],
}

/// An arm faces a press, which rests at a pose.
fn facing_press(press: Press, rests: &'static [(Axis, Pose)]) -> Facing
    ensures station { result.station ≡ press.station }
    ensures owner { result.owner ≡ press.machine }
    ensures zone { result.zone ≡ press.zone }
    ensures before { result.before.now ≡ [] }
    ensures after { result.after.now ≡ rests.now }
{
    Facing {
        station: press.station,
        owner: press.machine,
        zone: press.zone,
        before: &[],
        after: rests,
    }
}

/// What an arm faces where the robot's turn has this pose; `None` where it faces nothing.
pub fn faced(arm: Arm, turn: Pose) -> Option<Facing>
    ensures { option_map faced_of result ≡ faced arm turn }
{
    match (arm, turn) {
        (Arm::Arm1, Pose::Table1) => Some(Facing {
            station: Station::Table,
            owner: Machine::Table,
            zone: Zone::Z2,
            before: &[
                (Axis::TableLift, Pose::High),
                (Axis::TableTurn, Pose::Robot),
            ],
            after: &[],
        }),
        (Arm::Arm1, Pose::P1Load) => {
            Some(facing_press(PRESS1, &[(Axis::PressOne, Pose::Middle)]))
        }
        (Arm::Arm1, Pose::P2Load) => {
            Some(facing_press(PRESS2, &[(Axis::PressTwo, Pose::Middle)]))
        }
        (Arm::Arm2, Pose::P1Unload) => {
            Some(facing_press(PRESS1, &[(Axis::PressOne, Pose::Bottom)]))
        }
        (Arm::Arm2, Pose::P2Unload) => {
            Some(facing_press(PRESS2, &[(Axis::PressTwo, Pose::Bottom)]))
        }
        (Arm::Arm2, Pose::Deposit2) => Some(Facing {
            station: Station::DepIn,
            owner: Machine::Deposit,
            zone: Zone::Z5,
            before: &[],
            after: &[(Axis::DepositBelt, Pose::Rest)],
        }),
        _ => None,
    }
}

/// Whether an arm grips at a station.
pub fn grips_at(arm: Arm, station: Station) -> bool
    ensures { result ≡ grips_at arm station }
{
    match arm {
        Arm::Arm1 => matches!(station, Station::Table),
        Arm::Arm2 => matches!(station, Station::Press1 | Station::Press2),
    }
}

/// Whether an arm drops at a station.
pub fn drops_at(arm: Arm, station: Station) -> bool
    ensures { result ≡ drops_at arm station }
{
    match arm {
        Arm::Arm1 => matches!(station, Station::Press1 | Station::Press2),
        Arm::Arm2 => matches!(station, Station::DepIn),
    }
}
