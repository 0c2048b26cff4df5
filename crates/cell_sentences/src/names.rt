//! The names of the cell's words in English.
ghost use Rattle.std.specs.Prelude.{◌≡◌};
ghost use Rattle.cell_sentences.specs.Names.{machine_name, the_machine, station_name, axis_name, axis_of_its_machine};
ghost use Rattle.cell_sentences.specs.Names.{pose_name, way_to_pose, zone_name, arm_name, light_name, colour_name};
ghost use Rattle.cell_sentences.specs.Names.{cause_name};

use cell_types::{Arm, Axis, Belt, Cause, Colour, Machine, Pose, Station, Zone};

/// The name of a machine, as a sentence's actor.
pub fn machine_name(machine: Machine) -> &'static str
    ensures { result.now ≡ machine_name machine }
{
    match machine {
        Machine::Feed => "feed belt",
        Machine::Table => "table",
        Machine::Robot => "robot",
        Machine::Press1 => "press 1",
        Machine::Press2 => "press 2",
        Machine::Deposit => "deposit belt",
    }
}

/// A machine within a sentence.
pub fn the_machine(machine: Machine) -> &'static str
    ensures { result.now ≡ the_machine machine }
{
    match machine {
        Machine::Feed => "the feed belt",
        Machine::Table => "the table",
        Machine::Robot => "the robot",
        Machine::Press1 => "press 1",
        Machine::Press2 => "press 2",
        Machine::Deposit => "the deposit belt",
    }
}

/// A station within a sentence.
pub fn station_name(station: Station) -> &'static str
    ensures { result.now ≡ station_name station }
{
    match station {
        Station::FeedIn => "the feed belt's start",
        Station::FeedEnd => "the feed belt's end",
        Station::Table => "the table",
        Station::Arm1 => "arm 1",
        Station::Arm2 => "arm 2",
        Station::Press1 => "press 1",
        Station::Press2 => "press 2",
        Station::DepIn => "the deposit belt's start",
        Station::DepEnd => "the deposit belt's end",
    }
}

/// An axis within a sentence.
pub fn axis_name(axis: Axis) -> &'static str
    ensures { result.now ≡ axis_name axis }
{
    match axis {
        Axis::FeedBelt => "the feed belt",
        Axis::TableLift => "the table's lift",
        Axis::TableTurn => "the table's turn",
        Axis::RobotTurn => "the robot's turn",
        Axis::ArmOne => "arm 1",
        Axis::ArmTwo => "arm 2",
        Axis::PressOne => "press 1",
        Axis::PressTwo => "press 2",
        Axis::DepositBelt => "the deposit belt",
    }
}

/// An axis within a sentence about its machine, with a blank after it; nothing for a machine of one axis.
pub fn axis_of_its_machine(axis: Axis) -> &'static str
    ensures { result.now ≡ axis_of_its_machine axis }
{
    match axis {
        Axis::FeedBelt => "",
        Axis::TableLift => "the lift ",
        Axis::TableTurn => "the turn ",
        Axis::RobotTurn => "the turn ",
        Axis::ArmOne => "arm 1 ",
        Axis::ArmTwo => "arm 2 ",
        Axis::PressOne => "",
        Axis::PressTwo => "",
        Axis::DepositBelt => "",
    }
}

/// The name of a pose, or of a belt's motion.
pub fn pose_name(pose: Pose) -> &'static str
    ensures { result.now ≡ pose_name pose }
{
    match pose {
        Pose::Rest => "rest",
        Pose::ToEnd => "to its end",
        Pose::ToTable => "to the table",
        Pose::Low => "low",
        Pose::High => "high",
        Pose::Belt => "at the feed belt",
        Pose::Robot => "at the robot",
        Pose::Table1 => "at the table",
        Pose::P1Load => "at press 1 to load it",
        Pose::P1Unload => "at press 1 to unload it",
        Pose::P2Load => "at press 2 to load it",
        Pose::P2Unload => "at press 2 to unload it",
        Pose::Deposit2 => "at the deposit belt",
        Pose::In => "in",
        Pose::Out => "out",
        Pose::Middle => "middle",
        Pose::Top => "top",
        Pose::Bottom => "bottom",
    }
}

/// Where an axis goes that goes to a pose.
pub fn way_to_pose(pose: Pose) -> &'static str
    ensures { result.now ≡ way_to_pose pose }
{
    match pose {
        Pose::Rest => "to rest",
        Pose::ToEnd => "to its end",
        Pose::ToTable => "to the table",
        Pose::Low => "low",
        Pose::High => "high",
        Pose::Belt => "to the feed belt",
        Pose::Robot => "to the robot",
        Pose::Table1 => "to the table",
        Pose::P1Load => "to press 1 to load it",
        Pose::P1Unload => "to press 1 to unload it",
        Pose::P2Load => "to press 2 to load it",
        Pose::P2Unload => "to press 2 to unload it",
        Pose::Deposit2 => "to the deposit belt",
        Pose::In => "in",
        Pose::Out => "out",
        Pose::Middle => "to the middle",
        Pose::Top => "to the top",
        Pose::Bottom => "to the bottom",
    }
}

/// A zone within a sentence.
pub fn zone_name(zone: Zone) -> &'static str
    ensures { result.now ≡ zone_name zone }
{
    match zone {
        Zone::Z1 => "zone z1",
        Zone::Z2 => "zone z2",
        Zone::Z3 => "zone z3",
        Zone::Z4 => "zone z4",
        Zone::Z5 => "zone z5",
    }
}

/// An arm within a sentence.
pub fn arm_name(arm: Arm) -> &'static str
    ensures { result.now ≡ arm_name arm }
{
    match arm {
        Arm::Arm1 => "arm 1",
        Arm::Arm2 => "arm 2",
    }
}

/// A belt's light within a sentence.
pub fn light_name(belt: Belt) -> &'static str
    ensures { result.now ≡ light_name belt }
{
    match belt {
        Belt::Feed => "the feed light",
        Belt::Deposit => "the deposit light",
    }
}

/// A colour within a sentence.
pub fn colour_name(colour: Colour) -> &'static str
    ensures { result.now ≡ colour_name colour }
{
    match colour {
        Colour::Red => "red",
        Colour::Green => "green",
    }
}

/// A cause of a failure, after "since".
pub fn cause_name(cause: Cause) -> &'static str
    ensures { result.now ≡ cause_name cause }
{
    match cause {
        Cause::StuckSwitch => "a switch stays shown though the axis moves",
        Cause::Contradictory => "an axis shows two switches or more",
        Cause::StrayPosition => "a switch outside the motion is shown",
        Cause::NoDeparture => "an axis is still where it started",
        Cause::MissingMotion => "an axis didn't arrive in time",
        Cause::LostPosition => "an axis at rest isn't shown at its pose",
        Cause::PlateLost => "a booked plate isn't shown",
        Cause::StrangePlate => "a plate is shown where none is booked",
        Cause::Silent => "its readings are missing",
        Cause::CommandFault => "a command to it failed",
        Cause::OperatorStop => "the operator asked for the stop",
    }
}
