//! What a machine's switches and sensors show.
ghost use Rattle.std.specs.Prelude.{◌≡◌, ◌<◌};
ghost use Rattle.cell_diagnosis.specs.Readings.{bit, two_bits, three_bits, six_bits, station_bits, axis_bits};
ghost use Rattle.cell_diagnosis.specs.Readings.{place_in_axis};

use cell_types::{Axis, Pose};

/// One reading of a machine. Bits that belong to nothing are ignored. The order of axes, poses and stations is that of
/// this project's profile of the cell.
#[derive(Clone, Copy, Debug, PartialEq, Eq)]
pub struct Reading {
    /// One byte for each axis of the machine: of the table its lift and its turn, of the robot its turn, arm one and
    /// arm two, of a press its one axis. Bit i is the switch of the axis's pose number i, from 0: `Low`, `High`;
    /// `Belt`, `Robot`; `Table1`, `P1Load`, `P1Unload`, `P2Load`, `P2Unload`, `Deposit2`; `In`, `Out`; `Middle`, `Top`,
    /// `Bottom`. Belts have no switches.
    pub switches: [u8; 3],
    /// Bits 0 and 1 are the sensors of the machine's stations, in their order: of the feed belt its beginning and its
    /// end, of the robot its arms, of the deposit belt its beginning and its end; the table and a press have one. Bit 2
    /// of the feed belt is the sensor at the table.
    pub presence: u8,
}

/// Whether bit `index` of a byte is set.
#[tactic(auto, using(std::proofs::lemmas::Nat::Bits::shr_and_one), unfolding(crate::specs::Readings::bit))]
pub fn bit(byte: u8, index: u32) -> bool
    requires { index < 8 }
    ensures { result ≡ bit byte index }
{
    (byte >> index) & 1 == 1
}

/// A pose's place among the poses of its axis, from 0; of a belt, 0 for where a motion begins and 1 for where it ends.
pub fn place_in_axis(pose: Pose) -> usize
    ensures value { result ≡ place_in_axis pose }
    ensures below { result < 6 }
{
    match pose {
        Pose::Rest | Pose::Low | Pose::Belt | Pose::Table1 | Pose::In | Pose::Middle => 0,
        Pose::ToEnd
        | Pose::ToTable
        | Pose::High
        | Pose::Robot
        | Pose::P1Load
        | Pose::Out
        | Pose::Top => 1,
        Pose::P1Unload | Pose::Bottom => 2,
        Pose::P2Load => 3,
        Pose::P2Unload => 4,
        Pose::Deposit2 => 5,
    }
}

/// The switches of an axis with two poses.
pub fn two_bits(byte: u8) -> [bool; 6]
    ensures { result ≡ two_bits byte }
{
    [bit(byte, 0), bit(byte, 1), false, false, false, false]
}

/// The switches of an axis with three poses.
pub fn three_bits(byte: u8) -> [bool; 6]
    ensures { result ≡ three_bits byte }
{
    [
        bit(byte, 0),
        bit(byte, 1),
        bit(byte, 2),
        false,
        false,
        false,
    ]
}

/// The switches of an axis with six poses.
pub fn six_bits(byte: u8) -> [bool; 6]
    ensures { result ≡ six_bits byte }
{
    [
        bit(byte, 0),
        bit(byte, 1),
        bit(byte, 2),
        bit(byte, 3),
        bit(byte, 4),
        bit(byte, 5),
    ]
}

/// The two stations of a belt's motion, of which the first has bit number `first`.
fn station_bits(byte: u8, first: u32) -> [bool; 6]
    requires { first < 2 }
    ensures { result ≡ station_bits first byte }
{
    [
        bit(byte, first),
        bit(byte, first + 1),
        false,
        false,
        false,
        false,
    ]
}

/// Which poses an axis shows in a reading, while it moves to `to`.
pub fn axis_bits(axis: Axis, to: Pose, reading: Reading) -> [bool; 6]
    ensures { result ≡ axis_bits axis to reading }
{
    match axis {
        Axis::FeedBelt => match to {
            Pose::ToTable => station_bits(reading.presence, 1),
            _ => station_bits(reading.presence, 0),
        },
        Axis::DepositBelt => station_bits(reading.presence, 0),
        Axis::TableLift => two_bits(reading.switches[0]),
        Axis::TableTurn => two_bits(reading.switches[1]),
        Axis::RobotTurn => six_bits(reading.switches[0]),
        Axis::ArmOne => two_bits(reading.switches[1]),
        Axis::ArmTwo => two_bits(reading.switches[2]),
        Axis::PressOne | Axis::PressTwo => three_bits(reading.switches[0]),
    }
}
