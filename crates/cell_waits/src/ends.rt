//! The ends of motions.
ghost use Rattle.std.specs.Prelude.{◌≡◌};
ghost use Rattle.cell_waits.specs.Ends.{brought, end_at, end_of, end_of_motion, struck};

use cell_reads::Reads;
use cell_types::{Axis, Entry, Machine, Pose, Station};

// The end of a belt's motion from one station to another, with the plate that it carries.
fn brought<C: Reads>(cell: &C, axis: Axis, from: Station, dest: Station) -> Option<Entry>
    ensures { result ≡ brought (C.situation cell.now) axis from dest }
{
    match cell.plate_at(from) {
        Some(plate) => Some(Entry::Conveyed { axis, plate, dest }),
        None => None,
    }
}

// The end of a press's way up, with the plate that it forges.
fn struck<C: Reads>(cell: &C, press: Machine, station: Station) -> Option<Entry>
    ensures { result ≡ struck (C.situation cell.now) press station }
{
    match cell.plate_at(station) {
        Some(plate) => Some(Entry::Forged { press, plate }),
        None => None,
    }
}

// The end of an axis's motion to a pose.
fn end_at<C: Reads>(cell: &C, axis: Axis, to: Pose) -> Option<Entry>
    ensures { result ≡ end_at (C.situation cell.now) axis to }
{
    match (axis, to) {
        (Axis::FeedBelt, Pose::ToEnd) => {
            brought(cell, Axis::FeedBelt, Station::FeedIn, Station::FeedEnd)
        }
        (Axis::FeedBelt, _) => brought(cell, Axis::FeedBelt, Station::FeedEnd, Station::Table),
        (Axis::DepositBelt, _) => {
            brought(cell, Axis::DepositBelt, Station::DepIn, Station::DepEnd)
        }
        (Axis::PressOne, Pose::Top) => struck(cell, Machine::Press1, Station::Press1),
        (Axis::PressTwo, Pose::Top) => struck(cell, Machine::Press2, Station::Press2),
        _ => Some(Entry::Arrived { axis, at: to }),
    }
}

// The end of an axis's motion, if it moves.
fn end_of<C: Reads>(cell: &C, axis: Axis) -> Option<Entry>
    ensures { result ≡ end_of (C.situation cell.now) axis }
{
    match cell.going(axis) {
        Some(to) => end_at(cell, axis, to),
        None => None,
    }
}

/// The end of a motion of a machine's, if one of its axes moves.
pub fn end_of_motion<C: Reads>(cell: &C, machine: Machine) -> Option<Entry>
    ensures { result ≡ end_of_motion (C.situation cell.now) machine }
{
    match machine {
        Machine::Feed => end_of(cell, Axis::FeedBelt),
        Machine::Table => end_of(cell, Axis::TableLift).or(end_of(cell, Axis::TableTurn)),
        Machine::Robot => {
            let arms = end_of(cell, Axis::ArmOne).or(end_of(cell, Axis::ArmTwo));
            end_of(cell, Axis::RobotTurn).or(arms)
        }
        Machine::Press1 => end_of(cell, Axis::PressOne),
        Machine::Press2 => end_of(cell, Axis::PressTwo),
        Machine::Deposit => end_of(cell, Axis::DepositBelt),
    }
}
