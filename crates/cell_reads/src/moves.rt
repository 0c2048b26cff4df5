//! The tests of entries that start a motion.
ghost use Rattle.std.specs.Prelude.{◌≡◌, Some, ◌∷◌, ◌++◌};
ghost use Rattle.cell_types.specs.declared.words.Pose.TheVariants as poses;
ghost use Rattle.cell_types.specs.Cell.{axis_of_arm, faced_of};
ghost use Rattle.cell_rules.specs.First.{first_true, feed_belt_tests, deposit_belt_tests, press_tests};
ghost use Rattle.cell_rules.specs.First.{lamp_tests, arm_tests, outward_tests, faces, started_tests, all_resting};
ghost use Rattle.cell_rules.specs.First.{not_resting_at};

use crate::checks::{refused_by, unless, unless_refused};
use crate::conditions::{
    cannot_go, lamp_already, not_at_rest, not_holder, not_resting_at, owner_failed, station_empty,
    station_full,
};
use crate::reads::Reads;
use crate::rules::facing;
use cell_rules::Refusal;
use cell_types::{
    Arm, Axis, Belt, Colour, Facing, Machine, PRESS1, PRESS2, Pose, Press, Station, Zone,
    axis_of_arm,
};

#[tactic(auto, unfolding(cell_rules::specs::First::first_true))]
#[inline(always)]
pub fn lamp_tests<C: Reads>(cell: &C, belt: Belt, colour: Colour) -> Option<Refusal>
    ensures { result ≡ first_true (lamp_tests (C.situation cell.now) belt colour) }
{
    match (belt, colour) {
        (Belt::Feed, Colour::Green) => refused_by![
            not_at_rest(cell, Axis::FeedBelt),
            station_full(cell, Station::FeedIn),
            station_full(cell, Station::FeedEnd),
            lamp_already(cell, Belt::Feed, Colour::Green),
        ],
        (Belt::Deposit, Colour::Green) => refused_by![
            not_at_rest(cell, Axis::DepositBelt),
            station_empty(cell, Station::DepEnd),
            lamp_already(cell, Belt::Deposit, Colour::Green),
        ],
        (_, Colour::Red) => refused_by![lamp_already(cell, belt, Colour::Red)],
    }
}

#[tactic(auto, unfolding(cell_rules::specs::First::first_true))]
#[inline(always)]
pub fn feed_belt_tests<C: Reads>(cell: &C, to: Pose) -> Option<Refusal>
    ensures { result ≡ first_true (feed_belt_tests (C.situation cell.now) to) }
{
    match to {
        Pose::ToEnd => refused_by![
            not_at_rest(cell, Axis::FeedBelt),
            station_empty(cell, Station::FeedIn),
            station_full(cell, Station::FeedEnd),
        ],
        Pose::ToTable => refused_by![
            owner_failed(cell, Machine::Table),
            not_at_rest(cell, Axis::FeedBelt),
            not_resting_at(cell, Axis::TableLift, Pose::Low),
            not_resting_at(cell, Axis::TableTurn, Pose::Belt),
            not_holder(cell, Machine::Feed, Zone::Z1),
            station_empty(cell, Station::FeedEnd),
            station_full(cell, Station::Table),
        ],
        _ => Some(Refusal::WrongPose(Axis::FeedBelt)),
    }
}

#[tactic(auto, unfolding(cell_rules::specs::First::first_true))]
#[inline(always)]
pub fn press_tests<C: Reads>(cell: &C, press: Press, to: Pose) -> Option<Refusal>
    ensures { result ≡ first_true (press_tests (C.situation cell.now) press.machine press.axis press.zone press.station
        to) }
{
    let axis = press.axis;
    match to {
        Pose::Top => refused_by![
            not_resting_at(cell, axis, Pose::Middle),
            not_holder(cell, press.machine, press.zone),
            station_empty(cell, press.station),
        ],
        Pose::Bottom => refused_by![
            not_resting_at(cell, axis, Pose::Top),
            not_holder(cell, press.machine, press.zone),
        ],
        Pose::Middle => refused_by![
            not_resting_at(cell, axis, Pose::Bottom),
            not_holder(cell, press.machine, press.zone),
            station_full(cell, press.station),
        ],
        _ => Some(Refusal::WrongPose(axis)),
    }
}

#[tactic(auto, unfolding(cell_rules::specs::First::first_true))]
#[inline(always)]
pub fn deposit_belt_tests<C: Reads>(cell: &C, to: Pose) -> Option<Refusal>
    ensures { result ≡ first_true (deposit_belt_tests (C.situation cell.now) to) }
{
    match to {
        Pose::ToEnd => refused_by![
            not_at_rest(cell, Axis::DepositBelt),
            not_holder(cell, Machine::Deposit, Zone::Z5),
            station_empty(cell, Station::DepIn),
            station_full(cell, Station::DepEnd),
        ],
        _ => Some(Refusal::WrongPose(Axis::DepositBelt)),
    }
}

/// The first of these axes that doesn't rest at its pose.
#[tactic(auto, unfolding(cell_rules::specs::First::first_true))]
#[inline(always)]
fn not_all_resting<C: Reads>(cell: &C, rests: &[(Axis, Pose)]) -> Option<Refusal>
    ensures { result ≡ first_true (all_resting (C.situation cell.now) rests.now) }
{
    for rest in rests {
        let test = not_resting_at(cell, rest.0, rest.1);
        if test.0 {
            return Some(test.1);
        }
    }
    None
}

/// The first axis that doesn't rest where an arm's way out to what it faces asks it to: the arm itself among them.
#[tactic(auto, using(crate::proofs::Appended::found_first, crate::proofs::Appended::found_later), unfolding(cell_rules::specs::First::first_true))]
#[inline(always)]
fn not_all_in_place<C: Reads>(cell: &C, arm: Axis, facing: &Facing) -> Option<Refusal>
    ensures { result ≡ first_true (all_resting (C.situation cell.now) (faced_of facing.now).before
        ++ not_resting_at (C.situation cell.now) arm poses.In
        ∷ all_resting (C.situation cell.now) (faced_of facing.now).after) }
{
    unless_refused!(
        not_all_resting(cell, facing.before),
        {
            let test = not_resting_at(cell, arm, Pose::In);
            if test.0 {
                return Some(test.1);
            }
            not_all_resting(cell, facing.after)
        }
    )
}

/// The tests of an arm's way out to what it faces.
#[tactic(auto, using(crate::proofs::Appended::found_first, crate::proofs::Appended::found_later), unfolding(cell_rules::specs::First::first_true))]
#[inline(always)]
fn out_to<C: Reads>(cell: &C, arm: Axis, facing: &Facing) -> Option<Refusal>
    ensures { result ≡ first_true (outward_tests (C.situation cell.now) arm (Some (faced_of facing.now))) }
{
    unless!(
        owner_failed(cell, facing.owner),
        unless_refused!(
            not_all_in_place(cell, arm, facing),
            refused_by![not_holder(cell, Machine::Robot, facing.zone)]
        )
    )
}

#[tactic(auto, unfolding(cell_rules::specs::First::first_true))]
#[inline(always)]
pub fn outward_tests<C: Reads>(cell: &C, arm: Arm) -> Option<Refusal>
    ensures { result ≡ first_true (outward_tests (C.situation cell.now) (axis_of_arm arm)
        (faces (C.situation cell.now) arm)) }
{
    match facing(cell, arm) {
        Some(facing) => out_to(cell, axis_of_arm(arm), &facing),
        None => Some(Refusal::WrongPose(Axis::RobotTurn)),
    }
}

#[tactic(auto, unfolding(cell_rules::specs::First::first_true))]
#[inline(always)]
pub fn arm_tests<C: Reads>(cell: &C, arm: Arm, to: Pose) -> Option<Refusal>
    ensures { result ≡ first_true (arm_tests (C.situation cell.now) arm to) }
{
    match to {
        Pose::Out => outward_tests(cell, arm),
        Pose::In => refused_by![not_resting_at(cell, axis_of_arm(arm), Pose::Out)],
        _ => Some(Refusal::WrongPose(axis_of_arm(arm))),
    }
}

#[tactic(auto, unfolding(cell_rules::specs::First::first_true))]
#[inline(always)]
pub fn started_tests<C: Reads>(cell: &C, axis: Axis, to: Pose) -> Option<Refusal>
    ensures { result ≡ first_true (started_tests (C.situation cell.now) axis to) }
{
    match axis {
        Axis::FeedBelt => feed_belt_tests(cell, to),
        Axis::TableLift => refused_by![
            cannot_go(cell, Axis::TableLift, to),
            not_at_rest(cell, Axis::TableTurn),
            not_holder(cell, Machine::Table, Zone::Z1),
            not_holder(cell, Machine::Table, Zone::Z2),
        ],
        Axis::TableTurn => refused_by![
            not_at_rest(cell, Axis::TableLift),
            cannot_go(cell, Axis::TableTurn, to),
            not_holder(cell, Machine::Table, Zone::Z1),
            not_holder(cell, Machine::Table, Zone::Z2),
        ],
        Axis::RobotTurn => refused_by![
            cannot_go(cell, Axis::RobotTurn, to),
            not_resting_at(cell, Axis::ArmOne, Pose::In),
            not_resting_at(cell, Axis::ArmTwo, Pose::In),
        ],
        Axis::ArmOne => arm_tests(cell, Arm::Arm1, to),
        Axis::ArmTwo => arm_tests(cell, Arm::Arm2, to),
        Axis::PressOne => press_tests(cell, PRESS1, to),
        Axis::PressTwo => press_tests(cell, PRESS2, to),
        Axis::DepositBelt => deposit_belt_tests(cell, to),
    }
}
