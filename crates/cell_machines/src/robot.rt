//! What the robot does next.
ghost use Rattle.std.specs.Prelude.{ℕ, ◌≡◌, not, ◌&&◌, true, map};
ghost use Rattle.cell_types.specs.Cell.{axis_of_arm, faced, grips_at, drops_at, station_of_arm};
ghost use Rattle.cell_types.specs.Same.{same_pose};
ghost use Rattle.cell_types.specs.declared.words.Entry.TheVariants.{Claimed, Dropped, Gripped, Started, Yielded};
ghost use Rattle.cell_types.specs.declared.words.Machine.TheVariants as machines;
ghost use Rattle.cell_types.specs.declared.words.Axis.TheVariants as axes;
ghost use Rattle.cell_types.specs.declared.words.Arm.TheVariants as arms;
ghost use Rattle.cell_types.specs.declared.words.Pose.TheVariants as poses;
ghost use Rattle.cell_rules.specs.First.{is_faced, faces};
ghost use Rattle.cell_machines.specs.Room.{is_bookable};
ghost use Rattle.cell_machines.specs.Jobs.{has_job, has_job_in, is_to_enter, is_robots, holds_zone_at};
ghost use Rattle.cell_machines.specs.Robot.{is_out, is_out_at, of_plate, handings, has_handing, is_to_draw_in};
ghost use Rattle.cell_machines.specs.Robot.{is_drawn_in, holds_a_zone, is_at_job};
ghost use Rattle.cell_machines.specs.Candidates.{first_bookable, handing_row, robot_row, useful_row, arms_in, yields};
ghost use Rattle.cell_machines.specs.Candidates.{arms_out};
ghost use Rattle.cell_machines.specs.Candidates.{turns, claims, unloads, candidates};

use crate::jobs::{has_job, has_job_in, holds_zone_at, is_robots, is_to_enter, works_at};
use crate::reads::is_at_rest;
use crate::rows::{claimed, first_row, row, started, yielded};
use cell_reads::Reads;
use cell_rules::BookLimits;
use cell_types::{
    Arm, Axis, Entry, Machine, Pose, Station, Zone, axis_of_arm, faced, station_of_arm,
};

/// Whether both arms are in and the turn is at rest.
#[tactic(auto, unfolding(crate::specs::Robot::is_drawn_in))]
fn is_drawn_in<C: Reads>(cell: &C) -> bool
    ensures { result ≡ is_drawn_in (C.situation cell.now) }
{
    cell.rests_at(Axis::ArmOne, Pose::In)
        && cell.rests_at(Axis::ArmTwo, Pose::In)
        && is_at_rest(cell, Axis::RobotTurn)
}

#[tactic(auto, unfolding(crate::specs::Robot::holds_a_zone))]
fn holds_a_zone<C: Reads>(cell: &C) -> bool
    ensures { result ≡ holds_a_zone (C.situation cell.now) }
{
    is_robots(cell, Zone::Z1)
        || (is_robots(cell, Zone::Z2)
            || (is_robots(cell, Zone::Z3)
                || (is_robots(cell, Zone::Z4) || is_robots(cell, Zone::Z5))))
}

/// Whether the turn is where this arm has a job whose zone the robot holds.
#[tactic(auto, unfolding(crate::specs::Robot::is_at_job))]
fn is_at_job<C: Reads>(cell: &C, arm: Arm) -> bool
    ensures { result ≡ is_at_job (C.situation cell.now) arm }
{
    let pose = cell.at(Axis::RobotTurn);
    works_at(arm, pose) && has_job(cell, pose) && holds_zone_at(cell, pose)
}

/// Whether an arm faces a station where the robot's turn has this pose.
fn is_faced_at(arm: Arm, turn: Pose, station: Station) -> bool
    ensures { result ≡ is_faced station (faced arm turn) }
{
    match faced(arm, turn) {
        Some(facing) => facing.station == station,
        None => false,
    }
}

/// Whether the turn is at rest where this arm faces the station.
fn is_facing<C: Reads>(cell: &C, arm: Arm, station: Station) -> bool
    ensures { result ≡ is_faced station (faces (C.situation cell.now) arm) }
{
    is_at_rest(cell, Axis::RobotTurn) && is_faced_at(arm, cell.at(Axis::RobotTurn), station)
}

#[tactic(auto, unfolding(crate::specs::Robot::is_out))]
fn is_out<C: Reads>(cell: &C, arm: Arm) -> bool
    ensures { result ≡ is_out (C.situation cell.now) arm }
{
    cell.rests_at(axis_of_arm(arm), Pose::Out)
}

#[tactic(auto, unfolding(crate::specs::Robot::is_out_at))]
fn is_out_at<C: Reads>(cell: &C, arm: Arm, station: Station) -> bool
    ensures { result ≡ is_out_at (C.situation cell.now) arm station }
{
    is_out(cell, arm) && is_facing(cell, arm, station)
}

/// The grip of the plate at a station.
#[tactic(auto, using(crate::proofs::Handings::grip_law, crate::proofs::Handings::no_plate), unfolding(crate::specs::Candidates::first_bookable, crate::specs::Candidates::first_row))]
pub fn grip<C: Reads>(cell: &C, limits: BookLimits, arm: Arm, station: Station) -> Option<Entry>
    requires { grips_at arm station ≡ true }
    ensures { result ≡ first_bookable limits (C.situation cell.now)
        (map (handing_row (C.situation cell.now))
        (of_plate (λ k. Gripped arm k station) ((C.situation cell.now).plate station))) }
{
    match cell.plate_at(station) {
        Some(plate) => first_row(&[row(
            cell,
            limits,
            is_out_at(cell, arm, station),
            Entry::Gripped {
                arm,
                plate,
                src: station,
            },
        )]),
        None => None,
    }
}

/// The drop of the plate on the arm.
#[tactic(auto, using(crate::proofs::Handings::drop_law, crate::proofs::Handings::no_plate), unfolding(crate::specs::Candidates::first_bookable, crate::specs::Candidates::first_row))]
pub fn drop_at<C: Reads>(cell: &C, limits: BookLimits, arm: Arm, station: Station) -> Option<Entry>
    requires { drops_at arm station ≡ true }
    ensures { result ≡ first_bookable limits (C.situation cell.now)
        (map (handing_row (C.situation cell.now))
        (of_plate (λ k. Dropped arm k station) ((C.situation cell.now).plate (station_of_arm arm)))) }
{
    match cell.plate_at(station_of_arm(arm)) {
        Some(plate) => first_row(&[row(
            cell,
            limits,
            is_out_at(cell, arm, station),
            Entry::Dropped {
                arm,
                plate,
                dest: station,
            },
        )]),
        None => None,
    }
}

#[tactic(auto, using(crate::proofs::Handings::handings1_law))]
fn hand_by_arm1<C: Reads>(cell: &C, limits: BookLimits) -> Option<Entry>
    ensures { result ≡ first_bookable limits (C.situation cell.now)
        (map (handing_row (C.situation cell.now)) (handings (C.situation cell.now) arms.Arm1)) }
{
    let to_press1 = drop_at(cell, limits, Arm::Arm1, Station::Press1);
    let to_press2 = drop_at(cell, limits, Arm::Arm1, Station::Press2);
    grip(cell, limits, Arm::Arm1, Station::Table).or(to_press1.or(to_press2))
}

#[tactic(auto, using(crate::proofs::Handings::handings2_law))]
fn hand_by_arm2<C: Reads>(cell: &C, limits: BookLimits) -> Option<Entry>
    ensures { result ≡ first_bookable limits (C.situation cell.now)
        (map (handing_row (C.situation cell.now)) (handings (C.situation cell.now) arms.Arm2)) }
{
    let from_press2 = grip(cell, limits, Arm::Arm2, Station::Press2);
    let to_belt = drop_at(cell, limits, Arm::Arm2, Station::DepIn);
    grip(cell, limits, Arm::Arm2, Station::Press1).or(from_press2.or(to_belt))
}

/// The grip or drop that an arm can do.
fn hand<C: Reads>(cell: &C, limits: BookLimits, arm: Arm) -> Option<Entry>
    ensures { result ≡ first_bookable limits (C.situation cell.now)
        (map (handing_row (C.situation cell.now)) (handings (C.situation cell.now) arm)) }
{
    match arm {
        Arm::Arm1 => hand_by_arm1(cell, limits),
        Arm::Arm2 => hand_by_arm2(cell, limits),
    }
}

#[tactic(auto, using(crate::proofs::Handings::has_handing_law))]
fn has_handing<C: Reads>(cell: &C, limits: BookLimits, arm: Arm) -> bool
    ensures { result ≡ has_handing limits (C.situation cell.now) arm }
{
    hand(cell, limits, arm).is_some()
}

fn is_to_draw_in<C: Reads>(cell: &C, limits: BookLimits, arm: Arm) -> bool
    ensures { result ≡ is_to_draw_in limits (C.situation cell.now) arm }
{
    is_out(cell, arm) && !has_handing(cell, limits, arm)
}

/// An arm's way back, where it has nothing to grip or drop.
#[inline(always)]
fn way_in<C: Reads>(cell: &C, limits: BookLimits, arm: Arm) -> (bool, Entry)
    ensures { result ≡ (
      is_to_draw_in limits (C.situation cell.now) arm
          && is_bookable limits (C.situation cell.now) (Started (axis_of_arm arm) poses.In),
      Started (axis_of_arm arm) poses.In,
    ) }
{
    let wanted = is_to_draw_in(cell, limits, arm);
    started(cell, limits, wanted, axis_of_arm(arm), Pose::In)
}

/// The arms' ways back, each with whether it is useful.
#[tactic(auto, unfolding(crate::specs::Useful::is_useful_now))]
#[inline(always)]
pub fn arms_in_rows<C: Reads>(cell: &C, limits: BookLimits) -> [(bool, Entry); 2]
    ensures { (plan : ℕ) → result ≡ map (useful_row limits (C.situation cell.now) plan machines.Robot) arms_in }
{
    [
        way_in(cell, limits, Arm::Arm1),
        way_in(cell, limits, Arm::Arm2),
    ]
}

/// A zone given up, where the robot has no job in it.
#[inline(always)]
fn given_up<C: Reads>(cell: &C, limits: BookLimits, zone: Zone) -> (bool, Entry)
    ensures { result ≡ (
      (is_drawn_in (C.situation cell.now)
          && (is_robots (C.situation cell.now) zone && not (has_job_in (C.situation cell.now) zone)))
          && is_bookable limits (C.situation cell.now) (Yielded machines.Robot zone),
      Yielded machines.Robot zone,
    ) }
{
    let wanted = is_drawn_in(cell) && is_robots(cell, zone) && !has_job_in(cell, zone);
    yielded(cell, limits, wanted, Machine::Robot, zone)
}

/// The zones given up, each with whether it is useful.
#[tactic(auto, unfolding(crate::specs::Useful::is_useful_now))]
#[inline(always)]
pub fn yield_rows<C: Reads>(cell: &C, limits: BookLimits) -> [(bool, Entry); 5]
    ensures { (plan : ℕ) → result ≡ map (useful_row limits (C.situation cell.now) plan machines.Robot) yields }
{
    [
        given_up(cell, limits, Zone::Z1),
        given_up(cell, limits, Zone::Z2),
        given_up(cell, limits, Zone::Z3),
        given_up(cell, limits, Zone::Z4),
        given_up(cell, limits, Zone::Z5),
    ]
}

/// An arm's way out, where it has a job.
#[inline(always)]
fn way_out<C: Reads>(cell: &C, limits: BookLimits, arm: Arm) -> (bool, Entry)
    ensures { result ≡ (
      (is_drawn_in (C.situation cell.now) && is_at_job (C.situation cell.now) arm)
          && is_bookable limits (C.situation cell.now) (Started (axis_of_arm arm) poses.Out),
      Started (axis_of_arm arm) poses.Out,
    ) }
{
    let wanted = is_drawn_in(cell) && is_at_job(cell, arm);
    started(cell, limits, wanted, axis_of_arm(arm), Pose::Out)
}

/// The arms' ways out, each with whether it is useful.
#[tactic(auto, unfolding(crate::specs::Useful::is_useful_now))]
#[inline(always)]
pub fn arms_out_rows<C: Reads>(cell: &C, limits: BookLimits) -> [(bool, Entry); 2]
    ensures { (plan : ℕ) → result ≡ map (useful_row limits (C.situation cell.now) plan machines.Robot) arms_out }
{
    [
        way_out(cell, limits, Arm::Arm1),
        way_out(cell, limits, Arm::Arm2),
    ]
}

/// A turn to a pose with a job, whose zone the robot holds.
#[inline(always)]
fn turned<C: Reads>(cell: &C, limits: BookLimits, pose: Pose) -> (bool, Entry)
    ensures { result ≡ (
      (has_job (C.situation cell.now) pose
          && (holds_zone_at (C.situation cell.now) pose
          && (is_drawn_in (C.situation cell.now)
          && not (same_pose ((C.situation cell.now).at axes.RobotTurn) pose))))
          && is_bookable limits (C.situation cell.now) (Started axes.RobotTurn pose),
      Started axes.RobotTurn pose,
    ) }
{
    let is_there = cell.is_at(Axis::RobotTurn, pose);
    let wanted = has_job(cell, pose) && holds_zone_at(cell, pose) && is_drawn_in(cell) && !is_there;
    started(cell, limits, wanted, Axis::RobotTurn, pose)
}

/// The turns, each with whether it is useful.
#[tactic(auto, unfolding(crate::specs::Useful::is_useful_now))]
#[inline(always)]
pub fn turn_rows<C: Reads>(cell: &C, limits: BookLimits) -> [(bool, Entry); 6]
    ensures { (plan : ℕ) → result ≡ map (useful_row limits (C.situation cell.now) plan machines.Robot) turns }
{
    [
        turned(cell, limits, Pose::Table1),
        turned(cell, limits, Pose::P1Load),
        turned(cell, limits, Pose::P1Unload),
        turned(cell, limits, Pose::P2Load),
        turned(cell, limits, Pose::P2Unload),
        turned(cell, limits, Pose::Deposit2),
    ]
}

/// The claim of a zone with a job.
#[inline(always)]
fn asked_for<C: Reads>(cell: &C, limits: BookLimits, zone: Zone) -> (bool, Entry)
    ensures { result ≡ (
      (is_to_enter (C.situation cell.now) zone
          && (is_drawn_in (C.situation cell.now) && not (holds_a_zone (C.situation cell.now))))
          && is_bookable limits (C.situation cell.now) (Claimed machines.Robot zone),
      Claimed machines.Robot zone,
    ) }
{
    let wanted = is_to_enter(cell, zone) && is_drawn_in(cell) && !holds_a_zone(cell);
    claimed(cell, limits, wanted, Machine::Robot, zone)
}

/// The claims, each with whether it is useful: first to lay a forged plate down, then to load a press, then to fetch a
/// plate.
#[tactic(auto, unfolding(crate::specs::Useful::is_useful_now))]
#[inline(always)]
pub fn claim_rows<C: Reads>(cell: &C, limits: BookLimits) -> [(bool, Entry); 4]
    ensures { (plan : ℕ) → result ≡ map (useful_row limits (C.situation cell.now) plan machines.Robot) claims }
{
    [
        asked_for(cell, limits, Zone::Z5),
        asked_for(cell, limits, Zone::Z3),
        asked_for(cell, limits, Zone::Z4),
        asked_for(cell, limits, Zone::Z2),
    ]
}

/// The claim of a press that is to be unloaded, which the robot prefers to all others.
#[tactic(auto, unfolding(crate::specs::Candidates::unloads, crate::specs::Candidates::first_bookable, crate::specs::Candidates::first_row))]
pub fn claim_to_unload<C: Reads>(cell: &C, limits: BookLimits) -> Option<Entry>
    ensures { result ≡ first_bookable limits (C.situation cell.now)
        (unloads (C.situation cell.now)) }
{
    let free = is_drawn_in(cell) && !holds_a_zone(cell);
    first_row(&[
        claimed(
            cell,
            limits,
            has_job(cell, Pose::P1Unload) && free,
            Machine::Robot,
            Zone::Z3,
        ),
        claimed(
            cell,
            limits,
            has_job(cell, Pose::P2Unload) && free,
            Machine::Robot,
            Zone::Z4,
        ),
    ])
}

/// Whether the robot is under way: an arm or the turn moves, and no arm is out. Then it wants nothing.
fn is_under_way<C: Reads>(cell: &C) -> bool
    ensures { result ≡ (not (is_drawn_in (C.situation cell.now))
        && (not (is_out (C.situation cell.now) arms.Arm1)
        && not (is_out (C.situation cell.now) arms.Arm2))) }
{
    !is_drawn_in(cell) && !is_out(cell, Arm::Arm1) && !is_out(cell, Arm::Arm2)
}

/// What the robot does next: a grip or drop, an arm's way back, a zone given up, an arm's way out, a turn, or a claim.
#[tactic(auto, using(crate::proofs::Handings::robot_law, crate::proofs::UnderWay::under_way_law))]
pub fn propose_robot<C: Reads>(cell: &C, limits: BookLimits) -> Option<Entry>
    ensures { result ≡ first_bookable limits (C.situation cell.now)
        (map (robot_row limits (C.situation cell.now))
        (candidates (C.situation cell.now) machines.Robot)) }
{
    if is_under_way(cell) {
        return None;
    }
    let first = hand_by_arm1(cell, limits);
    let second = hand_by_arm2(cell, limits);
    let arm_in = first_row(&arms_in_rows(cell, limits));
    let given = first_row(&yield_rows(cell, limits));
    let arm_out = first_row(&arms_out_rows(cell, limits));
    let turn = first_row(&turn_rows(cell, limits));
    let claim = first_row(&claim_rows(cell, limits));
    first.or(second.or(arm_in.or(given.or(arm_out.or(turn.or(claim))))))
}
