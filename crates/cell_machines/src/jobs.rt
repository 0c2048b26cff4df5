//! The robot's jobs, each named by the pose of the turn where it is done.
ghost use Rattle.std.specs.Prelude.{◌≡◌};
ghost use Rattle.cell_types.specs.Cell.{faced};
ghost use Rattle.cell_types.specs.After.{is_machine};
ghost use Rattle.cell_machines.specs.Router.{press_chosen};
ghost use Rattle.cell_machines.specs.Jobs.{is_to_fetch, is_to_load, is_to_unload, is_to_deposit, has_job, is_robots};
ghost use Rattle.cell_machines.specs.Jobs.{holds_its_zone, holds_zone_at, has_job_in, is_to_enter, works_at};

use crate::presses::{is_done, is_waiting};
use crate::reads::is_at_rest;
use crate::router::press_chosen;
use cell_reads::Reads;
use cell_types::{Arm, Axis, Machine, PRESS1, PRESS2, Pose, Press, Station, Zone, faced};

fn is_to_fetch<C: Reads>(cell: &C) -> bool
    ensures { result ≡ is_to_fetch (C.situation cell.now) }
{
    !cell.is_occupied(Station::Arm1)
        && !cell.is_failed(Machine::Table)
        && cell.rests_at(Axis::TableLift, Pose::High)
        && cell.rests_at(Axis::TableTurn, Pose::Robot)
        && cell.is_occupied(Station::Table)
}

fn is_to_load<C: Reads>(cell: &C, press: Press) -> bool
    ensures { result ≡ is_to_load (C.situation cell.now) press.machine press.axis press.station }
{
    let healthy = !cell.is_failed(press.machine);
    cell.is_occupied(Station::Arm1) && healthy && is_waiting(cell, press.axis, press.station)
}

fn is_to_unload<C: Reads>(cell: &C, press: Press) -> bool
    ensures { result ≡ is_to_unload (C.situation cell.now) press.machine press.axis press.station }
{
    !cell.is_occupied(Station::Arm2)
        && !cell.is_failed(press.machine)
        && is_done(cell, press.axis, press.station)
}

fn is_to_deposit<C: Reads>(cell: &C) -> bool
    ensures { result ≡ is_to_deposit (C.situation cell.now) }
{
    cell.is_occupied(Station::Arm2)
        && !cell.is_failed(Machine::Deposit)
        && is_at_rest(cell, Axis::DepositBelt)
        && !cell.is_occupied(Station::DepIn)
}

/// Whether there is a job at this pose of the turn.
#[tactic(auto, unfolding(crate::specs::Jobs::has_job))]
pub fn has_job<C: Reads>(cell: &C, pose: Pose) -> bool
    ensures { result ≡ has_job (C.situation cell.now) pose }
{
    match pose {
        Pose::Table1 => is_to_fetch(cell),
        Pose::P1Load => is_to_load(cell, PRESS1),
        Pose::P1Unload => is_to_unload(cell, PRESS1),
        Pose::P2Load => is_to_load(cell, PRESS2),
        Pose::P2Unload => is_to_unload(cell, PRESS2),
        Pose::Deposit2 => is_to_deposit(cell),
        _ => false,
    }
}

/// Whether the robot holds a zone.
pub fn is_robots<C: Reads>(cell: &C, zone: Zone) -> bool
    ensures { result ≡ is_robots (C.situation cell.now) zone }
{
    cell.is_held_by(Machine::Robot, zone)
}

/// Whether the robot holds the zone of what an arm faces at this pose of the turn.
fn holds_its_zone<C: Reads>(cell: &C, arm: Arm, pose: Pose) -> bool
    ensures { result ≡ holds_its_zone (C.situation cell.now) (faced arm pose) }
{
    match faced(arm, pose) {
        Some(facing) => is_robots(cell, facing.zone),
        None => false,
    }
}

/// Whether the robot holds the zone of the job at this pose of the turn.
#[tactic(auto, unfolding(crate::specs::Jobs::holds_zone_at))]
pub fn holds_zone_at<C: Reads>(cell: &C, pose: Pose) -> bool
    ensures { result ≡ holds_zone_at (C.situation cell.now) pose }
{
    holds_its_zone(cell, Arm::Arm1, pose) || holds_its_zone(cell, Arm::Arm2, pose)
}

/// Whether there is a job in a zone.
#[tactic(auto, unfolding(crate::specs::Jobs::has_job_in))]
pub fn has_job_in<C: Reads>(cell: &C, zone: Zone) -> bool
    ensures { result ≡ has_job_in (C.situation cell.now) zone }
{
    match zone {
        Zone::Z1 => false,
        Zone::Z2 => has_job(cell, Pose::Table1),
        Zone::Z3 => has_job(cell, Pose::P1Load) || has_job(cell, Pose::P1Unload),
        Zone::Z4 => has_job(cell, Pose::P2Load) || has_job(cell, Pose::P2Unload),
        Zone::Z5 => has_job(cell, Pose::Deposit2),
    }
}

/// Whether the router chooses this press.
#[tactic(auto, unfolding(cell_types::specs::After::is_machine))]
fn is_chosen<C: Reads>(cell: &C, press: Machine) -> bool
    ensures { result ≡ is_machine press (press_chosen (C.situation cell.now)) }
{
    match press_chosen(cell) {
        Some(chosen) => chosen == press,
        None => false,
    }
}

/// Whether there is a job in a zone for which the robot may claim it: to load, only the press that the router chooses.
#[tactic(auto, unfolding(crate::specs::Jobs::is_to_enter))]
pub fn is_to_enter<C: Reads>(cell: &C, zone: Zone) -> bool
    ensures { result ≡ is_to_enter (C.situation cell.now) zone }
{
    match zone {
        Zone::Z1 => false,
        Zone::Z2 => has_job(cell, Pose::Table1),
        Zone::Z3 => {
            (has_job(cell, Pose::P1Load) && is_chosen(cell, Machine::Press1))
                || has_job(cell, Pose::P1Unload)
        }
        Zone::Z4 => {
            (has_job(cell, Pose::P2Load) && is_chosen(cell, Machine::Press2))
                || has_job(cell, Pose::P2Unload)
        }
        Zone::Z5 => has_job(cell, Pose::Deposit2),
    }
}

/// Whether an arm works at this pose of the turn, where it faces a station.
pub fn works_at(arm: Arm, pose: Pose) -> bool
    ensures { result ≡ works_at arm pose }
{
    faced(arm, pose).is_some()
}
