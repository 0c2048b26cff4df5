//! The router: which press takes the next plate.
ghost use Rattle.std.specs.Prelude.{◌≡◌};
ghost use Rattle.cell_machines.specs.Router.{is_ready, press_chosen};

use cell_reads::Reads;
use cell_types::{Axis, Machine, Pose, Station, Zone};

/// Whether a press takes a plate now.
fn is_ready<C: Reads>(cell: &C, press: Machine, axis: Axis, zone: Zone, station: Station) -> bool
    ensures { result ≡ is_ready (C.situation cell.now) press axis zone station }
{
    !cell.is_failed(press)
        && !cell.is_occupied(station)
        && cell.rests_at(axis, Pose::Middle)
        && !cell.is_held_by(press, zone)
}

/// The press for the next plate.
#[tactic(auto, unfolding(crate::specs::Router::press_chosen))]
pub fn press_chosen<C: Reads>(cell: &C) -> Option<Machine>
    ensures { result ≡ press_chosen (C.situation cell.now) }
{
    let first = is_ready(
        cell,
        Machine::Press1,
        Axis::PressOne,
        Zone::Z3,
        Station::Press1,
    );
    let second = is_ready(
        cell,
        Machine::Press2,
        Axis::PressTwo,
        Zone::Z4,
        Station::Press2,
    );
    match (first, second) {
        (true, true) => {
            if cell.forged_by(Machine::Press1) <= cell.forged_by(Machine::Press2) {
                Some(Machine::Press1)
            } else {
                Some(Machine::Press2)
            }
        }
        (true, false) => Some(Machine::Press1),
        (false, true) => Some(Machine::Press2),
        (false, false) => None,
    }
}
