//! The first step of a turn: what the book says that the machine has to show, and where. An axis that moves has to show
//! its motion; those at rest show their poses, and the stations their plates where no visitor may be.
ghost use Rattle.std.specs.Prelude.{◌≡◌, ◌≤◌};
ghost use Rattle.cell_types.specs.Cell.{visitor};
ghost use Rattle.cell_types.specs.After.{is_machine};
ghost use Rattle.cell_types.specs.Same.{same_colour};
ghost use Rattle.cell_types.specs.declared.words.Colour.{Colour as ColourValue};
ghost use Rattle.cell_rules.specs.Views.{lamp_of, holder_of};
ghost use Rattle.cell_turns.specs.Moving.{motion_on, motion_of_axis, motion_of_machine};
ghost use Rattle.cell_turns.specs.Visits.{is_visited, was_claimed, is_unvisited};
ghost use Rattle.cell_turns.specs.Expected.{pose_at_rest, pose_of_axis, poses_at_rest, bit_where, is_booked_at};
ghost use Rattle.cell_turns.specs.Expected.{booked_plates, belt_bits, unwatched_plates, expected_of};

use crate::watch::Memory;
use cell_diagnosis::{Expect, Motion};
use cell_ports::Plan;
use cell_types::{Axis, Belt, Colour, Machine, Pose, Zone, axes_of, stations_of, visitor};
use plate_book::Book;

#[inline(always)]
fn motion_on(book: &Book, plan: &Plan, axis: Axis) -> Option<Motion>
    ensures { result ≡ motion_on book.now.entries plan.now axis }
{
    let state = book.pose(axis);
    match state.going {
        Some(to) => Some(Motion {
            axis,
            from: state.at,
            to,
            limits: plan.limits[axis as usize],
        }),
        None => None,
    }
}

#[inline(always)]
fn motion_of_axis(book: &Book, plan: &Plan, machine: Machine, i: usize) -> Option<Motion>
    ensures { result ≡ motion_of_axis book.now.entries plan.now machine i }
{
    let axis = axes_of(machine).get(i)?;
    motion_on(book, plan, *axis)
}

/// The motion of the machine's axis that moves, if one does.
#[inline(always)]
pub fn motion_of_machine(book: &Book, plan: &Plan, machine: Machine) -> Option<Motion>
    ensures { result ≡ motion_of_machine book.now.entries plan.now machine }
{
    motion_of_axis(book, plan, machine, 0)
        .or(motion_of_axis(book, plan, machine, 1))
        .or(motion_of_axis(book, plan, machine, 2))
}

#[tactic(auto, unfolding(cell_types::specs::After::is_machine))]
#[inline(always)]
fn is_held_by_visitor(book: &Book, zone: Zone) -> bool
    ensures { result ≡ is_machine (visitor zone) (holder_of book.now.entries zone) }
{
    match book.holder(zone) {
        Some(machine) => machine == visitor(zone),
        None => false,
    }
}

/// Whether a visitor holds a zone of the machine.
#[inline(always)]
pub(crate) fn is_visited(book: &Book, machine: Machine) -> bool
    ensures { result ≡ is_visited book.now.entries machine }
{
    match machine {
        Machine::Table => {
            is_held_by_visitor(book, Zone::Z1) || is_held_by_visitor(book, Zone::Z2)
        }
        Machine::Press1 => is_held_by_visitor(book, Zone::Z3),
        Machine::Press2 => is_held_by_visitor(book, Zone::Z4),
        Machine::Deposit => is_held_by_visitor(book, Zone::Z5),
        Machine::Feed | Machine::Robot => false,
    }
}

/// Whether a visitor claimed a zone of the machine at place `i` of the journal or later.
#[inline(always)]
pub(crate) fn was_claimed(book: &Book, machine: Machine, i: u32) -> bool
    ensures { result ≡ was_claimed book.now.entries machine i }
{
    match machine {
        Machine::Table => book.claimed_since(Zone::Z1, i) || book.claimed_since(Zone::Z2, i),
        Machine::Press1 => book.claimed_since(Zone::Z3, i),
        Machine::Press2 => book.claimed_since(Zone::Z4, i),
        Machine::Deposit => book.claimed_since(Zone::Z5, i),
        Machine::Feed | Machine::Robot => false,
    }
}

/// Whether no visitor holds a zone of the machine, none held one at its last turn, and none claimed one since.
#[inline(always)]
pub(crate) fn is_unvisited(book: &Book, machine: Machine, kept: &Memory) -> bool
    ensures { result ≡ is_unvisited book.now.entries machine kept.now }
{
    let visited = is_visited(book, machine);
    let claimed = was_claimed(book, machine, kept.length);
    !visited && (!kept.visited && !claimed)
}

#[inline(always)]
fn pose_at_rest(book: &Book, axis: Axis) -> Option<Pose>
    ensures { result ≡ pose_at_rest book.now.entries axis }
{
    let state = book.pose(axis);
    match state.going {
        Some(_) => None,
        None => Some(state.at),
    }
}

#[inline(always)]
fn pose_of_axis(book: &Book, machine: Machine, i: usize) -> Option<Pose>
    ensures { result ≡ pose_of_axis book.now.entries machine i }
{
    let axis = axes_of(machine).get(i)?;
    pose_at_rest(book, *axis)
}

#[inline(always)]
fn poses_at_rest(book: &Book, machine: Machine) -> [Option<Pose>; 3]
    ensures { result ≡ poses_at_rest book.now.entries machine }
{
    [
        pose_of_axis(book, machine, 0),
        pose_of_axis(book, machine, 1),
        pose_of_axis(book, machine, 2),
    ]
}

fn bit_where(test: bool, value: u8) -> u8
    ensures value { result ≡ bit_where test value }
    ensures most { result ≤ value }
{
    if test { value } else { 0 }
}

#[inline(always)]
fn is_booked_at(book: &Book, machine: Machine, i: usize) -> bool
    ensures { result ≡ is_booked_at book.now.entries machine i }
{
    match stations_of(machine).get(i) {
        Some(station) => book.plate_at(*station).is_some(),
        None => false,
    }
}

#[inline(always)]
fn booked_plates(book: &Book, machine: Machine) -> u8
    ensures { result ≡ booked_plates book.now.entries machine }
{
    bit_where(is_booked_at(book, machine, 0), 1) + bit_where(is_booked_at(book, machine, 1), 2)
}

/// Whether a belt's light is green.
pub(crate) fn is_green(book: &Book, belt: Belt) -> bool
    ensures { result ≡ same_colour (lamp_of book.now.entries belt) ColourValue.Green }
{
    book.lamp(belt) == Colour::Green
}

#[inline(always)]
fn belt_bits(book: &Book, axis: Axis, belt: Belt, lit: u8) -> u8
    requires { lit ≤ 2 }
    ensures value { result ≡ belt_bits book.now.entries axis belt lit }
    ensures most { result ≤ 3 }
{
    if book.pose(axis).going.is_some() {
        3
    } else {
        bit_where(is_green(book, belt), lit)
    }
}

#[inline(always)]
fn unwatched_plates(book: &Book, machine: Machine) -> u8
    ensures { result ≡ unwatched_plates book.now.entries machine }
{
    match machine {
        Machine::Feed => 4 + belt_bits(book, Axis::FeedBelt, Belt::Feed, 1),
        Machine::Deposit => belt_bits(book, Axis::DepositBelt, Belt::Deposit, 2),
        _ => 0,
    }
}

/// What the machine's axes at rest and its stations have to show; presence is looked at where no visitor may be there.
#[inline(always)]
pub(crate) fn expected_of(book: &Book, machine: Machine, unvisited: bool) -> Expect
    ensures { result ≡ expected_of book.now.entries machine unvisited }
{
    Expect {
        poses: poses_at_rest(book, machine),
        must: booked_plates(book, machine),
        may: if unvisited {
            unwatched_plates(book, machine)
        } else {
            7
        },
    }
}
