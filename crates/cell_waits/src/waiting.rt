//! What a machine waits for.
ghost use Rattle.std.specs.Prelude.{◌≡◌, is_some};
ghost use Rattle.cell_waits.specs.Waits.{can_go_on, next_wanted, refused, stranded, stranded_drop, waiting_of};

use crate::ends::end_of_motion;
use crate::sought::{Sought, first_useful};
use cell_reads::{Reads, refusal};
use cell_rules::{BookLimits, Refusal};
use cell_types::{Arm, Entry, Machine, Station};

/// What a machine wants next, and the book's first refusal of it.
#[derive(Clone, Copy, Debug, PartialEq, Eq)]
pub struct Waiting {
    pub wanted: Entry,
    pub refusal: Refusal,
}

// Limits by which a journal has no room. Want of room doesn't count against an entry, so by these limits all that is
// wanted is useful.
const NO_ROOM: BookLimits = BookLimits {
    entries: 0,
    plates: 0,
};

// Whether a machine has a useful entry, lights apart.
fn can_go_on<C: Reads>(cell: &C, limits: BookLimits, machine: Machine) -> bool
    ensures { result ≡ can_go_on limits (C.situation cell.now) machine }
{
    first_useful(cell, limits, machine, Sought::Any).is_some()
}

// The drop of arm 1's plate at press 2, where both presses are failed.
fn stranded<C: Reads>(cell: &C) -> Option<Entry>
    ensures { result ≡ stranded (C.situation cell.now) }
{
    if !(cell.is_failed(Machine::Press1) && cell.is_failed(Machine::Press2)) {
        return None;
    }
    match cell.plate_at(Station::Arm1) {
        Some(plate) => Some(Entry::Dropped {
            arm: Arm::Arm1,
            plate,
            dest: Station::Press2,
        }),
        None => None,
    }
}

// The drop of a plate that no press is left for. Only the robot has one.
fn stranded_drop<C: Reads>(cell: &C, machine: Machine) -> Option<Entry>
    ensures { result ≡ stranded_drop (C.situation cell.now) machine }
{
    match machine {
        Machine::Robot => stranded(cell),
        _ => None,
    }
}

// What a machine wants next: the end of its motion, or else a zone that it doesn't hold, or else a motion, or else the
// drop of a plate that no press is left for.
fn next_wanted<C: Reads>(cell: &C, machine: Machine) -> Option<Entry>
    ensures { result ≡ next_wanted (C.situation cell.now) machine }
{
    let end = end_of_motion(cell, machine);
    if end.is_some() {
        return end;
    }
    let claim = first_useful(cell, NO_ROOM, machine, Sought::Claims);
    if claim.is_some() {
        return claim;
    }
    let motion = first_useful(cell, NO_ROOM, machine, Sought::Motions);
    if motion.is_some() {
        return motion;
    }
    stranded_drop(cell, machine)
}

// An entry with its refusal, if it is refused.
fn refused<C: Reads>(cell: &C, limits: BookLimits, entry: Entry) -> Option<Waiting>
    ensures { result ≡ refused limits (C.situation cell.now) entry }
{
    let wanted = entry;
    match refusal(cell, limits, entry) {
        Some(refusal) => Some(Waiting { wanted, refusal }),
        None => None,
    }
}

/// What a machine waits for: nothing where it can go on or wants nothing, and else what it wants next, with the first
/// refusal of that.
pub fn waits_for<C: Reads>(cell: &C, limits: BookLimits, machine: Machine) -> Option<Waiting>
    ensures { result ≡ waiting_of limits (C.situation cell.now) machine }
{
    if can_go_on(cell, limits, machine) {
        return None;
    }
    match next_wanted(cell, machine) {
        Some(wanted) => refused(cell, limits, wanted),
        None => None,
    }
}
