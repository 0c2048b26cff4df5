//! The third step of a turn: what is decided, by the first of nine points that applies.
ghost use Rattle.std.specs.Prelude.{◌≡◌, ◌+◌};
ghost use Rattle.cell_types.specs.Same.{same_pose};
ghost use Rattle.cell_turns.specs.Rulings.{forged, conveyed, arrived, ending, next_plate, laid_in, books, signed};
ghost use Rattle.cell_turns.specs.Rulings.{declares, ruling_by};

use crate::watch::{Memory, Watch};
use cell_diagnosis::{Motion, Verdict};
use cell_types::{
    Axis, BeltMotion, Cause, Entry, MAX_PLATES, Machine, PlateId, Pose, Press, Station, home,
    machine_of_axis, motion_named, press_of,
};
use plate_book::Book;

/// What a turn found when it noted its reading.
#[derive(Clone, Copy, PartialEq, Eq, Debug)]
pub struct Findings {
    /// The motion that the book shows, if an axis of the machine moves.
    pub motion: Option<Motion>,
    /// What the axis watch says.
    pub at_axis: Verdict,
    /// What the rest watch says.
    pub at_rest: Verdict,
    /// The reading shows a sign.
    pub sign: bool,
}

/// What a turn decides.
#[derive(Clone, Copy, PartialEq, Eq, Debug)]
pub enum Ruling {
    /// Nothing is booked.
    Nothing,
    /// This entry is booked.
    Books(Entry),
    /// A plate beyond number 100,000 would be admitted.
    PastLast,
    /// A useful entry is booked, if there is one.
    Proposes,
}

fn forged(book: &Book, press: Press) -> Option<Entry>
    ensures { result ≡ forged book.now.entries press }
{
    match book.plate_at(press.station) {
        Some(plate) => Some(Entry::Forged {
            press: press.machine,
            plate,
        }),
        None => None,
    }
}

fn conveyed(book: &Book, axis: Axis, belt: BeltMotion) -> Option<Entry>
    ensures { result ≡ conveyed book.now.entries axis belt }
{
    match book.plate_at(belt.from) {
        Some(plate) => Some(Entry::Conveyed {
            axis,
            plate,
            dest: belt.dest,
        }),
        None => None,
    }
}

fn is_same_pose(some: Pose, other: Pose) -> bool
    ensures { result ≡ same_pose some other }
{
    some == other
}

/// The motions of belts have names, and no other motion of a belt ends.
fn arrived(axis: Axis, to: Pose) -> Option<Entry>
    ensures { result ≡ arrived axis to }
{
    if is_same_pose(home(axis), Pose::Rest) {
        None
    } else {
        Some(Entry::Arrived { axis, at: to })
    }
}

/// What is booked where a motion has ended: `Conveyed` for a belt, `Forged` for a press at Top, else `Arrived`.
fn ending(book: &Book, axis: Axis, to: Pose) -> Option<Entry>
    ensures { result ≡ ending book.now.entries axis to }
{
    match (motion_named(axis, to), press_of(machine_of_axis(axis))) {
        (Some(belt), _) => conveyed(book, axis, belt),
        (None, Some(press)) if is_same_pose(to, Pose::Top) => forged(book, press),
        _ => arrived(axis, to),
    }
}

fn next_plate(admitted: u32) -> Ruling
    ensures { result ≡ next_plate (admitted + 1) }
{
    if admitted >= MAX_PLATES {
        return Ruling::PastLast;
    }
    match PlateId::new(admitted + 1) {
        Some(plate) => Ruling::Books(Entry::Admitted { plate }),
        None => Ruling::PastLast,
    }
}

/// What is booked where a plate was laid in: the plate that is expected comes back, or else the next one is admitted.
fn laid_in(expected: Option<PlateId>, admitted: u32) -> Ruling
    ensures { result ≡ laid_in expected (admitted + 1) }
{
    match expected {
        Some(plate) => Ruling::Books(Entry::Reinstated { plate }),
        None => next_plate(admitted),
    }
}

#[inline(always)]
fn books(entry: Option<Entry>) -> Ruling
    ensures { result ≡ books entry }
{
    match entry {
        Some(entry) => Ruling::Books(entry),
        None => Ruling::Proposes,
    }
}

/// What is booked where a sign was seen.
#[inline(always)]
fn signed(book: &Book, machine: Machine) -> Ruling
    ensures { result ≡ signed book.now.entries machine }
{
    match machine {
        Machine::Feed => laid_in(book.expected(), book.totals().admitted),
        Machine::Deposit => match book.plate_at(Station::DepEnd) {
            Some(plate) => Ruling::Books(Entry::Delivered { plate }),
            None => Ruling::Proposes,
        },
        _ => Ruling::Proposes,
    }
}

#[inline(always)]
fn declares(machine: Machine, cause: Cause) -> Ruling
    ensures { result ≡ declares machine cause }
{
    Ruling::Books(Entry::Declared { machine, cause })
}

/// What a turn decides: the first of nine points that applies.
/// 1. The machine is booked failed: nothing is booked.
/// 2. Its last command failed: `Declared` with `CommandFault`.
/// 3. A stop is asked: `Declared` with `OperatorStop`.
/// 4. It was booked failed at its last turn: an entry is proposed.
/// 5. The axis watch found a fault: `Declared` with it.
/// 6. The rest watch found a fault: `Declared` with it.
/// 7. The motion has ended: `Forged` for a press at Top, `Conveyed` for a belt, else `Arrived`.
/// 8. This reading and the last one show a sign: `Reinstated` of the plate that is expected or, where none is,
///    `Admitted` with the next number; or `Delivered` of the plate at DepEnd.
/// 9. An entry is proposed.
#[inline(always)]
fn ruling_by(book: &Book, machine: Machine, kept: &Memory, found: &Findings) -> Ruling
    ensures { result ≡ ruling_by book.now.entries machine kept.now found.now }
{
    if book.failed(machine) {
        return Ruling::Nothing;
    }
    if kept.command_failed {
        return declares(machine, Cause::CommandFault);
    }
    if book.asked(machine) {
        return declares(machine, Cause::OperatorStop);
    }
    if kept.failed {
        return Ruling::Proposes;
    }
    if let Verdict::Fault(cause) = found.at_axis {
        return declares(machine, cause);
    }
    if let Verdict::Fault(cause) = found.at_rest {
        return declares(machine, cause);
    }
    if let (Some(motion), Verdict::Arrived) = (found.motion, found.at_axis) {
        return books(ending(book, motion.axis, motion.to));
    }
    if kept.sign && found.sign {
        return signed(book, machine);
    }
    Ruling::Proposes
}

/// What a turn of a watch's machine decides.
#[inline(always)]
pub(crate) fn decide(machine: Machine, book: &Book, watch: &Watch, found: &Findings) -> Ruling
    requires { watch.now.machine ≡ machine }
    ensures { result ≡ ruling_by book.now.entries watch.now.machine watch.now.memory found.now }
{
    ruling_by(book, machine, &watch.memory, found)
}
