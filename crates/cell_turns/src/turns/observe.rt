//! The second step of a turn: both watches note the reading, and what they say is found.
ghost use Rattle.std.specs.Prelude.{◌≡◌, ◌<◌, [], Option, List};
ghost use Rattle.std.specs.Option.{option_map};
ghost use Rattle.cell_types.specs.Same.{same_axis, same_pose};
ghost use Rattle.cell_diagnosis.specs.AxisWatches.{motion_of, Fits};
ghost use Rattle.cell_diagnosis.specs.RestFacts.{Noted};
ghost use Rattle.cell_diagnosis.specs.RestRules.{rest};
ghost use Rattle.cell_diagnosis.specs.RestWatches.{RestFits};
ghost use Rattle.cell_turns.specs.Moving.{motion_of_machine};
ghost use Rattle.cell_turns.specs.Signs.{shows_sign};
ghost use Rattle.cell_turns.specs.Following.{Following, FitsAxis};
ghost use Rattle.cell_turns.specs.Observed.{same_motion, followed, with_reading, axis_noted, axis_verdict, rest_noted};

use crate::turns::decide::Findings;
use crate::turns::expect::{expected_of, is_green, is_unvisited, motion_of_machine};
use crate::watch::Watch;
use cell_diagnosis::{AxisWatch, Motion, Reading, Verdict, bit};
use cell_ports::Plan;
use cell_types::{Axis, Belt, Machine, Pose};
use plate_book::Book;

fn is_same_axis(some: Axis, other: Axis) -> bool
    ensures { result ≡ same_axis some other }
{
    some == other
}

fn is_same_pose(some: Pose, other: Pose) -> bool
    ensures { result ≡ same_pose some other }
{
    some == other
}

fn same_motion(some: &Motion, other: &Motion) -> bool
    ensures { result ≡ same_motion some.now other.now }
{
    is_same_axis(some.axis, other.axis)
        & (is_same_pose(some.from, other.from) & is_same_pose(some.to, other.to))
}

fn start(motion: Motion) -> AxisWatch
    ensures motion { motion_of result ≡ motion }
    ensures fits { Fits result [] }
{
    AxisWatch::start(motion.axis, motion.from, motion.to, motion.limits)
}

/// The motion that the book shows is followed: by the watch that follows it already, or by a new one.
#[inline(always)]
fn follow(axis: &mut Option<AxisWatch>, motion: Option<Motion>)
    ensures { (f : Option Following) → FitsAxis axis.old f → FitsAxis axis.new (followed f motion) }
{
    let Some(motion) = motion else {
        *axis = None;
        return;
    };
    if let Some(watch) = &*axis {
        if same_motion(&watch.motion(), &motion) {
            return;
        }
    }
    *axis = Some(start(motion));
}

/// Notes a reading, where a motion is followed.
#[inline(always)]
fn note_axis(axis: &mut Option<AxisWatch>, reading: Option<Reading>) -> Verdict
    ensures fits { (f : Option Following) → FitsAxis axis.old f
        → FitsAxis axis.new (option_map (with_reading reading) f) }
    ensures verdict { (f : Option Following) → FitsAxis axis.old f
        → result ≡ axis_verdict (option_map (with_reading reading) f) }
{
    match axis {
        Some(watch) => watch.note(reading),
        None => Verdict::Pending,
    }
}

#[inline(always)]
fn note_motion(
    axis: &mut Option<AxisWatch>,
    motion: Option<Motion>,
    reading: Option<Reading>,
) -> Verdict
    ensures fits { (f : Option Following) → FitsAxis axis.old f
        → FitsAxis axis.new (option_map (with_reading reading) (followed f motion)) }
    ensures verdict { (f : Option Following) → FitsAxis axis.old f
        → result ≡ axis_verdict (option_map (with_reading reading) (followed f motion)) }
{
    follow(axis, motion);
    note_axis(axis, reading)
}

/// Whether a reading is present and shows that a plate lies at FeedIn under a green light, or that none is left at
/// DepEnd under one.
#[inline(always)]
fn shows_sign(book: &Book, machine: Machine, reading: Option<Reading>) -> bool
    ensures { result ≡ shows_sign book.now.entries machine reading }
{
    let Some(reading) = reading else {
        return false;
    };
    match machine {
        Machine::Feed => bit(reading.presence, 0) && is_green(book, Belt::Feed),
        Machine::Deposit => !bit(reading.presence, 1) && is_green(book, Belt::Deposit),
        _ => false,
    }
}

/// Notes a reading in both watches of a machine, and answers what they say of it.
#[inline(always)]
pub fn notice(
    machine: Machine,
    watch: &mut Watch,
    book: &Book,
    reading: Option<Reading>,
    plan: &Plan,
) -> Findings
    requires { watch.old.machine ≡ machine }
    ensures axis { (f : Option Following) → FitsAxis watch.old.axis f
        → FitsAxis watch.new.axis (axis_noted book.now.entries watch.old.machine plan.now f reading) }
    ensures at_axis { (f : Option Following) → FitsAxis watch.old.axis f
        → result.at_axis ≡ axis_verdict (axis_noted book.now.entries watch.old.machine plan.now f reading) }
    ensures rest { (L : List Noted) → RestFits watch.old.rest L
        → RestFits watch.new.rest (rest_noted book.now.entries watch.old.machine watch.old.memory L reading) }
    ensures at_rest { (L : List Noted) → RestFits watch.old.rest L
        → result.at_rest ≡ rest (rest_noted book.now.entries watch.old.machine watch.old.memory L reading) }
    ensures machine { watch.new.machine ≡ watch.old.machine }
    ensures motion { result.motion ≡ motion_of_machine book.now.entries plan.now watch.old.machine }
    ensures sign { result.sign ≡ shows_sign book.now.entries watch.old.machine reading }
{
    let motion = motion_of_machine(book, plan, machine);
    let shown = motion;
    let expect = expected_of(book, machine, is_unvisited(book, machine, &watch.memory));
    let at_axis = note_motion(&mut watch.axis, shown, reading);
    let at_rest = watch.rest.note(&expect, reading);
    Findings {
        motion,
        at_axis,
        at_rest,
        sign: shows_sign(book, machine, reading),
    }
}
