//! What the rules of an axis watch ask of one reading.
ghost use Rattle.std.specs.Prelude.{◌≡◌};
ghost use Rattle.std.specs.List.{position};
ghost use Rattle.cell_diagnosis.specs.Readings.{seen};
ghost use Rattle.cell_diagnosis.specs.Motions.{is_between, is_press_passed, is_passed, is_on_way};
ghost use Rattle.cell_diagnosis.specs.AxisFacts.{is_shown, count_shown, is_off_way};
ghost use Rattle.cell_diagnosis.specs.AxisWatches.{facts_of};

use crate::Reading;
use crate::motion::Motion;
use crate::reading::{axis_bits, place_in_axis};
use cell_types::{Axis, Pose};

/// The answers to the rules' questions of one reading.
#[derive(Clone, Copy, Debug, PartialEq, Eq)]
pub struct AxisFacts {
    pub missing: bool,
    pub shows_to: bool,
    pub lacks_to: bool,
    pub from_alone: bool,
    pub to_alone: bool,
    pub from_and_to: bool,
    pub several: bool,
    pub stray: bool,
}

/// The answers of no reading.
pub const NO_AXIS_FACTS: AxisFacts = AxisFacts {
    missing: false,
    shows_to: false,
    lacks_to: false,
    from_alone: false,
    to_alone: false,
    from_and_to: false,
    several: false,
    stray: false,
};

/// Whether a pose is among those shown.
pub fn is_shown(pose: Pose, bits: &[bool; 6]) -> bool
    ensures { result ≡ is_shown pose bits.now }
{
    bits[place_in_axis(pose)]
}

/// How many poses are shown.
pub fn count_shown(bits: &[bool; 6]) -> usize
    ensures { result ≡ count_shown bits.now }
{
    let [first, second, third, fourth, fifth, sixth] = *bits;
    first as usize
        + (second as usize
            + (third as usize + (fourth as usize + (fifth as usize + sixth as usize))))
}

/// The place of the first pose that is shown.
fn first_shown(bits: &[bool; 6]) -> Option<usize>
    ensures { result ≡ position (λ b. b) bits.now }
{
    bits.iter().position(|bit| *bit)
}

fn is_between(first: usize, place: usize, last: usize) -> bool
    ensures { result ≡ is_between first place last }
{
    (first < place && place < last) || (last < place && place < first)
}

fn is_press_passed(from: Pose, to: Pose, place: usize) -> bool
    ensures { result ≡ is_press_passed from to place }
{
    match from {
        Pose::Top => match to {
            Pose::Bottom => place == place_in_axis(Pose::Middle),
            _ => false,
        },
        _ => false,
    }
}

fn is_passed(axis: Axis, from: Pose, to: Pose, place: usize) -> bool
    ensures { result ≡ is_passed axis from to place }
{
    match axis {
        Axis::RobotTurn => is_between(place_in_axis(from), place, place_in_axis(to)),
        Axis::PressOne | Axis::PressTwo => is_press_passed(from, to, place),
        _ => false,
    }
}

fn is_on_way(motion: &Motion, place: usize) -> bool
    ensures { result ≡ is_on_way motion.now place }
{
    place == place_in_axis(motion.from)
        || place == place_in_axis(motion.to)
        || is_passed(motion.axis, motion.from, motion.to, place)
}

fn is_off_way(motion: &Motion, place: Option<usize>) -> bool
    ensures { result ≡ is_off_way motion.now place }
{
    match place {
        None => false,
        Some(place) => !is_on_way(motion, place),
    }
}

/// What the rules ask of a reading of this motion.
#[tactic(auto, unfolding(crate::specs::Readings::seen, crate::specs::AxisFacts::is_missing, crate::specs::AxisFacts::shows, crate::specs::AxisFacts::lacks, crate::specs::AxisFacts::shows_alone, crate::specs::AxisFacts::shows_exactly, crate::specs::AxisFacts::shows_several, crate::specs::AxisFacts::shows_stray))]
pub fn facts_of(motion: Motion, reading: Option<Reading>) -> AxisFacts
    ensures { result ≡ facts_of motion (seen motion reading) }
{
    match reading {
        None => AxisFacts {
            missing: true,
            ..NO_AXIS_FACTS
        },
        Some(reading) => {
            let bits = axis_bits(motion.axis, motion.to, reading);
            let shows_from = is_shown(motion.from, &bits);
            let shows_to = is_shown(motion.to, &bits);
            let count = count_shown(&bits);
            let off_way = is_off_way(&motion, first_shown(&bits));
            AxisFacts {
                missing: false,
                shows_to,
                lacks_to: !shows_to,
                from_alone: shows_from & (count == 1),
                to_alone: shows_to & (count == 1),
                from_and_to: shows_from & (shows_to & (count == 2)),
                several: 2 <= count,
                stray: (count == 1) & off_way,
            }
        }
    }
}
