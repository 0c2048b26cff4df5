//! The rules read off as a slow program over the whole list of readings, with sets of switches as bits of a byte.
use cell_diagnosis::{Expect, Reading, Verdict};
use cell_types::{Axis, Cause, Pose};

pub(crate) const LEAVE: u16 = 3;

pub(crate) const LIMIT: u16 = 5;

/// A motion by the sets of switches that stand for its poses.
#[derive(Clone, Copy)]
pub(crate) struct PlainMotion {
    pub from: u8,
    pub to: u8,
    pub passing: u8,
}

/// The switches that a reading shows of an axis; of a belt, the two stations of the motion.
pub(crate) fn shown(axis: Axis, to: Pose, reading: Reading) -> u8 {
    let [first, second, third] = reading.switches;
    match axis {
        Axis::FeedBelt if to == Pose::ToTable => (reading.presence >> 1) & 3,
        Axis::FeedBelt | Axis::DepositBelt => reading.presence & 3,
        Axis::TableLift => first & 3,
        Axis::RobotTurn => first & 63,
        Axis::PressOne | Axis::PressTwo => first & 7,
        Axis::TableTurn | Axis::ArmOne => second & 3,
        Axis::ArmTwo => third & 3,
    }
}

fn has_arrived(motion: &PlainMotion, sets: &[Option<u8>]) -> bool {
    match sets {
        [earlier @ .., Some(last)] => {
            *last == motion.to
                && earlier
                    .iter()
                    .any(|set| matches!(set, Some(set) if set & motion.to == 0))
        }
        _ => false,
    }
}

/// The fault that the last two of so many readings show.
fn fault_of_two(motion: &PlainMotion, number: usize, before: u8, last: u8) -> Option<Cause> {
    let way = motion.from | motion.to | motion.passing;
    let stayed = number == 2 && before & motion.to != 0 && last & motion.to != 0;
    if stayed || (before == motion.from | motion.to && last == before) {
        Some(Cause::StuckSwitch)
    } else if before.count_ones() > 1 && last.count_ones() > 1 {
        Some(Cause::Contradictory)
    } else if is_stray(way, before) && is_stray(way, last) {
        Some(Cause::StrayPosition)
    } else {
        None
    }
}

/// Whether one switch alone is shown, which isn't on the way.
fn is_stray(way: u8, set: u8) -> bool {
    set.count_ones() == 1 && set & way == 0
}

/// The rules at the last of these readings.
fn judged(motion: &PlainMotion, sets: &[Option<u8>]) -> Verdict {
    let number = sets.len();
    if has_arrived(motion, sets) {
        return Verdict::Arrived;
    }
    if let [.., Some(before), Some(last)] = sets {
        if let Some(cause) = fault_of_two(motion, number, *before, *last) {
            return Verdict::Fault(cause);
        }
    }
    if matches!(sets, [.., None, None, None]) {
        return Verdict::Fault(Cause::Silent);
    }
    if number == usize::from(LEAVE) && sets.iter().all(|set| *set == Some(motion.from)) {
        return Verdict::Fault(Cause::NoDeparture);
    }
    if number == usize::from(LIMIT) {
        return Verdict::Fault(Cause::MissingMotion);
    }
    Verdict::Pending
}

/// The verdict at the first reading at which a rule applies, else Pending.
pub(crate) fn plain_verdict(motion: &PlainMotion, sets: &[Option<u8>]) -> Verdict {
    for end in 0..sets.len() {
        let verdict = judged(motion, &sets[..=end]);
        if verdict != Verdict::Pending {
            return verdict;
        }
    }
    Verdict::Pending
}

/// A reading of the table with its Expect.
pub type Noted = (Expect, Option<Reading>);

/// What an axis of the table shows where it disagrees: the lift's number is 0, the turn's 1.
fn wrong(noted: &Noted, axis: usize) -> Option<u8> {
    let (expect, reading) = *noted;
    let pose = expect.poses.get(axis).copied().flatten()?;
    let set = reading?.switches.get(axis).copied()? & 3;
    let right = match pose {
        Pose::Low | Pose::Belt => 1,
        _ => 2,
    };
    if set == right { None } else { Some(set) }
}

/// Whether the table's presence bit, looked at, is clear and must be set; or is set and must be clear.
fn plate(noted: &Noted) -> (bool, bool) {
    let (expect, reading) = *noted;
    match reading {
        Some(reading) if expect.may & 1 == 0 => {
            let must = expect.must & 1 == 1;
            let is = reading.presence & 1 == 1;
            (must && !is, is && !must)
        }
        _ => (false, false),
    }
}

fn judged_at_rest(list: &[Noted]) -> Verdict {
    if matches!(list, [.., (_, None), (_, None), (_, None)]) {
        return Verdict::Fault(Cause::Silent);
    }
    let [.., before, last] = list else {
        return Verdict::Pending;
    };
    for axis in 0..2 {
        if let (Some(first), Some(second)) = (wrong(before, axis), wrong(last, axis)) {
            return Verdict::Fault(if first == 3 && second == 3 {
                Cause::Contradictory
            } else {
                Cause::LostPosition
            });
        }
    }
    match (plate(before), plate(last)) {
        ((true, _), (true, _)) => Verdict::Fault(Cause::PlateLost),
        ((_, true), (_, true)) => Verdict::Fault(Cause::StrangePlate),
        _ => Verdict::Pending,
    }
}

/// The verdict of a rest watch of the table at the first reading at which a rule applies, else Pending.
pub(crate) fn plain_rest(list: &[Noted]) -> Verdict {
    for end in 0..list.len() {
        let verdict = judged_at_rest(&list[..=end]);
        if verdict != Verdict::Pending {
            return verdict;
        }
    }
    Verdict::Pending
}
