//! The watch of an axis in motion.
ghost use Rattle.std.specs.Prelude.{◌≡◌, ◌≢◌, ◌≤◌, ◌+◌, ◌==◌, ◌++◌, ◌∷◌, List, []};
ghost use Rattle.cell_diagnosis.specs.Readings.{Seen};
ghost use Rattle.cell_diagnosis.specs.AxisWatches.{motion_of, answer_of, seen_by, ruling, Fits};
ghost use Rattle.cell_diagnosis.specs.AxisRules.{verdict};
ghost use Rattle.cell_diagnosis.specs.declared.verdict.Verdict.TheVariants.{Pending};

use crate::axis_facts::{AxisFacts, NO_AXIS_FACTS, facts_of};
use crate::motion::Motion;
use crate::verdict::then_verdict;
use crate::{Limits, Reading, Verdict};
use cell_types::{Axis, Cause, Pose};

/// Watches one motion of an axis. It keeps counters and the last reading's facts, and no list; which verdict it answers
/// is said of the list of all readings since its start.
///
/// The rules are this project's profile. At reading number i, counted from 1, the first that applies:
/// 1. `to` alone is shown, and an earlier reading that isn't missing lacks `to`: `Arrived`.
/// 2. i is 2, and both readings show `to`: `StuckSwitch`.
/// 3. This reading and the one before show exactly `from` and `to`: `StuckSwitch`.
/// 4. Both show two switches or more: `Contradictory`.
/// 5. Both show a single switch, each outside `from`, `to` and the passing poses: `StrayPosition`.
/// 6. This reading and the two before are missing: `Silent`.
/// 7. i is LEAVE, and all readings show `from` alone: `NoDeparture`.
/// 8. i is LIMIT: `MissingMotion`.
///
/// For a belt the stations where the motion begins and ends take the place of `from` and `to`, and only these two bits
/// are looked at. The robot's turn passes the poses between `from` and `to`, a press from `Top` to `Bottom` passes
/// `Middle`.
#[derive(Clone, Copy, Debug, PartialEq, Eq)]
pub struct AxisWatch {
    motion: Motion,
    count: u16,
    last: AxisFacts,
    two_missing: bool,
    lacked_to: bool,
    only_from: bool,
    verdict: Verdict,
}

impl AxisWatch {
    /// A watch of the motion of `axis` from the pose `from` to the pose or belt motion `to`, with no reading yet.
    pub fn start(axis: Axis, from: Pose, to: Pose, limits: Limits) -> Self
        ensures motion { motion_of result ≡ record { axis = axis; from = from; to = to; limits = limits } }
        ensures fits { Fits result [] }
        ensures answer { answer_of result ≡ Pending }
    {
        AxisWatch {
            motion: Motion {
                axis,
                from,
                to,
                limits,
            },
            count: 0,
            last: NO_AXIS_FACTS,
            two_missing: false,
            lacked_to: false,
            only_from: true,
            verdict: Verdict::Pending,
        }
    }

    /// The motion that this watch follows.
    pub fn motion(&self) -> Motion
        ensures { result ≡ motion_of self.now }
    {
        self.motion
    }

    /// Notes the next reading, None where it is missing, and answers the verdict of all readings since the start: what
    /// the first rule says that applies at the first reading at which one does. Once that isn't Pending, each further
    /// call answers the same.
    pub fn note(&mut self, reading: Option<Reading>) -> Verdict
        // Whatever list of readings the watch fits, it is of that list followed by this reading.
        ensures verdict { (L : List Seen) → Fits self.old L →
            result ≡ verdict (motion_of self.old) (L ++ seen_by self.old reading ∷ []) }
        ensures fits { (L : List Seen) → Fits self.old L →
            Fits self.new (L ++ seen_by self.old reading ∷ []) }
        ensures motion { motion_of self.new ≡ motion_of self.old }
        ensures answer { answer_of self.new ≡ result }
        ensures stays { answer_of self.old ≢ Pending → result ≡ answer_of self.old }
    {
        let next = facts_of(self.motion, reading);
        let ruling = self.rule(&next);
        self.verdict = then_verdict(self.verdict, ruling);
        self.count = self.count.saturating_add(1);
        self.two_missing = self.last.missing & next.missing;
        self.lacked_to = self.lacked_to | next.lacks_to;
        self.only_from = self.only_from & next.from_alone;
        self.last = next;
        self.verdict
    }

    /// What the first rule says that applies at the next reading.
    fn rule(&self, next: &AxisFacts) -> Verdict
        ensures value { result ≡ ruling self.now next.now }
        ensures leave { self.now.motion.limits.leave ≤ 1000 }
        ensures limit { self.now.motion.limits.limit ≤ 1000 }
    {
        let arrived = next.to_alone & self.lacked_to;
        let stuck_at_end = (self.count == 1) & (self.last.shows_to & next.shows_to);
        let stuck = self.last.from_and_to & next.from_and_to;
        let contradictory = self.last.several & next.several;
        let stray = self.last.stray & next.stray;
        let silent = self.two_missing & next.missing;
        let not_left = is_next(self.count, self.motion.limits.leave())
            & (self.only_from & next.from_alone);
        let late = is_next(self.count, self.motion.limits.limit());
        if arrived {
            Verdict::Arrived
        } else if stuck_at_end {
            Verdict::Fault(Cause::StuckSwitch)
        } else if stuck {
            Verdict::Fault(Cause::StuckSwitch)
        } else if contradictory {
            Verdict::Fault(Cause::Contradictory)
        } else if stray {
            Verdict::Fault(Cause::StrayPosition)
        } else if silent {
            Verdict::Fault(Cause::Silent)
        } else if not_left {
            Verdict::Fault(Cause::NoDeparture)
        } else if late {
            Verdict::Fault(Cause::MissingMotion)
        } else {
            Verdict::Pending
        }
    }
}

/// Whether the reading after `count` others has this number.
fn is_next(count: u16, number: u16) -> bool
    requires { 1 ≤ number }
    ensures { result ≡ (count + 1 == number) }
{
    count == number - 1
}
