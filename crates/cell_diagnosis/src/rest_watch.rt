//! The watch of a machine's axes at rest and of its plates.
ghost use Rattle.std.specs.Prelude.{◌≡◌, ◌≢◌, ◌<◌, ◌++◌, ◌∷◌, List, [], Some, IfSome, true};
ghost use Rattle.cell_diagnosis.specs.Ends.{last_are};
ghost use Rattle.cell_diagnosis.specs.RestFacts.{Noted, agrees, any_of_three};
ghost use Rattle.cell_diagnosis.specs.RestRules.{rest};
ghost use Rattle.cell_diagnosis.specs.RestWatches.{machine_of, rest_answer_of, noted_by, both_at, axis_ruling};
ghost use Rattle.cell_diagnosis.specs.RestWatches.{plate_ruling, rest_ruling, RestFits};
ghost use Rattle.cell_diagnosis.specs.declared.verdict.Verdict.TheVariants.{Pending};

use crate::rest_facts::{NO_REST_FACTS, RestFacts, rest_facts_of};
use crate::verdict::then_verdict;
use crate::{Expect, Reading, Verdict};
use cell_types::{Cause, Machine, Pose};

/// Watches the axes of one machine that are at rest, and its plates. It keeps the last reading and its facts, and no
/// list; which verdict it answers is said of the list of all readings since its start, each with its Expect.
///
/// The rules are this project's profile. Each reading is compared with the Expect given with it; a missing reading, or
/// a part that isn't looked at, disagrees in nothing. The first that applies:
/// 1. This reading and the two before are missing: `Silent`.
/// 2. An axis, the lowest first, disagrees in this reading and the one before: `Contradictory` where both show two
///    switches or more of it, else `LostPosition`.
/// 3. A presence bit that has to be set is clear in both: `PlateLost`.
/// 4. A presence bit that has to be clear is set in both: `StrangePlate`.
#[derive(Clone, Copy, Debug, PartialEq, Eq)]
pub struct RestWatch {
    machine: Machine,
    // The last reading that wasn't missing, and its Expect.
    reading: Reading,
    expect: Expect,
    last: RestFacts,
    two_missing: bool,
    verdict: Verdict,
}

impl RestWatch {
    /// A watch of this machine, with no reading yet.
    pub fn start(machine: Machine) -> Self
        ensures machine { machine_of result ≡ machine }
        ensures fits { RestFits result [] }
        ensures answer { rest_answer_of result ≡ Pending }
    {
        RestWatch {
            machine,
            reading: NO_READING,
            expect: NOTHING_EXPECTED,
            last: NO_REST_FACTS,
            two_missing: false,
            verdict: Verdict::Pending,
        }
    }

    /// Notes the next reading, None where it is missing, with what is expected of it, and answers the verdict of all
    /// readings since the start: what the first rule says that applies at the first reading at which one does. A
    /// missing reading disagrees in nothing. Once the verdict isn't Pending, each further call answers the same.
    pub fn note(&mut self, expect: &Expect, reading: Option<Reading>) -> Verdict
        // Whatever list of readings the watch fits, it is of that list followed by this reading.
        ensures verdict { (L : List Noted) → RestFits self.old L →
            result ≡ rest (L ++ noted_by self.old expect.now reading ∷ []) }
        ensures fits { (L : List Noted) → RestFits self.old L →
            RestFits self.new (L ++ noted_by self.old expect.now reading ∷ []) }
        ensures machine { machine_of self.new ≡ machine_of self.old }
        ensures answer { rest_answer_of self.new ≡ result }
        ensures stays { rest_answer_of self.old ≢ Pending → result ≡ rest_answer_of self.old }
    {
        if self.repeats(expect, reading) {
            self.verdict
        } else {
            self.note_other(expect, reading)
        }
    }

    // Whether a reading and its Expect are those of the reading before, and that one agreed: then nothing changes.
    fn repeats(&self, expect: &Expect, reading: Option<Reading>) -> bool
        ensures agrees { result ≡ true → self.now.last.agrees ≡ true }
        ensures reading { result ≡ true → reading ≡ Some self.now.reading }
        ensures expect { result ≡ true → expect.now ≡ self.now.expect }
    {
        let before = &self.last;
        match reading {
            Some(reading) => {
                before.agrees
                    && is_same_reading(&self.reading, &reading)
                    && is_same_expect(&self.expect, expect)
            }
            None => false,
        }
    }

    // Notes the next reading, whatever it is.
    #[inline(never)]
    fn note_other(&mut self, expect: &Expect, reading: Option<Reading>) -> Verdict
        ensures verdict { (L : List Noted) → RestFits self.old L →
            result ≡ rest (L ++ noted_by self.old expect.now reading ∷ []) }
        ensures fits { (L : List Noted) → RestFits self.old L →
            RestFits self.new (L ++ noted_by self.old expect.now reading ∷ []) }
        ensures machine { machine_of self.new ≡ machine_of self.old }
        ensures answer { rest_answer_of self.new ≡ result }
        ensures stays { rest_answer_of self.old ≢ Pending → result ≡ rest_answer_of self.old }
    {
        let next = rest_facts_of(self.machine, expect, reading);
        let ruling = ruling_of(self.two_missing, &self.last, &next);
        let verdict = then_verdict(self.verdict, ruling);
        *self = RestWatch {
            machine: self.machine,
            reading: kept_reading(reading, self.reading),
            expect: *expect,
            last: next,
            two_missing: self.last.missing & next.missing,
            verdict,
        };
        verdict
    }

    /// Whether there was a reading, the last one wasn't missing, and no part of it disagreed with its Expect.
    pub fn agreed(&self) -> bool
        ensures { (L : List Noted) → RestFits self.now L → result ≡ last_are 1 agrees L }
    {
        self.last.agrees
    }
}

// What a watch keeps before its first reading.
const NO_READING: Reading = Reading {
    switches: [0; 3],
    presence: 0,
};

const NOTHING_EXPECTED: Expect = Expect {
    poses: [None; 3],
    must: 0,
    may: 0,
};

fn is_same_reading(some: &Reading, other: &Reading) -> bool
    ensures { result ≡ true → some.now ≡ other.now }
{
    some == other
}

fn is_same_pose(some: Option<Pose>, other: Option<Pose>) -> bool
    ensures { result ≡ true → some ≡ other }
{
    some == other
}

fn is_same_expect(some: &Expect, other: &Expect) -> bool
    ensures { result ≡ true → some.now ≡ other.now }
{
    let [first, second, third] = some.poses;
    let [one, two, three] = other.poses;
    some.must == other.must
        && some.may == other.may
        && is_same_pose(first, one)
        && is_same_pose(second, two)
        && is_same_pose(third, three)
}

// The reading that a watch keeps: the last one that wasn't missing.
fn kept_reading(reading: Option<Reading>, before: Reading) -> Reading
    ensures { IfSome reading (λ r. result ≡ r) }
{
    match reading {
        Some(reading) => reading,
        None => before,
    }
}

fn both_at(index: usize, last: &[bool; 3], next: &[bool; 3]) -> bool
    requires { index < 3 }
    ensures { result ≡ both_at index last.now next.now }
{
    last[index] && next[index]
}

/// The fault of an axis that disagrees in two readings.
fn axis_fault(index: usize, last: &RestFacts, next: &RestFacts) -> Verdict
    requires { index < 3 }
    ensures { result ≡ axis_ruling index last.now next.now }
{
    let disagrees = both_at(index, &last.disagrees, &next.disagrees);
    let several = both_at(index, &last.several, &next.several);
    if disagrees {
        if several {
            Verdict::Fault(Cause::Contradictory)
        } else {
            Verdict::Fault(Cause::LostPosition)
        }
    } else {
        Verdict::Pending
    }
}

fn any_both(last: &[bool; 3], next: &[bool; 3]) -> bool
    ensures { result ≡ any_of_three (λ k. both_at k last.now next.now) }
{
    both_at(0, last, next) || both_at(1, last, next) || both_at(2, last, next)
}

/// The fault of a presence bit that is wrong in two readings.
fn plate_fault(last: &RestFacts, next: &RestFacts) -> Verdict
    ensures { result ≡ plate_ruling last.now next.now }
{
    let lost = any_both(&last.lost, &next.lost);
    let strange = any_both(&last.strange, &next.strange);
    if lost {
        Verdict::Fault(Cause::PlateLost)
    } else if strange {
        Verdict::Fault(Cause::StrangePlate)
    } else {
        Verdict::Pending
    }
}

/// What the first rule says that applies at the next reading.
fn rest_rule(two_missing: bool, last: &RestFacts, next: &RestFacts) -> Verdict
    ensures { result ≡ rest_ruling two_missing last.now next.now }
{
    if two_missing && next.missing {
        return Verdict::Fault(Cause::Silent);
    }
    let first = axis_fault(0, last, next);
    let second = axis_fault(1, last, next);
    let third = axis_fault(2, last, next);
    let plates = plate_fault(last, next);
    then_verdict(first, then_verdict(second, then_verdict(third, plates)))
}

/// What the first rule says that applies; none does where no part of the next reading disagrees, as in nearly all.
#[inline(always)]
fn ruling_of(two_missing: bool, last: &RestFacts, next: &RestFacts) -> Verdict
    requires { next.now.agrees ≡ true → Pending ≡ rest_ruling two_missing last.now next.now }
    ensures { result ≡ rest_ruling two_missing last.now next.now }
{
    if next.agrees {
        Verdict::Pending
    } else {
        rest_rule(two_missing, last, next)
    }
}
