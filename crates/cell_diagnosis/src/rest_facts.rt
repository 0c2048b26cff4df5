//! What the rules of a rest watch ask of one reading.
ghost use Rattle.std.specs.Prelude.{◌≡◌, ◌&&◌, ◌||◌, not, nat_le, Some};
ghost use Rattle.cell_diagnosis.specs.AxisFacts.{count_shown};
ghost use Rattle.cell_diagnosis.specs.RestFacts.{noted, machine_poses, machine_axes, machine_presence, pose_disagrees};
ghost use Rattle.cell_diagnosis.specs.RestFacts.{any_of_three, of_three, is_set, agrees, disagrees, shows_several_at};
ghost use Rattle.cell_diagnosis.specs.RestFacts.{rest_facts_of};

use crate::axis_facts::{count_shown, is_shown};
use crate::reading::{bit, six_bits, three_bits, two_bits};
use crate::{Expect, Reading};
use cell_types::{Machine, Pose};

/// The answers to the rules' questions of one reading: per axis, whether it disagrees and whether it shows two switches
/// or more; per presence bit, whether it is clear and must be set, and whether it is set and must be clear.
#[derive(Clone, Copy, Debug, PartialEq, Eq)]
pub struct RestFacts {
    pub missing: bool,
    pub agrees: bool,
    pub disagrees: [bool; 3],
    pub several: [bool; 3],
    pub lost: [bool; 3],
    pub strange: [bool; 3],
}

/// The answers of no reading.
pub const NO_REST_FACTS: RestFacts = RestFacts {
    missing: false,
    agrees: false,
    disagrees: [false; 3],
    several: [false; 3],
    lost: [false; 3],
    strange: [false; 3],
};

#[inline(always)]
fn machine_poses(machine: Machine, poses: &[Option<Pose>; 3]) -> [Option<Pose>; 3]
    ensures { result ≡ machine_poses machine poses.now }
{
    match machine {
        Machine::Feed | Machine::Deposit => [None, None, None],
        Machine::Table => [poses[0], poses[1], None],
        Machine::Robot => [poses[0], poses[1], poses[2]],
        Machine::Press1 | Machine::Press2 => [poses[0], None, None],
    }
}

#[inline(always)]
fn machine_axes(machine: Machine, switches: &[u8; 3]) -> [[bool; 6]; 3]
    ensures { result ≡ machine_axes machine switches.now }
{
    match machine {
        Machine::Feed | Machine::Deposit => [[false; 6], [false; 6], [false; 6]],
        Machine::Table => [two_bits(switches[0]), two_bits(switches[1]), [false; 6]],
        Machine::Robot => [
            six_bits(switches[0]),
            two_bits(switches[1]),
            two_bits(switches[2]),
        ],
        Machine::Press1 | Machine::Press2 => [three_bits(switches[0]), [false; 6], [false; 6]],
    }
}

#[inline(always)]
fn machine_presence(machine: Machine, byte: u8) -> [bool; 3]
    ensures { result ≡ machine_presence machine byte }
{
    match machine {
        Machine::Feed => [bit(byte, 0), bit(byte, 1), bit(byte, 2)],
        Machine::Robot | Machine::Deposit => [bit(byte, 0), bit(byte, 1), false],
        Machine::Table | Machine::Press1 | Machine::Press2 => [bit(byte, 0), false, false],
    }
}

#[inline(always)]
fn pose_disagrees(pose: Option<Pose>, bits: &[bool; 6]) -> bool
    ensures { result ≡ pose_disagrees pose bits.now }
{
    match pose {
        None => false,
        Some(pose) => !(is_shown(pose, bits) && count_shown(bits) == 1),
    }
}

#[inline(always)]
fn is_several(bits: &[bool; 6]) -> bool
    ensures { result ≡ nat_le 2 (count_shown bits.now) }
{
    2 <= count_shown(bits)
}

#[inline(always)]
fn is_lost(must: bool, may: bool, shown: bool) -> bool
    ensures { result ≡ (must && (not may && not shown)) }
{
    must && !may && !shown
}

#[inline(always)]
fn is_strange(must: bool, may: bool, shown: bool) -> bool
    ensures { result ≡ (not must && (not may && shown)) }
{
    !must && !may && shown
}

/// Whether a presence bit that is looked at isn't as it has to be.
#[inline(always)]
fn is_wrong(must: bool, may: bool, shown: bool) -> bool
    ensures { result ≡ ((must && (not may && not shown)) || (not must && (not may && shown))) }
{
    !may & (must != shown)
}

#[inline(always)]
fn any(parts: &[bool; 3]) -> bool
    ensures { result ≡ any_of_three (λ k. is_set k parts.now) }
{
    parts[0] | (parts[1] | parts[2])
}

/// Which axes don't show alone the pose that is expected.
#[tactic(auto, unfolding(crate::specs::RestFacts::noted, crate::specs::RestFacts::disagrees))]
#[inline(always)]
fn disagreeing(machine: Machine, expect: &Expect, reading: Reading) -> [bool; 3]
    ensures { result ≡ of_three (λ j. disagrees j (noted machine expect.now (Some reading))) }
{
    let poses = machine_poses(machine, &expect.poses);
    let axes = machine_axes(machine, &reading.switches);
    [
        pose_disagrees(poses[0], &axes[0]),
        pose_disagrees(poses[1], &axes[1]),
        pose_disagrees(poses[2], &axes[2]),
    ]
}

/// Which axes show two switches or more.
#[tactic(auto, unfolding(crate::specs::RestFacts::noted, crate::specs::RestFacts::shows_several_at))]
#[inline(always)]
fn several(machine: Machine, expect: &Expect, reading: Reading) -> [bool; 3]
    ensures { result ≡ of_three (λ j. shows_several_at j (noted machine expect.now (Some reading))) }
{
    let axes = machine_axes(machine, &reading.switches);
    [
        is_several(&axes[0]),
        is_several(&axes[1]),
        is_several(&axes[2]),
    ]
}

/// Whether no part of a reading disagrees.
#[tactic(auto, using(crate::proofs::RestAgrees::none_wrong), unfolding(crate::specs::RestFacts::noted, crate::specs::RestFacts::is_unread, crate::specs::RestFacts::agrees, crate::specs::RestFacts::is_lost, crate::specs::RestFacts::is_strange))]
#[inline(always)]
fn is_agreeing(machine: Machine, expect: &Expect, reading: Reading) -> bool
    ensures { result ≡ agrees (noted machine expect.now (Some reading)) }
{
    let must = machine_presence(machine, expect.must);
    let may = machine_presence(machine, expect.may);
    let shown = machine_presence(machine, reading.presence);
    let disagrees = disagreeing(machine, expect, reading);
    let wrong = [
        is_wrong(must[0], may[0], shown[0]),
        is_wrong(must[1], may[1], shown[1]),
        is_wrong(must[2], may[2], shown[2]),
    ];
    !any(&disagrees) & !any(&wrong)
}

/// The facts of a reading, whatever they are.
#[tactic(auto, unfolding(crate::specs::RestFacts::noted, crate::specs::RestFacts::is_unread, crate::specs::RestFacts::agrees, crate::specs::RestFacts::is_lost, crate::specs::RestFacts::is_strange))]
#[inline(never)]
fn shown_facts(machine: Machine, expect: &Expect, reading: Reading) -> RestFacts
    ensures { result ≡ rest_facts_of (noted machine expect.now (Some reading)) }
{
    let must = machine_presence(machine, expect.must);
    let may = machine_presence(machine, expect.may);
    let shown = machine_presence(machine, reading.presence);
    let disagrees = disagreeing(machine, expect, reading);
    let lost = [
        is_lost(must[0], may[0], shown[0]),
        is_lost(must[1], may[1], shown[1]),
        is_lost(must[2], may[2], shown[2]),
    ];
    let strange = [
        is_strange(must[0], may[0], shown[0]),
        is_strange(must[1], may[1], shown[1]),
        is_strange(must[2], may[2], shown[2]),
    ];
    RestFacts {
        missing: false,
        agrees: !any(&disagrees) & (!any(&lost) & !any(&strange)),
        disagrees,
        several: several(machine, expect, reading),
        lost,
        strange,
    }
}

/// The facts of a reading, soon found where nothing disagrees, as in nearly all.
#[tactic(auto, using(crate::proofs::RestAgrees::agreeing_facts))]
#[inline(always)]
fn facts_of(machine: Machine, expect: &Expect, reading: Reading) -> RestFacts
    ensures { result ≡ rest_facts_of (noted machine expect.now (Some reading)) }
{
    if is_agreeing(machine, expect, reading) {
        RestFacts {
            agrees: true,
            several: several(machine, expect, reading),
            ..NO_REST_FACTS
        }
    } else {
        shown_facts(machine, expect, reading)
    }
}

// The machine is matched once: compiled for each alone, the facts cost what that machine has, and no more.
fn facts_by_machine(machine: Machine, expect: &Expect, reading: Reading) -> RestFacts
    ensures { result ≡ rest_facts_of (noted machine expect.now (Some reading)) }
{
    match machine {
        Machine::Feed => facts_of(Machine::Feed, expect, reading),
        Machine::Table => facts_of(Machine::Table, expect, reading),
        Machine::Robot => facts_of(Machine::Robot, expect, reading),
        Machine::Press1 => facts_of(Machine::Press1, expect, reading),
        Machine::Press2 => facts_of(Machine::Press2, expect, reading),
        Machine::Deposit => facts_of(Machine::Deposit, expect, reading),
    }
}

/// What the rules ask of a reading of this machine and the Expect given with it.
#[tactic(auto, unfolding(crate::specs::RestFacts::noted, crate::specs::RestFacts::is_unread, crate::specs::RestFacts::agrees, crate::specs::RestFacts::disagrees, crate::specs::RestFacts::shows_several_at, crate::specs::RestFacts::is_lost, crate::specs::RestFacts::is_strange))]
pub fn rest_facts_of(machine: Machine, expect: &Expect, reading: Option<Reading>) -> RestFacts
    ensures { result ≡ rest_facts_of (noted machine expect.now reading) }
{
    match reading {
        None => RestFacts {
            missing: true,
            ..NO_REST_FACTS
        },
        Some(reading) => facts_by_machine(machine, expect, reading),
    }
}
