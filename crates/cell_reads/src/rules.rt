//! The tests of the other entries, and of every entry.
ghost use Rattle.std.specs.Prelude.{◌≡◌, ◌+◌, ◌∷◌, [], ◌++◌, map, option_map};
ghost use Rattle.cell_types.specs.Cell.{machine_of_axis, machine_of_belt, motion_to, station_of_arm, faced_of};
ghost use Rattle.cell_types.specs.Cell.{grips_at, drops_at};
ghost use Rattle.cell_types.specs.declared.words.Entry.TheVariants.{Admitted};
ghost use Rattle.cell_rules.specs.First.{first_true, lamp_tests, started_tests, claimed_tests, parked_tests};
ghost use Rattle.cell_rules.specs.First.{conveyed_tests, forged_tests};
ghost use Rattle.cell_rules.specs.First.{handing_tests, quarantined_tests, repaired_tests, expected_tests};
ghost use Rattle.cell_rules.specs.First.{reinstated_tests, any_visited, any_still_there, first, is_faced, faces};
ghost use Rattle.cell_rules.specs.First.{kind_tests, machine_failed, not_holder, neighbour_tests, not_at_rest};
ghost use Rattle.cell_rules.specs.First.{lamp_red, no_arrival, other_plate_at};
ghost use Rattle.cell_types.specs.declared.words.Machine.TheVariants as machines;
ghost use Rattle.cell_types.specs.declared.words.Station.TheVariants as stations;
ghost use Rattle.cell_types.specs.declared.words.Belt.TheVariants as belts;

use crate::checks::{refused_by, unless, unless_refused};
use crate::conditions::{
    journal_full, lamp_already, lamp_red, machine_failed, machine_healthy, no_arrival,
    no_neighbour, not_at_rest, not_expected, not_going, not_holder, not_resting_at, not_returnable,
    not_waiting, other_plate_at, owner_failed, plate_expected, plate_limit, plate_not_at,
    station_empty, station_full, still_there, visited, visits_failed, wrong_number, zone_taken,
};
use crate::moves::{lamp_tests, started_tests};
use crate::reads::Reads;
use cell_rules::{BookLimits, Refusal};
use cell_types::{
    Arm, Axis, Belt, Colour, Entry, Facing, Machine, PlateId, Pose, Station, ZONES, Zone, axes_of,
    axis_of_arm, drops_at, faced, grips_at, machine_of_axis, machine_of_belt, machine_of_station,
    motion_to, press_of, station_of_arm,
};

#[tactic(auto, unfolding(cell_rules::specs::First::first_true))]
#[inline(always)]
pub fn claimed_tests<C: Reads>(cell: &C, machine: Machine, zone: Zone) -> Option<Refusal>
    ensures { result ≡ first_true (claimed_tests (C.situation cell.now) machine zone) }
{
    refused_by![
        visits_failed(cell, machine, zone),
        zone_taken(cell, zone),
        no_neighbour(machine, zone),
    ]
}

/// The first of these axes that isn't at rest.
#[tactic(auto, unfolding(cell_rules::specs::First::first_true))]
#[inline(always)]
fn not_all_at_rest<C: Reads>(cell: &C, axes: &[Axis]) -> Option<Refusal>
    ensures { result ≡ first_true (map (not_at_rest (C.situation cell.now)) axes.now) }
{
    for axis in axes {
        let test = not_at_rest(cell, *axis);
        if test.0 {
            return Some(test.1);
        }
    }
    None
}

#[tactic(auto, unfolding(cell_rules::specs::First::first_true))]
#[inline(always)]
pub fn parked_tests<C: Reads>(cell: &C, machine: Machine) -> Option<Refusal>
    ensures { result ≡ first_true (parked_tests (C.situation cell.now) machine) }
{
    match machine {
        Machine::Robot => refused_by![
            not_resting_at(cell, Axis::ArmOne, Pose::In),
            not_resting_at(cell, Axis::ArmTwo, Pose::In),
        ],
        _ => not_all_at_rest(cell, axes_of(machine)),
    }
}

#[tactic(auto, unfolding(cell_rules::specs::First::first_true))]
#[inline(always)]
pub fn conveyed_tests<C: Reads>(
    cell: &C,
    axis: Axis,
    plate: PlateId,
    dest: Station,
) -> Option<Refusal>
    ensures { result ≡ first_true (conveyed_tests (C.situation cell.now) axis plate (motion_to axis dest)) }
{
    match motion_to(axis, dest) {
        Some(motion) => refused_by![
            not_going(cell, axis, motion.to),
            plate_not_at(cell, motion.from, plate),
        ],
        None => Some(Refusal::WrongPose(axis)),
    }
}

#[tactic(auto, unfolding(cell_rules::specs::First::first_true))]
#[inline(always)]
pub fn forged_tests<C: Reads>(cell: &C, machine: Machine, plate: PlateId) -> Option<Refusal>
    ensures { result ≡ first_true (forged_tests (C.situation cell.now) machine plate) }
{
    match press_of(machine) {
        Some(press) => refused_by![
            not_going(cell, press.axis, Pose::Top),
            plate_not_at(cell, press.station, plate),
        ],
        None => Some(Refusal::NoPress),
    }
}

/// What an arm faces while the turn is at rest.
#[tactic(auto, unfolding(cell_rules::specs::First::first_true))]
#[inline(always)]
pub fn facing<C: Reads>(cell: &C, arm: Arm) -> Option<Facing>
    ensures { option_map faced_of result ≡ faces (C.situation cell.now) arm }
{
    if cell.is_moving(Axis::RobotTurn) {
        None
    } else {
        faced(arm, cell.at(Axis::RobotTurn))
    }
}

/// Whether the turn is at rest where this arm faces the station.
#[tactic(auto, unfolding(cell_rules::specs::First::first_true))]
#[inline(always)]
fn is_facing<C: Reads>(cell: &C, arm: Arm, station: Station) -> bool
    ensures { result ≡ is_faced station (faces (C.situation cell.now) arm) }
{
    match facing(cell, arm) {
        Some(facing) => facing.station == station,
        None => false,
    }
}

/// The tests of a grip or a drop at a station, from one station to another.
#[tactic(auto, unfolding(cell_rules::specs::First::first_true))]
#[inline(always)]
fn handing_tests<C: Reads>(
    cell: &C,
    arm: Arm,
    at: Station,
    from: Station,
    to: Station,
    plate: PlateId,
) -> Option<Refusal>
    ensures { result ≡ first_true (handing_tests (C.situation cell.now) arm at from to plate) }
{
    refused_by![
        owner_failed(cell, machine_of_station(at)),
        (
            !is_facing(cell, arm, at),
            Refusal::WrongPose(Axis::RobotTurn),
        ),
        not_resting_at(cell, axis_of_arm(arm), Pose::Out),
        station_empty(cell, from),
        station_full(cell, to),
        other_plate_at(cell, from, plate),
    ]
}

#[tactic(auto, unfolding(cell_rules::specs::First::first_true, cell_rules::specs::First::any_visited))]
#[inline(always)]
fn any_visited<C: Reads>(cell: &C, machine: Machine) -> Option<Refusal>
    ensures { result ≡ first_true (any_visited (C.situation cell.now) machine) }
{
    for zone in ZONES {
        let test = visited(cell, machine, zone);
        if test.0 {
            return Some(test.1);
        }
    }
    None
}

#[tactic(auto, unfolding(cell_rules::specs::First::first_true, cell_rules::specs::First::any_still_there))]
#[inline(always)]
fn any_still_there<C: Reads>(cell: &C, machine: Machine) -> Option<Refusal>
    ensures { result ≡ first_true (any_still_there (C.situation cell.now) machine) }
{
    refused_by![
        still_there(cell, machine, Station::FeedIn),
        still_there(cell, machine, Station::FeedEnd),
        still_there(cell, machine, Station::Table),
        still_there(cell, machine, Station::Arm1),
        still_there(cell, machine, Station::Arm2),
        still_there(cell, machine, Station::Press1),
        still_there(cell, machine, Station::Press2),
        still_there(cell, machine, Station::DepIn),
        still_there(cell, machine, Station::DepEnd),
    ]
}

/// Why a plate isn't laid in, but for the journal's room.
#[tactic(auto, unfolding(cell_rules::specs::First::first_true))]
#[inline(always)]
pub fn admission_refusal<C: Reads>(cell: &C, limits: BookLimits, plate: PlateId) -> Option<Refusal>
    ensures { result ≡ first_true (kind_tests limits (C.situation cell.now) (Admitted plate)) }
{
    refused_by![
        plate_limit(cell, limits),
        machine_failed(cell, Machine::Feed),
        wrong_number(cell, plate),
        lamp_red(cell, Belt::Feed),
        plate_expected(cell),
    ]
}

#[tactic(auto, unfolding(cell_rules::specs::First::first_true))]
#[inline(always)]
fn expected_tests<C: Reads>(cell: &C, plate: PlateId) -> Option<Refusal>
    ensures { result ≡ first_true (expected_tests (C.situation cell.now) plate) }
{
    refused_by![
        not_waiting(cell, plate),
        lamp_already(cell, Belt::Feed, Colour::Green),
        plate_expected(cell),
        not_returnable(cell, plate),
    ]
}

#[tactic(auto, unfolding(cell_rules::specs::First::first_true))]
#[inline(always)]
fn reinstated_tests<C: Reads>(cell: &C, plate: PlateId) -> Option<Refusal>
    ensures { result ≡ first_true (reinstated_tests (C.situation cell.now) plate) }
{
    refused_by![
        machine_failed(cell, Machine::Feed),
        not_expected(cell, plate),
        lamp_red(cell, Belt::Feed),
    ]
}

#[tactic(auto, unfolding(cell_rules::specs::First::first_true))]
#[inline(always)]
fn gripped_tests<C: Reads>(cell: &C, arm: Arm, plate: PlateId, src: Station) -> Option<Refusal>
    ensures { result ≡ first_true (neighbour_tests (grips_at arm src)
        (handing_tests (C.situation cell.now) arm src src (station_of_arm arm) plate)) }
{
    if grips_at(arm, src) {
        handing_tests(cell, arm, src, src, station_of_arm(arm), plate)
    } else {
        Some(Refusal::NotNeighbour)
    }
}

#[tactic(auto, unfolding(cell_rules::specs::First::first_true))]
#[inline(always)]
fn dropped_tests<C: Reads>(cell: &C, arm: Arm, plate: PlateId, dest: Station) -> Option<Refusal>
    ensures { result ≡ first_true (neighbour_tests (drops_at arm dest)
        (handing_tests (C.situation cell.now) arm dest (station_of_arm arm) dest plate)) }
{
    if drops_at(arm, dest) {
        handing_tests(cell, arm, dest, station_of_arm(arm), dest, plate)
    } else {
        Some(Refusal::NotNeighbour)
    }
}

/// Why an entry isn't allowed now.
#[tactic(auto, unfolding(cell_rules::specs::First::first_true))]
#[inline(always)]
pub fn refusal<C: Reads>(cell: &C, limits: BookLimits, entry: Entry) -> Option<Refusal>
    ensures { result ≡ first limits (C.situation cell.now) entry }
{
    // Copied, since the prover doesn't take an entry that is passed on twice.
    let judged = entry;
    let (is_full, full) = journal_full(cell, limits, entry);
    if is_full {
        Some(full)
    } else {
        kind_tests(cell, limits, judged)
    }
}

/// Why a light isn't given a colour, but for the journal's room.
#[tactic(auto, unfolding(cell_rules::specs::First::first_true))]
#[inline(always)]
pub fn lamp_refusal<C: Reads>(cell: &C, belt: Belt, colour: Colour) -> Option<Refusal>
    ensures { result ≡ first_true (machine_failed (C.situation cell.now) (machine_of_belt belt)
        ∷ lamp_tests (C.situation cell.now) belt colour) }
{
    unless!(
        machine_failed(cell, machine_of_belt(belt)),
        lamp_tests(cell, belt, colour)
    )
}

/// Why a zone isn't claimed, but for the journal's room.
#[tactic(auto, unfolding(cell_rules::specs::First::first_true))]
#[inline(always)]
pub fn claim_refusal<C: Reads>(cell: &C, machine: Machine, zone: Zone) -> Option<Refusal>
    ensures { result ≡ first_true (machine_failed (C.situation cell.now) machine
        ∷ claimed_tests (C.situation cell.now) machine zone) }
{
    unless!(
        machine_failed(cell, machine),
        claimed_tests(cell, machine, zone)
    )
}

/// Why a zone isn't given up, but for the journal's room.
#[tactic(auto, unfolding(cell_rules::specs::First::first_true))]
#[inline(always)]
pub fn yield_refusal<C: Reads>(cell: &C, machine: Machine, zone: Zone) -> Option<Refusal>
    ensures { result ≡ first_true (machine_failed (C.situation cell.now) machine
        ∷ (parked_tests (C.situation cell.now) machine ++ not_holder (C.situation cell.now) machine zone ∷ [])) }
{
    unless!(
        machine_failed(cell, machine),
        yielded_tests(cell, machine, zone)
    )
}

/// Why a motion isn't started, but for the journal's room.
#[tactic(auto, unfolding(cell_rules::specs::First::first_true))]
#[inline(always)]
pub fn start_refusal<C: Reads>(cell: &C, axis: Axis, to: Pose) -> Option<Refusal>
    ensures { result ≡ first_true (machine_failed (C.situation cell.now) (machine_of_axis axis)
        ∷ started_tests (C.situation cell.now) axis to) }
{
    unless!(
        machine_failed(cell, machine_of_axis(axis)),
        started_tests(cell, axis, to)
    )
}

/// Why the end of a motion isn't told, but for the journal's room.
#[tactic(auto, unfolding(cell_rules::specs::First::first_true))]
#[inline(always)]
pub fn arrival_refusal<C: Reads>(cell: &C, axis: Axis, at: Pose) -> Option<Refusal>
    ensures { result ≡ first_true (machine_failed (C.situation cell.now) (machine_of_axis axis)
        ∷ no_arrival (C.situation cell.now) axis at ∷ []) }
{
    refused_by![
        machine_failed(cell, machine_of_axis(axis)),
        no_arrival(cell, axis, at),
    ]
}

/// Why a belt hasn't brought a plate to a station, but for the journal's room.
#[tactic(auto, unfolding(cell_rules::specs::First::first_true))]
#[inline(always)]
pub fn carriage_refusal<C: Reads>(
    cell: &C,
    axis: Axis,
    plate: PlateId,
    dest: Station,
) -> Option<Refusal>
    ensures { result ≡ first_true (machine_failed (C.situation cell.now) (machine_of_axis axis)
        ∷ conveyed_tests (C.situation cell.now) axis plate (motion_to axis dest)) }
{
    unless!(
        machine_failed(cell, machine_of_axis(axis)),
        conveyed_tests(cell, axis, plate, dest)
    )
}

/// Why a press hasn't forged a plate, but for the journal's room.
#[tactic(auto, unfolding(cell_rules::specs::First::first_true))]
#[inline(always)]
pub fn forging_refusal<C: Reads>(cell: &C, press: Machine, plate: PlateId) -> Option<Refusal>
    ensures { result ≡ first_true (machine_failed (C.situation cell.now) press
        ∷ forged_tests (C.situation cell.now) press plate) }
{
    unless!(
        machine_failed(cell, press),
        forged_tests(cell, press, plate)
    )
}

/// Why a plate isn't taken out, but for the journal's room.
#[tactic(auto, unfolding(cell_rules::specs::First::first_true))]
#[inline(always)]
pub fn delivery_refusal<C: Reads>(cell: &C, plate: PlateId) -> Option<Refusal>
    ensures { result ≡ first_true (machine_failed (C.situation cell.now) machines.Deposit
        ∷ other_plate_at (C.situation cell.now) stations.DepEnd plate
        ∷ lamp_red (C.situation cell.now) belts.Deposit ∷ []) }
{
    refused_by![
        machine_failed(cell, Machine::Deposit),
        other_plate_at(cell, Station::DepEnd, plate),
        lamp_red(cell, Belt::Deposit),
    ]
}

/// Why a machine isn't declared failed, but for the journal's room.
#[tactic(auto, unfolding(cell_rules::specs::First::first_true))]
#[inline(always)]
pub fn failure_refusal<C: Reads>(cell: &C, machine: Machine) -> Option<Refusal>
    ensures { result ≡ first_true (machine_failed (C.situation cell.now) machine ∷ []) }
{
    refused_by![machine_failed(cell, machine)]
}

/// The tests of an entry by its kind.
#[tactic(auto, unfolding(cell_rules::specs::First::first_true))]
#[inline(always)]
pub fn kind_tests<C: Reads>(cell: &C, limits: BookLimits, entry: Entry) -> Option<Refusal>
    ensures { result ≡ first_true (kind_tests limits (C.situation cell.now) entry) }
{
    match entry {
        Entry::Lamp { belt, colour } => lamp_refusal(cell, belt, colour),
        Entry::Admitted { plate } => admission_refusal(cell, limits, plate),
        Entry::Claimed { machine, zone } => claim_refusal(cell, machine, zone),
        Entry::Yielded { machine, zone } => yield_refusal(cell, machine, zone),
        Entry::Started { axis, to } => start_refusal(cell, axis, to),
        Entry::Arrived { axis, at } => arrival_refusal(cell, axis, at),
        Entry::Conveyed { axis, plate, dest } => carriage_refusal(cell, axis, plate, dest),
        Entry::Forged { press, plate } => forging_refusal(cell, press, plate),
        Entry::Gripped { arm, plate, src } => {
            unless!(
                machine_failed(cell, Machine::Robot),
                gripped_tests(cell, arm, plate, src)
            )
        }
        Entry::Dropped { arm, plate, dest } => {
            unless!(
                machine_failed(cell, Machine::Robot),
                dropped_tests(cell, arm, plate, dest)
            )
        }
        Entry::Delivered { plate } => delivery_refusal(cell, plate),
        Entry::Declared { machine, .. } => failure_refusal(cell, machine),
        Entry::StopAsked { machine } => refused_by![
            machine_failed(cell, machine),
            (cell.is_asked(machine), Refusal::AlreadyAsked(machine)),
        ],
        Entry::Quarantined { plate, src } => clearing_refusal(cell, plate, src),
        Entry::Repaired { machine } => repair_refusal(cell, machine),
        Entry::Expected { plate } => expected_tests(cell, plate),
        Entry::Reinstated { plate } => reinstated_tests(cell, plate),
    }
}

#[tactic(auto, using(crate::proofs::Appended::found_first, crate::proofs::Appended::found_later), unfolding(cell_rules::specs::First::first_true))]
#[inline(always)]
fn yielded_tests<C: Reads>(cell: &C, machine: Machine, zone: Zone) -> Option<Refusal>
    ensures { result ≡ first_true (parked_tests (C.situation cell.now) machine ++ not_holder (C.situation cell.now)
        machine zone ∷ []) }
{
    unless_refused!(
        parked_tests(cell, machine),
        refused_by![not_holder(cell, machine, zone)]
    )
}

/// Why a plate isn't cleared from a failed machine, but for the journal's room.
#[tactic(auto, using(crate::proofs::Appended::found_first, crate::proofs::Appended::found_later), unfolding(cell_rules::specs::First::first_true))]
#[inline(always)]
pub fn clearing_refusal<C: Reads>(cell: &C, plate: PlateId, src: Station) -> Option<Refusal>
    ensures { result ≡ first_true (quarantined_tests (C.situation cell.now) plate src) }
{
    let machine = machine_of_station(src);
    unless!(
        machine_healthy(cell, machine),
        unless_refused!(
            any_visited(cell, machine),
            refused_by![station_empty(cell, src), other_plate_at(cell, src, plate)]
        )
    )
}

/// Why a machine isn't booked repaired, but for the journal's room.
#[tactic(auto, using(crate::proofs::Appended::found_first, crate::proofs::Appended::found_later), unfolding(cell_rules::specs::First::first_true))]
#[inline(always)]
pub fn repair_refusal<C: Reads>(cell: &C, machine: Machine) -> Option<Refusal>
    ensures { result ≡ first_true (repaired_tests (C.situation cell.now) machine) }
{
    unless!(
        machine_healthy(cell, machine),
        unless_refused!(any_visited(cell, machine), any_still_there(cell, machine))
    )
}
