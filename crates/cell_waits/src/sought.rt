//! The first of a machine's useful entries that is of some sort.
ghost use Rattle.std.specs.Prelude.{◌≡◌, ◌&&◌};
ghost use Rattle.std.specs.List.{find};
ghost use Rattle.cell_types.specs.declared.words.Arm.TheVariants as arms;
ghost use Rattle.cell_types.specs.declared.words.Machine.TheVariants as machines;
ghost use Rattle.cell_machines.specs.Robot.{handings};
ghost use Rattle.cell_waits.specs.Waits.{first_useful, has_load, is_claim, is_motion, is_sought, is_useful_and};
ghost use Rattle.cell_waits.specs.Rows.{first_sought, kept};

use cell_machines::{
    arms_in_rows, arms_out_rows, claim_rows, deposit_rows, drop_at, feed_rows, grip, press1_rows,
    press2_rows, table_rows, turn_rows, yield_rows,
};
use cell_reads::Reads;
use cell_rules::BookLimits;
use cell_types::{Arm, Axis, Entry, Machine, Pose, Station};

/// Which entries are looked for.
#[derive(Clone, Copy, Debug, PartialEq, Eq)]
pub enum Sought {
    /// All but those of lights.
    Any,
    /// Claims of zones that the machine doesn't hold.
    Claims,
    /// Motions, grips and drops.
    Motions,
}

fn is_claim<C: Reads>(cell: &C, entry: &Entry) -> bool
    ensures { result ≡ is_claim (C.situation cell.now) entry.now }
{
    match entry {
        Entry::Claimed { machine, zone } => !cell.is_held_by(*machine, *zone),
        _ => false,
    }
}

// Whether a motion of an axis has its plate: the feed belt moves only with one.
fn has_load<C: Reads>(cell: &C, axis: Axis, to: Pose) -> bool
    ensures { result ≡ has_load (C.situation cell.now) axis to }
{
    match (axis, to) {
        (Axis::FeedBelt, Pose::ToEnd) => cell.is_occupied(Station::FeedIn),
        (Axis::FeedBelt, Pose::ToTable) => cell.is_occupied(Station::FeedEnd),
        _ => true,
    }
}

fn is_motion<C: Reads>(cell: &C, entry: &Entry) -> bool
    ensures { result ≡ is_motion (C.situation cell.now) entry.now }
{
    match entry {
        Entry::Started { axis, to } => has_load(cell, *axis, *to),
        Entry::Gripped { .. } | Entry::Dropped { .. } => true,
        _ => false,
    }
}

fn is_sought<C: Reads>(cell: &C, sought: Sought, entry: &Entry) -> bool
    ensures { result ≡ is_sought (C.situation cell.now) sought entry.now }
{
    match sought {
        Sought::Any => !matches!(entry, Entry::Lamp { .. }),
        Sought::Claims => is_claim(cell, entry),
        Sought::Motions => is_motion(cell, entry),
    }
}

// Whether a row holds and its entry is sought.
fn is_found<C: Reads>(cell: &C, sought: Sought, row: &(bool, Entry)) -> bool
    ensures { result ≡ (row.now.0 && is_sought (C.situation cell.now) sought row.now.1) }
{
    row.0 && is_sought(cell, sought, &row.1)
}

// The entry of the first row that holds and is sought.
fn first_sought<C: Reads>(cell: &C, sought: Sought, rows: &[(bool, Entry)]) -> Option<Entry>
    ensures { result ≡ first_sought (C.situation cell.now) sought rows.now }
{
    for row in rows {
        if is_found(cell, sought, row) {
            return Some(row.1);
        }
    }
    None
}

// An entry, if it is sought.
fn kept<C: Reads>(cell: &C, sought: Sought, entry: Option<Entry>) -> Option<Entry>
    ensures { result ≡ kept (C.situation cell.now) sought entry }
{
    match entry {
        Some(found) => {
            if is_sought(cell, sought, &found) {
                Some(found)
            } else {
                None
            }
        }
        None => None,
    }
}

// The first grip or drop of arm 1.
fn handed_by_arm1<C: Reads>(cell: &C, limits: BookLimits, sought: Sought) -> Option<Entry>
    ensures { result ≡ find (is_useful_and limits (C.situation cell.now) machines.Robot sought)
        (handings (C.situation cell.now) arms.Arm1) }
{
    let from_table = grip(cell, limits, Arm::Arm1, Station::Table);
    let to_press1 = drop_at(cell, limits, Arm::Arm1, Station::Press1);
    let to_press2 = drop_at(cell, limits, Arm::Arm1, Station::Press2);
    let first = kept(cell, sought, from_table);
    let second = kept(cell, sought, to_press1);
    let third = kept(cell, sought, to_press2);
    first.or(second.or(third))
}

// The first grip or drop of arm 2.
fn handed_by_arm2<C: Reads>(cell: &C, limits: BookLimits, sought: Sought) -> Option<Entry>
    ensures { result ≡ find (is_useful_and limits (C.situation cell.now) machines.Robot sought)
        (handings (C.situation cell.now) arms.Arm2) }
{
    let from_press1 = grip(cell, limits, Arm::Arm2, Station::Press1);
    let from_press2 = grip(cell, limits, Arm::Arm2, Station::Press2);
    let to_belt = drop_at(cell, limits, Arm::Arm2, Station::DepIn);
    let first = kept(cell, sought, from_press1);
    let second = kept(cell, sought, from_press2);
    let third = kept(cell, sought, to_belt);
    first.or(second.or(third))
}

// The first entry of the robot's.
fn first_of_robot<C: Reads>(cell: &C, limits: BookLimits, sought: Sought) -> Option<Entry>
    ensures { result ≡ first_useful limits (C.situation cell.now) machines.Robot sought }
{
    let first = handed_by_arm1(cell, limits, sought);
    let second = handed_by_arm2(cell, limits, sought);
    let arm_in = first_sought(cell, sought, &arms_in_rows(cell, limits));
    let given = first_sought(cell, sought, &yield_rows(cell, limits));
    let arm_out = first_sought(cell, sought, &arms_out_rows(cell, limits));
    let turn = first_sought(cell, sought, &turn_rows(cell, limits));
    let claim = first_sought(cell, sought, &claim_rows(cell, limits));
    first.or(second.or(arm_in.or(given.or(arm_out.or(turn.or(claim))))))
}

/// The first entry of a machine's table that is useful by these limits and is sought. Lights never are, so that it
/// doesn't matter how many plates are to be admitted.
pub fn first_useful<C: Reads>(
    cell: &C,
    limits: BookLimits,
    machine: Machine,
    sought: Sought,
) -> Option<Entry>
    ensures { result ≡ first_useful limits (C.situation cell.now) machine sought }
{
    match machine {
        Machine::Feed => first_sought(cell, sought, &feed_rows(cell, limits, 0)),
        Machine::Table => first_sought(cell, sought, &table_rows(cell, limits)),
        Machine::Robot => first_of_robot(cell, limits, sought),
        Machine::Press1 => first_sought(cell, sought, &press1_rows(cell, limits)),
        Machine::Press2 => first_sought(cell, sought, &press2_rows(cell, limits)),
        Machine::Deposit => first_sought(cell, sought, &deposit_rows(cell, limits)),
    }
}
