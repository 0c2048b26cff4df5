//! What the table does next.
ghost use Rattle.std.specs.Prelude.{ℕ, ◌≡◌};
ghost use Rattle.cell_types.specs.declared.words.Machine.TheVariants as machines;
ghost use Rattle.cell_machines.specs.Table.{is_lift_at_target, is_turn_at_target, is_table_at_rest, is_at_target};
ghost use Rattle.cell_machines.specs.Table.{is_off_target};
ghost use Rattle.cell_machines.specs.Candidates.{first_row, useful_rows};

use crate::reads::is_at_rest;
use crate::rows::{claimed, first_of, rows_of, started, yielded};
use cell_reads::Reads;
use cell_rules::BookLimits;
use cell_types::{Axis, Entry, Machine, Pose, Station, Zone};

fn is_lift_at_target<C: Reads>(cell: &C) -> bool
    ensures { result ≡ is_lift_at_target (C.situation cell.now) }
{
    let target = if cell.is_occupied(Station::Table) {
        Pose::High
    } else {
        Pose::Low
    };
    cell.at(Axis::TableLift) == target
}

fn is_turn_at_target<C: Reads>(cell: &C) -> bool
    ensures { result ≡ is_turn_at_target (C.situation cell.now) }
{
    let target = if cell.is_occupied(Station::Table) {
        Pose::Robot
    } else {
        Pose::Belt
    };
    cell.at(Axis::TableTurn) == target
}

fn is_table_at_rest<C: Reads>(cell: &C) -> bool
    ensures { result ≡ is_table_at_rest (C.situation cell.now) }
{
    is_at_rest(cell, Axis::TableLift) && is_at_rest(cell, Axis::TableTurn)
}

fn is_at_target<C: Reads>(cell: &C) -> bool
    ensures { result ≡ is_at_target (C.situation cell.now) }
{
    is_table_at_rest(cell) && (is_lift_at_target(cell) && is_turn_at_target(cell))
}

fn is_off_target<C: Reads>(cell: &C) -> bool
    ensures { result ≡ is_off_target (C.situation cell.now) }
{
    is_table_at_rest(cell) && !(is_lift_at_target(cell) && is_turn_at_target(cell))
}

// What Table may ever want, each entry with whether it is useful. With a plate it rises before it turns, and without
// one it turns back before it sinks.
macro_rules! table_table {
    ($each:ident, $cell:expr, $limits:expr) => {{
        let there = is_at_target($cell);
        let away = is_off_target($cell);
        let to_robot = away && $cell.is_occupied(Station::Table);
        let to_belt = away && !$cell.is_occupied(Station::Table);
        $each! {
            yielded($cell, $limits, there, Machine::Table, Zone::Z1),
            yielded($cell, $limits, there, Machine::Table, Zone::Z2),
            started($cell, $limits, to_robot, Axis::TableLift, Pose::High),
            started($cell, $limits, to_robot, Axis::TableTurn, Pose::Robot),
            started($cell, $limits, to_belt, Axis::TableTurn, Pose::Belt),
            started($cell, $limits, to_belt, Axis::TableLift, Pose::Low),
            claimed($cell, $limits, away, Machine::Table, Zone::Z1),
            claimed($cell, $limits, away, Machine::Table, Zone::Z2),
        }
    }};
}

/// What Table may ever want, each entry with whether it is useful.
#[tactic(auto, unfolding(crate::specs::Candidates::useful_rows, crate::specs::Candidates::candidates, crate::specs::Useful::is_useful_now))]
#[inline(always)]
pub fn table_rows<C: Reads>(cell: &C, limits: BookLimits) -> [(bool, Entry); 8]
    ensures { (plan : ℕ) → result ≡ useful_rows limits (C.situation cell.now) plan machines.Table }
{
    table_table!(rows_of, cell, limits)
}

/// The first of them that is useful.
#[tactic(auto, unfolding(crate::specs::Candidates::useful_rows, crate::specs::Candidates::candidates, crate::specs::Useful::is_useful_now, crate::specs::Candidates::first_row))]
#[inline(always)]
pub fn propose_table<C: Reads>(cell: &C, limits: BookLimits) -> Option<Entry>
    ensures { (plan : ℕ) → result ≡ first_row (useful_rows limits (C.situation cell.now) plan machines.Table) }
{
    table_table!(first_of, cell, limits)
}
