//! What the presses do next.
ghost use Rattle.std.specs.Prelude.{ℕ, ◌≡◌};
ghost use Rattle.cell_machines.specs.Presses.{is_loaded, is_waiting, is_done, is_unloaded};
ghost use Rattle.cell_machines.specs.Candidates.{first_row, useful_rows};
ghost use Rattle.cell_types.specs.declared.words.Machine.TheVariants as machines;

use crate::rows::{claimed, first_of, rows_of, started, yielded};
use cell_reads::Reads;
use cell_rules::BookLimits;
use cell_types::{Axis, Entry, Machine, Pose, Station, Zone};

/// Whether a press is in the middle with a plate to forge.
fn is_loaded<C: Reads>(cell: &C, axis: Axis, station: Station) -> bool
    ensures { result ≡ is_loaded (C.situation cell.now) axis station }
{
    cell.rests_at(axis, Pose::Middle) && cell.is_occupied(station)
}

/// Whether a press is in the middle and empty.
pub fn is_waiting<C: Reads>(cell: &C, axis: Axis, station: Station) -> bool
    ensures { result ≡ is_waiting (C.situation cell.now) axis station }
{
    cell.rests_at(axis, Pose::Middle) && !cell.is_occupied(station)
}

/// Whether a press is at the bottom with a forged plate.
pub fn is_done<C: Reads>(cell: &C, axis: Axis, station: Station) -> bool
    ensures { result ≡ is_done (C.situation cell.now) axis station }
{
    cell.rests_at(axis, Pose::Bottom) && cell.is_occupied(station)
}

/// Whether a press is at the bottom and empty.
fn is_unloaded<C: Reads>(cell: &C, axis: Axis, station: Station) -> bool
    ensures { result ≡ is_unloaded (C.situation cell.now) axis station }
{
    cell.rests_at(axis, Pose::Bottom) && !cell.is_occupied(station)
}

// A press's table.
macro_rules! press_table {
    ($each:ident, $cell:expr, $limits:expr, $machine:expr, $axis:expr, $zone:expr, $station:expr) => {{
        let loaded = is_loaded($cell, $axis, $station);
        let unloaded = is_unloaded($cell, $axis, $station);
        let forged = $cell.rests_at($axis, Pose::Top);
        let ready = is_done($cell, $axis, $station) || is_waiting($cell, $axis, $station);
        $each! {
            yielded($cell, $limits, ready, $machine, $zone),
            started($cell, $limits, loaded, $axis, Pose::Top),
            started($cell, $limits, forged, $axis, Pose::Bottom),
            started($cell, $limits, unloaded, $axis, Pose::Middle),
            claimed($cell, $limits, loaded || unloaded, $machine, $zone),
        }
    }};
}

/// What Press1 may ever want, each entry with whether it is useful.
#[tactic(auto, unfolding(crate::specs::Candidates::useful_rows, crate::specs::Candidates::candidates, crate::specs::Useful::is_useful_now))]
#[inline(always)]
pub fn press1_rows<C: Reads>(cell: &C, limits: BookLimits) -> [(bool, Entry); 5]
    ensures { (plan : ℕ) → result ≡ useful_rows limits (C.situation cell.now) plan machines.Press1 }
{
    press_table!(
        rows_of,
        cell,
        limits,
        Machine::Press1,
        Axis::PressOne,
        Zone::Z3,
        Station::Press1
    )
}

/// What Press2 may ever want, each entry with whether it is useful.
#[tactic(auto, unfolding(crate::specs::Candidates::useful_rows, crate::specs::Candidates::candidates, crate::specs::Useful::is_useful_now))]
#[inline(always)]
pub fn press2_rows<C: Reads>(cell: &C, limits: BookLimits) -> [(bool, Entry); 5]
    ensures { (plan : ℕ) → result ≡ useful_rows limits (C.situation cell.now) plan machines.Press2 }
{
    press_table!(
        rows_of,
        cell,
        limits,
        Machine::Press2,
        Axis::PressTwo,
        Zone::Z4,
        Station::Press2
    )
}

/// The first of them that is useful.
#[tactic(auto, unfolding(crate::specs::Candidates::useful_rows, crate::specs::Candidates::candidates, crate::specs::Useful::is_useful_now, crate::specs::Candidates::first_row))]
#[inline(always)]
pub fn propose_press1<C: Reads>(cell: &C, limits: BookLimits) -> Option<Entry>
    ensures { (plan : ℕ) → result ≡ first_row (useful_rows limits (C.situation cell.now) plan machines.Press1) }
{
    press_table!(
        first_of,
        cell,
        limits,
        Machine::Press1,
        Axis::PressOne,
        Zone::Z3,
        Station::Press1
    )
}

/// The first of them that is useful.
#[tactic(auto, unfolding(crate::specs::Candidates::useful_rows, crate::specs::Candidates::candidates, crate::specs::Useful::is_useful_now, crate::specs::Candidates::first_row))]
#[inline(always)]
pub fn propose_press2<C: Reads>(cell: &C, limits: BookLimits) -> Option<Entry>
    ensures { (plan : ℕ) → result ≡ first_row (useful_rows limits (C.situation cell.now) plan machines.Press2) }
{
    press_table!(
        first_of,
        cell,
        limits,
        Machine::Press2,
        Axis::PressTwo,
        Zone::Z4,
        Station::Press2
    )
}
