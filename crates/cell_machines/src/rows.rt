//! Rows of a machine's table: each an entry with whether it is wanted and bookable.
ghost use Rattle.std.specs.Prelude.{◌≡◌, ◌&&◌, nat_le};
ghost use Rattle.cell_machines.specs.Room.{is_bookable, is_none_or_full};
ghost use Rattle.cell_types.specs.declared.words.Entry.TheVariants.{Lamp, Claimed, Yielded, Started};
ghost use Rattle.cell_machines.specs.Candidates.{first_row};

use cell_reads::{Reads, claim_refusal, lamp_refusal, refusal, start_refusal, yield_refusal};
use cell_rules::{BookLimits, Refusal};
use cell_types::{Axis, Belt, Colour, Entry, Machine, Pose, Zone};

/// Whether an entry is allowed, or only the journal's room is lacking.
#[tactic(auto, unfolding(crate::specs::Room::is_bookable))]
#[inline(always)]
pub fn is_bookable<C: Reads>(cell: &C, limits: BookLimits, entry: Entry) -> bool
    ensures { result ≡ is_bookable limits (C.situation cell.now) entry }
{
    match refusal(cell, limits, entry) {
        None => true,
        Some(Refusal::JournalFull) => true,
        Some(_) => false,
    }
}

/// An entry, with whether it is wanted and bookable.
#[inline(always)]
pub fn row<C: Reads>(cell: &C, limits: BookLimits, wanted: bool, entry: Entry) -> (bool, Entry)
    ensures { result ≡ (wanted && is_bookable limits (C.situation cell.now) entry, entry) }
{
    let kept = entry;
    (wanted && is_bookable(cell, limits, entry), kept)
}

/// Whether the journal has no room for an entry, a Declared apart.
#[inline(always)]
fn is_full<C: Reads>(cell: &C, limits: BookLimits) -> bool
    ensures { result ≡ nat_le limits.entries (C.situation cell.now).entries }
{
    limits.entries <= cell.entries()
}

/// Whether there is no refusal, or only the journal's room is lacking.
#[inline(always)]
fn is_none_or_full(refusal: &Option<Refusal>) -> bool
    ensures { result ≡ is_none_or_full refusal.now }
{
    matches!(refusal, None | Some(Refusal::JournalFull))
}

/// The same of an entry by its kind, so that its tests alone are asked.
#[tactic(auto, unfolding(crate::specs::Room::is_bookable, cell_rules::specs::First::first_true))]
#[inline(always)]
pub fn lamp<C: Reads>(
    cell: &C,
    limits: BookLimits,
    wanted: bool,
    belt: Belt,
    colour: Colour,
) -> (bool, Entry)
    ensures { result ≡ (wanted && is_bookable limits (C.situation cell.now) (Lamp belt colour), Lamp belt colour) }
{
    let may = wanted
        && (is_full(cell, limits) || is_none_or_full(&lamp_refusal(cell, belt, colour)));
    (may, Entry::Lamp { belt, colour })
}

/// The same of an entry by its kind, so that its tests alone are asked.
#[tactic(auto, unfolding(crate::specs::Room::is_bookable, cell_rules::specs::First::first_true))]
#[inline(always)]
pub fn claimed<C: Reads>(
    cell: &C,
    limits: BookLimits,
    wanted: bool,
    machine: Machine,
    zone: Zone,
) -> (bool, Entry)
    ensures { result ≡ (
      wanted && is_bookable limits (C.situation cell.now) (Claimed machine zone),
      Claimed machine zone,
    ) }
{
    let may = wanted
        && (is_full(cell, limits) || is_none_or_full(&claim_refusal(cell, machine, zone)));
    (may, Entry::Claimed { machine, zone })
}

/// The same of an entry by its kind, so that its tests alone are asked.
#[tactic(auto, unfolding(crate::specs::Room::is_bookable, cell_rules::specs::First::first_true))]
#[inline(always)]
pub fn yielded<C: Reads>(
    cell: &C,
    limits: BookLimits,
    wanted: bool,
    machine: Machine,
    zone: Zone,
) -> (bool, Entry)
    ensures { result ≡ (
      wanted && is_bookable limits (C.situation cell.now) (Yielded machine zone),
      Yielded machine zone,
    ) }
{
    let may = wanted
        && (is_full(cell, limits) || is_none_or_full(&yield_refusal(cell, machine, zone)));
    (may, Entry::Yielded { machine, zone })
}

/// The same of an entry by its kind, so that its tests alone are asked.
#[tactic(auto, unfolding(crate::specs::Room::is_bookable, cell_rules::specs::First::first_true))]
#[inline(always)]
pub fn started<C: Reads>(
    cell: &C,
    limits: BookLimits,
    wanted: bool,
    axis: Axis,
    to: Pose,
) -> (bool, Entry)
    ensures { result ≡ (wanted && is_bookable limits (C.situation cell.now) (Started axis to), Started axis to) }
{
    let may = wanted && (is_full(cell, limits) || is_none_or_full(&start_refusal(cell, axis, to)));
    (may, Entry::Started { axis, to })
}

/// The entry of the first row that holds.
#[tactic(auto, unfolding(crate::specs::Candidates::first_row))]
#[inline(always)]
pub fn first_row(rows: &[(bool, Entry)]) -> Option<Entry>
    ensures { result ≡ first_row rows.now }
{
    for row in rows {
        if row.0 {
            return Some(row.1);
        }
    }
    None
}

/// All rows of a table.
macro_rules! rows_of {
    ($($row:expr),+ $(,)?) => {
        [$($row),+]
    };
}

/// Answers the entry of the first row that holds, or None. A row is worked out only if none before it holds.
macro_rules! first_of {
    ($($row:expr),+ $(,)?) => {{
        $(
            let row = $row;
            if row.0 {
                return Some(row.1);
            }
        )+
        None
    }};
}

pub(crate) use first_of;
pub(crate) use rows_of;
