//! What the two belts do next.
ghost use Rattle.std.specs.Prelude.{ℕ, ◌≡◌};
ghost use Rattle.cell_types.specs.declared.words.Entry.TheVariants.{Started};
ghost use Rattle.cell_types.specs.declared.words.Axis.TheVariants as axes;
ghost use Rattle.cell_types.specs.declared.words.Pose.TheVariants as poses;
ghost use Rattle.cell_types.specs.declared.words.Machine.TheVariants as machines;
ghost use Rattle.cell_rules.specs.declared.limits.BookLimits.{BookLimits};
ghost use Rattle.cell_machines.specs.Room.{is_refused_otherwise};
ghost use Rattle.cell_machines.specs.Feed.{is_table_waiting};
ghost use Rattle.cell_machines.specs.Deposit.{is_to_convey};
ghost use Rattle.cell_machines.specs.Candidates.{first_row, useful_rows};

use crate::lights::{deposit_light, feed_light};
use crate::reads::is_at_rest;
use crate::rows::{claimed, first_of, lamp, rows_of, started, yielded};
use cell_reads::{Reads, start_refusal};
use cell_rules::BookLimits;
use cell_types::{Axis, Belt, Colour, Entry, Machine, Pose, Station, Zone};

fn is_table_waiting<C: Reads>(cell: &C) -> bool
    ensures { result ≡ is_table_waiting (C.situation cell.now) }
{
    is_at_rest(cell, Axis::FeedBelt)
        && cell.is_occupied(Station::FeedEnd)
        && cell.rests_at(Axis::TableLift, Pose::Low)
        && cell.rests_at(Axis::TableTurn, Pose::Belt)
        && !cell.is_occupied(Station::Table)
}

/// Whether something other than the journal's room keeps the feed belt from going to the table.
#[tactic(auto, using(crate::proofs::Shut::shut_law))]
#[inline(always)]
fn is_way_to_table_shut<C: Reads>(cell: &C) -> bool
    ensures { (limits : BookLimits) → result ≡ is_refused_otherwise limits (C.situation cell.now)
        (Started axes.FeedBelt poses.ToTable) }
{
    start_refusal(cell, Axis::FeedBelt, Pose::ToTable).is_some()
}

// What Feed may ever want, each entry with whether it is useful. It gives the table's zone up before it asks for
// another plate.
macro_rules! feed_table {
    ($each:ident, $cell:expr, $limits:expr, $plan:expr) => {{
        let light = feed_light($cell, $plan);
        $each! {
            yielded(
                $cell,
                $limits,
                is_way_to_table_shut($cell),
                Machine::Feed,
                Zone::Z1,
            ),
            started($cell, $limits, true, Axis::FeedBelt, Pose::ToTable),
            started($cell, $limits, true, Axis::FeedBelt, Pose::ToEnd),
            claimed(
                $cell,
                $limits,
                is_table_waiting($cell),
                Machine::Feed,
                Zone::Z1,
            ),
            lamp($cell, $limits, Colour::Red == light, Belt::Feed, Colour::Red),
            lamp(
                $cell,
                $limits,
                Colour::Green == light,
                Belt::Feed,
                Colour::Green,
            ),
        }
    }};
}

/// What Feed may ever want, each entry with whether it is useful.
#[tactic(auto, unfolding(crate::specs::Candidates::useful_rows, crate::specs::Candidates::candidates, crate::specs::Useful::is_useful_now))]
#[inline(always)]
pub fn feed_rows<C: Reads>(cell: &C, limits: BookLimits, plan: u32) -> [(bool, Entry); 6]
    ensures { result ≡ useful_rows limits (C.situation cell.now) plan machines.Feed }
{
    feed_table!(rows_of, cell, limits, plan)
}

/// The first of them that is useful.
#[tactic(auto, unfolding(crate::specs::Candidates::useful_rows, crate::specs::Candidates::candidates, crate::specs::Useful::is_useful_now, crate::specs::Candidates::first_row))]
#[inline(always)]
pub fn propose_feed<C: Reads>(cell: &C, limits: BookLimits, plan: u32) -> Option<Entry>
    ensures { result ≡ first_row (useful_rows limits (C.situation cell.now) plan machines.Feed) }
{
    feed_table!(first_of, cell, limits, plan)
}

fn is_to_convey<C: Reads>(cell: &C) -> bool
    ensures { result ≡ is_to_convey (C.situation cell.now) }
{
    is_at_rest(cell, Axis::DepositBelt)
        && cell.is_occupied(Station::DepIn)
        && !cell.is_occupied(Station::DepEnd)
}

// What Deposit may ever want, each entry with whether it is useful. It gives its zone up to the robot before it asks
// for its plate to be taken.
macro_rules! deposit_table {
    ($each:ident, $cell:expr, $limits:expr) => {{
        let light = deposit_light($cell);
        let convey = is_to_convey($cell);
        $each! {
            yielded($cell, $limits, !convey, Machine::Deposit, Zone::Z5),
            started($cell, $limits, convey, Axis::DepositBelt, Pose::ToEnd),
            claimed($cell, $limits, convey, Machine::Deposit, Zone::Z5),
            lamp(
                $cell,
                $limits,
                Colour::Red == light,
                Belt::Deposit,
                Colour::Red,
            ),
            lamp(
                $cell,
                $limits,
                Colour::Green == light,
                Belt::Deposit,
                Colour::Green,
            ),
        }
    }};
}

/// What Deposit may ever want, each entry with whether it is useful.
#[tactic(auto, unfolding(crate::specs::Candidates::useful_rows, crate::specs::Candidates::candidates, crate::specs::Useful::is_useful_now))]
#[inline(always)]
pub fn deposit_rows<C: Reads>(cell: &C, limits: BookLimits) -> [(bool, Entry); 5]
    ensures { (plan : ℕ) → result ≡ useful_rows limits (C.situation cell.now) plan machines.Deposit }
{
    deposit_table!(rows_of, cell, limits)
}

/// The first of them that is useful.
#[tactic(auto, unfolding(crate::specs::Candidates::useful_rows, crate::specs::Candidates::candidates, crate::specs::Useful::is_useful_now, crate::specs::Candidates::first_row))]
#[inline(always)]
pub fn propose_deposit<C: Reads>(cell: &C, limits: BookLimits) -> Option<Entry>
    ensures { (plan : ℕ) → result ≡ first_row (useful_rows limits (C.situation cell.now) plan machines.Deposit) }
{
    deposit_table!(first_of, cell, limits)
}
