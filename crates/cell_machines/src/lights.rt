//! The lights that the belts want.
ghost use Rattle.std.specs.Prelude.{◌≡◌};
ghost use Rattle.cell_machines.specs.Lights.{green_where, feed_light, deposit_light};

use crate::reads::is_at_rest;
use cell_reads::Reads;
use cell_types::{Axis, Colour, Machine, Station};

fn green_where(condition: bool) -> Colour
    ensures { result ≡ green_where condition }
{
    if condition {
        Colour::Green
    } else {
        Colour::Red
    }
}

/// The colour that the feed light is to have.
#[tactic(auto, unfolding(crate::specs::Lights::feed_light))]
pub fn feed_light<C: Reads>(cell: &C, plan: u32) -> Colour
    ensures { result ≡ feed_light (C.situation cell.now) plan }
{
    green_where(
        !cell.is_failed(Machine::Feed)
            && is_at_rest(cell, Axis::FeedBelt)
            && !cell.is_occupied(Station::FeedIn)
            && !cell.is_occupied(Station::FeedEnd)
            && (cell.admitted() < plan || cell.expected().is_some()),
    )
}

/// The colour that the deposit light is to have.
#[tactic(auto, unfolding(crate::specs::Lights::deposit_light))]
pub fn deposit_light<C: Reads>(cell: &C) -> Colour
    ensures { result ≡ deposit_light (C.situation cell.now) }
{
    green_where(
        !cell.is_failed(Machine::Deposit)
            && is_at_rest(cell, Axis::DepositBelt)
            && cell.is_occupied(Station::DepEnd),
    )
}
