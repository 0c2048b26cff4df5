//! The router and the lights, asked of a book, and the reads of a book that they share with the machine cores.
ghost use Rattle.std.specs.Prelude.{◌≡◌};
ghost use Rattle.cell_types.specs.After.{is_machine};
ghost use Rattle.cell_rules.specs.Views.{is_occupied};
ghost use Rattle.cell_rules.specs.Situations.{situation_of};
ghost use Rattle.cell_rules.specs.First.{rests_at};
ghost use Rattle.cell_machines.specs.Reads.{is_at_rest};
ghost use Rattle.cell_machines.specs.Router.{press_chosen, IsChoice};
ghost use Rattle.cell_machines.specs.Lights.{feed_light, deposit_light};

use crate::lights::{deposit_light, feed_light};
use crate::reads;
use crate::router::press_chosen;
use cell_reads::Reads;
use cell_types::{Axis, Colour, Machine, Pose, Station, Zone};
use plate_book::Book;

/// The press for the next plate, by this project's profile: of the presses that are healthy, empty, at rest in Middle
/// and don't hold their own zone, the one that forged fewer plates so far, Press1 at a tie; None where there is none.
pub fn choose_press(book: &Book) -> Option<Machine>
    ensures best { IsChoice (situation_of book.now.entries) result }
    ensures value { result ≡ press_chosen (situation_of book.now.entries) }
{
    press_chosen(book.registers())
}

/// The colour that the feed light is to have, by this project's profile: green, which lets a plate be laid in, exactly
/// where Feed is healthy, its belt is at rest, FeedIn and FeedEnd are empty, and fewer than `plan` plates were admitted
/// or a cleared plate is expected.
pub fn feed_light_wanted(book: &Book, plan: u32) -> Colour
    ensures { result ≡ feed_light (situation_of book.now.entries) plan }
{
    feed_light(book.registers(), plan)
}

/// The colour that the deposit light is to have, by this project's profile: green, which lets a plate be taken out,
/// exactly where Deposit is healthy, its belt is at rest and a plate is at DepEnd.
pub fn deposit_light_wanted(book: &Book) -> Colour
    ensures { result ≡ deposit_light (situation_of book.now.entries) }
{
    deposit_light(book.registers())
}

/// Whether an axis is at rest at this pose.
pub fn rests_at(book: &Book, axis: Axis, pose: Pose) -> bool
    ensures { result ≡ rests_at (situation_of book.now.entries) axis pose }
{
    book.registers().rests_at(axis, pose)
}

/// Whether an axis is at rest, at any pose.
pub fn is_at_rest(book: &Book, axis: Axis) -> bool
    ensures { result ≡ is_at_rest (situation_of book.now.entries) axis }
{
    reads::is_at_rest(book.registers(), axis)
}

/// Whether this machine holds a zone.
pub fn is_held_by(book: &Book, machine: Machine, zone: Zone) -> bool
    ensures { result ≡ is_machine machine ((situation_of book.now.entries).holder zone) }
{
    book.registers().is_held_by(machine, zone)
}

/// Whether a plate is at a station.
pub fn is_occupied(book: &Book, station: Station) -> bool
    ensures { result ≡ is_occupied book.now.entries station }
{
    book.registers().is_occupied(station)
}
