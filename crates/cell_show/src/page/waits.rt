//! What the machines wait for: a list for each state in the page's data, of which only what changes is told.
ghost use Rattle.std.specs.Prelude.{◌≡◌, ◌≤◌, ◌+◌, Err, OnOk, length, map, true};
ghost use Rattle.cell_waits.specs.Past.{entries_of, taken_of};
ghost use Rattle.cell_show.specs.Waits.{AreNext, IsNext, WritesNext, WritesWaits, next_cell, waits_after};

use crate::page::PageError;
use crate::page::refused::Reason;
use crate::page::rows::comma;
use cell_sentences::EntrySentence;
use cell_types::same::is_entry;
use cell_types::{MAX_ENTRIES, MAX_PLATES, Machine};
use cell_waits::{Past, Waiting, waits_for};
use line_writer::write_line;
use plate_book::{Book, BookLimits, Refusal};
use std::fmt;
use std::io::Write;

// The limits of an audit.
const LIMITS: BookLimits = BookLimits {
    entries: MAX_ENTRIES,
    plates: MAX_PLATES,
};

// What each machine waits for.
type Waits = [Option<Waiting>; 6];

// What a machine waits for, and whether it did so in the state before.
#[derive(Clone, Copy)]
struct Next {
    is_as_before: bool,
    waiting: Option<Waiting>,
}

impl fmt::Display for Next {
    ghost use Rattle.std.specs.Prelude.{Some};
    ghost use Rattle.cell_show.specs.Waits.{next_cell};

    ghost output = { λ next. Some (next_cell next) };

    fn fmt<W: fmt::Write>(&self, f: &mut fmt::Formatter<W>) -> fmt::Result {
        if self.is_as_before {
            return write!(f, "0");
        }
        match self.waiting {
            Some(Waiting { wanted, refusal }) => {
                write!(f, "[\"{}\",{}]", EntrySentence(wanted), Reason(refusal))
            }
            None => write!(f, "[]"),
        }
    }
}

// What all machines wait for.
#[derive(Clone, Copy)]
struct AllNext<'a>(&'a [Next]);

impl<'a> fmt::Display for AllNext<'a> {
    ghost use Rattle.std.specs.Prelude.{Some, map};
    ghost use Rattle.cell_show.specs.Waits.{next_cell};
    ghost use Rattle.cell_show.specs.Rows.{with_commas};

    ghost output = { λ all. Some (with_commas (map next_cell all.0.now)) };

    fn fmt<W: fmt::Write>(&self, f: &mut fmt::Formatter<W>) -> fmt::Result {
        for (place, next) in self.0.iter().enumerate() {
            write!(f, "{}{next}", comma(place))?;
        }
        Ok(())
    }
}

// Whether two refusals are the same. Of so many cases it isn't found that `==` says it.
fn is_refusal(some: Refusal, other: Refusal) -> bool
    ensures { result ≡ true → some ≡ other }
{
    match (some, other) {
        (Refusal::MachineFailed(some), Refusal::MachineFailed(other)) => some == other,
        (Refusal::MachineHealthy(some), Refusal::MachineHealthy(other)) => some == other,
        (Refusal::OwnerFailed(some), Refusal::OwnerFailed(other)) => some == other,
        (Refusal::AlreadyAsked(some), Refusal::AlreadyAsked(other)) => some == other,
        (Refusal::WrongPose(some), Refusal::WrongPose(other)) => some == other,
        (Refusal::ZoneTaken(some), Refusal::ZoneTaken(other)) => some == other,
        (Refusal::NotHolder(some), Refusal::NotHolder(other)) => some == other,
        (Refusal::StationEmpty(some), Refusal::StationEmpty(other)) => some == other,
        (Refusal::StationFull(some), Refusal::StationFull(other)) => some == other,
        (Refusal::PlateStillThere(some), Refusal::PlateStillThere(other)) => some == other,
        (Refusal::LampRed(some), Refusal::LampRed(other)) => some == other,
        (Refusal::LampAlready(some), Refusal::LampAlready(other)) => some == other,
        (Refusal::JournalFull, Refusal::JournalFull)
        | (Refusal::PlateLimit, Refusal::PlateLimit)
        | (Refusal::NotNeighbour, Refusal::NotNeighbour)
        | (Refusal::WrongPlate, Refusal::WrongPlate)
        | (Refusal::NoPress, Refusal::NoPress)
        | (Refusal::PlateExpected, Refusal::PlateExpected)
        | (Refusal::NotReturnable, Refusal::NotReturnable)
        | (Refusal::OutOfMemory, Refusal::OutOfMemory) => true,
        _ => false,
    }
}

// Whether two machines wait for the same.
fn is_same(some: &Waiting, other: &Waiting) -> bool
    ensures { result ≡ true → some.now ≡ other.now }
{
    is_entry(&some.wanted, &other.wanted) && is_refusal(some.refusal, other.refusal)
}

// Whether a machine waits as it did before.
fn is_as_before(before: &Option<Waiting>, now: &Option<Waiting>) -> bool
    ensures { result ≡ true → now.now ≡ before.now }
{
    match (before, now) {
        (Some(before), Some(now)) => is_same(now, before),
        (None, None) => true,
        _ => false,
    }
}

// What a machine waits for, and whether it did so before.
fn next_of(before: &Option<Waiting>, now: &Option<Waiting>) -> Next
    ensures { IsNext before.now now.now (next_cell result) }
{
    Next {
        is_as_before: is_as_before(before, now),
        waiting: *now,
    }
}

// The same of all machines.
fn all_next(before: &Waits, now: &Waits) -> [Next; 6]
    ensures { AreNext before.now now.now (map next_cell result) }
{
    [
        next_of(&before[0], &now[0]),
        next_of(&before[1], &now[1]),
        next_of(&before[2], &now[2]),
        next_of(&before[3], &now[3]),
        next_of(&before[4], &now[4]),
        next_of(&before[5], &now[5]),
    ]
}

// Writes the list of a state.
fn write_list<W: Write>(writer: &mut W, before: &Waits, now: &Waits) -> Result<(), PageError>
    ensures fault { result ≡ Err PageError.TooManyEntries → ⊥ }
    ensures list { OnOk result (WritesNext (W.contents writer.old) (W.contents writer.new) before.now now.now) }
{
    let next = all_next(before, now);
    write_line(writer, format_args!("[{}]", AllNext(&next)))?;
    Ok(())
}

// What all machines wait for after the first entries of a book.
fn waits_after(past: &Past) -> Waits
    ensures { result ≡ waits_after (entries_of past.now) (taken_of past.now) }
{
    past.is_told();
    [
        waits_for(past, LIMITS, Machine::Feed),
        waits_for(past, LIMITS, Machine::Table),
        waits_for(past, LIMITS, Machine::Robot),
        waits_for(past, LIMITS, Machine::Press1),
        waits_for(past, LIMITS, Machine::Press2),
        waits_for(past, LIMITS, Machine::Deposit),
    ]
}

/// Writes what the machines wait for in the state after a book's first entries, and after each of so many more.
pub(crate) fn write_waits<W: Write>(
    writer: &mut W,
    book: &Book,
    first: u32,
    more: u32,
) -> Result<(), PageError>
    requires { first + more ≤ length book.now.entries }
    ensures fault { result ≡ Err PageError.TooManyEntries → ⊥ }
    ensures waits { OnOk result (WritesWaits (W.contents writer.old) (W.contents writer.new) book.now.entries first
        more) }
{
    let mut past = Past::after(book, first);
    let mut waits = waits_after(&past);
    let nobody: Waits = [None; 6];
    writer.write_all(b"\"waits\":[\n")?;
    write_list(writer, &nobody, &waits)?;
    for _count in 0..more {
        past.step();
        let before = waits;
        waits = waits_after(&past);
        writer.write_all(b",\n")?;
        write_list(writer, &before, &waits)?;
    }
    writer.write_all(b"\n],\n")?;
    Ok(())
}
