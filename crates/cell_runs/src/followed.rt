//! What is printed of a journal that was followed.
ghost use Rattle.std.specs.Prelude.{◌≡◌, List, IfOk, IsErr, Some, string_bytes, true};
ghost use Rattle.cell_types.specs.declared.words.Entry.{Entry as EntryValue};
ghost use Rattle.cell_audit.specs.Text.{text_of};
ghost use Rattle.cell_output.specs.Watched.{IsSameWriter, WritesPart, bytes_held, has_refused};
ghost use Rattle.cell_ports.specs.declared.plan.Plan.{Plan as PlanValue};
ghost use Rattle.operator_desk.specs.declared.line.Line.{Line};
ghost use Rattle.cell_runs.specs.Followed.{IsFollowed};
ghost use Rattle.cell_runs.specs.Runs.{counts_after, kept, limits_of};
ghost use Rattle.cell_runs.specs.Told.{PartOfFollowed, PrintsOrLacks, WritesFollowed, end_of, first_line};
ghost use Rattle.cell_runs.specs.Told.{followed_status};

use crate::follow::{Followed, Following};
use crate::report::write_counts;
use cell_audit::{WriteError, write_journal_watched};
use cell_journal::Journal;
use cell_output::{WatchedWriter, WriteFault, status};
use cell_types::{Entry, Totals, spell};
use cell_workers::End;
use std::alloc::{AllocError, Global};
use std::fmt;
use std::io::Write;

// An entry, as its line in a journal's text without the line feed.
#[derive(Clone, Copy)]
struct Spelled(Entry);

impl fmt::Display for Spelled {
    ghost use Rattle.std.specs.Prelude.{Some};
    ghost use Rattle.cell_runs.specs.Told.{entry_text};

    ghost output = { λ spelled. Some (entry_text spelled.0) };

    fn fmt<W: fmt::Write>(&self, f: &mut fmt::Formatter<W>) -> fmt::Result {
        let [kind, first, second, third] = spell(self.0);
        write!(f, "{kind},{first},{second},{third}")
    }
}

// The line of an entry in whose place another was booked, or none, without the line feed.
fn parted_line(
    alloc: Global,
    number: u32,
    wanted: Entry,
    booked: Option<Entry>,
) -> Result<String, AllocError>
    ensures { IfOk result (λ line. string_bytes line ≡ first_line (Followed.Parted number wanted booked)) }
{
    let wanted = Spelled(wanted);
    match booked {
        Some(booked) => {
            let booked = Spelled(booked);
            format!(in alloc; "entry {number}: {booked} in place of {wanted}")
        }
        None => format!(in alloc; "entry {number}: nothing in place of {wanted}"),
    }
}

// Writes how a journal was followed and what was counted, and gives the exit status.
fn write_lines<W: Write>(
    alloc: Global,
    followed: &Followed,
    totals: Totals,
    writer: &mut WatchedWriter<'_, W>,
) -> Result<u8, WriteFault>
    ensures writer { IsSameWriter writer.old writer.new }
    ensures whole { IfOk result (PrintsOrLacks (counts_after (first_line followed.now) totals)
        (followed_status followed.now) (bytes_held W.contents writer.old) (bytes_held W.contents writer.new)) }
    ensures part { IsErr result → WritesPart (bytes_held W.contents writer.old) (bytes_held W.contents writer.new)
        (counts_after (first_line followed.now) totals) }
    ensures fault { IsErr result → has_refused writer.new ≡ true }
{
    match *followed {
        Followed::Whole => {
            write_counts(writer, "followed", totals)?;
            Ok(status::SUCCESS)
        }
        Followed::Memory => {
            write_counts(writer, "memory", totals)?;
            Ok(status::OUT_OF_MEMORY)
        }
        Followed::Parted {
            number,
            wanted,
            booked,
        } => {
            let Ok(line) = parted_line(alloc, number, wanted, booked) else {
                return Ok(status::OUT_OF_MEMORY);
            };
            write_counts(writer, line.as_str(), totals)?;
            Ok(status::REFUSED)
        }
    }
}

// The exit status where a journal was followed so.
fn status_of(followed: &Followed) -> u8
    ensures { result ≡ followed_status followed.now }
{
    match followed {
        Followed::Whole => status::SUCCESS,
        Followed::Parted { .. } => status::REFUSED,
        Followed::Memory => status::OUT_OF_MEMORY,
    }
}

// Writes the text of what was booked, and gives the exit status.
fn write_booked<W: Write>(
    alloc: Global,
    followed: &Followed,
    journal: &Journal,
    writer: &mut WatchedWriter<'_, W>,
) -> Result<u8, WriteFault>
    ensures writer { IsSameWriter writer.old writer.new }
    ensures whole { IfOk result (PrintsOrLacks (text_of journal.now.entries) (followed_status followed.now)
        (bytes_held W.contents writer.old) (bytes_held W.contents writer.new)) }
    ensures part { IsErr result → WritesPart (bytes_held W.contents writer.old) (bytes_held W.contents writer.new)
        (text_of journal.now.entries) }
    ensures fault { IsErr result → has_refused writer.new ≡ true }
{
    match write_journal_watched(alloc, journal, writer) {
        Ok(()) => Ok(status_of(followed)),
        Err(WriteError::WriteFault) => Err(WriteFault),
        Err(WriteError::OutOfMemory) => Ok(status::OUT_OF_MEMORY),
    }
}

/// Writes how a journal was followed and what was counted, or with `alone` the text of what was booked alone, and gives
/// the exit status.
pub fn write_following<W: Write>(
    alloc: Global,
    following: &Following,
    alone: bool,
    writer: &mut WatchedWriter<'_, W>,
) -> Result<u8, WriteFault>
    ensures writer { IsSameWriter writer.old writer.new }
    ensures whole { IfOk result (λ status. (plan : PlanValue) (script : List Line) (journal : List EntryValue)
        → IsFollowed (limits_of plan) plan script journal following.now.book.entries following.now.followed
        → WritesFollowed alone plan script journal (bytes_held W.contents writer.old) (bytes_held W.contents writer.new)
        status (Some (kept following.now.book.entries (end_of following.now.followed) plan))) }
    ensures part { IsErr result → (plan : PlanValue) (script : List Line) (journal : List EntryValue)
        → IsFollowed (limits_of plan) plan script journal following.now.book.entries following.now.followed
        → PartOfFollowed alone plan script journal (bytes_held W.contents writer.old)
        (bytes_held W.contents writer.new) }
    ensures fault { IsErr result → has_refused writer.new ≡ true }
{
    let Following { book, followed } = following;
    if alone {
        write_booked(alloc, followed, book.journal(), writer)
    } else {
        write_lines(alloc, followed, book.totals(), writer)
    }
}

/// The end of the run that is kept where a journal was followed so: no limit ended it.
pub fn end_of(followed: &Followed) -> End
    ensures { result ≡ end_of followed.now }
{
    match followed {
        Followed::Whole | Followed::Parted { .. } => End::Stalled,
        Followed::Memory => End::Memory,
    }
}
