//! The command that tells the entries of a journal with their times.
ghost use Rattle.std.specs.Prelude.{◌≡◌};
ghost use Rattle.cell_output.specs.Watched.{bytes_held};
ghost use Rattle.cell_orders.specs.Commands.{IfTold};
ghost use Rattle.cell_orders.specs.Listed.{ListsEntries, ListsIn, ListsJournal, ListsWords, form_asked};

use crate::error::CommandError;
use crate::mistaken::wrong;
use crate::texts::{book_in, told};
use crate::times::{durations_in, tell_times};
use cell_audit::write_answer;
use cell_command::Listing;
use cell_events::{EventForm, EventsError, write_events};
use cell_journal::Journal;
use cell_measures::Durations;
use cell_output::{WatchedWriter, WriteFault, status};
use std::alloc::{AllocError, Global};
use std::io::Write;
use std::rt::Files;

// What is told where several forms are asked for.
const ONE_FORM: &str = "of --csv, --trace and --vcd one alone can be given";

// The form that the flags ask for, if they ask for one alone; with no flag it is CSV.
fn form_asked(listing: &Listing<'_>) -> Option<EventForm>
    ensures { result ≡ form_asked listing.now.csv listing.now.trace listing.now.vcd }
{
    match (listing.csv, listing.trace, listing.vcd) {
        (_, false, false) => Some(EventForm::Csv),
        (false, true, false) => Some(EventForm::Trace),
        (false, false, true) => Some(EventForm::Vcd),
        _ => None,
    }
}

// Tells the entries of a journal in a form.
fn list_entries<'a, W: Write>(
    alloc: Global,
    output: &mut WatchedWriter<'_, W>,
    journal: &Journal,
    durations: &Durations,
    form: EventForm,
) -> Result<u8, CommandError<'a>>
    ensures { IfTold result (ListsEntries form durations.now journal.now.entries (bytes_held W.contents output.old)
        (bytes_held W.contents output.new)) }
{
    match write_events(alloc, journal, durations, form, output) {
        Ok(()) => Ok(status::SUCCESS),
        Err(EventsError::WriteFault) => Err(CommandError::Write(WriteFault)),
        Err(EventsError::OutOfMemory) => Err(CommandError::from(AllocError)),
    }
}

// Tells the entries of the journal in a file, or the line of the audit where it is refused. No text of it is kept.
fn list_journal<'a, R: AllocGlobal + Files, W: Write>(
    rt: &R,
    output: &mut WatchedWriter<'_, W>,
    path: &'a str,
    durations: &Durations,
    form: EventForm,
) -> Result<u8, CommandError<'a>>
    ensures { IfTold result (ListsJournal form durations.now (bytes_held W.contents output.old)
        (bytes_held W.contents output.new)) }
{
    let read = book_in(rt, path)?;
    match read.answer {
        Ok(_) => list_entries(rt.alloc(), output, read.book.journal(), durations, form),
        Err(why) => told(write_answer(output, Err(why))),
    }
}

// Tells the entries of the journal that the words of the command line name in a form, or why its durations are refused.
fn list_in<'a, R: AllocGlobal + Files, W: Write>(
    rt: &R,
    output: &mut WatchedWriter<'_, W>,
    listing: Listing<'a>,
    form: EventForm,
) -> Result<u8, CommandError<'a>>
    ensures { IfTold result (ListsIn form listing.entry (bytes_held W.contents output.old)
        (bytes_held W.contents output.new)) }
{
    match durations_in(rt, listing.times)? {
        Ok(durations) => list_journal(rt, output, listing.journal, &durations, form),
        Err(line) => told(tell_times(output, line.as_str())),
    }
}

/// Tells the entries of the journal that the words of the command line name, in the form that they ask for. All is read
/// before anything is written.
pub fn events_words<'a, R: AllocGlobal + Files, W: Write, E: Write>(
    rt: &R,
    output: &mut WatchedWriter<'_, W>,
    errors: &mut E,
    listing: Listing<'a>,
) -> Result<u8, CommandError<'a>>
    ensures { IfTold result (ListsWords listing.entry (bytes_held W.contents output.old)
        (bytes_held W.contents output.new) (E.contents errors.old) (E.contents errors.new)) }
{
    match form_asked(&listing) {
        Some(form) => list_in(rt, output, listing, form),
        None => Ok(wrong(errors, ONE_FORM)?),
    }
}
