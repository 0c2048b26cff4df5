//! Writing the events of a journal.
ghost use Rattle.std.specs.Prelude.{◌≡◌, IfErr, IsErrOf, OnOk, true};
ghost use Rattle.std.specs.Io.KnownBytes.{Appends};
ghost use Rattle.cell_output.specs.Watched.{IsSameWriter, WritesPart, bytes_held, has_refused};
ghost use Rattle.cell_events.specs.Rows.{csv_text};

use crate::event::Event;
use crate::events::events_of;
use crate::rows::write_rows;
use crate::teller::write_told;
use crate::trace::Trace;
use crate::vcd::Dump;
use cell_journal::Journal;
use cell_measures::Durations;
use cell_output::{WatchedWriter, WriteFault};
use std::alloc::{AllocError, Global};
use std::io::Write;

/// The form in which events are written.
#[derive(Clone, Copy, Debug, PartialEq, Eq)]
pub enum EventForm {
    /// Comma-separated values: a line with the names of the columns, and a row for each entry.
    Csv,
    /// Chrome's trace event format, in JSON.
    Trace,
    /// A value change dump.
    Vcd,
}

/// Why the events of a journal weren't written whole.
#[derive(Clone, Copy, Debug, PartialEq, Eq)]
pub enum EventsError {
    /// The writer failed.
    WriteFault,
    /// Memory was refused.
    OutOfMemory,
}

impl From<WriteFault> for EventsError {
    ghost use Rattle.std.specs.Prelude.{◌≡◌};
    ghost use Rattle.cell_events.specs.declared.write.EventsError.TheVariants as error;

    ghost from_gives = { λ _ e. e ≡ error.WriteFault };

    fn from(_fault: WriteFault) -> EventsError {
        EventsError::WriteFault
    }
}

impl From<AllocError> for EventsError {
    ghost use Rattle.std.specs.Prelude.{◌≡◌};
    ghost use Rattle.cell_events.specs.declared.write.EventsError.TheVariants.{OutOfMemory};

    ghost from_gives = { λ _ error. error ≡ OutOfMemory };

    fn from(_error: AllocError) -> EventsError {
        EventsError::OutOfMemory
    }
}

// Events in the order of their ends; those that end together stay in their order.
fn in_time(mut events: Vec<Event>) -> Result<Vec<Event>, AllocError> {
    events.sort_by_key(|event| event.end)?;
    Ok(events)
}

/// Writes the events of a journal in a form.
///
/// In CSV a line feed ends each line, no field has quotes, and where there is nothing to tell a field is blank. After
/// an error a first part of the text was written, and not all of it.
pub fn write_events<W: Write>(
    alloc: Global,
    journal: &Journal,
    durations: &Durations,
    form: EventForm,
    output: &mut WatchedWriter<'_, W>,
) -> Result<(), EventsError>
    ensures writer { IsSameWriter output.old output.new }
    ensures csv { form ≡ EventForm.Csv → OnOk result (Appends (bytes_held W.contents output.old)
        (bytes_held W.contents output.new) (csv_text durations.now journal.now.entries)) }
    // After either error a first part of the text was written, which isn't the whole.
    ensures part { form ≡ EventForm.Csv → IfErr result (λ _. WritesPart (bytes_held W.contents output.old)
        (bytes_held W.contents output.new) (csv_text durations.now journal.now.entries)) }
    // It answers that the writer failed only where a write was refused.
    ensures fault { IsErrOf result EventsError.WriteFault → has_refused output.new ≡ true }
{
    let events = events_of(alloc, journal, durations)?;
    match form {
        EventForm::Csv => write_rows(alloc, events.as_slice(), output),
        EventForm::Trace => {
            let events = in_time(events)?;
            write_told(alloc, &mut Trace::new(), events.as_slice(), output)
        }
        EventForm::Vcd => {
            let events = in_time(events)?;
            write_told(alloc, &mut Dump::new(), events.as_slice(), output)
        }
    }
}
