//! Showing the cell as the first entries of a journal left it.
ghost use Rattle.std.specs.Prelude.{◌≡◌, ◌≢◌, ◌≤◌, ◌<◌, ℕ, IfErr, IfOk, IfSome, Ok, false, length, true};
ghost use Rattle.cell_rows.specs.Rows.{IsOpen, device_failed, rows_left};
ghost use Rattle.cell_audit.specs.Migrated.{rows_in};
ghost use Rattle.cell_show.specs.Shown.{TellsStatus, AsksPast, TellsEntries, HasBound, HasEntry, IsPage, IsBarred};
ghost use Rattle.cell_show.specs.Shown.{IsRefused, ShowsPage, ShowsSome, start_of};

use crate::ShowError;
use crate::chart::{ChartError, draw_chart, draw_window};
use crate::moving::write_moving;
use crate::page::{Window, write_page};
use cell_audit::{AuditError, entry_of, read_rows, status_of};
use cell_drawing::draw_picture;
use cell_measures::Durations;
use cell_output::{WatchedWriter, status};
use cell_picture::{Scene, draw_text, facts_after};
use cell_rows::{RowReader, TellsFault};
use cell_types::Entry;
use plate_book::Book;
use std::alloc::Global;
use std::io::Write;

/// How the cell is shown.
#[derive(Clone, Copy, Debug, PartialEq, Eq)]
pub enum Form {
    /// As lines of plain ASCII.
    Text,
    /// As lines of text with box-drawing characters.
    Unicode,
    /// As one picture file, in SVG.
    Picture,
    /// As one page with the states that the window names, in HTML.
    Page(Window),
    /// As one picture file with an axis of time, in SVG, in which motions take so long.
    Chart(Durations),
    /// As such a page, and in it the entries that it shows on an axis of time, in which motions take so long.
    TimedPage(Durations, Window),
    /// As one picture file in which the entries play, in SVG.
    Moving,
}

// Where the reading of a text stopped.
#[derive(Clone, Copy)]
struct Stop {
    // The audit's answer, unless it is that the text is legal.
    answer: Option<AuditError>,
    // The entry of the record that was read last, if it is one's.
    entry: Option<Entry>,
}

// Writes the chart of a book's first entries, and says whether there was memory for it.
fn draw_times<W: Write>(
    alloc: Global,
    writer: &mut W,
    durations: &Durations,
    book: &Book,
    entries: u32,
    answer: Option<AuditError>,
) -> Result<bool, ShowError>
    ensures entry { (n : ℕ) → result ≢ Err (ShowError.NoSuchEntry n) }
    ensures long { result ≡ Err ShowError.TooManyEntries → 20000 < length book.now.entries }
    ensures nothing { IfErr result (λ e. e ≢ ShowError.WriteFault → writer.new ≡ writer.old) }
    ensures memory { result ≡ Ok false → writer.new ≡ writer.old }
{
    match draw_chart(alloc, writer, book.journal(), entries, durations, answer) {
        Ok(()) => Ok(true),
        Err(ChartError::OutOfMemory) => Ok(false),
        Err(ChartError::TooManyEntries) => Err(ShowError::TooManyEntries),
        Err(ChartError::WriteFault) => Err(ShowError::WriteFault),
    }
}

// The chart of the entries that a page shows of a book, if there was memory for it.
fn chart_of(
    alloc: Global,
    durations: &Durations,
    window: Window,
    book: &Book,
    answer: Option<AuditError>,
) -> Option<Vec<u8>>
    requires { window.from ≤ length book.now.entries }
{
    let mut chart = Vec::new(alloc);
    // A chart that is written to memory fails only where that is wanting.
    match draw_window(alloc, &mut chart, book.journal(), window, durations, answer) {
        Ok(()) => Some(chart),
        Err(_) => None,
    }
}

// An entry, where there is one, if a book refuses it.
fn barred(book: &Book, stopped: Option<Entry>) -> Option<Entry>
    ensures { IsBarred book.now.entries result }
{
    let entry = stopped?;
    let shown = entry;
    match book.allows(entry) {
        Err(_) => Some(shown),
        Ok(()) => None,
    }
}

// The entry at which a text stopped, if the answer is that it is refused and its book refuses it.
fn refused_entry(book: &Book, stop: Stop) -> Option<Entry>
    ensures { IsRefused book.now.entries stop.answer result }
{
    match stop.answer {
        Some(AuditError::Refused(_, _)) => barred(book, stop.entry),
        Some(AuditError::Unreadable(_)) | Some(AuditError::ReadFault) => None,
        Some(AuditError::OutOfMemory) | None => None,
    }
}

// Writes the page of a book.
fn draw_page<W: Write>(
    writer: &mut W,
    window: Window,
    book: &Book,
    stop: Stop,
) -> Result<bool, ShowError>
    requires { window.from ≤ length book.now.entries }
    ensures fault { IfErr result (λ e. e ≡ ShowError.WriteFault) }
    ensures page { result ≡ Ok true → IsPage (Form.Page window) book.now.entries stop.answer (W.contents writer.old)
        (W.contents writer.new) }
    ensures memory { result ≢ Ok false }
{
    let answer = stop.answer;
    let refused = refused_entry(book, stop);
    write_page(writer, book, window, answer, refused, None)?;
    Ok(true)
}

// Writes the page of a book with the chart of its entries, and says whether there was memory for it.
fn draw_timed_page<W: Write>(
    alloc: Global,
    writer: &mut W,
    durations: Durations,
    window: Window,
    book: &Book,
    stop: Stop,
) -> Result<bool, ShowError>
    requires { window.from ≤ length book.now.entries }
    ensures fault { IfErr result (λ e. e ≡ ShowError.WriteFault) }
    ensures page { result ≡ Ok true → IsPage (Form.TimedPage durations window) book.now.entries stop.answer
        (W.contents writer.old) (W.contents writer.new) }
    ensures memory { result ≡ Ok false → writer.new ≡ writer.old }
{
    let answer = stop.answer;
    let Some(chart) = chart_of(alloc, &durations, window, book, answer) else {
        return Ok(false);
    };
    let refused = refused_entry(book, stop);
    write_page(
        writer,
        book,
        window,
        answer,
        refused,
        Some(chart.as_slice()),
    )?;
    Ok(true)
}

// Writes the first entries of a book as they play.
fn draw_entries<W: Write>(
    writer: &mut W,
    book: &Book,
    entries: u32,
    answer: Option<AuditError>,
) -> Result<bool, ShowError>
    ensures entry { (n : ℕ) → result ≢ Err (ShowError.NoSuchEntry n) }
    ensures long { result ≡ Err ShowError.TooManyEntries → 20000 < length book.now.entries }
    ensures nothing { IfErr result (λ e. e ≢ ShowError.WriteFault → writer.new ≡ writer.old) }
    ensures memory { result ≢ Ok false }
{
    write_moving(writer, book.journal(), entries, answer)?;
    Ok(true)
}

// After how many entries a page begins. Of another form nothing is asked.
fn start_of(form: &Form) -> u32
    ensures { result ≡ start_of form.now }
{
    match form {
        Form::Page(window) | Form::TimedPage(_, window) => window.from,
        _ => 0,
    }
}

// Writes what the first entries of a book left, and says whether there was memory for it.
fn draw<W: Write>(
    alloc: Global,
    writer: &mut W,
    form: Form,
    book: &Book,
    entries: u32,
    stop: Stop,
) -> Result<bool, ShowError>
    requires within { entries ≤ length book.now.entries }
    requires start { start_of form ≤ length book.now.entries }
    ensures entry { (n : ℕ) → result ≢ Err (ShowError.NoSuchEntry n) }
    ensures bound { result ≡ Err ShowError.TooManyEntries → HasBound form }
    ensures long { result ≡ Err ShowError.TooManyEntries → 20000 < length book.now.entries }
    ensures page { result ≡ Ok true → IsPage form book.now.entries stop.answer (W.contents writer.old)
        (W.contents writer.new) }
    ensures nothing { IfErr result (λ e. e ≢ ShowError.WriteFault → writer.new ≡ writer.old) }
    ensures memory { result ≡ Ok false → writer.new ≡ writer.old }
{
    let answer = stop.answer;
    let (facts, last) = facts_after(book, entries);
    let scene = Scene {
        facts: &facts,
        entries,
        last,
        answer,
    };
    match form {
        Form::Text => draw_text(&mut WatchedWriter::new(writer), &scene, false)?,
        Form::Unicode => draw_text(&mut WatchedWriter::new(writer), &scene, true)?,
        Form::Picture => draw_picture(writer, &scene)?,
        Form::Page(window) => return draw_page(writer, window, book, stop),
        Form::Chart(durations) => {
            return draw_times(alloc, writer, &durations, book, entries, answer);
        }
        Form::TimedPage(durations, window) => {
            return draw_timed_page(alloc, writer, durations, window, book, stop);
        }
        Form::Moving => return draw_entries(writer, book, entries, answer),
    }
    Ok(true)
}

/// Shows the cell as the first entries of the records that a reader has left it, as `show_journal` does those of a
/// text.
pub fn show_rows<R: TellsFault, W: Write>(
    alloc: Global,
    rows: &mut RowReader<R>,
    form: Form,
    entry: Option<u32>,
    writer: &mut W,
) -> Result<u8, ShowError>
    requires { IsOpen rows.old }
    ensures status { IfOk result (TellsStatus (rows_left R.remaining rows.old)) }
    ensures unread { IfOk result (λ status. 1 < status → writer.new ≡ writer.old) }
    ensures there { IfOk result (λ status. status ≤ 1
        → IfSome (rows_left R.remaining rows.old) (HasEntry entry (start_of form))) }
    ensures page { IfOk result (λ status. status ≤ 1
        → IfSome (rows_left R.remaining rows.old) (ShowsPage form (W.contents writer.old) (W.contents writer.new))) }
    ensures past { IfErr result (AsksPast entry (start_of form)) }
    ensures entries { IfErr result (λ why. IfSome (rows_left R.remaining rows.old) (TellsEntries why)) }
    ensures bound { result ≡ Err ShowError.TooManyEntries → HasBound form }
    ensures nothing { IfErr result (λ e. e ≢ ShowError.WriteFault → writer.new ≡ writer.old) }
    // Whatever the records are, some text is shown.
    ensures some { ShowsSome form entry (W.contents writer.old) (W.contents writer.new) result }
    // It gives the status of a reader that failed only where a failed read was noted.
    ensures fault { result ≡ Ok 3 → device_failed R.failed rows.new ≡ true }
{
    let Ok(reading) = read_rows(alloc, rows) else {
        return Ok(status::OUT_OF_MEMORY);
    };
    let status = status_of(&reading.answer);
    if status > status::REFUSED {
        return Ok(status);
    }
    let entries = reading.book.journal().len();
    let shown = entry.unwrap_or(entries);
    let needed = shown.max(start_of(&form));
    if needed > entries {
        return Err(ShowError::NoSuchEntry(entries));
    }
    let answer = reading.answer.err();
    let stop = Stop {
        answer,
        entry: entry_of(rows),
    };
    if draw(alloc, writer, form, &reading.book, shown, stop)? {
        Ok(status)
    } else {
        Ok(status::OUT_OF_MEMORY)
    }
}

/// Shows the cell as the first `entry` entries of the journal on the reader left it, or all of them where `entry` is
/// `None`, and gives the exit status. A page has the states that its window names; where the entries play those do.
///
/// A journal that is refused or can't be read is shown up to its last good entry, with the audit's line below, status
/// 1. Where the reader fails (status 3) or memory is refused (status 4) nothing is written; nor where the journal has
/// fewer entries than that, or than a page begins after, or too many for a chart or a picture in which they play. That
/// status 3 comes only where a failed read was noted is a clause of `show_rows`, of which this is the case of a new
/// reader of rows.
pub fn show_journal<R: TellsFault + Drop, W: Write>(
    alloc: Global,
    reader: R,
    form: Form,
    entry: Option<u32>,
    writer: &mut W,
) -> Result<u8, ShowError>
    // The status is that of the audit's answer.
    ensures status { IfOk result (TellsStatus (rows_in (R.remaining reader))) }
    ensures unread { IfOk result (λ status. 1 < status → writer.new ≡ writer.old) }
    // Where the cell is shown, the text has at least as many good entries as were asked for, or as a page begins after.
    ensures there { IfOk result (λ status. status ≤ 1
        → IfSome (rows_in (R.remaining reader)) (HasEntry entry (start_of form))) }
    // A page is that of the states of the text's good entries that its window names, and has a chart where it was asked
    // for.
    ensures page { IfOk result (λ status. status ≤ 1
        → IfSome (rows_in (R.remaining reader)) (ShowsPage form (W.contents writer.old) (W.contents writer.new))) }
    // Where there is no such entry, more were asked for than are told.
    ensures past { IfErr result (AsksPast entry (start_of form)) }
    // There are as many good entries as are told, or too many for a chart.
    ensures entries { IfErr result (λ why. IfSome (rows_in (R.remaining reader)) (TellsEntries why)) }
    // Only a chart or a picture in which entries play has too many entries, and never a page.
    ensures bound { result ≡ Err ShowError.TooManyEntries → HasBound form }
    ensures nothing { IfErr result (λ e. e ≢ ShowError.WriteFault → writer.new ≡ writer.old) }
    // Where the reader doesn't tell its bytes, all this is so of some text.
    ensures some { ShowsSome form entry (W.contents writer.old) (W.contents writer.new) result }
{
    let mut rows = RowReader::new(alloc, reader);
    show_rows(alloc, &mut rows, form, entry, writer)
}
