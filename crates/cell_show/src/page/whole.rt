//! Writing the page.
ghost use Rattle.std.specs.Prelude.{◌≡◌, ◌≢◌, ◌≤◌, Err, OnOk, length, take};
ghost use Rattle.std.specs.Io.KnownBytes.{Appends};
ghost use Rattle.cell_types.specs.After.{after};
ghost use Rattle.cell_journal.specs.Snapshots.{seen, state_of};
ghost use Rattle.cell_picture.specs.Told.{facts_told, last_of};
ghost use Rattle.cell_show.specs.Page.{AppendsSome, ShowsChart, WritesPage, WritesData, answer_line, chart_section};
ghost use Rattle.cell_show.specs.Page.{no_scripts_text, rows_text};
ghost use Rattle.cell_show.specs.Window.{end_of};

use crate::page::PageError;
use crate::page::parts::{
    CONTROL_SCRIPT, DRAWING, DRAWING_SCRIPT, FOLLOW_SCRIPT, HEAD, LISTS, MIDDLE, SPANS_SCRIPT,
};
use crate::page::refused::write_refused;
use crate::page::rows::Row;
use crate::page::still::write_still;
use crate::page::waits::write_waits;
use crate::page::window::{Window, answer_at, write_numbers, write_window};
use crate::page::words::write_words;
use cell_audit::AuditError;
use cell_journal::Snapshot;
use cell_picture::{AnswerLine, facts_left, step_on};
use cell_sentences::EntrySentence;
use cell_types::Entry;
use line_writer::write_line;
use plate_book::Book;
use std::fmt;
use std::io::Write;

// The last entry as it is told where no scripts run.
#[derive(Clone, Copy)]
struct LastText(Option<Entry>);

impl fmt::Display for LastText {
    ghost use Rattle.std.specs.Prelude.{Some};
    ghost use Rattle.cell_show.specs.Page.{last_text};

    ghost output = { λ last. Some (last_text last.0) };

    fn fmt<W: fmt::Write>(&self, f: &mut fmt::Formatter<W>) -> fmt::Result {
        match self.0 {
            Some(entry) => write!(f, "The last entry: {}", EntrySentence(entry)),
            None => write!(f, "Nothing is booked."),
        }
    }
}

// What the first `i` entries leave, and the last of them, where what they leave is at hand.
fn row_left(book: &Book, snapshot: &Snapshot, i: u32) -> Row
    requires within { i ≤ length book.now.entries }
    requires left { state_of snapshot.now ≡ seen (after (take i book.now.entries)) }
    ensures facts { result.facts ≡ facts_told (take i book.now.entries) }
    ensures last { result.last ≡ last_of (take i book.now.entries) }
{
    let (facts, last) = facts_left(book, snapshot, i);
    Row { facts, last }
}

// The same, where it isn't.
fn row_after(book: &Book, i: u32) -> Row
    requires { i ≤ length book.now.entries }
    ensures facts { result.facts ≡ facts_told (take i book.now.entries) }
    ensures last { result.last ≡ last_of (take i book.now.entries) }
{
    let (snapshot, _) = book.state_at(i);
    row_left(book, &snapshot, i)
}

// Writes the rows of the states that are shown.
fn write_rows<W: Write>(writer: &mut W, book: &Book, window: Window) -> Result<(), PageError>
    requires { window.from ≤ length book.now.entries }
    ensures fault { result ≡ Err PageError.TooManyEntries → ⊥ }
    ensures rows { OnOk result (Appends (W.contents writer.old) (W.contents writer.new)
        (rows_text window book.now.entries)) }
{
    let from = window.from;
    let until = window.end(book.journal().len());
    let (mut snapshot, _) = book.state_at(from);
    write_line(writer, row_left(book, &snapshot, from))?;
    for taken in from..until {
        step_on(book, &mut snapshot, taken);
        let row = row_left(book, &snapshot, taken + 1);
        write_line(writer, format_args!(",\n{row}"))?;
    }
    Ok(())
}

// Writes what is shown where no scripts run: that the page needs them, and the last entry that is shown.
fn write_for_no_scripts<W: Write>(
    writer: &mut W,
    book: &Book,
    window: Window,
) -> Result<(), PageError>
    requires { window.from ≤ length book.now.entries }
    ensures fault { result ≡ Err PageError.TooManyEntries → ⊥ }
    ensures text { OnOk result (Appends (W.contents writer.old) (W.contents writer.new)
        (no_scripts_text (take (end_of window (length book.now.entries)) book.now.entries))) }
{
    let entries = window.end(book.journal().len());
    let Row { last, .. } = row_after(book, entries);
    write!(
        writer,
        "<noscript><p class=\"answer\">This page needs scripts to show the states after {entries} entries. \
            {}</p></noscript>\n",
        LastText(last)
    )?;
    Ok(())
}

// Writes the line of an answer.
fn write_answer<W: Write>(writer: &mut W, answer: Option<AuditError>) -> Result<(), PageError>
    ensures fault { result ≡ Err PageError.TooManyEntries → ⊥ }
    ensures text { OnOk result (Appends (W.contents writer.old) (W.contents writer.new) (answer_line answer)) }
{
    if let Some(why) = answer {
        writeln!(writer, "<p class=\"answer\">{}</p>", AnswerLine(why))?;
    }
    Ok(())
}

// Writes the section of a chart. A chart that is wider than the page is moved within it, by keys too.
fn write_chart<W: Write>(writer: &mut W, chart: Option<&[u8]>) -> Result<(), PageError>
    ensures fault { result ≡ Err PageError.TooManyEntries → ⊥ }
    ensures text { OnOk result (Appends (W.contents writer.old) (W.contents writer.new) (chart_section chart.entry)) }
{
    if let Some(text) = chart {
        writer.write_all(
            b"<section class=\"chart\">\n<h2>The entries on an axis of time</h2>\n\
            <div tabindex=\"0\" style=\"overflow-x: auto\" onkeydown=\"event.stopPropagation()\">\n",
        )?;
        writer.write_all(text)?;
        writer.write_all(b"</div>\n</section>\n")?;
    }
    Ok(())
}

// Writes the rest of the page's script, from the first part on.
fn write_scripts<W: Write>(writer: &mut W) -> Result<(), PageError>
    ensures fault { result ≡ Err PageError.TooManyEntries → ⊥ }
    ensures some { OnOk result (AppendsSome (W.contents writer.old) (W.contents writer.new)) }
{
    writer.write_all(SPANS_SCRIPT.as_bytes())?;
    writer.write_all(FOLLOW_SCRIPT.as_bytes())?;
    writer.write_all(CONTROL_SCRIPT.as_bytes())?;
    Ok(())
}

// Writes the data of a page behind its words.
fn write_data<W: Write>(
    writer: &mut W,
    book: &Book,
    window: Window,
    answer: Option<AuditError>,
    refused: Option<Entry>,
) -> Result<(), PageError>
    requires { window.from ≤ length book.now.entries }
    ensures fault { result ≡ Err PageError.TooManyEntries → ⊥ }
    ensures text { OnOk result (WritesData (W.contents writer.old) (W.contents writer.new) window book.now.entries
        answer refused) }
{
    let more = window.shown(book.journal().len());
    write_numbers(writer, book, window)?;
    write_refused(writer, answer_at(book, window, answer), refused)?;
    write_waits(writer, book, window.from, more)?;
    writer.write_all(b"\"rows\":[\n")?;
    write_rows(writer, book, window)?;
    Ok(())
}

/// Writes one page with the states of a book's journal that a window names, with the line of an answer where its text
/// isn't legal, one that says which states are shown where not all are, and below the states with a chart, an SVG text,
/// where one is given. An answer that names a record gives a page that shows the last entry a last step, with the
/// refused entry where one is given and the part of the cell that the refusal names.
///
/// `WriteFault` is meant for a writer that failed; no clause says so. It takes no memory.
pub fn write_page<W: Write>(
    writer: &mut W,
    book: &Book,
    window: Window,
    answer: Option<AuditError>,
    refused: Option<Entry>,
    chart: Option<&[u8]>,
) -> Result<(), PageError>
    requires { window.from ≤ length book.now.entries }
    // No journal is too long.
    ensures fault { result ≢ Err PageError.TooManyEntries }
    // Its rows are those of the states after so many of the journal's entries as the window says, and after each number
    // of them from there on, in order, up to as many more, of which it shows at most 20,000. Its last step is the
    // answer's, where it shows the last entry.
    ensures page { OnOk result (WritesPage (W.contents writer.old) (W.contents writer.new) window book.now.entries
        answer refused chart.entry) }
    // The chart's text stands in the page as it was given.
    ensures chart { OnOk result (ShowsChart (W.contents writer.old) (W.contents writer.new) chart.entry) }
{
    writer.write_all(HEAD.as_bytes())?;
    write_for_no_scripts(writer, book, window)?;
    write_still(writer, book, window)?;
    writer.write_all(DRAWING.as_bytes())?;
    write_answer(writer, answer)?;
    write_window(writer, book, window)?;
    writer.write_all(LISTS.as_bytes())?;
    write_chart(writer, chart)?;
    writer.write_all(MIDDLE.as_bytes())?;
    write_words(writer)?;
    write_data(writer, book, window, answer, refused)?;
    writer.write_all(DRAWING_SCRIPT.as_bytes())?;
    write_scripts(writer)?;
    Ok(())
}
