//! Which states of a journal a page shows.
ghost use Rattle.std.specs.Prelude.{◌≡◌, ◌≤◌, Err, OnOk, length};
ghost use Rattle.std.specs.Io.KnownBytes.{Appends};
ghost use Rattle.cell_show.specs.Window.{answer_at, end_of, shown_of, shows_all, window_data, window_line};

use crate::page::PageError;
use cell_audit::AuditError;
use plate_book::Book;
use std::io::Write;

/// The most entries of a journal that a page shows.
pub const MAX_PAGE_ENTRIES: u32 = 20_000;

/// Which states of a journal a page shows: the one after `from` of its entries, and those after each of the next
/// `count` ones, or of as many as there are. Of a greater `count` it shows 20,000.
#[derive(Clone, Copy, Debug, PartialEq, Eq)]
pub struct Window {
    pub from: u32,
    pub count: u32,
}

impl Window {
    /// As much of a journal as a page shows, from the opening on.
    pub const FIRST: Window = Window {
        from: 0,
        count: MAX_PAGE_ENTRIES,
    };

    /// How many of so many entries it shows behind the first state.
    pub(crate) fn shown(self, entries: u32) -> u32
        requires { self.from ≤ entries }
        ensures { result ≡ shown_of self entries }
    {
        self.count.min(MAX_PAGE_ENTRIES).min(entries - self.from)
    }

    /// After how many of so many entries the last state is.
    pub(crate) fn end(self, entries: u32) -> u32
        requires { self.from ≤ entries }
        ensures { result ≡ end_of self entries }
    {
        self.from + self.shown(entries)
    }

    /// Whether it shows the states after all numbers of so many entries.
    fn shows_all(self, entries: u32) -> bool
        requires { self.from ≤ entries }
        ensures { result ≡ shows_all self entries }
    {
        self.from == 0 && self.end(entries) == entries
    }
}

/// An answer, where a page shows the last of the good entries.
pub(crate) fn answer_at(
    book: &Book,
    window: Window,
    answer: Option<AuditError>,
) -> Option<AuditError>
    requires { window.from ≤ length book.now.entries }
    ensures { result ≡ answer_at window (length book.now.entries) answer }
{
    let entries = book.journal().len();
    if window.end(entries) == entries {
        answer
    } else {
        None
    }
}

/// Writes the line that tells which states are shown, where they aren't all.
pub(crate) fn write_window<W: Write>(
    writer: &mut W,
    book: &Book,
    window: Window,
) -> Result<(), PageError>
    requires { window.from ≤ length book.now.entries }
    ensures fault { result ≡ Err PageError.TooManyEntries → ⊥ }
    ensures text { OnOk result (Appends (W.contents writer.old) (W.contents writer.new)
        (window_line window (length book.now.entries))) }
{
    let entries = book.journal().len();
    if window.shows_all(entries) {
        return Ok(());
    }
    let (from, until) = (window.from, window.end(entries));
    writeln!(
        writer,
        "<p class=\"shown\">This page shows the states after {from} to {until} entries of the journal, which has \
         {entries}. The options --from and --count choose others.</p>"
    )?;
    Ok(())
}

/// Writes after how many entries the first state is, and how many entries there are, as a line of the page's data.
pub(crate) fn write_numbers<W: Write>(
    writer: &mut W,
    book: &Book,
    window: Window,
) -> Result<(), PageError>
    ensures fault { result ≡ Err PageError.TooManyEntries → ⊥ }
    ensures text { OnOk result (Appends (W.contents writer.old) (W.contents writer.new)
        (window_data window (length book.now.entries))) }
{
    let first = window.from;
    let entries = book.journal().len();
    writeln!(writer, "\"first\":{first},\"entries\":{entries},")?;
    Ok(())
}
