//! A journal whose entries play, as one SVG file.
ghost use Rattle.std.specs.Prelude.{◌≡◌, ◌<◌, ◌↔◌, Err, length};

use crate::page::{MAX_PAGE_ENTRIES, PageError};
use cell_audit::AuditError;
use cell_drawing::draw_moving;
use cell_journal::Journal;
use std::io::Write;

/// Writes the first `entries` entries of a journal as one SVG file in which they play in a loop, as `draw_moving` of
/// cell_drawing draws them, with the line of an answer where the journal's text isn't legal.
///
/// `TooManyEntries` comes where the journal has more than 20,000 entries, and then nothing was written.
/// `WriteFault` is meant for a writer that failed; no clause says so. It takes no memory.
pub fn write_moving<W: Write>(
    writer: &mut W,
    journal: &Journal,
    entries: u32,
    answer: Option<AuditError>,
) -> Result<(), PageError>
    ensures long { (result ≡ Err PageError.TooManyEntries) ↔ (20000 < length journal.now.entries) }
    ensures nothing { result ≡ Err PageError.TooManyEntries → writer.new ≡ writer.old }
{
    if journal.len() > MAX_PAGE_ENTRIES {
        return Err(PageError::TooManyEntries);
    }
    match draw_moving(writer, journal, entries, answer) {
        Ok(()) => Ok(()),
        Err(_) => Err(PageError::WriteFault),
    }
}
