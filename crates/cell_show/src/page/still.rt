//! The picture of the last state that is shown, which stands where no scripts run.
ghost use Rattle.std.specs.Prelude.{◌≡◌, ◌≤◌, Err, OnOk, length};
ghost use Rattle.cell_show.specs.Page.{AppendsSome};

use crate::page::PageError;
use crate::page::window::Window;
use cell_drawing::draw_picture;
use cell_picture::{Scene, facts_after};
use plate_book::Book;
use std::io::Write;

// Bytes enough for a picture: those that were seen had at most 12,200.
const ROOM: usize = 16_384;

// Draws the last state that is shown of a book, and says how many bytes it took, if there was room for them.
fn draw_last(room: &mut [u8], book: &Book, window: Window) -> Option<usize>
    requires { window.from ≤ length book.now.entries }
{
    let entries = window.end(book.journal().len());
    let (facts, last) = facts_after(book, entries);
    let scene = Scene {
        facts: &facts,
        entries,
        last,
        answer: None,
    };
    let size = room.len();
    let mut rest = room;
    draw_picture(&mut rest, &scene).ok()?;
    Some(size.saturating_sub(rest.len()))
}

/// Writes the picture of the last state that is shown, to be seen where no scripts run. No memory is taken for it.
pub(crate) fn write_still<W: Write>(
    writer: &mut W,
    book: &Book,
    window: Window,
) -> Result<(), PageError>
    requires { window.from ≤ length book.now.entries }
    ensures fault { result ≡ Err PageError.TooManyEntries → ⊥ }
    ensures some { OnOk result (AppendsSome (W.contents writer.old) (W.contents writer.new)) }
{
    let mut room = [0u8; ROOM];
    let taken = draw_last(&mut room, book, window).unwrap_or(0);
    writer.write_all(b"<noscript><figure class=\"still\">\n")?;
    writer.write_all(room.get(..taken).unwrap_or(&[]))?;
    writer.write_all(b"</figure></noscript>\n")?;
    Ok(())
}
