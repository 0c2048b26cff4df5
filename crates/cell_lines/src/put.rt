//! Writing to the cell.
ghost use Rattle.std.specs.Prelude.{◌≡◌, IfSome, IsErr, OnOk};
ghost use Rattle.std.specs.Io.KnownBytes.{Appends};
ghost use Rattle.cell_output.specs.Watched.{WritesPart};
ghost use Rattle.cell_lines.specs.Stands.{WritesSome};
ghost use Rattle.cell_lines.specs.Written.{line_of};

use crate::written::Written;
use arrayvec::ArrayString;
use cell_output::{WriteFault, write_whole};
use std::fmt::Write as _;
use std::io::Write;

// The most bytes that are written at once: the lines that stop all machines have 99, and that which ends the run 8.
const LONGEST: usize = 128;

// The text of what is written, if there is room for it.
fn text_of(line: Written) -> Option<ArrayString<LONGEST>>
    ensures { IfSome result (λ text. text.bytes ≡ line_of line) }
{
    let mut text = ArrayString::<LONGEST>::new();
    match write!(text, "{line}") {
        Ok(()) => Some(text),
        Err(_) => None,
    }
}

// Writes a text.
fn put_text<W: Write>(writer: &mut W, text: &[u8]) -> Result<(), WriteFault>
    ensures whole { OnOk result (Appends (W.contents writer.old) (W.contents writer.new) text.now) }
    ensures part { IsErr result → WritesPart (W.contents writer.old) (W.contents writer.new) text.now }
{
    match write_whole(writer, text) {
        Ok(()) => Ok(()),
        Err(_) => Err(WriteFault),
    }
}

/// Writes what it says as its line.
pub(crate) fn put<W: Write>(writer: &mut W, line: Written) -> Result<(), WriteFault>
    ensures whole { OnOk result (Appends (W.contents writer.old) (W.contents writer.new) (line_of line)) }
    ensures part { IsErr result → WritesSome (line_of line) (W.contents writer.old) (W.contents writer.new) }
{
    match text_of(line) {
        Some(text) => put_text(writer, text.as_str().as_bytes()),
        None => Err(WriteFault),
    }
}
