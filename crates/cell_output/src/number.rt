//! The line of a number.
ghost use Rattle.std.specs.Prelude.{◌≡◌, IsErr, OnOk, true};
ghost use Rattle.std.specs.Io.KnownBytes.{Appends};
ghost use Rattle.cell_output.specs.Numbers.{number_line};
ghost use Rattle.cell_output.specs.Watched.{IsSameWriter, WritesPart, bytes_held, has_refused};

use crate::watched::{WatchedWriter, WriteFault};
use itoa::Buffer;
use std::io::Write;

/// Writes a word, a blank, a number and a line feed.
pub fn write_number<W: Write>(
    writer: &mut WatchedWriter<'_, W>,
    word: &str,
    number: u32,
) -> Result<(), WriteFault>
    ensures writer { IsSameWriter writer.old writer.new }
    ensures whole { OnOk result (Appends (bytes_held W.contents writer.old) (bytes_held W.contents writer.new)
        (number_line word.now number)) }
    ensures part { IsErr result → WritesPart (bytes_held W.contents writer.old) (bytes_held W.contents writer.new)
        (number_line word.now number) }
    ensures fault { IsErr result → has_refused writer.new ≡ true }
{
    let mut digits = Buffer::new();
    writer.write_pieces(&[
        word.as_bytes(),
        b" ",
        digits.format(number).as_bytes(),
        b"\n",
    ])
}
