//! Lines that are written at once: each is put together before it is written.
#![tactic(auto)]

ghost use Rattle.std.specs.Prelude.{◌≡◌, IfSome, OnOk};
ghost use Rattle.std.specs.Io.KnownBytes.{Appends};

use arrayvec::ArrayString;
use std::fmt::Display;
use std::io::Write;
use std::{fmt, io};

/// The most bytes of a line that is written at once.
pub const ROOM: usize = 512;

// Puts a text in a room in place of what it has, if it fits.
fn put<D: Display + Drop>(room: &mut ArrayString<ROOM>, text: D) -> fmt::Result
    ensures { OnOk result (IfSome (D.output text) (λ bytes. room.new.bytes ≡ bytes)) }
{
    room.clear();
    fmt::Write::write(room, text)
}

/// Writes a text, and takes no memory for it: at once, where it has at most `ROOM` bytes, or else piece by piece, as
/// `write!` does.
///
/// The error is the writer's. What was written then isn't said.
pub fn write_line<W: Write, D: Display + Drop>(writer: &mut W, text: D) -> io::Result<()>
    ensures { OnOk result (IfSome (D.output text) (Appends (W.contents writer.old) (W.contents writer.new))) }
{
    let mut room = ArrayString::new();
    match put(&mut room, &text) {
        Ok(()) => writer.write_all(room.as_str().as_bytes()),
        Err(_) => write!(writer, "{text}"),
    }
}
