//! A path as it is printed.
ghost use Rattle.std.specs.Prelude.{◌≡◌, ◌<◌, IsErr, OnOk, true};
ghost use Rattle.std.specs.Io.KnownBytes.{Appends};
ghost use Rattle.cell_output.specs.Watched.{IsSameWriter, WritesPart, bytes_held, has_refused};
ghost use Rattle.cell_settings.specs.Checked.{escaped, escaped_char, hex_digit, is_escaped};

use crate::key_path::KeyPath;
use cell_output::{WatchedWriter, WriteFault};
use std::io::Write;

const DIGITS: [u8; 16] = *b"0123456789ABCDEF";

// The digit of a number below 16.
fn digit(number: u32) -> u8
    requires { number < 16 }
    ensures { result ≡ hex_digit number }
{
    DIGITS[number as usize]
}

// Whether a character is printed as an escape: a control character, or one that parts lines or turns the direction of
// text.
fn is_escaped(c: char) -> bool
    ensures { result ≡ is_escaped c }
{
    let code = c as u32;
    c.is_control()
        || code == 0x061C
        || 0x200E <= code && code <= 0x200F
        || 0x2028 <= code && code <= 0x202E
        || 0x2066 <= code && code <= 0x2069
}

// Writes a character of a path.
fn write_char<W: Write>(writer: &mut WatchedWriter<'_, W>, c: char) -> Result<(), WriteFault>
    ensures writer { IsSameWriter writer.old writer.new }
    ensures whole { OnOk result (Appends (bytes_held W.contents writer.old) (bytes_held W.contents writer.new)
        (escaped_char c)) }
    ensures part { IsErr result → WritesPart (bytes_held W.contents writer.old) (bytes_held W.contents writer.new)
        (escaped_char c) }
    ensures fault { IsErr result → has_refused writer.new ≡ true }
    ensures same { OnOk result (has_refused writer.new ≡ has_refused writer.old) }
{
    if is_escaped(c) {
        let code = c as u32;
        writer.write_bytes(&[
            b'\\',
            b'u',
            digit(code / 4096 % 16),
            digit(code / 256 % 16),
            digit(code / 16 % 16),
            digit(code % 16),
        ])
    } else {
        let mut bytes = [0; 4];
        writer.write_bytes(c.encode_utf8(&mut bytes).as_bytes())
    }
}

/// Writes a path as it is printed: its control characters, and those that part lines or turn the direction of text, as
/// escapes of TOML by four upper-case hexadecimal digits, and all others as they stand. So a path has no line feed
/// where it is printed, and no order to a terminal.
pub fn write_escaped<W: Write>(
    writer: &mut WatchedWriter<'_, W>,
    path: &KeyPath,
) -> Result<(), WriteFault>
    ensures writer { IsSameWriter writer.old writer.new }
    ensures whole { OnOk result (Appends (bytes_held W.contents writer.old) (bytes_held W.contents writer.new)
        (escaped path.now)) }
    // After an error a first part of it was written, and not all.
    ensures part { IsErr result → WritesPart (bytes_held W.contents writer.old) (bytes_held W.contents writer.new)
        (escaped path.now) }
    // It fails where a write was refused, and only there.
    ensures fault { IsErr result → has_refused writer.new ≡ true }
    ensures same { OnOk result (has_refused writer.new ≡ has_refused writer.old) }
{
    for c in path.as_str().chars() {
        write_char(writer, c)?;
    }
    Ok(())
}
