//! Two pages side by side in one.
ghost use Rattle.std.specs.Prelude.{Err, ◌≡◌, OnOk};
ghost use Rattle.std.specs.Io.KnownBytes.{Appends};
ghost use Rattle.cell_show.specs.Beside.{WritesBeside, escaped, escaped_byte, name_byte, name_text};

use crate::page::PageError;
use crate::page::parts::{BESIDE_END, BESIDE_FRAME, BESIDE_HEAD, BESIDE_MIDDLE, BESIDE_OTHER};
use std::io::Write;

// Writes a byte as it stands within the quotes of an attribute.
fn write_byte<W: Write>(writer: &mut W, byte: u8) -> Result<(), PageError>
    ensures fault { result ≡ Err PageError.TooManyEntries → ⊥ }
    ensures text { OnOk result (Appends (W.contents writer.old) (W.contents writer.new) (escaped_byte byte)) }
{
    match byte {
        b'&' => writer.write_all(b"&amp;")?,
        b'"' => writer.write_all(b"&quot;")?,
        _ => writer.write_all(&[byte])?,
    }
    Ok(())
}

// Writes a text as it stands within the quotes of an attribute.
fn write_escaped<W: Write>(writer: &mut W, text: &[u8]) -> Result<(), PageError>
    ensures fault { result ≡ Err PageError.TooManyEntries → ⊥ }
    ensures text { OnOk result (Appends (W.contents writer.old) (W.contents writer.new) (escaped text.now)) }
{
    for byte in text {
        write_byte(writer, *byte)?;
    }
    Ok(())
}

// Writes a byte of a name.
fn write_name_byte<W: Write>(writer: &mut W, byte: u8) -> Result<(), PageError>
    ensures fault { result ≡ Err PageError.TooManyEntries → ⊥ }
    ensures text { OnOk result (Appends (W.contents writer.old) (W.contents writer.new) (name_byte byte)) }
{
    match byte {
        b'<' => {
            writer.write_all(b"&lt;")?;
            Ok(())
        }
        _ => write_byte(writer, byte),
    }
}

// Writes what a journal is called.
fn write_name<W: Write>(writer: &mut W, name: &[u8]) -> Result<(), PageError>
    ensures fault { result ≡ Err PageError.TooManyEntries → ⊥ }
    ensures text { OnOk result (Appends (W.contents writer.old) (W.contents writer.new) (name_text name.now)) }
{
    for byte in name {
        write_name_byte(writer, *byte)?;
    }
    Ok(())
}

/// Writes one page in which two pages stand side by side, each in a frame of its own below its journal's name, and by
/// whose controls both are stepped.
///
/// `WriteFault` is meant for a writer that failed; no clause says so. It takes no memory.
pub fn write_beside<W: Write>(
    writer: &mut W,
    first_name: &str,
    first: &[u8],
    second_name: &str,
    second: &[u8],
) -> Result<(), PageError>
    // The two pages stand in it one after the other, each behind its name, as they are within an attribute's quotes.
    ensures pages { OnOk result (WritesBeside (W.contents writer.old) (W.contents writer.new) first_name.now
        second_name.now first.now second.now) }
    ensures fault { result ≡ Err PageError.TooManyEntries → ⊥ }
{
    writer.write_all(BESIDE_HEAD.as_bytes())?;
    write_name(writer, first_name.as_bytes())?;
    writer.write_all(BESIDE_FRAME.as_bytes())?;
    write_escaped(writer, first)?;
    writer.write_all(BESIDE_MIDDLE.as_bytes())?;
    write_name(writer, second_name.as_bytes())?;
    writer.write_all(BESIDE_OTHER.as_bytes())?;
    write_escaped(writer, second)?;
    writer.write_all(BESIDE_END.as_bytes())?;
    Ok(())
}
