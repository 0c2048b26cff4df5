//! A record as it is shown.
ghost use Rattle.std.specs.Prelude.{◌≡◌, ◌<◌, IfOk, map, string_bytes};
ghost use Rattle.cell_explain.specs.Sayings.{shown, shown_byte};

use std::alloc::{AllocError, Global};

// How many bytes of a record are shown.
const MOST: usize = 80;

// A byte as it is shown.
fn shown_byte(byte: u8) -> u8
    ensures value { result ≡ shown_byte byte }
    ensures ascii { result < 128 }
{
    if 32 <= byte && byte <= 126 {
        byte
    } else {
        b'.'
    }
}

// Bytes as they are shown.
fn shown_bytes(alloc: Global, bytes: &[u8]) -> Result<String, AllocError>
    ensures { IfOk result (λ text. string_bytes text ≡ map shown_byte bytes.now) }
{
    let mut shown = String::new(alloc);
    for byte in bytes {
        shown.push(char::from(shown_byte(*byte)))?;
    }
    Ok(shown)
}

/// A record as it is shown: of a long one a first part and three dots. Bytes other than letters, digits, signs and
/// blanks of ASCII are shown as dots.
pub(crate) fn shown(alloc: Global, record: &[u8]) -> Result<String, AllocError>
    ensures { IfOk result (λ text. string_bytes text ≡ shown «record».now) }
{
    if record.len() <= MOST {
        return shown_bytes(alloc, record);
    }
    let mut text = shown_bytes(alloc, &record[..MOST])?;
    text.push_str("...")?;
    Ok(text)
}
