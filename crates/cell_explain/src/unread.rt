//! The line of a record that can't be read.
ghost use Rattle.std.specs.Prelude.{◌≡◌, IfOk, string_bytes};
ghost use Rattle.cell_explain.specs.Sayings.{record_line, shown_before};

use crate::places::Record;
use crate::shown::shown;
use crate::wanted::Trouble;
use std::alloc::{AllocError, Global};

// A record as it stands before why it can't be read: nothing where it hasn't four fields.
fn shown_before(alloc: Global, trouble: Trouble, record: &[u8]) -> Result<String, AllocError>
    ensures { IfOk result (λ text. string_bytes text ≡ shown_before trouble «record».now) }
{
    match trouble {
        Trouble::Count(_) => Ok(String::new(alloc)),
        _ => {
            let mut text = shown(alloc, record)?;
            text.push_str(": ")?;
            Ok(text)
        }
    }
}

/// The line of a record of this number that can't be read.
pub(crate) fn record_line(
    alloc: Global,
    record: Record<'_>,
    name: &str,
    number: u32,
    trouble: Trouble,
) -> Result<String, AllocError>
    ensures { IfOk result (λ text. string_bytes text ≡ record_line «record».entry.line name.now number
        «record».entry.bytes.now trouble) }
{
    let Record { line, bytes } = record;
    let shown = shown_before(alloc, trouble, bytes)?;
    format!(in alloc; "line {line}, {name} {number}: {shown}{trouble}\n")
}
