//! The text of settings.
ghost use Rattle.std.specs.Prelude.{◌≤◌, ◌<◌, length, IfOk, IfSome, IsNone};
ghost use Rattle.cell_orders.specs.Parts.{IsWhole};

use crate::reading::more::read_on;
use std::alloc::Global;
use std::io;
use std::io::Read;

// The most bytes that settings may have.
const MAX_SETTINGS: usize = 1_048_576;

/// Reads settings, of which there may be 1,048,576 bytes: their text, or `None` where it is longer. It reads one byte
/// more at most.
pub fn settings_text<R: Read + Drop>(alloc: Global, mut reader: R) -> io::Result<Option<Vec<u8>>>
    ensures whole { IfOk result (λ read. IfSome read (λ text. IsWhole (R.remaining reader) text.items)) }
    ensures short { IfOk result (λ read. IfSome read (λ text. length text.items ≤ 1048576)) }
    ensures long { IfOk result (λ read. IsNone read → IfSome (R.remaining reader) (λ text. 1048576 < length text)) }
{
    let mut text = Vec::new(alloc);
    if read_on(&mut reader, &mut text, MAX_SETTINGS + 1)? {
        Ok(Some(text))
    } else {
        Ok(None)
    }
}
