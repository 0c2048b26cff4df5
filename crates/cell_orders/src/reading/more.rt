//! Reading on in a text.
ghost use Rattle.std.specs.Prelude.{◌≡◌, ◌≤◌, ◌<◌, ◌+◌, length, true, false, IfOk, IsErr};
ghost use Rattle.std.specs.Io.{StartsWith};
ghost use Rattle.std.specs.Io.KnownBytes.{IsAtEnd, Keeps, prepend_known};

use std::io;
use std::io::{ErrorKind, Read};

/// How many bytes of a text are read before it is looked at, and how many behind the place where it is decided.
pub(crate) const PIECE: usize = 65536;

/// A text of which so many bytes are kept and that isn't decided yet is too large. A legal journal has fewer, but for
/// blank lines, whether its fields are quoted or not.
pub(crate) const MOST_KEPT: usize = 134_217_728;

// The most bytes of one read.
const SIZE: usize = 16384;

// One read, of so many bytes at most. It appends them to what was read of the text, and says how many came.
fn read_some<R: Read>(reader: &mut R, text: &mut Vec<u8>, most: usize) -> io::Result<usize>
    requires { 0 < most }
    ensures whole { Keeps (prepend_known text.old.items (R.remaining reader.old))
        (prepend_known text.new.items (R.remaining reader.new)) }
    ensures appends { StartsWith text.new.items text.old.items }
    ensures nothing { IsErr result → length text.new.items ≡ length text.old.items }
    ensures count { IfOk result (λ count. (length text.new.items ≡ length text.old.items + count) × (count ≤ most)) }
    ensures end { IfOk result (λ count. count ≡ 0 → IsAtEnd (R.remaining reader.new)) }
{
    let mut buffer = [0; SIZE];
    let len = most.min(SIZE);
    text.reserve(len)?;
    let count = reader.read(&mut buffer[..len])?;
    let Ok(()) = text.extend_from_slice(&buffer[..count]) else {
        unreachable!();
    };
    Ok(count)
}

/// Reads so many bytes of a text, or to its end, and says whether it ended. What was read is appended to what was read
/// before, also where an error comes later. A read that was interrupted is tried again.
pub(crate) fn read_on<R: Read>(reader: &mut R, text: &mut Vec<u8>, most: usize) -> io::Result<bool>
    // What was read, followed by what is left, is the same text.
    ensures whole { Keeps (prepend_known text.old.items (R.remaining reader.old))
        (prepend_known text.new.items (R.remaining reader.new)) }
    ensures appends { StartsWith text.new.items text.old.items }
    ensures ended { IfOk result (λ ended. ended ≡ true → IsAtEnd (R.remaining reader.new)
        × (length text.new.items < length text.old.items + most)) }
    ensures full { IfOk result (λ ended. ended ≡ false → length text.new.items ≡ length text.old.items + most) }
{
    let mut left = most;
    'reads: for _ in 0..u64::MAX {
        if left == 0 {
            return Ok(false);
        }
        match read_some(reader, text, left) {
            Ok(0) => return Ok(true),
            Ok(count) => left -= count,
            Err(e) if e.kind() == ErrorKind::Interrupted => {}
            Err(e) => return Err(e),
        }
    }
    Err(io::Error::from(ErrorKind::Interrupted))
}
