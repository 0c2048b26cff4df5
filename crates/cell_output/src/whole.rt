//! Bytes that are written to any writer, by as many writes as it takes.
ghost use Rattle.std.specs.Prelude.{◌≤◌, length, take, IfOk, IsErr, OnOk};
ghost use Rattle.std.specs.Io.KnownBytes.{Appends, Keeps};
ghost use Rattle.cell_output.specs.Watched.{WritesPart};

use std::io;
use std::io::{ErrorKind, Write};

// One write of some bytes, and how many the writer took. One that was interrupted took none.
fn write_some<W: Write>(writer: &mut W, bytes: &[u8]) -> io::Result<usize>
    ensures bound { IfOk result (λ count. count ≤ length bytes.now) }
    ensures bytes { IfOk result (λ count. Appends (W.contents writer.old) (W.contents writer.new)
        (take count bytes.now)) }
    ensures nothing { IsErr result → Keeps (W.contents writer.old) (W.contents writer.new) }
{
    match writer.write(bytes) {
        Ok(0) => Err(io::Error::from(ErrorKind::WriteZero)),
        Ok(count) => Ok(count),
        Err(error) if error.kind() == ErrorKind::Interrupted => Ok(0),
        Err(error) => Err(error),
    }
}

/// Writes bytes: at once, or, where the writer takes a part of them, by further writes. One that was interrupted is
/// tried again.
///
/// The error is the writer's; or its kind is `WriteZero`, where the writer took none of the bytes, or `Interrupted`,
/// where it was interrupted 2^64 - 1 times.
pub fn write_whole<W: Write>(writer: &mut W, bytes: &[u8]) -> io::Result<()>
    ensures whole { OnOk result (Appends (W.contents writer.old) (W.contents writer.new) bytes.now) }
    // After an error a first part of the bytes was written, and not all.
    ensures part { IsErr result → WritesPart (W.contents writer.old) (W.contents writer.new) bytes.now }
{
    let mut taken = 0;
    'writes: for _ in 0..u64::MAX {
        if taken >= bytes.len() {
            return Ok(());
        }
        taken += write_some(writer, &bytes[taken..])?;
    }
    if taken >= bytes.len() {
        return Ok(());
    }
    Err(io::Error::from(ErrorKind::Interrupted))
}
