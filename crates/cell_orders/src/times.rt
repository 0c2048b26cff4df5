//! The durations of motions in a file.
ghost use Rattle.std.specs.Prelude.{IfErr, IfOk};
ghost use Rattle.cell_output.specs.Watched.{bytes_held};
ghost use Rattle.cell_orders.specs.Texts.{AreTimes, IsGiven, TellsTimes};

use crate::failure::Failure;
use crate::texts::settings_in;
use cell_measures::{Durations, read_durations};
use cell_output::{WatchedWriter, WriteFault, status};
use std::alloc::Global;
use std::io;
use std::io::{ErrorKind, Write};
use std::rt::Files;

// The durations of a file, or the line that tells why they are refused.
fn durations_of(alloc: Global, text: &[u8]) -> io::Result<Result<Durations, String>> {
    match read_durations(alloc, text) {
        Ok(durations) => Ok(Ok(durations)),
        Err(error) => match error.line(alloc)? {
            Some(line) => Ok(Err(line)),
            None => Err(io::Error::from(ErrorKind::OutOfMemory)),
        },
    }
}

/// The durations in a file, or those of no file; or the line that tells why they are refused.
pub fn durations_in<'a, R: AllocGlobal + Files>(
    rt: &R,
    path: Option<&'a str>,
) -> Result<Result<Durations, String>, Failure<'a>>
    ensures given { IfOk result (λ read. IfErr read (λ _. IsGiven path.entry)) }
    ensures times { IfOk result (λ read. IfOk read (AreTimes path.entry)) }
{
    let Some(path) = path else {
        return Ok(Ok(Durations::ONE));
    };
    match settings_in(rt, path)? {
        Some(text) => Ok(durations_of(rt.alloc(), text.as_slice())?),
        None => Ok(Err(String::from_str(rt.alloc(), "times TooLong")?)),
    }
}

/// Writes the line that tells why durations are refused, and gives the status.
pub fn tell_times<W: Write>(output: &mut WatchedWriter<'_, W>, line: &str) -> Result<u8, WriteFault>
    ensures { TellsTimes (bytes_held W.contents output.old) (bytes_held W.contents output.new) result }
{
    output.write_pieces(&[line.as_bytes(), b"\n".as_slice()])?;
    Ok(status::REFUSED)
}
