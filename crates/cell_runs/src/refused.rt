//! What is printed of a text that is refused.
ghost use Rattle.std.specs.Prelude.{◌≡◌, IfOk, IsErr, true};
ghost use Rattle.cell_output.specs.Watched.{IsSameWriter, WritesPart, bytes_held, has_refused};
ghost use Rattle.cell_rows.specs.Scripts.{script_status};
ghost use Rattle.cell_runs.specs.Inputs.{WritesError, input_line, input_status, script_line};

use crate::inputs::InputError;
use cell_output::{WatchedWriter, WriteFault, status, write_number};
use cell_rows::LineError;
use cell_settings::write_checked;
use std::io::Write;

// Writes the line of a refused script, by its words for a record that is no line and for too many, and gives the
// status.
fn write_script_error<W: Write>(
    writer: &mut WatchedWriter<'_, W>,
    unreadable: &str,
    too_long: &str,
    error: LineError,
) -> Result<u8, WriteFault>
    ensures writer { IsSameWriter writer.old writer.new }
    ensures whole { IfOk result (WritesError (bytes_held W.contents writer.old) (bytes_held W.contents writer.new)
        (script_line unreadable.now too_long.now error) (script_status error)) }
    ensures part { IsErr result → WritesPart (bytes_held W.contents writer.old) (bytes_held W.contents writer.new)
        (script_line unreadable.now too_long.now error) }
    ensures fault { IsErr result → has_refused writer.new ≡ true }
{
    match error {
        LineError::Unreadable(place) => {
            write_number(writer, unreadable, place)?;
            Ok(status::REFUSED)
        }
        LineError::TooManyLines => {
            writer.write_bytes(too_long.as_bytes())?;
            Ok(status::REFUSED)
        }
        LineError::OutOfMemory => Ok(status::OUT_OF_MEMORY),
    }
}

/// Writes why a text is refused, and gives the exit status: 1, or 4 with nothing written where memory was refused.
pub fn refuse_input<W: Write>(
    writer: &mut WatchedWriter<'_, W>,
    error: InputError,
) -> Result<u8, WriteFault>
    ensures writer { IsSameWriter writer.old writer.new }
    ensures whole { IfOk result (WritesError (bytes_held W.contents writer.old) (bytes_held W.contents writer.new)
        (input_line error) (input_status error)) }
    ensures part { IsErr result → WritesPart (bytes_held W.contents writer.old) (bytes_held W.contents writer.new)
        (input_line error) }
    ensures fault { IsErr result → has_refused writer.new ≡ true }
{
    match error {
        InputError::Settings(error) => write_checked(writer, &Err(error)),
        InputError::Faults(error) => {
            write_script_error(writer, "faults unreadable", "faults too long\n", error)
        }
        InputError::Operator(error) => {
            write_script_error(writer, "operator unreadable", "operator too long\n", error)
        }
    }
}
