//! What is printed for settings.
ghost use Rattle.std.specs.Prelude.{◌≡◌, IfOk, IsErr, OnOk, true};
ghost use Rattle.std.specs.Io.KnownBytes.{Appends};
ghost use Rattle.cell_output.specs.Watched.{IsSameWriter, WritesPart, bytes_held, has_refused};
ghost use Rattle.cell_settings.specs.Checked.{TellsCheck, TellsPart, WritesLine, error_line, line_of, path_line};

use crate::error::SettingsError;
use crate::escaped::write_escaped;
use crate::key_path::KeyPath;
use crate::read::read_settings;
use cell_output::{WatchedWriter, WriteFault, status};
use cell_ports::Plan;
use std::alloc::Global;
use std::io::Write;

// Writes the line of an error that names a path.
fn write_path<W: Write>(
    writer: &mut WatchedWriter<'_, W>,
    name: &str,
    path: &KeyPath,
) -> Result<(), WriteFault>
    ensures writer { IsSameWriter writer.old writer.new }
    ensures whole { OnOk result (Appends (bytes_held W.contents writer.old) (bytes_held W.contents writer.new)
        (path_line name.now path.now)) }
    ensures part { IsErr result → WritesPart (bytes_held W.contents writer.old) (bytes_held W.contents writer.new)
        (path_line name.now path.now) }
    ensures fault { IsErr result → has_refused writer.new ≡ true }
{
    writer.write_bytes(name.as_bytes())?;
    write_escaped(writer, path)?;
    writer.write_bytes(b"\n")
}

// Writes the line of an error.
fn write_error<W: Write>(
    writer: &mut WatchedWriter<'_, W>,
    error: &SettingsError,
) -> Result<(), WriteFault>
    ensures writer { IsSameWriter writer.old writer.new }
    ensures whole { OnOk result (Appends (bytes_held W.contents writer.old) (bytes_held W.contents writer.new)
        (error_line error.now)) }
    ensures part { IsErr result → WritesPart (bytes_held W.contents writer.old) (bytes_held W.contents writer.new)
        (error_line error.now) }
    ensures fault { IsErr result → has_refused writer.new ≡ true }
{
    match error {
        SettingsError::NotToml => writer.write_bytes(b"settings NotToml\n"),
        SettingsError::UnknownKey(path) => write_path(writer, "settings UnknownKey ", path),
        SettingsError::Missing(path) => write_path(writer, "settings Missing ", path),
        SettingsError::NotNumber(path) => write_path(writer, "settings NotNumber ", path),
        SettingsError::OutOfRange(path) => write_path(writer, "settings OutOfRange ", path),
        SettingsError::OutOfMemory => Ok(()),
    }
}

// Writes the line of an answer.
fn write_line<W: Write>(
    writer: &mut WatchedWriter<'_, W>,
    answer: &Result<Plan, SettingsError>,
) -> Result<(), WriteFault>
    ensures writer { IsSameWriter writer.old writer.new }
    ensures whole { OnOk result (Appends (bytes_held W.contents writer.old) (bytes_held W.contents writer.new)
        (line_of answer.now)) }
    ensures part { IsErr result → WritesPart (bytes_held W.contents writer.old) (bytes_held W.contents writer.new)
        (line_of answer.now) }
    ensures fault { IsErr result → has_refused writer.new ≡ true }
{
    match answer {
        Ok(_) => writer.write_bytes(b"settings ok\n"),
        Err(error) => write_error(writer, error),
    }
}

/// Writes the line of an answer to settings, and gives its status: 0, or 1 where they are refused. Where memory was
/// refused (status 4) nothing is written.
pub fn write_checked<W: Write>(
    writer: &mut WatchedWriter<'_, W>,
    answer: &Result<Plan, SettingsError>,
) -> Result<u8, WriteFault>
    ensures writer { IsSameWriter writer.old writer.new }
    ensures whole { IfOk result (WritesLine (bytes_held W.contents writer.old) (bytes_held W.contents writer.new)
        answer.now) }
    ensures part { IsErr result → WritesPart (bytes_held W.contents writer.old) (bytes_held W.contents writer.new)
        (line_of answer.now) }
    ensures fault { IsErr result → has_refused writer.new ≡ true }
{
    write_line(writer, answer)?;
    match answer {
        Ok(_) => Ok(status::SUCCESS),
        Err(SettingsError::OutOfMemory) => Ok(status::OUT_OF_MEMORY),
        Err(_) => Ok(status::REFUSED),
    }
}

/// Reads settings, as `check_lines` does, and writes what is found to a writer that notes whether a write of it was
/// refused.
pub fn check_lines_watched<W: Write>(
    alloc: Global,
    text: &[u8],
    writer: &mut WatchedWriter<'_, W>,
) -> Result<u8, WriteFault>
    ensures writer { IsSameWriter writer.old writer.new }
    ensures whole { IfOk result (TellsCheck text.now (bytes_held W.contents writer.old)
        (bytes_held W.contents writer.new)) }
    ensures part { IsErr result → TellsPart text.now (bytes_held W.contents writer.old)
        (bytes_held W.contents writer.new) }
    // It answers that the writer failed only where a write was refused.
    ensures fault { IsErr result → has_refused writer.new ≡ true }
{
    let answer = read_settings(alloc, text);
    write_checked(writer, &answer)
}

/// Reads settings, writes what is found, and gives the exit status.
///
/// Good settings: `settings ok`, status 0. Settings that are refused: `settings`, the error's name and the path of the
/// key, if it names one, as `write_escaped` writes it, status 1. Where memory is refused (status 4) nothing is written.
///
/// That `WriteFault` comes only where a refused write was noted is a clause of `check_lines_watched`, of which this is
/// the case of a new writer that notes.
pub fn check_lines<W: Write>(alloc: Global, text: &[u8], writer: &mut W) -> Result<u8, WriteFault>
    // The line and the status are those of the settings' answer.
    ensures whole { IfOk result (TellsCheck text.now (W.contents writer.old) (W.contents writer.new)) }
    // Where the writer failed, a first part of such a line was written.
    ensures part { IsErr result → TellsPart text.now (W.contents writer.old) (W.contents writer.new) }
{
    let mut writer = WatchedWriter::new(writer);
    check_lines_watched(alloc, text, &mut writer)
}
