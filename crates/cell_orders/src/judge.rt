//! The commands that judge a text.
ghost use Rattle.cell_audit.specs.Lines.{MigratesSome, TellsSome};
ghost use Rattle.cell_output.specs.Watched.{bytes_held};
ghost use Rattle.cell_orders.specs.Commands.{IfTold};
ghost use Rattle.cell_orders.specs.Texts.{Audits, ChecksSettings, MigratesText, OfText};

use crate::error::CommandError;
use crate::texts::{ended_in, open_watched, settings_in, tell_too_long, told};
use cell_audit::{audit_lines_watched, migrate_lines};
use cell_output::WatchedWriter;
use cell_rows::TellsFault;
use cell_settings::check_lines_watched;
use std::io::Write;
use std::rt::Files;

// Audits the journal in a file, which is read once, as it is judged.
fn audit_in<'a, R: AllocGlobal + Files, W: Write>(
    rt: &R,
    output: &mut WatchedWriter<'_, W>,
    path: &'a str,
) -> Result<u8, CommandError<'a>>
    ensures { IfTold result (TellsSome (bytes_held W.contents output.old) (bytes_held W.contents output.new)) }
{
    let mut reader = open_watched(rt, path)?;
    let audited = told(audit_lines_watched(rt.alloc(), &mut reader, output));
    ended_in(path, audited, reader.error())
}

/// Audits the journal in a file, or that on the input where no file is named.
pub fn audit_file<'a, R: AllocGlobal + Files, I: TellsFault + Drop, W: Write>(
    rt: &R,
    input: I,
    output: &mut WatchedWriter<'_, W>,
    file: Option<&'a str>,
) -> Result<u8, CommandError<'a>>
    ensures { IfTold result (λ written. OfText file.entry (I.remaining input)
        (λ text. Audits text (bytes_held W.contents output.old) (bytes_held W.contents output.new) written)) }
{
    let Some(path) = file else {
        return Ok(audit_lines_watched(rt.alloc(), input, output)?);
    };
    audit_in(rt, output, path)
}

// Migrates the journal in a file, which is read once, as it is judged.
fn migrate_in<'a, R: AllocGlobal + Files, W: Write, E: Write>(
    rt: &R,
    output: &mut WatchedWriter<'_, W>,
    errors: &mut WatchedWriter<'_, E>,
    path: &'a str,
) -> Result<u8, CommandError<'a>>
    ensures { IfTold result (MigratesSome (bytes_held W.contents output.old) (bytes_held W.contents output.new)
        (bytes_held E.contents errors.old)
        (bytes_held E.contents errors.new)) }
{
    let mut reader = open_watched(rt, path)?;
    let migrated = told(migrate_lines(rt.alloc(), &mut reader, output, errors));
    ended_in(path, migrated, reader.error())
}

/// Migrates the journal in a file, or that on the input where no file is named.
pub fn migrate_file<'a, R: AllocGlobal + Files, I: TellsFault + Drop, W: Write, E: Write>(
    rt: &R,
    input: I,
    output: &mut WatchedWriter<'_, W>,
    errors: &mut WatchedWriter<'_, E>,
    file: Option<&'a str>,
) -> Result<u8, CommandError<'a>>
    ensures { IfTold result (λ written. OfText file.entry (I.remaining input)
        (λ text. MigratesText text (bytes_held W.contents output.old) (bytes_held W.contents output.new)
        (bytes_held E.contents errors.old)
        (bytes_held E.contents errors.new) written)) }
{
    let Some(path) = file else {
        return Ok(migrate_lines(rt.alloc(), input, output, errors)?);
    };
    migrate_in(rt, output, errors, path)
}

/// Checks the settings in a file, or tells that they are too long.
pub fn check_file<'a, R: AllocGlobal + Files, W: Write>(
    rt: &R,
    output: &mut WatchedWriter<'_, W>,
    path: &'a str,
) -> Result<u8, CommandError<'a>>
    ensures { IfTold result (ChecksSettings (bytes_held W.contents output.old) (bytes_held W.contents output.new)) }
{
    match settings_in(rt, path)? {
        Some(text) => told(check_lines_watched(rt.alloc(), text.as_slice(), output)),
        None => Ok(tell_too_long(output)?),
    }
}
