//! What is printed for an audit and for a migration.
ghost use Rattle.std.specs.Prelude.{◌≡◌, ◌≢◌, ◌⊎◌, [], IfOk, IsErr, Ok, OnOk, codes, true};
ghost use Rattle.std.specs.Io.KnownBytes.{Appends};
ghost use Rattle.cell_rows.specs.Rows.{IsOpen, device_failed, rows_left};
ghost use Rattle.cell_audit.specs.Migrated.{rows_in};
ghost use Rattle.cell_output.specs.Watched.{IsSameWriter, WritesPart, bytes_held, has_refused};
ghost use Rattle.cell_audit.specs.Lines.{MigratesSome, StopsMigration, TellsAudit, TellsMigration, TellsPart};
ghost use Rattle.cell_audit.specs.Lines.{TellsPartOfRows, TellsRows, TellsSome, WritesAnswer, lines_of, refusal_line};
ghost use Rattle.cell_audit.specs.Lines.{status_of, totals_lines};

use crate::error::{AuditError, MigrateError};
use crate::judge::audit_rows;
use crate::migration::migrate_watched;
use cell_output::{WatchedWriter, WriteFault, status, write_number};
use cell_rows::{RowReader, TellsFault, Watched};
use cell_types::Totals;
use itoa::Buffer;
use plate_book::Refusal;
use std::alloc::Global;
use std::io::{Read, Write};

// The end of the lines of a legal journal before its line feed: the line feed and the word of the sixth line, and its
// digits. Both are empty but for profile 2.
fn sixth_line(number: u8, digits: &str) -> (&[u8], &[u8])
    ensures two { number ≡ 2 → (result.0.now ≡ codes "\nreinstated ") × (result.1.now ≡ digits.now) }
    ensures other { number ≢ 2 → (result.0.now ≡ []) × (result.1.now ≡ []) }
{
    if number == 2 {
        (b"\nreinstated ".as_slice(), digits.as_bytes())
    } else {
        (b"".as_slice(), b"".as_slice())
    }
}

// Writes the lines of a legal journal of the profile of this number.
fn write_totals<W: Write>(
    writer: &mut WatchedWriter<'_, W>,
    number: u8,
    totals: Totals,
) -> Result<(), WriteFault>
    ensures writer { IsSameWriter writer.old writer.new }
    ensures whole { OnOk result (Appends (bytes_held W.contents writer.old) (bytes_held W.contents writer.new)
        (totals_lines number totals)) }
    ensures part { IsErr result → WritesPart (bytes_held W.contents writer.old) (bytes_held W.contents writer.new)
        (totals_lines number totals) }
    ensures fault { IsErr result → has_refused writer.new ≡ true }
{
    let mut entries = Buffer::new();
    let mut admitted = Buffer::new();
    let mut forged = Buffer::new();
    let mut quarantined = Buffer::new();
    let mut delivered = Buffer::new();
    let mut reinstated = Buffer::new();
    let sixth = sixth_line(number, reinstated.format(totals.reinstated));
    writer.write_pieces(&[
        b"legal ",
        entries.format(totals.entries).as_bytes(),
        b"\nadmitted ",
        admitted.format(totals.admitted).as_bytes(),
        b"\nforged ",
        forged.format(totals.forged).as_bytes(),
        b"\nquarantined ",
        quarantined.format(totals.quarantined).as_bytes(),
        b"\ndelivered ",
        delivered.format(totals.delivered).as_bytes(),
        sixth.0,
        sixth.1,
        b"\n",
    ])
}

// Writes the line of a refused entry.
fn write_refusal<W: Write>(
    writer: &mut WatchedWriter<'_, W>,
    place: u32,
    why: Refusal,
) -> Result<(), WriteFault>
    ensures writer { IsSameWriter writer.old writer.new }
    ensures whole { OnOk result (Appends (bytes_held W.contents writer.old) (bytes_held W.contents writer.new)
        (refusal_line place why)) }
    ensures part { IsErr result → WritesPart (bytes_held W.contents writer.old) (bytes_held W.contents writer.new)
        (refusal_line place why) }
    ensures fault { IsErr result → has_refused writer.new ≡ true }
{
    let mut digits = Buffer::new();
    let place = digits.format(place).as_bytes();
    let name = why.name().as_bytes();
    match why.word() {
        Some(word) => writer.write_pieces(&[
            b"refused ",
            place,
            b" ",
            name,
            b" ",
            word.as_bytes(),
            b"\n",
        ]),
        None => writer.write_pieces(&[b"refused ", place, b" ", name, b"\n"]),
    }
}

/// The exit status of an audit's answer.
pub fn status_of(answer: &Result<(u8, Totals), AuditError>) -> u8
    ensures { result ≡ status_of answer.now }
{
    match answer {
        Ok(_) => status::SUCCESS,
        Err(AuditError::Unreadable(_)) | Err(AuditError::Refused(_, _)) => status::REFUSED,
        Err(AuditError::ReadFault) => status::DEVICE_FAULT,
        Err(AuditError::OutOfMemory) => status::OUT_OF_MEMORY,
    }
}

/// Writes the lines of an audit's answer, and gives its status.
pub fn write_answer<W: Write>(
    writer: &mut WatchedWriter<'_, W>,
    answer: Result<(u8, Totals), AuditError>,
) -> Result<u8, WriteFault>
    ensures writer { IsSameWriter writer.old writer.new }
    ensures whole { IfOk result (WritesAnswer (bytes_held W.contents writer.old) (bytes_held W.contents writer.new)
        answer) }
    // After an error a first part of the lines was written, and not all.
    ensures part { IsErr result → WritesPart (bytes_held W.contents writer.old) (bytes_held W.contents writer.new)
        (lines_of answer) }
    // It fails only where a write was refused.
    ensures fault { IsErr result → has_refused writer.new ≡ true }
{
    match answer {
        Ok((number, totals)) => {
            write_totals(writer, number, totals)?;
            Ok(status::SUCCESS)
        }
        Err(AuditError::Unreadable(place)) => {
            write_number(writer, "unreadable", place)?;
            Ok(status::REFUSED)
        }
        Err(AuditError::Refused(place, why)) => {
            write_refusal(writer, place, why)?;
            Ok(status::REFUSED)
        }
        Err(AuditError::ReadFault) => Ok(status::DEVICE_FAULT),
        Err(AuditError::OutOfMemory) => Ok(status::OUT_OF_MEMORY),
    }
}

/// Audits the records that a reader has left, as `audit_lines` does those of a text, and writes what is found to a
/// writer that notes whether a write of it was refused.
pub fn audit_rows_watched<R: TellsFault, W: Write>(
    alloc: Global,
    rows: &mut RowReader<R>,
    writer: &mut WatchedWriter<'_, W>,
) -> Result<u8, WriteFault>
    requires { IsOpen rows.old }
    ensures writer { IsSameWriter writer.old writer.new }
    ensures whole { IfOk result (TellsRows (rows_left R.remaining rows.old) (bytes_held W.contents writer.old)
        (bytes_held W.contents writer.new)) }
    ensures part { IsErr result → TellsPartOfRows (rows_left R.remaining rows.old) (bytes_held W.contents writer.old)
        (bytes_held W.contents writer.new) }
    // Also of records that aren't known it tells an answer that is due for some text.
    ensures some { TellsSome (bytes_held W.contents writer.old) (bytes_held W.contents writer.new) result }
    // It gives the status of a reader that failed only where a failed read was noted, and answers that the writer
    // failed only where a write was refused.
    ensures read_fault { result ≡ Ok 3 → device_failed R.failed rows.new ≡ true }
    ensures fault { IsErr result → has_refused writer.new ≡ true }
{
    let answer = audit_rows(alloc, rows);
    write_answer(writer, answer)
}

/// Audits a journal's text, as `audit_lines` does, from a reader that tells whether a read failed, and writes what is
/// found to a writer that notes whether a write of it was refused.
pub fn audit_lines_watched<R: TellsFault + Drop, W: Write>(
    alloc: Global,
    reader: R,
    writer: &mut WatchedWriter<'_, W>,
) -> Result<u8, WriteFault>
    ensures writer { IsSameWriter writer.old writer.new }
    ensures whole { IfOk result (TellsAudit (R.remaining reader) (bytes_held W.contents writer.old)
        (bytes_held W.contents writer.new)) }
    ensures part { IsErr result → TellsPart (R.remaining reader) (bytes_held W.contents writer.old)
        (bytes_held W.contents writer.new) }
    ensures some { TellsSome (bytes_held W.contents writer.old) (bytes_held W.contents writer.new) result }
    // It answers that the writer failed only where a write was refused.
    ensures fault { IsErr result → has_refused writer.new ≡ true }
{
    let mut rows = RowReader::new(alloc, reader);
    audit_rows_watched(alloc, &mut rows, writer)
}

/// Audits the journal's text that the reader gives, writes what is found, and gives the exit status.
///
/// A legal journal: the lines `legal`, `admitted`, `forged`, `quarantined` and `delivered`, each with its number, and
/// in profile 2 the line `reinstated` with its number, status 0. A refused entry: `refused`, its place counted from 1,
/// the refusal's name and the word of what it names, status 1. A record that can't be read: `unreadable` and its
/// number, 0 for the profile's, status 1. Where the reader fails (status 3) or memory is refused (status 4) nothing is
/// written.
///
/// That status 3 comes only where a failed read was noted, and `WriteFault` only where a refused write was, are clauses
/// of `audit_rows_watched`, of which this is the case of a new reader of rows and a new writer that notes.
pub fn audit_lines<R: Read + Drop, W: Write>(
    alloc: Global,
    reader: R,
    writer: &mut W,
) -> Result<u8, WriteFault>
    // The lines and the status are those of an answer of the audit.
    ensures whole { IfOk result (TellsAudit (R.remaining reader) (W.contents writer.old) (W.contents writer.new)) }
    // Where the writer failed, a first part of such lines was written.
    ensures part { IsErr result → TellsPart (R.remaining reader) (W.contents writer.old) (W.contents writer.new) }
    // Where the reader doesn't tell its bytes, they are those of an answer to some text.
    ensures some { TellsSome (W.contents writer.old) (W.contents writer.new) result }
{
    let mut writer = WatchedWriter::new(writer);
    audit_lines_watched(alloc, Watched::new(reader), &mut writer)
}

/// Migrates the records that a reader has left, as `migrate_lines` does those of a text, to writers that note whether a
/// write of theirs was refused.
pub fn migrate_rows_watched<R: TellsFault, W: Write, E: Write>(
    alloc: Global,
    rows: &mut RowReader<R>,
    writer: &mut WatchedWriter<'_, W>,
    errors: &mut WatchedWriter<'_, E>,
) -> Result<u8, WriteFault>
    requires { IsOpen rows.old }
    ensures writer { IsSameWriter writer.old writer.new }
    ensures errors { IsSameWriter errors.old errors.new }
    ensures whole { IfOk result (TellsMigration (rows_left R.remaining rows.old) (bytes_held W.contents writer.old)
        (bytes_held W.contents writer.new) (bytes_held E.contents errors.old) (bytes_held E.contents errors.new)) }
    ensures part { IsErr result → StopsMigration (rows_left R.remaining rows.old) (bytes_held W.contents writer.old)
        (bytes_held W.contents writer.new) (bytes_held E.contents errors.old) (bytes_held E.contents errors.new) }
    // Also of records that aren't known it tells a migration of some text.
    ensures some { MigratesSome (bytes_held W.contents writer.old) (bytes_held W.contents writer.new)
        (bytes_held E.contents errors.old) (bytes_held E.contents errors.new) result }
    // It gives the status of a reader that failed only where a failed read was noted, and answers that a writer failed
    // only where a write of one of the two was refused.
    ensures read_fault { result ≡ Ok 3 → device_failed R.failed rows.new ≡ true }
    ensures write_fault { IsErr result → (has_refused writer.new ≡ true) ⊎ (has_refused errors.new ≡ true) }
{
    match migrate_watched(alloc, rows, writer) {
        Ok(_) => Ok(status::SUCCESS),
        Err(MigrateError::Unreadable(place)) => {
            write_answer(errors, Err(AuditError::Unreadable(place)))
        }
        Err(MigrateError::Refused(place, why)) => {
            write_answer(errors, Err(AuditError::Refused(place, why)))
        }
        Err(MigrateError::ReadFault) => Ok(status::DEVICE_FAULT),
        Err(MigrateError::WriteFault) => Err(WriteFault),
        Err(MigrateError::OutOfMemory) => Ok(status::OUT_OF_MEMORY),
    }
}

/// Migrates the journal's text of profile 1 that the reader gives: writes the same journal's text of profile 2, and
/// gives the exit status.
///
/// Where the text is refused or can't be read (status 1) the audit's line is written to the errors, and nothing to the
/// writer. Where the reader fails (status 3) nothing is written. Where memory is refused (status 4) a first part of the
/// text may be written.
///
/// That status 3 comes only where a failed read was noted is a clause of `migrate_rows_watched`, of which this is the
/// case of a new reader of rows.
pub fn migrate_lines<R: TellsFault + Drop, W: Write, E: Write>(
    alloc: Global,
    reader: R,
    writer: &mut WatchedWriter<'_, W>,
    errors: &mut WatchedWriter<'_, E>,
) -> Result<u8, WriteFault>
    ensures writer { IsSameWriter writer.old writer.new }
    ensures errors { IsSameWriter errors.old errors.new }
    // What is written, the line to the errors and the status are those of one answer of the migration.
    ensures whole { IfOk result (TellsMigration (rows_in (R.remaining reader)) (bytes_held W.contents writer.old)
        (bytes_held W.contents writer.new) (bytes_held E.contents errors.old) (bytes_held E.contents errors.new)) }
    // Where a writer failed, a first part of the text or of such a line was written.
    ensures part { IsErr result → StopsMigration (rows_in (R.remaining reader)) (bytes_held W.contents writer.old)
        (bytes_held W.contents writer.new) (bytes_held E.contents errors.old) (bytes_held E.contents errors.new) }
    // Where the reader doesn't tell its bytes, they are those of some text.
    ensures some { MigratesSome (bytes_held W.contents writer.old) (bytes_held W.contents writer.new)
        (bytes_held E.contents errors.old) (bytes_held E.contents errors.new) result }
    // It answers that a writer failed only where a write of one of the two was refused.
    ensures fault { IsErr result → (has_refused writer.new ≡ true) ⊎ (has_refused errors.new ≡ true) }
{
    let mut rows = RowReader::new(alloc, reader);
    migrate_rows_watched(alloc, &mut rows, writer, errors)
}
