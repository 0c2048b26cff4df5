//! The texts of the commands, which are read as far as they decide.
ghost use Rattle.std.specs.Prelude.{◌≡◌, ◌⊎◌, ℕ, List, Ok, Some, IfErr, IfOk, IfSome, true};
ghost use Rattle.cell_explain.specs.Explained.{EndsAsAudit, EndsAsFaults, EndsAsScript};
ghost use Rattle.cell_rules.specs.Legal.{legal};
ghost use Rattle.cell_audit.specs.Judged.{audit_limits};
ghost use Rattle.cell_audit.specs.Reading.{IsBefore, IsSomeReading};
ghost use Rattle.cell_output.specs.Watched.{bytes_held};
ghost use Rattle.cell_orders.specs.Commands.{IfTold, NamesFile, outcome_of};
ghost use Rattle.cell_orders.specs.Texts.{TellsTooLong};

use crate::error::CommandError;
use crate::failure::Failure;
use crate::reading::{JournalText, ScriptText, journal_text, script_text, settings_text};
use cell_audit::{AuditError, Audited, read_rows, status_of};
use cell_explain::{explain_faults, explain_journal, explain_operator};
use cell_output::{WatchedWriter, WriteFault, status};
use cell_rows::{RowReader, TellsFault, Watched};
use cell_sim::PlannedFault;
use operator_desk::Line;
use std::alloc::Global;
use std::fs::File;
use std::io;
use std::io::{ErrorKind, Read, Write};
use std::rt::Files;

// An answer of the system about the file of a path, whose error names that file.
fn about<'a, T>(path: &'a str, answer: io::Result<T>) -> Result<T, Failure<'a>>
    ensures same { IfOk result (λ value. answer ≡ Ok value) }
    ensures named { IfErr result (λ failure. failure.file ≡ Some path.entry) }
{
    match answer {
        Ok(value) => Ok(value),
        Err(error) => Err(Failure {
            file: Some(path),
            error,
        }),
    }
}

// An answer of the system about the text on standard input. That it is too large names the input, of which no read
// failed.
fn about_input<'a, T>(answer: io::Result<T>) -> Result<T, Failure<'a>>
    ensures { IfOk result (λ value. answer ≡ Ok value) }
{
    match answer {
        Ok(value) => Ok(value),
        Err(error) if error.kind() == ErrorKind::FileTooLarge => Err(Failure {
            file: Some("standard input"),
            error,
        }),
        Err(error) => Err(Failure::from(error)),
    }
}

/// The settings in a file; `None` where they are longer than settings may be. An error names that file.
pub fn settings_in<'a, R: AllocGlobal + Files>(
    rt: &R,
    path: &'a str,
) -> Result<Option<Vec<u8>>, Failure<'a>>
    ensures { IfErr result (λ failure. failure.file ≡ Some path.entry) }
{
    let file = about(path, File::open(rt, path))?;
    about(path, settings_text(rt.alloc(), file))
}

/// The script in a file, as far as it decides. An error names that file.
pub fn script_in<'a, R: AllocGlobal + Files>(
    rt: &R,
    path: &'a str,
) -> Result<ScriptText, Failure<'a>>
    ensures { IfErr result (λ failure. failure.file ≡ Some path.entry) }
{
    let file = about(path, File::open(rt, path))?;
    about(path, script_text(rt.alloc(), file))
}

/// A reader of the file of a path, which notes its errors. An error names that file.
pub(crate) fn open_watched<'a, R: AllocGlobal + Files>(
    rt: &R,
    path: &'a str,
) -> Result<Watched<R::File>, Failure<'a>>
    ensures { IfErr result (λ failure. failure.file ≡ Some path.entry) }
{
    Ok(Watched::new(about(path, File::open(rt, path))?))
}

/// What was made of the text in a file, unless a read of it failed. An error names that file.
pub(crate) fn unless_failed<'a, T: Drop>(
    path: &'a str,
    made: io::Result<T>,
    noted: Option<io::Error>,
) -> Result<T, Failure<'a>>
    ensures made { IfOk result (λ value. made ≡ Ok value) }
    ensures named { IfErr result (λ failure. failure.file ≡ Some path.entry) }
{
    match noted {
        Some(error) => about(path, Err(error)),
        None => about(path, made),
    }
}

/// What was told by a call that writes, as a command ends with it.
pub fn told<'a>(written: Result<u8, WriteFault>) -> Result<u8, CommandError<'a>>
    ensures { outcome_of result ≡ Some written }
{
    Ok(written?)
}

/// What a command about the text in a file ends with, unless a read of it failed or memory was refused. An error of the
/// system names that file.
pub(crate) fn ended_in<'a>(
    path: &'a str,
    ended: Result<u8, CommandError<'a>>,
    noted: Option<io::Error>,
) -> Result<u8, CommandError<'a>>
    ensures same { IfTold result (λ _. result ≡ ended.entry) }
    ensures named { IfErr result (NamesFile path.entry) }
{
    if let Some(error) = noted {
        return Err(CommandError::at(path, error));
    }
    match ended {
        Ok(status::OUT_OF_MEMORY) => {
            Err(CommandError::at(path, io::Error::from(ErrorKind::OutOfMemory)))
        }
        Ok(status) => Ok(status),
        Err(CommandError::Write(fault)) => Err(CommandError::Write(fault)),
        Err(CommandError::System(failure)) => Err(CommandError::at(path, failure.error)),
    }
}

// The journal of a reader, in a book as far as it is judged. Where the reader fails or memory was refused, that is an
// error.
fn booked<R: TellsFault + Drop>(alloc: Global, reader: R) -> io::Result<Audited>
    ensures legal { IfOk result (λ read. legal audit_limits read.book.entries ≡ true) }
    ensures some { IfOk result (λ read. IsSomeReading read.answer read.book.entries) }
    ensures before { IfOk result (λ read. IsBefore read.answer read.book.entries) }
{
    let mut rows = RowReader::new(alloc, reader);
    let read = read_rows(alloc, &mut rows)?;
    match read.answer {
        Err(AuditError::OutOfMemory) => Err(io::Error::from(ErrorKind::OutOfMemory)),
        Err(AuditError::ReadFault) => Err(io::Error::from(ErrorKind::Interrupted)),
        _ => Ok(read),
    }
}

/// The journal in a file, in a book as far as it is judged. No text of it is kept. An error names that file.
pub fn book_in<'a, R: AllocGlobal + Files>(rt: &R, path: &'a str) -> Result<Audited, Failure<'a>>
    // The entries are those of a legal journal. There is a text for which the answer is due, and of which these are the
    // first entries.
    ensures legal { IfOk result (λ read. legal audit_limits read.book.entries ≡ true) }
    ensures some { IfOk result (λ read. IsSomeReading read.answer read.book.entries) }
    ensures before { IfOk result (λ read. IsBefore read.answer read.book.entries) }
    ensures named { IfErr result (λ failure. failure.file ≡ Some path.entry) }
{
    let mut reader = open_watched(rt, path)?;
    let read = booked(rt.alloc(), &mut reader);
    unless_failed(path, read, reader.error())
}

// The journal of a reader, as far as it is judged. Where memory was refused, that is an error.
fn judged<R: Read + Drop>(alloc: Global, reader: R) -> io::Result<JournalText> {
    let read = journal_text(alloc, reader)?;
    match read.answer {
        Err(AuditError::OutOfMemory) => Err(io::Error::from(ErrorKind::OutOfMemory)),
        _ => Ok(read),
    }
}

/// The journal in a file, as far as it is judged. An error names that file.
pub fn journal_in<'a, R: AllocGlobal + Files>(
    rt: &R,
    path: &'a str,
) -> Result<JournalText, Failure<'a>>
    ensures { IfErr result (λ failure. failure.file ≡ Some path.entry) }
{
    let mut reader = open_watched(rt, path)?;
    let read = judged(rt.alloc(), &mut reader);
    unless_failed(path, read, reader.error())
}

/// Writes that settings are longer than they may be, and gives the status.
pub fn tell_too_long<W: Write>(output: &mut WatchedWriter<'_, W>) -> Result<u8, WriteFault>
    ensures { TellsTooLong (bytes_held W.contents output.old) (bytes_held W.contents output.new) result }
{
    output.write_bytes(b"settings TooLong\n")?;
    Ok(status::REFUSED)
}

// Writes the line of an explanation of a record that is longer than was read, of which it says that in place of all
// else.
fn tell_cut<W: Write>(
    output: &mut WatchedWriter<'_, W>,
    said: &[u8],
    explained: Result<u8, WriteFault>,
) -> Result<u8, WriteFault>
    ensures { IfOk result (λ status. (status ≡ 4) ⊎ (explained ≡ Ok status)) }
{
    if explained != Ok(status::REFUSED) {
        return Ok(status::OUT_OF_MEMORY);
    }
    let begin = match said.iter().position(|byte| *byte == b':') {
        Some(place) => &said[..place],
        None => said,
    };
    let rest = b": a record of more than 65536 bytes\n".as_slice();
    output.write_pieces(&[begin, rest])?;
    Ok(status::REFUSED)
}

/// Explains the script of faults in a file.
pub(crate) fn explain_faults_in<'a, R: AllocGlobal + Files, W: Write>(
    rt: &R,
    path: &'a str,
    output: &mut WatchedWriter<'_, W>,
) -> Result<u8, CommandError<'a>>
    ensures { IfOk result (λ status. (faults : List ℕ) × EndsAsFaults faults status) }
{
    let alloc = rt.alloc();
    let script = script_in(rt, path)?;
    let bytes = script.bytes.as_slice();
    if !script.cuts_record::<PlannedFault>(alloc)? {
        return Ok(explain_faults(alloc, bytes, output)?);
    }
    let mut said = Vec::new(alloc);
    let explained = explain_faults(alloc, bytes, &mut WatchedWriter::new(&mut said));
    Ok(tell_cut(output, said.as_slice(), explained)?)
}

/// Explains the operator's script in a file.
pub(crate) fn explain_operator_in<'a, R: AllocGlobal + Files, W: Write>(
    rt: &R,
    path: &'a str,
    output: &mut WatchedWriter<'_, W>,
) -> Result<u8, CommandError<'a>>
    ensures { IfOk result (λ status. (operator : List ℕ) × EndsAsScript operator status) }
{
    let alloc = rt.alloc();
    let script = script_in(rt, path)?;
    let bytes = script.bytes.as_slice();
    if !script.cuts_record::<Line>(alloc)? {
        return Ok(explain_operator(alloc, bytes, output)?);
    }
    let mut said = Vec::new(alloc);
    let explained = explain_operator(alloc, bytes, &mut WatchedWriter::new(&mut said));
    Ok(tell_cut(output, said.as_slice(), explained)?)
}

// Explains a journal by what was read of it.
fn explain_read<'a, W: Write>(
    alloc: Global,
    read: &JournalText,
    output: &mut WatchedWriter<'_, W>,
) -> Result<u8, CommandError<'a>>
    ensures { IfOk result (EndsAsAudit read.now.bytes.items) }
{
    let bytes = read.bytes.as_slice();
    if !read.cuts_record(alloc)? {
        return Ok(explain_journal(alloc, bytes, output)?);
    }
    let mut said = Vec::new(alloc);
    let explained = explain_journal(alloc, bytes, &mut WatchedWriter::new(&mut said));
    Ok(tell_cut(output, said.as_slice(), explained)?)
}

/// Explains the journal in a file.
pub(crate) fn explain_journal_in<'a, R: AllocGlobal + Files, W: Write>(
    rt: &R,
    path: &'a str,
    output: &mut WatchedWriter<'_, W>,
) -> Result<u8, CommandError<'a>>
    ensures { IfOk result (λ status. (journal : List ℕ) × EndsAsAudit journal status) }
{
    let read = journal_in(rt, path)?;
    explain_read(rt.alloc(), &read, output)
}

// An explanation's status, which is that of the audit before it, unless memory was refused.
fn as_audited(due: u8, explained: u8) -> u8
    ensures { (result ≡ due) ⊎ (result ≡ 4) }
{
    if explained == due {
        due
    } else {
        status::OUT_OF_MEMORY
    }
}

/// Explains the journal on the input. The part that was read is judged again as it is explained, with the same answer
/// unless memory is refused.
pub(crate) fn explain_input<'a, I: Read + Drop, W: Write>(
    alloc: Global,
    input: I,
    output: &mut WatchedWriter<'_, W>,
) -> Result<u8, CommandError<'a>>
    ensures { IfOk result (λ status. IfSome (I.remaining input) (λ text. EndsAsAudit text status)) }
{
    let read = about_input(journal_text(alloc, input))?;
    let due = status_of(&read.answer);
    if due > status::REFUSED {
        return Ok(due);
    }
    let explained = explain_read(alloc, &read, output)?;
    Ok(as_audited(due, explained))
}
