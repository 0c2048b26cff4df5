//! Why a journal's text is refused.
ghost use Rattle.std.specs.Prelude.{◌≡◌, ℕ, IfOk, IfSome, IsErr, Some, string_bytes, true};
ghost use Rattle.cell_explain.specs.Facts.{IsSince};
ghost use Rattle.cell_audit.specs.Reading.{IsBefore, SpellsFirst};
ghost use Rattle.cell_output.specs.Watched.{IsSameWriter, bytes_held, has_refused};
ghost use Rattle.cell_audit.specs.Lines.{TellsAudit};
ghost use Rattle.cell_rows.specs.Rows.{IsOpen, rows_left, rows_of};
ghost use Rattle.cell_explain.specs.Explained.{EndsAsAudit};
ghost use Rattle.cell_explain.specs.Sayings.{refused_line};
ghost use Rattle.cell_explain.specs.Told.{IsEntryOf, SaysAudit, SaysJournal, SaysRefusal, SaysRefused, SaysUnreadable};
ghost use Rattle.cell_explain.specs.Told.{Tells, TellsPart};

use crate::due::{Circumstances, Due, due_of};
use crate::fields::Fields;
use crate::grammar::entry_fields;
use crate::places::{Record, record_of};
use crate::said::Said;
use crate::shown::shown;
use crate::telling::{Since, left_by, told};
use crate::unread::record_line;
use crate::wanted::Trouble;
use cell_audit::{AuditError, Audited, audit_lines, audit_text, entry_of, read_rows};
use cell_journal::Journal;
use cell_output::{WatchedWriter, WriteFault, status};
use cell_rows::{RowReader, TellsFault};
use cell_sentences::RefusalSentence;
use cell_types::Entry;
use plate_book::Refusal;
use std::alloc::{AllocError, Global};
use std::io::Write;

// What is said of a text that an audit finds legal: the audit's lines.
fn say_legal(alloc: Global, text: &[u8]) -> Said
    ensures { SaysAudit text.now result.status result.text.items }
{
    let mut lines = Vec::new(alloc);
    match audit_lines(alloc, text, &mut lines) {
        Ok(ended) => Said {
            status: ended,
            text: lines,
        },
        Err(_) => Said::nothing(alloc),
    }
}

// The line of a record that can't be read. Record 0 is the profile's.
fn unreadable_line(alloc: Global, text: &[u8], place: u32) -> Result<String, AllocError>
    ensures { IfOk result (λ line. SaysUnreadable text.now place (string_bytes line)) }
{
    let record = record_of(text, place);
    if place == 0 {
        let line = record.line;
        return format!(in alloc; "line {line}: the first record is profile,1,, or profile,2,,\n");
    }
    let fields = Fields::of(record.bytes);
    let in_two = Fields::of(record_of(text, 0).bytes).at(1) == b"2".as_slice();
    let wanted = entry_fields(in_two, &fields);
    let trouble = Trouble::of(&fields, wanted, Trouble::NoEntry);
    record_line(alloc, record, "entry", place, trouble)
}

// The entry of the record of a number, counted from 0, of those that are left; `None` where it is none's, or can't be
// read.
fn entry_in<R: TellsFault>(rows: &mut RowReader<R>, number: u32) -> Option<Entry>
    requires { IsOpen rows.old }
    ensures { IfSome (rows_left R.remaining rows.old) (λ all. IfSome result (IsEntryOf all number)) }
{
    for place in 0..number {
        match rows.advance() {
            Ok(true) => {}
            _ => return None,
        }
    }
    match rows.advance() {
        Ok(true) => entry_of(rows),
        _ => None,
    }
}

// The entry of the record of a number of a text, counted from 0; `None` where it is none's, or can't be read.
fn entry_at(alloc: Global, text: &[u8], number: u32) -> Option<Entry>
    ensures { IfSome result (IsEntryOf (rows_of text.now) number) }
{
    let mut rows = RowReader::new(alloc, text);
    entry_in(&mut rows, number)
}

// What is read of a text into a book.
fn read_again(alloc: Global, text: &[u8]) -> Result<Audited, AllocError>
    ensures before { IfOk result (λ read. IsBefore read.answer read.book.entries) }
    ensures first { IfOk result (λ read. SpellsFirst read.book.entries (rows_of text.now)) }
{
    let mut rows = RowReader::new(alloc, text);
    read_rows(alloc, &mut rows)
}

// Since when it is so that an entry is refused after those of a journal, and what it needs.
fn circumstances(journal: &Journal, entry: Entry, why: Refusal) -> Circumstances
    ensures { IsSince journal.now.entries entry why result.since }
{
    let left = left_by(journal);
    let refused = entry;
    Circumstances {
        since: told(journal, entry, why, &left),
        due: due_of(why, refused, &left),
    }
}

// The line of an entry that isn't allowed after those of a journal.
fn refused_line(
    alloc: Global,
    record: Record<'_>,
    place: u32,
    why: Refusal,
    made: Circumstances,
) -> Result<String, AllocError>
    ensures { IfOk result (λ text. string_bytes text ≡ refused_line «record».entry.line place «record».entry.bytes.now
        why made) }
{
    let Record { line, bytes } = record;
    let shown = shown(alloc, bytes)?;
    let sentence = RefusalSentence(why);
    format!(in alloc; "line {line}, entry {place}: {shown}: {why}: {sentence}{made}\n")
}

// What is said of a text whose entry at a place isn't allowed, by a second reading into a book. That gives the same
// answer, unless memory is refused.
fn say_refused(alloc: Global, text: &[u8], place: u32, why: Refusal) -> Said
    ensures { SaysRefusal (SaysRefused text.now place why) result.status result.text.items }
{
    let Ok(reading) = read_again(alloc, text) else {
        return Said::nothing(alloc);
    };
    match (reading.answer, entry_at(alloc, text, place)) {
        (Err(AuditError::Refused(again, _)), Some(entry)) if again == place => {
            let record = record_of(text, place);
            let made = circumstances(reading.book.journal(), entry, why);
            Said::line(
                alloc,
                status::REFUSED,
                refused_line(alloc, record, place, why, made),
            )
        }
        _ => Said::nothing(alloc),
    }
}

// What is said of a journal's text.
fn say_journal(alloc: Global, text: &[u8]) -> Said
    ensures { SaysJournal text.now result.status result.text.items }
{
    match audit_text(alloc, text) {
        Ok(_) => say_legal(alloc, text),
        Err(AuditError::Unreadable(place)) => {
            Said::line(alloc, status::REFUSED, unreadable_line(alloc, text, place))
        }
        Err(AuditError::Refused(place, why)) => say_refused(alloc, text, place, why),
        Err(AuditError::ReadFault | AuditError::OutOfMemory) => Said::nothing(alloc),
    }
}

/// Writes what is to be said of a journal's text to a writer that notes whether a write of it was refused, and gives
/// the exit status, which is the audit's.
///
/// A legal journal: the audit's lines, status 0. A refused entry: its line, its number, its record, the refusal, also
/// as a sentence, and since which entry it is so, in one line, status 1. A record that can't be read: its line, its
/// number, itself and what may stand in the first field that can't be read, status 1. Lines are counted from 1, and a
/// record's line is the one in which it begins. Where memory is refused (status 4) nothing is written.
pub fn explain_journal<W: Write>(
    alloc: Global,
    text: &[u8],
    writer: &mut WatchedWriter<'_, W>,
) -> Result<u8, WriteFault>
    ensures writer { IsSameWriter writer.old writer.new }
    // The status is that of an answer of the audit.
    ensures status { IfOk result (EndsAsAudit text.now) }
    // Of a legal journal what is written is the audit's lines.
    ensures legal { IfOk result (λ s. s ≡ 0
        → TellsAudit (Some text.now) (bytes_held W.contents writer.old) (bytes_held W.contents writer.new) s) }
    // What is written is what is said of the text with this status.
    ensures told { IfOk result (λ s. Tells (SaysJournal text.now s) (bytes_held W.contents writer.old)
        (bytes_held W.contents writer.new)) }
    // Where the writer failed, a first part of it was written.
    ensures part { IsErr result → (s : ℕ) × TellsPart (SaysJournal text.now s) (bytes_held W.contents writer.old)
        (bytes_held W.contents writer.new) }
    // It answers that the writer failed only where a write was refused.
    ensures fault { IsErr result → has_refused writer.new ≡ true }
{
    let said = say_journal(alloc, text);
    said.write(writer)
}
