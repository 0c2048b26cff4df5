//! The first record of the operator's script that isn't done.
ghost use Rattle.std.specs.Prelude.{◌≡◌, ◌≤◌, ◌<◌, ℕ, IfOk, OnOk, drop, false, length, true};
ghost use Rattle.std.specs.Io.KnownBytes.{Appends};
ghost use Rattle.operator_desk.specs.Lines.{line_of};
ghost use Rattle.cell_rules.specs.Legal.{first_of};
ghost use Rattle.cell_explain.specs.Waiting.{AskFor, Leaves, line_wait, refusal_line, task_of, task_wait};
ghost use Rattle.cell_explain.specs.Waiting.{trigger_wait, undone_line, waiting_of};
ghost use Rattle.cell_explain.specs.Endings.{IsUndone, script_lines};

use crate::endings::words::{are, plates, were};
use crate::places::record_of;
use cell_journal::Journal;
use cell_rows::{LineError, read_script};
use cell_sentences::{RefusalSentence, station_name, the_machine};
use cell_types::Entry;
use operator_desk::{Line, Task, Trigger, holds};
use plate_book::Book;
use std::alloc::{AllocError, Global};
use std::io::{Error, Result, Write};

// The task of which an entry of the operator is.
fn task_of(entry: Entry) -> Option<Task>
    ensures { result ≡ task_of entry }
{
    match entry {
        Entry::StopAsked { machine } => Some(Task::Stop(machine)),
        Entry::Quarantined { src, .. } => Some(Task::Clear(src)),
        Entry::Repaired { machine } => Some(Task::Repair(machine)),
        Entry::Expected { plate } => Some(Task::Expect(plate)),
        _ => None,
    }
}

// Whether the first line that is left asks for an entry, where so many are done.
fn is_asked_for(lines: &[Line], done: u32, entry: Entry) -> bool
    ensures asked { result ≡ true → AskFor (drop done lines.now) entry }
    ensures other { result ≡ false → AskFor (drop done lines.now) entry → ⊥ }
{
    match lines.get(done as usize) {
        Some(line) => task_of(entry) == Some(line.task),
        None => false,
    }
}

/// How many lines of the operator's script are done by a journal's entries from a place on: an entry does the first
/// line that is left, if that asks for it; and any other entry does none, as one of the cell's desk.
pub fn lines_done(journal: &Journal, before: u32, lines: &[Line]) -> u32
    ensures done { Leaves lines.now (drop before journal.now.entries) (drop result lines.now) }
    ensures few { result ≤ length journal.now.entries }
{
    let mut done: u32 = 0;
    for place in before..journal.len() {
        if is_asked_for(lines, done, journal.at(place)) {
            done += 1;
        }
    }
    done
}

// Writes what a trigger waits for.
fn write_trigger<W: Write>(writer: &mut W, book: &Book, when: Trigger) -> Result<()>
    ensures { OnOk result (Appends (W.contents writer.old) (W.contents writer.new)
        (trigger_wait book.now.entries when)) }
{
    let totals = book.totals();
    match when {
        Trigger::Always => writeln!(writer, "its time has come"),
        Trigger::Admitted(number) => writeln!(
            writer,
            "it waits for {number}{} to be admitted, and {}{}",
            plates(number),
            totals.admitted,
            are(totals.admitted)
        ),
        Trigger::Delivered(number) => writeln!(
            writer,
            "it waits for {number}{} to be delivered, and {}{}",
            plates(number),
            totals.delivered,
            are(totals.delivered)
        ),
        Trigger::Quarantined(number) => writeln!(
            writer,
            "it waits for {number}{} to be taken into quarantine, and {}{}",
            plates(number),
            totals.quarantined,
            were(totals.quarantined)
        ),
        Trigger::Failed(machine) => writeln!(
            writer,
            "it waits for a failure of {}",
            the_machine(machine)
        ),
    }
}

// Writes what refuses an entry of the operator's.
fn write_refusal<W: Write>(writer: &mut W, book: &Book, entry: Entry) -> Result<()>
    ensures { OnOk result (Appends (W.contents writer.old) (W.contents writer.new)
        (refusal_line (first_of book.now.limits book.now.entries entry))) }
{
    match book.allows(entry) {
        Ok(()) => writeln!(writer, "nothing refuses it"),
        Err(why) => writeln!(writer, "{}", RefusalSentence(why)),
    }
}

// Writes what a task waits for.
fn write_task<W: Write>(writer: &mut W, book: &Book, task: Task) -> Result<()>
    ensures { OnOk result (Appends (W.contents writer.old) (W.contents writer.new)
        (task_wait book.now.limits book.now.entries task)) }
{
    match task {
        Task::Stop(machine) => write_refusal(writer, book, Entry::StopAsked { machine }),
        Task::Repair(machine) => write_refusal(writer, book, Entry::Repaired { machine }),
        Task::Expect(plate) => write_refusal(writer, book, Entry::Expected { plate }),
        Task::Clear(src) => match book.plate_at(src) {
            Some(plate) => write_refusal(writer, book, Entry::Quarantined { plate, src }),
            None => writeln!(
                writer,
                "it waits for a plate at {}, and none is there",
                station_name(src)
            ),
        },
    }
}

// Writes what a line waits for.
fn write_wait<W: Write>(writer: &mut W, book: &Book, line: Line) -> Result<()>
    ensures { OnOk result (Appends (W.contents writer.old) (W.contents writer.new)
        (line_wait book.now.limits book.now.entries line)) }
{
    if holds(book, line.when) {
        write_task(writer, book, line.task)
    } else {
        write_trigger(writer, book, line.when)
    }
}

// Writes the line that isn't done, where there is one, by the line of the text and the number of its record.
fn write_undone<W: Write>(
    writer: &mut W,
    book: &Book,
    at: usize,
    number: u64,
    line: Option<Line>,
) -> Result<()>
    ensures { OnOk result (Appends (W.contents writer.old) (W.contents writer.new)
        (undone_line book.now.limits book.now.entries at number line)) }
{
    match line {
        Some(line) => {
            write!(
                writer,
                "line {at}, record {number} of the operator's script isn't done: "
            )?;
            write_wait(writer, book, line)
        }
        None => Ok(()),
    }
}

// The lines of the operator's script; one that can't be read has none.
fn lines_in(alloc: Global, operator: &[u8]) -> Result<Vec<Line>>
    ensures { IfOk result (λ lines. lines.items ≡ script_lines line_of operator.now) }
{
    match read_script::<Line>(alloc, operator) {
        Ok(lines) => Ok(lines),
        Err(LineError::OutOfMemory) => Err(Error::from(AllocError)),
        Err(_) => Ok(Vec::new(alloc)),
    }
}

// Writes the first of these lines that isn't done, where so many are, by the line of the text.
fn write_first<W: Write>(
    writer: &mut W,
    book: &Book,
    done: u32,
    at: usize,
    lines: &[Line],
) -> Result<()>
    ensures { OnOk result (Appends (W.contents writer.old) (W.contents writer.new)
        (waiting_of book.now.limits book.now.entries done at lines.now)) }
{
    let number = u64::from(done) + 1;
    write_undone(writer, book, at, number, lines.get(done as usize).copied())
}

/// Writes the first record of the operator's script that isn't done by the entries from a place on, by its line and its
/// number, and what it waits for. The records are done in their order, each with an entry of the operator's.
pub(crate) fn write_operator<W: Write>(
    alloc: Global,
    writer: &mut W,
    book: &Book,
    before: u32,
    operator: &[u8],
) -> Result<()>
    ensures { OnOk result ((n : ℕ) × (at : ℕ) × IsUndone operator.now (drop before book.now.entries) n at
        × Appends (W.contents writer.old) (W.contents writer.new)
        (waiting_of book.now.limits book.now.entries n at (script_lines line_of operator.now))) }
{
    let lines = lines_in(alloc, operator)?;
    let done = lines_done(book.journal(), before, lines.as_slice());
    let at = record_of(operator, done).line;
    write_first(writer, book, done, at, lines.as_slice())
}
