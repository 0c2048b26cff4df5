//! Why a script is refused.
ghost use Rattle.std.specs.Prelude.{◌≡◌, ◌-◌, ℕ, IfOk, IsErr, codes, string_bytes, true, vec_items};
ghost use Rattle.std.specs.Result.{result_map_both};
ghost use Rattle.cell_output.specs.Watched.{IsSameWriter, bytes_held, has_refused};
ghost use Rattle.cell_sim.specs.Script.{next_fault};
ghost use Rattle.operator_desk.specs.Lines.{line_of};
ghost use Rattle.cell_explain.specs.Explained.{EndsAsFaults, EndsAsScript};
ghost use Rattle.cell_explain.specs.Places.{HasLine};
ghost use Rattle.cell_explain.specs.Sayings.{good_line, long_line};
ghost use Rattle.cell_explain.specs.Scripts.{SaysAnswer, SaysScript};
ghost use Rattle.cell_explain.specs.Told.{SaysRecord, Tells, TellsPart};

use crate::fields::Fields;
use crate::grammar::{fault_fields, operator_fields};
use crate::places::record_of;
use crate::said::Said;
use crate::unread::record_line;
use crate::wanted::Trouble;
use cell_output::{WatchedWriter, WriteFault, status};
use cell_rows::{LineError, MAX_LINES, ScriptLine, read_script};
use cell_sim::PlannedFault;
use operator_desk::Line;
use std::alloc::{AllocError, Global};
use std::io::Write;

// The line of a good script: how many lines it has.
fn good_line(alloc: Global, name: &str, count: usize) -> Result<String, AllocError>
    ensures { IfOk result (λ text. string_bytes text ≡ good_line name.now count) }
{
    if count == 1 {
        format!(in alloc; "{name} ok, 1 line\n")
    } else {
        format!(in alloc; "{name} ok, {count} lines\n")
    }
}

// The line of a script with more lines than it may have: where the first of these begins.
fn long_line(alloc: Global, text: &[u8]) -> Result<String, AllocError>
    ensures { IfOk result (λ line. (n : ℕ) × HasLine text.now 1000 n × (string_bytes line ≡ long_line n)) }
{
    let line = record_of(text, MAX_LINES).line;
    format!(in alloc; "line {line}: more than 1000 lines\n")
}

// Which script a text is.
#[derive(Clone, Copy)]
enum Kind {
    Faults,
    Operator,
}

// Why a record is no line of a script.
fn trouble_of(kind: Kind, record: &[u8]) -> Trouble {
    let fields = Fields::of(record);
    match kind {
        Kind::Faults => Trouble::of(&fields, fault_fields(&fields), Trouble::Twice),
        Kind::Operator => Trouble::of(&fields, operator_fields(&fields), Trouble::NoLine),
    }
}

// The line of a record that is no line of a script; records are counted from 1.
fn unread_line(alloc: Global, text: &[u8], kind: Kind, number: u32) -> Result<String, AllocError>
    ensures { IfOk result (λ line. SaysRecord text.now (codes "record") (number - 1) number (string_bytes line)) }
{
    let record = record_of(text, number.saturating_sub(1));
    let trouble = trouble_of(kind, record.bytes);
    record_line(alloc, record, "record", number, trouble)
}

// What is said of a script by the answer of its reading.
fn say_lines<L>(
    alloc: Global,
    text: &[u8],
    name: &str,
    kind: Kind,
    answer: &Result<Vec<L>, LineError>,
) -> Said
    ensures { SaysAnswer name.now text.now (result_map_both vec_items (λ e. e) answer.now) result.status
        result.text.items }
{
    match answer {
        Ok(lines) => Said::line(alloc, status::SUCCESS, good_line(alloc, name, lines.len())),
        Err(LineError::Unreadable(number)) => {
            let line = unread_line(alloc, text, kind, *number);
            Said::line(alloc, status::REFUSED, line)
        }
        Err(LineError::TooManyLines) => {
            Said::line(alloc, status::REFUSED, long_line(alloc, text))
        }
        Err(LineError::OutOfMemory) => Said::nothing(alloc),
    }
}

// What is said of a script's text.
fn say_script<L: ScriptLine + Drop>(alloc: Global, text: &[u8], name: &str, kind: Kind) -> Said
    ensures { SaysScript name.now L.line_of text.now result.status result.text.items }
{
    let answer = read_script::<L>(alloc, text);
    say_lines(alloc, text, name, kind, &answer)
}

/// Writes what is to be said of a script of faults to a writer that notes whether a write of it was refused, and gives
/// the exit status.
///
/// A good script: how many lines it has, status 0. The first record that is no fault: its line, its number, itself and
/// what may stand in the first field that can't be read, status 1; of a second fault of one motion that it is one. More
/// than 1,000 records: the line of the first too many, status 1. Where memory is refused (status 4) nothing is written.
pub fn explain_faults<W: Write>(
    alloc: Global,
    text: &[u8],
    writer: &mut WatchedWriter<'_, W>,
) -> Result<u8, WriteFault>
    ensures writer { IsSameWriter writer.old writer.new }
    // The status is that of an answer to the script.
    ensures status { IfOk result (EndsAsFaults text.now) }
    // What is written is what is said of the script with this status.
    ensures told { IfOk result (λ s. Tells (SaysScript (codes "faults") next_fault text.now s)
        (bytes_held W.contents writer.old) (bytes_held W.contents writer.new)) }
    // Where the writer failed, a first part of it was written.
    ensures part { IsErr result → (s : ℕ) × TellsPart (SaysScript (codes "faults") next_fault text.now s)
        (bytes_held W.contents writer.old) (bytes_held W.contents writer.new) }
    // It answers that the writer failed only where a write was refused.
    ensures fault { IsErr result → has_refused writer.new ≡ true }
{
    let said = say_script::<PlannedFault>(alloc, text, "faults", Kind::Faults);
    said.write(writer)
}

/// Writes what is to be said of the operator's script to a writer that notes whether a write of it was refused, and
/// gives the exit status.
///
/// A good script: how many lines it has, status 0. The first record that is no line: its line, its number, itself and
/// what may stand in the first field that can't be read, status 1. More than 1,000 records: the line of the first too
/// many, status 1. Where memory is refused (status 4) nothing is written.
pub fn explain_operator<W: Write>(
    alloc: Global,
    text: &[u8],
    writer: &mut WatchedWriter<'_, W>,
) -> Result<u8, WriteFault>
    ensures writer { IsSameWriter writer.old writer.new }
    // The status is that of an answer to the script.
    ensures status { IfOk result (EndsAsScript text.now) }
    // What is written is what is said of the script with this status.
    ensures told { IfOk result (λ s. Tells (SaysScript (codes "operator") line_of text.now s)
        (bytes_held W.contents writer.old) (bytes_held W.contents writer.new)) }
    // Where the writer failed, a first part of it was written.
    ensures part { IsErr result → (s : ℕ) × TellsPart (SaysScript (codes "operator") line_of text.now s)
        (bytes_held W.contents writer.old) (bytes_held W.contents writer.new) }
    // It answers that the writer failed only where a write was refused.
    ensures fault { IsErr result → has_refused writer.new ≡ true }
{
    let said = say_script::<Line>(alloc, text, "operator", Kind::Operator);
    said.write(writer)
}
