//! A run by its texts.
ghost use Rattle.std.specs.Prelude.{◌≡◌, ◌<◌, Ok, IfOk, IsTrue, OnOk, option_map};
ghost use Rattle.std.specs.Io.KnownBytes.{Appends};
ghost use Rattle.cell_output.specs.Watched.{bytes_held};
ghost use Rattle.cell_rows.specs.Scripts.{script_status};
ghost use Rattle.cell_runs.specs.Inputs.{AreLines, WritesError, operator_line};
ghost use Rattle.cell_method.specs.Conversations.{KeepsWriter};
ghost use Rattle.cell_method.specs.Lines.{lines_left};
ghost use Rattle.cell_drive.specs.Drives.{DrivesBy, DrivesTexts, EndStatus, drive_line};
ghost use Rattle.cell_drive.specs.Raw.{DrivesRaw};

use crate::begun::{begin_from, refuse_journal, world_from};
use crate::by_commands::{drive_commands, raw_script};
use crate::by_entries::drive_entries;
use cell_journal::Journal;
use cell_method::{Conversation, DriveEnd, DriveError, LineReader};
use cell_output::{WatchedWriter, WriteFault, status};
use cell_ports::Plan;
use cell_rows::TellsFault;
use cell_runs::{InputError, Inputs, Texts, read_inputs, refuse_input};
use operator_desk::ScriptError;
use std::io;
use std::io::Write;
use std::sync::Wait;

/// How a method drives the cell, from where, and what is told besides.
#[derive(Clone, Copy, Debug)]
pub struct DriveOptions<'a> {
    /// Whether it sends commands to the bare machines, and books no entries.
    pub raw: bool,
    /// Whether the journal is written to the errors at the end.
    pub journal: bool,
    /// Whether the first of each thing that went wrong is told to the errors.
    pub explain: bool,
    /// The journal that left the cell where the run begins; where there is none, it begins at the opening.
    pub from: Option<&'a Journal>,
}

/// The errors of a run, and what is told to them at its end.
#[derive(Drop)]
pub(crate) struct Told<'a, E> {
    pub(crate) errors: &'a mut E,
    pub(crate) journal: bool,
    pub(crate) explain: bool,
}

/// The status of a run that ended so, and in which all was in order or not.
pub(crate) fn status_of(end: DriveEnd, is_in_order: bool) -> u8
    ensures ended { EndStatus end result }
    ensures memory { end ≡ DriveEnd.Memory → result ≡ 4 }
    ensures order { result ≡ 0 → IsTrue is_in_order }
    ensures success { end ≡ DriveEnd.Finished → IsTrue is_in_order → result ≡ 0 }
{
    match end {
        DriveEnd::Memory => status::OUT_OF_MEMORY,
        DriveEnd::Finished if is_in_order => status::SUCCESS,
        _ => status::REFUSED,
    }
}

// The status of a run, which is its error's where it broke off, unless the writer failed.
fn ended(ran: Result<u8, DriveError>) -> Result<u8, WriteFault>
    ensures { IfOk result (λ status. status < 3 → ran ≡ Ok status) }
{
    match ran {
        Ok(status) => Ok(status),
        Err(DriveError::ReadFault) => Ok(status::DEVICE_FAULT),
        Err(DriveError::WriteFault) => Err(WriteFault),
        Err(DriveError::OutOfMemory) => Ok(status::OUT_OF_MEMORY),
    }
}

// Tells that the operator's script can't be read, and gives the status.
fn refuse_script<W: Write>(
    writer: &mut WatchedWriter<'_, W>,
    error: ScriptError,
) -> Result<u8, DriveError>
    ensures { IfOk result (WritesError (bytes_held W.contents writer.old) (bytes_held W.contents writer.new)
        (operator_line error) (script_status error)) }
{
    match refuse_input(writer, InputError::Operator(error)) {
        Ok(status) => Ok(status),
        Err(_) => Err(DriveError::WriteFault),
    }
}

// Lets a method drive the cell by commands, or tells what is wrong with the operator's script or the journal.
fn drive_raw<R: AllocGlobal + Wait, I: TellsFault, W: Write, E: Write>(
    rt: &R,
    inputs: &Inputs,
    operator: &[u8],
    from: Option<&Journal>,
    method: &mut Conversation<'_, I, WatchedWriter<'_, W>>,
    told: Told<'_, E>,
) -> Result<u8, DriveError>
    requires { AreLines operator.now inputs.now.script }
    ensures run { IfOk result (λ status. status < 3
        → DrivesRaw inputs.now (option_map (λ j. j.now.entries) from.entry) (lines_left I.remaining method.old.lines)
        (bytes_held W.contents method.old.writer.now) (bytes_held W.contents method.new.writer.now) status) }
    ensures writer { KeepsWriter method.old method.new }
{
    let script = match raw_script(rt.alloc(), operator) {
        Ok(script) => script,
        Err(error) => return refuse_script(method.writer, error),
    };
    let world = match world_from(rt.alloc(), inputs, from) {
        Ok(world) => world,
        Err(error) => return refuse_journal(method.writer, error),
    };
    begin_from(method.writer, &inputs.plan, from)?;
    drive_commands(rt.alloc(), inputs, script, world, method, told)
}

// Lets a method drive the cell by commands or by entries.
fn drive_by<R: AllocGlobal + Wait, I: TellsFault, W: Write, E: Write>(
    rt: &R,
    inputs: Inputs,
    operator: &[u8],
    driving: DriveOptions<'_>,
    method: &mut Conversation<'_, I, WatchedWriter<'_, W>>,
    told: Told<'_, WatchedWriter<'_, E>>,
) -> Result<u8, DriveError>
    requires { AreLines operator.now inputs.script }
    ensures run { IfOk result (λ status. status < 3
        → DrivesBy driving.entry.raw inputs (option_map (λ j. j.now.entries) driving.entry.from)
        (lines_left I.remaining method.old.lines) (bytes_held W.contents method.old.writer.now)
        (bytes_held W.contents method.new.writer.now) status) }
    ensures writer { KeepsWriter method.old method.new }
{
    if driving.raw {
        drive_raw(rt, &inputs, operator, driving.from, method, told)
    } else {
        drive_entries(rt, inputs, driving.from, method, told)
    }
}

/// Begins the protocol.
pub(crate) fn begin<W: Write>(output: &mut W, plan: &Plan) -> io::Result<()>
    ensures { OnOk result (Appends (W.contents output.old) (W.contents output.new) (drive_line plan.now)) }
{
    writeln!(output, "drive,1,{},", plan.plates)
}

/// Writes what is told of a run, and flushes the writer.
pub(crate) fn write_told<W: Write>(
    output: &mut WatchedWriter<'_, W>,
    text: &[u8],
) -> Result<(), DriveError>
    ensures { OnOk result (Appends (bytes_held W.contents output.old) (bytes_held W.contents output.new) text.now) }
{
    if output.write_bytes(text).is_err() {
        return Err(DriveError::WriteFault);
    }
    output.flush()?;
    Ok(())
}

/// Reads the texts of a run, the settings, the script of faults and the operator's script, and lets a method drive the
/// simulated cell by the lines that it reads and writes; gives the exit status.
///
/// The first text that is refused is told as by `run_texts`, and nothing of the protocol is written. So it is where an
/// entry of the journal from which the run goes on isn't within the settings' limits, as by an audit. A reader that
/// fails ends the run with status 3. Want of memory before the first round gives status 4 with nothing more written.
pub fn drive_texts<R: AllocGlobal + Wait, I: TellsFault + Drop, W: Write, E: Write>(
    rt: &R,
    texts: Texts<'_>,
    driving: DriveOptions<'_>,
    input: I,
    output: &mut WatchedWriter<'_, W>,
    errors: &mut WatchedWriter<'_, E>,
) -> Result<u8, WriteFault>
    // What is written is of the first text that is refused, of the journal's first entry that the settings' limits
    // refuse, of a run by entries within these limits that goes on from the journal, where there is one, or of a run by
    // commands in a world that the journal left.
    ensures { IfOk result (DrivesTexts texts.entry.settings.now texts.entry.faults.now texts.entry.operator.now
        driving.entry.raw (option_map (λ j. j.now.entries) driving.entry.from) (I.remaining input)
        (bytes_held W.contents output.old) (bytes_held W.contents output.new)) }
{
    let inputs = match read_inputs(rt.alloc(), texts) {
        Ok(inputs) => inputs,
        Err(error) => return refuse_input(output, error),
    };
    let lines = LineReader::new(input);
    let mut method = Conversation {
        lines,
        writer: output,
    };
    let told = Told {
        errors,
        journal: driving.journal,
        explain: driving.explain,
    };
    let ran = drive_by(rt, inputs, texts.operator, driving, &mut method, told);
    // The writer is given back, and what was read ahead is dropped.
    let Conversation {
        lines,
        writer: _output,
    } = method;
    drop(lines);
    ended(ran)
}
