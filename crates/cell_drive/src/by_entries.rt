//! A run by entries.
ghost use Rattle.std.specs.Prelude.{◌≡◌, ◌≢◌, ◌<◌, ℕ, List, IfOk, IsErrOf, IsTrue, Ok, OnOk, true};
ghost use Rattle.std.specs.Prelude.{option_map};
ghost use Rattle.std.specs.Io.KnownBytes.{Appends};
ghost use Rattle.cell_audit.specs.Text.{text_of};
ghost use Rattle.cell_output.specs.Watched.{IsSameWriter, bytes_held, has_refused};
ghost use Rattle.cell_runs.specs.Runs.{limits_of};
ghost use Rattle.cell_method.specs.Conversations.{KeepsWriter};
ghost use Rattle.cell_method.specs.Lines.{lines_left};
ghost use Rattle.cell_drive.specs.Drives.{DrivesEntries, DrivesFrom, EndStatus, TellsEnd};

use crate::begun::{refuse_journal, world_after};
use crate::looker::Looker;
use crate::report::{
    end_text, explain_broken, explain_unread, explain_untrue, write_refusals, write_times,
    write_world,
};
use crate::texts::{Told, begin, status_of, write_told};
use cell_audit::{WriteError, write_journal_watched};
use cell_journal::Journal;
use cell_measures::Durations;
use cell_method::{Conversation, DriveEnd, DriveError, drive, tell_entries};
use cell_output::WatchedWriter;
use cell_plant::Ported;
use cell_rows::TellsFault;
use cell_runs::{Inputs, book_after, empty_book, sim_ports};
use cell_sim::{SimOperator, World};
use plate_book::Book;
use std::alloc::Global;
use std::io;
use std::io::Write;
use std::sync::{Mutex, Wait};

// How a run ended, or the error of a device by which it broke off. Want of memory is an end.
fn end_of(ran: Result<DriveEnd, DriveError>, lacks_memory: bool) -> Result<DriveEnd, DriveError>
    ensures { IfOk result (λ end. end ≢ DriveEnd.Memory → ran ≡ Ok end) }
{
    match ran {
        Ok(_) if lacks_memory => Ok(DriveEnd::Memory),
        Ok(end) => Ok(end),
        Err(DriveError::OutOfMemory) => Ok(DriveEnd::Memory),
        Err(error) => Err(error),
    }
}

// What is told of a run that ended so.
fn told_of<R: Wait>(
    alloc: Global,
    end: DriveEnd,
    book: &Book,
    looker: &mut Looker<'_, R>,
    durations: &Durations,
) -> io::Result<Vec<u8>>
    ensures { IfOk result (λ text. TellsEnd end book.now.entries text.items) }
{
    let mut told = end_text(alloc, end, book.totals())?;
    let measures = measures_of(alloc, book, looker, durations)?;
    told.extend_from_slice(measures.as_slice())?;
    Ok(told)
}

// What is told of a run below its end and what it counted.
fn measures_of<R: Wait>(
    alloc: Global,
    book: &Book,
    looker: &mut Looker<'_, R>,
    durations: &Durations,
) -> io::Result<Vec<u8>> {
    let mut text = Vec::new(alloc);
    let world = looker.world.lock(looker.rt);
    writeln!(text, "rounds {}", looker.measures.rounds())?;
    writeln!(text, "entries {}", book.totals().entries)?;
    write_refusals(&mut text, &looker.refusals)?;
    writeln!(text, "collisions {}", world.collisions())?;
    writeln!(text, "untrue {}", looker.untruths.count())?;
    write_world(&mut text, &world, &mut looker.measures)?;
    write_times(alloc, &mut text, book.journal(), durations)?;
    Ok(text)
}

// Whether nothing untrue was booked, and no safety rule was broken.
fn is_in_order<R: Wait>(looker: &Looker<'_, R>) -> bool {
    looker.untruths.count() == 0 && looker.world.lock(looker.rt).is_safe()
}

// Explains what couldn't be read, and what was untrue and broken in a run.
fn explain<R: Wait, E: Write>(looker: &Looker<'_, R>, errors: &mut E) -> io::Result<()> {
    explain_unread(errors, looker.unread)?;
    explain_untrue(errors, &looker.untruths.firsts)?;
    explain_broken(errors, &looker.world.lock(looker.rt))
}

// Writes a run's journal, where it is wanted.
fn write_wanted<E: Write>(
    alloc: Global,
    wanted: bool,
    journal: &Journal,
    errors: &mut WatchedWriter<'_, E>,
) -> Result<(), DriveError>
    ensures writer { IsSameWriter errors.old errors.new }
    ensures whole { OnOk result (IsTrue wanted → Appends (bytes_held E.contents errors.old)
        (bytes_held E.contents errors.new) (text_of journal.now.entries)) }
    // It answers that the writer failed only where a write was refused.
    ensures fault { IsErrOf result DriveError.WriteFault → has_refused errors.new ≡ true }
{
    if !wanted {
        return Ok(());
    }
    match write_journal_watched(alloc, journal, errors) {
        Ok(()) => Ok(()),
        Err(WriteError::WriteFault) => Err(DriveError::WriteFault),
        Err(WriteError::OutOfMemory) => Err(DriveError::OutOfMemory),
    }
}

// Tells what came of a run that ended so, and gives its status.
fn tell_run<R: AllocGlobal + Wait, W: Write, E: Write>(
    end: DriveEnd,
    book: &Book,
    looker: &mut Looker<'_, R>,
    durations: &Durations,
    writer: &mut WatchedWriter<'_, W>,
    told: Told<'_, WatchedWriter<'_, E>>,
) -> Result<u8, DriveError>
    ensures told { OnOk result ((text : List ℕ) × TellsEnd end book.now.entries text
        × Appends (bytes_held W.contents writer.old) (bytes_held W.contents writer.new) text) }
    ensures status { IfOk result (EndStatus end) }
    ensures memory { IfOk result (λ status. status < 3 → end ≢ DriveEnd.Memory) }
{
    let alloc = looker.rt.alloc();
    let status = status_of(end, is_in_order(looker));
    let Ok(text) = told_of(alloc, end, book, looker, durations) else {
        return Err(DriveError::OutOfMemory);
    };
    write_told(writer, text.as_slice())?;
    if told.explain {
        explain(looker, told.errors)?;
    }
    write_wanted(alloc, told.journal, book.journal(), told.errors)?;
    Ok(status)
}

// Lets a method drive the simulated cell by entries from where a book and a world are, tells what came of it, and gives
// the status.
fn drive_on<R: AllocGlobal + Wait, I: TellsFault, W: Write, E: Write>(
    rt: &R,
    inputs: Inputs,
    mut book: Book,
    world: World,
    method: &mut Conversation<'_, I, WatchedWriter<'_, W>>,
    told: Told<'_, WatchedWriter<'_, E>>,
) -> Result<u8, DriveError>
    requires { book.limits ≡ limits_of inputs.plan }
    ensures run { IfOk result (λ status. status < 3
        → DrivesEntries inputs.plan inputs.script book.entries (lines_left I.remaining method.old.lines)
        (bytes_held W.contents method.old.writer.now) (bytes_held W.contents method.new.writer.now) status) }
    ensures writer { KeepsWriter method.old method.new }
{
    let Inputs {
        plan,
        faults,
        script,
        durations,
    } = inputs;
    let world = Mutex::new(world);
    let mut cell = Ported {
        ports: sim_ports(rt, &world, &faults),
        hands: SimOperator::new(rt, &world),
    };
    let mut looker = Looker::new(rt.alloc(), rt, &world);
    begin(method.writer, &plan)?;
    tell_entries(method.writer, book.journal())?;
    let ran = drive(method, &mut book, &mut cell, script, &plan, &mut looker);
    let end = end_of(ran, looker.lacks_memory())?;
    tell_run(end, &book, &mut looker, &durations, method.writer, told)
}

/// Lets a method drive the simulated cell by entries, from the opening or from where a journal left it, tells what came
/// of it, and gives the status; or tells which entry of the journal the plan's limits refuse.
pub(crate) fn drive_entries<R: AllocGlobal + Wait, I: TellsFault, W: Write, E: Write>(
    rt: &R,
    inputs: Inputs,
    from: Option<&Journal>,
    method: &mut Conversation<'_, I, WatchedWriter<'_, W>>,
    told: Told<'_, WatchedWriter<'_, E>>,
) -> Result<u8, DriveError>
    ensures run { IfOk result (λ status. status < 3
        → DrivesFrom inputs.plan inputs.script (option_map (λ j. j.now.entries) from.entry)
        (lines_left I.remaining method.old.lines) (bytes_held W.contents method.old.writer.now)
        (bytes_held W.contents method.new.writer.now) status) }
    ensures writer { KeepsWriter method.old method.new }
{
    let Some(journal) = from else {
        let Ok(book) = empty_book(rt.alloc(), &inputs.plan) else {
            return Err(DriveError::OutOfMemory);
        };
        let world = World::watched(inputs.plan.plates).with_durations(inputs.durations);
        return drive_on(rt, inputs, book, world, method, told);
    };
    match book_after(rt.alloc(), &inputs.plan, journal) {
        Ok(book) => {
            let world = world_after(&book, &inputs.plan, inputs.durations);
            drive_on(rt, inputs, book, world, method, told)
        }
        Err(error) => refuse_journal(method.writer, error),
    }
}
