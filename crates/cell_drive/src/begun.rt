//! What a run begins with where it goes on from a journal.
ghost use Rattle.std.specs.Prelude.{◌≡◌, Err, IfErr, IfOk, OnOk, option_map};
ghost use Rattle.std.specs.Io.KnownBytes.{Appends};
ghost use Rattle.cell_audit.specs.Lines.{WritesAnswer};
ghost use Rattle.cell_output.specs.Watched.{IsSameWriter, bytes_held};
ghost use Rattle.cell_runs.specs.Runs.{limits_of};
ghost use Rattle.cell_sim.specs.Looks.{with_watch};
ghost use Rattle.cell_sim.specs.Takeover.{left_by};
ghost use Rattle.cell_drive.specs.Raw.{HasNoWorld, first_lines, world_in};

use crate::texts::begin;
use cell_audit::{AuditError, write_answer};
use cell_journal::Journal;
use cell_measures::Durations;
use cell_method::{DriveError, tell_entries};
use cell_output::WatchedWriter;
use cell_ports::Plan;
use cell_runs::{Inputs, book_after};
use cell_sim::World;
use plate_book::Book;
use std::alloc::Global;
use std::io;
use std::io::Write;

/// The simulated cell where a book's journal left it, with motions of these durations. It is watched from then on.
pub(crate) fn world_after(book: &Book, plan: &Plan, durations: Durations) -> World
    ensures { result ≡ with_watch (left_by book.now.entries plan.now.plates durations) }
{
    World::from_book(book, plan.plates, &durations).with_watch()
}

/// The watched world in which a run by commands begins: at the opening, or where a journal left the cell.
pub(crate) fn world_from(
    alloc: Global,
    inputs: &Inputs,
    from: Option<&Journal>,
) -> Result<World, AuditError>
    ensures world { IfOk result (λ world. world
        ≡ world_in inputs.now (option_map (λ j. j.now.entries) from.entry)) }
    ensures refused { IfErr result (HasNoWorld (limits_of inputs.now.plan)
        (option_map (λ j. j.now.entries) from.entry)) }
{
    let Some(journal) = from else {
        return Ok(World::watched(inputs.plan.plates).with_durations(inputs.durations));
    };
    match book_after(alloc, &inputs.plan, journal) {
        Ok(book) => Ok(world_after(&book, &inputs.plan, inputs.durations)),
        Err(error) => Err(error),
    }
}

/// Begins the protocol, and tells the journal from which a run goes on.
pub(crate) fn begin_from<W: Write>(
    writer: &mut W,
    plan: &Plan,
    from: Option<&Journal>,
) -> io::Result<()>
    ensures { OnOk result (Appends (W.contents writer.old) (W.contents writer.new)
        (first_lines plan.now (option_map (λ j. j.now.entries) from.entry))) }
{
    begin(writer, plan)?;
    match from {
        Some(journal) => tell_entries(writer, journal),
        None => Ok(()),
    }
}

/// Tells that an entry of a journal isn't within the limits of a run, and gives the status.
pub(crate) fn refuse_journal<W: Write>(
    writer: &mut WatchedWriter<'_, W>,
    error: AuditError,
) -> Result<u8, DriveError>
    ensures { IfOk result (WritesAnswer (bytes_held W.contents writer.old) (bytes_held W.contents writer.new)
        (Err error)) }
{
    match write_answer(writer, Err(error)) {
        Ok(status) => Ok(status),
        Err(_) => Err(DriveError::WriteFault),
    }
}
