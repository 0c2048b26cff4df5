//! The command that runs the simulated cell from where a journal left it.
ghost use Rattle.std.specs.Prelude.{ℕ, List};
ghost use Rattle.cell_output.specs.Watched.{bytes_held};
ghost use Rattle.cell_runs.specs.Told.{IsRead};
ghost use Rattle.cellctl.specs.Carried.{ContinuesFiles, GoesOnFiles, GoesOnTexts};
ghost use Rattle.cellctl.specs.Outcomes.{IfCarried, written_of};

use crate::orders::{Carried, Reading, Sources, sources_in, unless_refused, with_ending};
use cell_audit::Audited;
use cell_command::{Continuing, Running};
use cell_orders::{CommandError, book_in, wrong};
use cell_output::{WatchedWriter, WriteFault};
use cell_runs::run_after;
use std::alloc::Global;
use std::io::Write;
use std::rt::Files;

// Runs the simulated cell from a journal that was read on, by the texts of a run.
fn continue_sources<W: Write>(
    alloc: Global,
    output: &mut WatchedWriter<'_, W>,
    before: &Audited,
    running: Running<'_>,
    sources: Sources,
) -> Result<Carried, WriteFault>
    ensures { (text : List ℕ) → IsRead before.now text
        → GoesOnTexts running.entry.journal (bytes_held W.contents output.old)
        (bytes_held W.contents output.new) (written_of result) }
{
    let told = run_after(alloc, before, sources.texts(), running.journal, output);
    let entries = before.book.journal().len();
    with_ending(told, entries, running.explain, sources)
}

// Runs the simulated cell from the journal in a file on, by what the run's files say.
fn continue_files<'a, R: AllocGlobal + Files, W: Write>(
    rt: &R,
    output: &mut WatchedWriter<'_, W>,
    path: &'a str,
    running: Running<'a>,
) -> Result<Carried, CommandError<'a>>
    ensures { IfCarried result (GoesOnFiles running.entry (bytes_held W.contents output.old)
        (bytes_held W.contents output.new)) }
{
    let sources = match sources_in(rt, output, running)? {
        Reading::Fit(sources) => sources,
        Reading::Unfit(status) => return Ok(Carried::of(status)),
    };
    let before = book_in(rt, path)?;
    unless_refused(continue_sources(rt.alloc(), output, &before, running, sources))
}

/// Runs the simulated cell from where the journal in a file left it, by what the run's files say. They are all read
/// before any is judged, the journal last. Neither a journal to be followed nor measures go with it.
pub(crate) fn continue_words<'a, R: AllocGlobal + Files, W: Write, E: Write>(
    rt: &R,
    output: &mut WatchedWriter<'_, W>,
    errors: &mut E,
    continuing: Continuing<'a>,
) -> Result<Carried, CommandError<'a>>
    ensures { IfCarried result (ContinuesFiles continuing.entry (bytes_held W.contents output.old)
        (bytes_held W.contents output.new)
        (E.contents errors.old) (E.contents errors.new)) }
{
    if continuing.follow.is_some() {
        return Ok(Carried::of(wrong(errors, "--from doesn't go with --follow")?));
    }
    if continuing.measures {
        return Ok(Carried::of(wrong(errors, "--from doesn't go with --measures")?));
    }
    continue_files(rt, output, continuing.from, continuing.running)
}
