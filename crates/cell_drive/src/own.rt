//! The program's own machine workers, measured as a method is.
ghost use Rattle.std.specs.Prelude.{◌≡◌, ◌⊎◌, [], IfOk, IsErr, true};
ghost use Rattle.cell_output.specs.Watched.{IsSameWriter, bytes_held, has_refused};
ghost use Rattle.cell_runs.specs.Runs.{LacksThread, kept_of, kept_run, limits_of};
ghost use Rattle.cell_drive.specs.Gauged.{IsGauged, PartOfGauged, WritesGauged};
ghost use Rattle.cell_drive.specs.Measured.{KeepsMeasured, PartBehind, PartOfMeasured, PartOfMeasures, TellsMeasures};
ghost use Rattle.cell_drive.specs.Measured.{WithMeasures};

use crate::gauged::GaugedPlant;
use cell_ledger::Blanks;
use cell_output::{WatchedWriter, WriteFault, status};
use cell_ports::Plan;
use cell_runs::{
    Inputs, KeptRun, Left, Outcome, Texts, empty_book, keep_outcome, read_inputs, refuse_input,
    run_over,
};
use cell_sim::World;
use operator_desk::Script;
use std::alloc::{AllocError, Global};
use std::io::Write;
use std::marker::Brand;

// Runs the machines' own workers in rounds over a cell that is measured, with an empty book.
fn run_own(
    alloc: Global,
    cell: &mut GaugedPlant<'_>,
    script: Script,
    plan: &Plan,
) -> Result<Outcome, AllocError>
    ensures { IfOk result (λ outcome. IsGauged (limits_of plan.now) plan.now cell.old [] script cell.new
        outcome.book.entries outcome.end) }
{
    let book = empty_book(alloc, plan)?;
    Ok(run_over::<_, Brand>(alloc, book, Blanks::new(1), cell, script, plan))
}

// Writes the measures of a run that was written with this status, unless memory was refused for either, and gives the
// status of both.
fn tell_measures<W: Write>(
    alloc: Global,
    cell: &mut GaugedPlant<'_>,
    run: &KeptRun,
    status: u8,
    writer: &mut WatchedWriter<'_, W>,
) -> Result<u8, WriteFault>
    ensures writer { IsSameWriter writer.old writer.new }
    ensures whole { IfOk result (TellsMeasures (kept_run run.now) status (bytes_held W.contents writer.old)
        (bytes_held W.contents writer.new)) }
    ensures part { IsErr result → PartOfMeasures (kept_run run.now) status (bytes_held W.contents writer.old)
        (bytes_held W.contents writer.new) }
    ensures fault { IsErr result → has_refused writer.new ≡ true }
{
    if status == status::OUT_OF_MEMORY {
        return Ok(status);
    }
    let Some(text) = cell.measured(alloc, &run.journal) else {
        return Ok(status::OUT_OF_MEMORY);
    };
    writer.write_bytes(text.as_slice())?;
    Ok(status)
}

// Runs the machines' own workers over a new watched world, writes what comes of it and then its measures, and keeps the
// run.
fn write_measured<W: Write>(
    alloc: Global,
    inputs: Inputs,
    journal: bool,
    writer: &mut WatchedWriter<'_, W>,
) -> Result<(u8, Left), WriteFault>
    ensures writer { IsSameWriter writer.old writer.new }
    ensures whole { IfOk result (λ ran. WithMeasures (WritesGauged journal inputs)
        (bytes_held W.contents writer.old) (bytes_held W.contents writer.new) ran.0 (kept_of ran.1)) }
    ensures thread { IfOk result (λ ran. LacksThread ran.1 (bytes_held W.contents writer.old)
        (bytes_held W.contents writer.new) ran.0) }
    ensures part { IsErr result
        → PartOfGauged journal inputs (bytes_held W.contents writer.old) (bytes_held W.contents writer.new)
        ⊎ PartBehind (WritesGauged journal inputs) (bytes_held W.contents writer.old)
        (bytes_held W.contents writer.new) }
    ensures fault { IsErr result → has_refused writer.new ≡ true }
{
    let Inputs {
        plan,
        faults,
        script,
        durations,
    } = inputs;
    let world = World::watched(plan.plates).with_durations(durations);
    let mut cell = GaugedPlant::new(alloc, world, &faults, durations);
    match run_own(alloc, &mut cell, script, &plan) {
        Ok(outcome) => {
            let (status, run) = keep_outcome(alloc, outcome, plan, journal, writer)?;
            let both = tell_measures(alloc, &mut cell, &run, status, writer)?;
            Ok((both, Left::Run(run)))
        }
        Err(AllocError) => Ok((status::OUT_OF_MEMORY, Left::Nothing)),
    }
}

/// Reads the texts of a run and runs the machines' own workers in rounds, as `run_kept` does, in a watched cell.
/// It writes what `run_kept` writes, and behind it the measures that `drive_texts` tells of a method. It gives the exit
/// status and what the run left.
///
/// Where memory is refused for the run, its measures aren't written; where it is refused for the measures alone,
/// nothing of them is, and the status is 4. Texts of which one is refused have no measures.
pub fn run_measured<W: Write>(
    alloc: Global,
    texts: Texts<'_>,
    journal: bool,
    writer: &mut WatchedWriter<'_, W>,
) -> Result<(u8, Left), WriteFault>
    ensures writer { IsSameWriter writer.old writer.new }
    // What is written is of the first text that is refused, or of a run of the watched cell, up to some point, and
    // behind it the measures of the journal that is kept.
    ensures whole { IfOk result (λ ran. KeepsMeasured texts.entry.durations texts.entry.settings.now
        texts.entry.faults.now texts.entry.operator.now journal (bytes_held W.contents writer.old)
        (bytes_held W.contents writer.new) ran.0 (kept_of ran.1)) }
    // That a thread could not be started is told only where nothing was written, with status 4.
    ensures thread { IfOk result (λ ran. LacksThread ran.1 (bytes_held W.contents writer.old)
        (bytes_held W.contents writer.new) ran.0) }
    // Where the writer failed, a first part of that was written.
    ensures part { IsErr result → PartOfMeasured texts.entry.durations texts.entry.settings.now
        texts.entry.faults.now texts.entry.operator.now journal (bytes_held W.contents writer.old)
        (bytes_held W.contents writer.new) }
    // It answers that the writer failed only where a write was refused.
    ensures fault { IsErr result → has_refused writer.new ≡ true }
{
    match read_inputs(alloc, texts) {
        Ok(inputs) => write_measured(alloc, inputs, journal, writer),
        Err(error) => Ok((refuse_input(writer, error)?, Left::Nothing)),
    }
}
