//! A run by its texts.
ghost use Rattle.std.specs.Prelude.{◌≡◌, ◌↔◌, IfOk, IsErr, None, true};
ghost use Rattle.cell_rules.specs.Views.{count_of};
ghost use Rattle.cell_output.specs.Watched.{IsSameWriter, WritesPart, bytes_held, has_refused};
ghost use Rattle.cell_sim.specs.Simulated.{one_each};
ghost use Rattle.cell_runs.specs.Runs.{KeepsRun, LacksThread, PartOfReport, PartOfRounds, PrintsOrStops, TellsPart};
ghost use Rattle.cell_runs.specs.Runs.{TellsRun, WritesReport, WritesRounds, kept, kept_of, kept_run, limits_of};
ghost use Rattle.cell_runs.specs.Runs.{mode_of, shown};

use crate::inputs::{Inputs, Texts, read_inputs};
use crate::ports::sim_ports;
use crate::refused::refuse_input;
use crate::report::{write_outcome, write_report, write_run_error};
use crate::rounds::Outcome;
use crate::simulation::simulate;
use cell_journal::Journal;
use cell_output::{WatchedWriter, WriteFault, status};
use cell_sim::{SimOperator, World};
use cell_workers::{End, Plan, Report, RunError, run_cell};
use sim_plant::SimPlant;
use std::alloc::{AllocError, Global};
use std::io::Write;
use std::sync::{Mutex, Wait};
use std::thread::Threads;

/// How a run is led.
#[derive(Clone, Copy, Debug, PartialEq, Eq)]
pub enum Mode {
    /// In rounds, on one thread.
    Rounds,
    /// By seven workers, each on a thread of its own.
    Threads,
}

/// What is kept of a run: its journal, how it ended, and what it was to do.
#[derive(Drop)]
pub struct KeptRun {
    pub journal: Journal,
    pub end: End,
    pub plan: Plan,
}

/// What a run leaves besides what is written of it.
#[derive(Drop)]
pub enum Left {
    /// The run.
    Run(KeptRun),
    /// No run, since no thread could be started for a worker.
    NoThread,
    /// No run: a text is refused, memory was refused before there was one, or an actor's entries in its journal aren't
    /// its worker's.
    Nothing,
}

// What is left where there is no report of a run.
fn left_by(error: RunError) -> Left
    ensures run { kept_of result ≡ None }
    ensures thread { (result ≡ Left.NoThread) ↔ (error ≡ RunError.ThreadRefused) }
{
    match error {
        RunError::ThreadRefused => Left::NoThread,
        RunError::OutOfMemory | RunError::JournalDisagrees => Left::Nothing,
    }
}

/// Writes what comes of a run on one thread by this plan, as `run_kept` does in rounds, gives the exit status and keeps
/// the run.
pub fn keep_outcome<W: Write>(
    alloc: Global,
    outcome: Outcome,
    plan: Plan,
    journal: bool,
    writer: &mut WatchedWriter<'_, W>,
) -> Result<(u8, KeptRun), WriteFault>
    ensures writer { IsSameWriter writer.old writer.new }
    ensures run { IfOk result (λ ran. kept_run ran.1 ≡ kept outcome.book.entries outcome.end plan) }
    // What is written is of this outcome.
    ensures whole { IfOk result (λ ran. PrintsOrStops journal outcome.end (count_of outcome.book.entries)
        outcome.book.entries (bytes_held W.contents writer.old) (bytes_held W.contents writer.new) ran.0) }
    // Where the writer failed, a first part of that was written.
    ensures part { IsErr result → WritesPart (bytes_held W.contents writer.old) (bytes_held W.contents writer.new)
        (shown journal outcome.end (count_of outcome.book.entries) outcome.book.entries) }
    // It answers that the writer failed only where a write was refused.
    ensures fault { IsErr result → has_refused writer.new ≡ true }
{
    let status = write_outcome(alloc, &outcome, journal, writer)?;
    let Outcome { book, end } = outcome;
    let journal = book.into_journal();
    Ok((status, KeptRun { journal, end, plan }))
}

// Runs the simulated cell over a new world in rounds, writes what comes of it, and keeps the run.
fn write_rounds<W: Write>(
    alloc: Global,
    inputs: Inputs,
    journal: bool,
    writer: &mut WatchedWriter<'_, W>,
) -> Result<(u8, Left), WriteFault>
    ensures writer { IsSameWriter writer.old writer.new }
    ensures whole { IfOk result (λ ran. WritesRounds journal inputs (bytes_held W.contents writer.old)
        (bytes_held W.contents writer.new) ran.0 (kept_of ran.1)) }
    ensures thread { IfOk result (λ ran. LacksThread ran.1 (bytes_held W.contents writer.old)
        (bytes_held W.contents writer.new) ran.0) }
    ensures part { IsErr result → PartOfRounds journal inputs (bytes_held W.contents writer.old)
        (bytes_held W.contents writer.new) }
    ensures fault { IsErr result → has_refused writer.new ≡ true }
{
    let Inputs {
        plan,
        faults,
        script,
        durations,
    } = inputs;
    let world = World::new(plan.plates).with_durations(durations);
    let mut cell = SimPlant::new(world, &faults);
    match simulate(alloc, &mut cell, script, &plan) {
        Ok(outcome) => {
            let (status, run) = keep_outcome(alloc, outcome, plan, journal, writer)?;
            Ok((status, Left::Run(run)))
        }
        Err(AllocError) => Ok((status::OUT_OF_MEMORY, Left::Nothing)),
    }
}

// Runs the simulated cell over a new world by workers on threads, writes what comes of it, and keeps the run.
fn write_threads<R: AllocGlobal + Threads + Wait + Sync, W: Write>(
    rt: &R,
    inputs: Inputs,
    journal: bool,
    writer: &mut WatchedWriter<'_, W>,
) -> Result<(u8, Left), WriteFault>
    ensures writer { IsSameWriter writer.old writer.new }
    ensures whole { IfOk result (λ ran. WritesReport journal inputs.plan inputs.script
        (bytes_held W.contents writer.old) (bytes_held W.contents writer.new) ran.0 (kept_of ran.1)) }
    ensures thread { IfOk result (λ ran. LacksThread ran.1 (bytes_held W.contents writer.old)
        (bytes_held W.contents writer.new) ran.0) }
    ensures part { IsErr result → PartOfReport journal (limits_of inputs.plan) inputs.script
        (bytes_held W.contents writer.old) (bytes_held W.contents writer.new) }
    ensures fault { IsErr result → has_refused writer.new ≡ true }
{
    let Inputs {
        plan,
        faults,
        script,
        durations,
    } = inputs;
    let alloc = rt.alloc();
    let world = Mutex::new(World::new(plan.plates).with_durations(durations));
    let mut ports = sim_ports(rt, &world, &faults);
    let mut hands = SimOperator::new(rt, &world);
    match run_cell(rt, alloc, &mut ports, &mut hands, script, &plan) {
        Ok(report) => {
            let status = write_report(alloc, &report, journal, writer)?;
            let Report { journal, end, .. } = report;
            Ok((status, Left::Run(KeptRun { journal, end, plan })))
        }
        Err(error) => Ok((write_run_error(writer, error)?, left_by(error))),
    }
}

/// Reads the texts of a run, the settings, the script of faults and the operator's script, runs the simulated cell,
/// writes what comes of it, and gives the exit status and what the run left.
///
/// The first text that is refused, in that order, is told in one line: `settings` as by `check_lines`, `faults
/// unreadable I`, `faults too long`, `operator unreadable I` or `operator too long`, status 1. A run gives the line
/// `finished` (status 0), `stalled`, `turn limit`, `full` (1) or `memory` (4) and then the lines `admitted`, `forged`,
/// `quarantined` and `delivered`, each with its number; with `journal` its journal's text alone. On threads the line
/// `journal disagrees` (1) is told alone where an actor's entries in the journal aren't its worker's. Where memory is
/// refused before the run, or a thread, nothing is written, status 4; where it is refused while the journal's text is
/// written, a first part of that text was, status 4.
///
/// On threads no clause says that a run which is told as `finished` is.
pub fn run_kept<R: AllocGlobal + Threads + Wait + Sync, W: Write>(
    rt: &R,
    texts: Texts<'_>,
    mode: Mode,
    journal: bool,
    writer: &mut WatchedWriter<'_, W>,
) -> Result<(u8, Left), WriteFault>
    ensures writer { IsSameWriter writer.old writer.new }
    // What is written is of the first text that is refused, or of a run within the settings' limits. The journal, the
    // end and the plan are those of the run which was written.
    ensures whole { IfOk result (λ ran. KeepsRun texts.entry.durations texts.entry.settings.now texts.entry.faults.now
        texts.entry.operator.now mode journal (bytes_held W.contents writer.old) (bytes_held W.contents writer.new)
        ran.0 (kept_of ran.1)) }
    // That a thread could not be started is told only where nothing was written, with status 4.
    ensures thread { IfOk result (λ ran. LacksThread ran.1 (bytes_held W.contents writer.old)
        (bytes_held W.contents writer.new) ran.0) }
    // Where the writer failed, a first part of that was written.
    ensures part { IsErr result → TellsPart texts.entry.durations texts.entry.settings.now texts.entry.faults.now
        texts.entry.operator.now mode journal (bytes_held W.contents writer.old) (bytes_held W.contents writer.new) }
    // It answers that the writer failed only where a write was refused.
    ensures fault { IsErr result → has_refused writer.new ≡ true }
{
    match read_inputs(rt.alloc(), texts) {
        Ok(inputs) => match mode {
            Mode::Rounds => write_rounds(rt.alloc(), inputs, journal, writer),
            Mode::Threads => write_threads(rt, inputs, journal, writer),
        },
        Err(error) => Ok((refuse_input(writer, error)?, Left::Nothing)),
    }
}

// How a run is led: on threads or not.
fn mode_of(threads: bool) -> Mode
    ensures { result ≡ mode_of threads }
{
    if threads { Mode::Threads } else { Mode::Rounds }
}

/// Runs the simulated cell by its texts, as `run_kept` does with motions that take one reading each, and gives the exit
/// status alone. With `threads` each machine's worker and the operator's run on threads of their own; else all take
/// turns in rounds on this one. That `WriteFault` comes only where a refused write was noted is a clause of `run_kept`,
/// of which this is the case of a new writer that notes.
pub fn run_texts<R: AllocGlobal + Threads + Wait + Sync, W: Write>(
    rt: &R,
    settings: &[u8],
    faults: &[u8],
    operator: &[u8],
    threads: bool,
    journal: bool,
    writer: &mut W,
) -> Result<u8, WriteFault>
    // What is written is of the first text that is refused, or of a run within the settings' limits.
    ensures whole { IfOk result (TellsRun one_each settings.now faults.now operator.now (mode_of threads) journal
        (W.contents writer.old) (W.contents writer.new)) }
    // Where the writer failed, a first part of that was written.
    ensures part { IsErr result → TellsPart one_each settings.now faults.now operator.now (mode_of threads) journal
        (W.contents writer.old) (W.contents writer.new) }
{
    let texts = Texts::new(settings, faults, operator);
    let mut writer = WatchedWriter::new(writer);
    let (status, _left) = run_kept(rt, texts, mode_of(threads), journal, &mut writer)?;
    Ok(status)
}
