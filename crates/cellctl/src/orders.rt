//! What is done for an order, over any reader and writers.
ghost use Rattle.std.specs.Prelude.{◌≡◌, ℕ, List, Err, IfErr, IfOk, IfSome, Ok, Some};
ghost use Rattle.cell_output.specs.Watched.{bytes_held};
ghost use Rattle.cell_orders.specs.Commands.{outcome_of};
ghost use Rattle.cell_runs.specs.Told.{IsRead};
ghost use Rattle.cellctl.specs.Carried.{CarriesOut, FollowsFiles, FollowsTexts, MeasuresFiles, MeasuresRun};
ghost use Rattle.cellctl.specs.Carried.{MeasuresTexts, RunsFiles, RunsTexts, TellsUnfit};
ghost use Rattle.cellctl.specs.Outcomes.{IfCarried, IfFit, carried_outcome, unfit_outcome, written_of};

use crate::continued::continue_words;
use crate::control::control_words;
use crate::driven::drive_files;
use crate::least::run_least;
use crate::sweep::sweep_words;
use cell_audit::Audited;
use cell_command::{Order, Running};
use cell_drive::run_measured;
use cell_measures::Durations;
use cell_orders::{
    CommandError, audit_file, book_in, check_file, durations_in, events_words, explain_words,
    explore_words, measure_words, migrate_file, script_in, settings_in, show_words, tell_times,
    tell_too_long,
};
use cell_output::{WatchedWriter, WriteFault};
use cell_rows::TellsFault;
use cell_runs::{KeptRun, Left, Mode, Texts, follow_after, run_kept};
use std::alloc::Global;
use std::io::Write;
use std::rt::Files;
use std::sync::Wait;
use std::thread::Threads;

/// What was done for an order, of which no write was refused.
#[derive(Drop)]
pub(crate) struct Carried {
    /// The status.
    pub(crate) status: u8,
    /// The run whose end is to be explained.
    pub(crate) ending: Option<Ending>,
    /// Whether there is no run, since no thread could be started.
    pub(crate) lacks_thread: bool,
    /// Whether all that was written is written out, as far as anyone reads it.
    pub(crate) is_out: bool,
}

/// What is kept of a run, and its scripts.
#[derive(Drop)]
pub(crate) struct Ending {
    pub(crate) run: KeptRun,
    /// How many entries the journal had before the run.
    pub(crate) before: u32,
    pub(crate) faults: Vec<u8>,
    pub(crate) operator: Vec<u8>,
}

/// What a run's files say.
#[derive(Drop)]
pub(crate) struct Sources {
    pub(crate) settings: Vec<u8>,
    pub(crate) faults: Vec<u8>,
    pub(crate) operator: Vec<u8>,
    pub(crate) durations: Durations,
}

impl Sources {
    /// The texts of the run.
    pub(crate) fn texts(&self) -> Texts<'_>
        ensures settings { result.settings.now ≡ self.now.settings.items }
        ensures faults { result.faults.now ≡ self.now.faults.items }
        ensures operator { result.operator.now ≡ self.now.operator.items }
        ensures durations { result.durations ≡ self.now.durations }
    {
        Texts {
            settings: self.settings.as_slice(),
            faults: self.faults.as_slice(),
            operator: self.operator.as_slice(),
            durations: self.durations,
        }
    }
}

impl Carried {
    /// Nothing is to be explained of an order with this status.
    pub(crate) fn of(status: u8) -> Carried
        ensures { result.status ≡ status }
    {
        Carried {
            status,
            ending: None,
            lacks_thread: false,
            is_out: false,
        }
    }
}

/// What was done for an order, unless a write was refused.
pub(crate) fn unless_refused<'a>(
    done: Result<Carried, WriteFault>,
) -> Result<Carried, CommandError<'a>>
    ensures { carried_outcome result ≡ Some (written_of done) }
{
    Ok(done?)
}

// Nothing is to be explained of what a command ended with.
fn without_ending<'a>(told: Result<u8, CommandError<'a>>) -> Result<Carried, CommandError<'a>>
    ensures { carried_outcome result ≡ outcome_of told.entry }
{
    Ok(Carried::of(told?))
}

// The same, where what was written is written out.
fn written_out<'a>(told: Result<u8, CommandError<'a>>) -> Result<Carried, CommandError<'a>>
    ensures { carried_outcome result ≡ outcome_of told.entry }
{
    Ok(Carried {
        is_out: true,
        ..Carried::of(told?)
    })
}

/// What comes of reading the files of a run.
#[derive(Drop)]
pub(crate) enum Reading {
    Fit(Sources),
    /// The settings are too long or the durations are refused, which was told with this status.
    Unfit(u8),
}

/// Reads the files of a run, all before any is judged; or tells that the settings are too long or the durations are
/// refused.
pub(crate) fn sources_in<'a, R: AllocGlobal + Files, W: Write>(
    rt: &R,
    output: &mut WatchedWriter<'_, W>,
    running: Running<'a>,
) -> Result<Reading, CommandError<'a>>
    ensures same { IfOk result (λ reading. IfFit reading (output.new ≡ output.old)) }
    ensures unfit { IfSome (unfit_outcome result) (TellsUnfit running.entry.times (bytes_held W.contents output.old)
        (bytes_held W.contents output.new)) }
{
    let settings = settings_in(rt, running.paths.settings)?;
    let faults = script_in(rt, running.paths.faults)?.bytes;
    let operator = script_in(rt, running.paths.operator)?.bytes;
    let durations = durations_in(rt, running.times)?;
    let Some(settings) = settings else {
        return Ok(Reading::Unfit(tell_too_long(output)?));
    };
    match durations {
        Ok(durations) => Ok(Reading::Fit(Sources {
            settings,
            faults,
            operator,
            durations,
        })),
        Err(line) => Ok(Reading::Unfit(tell_times(output, line.as_str())?)),
    }
}

/// What was done where a run was written so, whose journal had so many entries before. Its end is to be explained, if
/// that is wanted and a run is left.
pub(crate) fn with_ending(
    ran: Result<(u8, Left), WriteFault>,
    before: u32,
    explain: bool,
    sources: Sources,
) -> Result<Carried, WriteFault>
    ensures ok { IfOk ran (λ told. written_of result ≡ Ok told.0) }
    ensures err { IfErr ran (λ e. written_of result ≡ Err e) }
{
    let (status, left) = ran?;
    let lacks_thread = matches!(&left, Left::NoThread);
    let Sources {
        faults,
        operator,
        ..
    } = sources;
    let ending = match left {
        Left::Run(run) if explain => Some(Ending {
            run,
            before,
            faults,
            operator,
        }),
        _ => None,
    };
    Ok(Carried {
        status,
        ending,
        lacks_thread,
        is_out: false,
    })
}

// Runs the simulated cell by its texts, on threads or in rounds.
fn run_sources<R: AllocGlobal + Threads + Wait + Sync, W: Write>(
    rt: &R,
    output: &mut WatchedWriter<'_, W>,
    mode: Mode,
    running: Running<'_>,
    sources: Sources,
) -> Result<Carried, WriteFault>
    ensures { RunsTexts mode running.entry.journal (bytes_held W.contents output.old)
        (bytes_held W.contents output.new) (written_of result) }
{
    let ran = run_kept(rt, sources.texts(), mode, running.journal, output);
    with_ending(ran, 0, running.explain, sources)
}

// Runs the simulated cell by what its files say, on threads or in rounds. The files are all read before any is judged.
fn run_files<'a, R: AllocGlobal + Files + Threads + Wait + Sync, W: Write>(
    rt: &R,
    output: &mut WatchedWriter<'_, W>,
    mode: Mode,
    running: Running<'a>,
) -> Result<Carried, CommandError<'a>>
    ensures { IfCarried result (RunsFiles mode running.entry (bytes_held W.contents output.old)
        (bytes_held W.contents output.new)) }
{
    match sources_in(rt, output, running)? {
        Reading::Fit(sources) => unless_refused(run_sources(rt, output, mode, running, sources)),
        Reading::Unfit(status) => Ok(Carried::of(status)),
    }
}

// Runs the simulated cell by its texts, and tells what is measured of it: of a run on threads by the journal that is
// left of it, of one in rounds in a cell that is watched.
fn run_with_measures<R: AllocGlobal + Threads + Wait + Sync, W: Write>(
    rt: &R,
    output: &mut WatchedWriter<'_, W>,
    mode: Mode,
    journal: bool,
    texts: Texts<'_>,
) -> Result<(u8, Left), WriteFault>
    ensures { IfOk result (λ ran. MeasuresRun mode texts.entry.durations texts.entry.settings.now
        texts.entry.faults.now texts.entry.operator.now journal (bytes_held W.contents output.old)
        (bytes_held W.contents output.new) ran.0) }
{
    match mode {
        Mode::Rounds => run_measured(rt.alloc(), texts, journal, output),
        Mode::Threads => run_least(rt, output, journal, texts),
    }
}

// Runs the simulated cell by its texts, on threads or in rounds, and tells what is measured of it.
fn measure_sources<R: AllocGlobal + Threads + Wait + Sync, W: Write>(
    rt: &R,
    output: &mut WatchedWriter<'_, W>,
    mode: Mode,
    running: Running<'_>,
    sources: Sources,
) -> Result<Carried, WriteFault>
    ensures { MeasuresTexts mode running.entry.journal (bytes_held W.contents output.old)
        (bytes_held W.contents output.new)
        (written_of result) }
{
    let ran = run_with_measures(rt, output, mode, running.journal, sources.texts());
    with_ending(ran, 0, running.explain, sources)
}

// Runs the simulated cell by what its files say, on threads or in rounds, and tells what is measured of it. The files
// are all read before any is judged.
fn measure_files<'a, R: AllocGlobal + Files + Threads + Wait + Sync, W: Write>(
    rt: &R,
    output: &mut WatchedWriter<'_, W>,
    mode: Mode,
    running: Running<'a>,
) -> Result<Carried, CommandError<'a>>
    ensures { IfCarried result (MeasuresFiles mode running.entry (bytes_held W.contents output.old)
        (bytes_held W.contents output.new)) }
{
    match sources_in(rt, output, running)? {
        Reading::Fit(sources) => unless_refused(measure_sources(
            rt, output, mode, running, sources,
        )),
        Reading::Unfit(status) => Ok(Carried::of(status)),
    }
}

// Follows a journal that was read by the texts of a run.
fn follow_sources<W: Write>(
    alloc: Global,
    output: &mut WatchedWriter<'_, W>,
    followed: &Audited,
    running: Running<'_>,
    sources: Sources,
) -> Result<Carried, WriteFault>
    ensures { (text : List ℕ) → IsRead followed.now text
        → FollowsTexts running.entry.journal (bytes_held W.contents output.old)
        (bytes_held W.contents output.new) (written_of result) }
{
    let told = follow_after(alloc, followed, sources.texts(), running.journal, output);
    with_ending(told, 0, running.explain, sources)
}

// Follows the journal in a file by what the run's files say.
fn follow_files<'a, R: AllocGlobal + Files, W: Write>(
    rt: &R,
    output: &mut WatchedWriter<'_, W>,
    path: &'a str,
    running: Running<'a>,
) -> Result<Carried, CommandError<'a>>
    ensures { IfCarried result (FollowsFiles running.entry (bytes_held W.contents output.old)
        (bytes_held W.contents output.new)) }
{
    let sources = match sources_in(rt, output, running)? {
        Reading::Fit(sources) => sources,
        Reading::Unfit(status) => return Ok(Carried::of(status)),
    };
    let followed = book_in(rt, path)?;
    unless_refused(follow_sources(rt.alloc(), output, &followed, running, sources))
}

/// Does what an order says: reads the input or the files that it names, and writes to the output and the errors. What
/// is written isn't written out yet, and the end of a run isn't explained yet.
pub(crate) fn carry_out<
    'a,
    R: AllocGlobal + Files + Threads + Wait + Sync,
    I: TellsFault + Drop,
    W: Write,
    E: Write,
>(
    rt: &R,
    input: I,
    output: &mut WatchedWriter<'_, W>,
    errors: &mut WatchedWriter<'_, E>,
    progress: bool,
    order: Order<'a>,
) -> Result<Carried, CommandError<'a>>
    ensures { IfCarried result (λ written. CarriesOut order.entry (I.remaining input)
        (bytes_held W.contents output.old) (bytes_held W.contents output.new)
        (bytes_held E.contents errors.old) (bytes_held E.contents errors.new) written) }
{
    match order {
        Order::Audit(file) => without_ending(audit_file(rt, input, output, file)),
        Order::Migrate(file) => without_ending(migrate_file(rt, input, output, errors, file)),
        Order::Show(showing) => without_ending(show_words(rt, input, output, errors, showing)),
        Order::Explain(explaining) => {
            without_ending(explain_words(rt, input, output, errors, explaining))
        }
        Order::Measure(measuring) => {
            without_ending(measure_words(rt, output, errors, &measuring))
        }
        Order::Events(listing) => without_ending(events_words(rt, output, errors, listing)),
        Order::Check(path) => without_ending(check_file(rt, output, path)),
        Order::Sim(running) => run_files(rt, output, Mode::Rounds, running),
        Order::SimMeasured(running) => measure_files(rt, output, Mode::Rounds, running),
        Order::Follow(path, running) => follow_files(rt, output, path, running),
        Order::SimFrom(continuing) => continue_words(rt, output, errors, continuing),
        Order::Sweep(sweeping) => {
            without_ending(sweep_words(rt, output, errors, sweeping, progress))
        }
        Order::Explore(exploring) => {
            without_ending(explore_words(rt, output, errors, &exploring, progress))
        }
        Order::Drive(driving) => without_ending(drive_files(rt, input, output, errors, driving)),
        Order::Control(controlling) => {
            written_out(control_words(rt, input, output, errors, controlling))
        }
        Order::Run(running) => run_files(rt, output, Mode::Threads, running),
        Order::RunMeasured(running) => measure_files(rt, output, Mode::Threads, running),
    }
}
