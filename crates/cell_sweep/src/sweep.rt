//! A sweep by its texts.
ghost use Rattle.std.specs.Prelude.{◌≡◌, ◌<◌, ◌≤◌, ◌-◌, ℕ, false, true, List, All, Err, IfErr, IfOk, IfSome};
ghost use Rattle.std.specs.Prelude.{IsErr, OnOk};
ghost use Rattle.std.specs.Prelude.{drop, length, slice_index, take};
ghost use Rattle.cell_sim.specs.declared.fault.PlannedFault.{PlannedFault as FaultValue};
ghost use Rattle.cell_output.specs.Watched.{IsSameWriter, bytes_held, has_refused};
ghost use Rattle.std.proofs.Props.{props};
ghost use Rattle.cell_types.specs.Same.{axis_number};
ghost use Rattle.cell_sim.specs.Spelled.{script_of};
ghost use Rattle.cell_branches.specs.Trunks.{IsTrunk};
ghost use Rattle.cell_sweep.specs.Batches.{AreMade, IsMade, TellsPlace};
ghost use Rattle.cell_sweep.specs.Cases.{cases_of, most_faults, motions_of, text_of};
ghost use Rattle.cell_sweep.specs.declared.runs.NoRun.TheVariants as none;
ghost use Rattle.cell_sweep.specs.declared.sweep.Stop.TheVariants as stop;
ghost use Rattle.cell_sweep.specs.Rows.{Grows, IsNoRun, IsScript, RefusesRun, RefusesServed, RunsTo, TellsServed};
ghost use Rattle.cell_sweep.specs.Rows.{csv_line, is_csv};
ghost use Rattle.cell_sweep.specs.Sweeps.{AreCounts, EndsSo, RefusesSome, StopsSo, Sweeps, SweepsTexts, TellsCases};
ghost use Rattle.cell_sweep.specs.Sweeps.{wanted, wanted_by};

use crate::batch::{Batch, Made, batch_of, make_at};
use crate::cases::text_of;
use crate::choice::{Choice, Part};
use crate::form::Form;
use crate::places::{Places, Span, span_of};
use crate::print::{Ends, Layout, end_text, head_of, line_of};
use crate::row::{Row, row_of};
use crate::runs::{NoRun, Ran, run_alone};
use crate::service::serve;
use crate::shared::Shared;
use crate::texts::{Faults, Settings};
use cell_charts::Square;
use cell_explain::endings::motions;
use cell_measures::Durations;
use cell_output::{WatchedWriter, WriteFault, status};
use cell_runs::{InputError, Texts, read_inputs, refuse_input};
use cell_sim::{Fault, FaultScript, PlannedFault};
use std::alloc::{AllocError, Global};
use std::io::Write;
use std::thread::Threads;

// With fewer runs than so many the run without faults isn't kept.
const FEW_RUNS: u64 = 16;

/// What a sweep goes through, and how it is told.
#[derive(Clone, Copy, Debug)]
pub struct Sweep<'a> {
    /// The kinds of faults, in their order.
    pub kinds: &'a [Fault],
    /// How many motions of each axis; where none is given, as many as each has in the run without faults.
    pub motions: Option<u32>,
    /// Which faults the runs have.
    pub choice: Choice,
    /// Which part of the runs is made.
    pub part: Part,
    /// Whether the operator serves the machines besides doing what his script says.
    pub service: bool,
    /// How it is told.
    pub form: Form,
    /// Whether it is told to the errors how far the sweep is.
    pub progress: bool,
    /// How many threads make the runs; one does where it is 0. The same is written with any number.
    pub threads: u32,
}

// Why a sweep breaks off.
#[derive(Debug, Drop)]
enum Stop {
    // A text is refused, or memory was.
    NoRun(NoRun),
    // The writer failed.
    WriteFault,
}

impl From<WriteFault> for Stop {
    ghost use Rattle.std.specs.Prelude.{◌≡◌};
    ghost use Rattle.cell_sweep.specs.declared.sweep.Stop.TheVariants as stop;

    ghost from_gives = { λ error given. given ≡ stop.WriteFault };

    fn from(_error: WriteFault) -> Stop {
        Stop::WriteFault
    }
}

impl From<NoRun> for Stop {
    ghost use Rattle.std.specs.Prelude.{◌≡◌};
    ghost use Rattle.cell_sweep.specs.declared.sweep.Stop.TheVariants as stop;

    ghost from_gives = { λ error given. given ≡ stop.NoRun error };

    fn from(error: NoRun) -> Stop {
        Stop::NoRun(error)
    }
}

impl From<AllocError> for Stop {
    ghost use Rattle.std.specs.Prelude.{◌≡◌};
    ghost use Rattle.cell_sweep.specs.declared.runs.NoRun.TheVariants as none;
    ghost use Rattle.cell_sweep.specs.declared.sweep.Stop.TheVariants as stop;

    ghost from_gives = { λ error given. given ≡ stop.NoRun none.OutOfMemory };

    fn from(_error: AllocError) -> Stop {
        Stop::NoRun(NoRun::OutOfMemory)
    }
}

/// The texts of a sweep, and what it goes through.
#[derive(Clone, Copy)]
pub(crate) struct Task<'a, 's> {
    settings: &'a Settings<'a>,
    operator: &'a [u8],
    pub(crate) sweep: Sweep<'a>,
    // The run without faults by these texts, if it is kept.
    pub(crate) shared: Option<&'s Shared<'s>>,
    ghost by_these: { IfSome shared (λ s. (s.now.settings.now.text.now ≡ settings.now.text.now)
        × (s.now.operator.now ≡ operator.now)) } by { Prim.hlevel props },
}

// What is kept while a sweep goes on: how many of its runs had each end, and how many runs there will be.
#[derive(Drop)]
struct Tally<'a, E> {
    ends: Ends,
    all: u64,
    // What a chart shows.
    squares: Vec<Square>,
    // Where it is told how many runs are done.
    errors: &'a mut E,
}

// How the rows of a sweep are told.
fn layout_of(task: &Task<'_, '_>) -> Layout
    ensures choice { result.choice ≡ task.now.sweep.choice }
    ensures form { result.form ≡ task.now.sweep.form }
{
    Layout {
        choice: task.sweep.choice,
        form: task.sweep.form,
    }
}

// The operator's script by which a run with this script of faults goes.
fn script_for(alloc: Global, task: &Task<'_, '_>, faults: &Faults<'_>) -> Result<Vec<u8>, NoRun>
    ensures script { IfOk result (λ script. IsScript task.now.sweep.service task.now.operator.now script.items) }
    ensures refused { IfErr result (IsNoRun (RefusesServed task.now.settings.now.text.now task.now.operator.now
        task.now.sweep.service faults.now.text.now)) }
{
    if task.sweep.service {
        serve(alloc, task.settings, faults, task.operator)
    } else {
        Ok(Vec::from_slice(alloc, task.operator)?)
    }
}

// A script of faults that is read.
fn read_faults<'a>(alloc: Global, task: &Task<'_, '_>, text: &'a [u8]) -> Result<Faults<'a>, NoRun>
    ensures text { IfOk result (λ faults. faults.text.now ≡ text.now) }
    ensures refused { IfErr result (IsNoRun (RefusesServed task.now.settings.now.text.now task.now.operator.now
        task.now.sweep.service text.now)) }
{
    match FaultScript::read(alloc, text) {
        Ok(script) => Ok(Faults { text, script }),
        Err(error) => Err(NoRun::Refused(InputError::Faults(error))),
    }
}

// The script with one fault, of which this is the text. It is read only where no record can say the fault.
fn fault_alone<'a>(
    alloc: Global,
    task: &Task<'_, '_>,
    fault: PlannedFault,
    text: &'a [u8],
) -> Result<Faults<'a>, NoRun>
    requires { text.now ≡ script_of fault }
    ensures text { IfOk result (λ read. read.text.now ≡ text.now) }
    ensures refused { IfErr result (IsNoRun (RefusesServed task.now.settings.now.text.now task.now.operator.now
        task.now.sweep.service text.now)) }
{
    match FaultScript::of_fault(alloc, fault)? {
        Some(script) => Ok(Faults { text, script }),
        None => read_faults(alloc, task, text),
    }
}

// The script with these faults, of which this is the text.
fn faults_of<'a>(
    alloc: Global,
    task: &Task<'_, '_>,
    faults: &[PlannedFault],
    text: &'a [u8],
) -> Result<Faults<'a>, NoRun>
    requires { text.now ≡ text_of faults.now }
    ensures text { IfOk result (λ read. read.text.now ≡ text.now) }
    ensures refused { IfErr result (IsNoRun (RefusesServed task.now.settings.now.text.now task.now.operator.now
        task.now.sweep.service text.now)) }
{
    match faults {
        [fault] => fault_alone(alloc, task, *fault, text),
        _ => read_faults(alloc, task, text),
    }
}

// The run with this script of faults from where it parts from the one without faults, if that is kept and the operator
// does what his script says alone.
fn run_shared(alloc: Global, task: &Task<'_, '_>, faults: &Faults<'_>) -> Result<Option<Ran>, NoRun>
    requires shared { IfSome task.now.shared (λ s. IsTrunk s.now.trunk) }
    ensures service { IfOk result (λ made. IfSome made (λ ran. task.now.sweep.service ≡ false)) }
    ensures ran { IfOk result (λ made. IfSome made (λ ran. RunsTo task.now.settings.now.text.now faults.now.text.now
        task.now.operator.now ran.plan ran.outcome.book.entries ran.outcome.end)) }
    ensures memory { IfErr result (λ why. why ≡ none.OutOfMemory) }
{
    match task.shared {
        Some(shared) if !task.sweep.service => shared.with_faults(alloc, faults),
        _ => Ok(None),
    }
}

// The run with this script of faults, and this one of the operator.
fn run_by(
    alloc: Global,
    task: &Task<'_, '_>,
    faults: &Faults<'_>,
    script: &[u8],
) -> Result<Ran, NoRun>
    requires script { IsScript task.now.sweep.service task.now.operator.now script.now }
    requires shared { IfSome task.now.shared (λ s. IsTrunk s.now.trunk) }
    ensures ran { IfOk result (λ ran. RunsTo task.now.settings.now.text.now faults.now.text.now script.now
        ran.plan ran.outcome.book.entries ran.outcome.end) }
    ensures refused { IfErr result (IsNoRun (RefusesRun task.now.settings.now.text.now faults.now.text.now
        script.now)) }
{
    match run_shared(alloc, task, faults)? {
        Some(ran) => Ok(ran),
        None => run_alone(alloc, task.settings, faults, script),
    }
}

// The run with this script of faults, and the operator's script by which it goes.
fn run_served(
    alloc: Global,
    task: &Task<'_, '_>,
    faults: &Faults<'_>,
) -> Result<(Ran, Vec<u8>), NoRun>
    requires shared { IfSome task.now.shared (λ s. IsTrunk s.now.trunk) }
    ensures script { IfOk result (λ served. IsScript task.now.sweep.service task.now.operator.now served.1.items) }
    ensures ran { IfOk result (λ served. RunsTo task.now.settings.now.text.now faults.now.text.now served.1.items
        served.0.plan served.0.outcome.book.entries served.0.outcome.end) }
    ensures refused { IfErr result (IsNoRun (RefusesServed task.now.settings.now.text.now task.now.operator.now
        task.now.sweep.service faults.now.text.now)) }
{
    let script = script_for(alloc, task, faults)?;
    let ran = run_by(alloc, task, faults, script.as_slice())?;
    Ok((ran, script))
}

/// What is told of the run with these faults: its row, and the line of it.
pub(crate) fn run_case(
    alloc: Global,
    task: &Task<'_, '_>,
    faults: Vec<PlannedFault>,
) -> Result<(Row, Vec<u8>), NoRun>
    requires inside { length faults.items ≤ most_faults task.now.sweep.choice }
    requires shared { IfSome task.now.shared (λ s. IsTrunk s.now.trunk) }
    ensures told { IfOk result (λ told. TellsServed task.now.settings.now.text.now task.now.operator.now
        task.now.sweep.service told.0) }
    ensures faults { IfOk result (λ told. told.0.faults ≡ faults.items) }
    ensures line { IfOk result (λ told. is_csv task.now.sweep.form ≡ true
        → told.1.items ≡ csv_line task.now.sweep.choice told.0) }
    ensures refused { IfErr result (IsNoRun (RefusesSome task.now.settings.now.text.now task.now.operator.now
        task.now.sweep.choice task.now.sweep.service)) }
{
    let script = text_of(alloc, faults.as_slice())?;
    let text = script.as_slice();
    let read = match faults_of(alloc, task, faults.as_slice(), text) {
        Ok(read) => read,
        Err(why) => return Err(why),
    };
    let (ran, operator) = match run_served(alloc, task, &read) {
        Ok(served) => served,
        Err(why) => return Err(why),
    };
    let row = row_of(alloc, faults, &ran, text, operator.as_slice())?;
    let line = line_of(alloc, layout_of(task), text, &row)?;
    Ok((row, line))
}

// How many motions of each axis the sweep goes through.
fn counts_of(alloc: Global, task: &Task<'_, '_>) -> Result<[u32; 9], NoRun>
    requires shared { IfSome task.now.shared (λ s. IsTrunk s.now.trunk) }
    ensures counts { IfOk result (λ counts. AreCounts task.now.settings.now.text.now task.now.operator.now
        task.now.sweep.service task.now.sweep.motions (λ a. slice_index counts (axis_number a))) }
    ensures refused { IfErr result (IsNoRun (RefusesSome task.now.settings.now.text.now task.now.operator.now
        task.now.sweep.choice task.now.sweep.service)) }
{
    if let Some(count) = task.sweep.motions {
        return Ok([count; 9]);
    }
    let faults = match read_faults(alloc, task, b"") {
        Ok(faults) => faults,
        Err(why) => return Err(why),
    };
    let (ran, _operator) = match run_served(alloc, task, &faults) {
        Ok(served) => served,
        Err(why) => return Err(why),
    };
    Ok(motions(ran.outcome.book.journal(), 0))
}

// Tells how many runs are done. The line is written over by what follows; whether it could be written says nothing.
fn tell_progress<E: Write>(tally: &mut Tally<'_, E>) {
    let done = tally.ends.runs();
    let all = tally.all;
    let _ = write!(tally.errors, "{done} of {all} runs\r");
    let _ = tally.errors.flush();
}

// Keeps what a chart shows of a run, if one is asked for.
fn keep_square<E: Write>(
    task: &Task<'_, '_>,
    row: &Row,
    tally: &mut Tally<'_, E>,
) -> Result<(), AllocError> {
    if task.sweep.form != Form::Chart {
        return Ok(());
    }
    if let [fault] = row.faults.as_slice() {
        let square = Square {
            fault: *fault,
            end: row.end,
        };
        tally.squares.push(square)?;
    }
    Ok(())
}

// Writes what is told of a run that is made, and counts it.
fn write_made<W: Write, E: Write>(
    task: &Task<'_, '_>,
    made: &Made,
    writer: &mut WatchedWriter<'_, W>,
    tally: &mut Tally<'_, E>,
) -> Result<(), Stop>
    ensures writer { IsSameWriter writer.old writer.new }
    ensures told { (settings operator : List ℕ) (cases : List (List FaultValue)) (place : ℕ)
        → IsMade settings operator (wanted_by task.now.sweep) cases made.now → made.now.place ≡ place
        → OnOk result (TellsPlace settings operator (wanted_by task.now.sweep) cases place
        (bytes_held W.contents writer.old) (bytes_held W.contents writer.new)) }
    ensures part { IsErr result → Grows (bytes_held W.contents writer.old) (bytes_held W.contents writer.new) }
    ensures stops { IfErr result (StopsSo task.now.settings.now.text.now task.now.operator.now task.now.sweep.choice
        task.now.sweep.service (has_refused writer.new)) }
{
    let line = made.line.as_slice();
    keep_square(task, &made.row, tally)?;
    writer.write_bytes(line)?;
    tally.ends.add(made.row.end);
    if task.sweep.progress {
        tell_progress(tally);
    }
    Ok(())
}

// Writes what is told of the run at a place, which is made if it wasn't, and counts it.
fn write_place<W: Write, E: Write>(
    task: &Task<'_, '_>,
    places: &Places<'_>,
    batch: &Batch,
    place: u64,
    writer: &mut WatchedWriter<'_, W>,
    tally: &mut Tally<'_, E>,
) -> Result<(), Stop>
    requires inside { place < length (cases_of task.now.sweep.choice places.now.kinds.now
        (motions_of places.now.counts)) }
    requires made { All (λ lane. AreMade task.now.settings.now.text.now task.now.operator.now
        (wanted_by task.now.sweep)
        (cases_of task.now.sweep.choice places.now.kinds.now (motions_of places.now.counts)) lane.items)
        batch.now.lanes.items }
    requires shared { IfSome task.now.shared (λ s. IsTrunk s.now.trunk) }
    ensures writer { IsSameWriter writer.old writer.new }
    ensures told { OnOk result (TellsPlace task.now.settings.now.text.now task.now.operator.now
        (wanted_by task.now.sweep)
        (cases_of task.now.sweep.choice places.now.kinds.now (motions_of places.now.counts)) place
        (bytes_held W.contents writer.old) (bytes_held W.contents writer.new)) }
    ensures part { IsErr result → Grows (bytes_held W.contents writer.old) (bytes_held W.contents writer.new) }
    ensures stops { IfErr result (StopsSo task.now.settings.now.text.now task.now.operator.now task.now.sweep.choice
        task.now.sweep.service (has_refused writer.new)) }
{
    if let Some(made) = batch.made_at(place) {
        return write_made(task, made, writer, tally);
    }
    let made = make_at(batch.alloc, task, places, place)?;
    write_made(task, &made, writer, tally)
}

// Writes what is told of the run at each place of a batch.
fn write_rows<W: Write, E: Write>(
    task: &Task<'_, '_>,
    places: &Places<'_>,
    batch: &Batch,
    writer: &mut WatchedWriter<'_, W>,
    tally: &mut Tally<'_, E>,
) -> Result<(), Stop>
    requires inside { batch.now.span.end ≤ length (cases_of task.now.sweep.choice places.now.kinds.now
        (motions_of places.now.counts)) }
    requires made { All (λ lane. AreMade task.now.settings.now.text.now task.now.operator.now
        (wanted_by task.now.sweep)
        (cases_of task.now.sweep.choice places.now.kinds.now (motions_of places.now.counts)) lane.items)
        batch.now.lanes.items }
    requires shared { IfSome task.now.shared (λ s. IsTrunk s.now.trunk) }
    ensures writer { IsSameWriter writer.old writer.new }
    ensures told { OnOk result (TellsCases task.now.settings.now.text.now task.now.operator.now
        (wanted_by task.now.sweep)
        (take (batch.now.span.end - batch.now.span.begin) (drop batch.now.span.begin
        (cases_of task.now.sweep.choice places.now.kinds.now (motions_of places.now.counts))))
        (bytes_held W.contents writer.old) (bytes_held W.contents writer.new)) }
    ensures part { IsErr result → Grows (bytes_held W.contents writer.old) (bytes_held W.contents writer.new) }
    ensures stops { IfErr result (StopsSo task.now.settings.now.text.now task.now.operator.now task.now.sweep.choice
        task.now.sweep.service (has_refused writer.new)) }
{
    for place in batch.span.begin..batch.span.end {
        write_place(task, places, batch, place, writer, tally)?;
    }
    Ok(())
}

// Makes the runs at some places by threads, a batch after another, so that few are kept at a time, and writes what is
// told of them in their order.
fn write_batches<R: AllocGlobal + Threads + Sync, W: Write, E: Write>(
    rt: &R,
    task: &Task<'_, '_>,
    places: &Places<'_>,
    span: Span,
    writer: &mut WatchedWriter<'_, W>,
    tally: &mut Tally<'_, E>,
) -> Result<(), Stop>
    requires inside { span.end ≤ length (cases_of task.now.sweep.choice places.now.kinds.now
        (motions_of places.now.counts)) }
    requires shared { IfSome task.now.shared (λ s. IsTrunk s.now.trunk) }
    ensures writer { IsSameWriter writer.old writer.new }
    ensures told { OnOk result (TellsCases task.now.settings.now.text.now task.now.operator.now
        (wanted_by task.now.sweep)
        (take (span.end - span.begin) (drop span.begin (cases_of task.now.sweep.choice places.now.kinds.now
        (motions_of places.now.counts))))
        (bytes_held W.contents writer.old) (bytes_held W.contents writer.new)) }
    ensures part { IsErr result → Grows (bytes_held W.contents writer.old) (bytes_held W.contents writer.new) }
    ensures stops { IfErr result (StopsSo task.now.settings.now.text.now task.now.operator.now task.now.sweep.choice
        task.now.sweep.service (has_refused writer.new)) }
{
    let alloc = rt.alloc();
    let size = batch_of(task.sweep.threads);
    let mut begin = span.begin;
    while begin < span.end {
        let end = begin.saturating_add(size).min(span.end);
        let batch = Batch::make(rt, alloc, task, places, Span { begin, end })?;
        write_rows(task, places, &batch, writer, tally)?;
        begin = end;
    }
    Ok(())
}

// Makes the runs at some places, by one thread or by more, and writes what is told of each.
fn write_part<R: AllocGlobal + Threads + Sync, W: Write, E: Write>(
    rt: &R,
    task: &Task<'_, '_>,
    places: &Places<'_>,
    span: Span,
    writer: &mut WatchedWriter<'_, W>,
    tally: &mut Tally<'_, E>,
) -> Result<(), Stop>
    requires inside { span.end ≤ length (cases_of task.now.sweep.choice places.now.kinds.now
        (motions_of places.now.counts)) }
    requires shared { IfSome task.now.shared (λ s. IsTrunk s.now.trunk) }
    ensures writer { IsSameWriter writer.old writer.new }
    ensures told { OnOk result (TellsCases task.now.settings.now.text.now task.now.operator.now
        (wanted_by task.now.sweep)
        (take (span.end - span.begin) (drop span.begin (cases_of task.now.sweep.choice places.now.kinds.now
        (motions_of places.now.counts))))
        (bytes_held W.contents writer.old) (bytes_held W.contents writer.new)) }
    ensures part { IsErr result → Grows (bytes_held W.contents writer.old) (bytes_held W.contents writer.new) }
    ensures stops { IfErr result (StopsSo task.now.settings.now.text.now task.now.operator.now task.now.sweep.choice
        task.now.sweep.service (has_refused writer.new)) }
{
    if task.sweep.threads > 1 {
        write_batches(rt, task, places, span, writer, tally)
    } else {
        let batch = Batch::unmade(rt.alloc(), span);
        write_rows(task, places, &batch, writer, tally)
    }
}

// Makes the runs at some places, from where each parts from the one without faults, where they are many, and writes
// what is told of each.
fn write_runs<R: AllocGlobal + Threads + Sync, W: Write, E: Write>(
    rt: &R,
    task: &Task<'_, '_>,
    places: &Places<'_>,
    span: Span,
    writer: &mut WatchedWriter<'_, W>,
    tally: &mut Tally<'_, E>,
) -> Result<(), Stop>
    requires inside { span.end ≤ length (cases_of task.now.sweep.choice places.now.kinds.now
        (motions_of places.now.counts)) }
    requires shared { IfSome task.now.shared (λ s. IsTrunk s.now.trunk) }
    ensures writer { IsSameWriter writer.old writer.new }
    ensures told { OnOk result (TellsCases task.now.settings.now.text.now task.now.operator.now
        (wanted_by task.now.sweep)
        (take (span.end - span.begin) (drop span.begin (cases_of task.now.sweep.choice places.now.kinds.now
        (motions_of places.now.counts))))
        (bytes_held W.contents writer.old) (bytes_held W.contents writer.new)) }
    ensures part { IsErr result → Grows (bytes_held W.contents writer.old) (bytes_held W.contents writer.new) }
    ensures stops { IfErr result (StopsSo task.now.settings.now.text.now task.now.operator.now task.now.sweep.choice
        task.now.sweep.service (has_refused writer.new)) }
{
    if task.sweep.service || tally.all < FEW_RUNS {
        return write_part(rt, task, places, span, writer, tally);
    }
    let Some(shared) = Shared::run(rt.alloc(), task.settings, task.operator)? else {
        return write_part(rt, task, places, span, writer, tally);
    };
    let task = Task {
        settings: task.settings,
        operator: task.operator,
        sweep: task.sweep,
        shared: Some(&shared),
    };
    write_part(rt, &task, places, span, writer, tally)
}

// Writes what is told of a sweep.
fn write_sweep<R: AllocGlobal + Threads + Sync, W: Write, E: Write>(
    rt: &R,
    task: &Task<'_, '_>,
    writer: &mut WatchedWriter<'_, W>,
    errors: &mut E,
) -> Result<(), Stop>
    requires shared { IfSome task.now.shared (λ s. IsTrunk s.now.trunk) }
    ensures writer { IsSameWriter writer.old writer.new }
    ensures told { OnOk result (Sweeps task.now.settings.now.text.now task.now.operator.now
        (wanted_by task.now.sweep)
        (bytes_held W.contents writer.old) (bytes_held W.contents writer.new)) }
    ensures part { IsErr result → Grows (bytes_held W.contents writer.old) (bytes_held W.contents writer.new) }
    ensures stops { IfErr result (StopsSo task.now.settings.now.text.now task.now.operator.now task.now.sweep.choice
        task.now.sweep.service (has_refused writer.new)) }
{
    let alloc = rt.alloc();
    let sweep = &task.sweep;
    let counts = counts_of(alloc, task)?;
    let Some(places) = Places::new(counts, sweep.kinds) else {
        return Err(Stop::NoRun(NoRun::OutOfMemory));
    };
    let Some(all) = places.count(sweep.choice) else {
        return Err(Stop::NoRun(NoRun::OutOfMemory));
    };
    let span = span_of(sweep.part, all);
    let mut tally = Tally {
        ends: Ends::default(),
        all: span.end.saturating_sub(span.begin),
        squares: Vec::new(alloc),
        errors,
    };
    let head = head_of(sweep.choice, sweep.part, sweep.form);
    writer.write_bytes(head.as_bytes())?;
    write_runs(rt, task, &places, span, writer, &mut tally)?;
    let squares = tally.squares.as_slice();
    let text = end_text(alloc, layout_of(task), sweep.kinds, tally.ends, squares)?;
    writer.write_bytes(text.as_slice())?;
    Ok(())
}

// The status of a sweep, unless the writer failed. A run that is refused is told behind those before it.
fn end_sweep<W: Write>(
    writer: &mut WatchedWriter<'_, W>,
    swept: Result<(), Stop>,
) -> Result<u8, WriteFault>
    ensures writer { IsSameWriter writer.old writer.new }
    ensures status { IfOk result (EndsSo (bytes_held W.contents writer.old) (bytes_held W.contents writer.new) swept) }
    ensures part { IsErr result → Grows (bytes_held W.contents writer.old) (bytes_held W.contents writer.new) }
    ensures fault { (swept ≡ Err stop.WriteFault → has_refused writer.old ≡ true)
        → IsErr result → has_refused writer.new ≡ true }
{
    match swept {
        Ok(()) => Ok(status::SUCCESS),
        Err(Stop::NoRun(NoRun::Refused(error))) => refuse_input(writer, error),
        Err(Stop::NoRun(NoRun::OutOfMemory)) => Ok(status::OUT_OF_MEMORY),
        Err(Stop::WriteFault) => Err(WriteFault),
    }
}

/// Runs the simulated cell in rounds once for each run of a part of a sweep, each with its faults, and writes a row of
/// each, and then, unless it is CSV, how many runs had each end, or in place of all that a chart; gives the exit
/// status.
///
/// Which faults the runs have the `Choice` says. The settings or the operator's script, where one is refused, are told
/// as by `run_texts`, and nothing runs. Else the status is 0, however the runs end, or 4 where memory was refused, or
/// the whole sweep has 2^64 runs or more, with the rows of the runs before. Where the operator's service makes the
/// script too long, that is told behind these rows, with status 1. The writer notes whether a write of it was refused.
pub fn sweep_texts<R: AllocGlobal + Threads + Sync, W: Write, E: Write>(
    rt: &R,
    settings: &[u8],
    operator: &[u8],
    sweep: Sweep<'_>,
    writer: &mut WatchedWriter<'_, W>,
    errors: &mut E,
) -> Result<u8, WriteFault>
    ensures writer { IsSameWriter writer.old writer.new }
    // What is written is of the first text that is refused, or of one run for each case of the part; or the status says
    // that the sweep broke off.
    ensures whole { IfOk result (SweepsTexts settings.now operator.now
        (wanted sweep.entry.kinds.now sweep.entry.motions sweep.entry.choice sweep.entry.part sweep.entry.service
        (is_csv sweep.entry.form))
        (bytes_held W.contents writer.old) (bytes_held W.contents writer.new)) }
    // Where the writer failed, what was written before only grew.
    ensures part { IsErr result → Grows (bytes_held W.contents writer.old) (bytes_held W.contents writer.new) }
    // It answers that the writer failed only where a write was refused.
    ensures fault { IsErr result → has_refused writer.new ≡ true }
{
    let alloc = rt.alloc();
    let texts = Texts {
        settings,
        faults: b"",
        operator,
        durations: Durations::ONE,
    };
    let inputs = match read_inputs(alloc, texts) {
        Ok(inputs) => inputs,
        Err(error) => return refuse_input(writer, error),
    };
    let read = Settings {
        text: settings,
        plan: inputs.plan,
    };
    let task = Task {
        settings: &read,
        operator,
        sweep,
        shared: None,
    };
    let swept = write_sweep(rt, &task, writer, errors);
    end_sweep(writer, swept)
}
