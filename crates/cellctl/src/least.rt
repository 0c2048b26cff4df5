//! How long the events of a run need at least.
ghost use Rattle.std.specs.Prelude.{◌≡◌, ◌≢◌, ◌⊎◌, IfOk, List, Ok, OnOk, ℕ};
ghost use Rattle.std.specs.Io.KnownBytes.{Appends};
ghost use Rattle.cell_output.specs.Watched.{bytes_held};
ghost use Rattle.cellctl.specs.Carried.{AddsLeast, MeasuresRun};

use cell_journal::Journal;
use cell_measures::{Durations, lines_of, measure};
use cell_output::{WatchedWriter, WriteFault, status};
use cell_runs::{Left, Mode, Texts, run_kept};
use std::alloc::{AllocError, Global};
use std::io::Write;
use std::sync::Wait;
use std::thread::Threads;

// The lines of a journal's measures.
fn least_of(alloc: Global, journal: &Journal, durations: &Durations) -> Result<String, AllocError> {
    lines_of(alloc, &measure(alloc, journal, durations)?)
}

// Tells how long the events of a run need at least, if one is left.
fn tell_least<W: Write>(
    alloc: Global,
    output: &mut WatchedWriter<'_, W>,
    left: &Left,
    durations: &Durations,
) -> Result<u8, WriteFault>
    ensures told { OnOk result ((told : List ℕ) × Appends (bytes_held W.contents output.old)
        (bytes_held W.contents output.new) told) }
    ensures status { IfOk result (λ status. (status ≡ 0) ⊎ (status ≡ 4)) }
    ensures memory { result ≡ Ok 4 → output.new ≡ output.old }
{
    let Left::Run(run) = left else {
        return Ok(status::SUCCESS);
    };
    let Ok(lines) = least_of(alloc, &run.journal, durations) else {
        return Ok(status::OUT_OF_MEMORY);
    };
    output.write_bytes(lines.as_str().as_bytes())?;
    Ok(status::SUCCESS)
}

// The status of a run with its measures: the run's, but where memory was refused for the measures.
fn status_with(run: u8, measures: u8) -> u8
    ensures status { (result ≡ run) ⊎ (result ≡ 4) }
    ensures memory { measures ≡ 4 → result ≡ 4 }
    ensures run { measures ≢ 4 → result ≡ run }
{
    if measures == status::OUT_OF_MEMORY {
        measures
    } else {
        run
    }
}

// Tells it of a run that has this status, unless memory was refused for the run, and gives the status of both.
fn add_least<W: Write>(
    alloc: Global,
    output: &mut WatchedWriter<'_, W>,
    status: u8,
    left: &Left,
    durations: &Durations,
) -> Result<u8, WriteFault>
    ensures { IfOk result (λ both. AddsLeast status (bytes_held W.contents output.old)
        (bytes_held W.contents output.new) both) }
{
    if status == status::OUT_OF_MEMORY {
        return Ok(status);
    }
    let least = tell_least(alloc, output, left, durations)?;
    Ok(status_with(status, least))
}

/// Runs the simulated cell by its texts on threads, writes what comes of it, and tells how long the events of the run
/// need at least, if one is left.
pub(crate) fn run_least<R: AllocGlobal + Threads + Wait + Sync, W: Write>(
    rt: &R,
    output: &mut WatchedWriter<'_, W>,
    journal: bool,
    texts: Texts<'_>,
) -> Result<(u8, Left), WriteFault>
    ensures { IfOk result (λ ran. MeasuresRun Mode.Threads texts.entry.durations texts.entry.settings.now
        texts.entry.faults.now texts.entry.operator.now journal (bytes_held W.contents output.old)
        (bytes_held W.contents output.new) ran.0) }
{
    let (status, left) = run_kept(rt, texts, Mode::Threads, journal, output)?;
    let both = add_least(rt.alloc(), output, status, &left, &texts.durations)?;
    Ok((both, left))
}
