//! What is printed of a run.
ghost use Rattle.std.specs.Prelude.{◌≡◌, List, map, IfOk, IsErr, OnOk, Some, true};
ghost use Rattle.std.specs.Io.KnownBytes.{Appends};
ghost use Rattle.cell_output.specs.Watched.{IsSameWriter, WritesPart, bytes_held, has_refused};
ghost use Rattle.cell_types.specs.declared.words.Entry.{Entry as EntryValue};
ghost use Rattle.cell_rules.specs.Views.{count_of};
ghost use Rattle.cell_rules.specs.declared.limits.BookLimits.{BookLimits};
ghost use Rattle.cell_ports.specs.declared.plan.Plan.{Plan as PlanValue};
ghost use Rattle.cell_workers.specs.Report.{IsReport};
ghost use Rattle.operator_desk.specs.declared.line.Line.{Line};
ghost use Rattle.cell_runs.specs.Runs.{PartOfReport, PrintsOrStops, WritesReport, WritesRunError, counts_after};
ghost use Rattle.cell_runs.specs.Runs.{disagrees_line, kept, limits_of, shown, status_of, word_of};

use crate::rounds::Outcome;
use cell_audit::{WriteError, write_journal_watched};
use cell_journal::Journal;
use cell_output::{WatchedWriter, WriteFault, status};
use cell_types::Totals;
use cell_workers::{End, Report, RunError};
use itoa::Buffer;
use std::alloc::Global;
use std::io::Write;

// The word of an end.
fn word_of(end: End) -> &'static str
    ensures { result.now ≡ word_of end }
{
    match end {
        End::Finished => "finished",
        End::Stalled => "stalled",
        End::TurnLimit => "turn limit",
        End::Memory => "memory",
        End::Full => "full",
    }
}

// The exit status of an end.
fn status_of(end: End) -> u8
    ensures { result ≡ status_of end }
{
    match end {
        End::Finished => status::SUCCESS,
        End::Memory => status::OUT_OF_MEMORY,
        End::Stalled | End::TurnLimit | End::Full => status::REFUSED,
    }
}

/// Writes a first line, and the four lines of these totals.
pub(crate) fn write_counts<W: Write>(
    writer: &mut WatchedWriter<'_, W>,
    first: &str,
    totals: Totals,
) -> Result<(), WriteFault>
    ensures writer { IsSameWriter writer.old writer.new }
    ensures whole { OnOk result (Appends (bytes_held W.contents writer.old) (bytes_held W.contents writer.new)
        (counts_after first.now totals)) }
    ensures part { IsErr result → WritesPart (bytes_held W.contents writer.old) (bytes_held W.contents writer.new)
        (counts_after first.now totals) }
    ensures fault { IsErr result → has_refused writer.new ≡ true }
{
    let mut admitted = Buffer::new();
    let mut forged = Buffer::new();
    let mut quarantined = Buffer::new();
    let mut delivered = Buffer::new();
    writer.write_pieces(&[
        first.as_bytes(),
        b"\nadmitted ",
        admitted.format(totals.admitted).as_bytes(),
        b"\nforged ",
        forged.format(totals.forged).as_bytes(),
        b"\nquarantined ",
        quarantined.format(totals.quarantined).as_bytes(),
        b"\ndelivered ",
        delivered.format(totals.delivered).as_bytes(),
        b"\n",
    ])
}

// Writes how a run ended and what it counted, or with `alone` its journal's text alone, and gives the exit status.
// Where memory is refused on the way, a first part of the journal's text was written.
fn write_run<W: Write>(
    alloc: Global,
    end: End,
    totals: Totals,
    journal: &Journal,
    alone: bool,
    writer: &mut WatchedWriter<'_, W>,
) -> Result<u8, WriteFault>
    ensures writer { IsSameWriter writer.old writer.new }
    ensures whole { IfOk result (PrintsOrStops alone end totals journal.now.entries (bytes_held W.contents writer.old)
        (bytes_held W.contents writer.new)) }
    ensures part { IsErr result → WritesPart (bytes_held W.contents writer.old) (bytes_held W.contents writer.new)
        (shown alone end totals journal.now.entries) }
    ensures fault { IsErr result → has_refused writer.new ≡ true }
{
    if alone {
        return match write_journal_watched(alloc, journal, writer) {
            Ok(()) => Ok(status_of(end)),
            Err(WriteError::WriteFault) => Err(WriteFault),
            Err(WriteError::OutOfMemory) => Ok(status::OUT_OF_MEMORY),
        };
    }
    write_counts(writer, word_of(end), totals)?;
    Ok(status_of(end))
}

/// Writes what is left of a run on one thread, and gives the exit status.
pub fn write_outcome<W: Write>(
    alloc: Global,
    outcome: &Outcome,
    journal: bool,
    writer: &mut WatchedWriter<'_, W>,
) -> Result<u8, WriteFault>
    ensures writer { IsSameWriter writer.old writer.new }
    ensures whole { IfOk result (PrintsOrStops journal outcome.now.end (count_of outcome.now.book.entries)
        outcome.now.book.entries (bytes_held W.contents writer.old) (bytes_held W.contents writer.new)) }
    ensures part { IsErr result → WritesPart (bytes_held W.contents writer.old) (bytes_held W.contents writer.new)
        (shown journal outcome.now.end (count_of outcome.now.book.entries) outcome.now.book.entries) }
    ensures fault { IsErr result → has_refused writer.new ≡ true }
{
    outcome.book.is_lawful();
    write_run(
        alloc,
        outcome.end,
        outcome.book.totals(),
        outcome.book.journal(),
        journal,
        writer,
    )
}

/// Writes the report of a run on threads, and gives the exit status.
pub fn write_report<W: Write>(
    alloc: Global,
    report: &Report,
    journal: bool,
    writer: &mut WatchedWriter<'_, W>,
) -> Result<u8, WriteFault>
    ensures writer { IsSameWriter writer.old writer.new }
    ensures whole { IfOk result (λ status. (plan : PlanValue) (script : List Line)
        → IsReport (limits_of plan) script report.now.journal.entries report.now.totals
        (map (λ w. (w.0.items, w.1)) report.now.workers)
        → WritesReport journal plan script (bytes_held W.contents writer.old) (bytes_held W.contents writer.new) status
        (Some (kept report.now.journal.entries report.now.end plan))) }
    ensures part { IsErr result → (limits : BookLimits) (script : List Line)
        → IsReport limits script report.now.journal.entries report.now.totals
        (map (λ w. (w.0.items, w.1)) report.now.workers)
        → PartOfReport journal limits script (bytes_held W.contents writer.old) (bytes_held W.contents writer.new) }
    ensures fault { IsErr result → has_refused writer.new ≡ true }
{
    write_run(
        alloc,
        report.end,
        report.totals,
        &report.journal,
        journal,
        writer,
    )
}

/// Writes why there is no report of a run on threads, and gives the exit status: 4 and nothing, where memory or a
/// thread was refused.
pub fn write_run_error<W: Write>(
    writer: &mut WatchedWriter<'_, W>,
    error: RunError,
) -> Result<u8, WriteFault>
    ensures writer { IsSameWriter writer.old writer.new }
    ensures whole { IfOk result (WritesRunError (bytes_held W.contents writer.old) (bytes_held W.contents writer.new)
        error) }
    ensures part { IsErr result → WritesPart (bytes_held W.contents writer.old) (bytes_held W.contents writer.new)
        disagrees_line }
    ensures fault { IsErr result → has_refused writer.new ≡ true }
{
    match error {
        RunError::OutOfMemory | RunError::ThreadRefused => Ok(status::OUT_OF_MEMORY),
        RunError::JournalDisagrees => {
            writer.write_bytes(b"journal disagrees\n")?;
            Ok(status::REFUSED)
        }
    }
}
