//! A run that goes on from a journal that was read, by its texts.
ghost use Rattle.std.specs.Prelude.{◌≡◌, ℕ, List, IfOk, IsErr, Ok, true};
ghost use Rattle.cell_output.specs.Watched.{IsSameWriter, bytes_held, has_refused};
ghost use Rattle.cell_runs.specs.Runs.{PartOfRoundsFrom, WritesRoundsFrom, kept_of, limits_of};
ghost use Rattle.cell_runs.specs.RunsFrom.{GoesOn, GoesOnBy, KeepsRunFrom, PartOfGoingOn, PartOfInputsFrom};
ghost use Rattle.cell_runs.specs.RunsFrom.{TellsPartFrom};
ghost use Rattle.cell_runs.specs.Told.{IsRead};

use crate::booking::book_after;
use crate::following::tell_refused;
use crate::inputs::{Inputs, Texts, read_inputs};
use crate::refused::refuse_input;
use crate::simulation::simulate_from;
use crate::texts::{Left, keep_outcome};
use cell_audit::{Audited, write_answer};
use cell_journal::Journal;
use cell_output::{WatchedWriter, WriteFault};
use cell_sim::World;
use plate_book::Book;
use sim_plant::SimPlant;
use std::alloc::Global;
use std::io::Write;

// Runs the simulated cell in rounds from where a book's journal left it, writes what comes of it, and keeps the run.
fn write_run_from<W: Write>(
    alloc: Global,
    inputs: Inputs,
    book: Book,
    journal: bool,
    writer: &mut WatchedWriter<'_, W>,
) -> Result<(u8, Left), WriteFault>
    requires { book.limits ≡ limits_of inputs.plan }
    ensures writer { IsSameWriter writer.old writer.new }
    ensures whole { IfOk result (λ ran. WritesRoundsFrom book.entries journal inputs (bytes_held W.contents writer.old)
        (bytes_held W.contents writer.new) ran.0 (kept_of ran.1)) }
    ensures part { IsErr result → PartOfRoundsFrom book.entries journal inputs (bytes_held W.contents writer.old)
        (bytes_held W.contents writer.new) }
    ensures fault { IsErr result → has_refused writer.new ≡ true }
{
    let Inputs {
        plan,
        faults,
        script,
        durations,
    } = inputs;
    let world = World::from_book(&book, plan.plates, &durations);
    let mut cell = SimPlant::new(world, &faults);
    let outcome = simulate_from(alloc, book, &mut cell, script, &plan);
    let (status, run) = keep_outcome(alloc, outcome, plan, journal, writer)?;
    Ok((status, Left::Run(run)))
}

// Runs the simulated cell from a journal on, or tells that the settings' limits refuse an entry of it.
fn go_on<W: Write>(
    alloc: Global,
    before: &Journal,
    inputs: Inputs,
    journal: bool,
    writer: &mut WatchedWriter<'_, W>,
) -> Result<(u8, Left), WriteFault>
    ensures writer { IsSameWriter writer.old writer.new }
    ensures whole { IfOk result (λ ran. GoesOn journal inputs before.now.entries (bytes_held W.contents writer.old)
        (bytes_held W.contents writer.new) ran.0 (kept_of ran.1)) }
    ensures part { IsErr result → PartOfGoingOn journal inputs before.now.entries (bytes_held W.contents writer.old)
        (bytes_held W.contents writer.new) }
    ensures fault { IsErr result → has_refused writer.new ≡ true }
{
    match book_after(alloc, &inputs.plan, before) {
        Ok(book) => write_run_from(alloc, inputs, book, journal, writer),
        Err(why) => Ok((write_answer(writer, Err(why))?, Left::Nothing)),
    }
}

// Runs the simulated cell from a journal that was read on, or tells that it is refused or can't be read.
fn go_on_read<W: Write>(
    alloc: Global,
    before: &Audited,
    inputs: Inputs,
    journal: bool,
    writer: &mut WatchedWriter<'_, W>,
) -> Result<(u8, Left), WriteFault>
    ensures writer { IsSameWriter writer.old writer.new }
    ensures whole { (text : List ℕ) → IsRead before.now text
        → IfOk result (λ ran. GoesOnBy text journal (bytes_held W.contents writer.old)
        (bytes_held W.contents writer.new) ran.0 (kept_of ran.1) (Ok inputs)) }
    ensures part { (text : List ℕ) → IsRead before.now text → IsErr result
        → PartOfInputsFrom text journal (bytes_held W.contents writer.old) (bytes_held W.contents writer.new)
        (Ok inputs) }
    ensures fault { IsErr result → has_refused writer.new ≡ true }
{
    match before.answer {
        Ok(_) => go_on(alloc, before.book.journal(), inputs, journal, writer),
        Err(why) => Ok((tell_refused(why, writer)?, Left::Nothing)),
    }
}

/// Runs the simulated cell by the texts of a run from where a journal that was read into a book left it: its entries
/// are booked anew within the settings' limits, the world is where they leave it, and the run goes on in rounds on this
/// thread. The script of faults counts the motions that begin from there on, and the operator's script is what is still
/// to be done.
///
/// The first text that is refused is told in one line, in the order settings, faults, operator, journal: the first
/// three as by `run_texts`, the journal as by `audit_lines`, by the answer that was read with the book. So is the first
/// entry of the journal that the settings' limits refuse. Then nothing runs. Else it writes what `run_texts` writes of
/// a run in rounds, where the totals and with `journal` the text are those of the whole journal, its first part
/// included. Where memory is refused before the run, nothing is written, status 4; where it is refused while the
/// journal's text is written, a first part of that text was, status 4.
///
/// It gives besides the exit status what the run left, as `run_kept` does.
pub fn run_after<W: Write>(
    alloc: Global,
    before: &Audited,
    texts: Texts<'_>,
    journal: bool,
    writer: &mut WatchedWriter<'_, W>,
) -> Result<(u8, Left), WriteFault>
    ensures writer { IsSameWriter writer.old writer.new }
    // What is written, and the journal, the end and the plan are those of each text of which this was read.
    ensures whole { (text : List ℕ) → IsRead before.now text
        → IfOk result (λ ran. KeepsRunFrom texts.entry.durations text texts.entry.settings.now texts.entry.faults.now
        texts.entry.operator.now journal (bytes_held W.contents writer.old) (bytes_held W.contents writer.new) ran.0
        (kept_of ran.1)) }
    // Where the writer failed, a first part of that was written.
    ensures part { (text : List ℕ) → IsRead before.now text → IsErr result
        → TellsPartFrom texts.entry.durations text texts.entry.settings.now texts.entry.faults.now
        texts.entry.operator.now journal (bytes_held W.contents writer.old) (bytes_held W.contents writer.new) }
    // It answers that the writer failed only where a write was refused.
    ensures fault { IsErr result → has_refused writer.new ≡ true }
{
    match read_inputs(alloc, texts) {
        Ok(inputs) => go_on_read(alloc, before, inputs, journal, writer),
        Err(refused) => Ok((refuse_input(writer, refused)?, Left::Nothing)),
    }
}
