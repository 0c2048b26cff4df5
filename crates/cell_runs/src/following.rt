//! A journal that was read and is followed, by the texts of its run.
ghost use Rattle.std.specs.Prelude.{◌≡◌, ◌⊎◌, ℕ, List, Err, IfOk, IsErr, Ok, true};
ghost use Rattle.cell_rows.specs.Rows.{rows_of};
ghost use Rattle.cell_audit.specs.Meaning.{Due, IsFault};
ghost use Rattle.cell_output.specs.Watched.{IsSameWriter, bytes_held, has_refused};
ghost use Rattle.cell_runs.specs.Runs.{kept_of};
ghost use Rattle.cell_runs.specs.Told.{FollowsInputs, IsRead, KeepsFollowed, PartOfFollowed, PartOfInputs};
ghost use Rattle.cell_runs.specs.Told.{PartOfRefused, TellsPartFollowed, TellsRefused, WritesFollowed};

use crate::follow::Following;
use crate::followed::{end_of, write_following};
use crate::inputs::{Inputs, Texts, read_inputs};
use crate::refused::refuse_input;
use crate::simulation::follow_simulated;
use crate::texts::{KeptRun, Left};
use cell_audit::{AuditError, Audited, write_answer};
use cell_journal::Journal;
use cell_output::{WatchedWriter, WriteFault, status};
use cell_sim::World;
use sim_plant::SimPlant;
use std::alloc::{AllocError, Global};
use std::io::Write;

// Follows a journal over a new world, writes what comes of it, and keeps what was booked.
fn write_followed<W: Write>(
    alloc: Global,
    inputs: Inputs,
    followed: &Journal,
    journal: bool,
    writer: &mut WatchedWriter<'_, W>,
) -> Result<(u8, Left), WriteFault>
    ensures writer { IsSameWriter writer.old writer.new }
    ensures whole { IfOk result (λ told. WritesFollowed journal inputs.plan inputs.script followed.now.entries
        (bytes_held W.contents writer.old) (bytes_held W.contents writer.new) told.0 (kept_of told.1)) }
    ensures part { IsErr result → PartOfFollowed journal inputs.plan inputs.script followed.now.entries
        (bytes_held W.contents writer.old) (bytes_held W.contents writer.new) }
    ensures fault { IsErr result → has_refused writer.new ≡ true }
{
    let Inputs {
        plan,
        faults,
        script,
        durations,
    } = inputs;
    let world = World::new(plan.plates).with_durations(durations);
    let mut cell = SimPlant::new(world, &faults);
    match follow_simulated(alloc, &mut cell, script, &plan, followed) {
        Ok(following) => {
            let status = write_following(alloc, &following, journal, writer)?;
            let end = end_of(&following.followed);
            let Following { book, followed: _ } = following;
            let journal = book.into_journal();
            Ok((status, Left::Run(KeptRun { journal, end, plan })))
        }
        Err(AllocError) => Ok((status::OUT_OF_MEMORY, Left::Nothing)),
    }
}

/// Tells that a journal is refused or can't be read, for which an audit gave this error, and gives the exit status.
pub(crate) fn tell_refused<W: Write>(
    why: AuditError,
    writer: &mut WatchedWriter<'_, W>,
) -> Result<u8, WriteFault>
    ensures writer { IsSameWriter writer.old writer.new }
    ensures whole { (text : List ℕ) → IsFault (Err why) ⊎ Due (rows_of text) (Err why)
        → IfOk result (TellsRefused text (bytes_held W.contents writer.old) (bytes_held W.contents writer.new)) }
    ensures part { (text : List ℕ) → IsFault (Err why) ⊎ Due (rows_of text) (Err why) → IsErr result
        → PartOfRefused text (bytes_held W.contents writer.old) (bytes_held W.contents writer.new) }
    ensures fault { IsErr result → has_refused writer.new ≡ true }
{
    write_answer(writer, Err(why))
}

// Follows a journal that was read, or tells that it is refused or can't be read.
fn follow_read<W: Write>(
    alloc: Global,
    followed: &Audited,
    inputs: Inputs,
    journal: bool,
    writer: &mut WatchedWriter<'_, W>,
) -> Result<(u8, Left), WriteFault>
    ensures writer { IsSameWriter writer.old writer.new }
    ensures whole { (text : List ℕ) → IsRead followed.now text
        → IfOk result (λ told. FollowsInputs text journal (bytes_held W.contents writer.old)
        (bytes_held W.contents writer.new) told.0 (kept_of told.1) (Ok inputs)) }
    ensures part { (text : List ℕ) → IsRead followed.now text → IsErr result
        → PartOfInputs text journal (bytes_held W.contents writer.old) (bytes_held W.contents writer.new) (Ok inputs) }
    ensures fault { IsErr result → has_refused writer.new ≡ true }
{
    match followed.answer {
        Ok(_) => write_followed(alloc, inputs, followed.book.journal(), journal, writer),
        Err(why) => Ok((tell_refused(why, writer)?, Left::Nothing)),
    }
}

/// Reads the texts of a run, the settings, the script of faults and the operator's script, and takes that run again on
/// this thread as a journal tells it that was read into a book: for each entry of the journal in order the entry's
/// actor alone acts, until he books one. A machine takes turns at what it shows, at most as many as the settings have;
/// the operator does his next action, if there is one. It ends where all entries were booked, or at the first in whose
/// place another one is booked, or none.
///
/// The first text that is refused is told in one line, in the order settings, faults, operator, journal: the first
/// three as by `run_texts`, the journal as by `audit_lines`, by the answer that was read with the book, before anything
/// runs. Else the line `followed` is written (status 0), `entry N: E in place of F` or `entry N: nothing in place of F`
/// (1), where E and F are entries as in a journal's text, or `memory` (4), and then the lines `admitted`, `forged`,
/// `quarantined` and `delivered`, each with its number, of what was booked; with `journal` its text alone. Where memory
/// is refused before, nothing is written, status 4; where it is refused while something is written, a first part of
/// that was, status 4.
///
/// It gives what was booked too, where the journal was followed, in place of a run; no limit is its end.
pub fn follow_after<W: Write>(
    alloc: Global,
    followed: &Audited,
    texts: Texts<'_>,
    journal: bool,
    writer: &mut WatchedWriter<'_, W>,
) -> Result<(u8, Left), WriteFault>
    ensures writer { IsSameWriter writer.old writer.new }
    // What is written, and the journal, the end and the plan are those of each text of which this was read.
    ensures whole { (text : List ℕ) → IsRead followed.now text
        → IfOk result (λ told. KeepsFollowed text texts.entry.settings.now texts.entry.faults.now
        texts.entry.operator.now journal (bytes_held W.contents writer.old) (bytes_held W.contents writer.new) told.0
        (kept_of told.1)) }
    // Where the writer failed, a first part of that was written.
    ensures part { (text : List ℕ) → IsRead followed.now text → IsErr result
        → TellsPartFollowed text texts.entry.settings.now texts.entry.faults.now texts.entry.operator.now journal
        (bytes_held W.contents writer.old) (bytes_held W.contents writer.new) }
    // It answers that the writer failed only where a write was refused.
    ensures fault { IsErr result → has_refused writer.new ≡ true }
{
    match read_inputs(alloc, texts) {
        Ok(inputs) => follow_read(alloc, followed, inputs, journal, writer),
        Err(refused) => Ok((refuse_input(writer, refused)?, Left::Nothing)),
    }
}
