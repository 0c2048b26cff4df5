//! The command by which a method drives the simulated cell.
ghost use Rattle.std.specs.Prelude.{ℕ, List, option_map};
ghost use Rattle.cell_output.specs.Watched.{bytes_held};
ghost use Rattle.cell_orders.specs.Commands.{IfTold};
ghost use Rattle.cell_runs.specs.Told.{IsRead};
ghost use Rattle.cellctl.specs.Carried.{DrivesFiles, DrivesRead, DrivesSome};

use crate::orders::{Reading, Sources, sources_in};
use cell_audit::{Audited, write_answer};
use cell_command::Driving;
use cell_drive::{DriveOptions, drive_texts};
use cell_journal::Journal;
use cell_orders::{CommandError, book_in, told};
use cell_output::{WatchedWriter, WriteFault};
use cell_rows::TellsFault;
use std::io::Write;
use std::rt::Files;
use std::sync::Wait;

// What a method drives: a cell by the files of a run, as its order says.
#[derive(Drop)]
struct Driven<'a> {
    driving: Driving<'a>,
    sources: Sources,
}

// Lets a method on the input drive the simulated cell by the texts of a run, from a journal on, if there is one.
fn drive_sources<R: AllocGlobal + Wait, I: TellsFault + Drop, W: Write, E: Write>(
    rt: &R,
    input: I,
    output: &mut WatchedWriter<'_, W>,
    errors: &mut WatchedWriter<'_, E>,
    driven: &Driven<'_>,
    from: Option<&Journal>,
) -> Result<u8, WriteFault>
    ensures { DrivesSome driven.now.driving.raw (option_map (λ j. j.now.entries) from.entry) (I.remaining input)
        (bytes_held W.contents output.old) (bytes_held W.contents output.new) result }
{
    let options = DriveOptions {
        raw: driven.driving.raw,
        journal: driven.driving.running.journal,
        explain: driven.driving.running.explain,
        from,
    };
    drive_texts(rt, driven.sources.texts(), options, input, output, errors)
}

// The same from a journal that was read on, or it is told that the journal is refused.
fn drive_read<R: AllocGlobal + Wait, I: TellsFault + Drop, W: Write, E: Write>(
    rt: &R,
    input: I,
    output: &mut WatchedWriter<'_, W>,
    errors: &mut WatchedWriter<'_, E>,
    driven: &Driven<'_>,
    before: &Audited,
) -> Result<u8, WriteFault>
    ensures { (text : List ℕ) → IsRead before.now text
        → DrivesRead driven.now.driving (I.remaining input) (bytes_held W.contents output.old)
        (bytes_held W.contents output.new) result }
{
    match before.answer {
        Ok(_) => {
            let from = Some(before.book.journal());
            drive_sources(rt, input, output, errors, driven, from)
        }
        Err(why) => write_answer(output, Err(why)),
    }
}

/// Lets a method on the input drive the simulated cell by what the run's files say, from the journal on that is named,
/// if one is. They are all read before any is judged, the journal last.
pub(crate) fn drive_files<
    'a,
    R: AllocGlobal + Files + Wait,
    I: TellsFault + Drop,
    W: Write,
    E: Write,
>(
    rt: &R,
    input: I,
    output: &mut WatchedWriter<'_, W>,
    errors: &mut WatchedWriter<'_, E>,
    driving: Driving<'a>,
) -> Result<u8, CommandError<'a>>
    ensures { IfTold result (DrivesFiles driving.entry (I.remaining input) (bytes_held W.contents output.old)
        (bytes_held W.contents output.new)) }
{
    let sources = match sources_in(rt, output, driving.running)? {
        Reading::Fit(sources) => sources,
        Reading::Unfit(status) => return Ok(status),
    };
    let driven = Driven { driving, sources };
    match driving.from {
        Some(path) => {
            let before = book_in(rt, path)?;
            told(drive_read(rt, input, output, errors, &driven, &before))
        }
        None => Ok(drive_sources(rt, input, output, errors, &driven, None)?),
    }
}
