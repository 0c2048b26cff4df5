//! The limit that ended a run.
ghost use Rattle.std.specs.Prelude.{OnOk};
ghost use Rattle.std.specs.Io.KnownBytes.{Appends};
ghost use Rattle.cell_explain.specs.Limit.{full_line, limit_of};

use cell_ports::Plan;
use cell_workers::End;
use plate_book::Book;
use std::io::{Result, Write};

// Writes that the journal has as many entries as it may, or else that no further plate has a number.
fn write_full<W: Write>(writer: &mut W, plan: &Plan, entries: u32) -> Result<()>
    ensures { OnOk result (Appends (W.contents writer.old) (W.contents writer.new) (full_line plan.now entries)) }
{
    if plan.journal_limit <= entries {
        writeln!(
            writer,
            "the journal is full (journal_limit = {})",
            plan.journal_limit
        )
    } else {
        writeln!(
            writer,
            "no further plate has a number (plates = {})",
            plan.plates
        )
    }
}

/// Writes the limit that ended a run, where one did, by its key in the settings.
pub(crate) fn write_limit<W: Write>(
    writer: &mut W,
    book: &Book,
    end: End,
    plan: &Plan,
) -> Result<()>
    ensures { OnOk result (Appends (W.contents writer.old) (W.contents writer.new)
        (limit_of book.now.entries end plan.now)) }
{
    match end {
        End::Full => write_full(writer, plan, book.journal().len()),
        End::TurnLimit => writeln!(writer, "the turns are used up (turns = {})", plan.turns),
        End::Finished | End::Stalled | End::Memory => Ok(()),
    }
}
