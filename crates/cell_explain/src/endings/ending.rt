//! The whole of what is told of a run's end.
ghost use Rattle.std.specs.Prelude.{◌≡◌, IfOk, OnOk, true};
ghost use Rattle.std.specs.Io.KnownBytes.{Appends};
ghost use Rattle.cell_rules.specs.Legal.{legal};
ghost use Rattle.cell_explain.specs.Endings.{TellsEnding, greatest, limits_of, run_of};

use crate::endings::counts::{write_laid_back, write_unadmitted};
use crate::endings::failures::write_failures;
use crate::endings::faults::write_faults;
use crate::endings::limit::write_limit;
use crate::endings::operator::write_operator;
use crate::endings::plates::write_plates;
use cell_journal::Journal;
use cell_ports::Plan;
use cell_workers::End;
use plate_book::Book;
use std::alloc::{AllocError, Global};
use std::io::{Result, Write};

/// A run that ended, of which it is told why.
#[derive(Clone, Copy)]
pub struct EndedRun<'a> {
    /// The journal that it left.
    pub journal: &'a Journal,
    /// How many entries the journal had before the run.
    pub before: u32,
    pub end: End,
    pub plan: &'a Plan,
    /// The script of faults.
    pub faults: &'a [u8],
    /// The operator's script.
    pub operator: &'a [u8],
}

// A book by a plan's limits with the entries of a journal, which are allowed one after another.
fn book_of(alloc: Global, journal: &Journal, plan: &Plan) -> std::result::Result<Book, AllocError>
    ensures { IfOk result (λ book. book ≡ record { limits = limits_of plan.now; entries = journal.now.entries }) }
{
    let Ok(mut book) = Book::new(alloc, plan.journal_limit, plan.plates) else {
        return Err(AllocError);
    };
    for place in 0..journal.len() {
        if book.apply(journal.at(place)).is_err() {
            return Err(AllocError);
        }
    }
    Ok(book)
}

// Writes the limit that ended a run, how many plates weren't admitted, and how many were laid back.
fn write_run<W: Write>(writer: &mut W, book: &Book, end: End, plan: &Plan) -> Result<()>
    ensures { OnOk result (Appends (W.contents writer.old) (W.contents writer.new)
        (run_of book.now.entries end plan.now)) }
{
    write_limit(writer, book, end, plan)?;
    write_unadmitted(writer, book, plan.plates)?;
    write_laid_back(writer, book)
}

/// Writes why a run ended so: the limit that ended it, where one did; how many plates weren't admitted, and how many
/// were laid back; a line for each machine that is failed, with its cause and its entry; for each plate that stands in
/// the cell, with the entry by which it would go on and what refuses that; for the first record of the operator's
/// script that isn't done, with its line and what it waits for; and for each fault whose motion was never reached.
///
/// Entries from before the run count for neither script. A script that can't be read has no lines. An error is the
/// writer's, or that memory was refused, or that the journal isn't legal by the plan's limits.
pub fn write_ending<W: Write>(alloc: Global, run: &EndedRun<'_>, writer: &mut W) -> Result<()>
    // What is written is the ending of the journal, the run's end and plan, and the scripts.
    ensures text { OnOk result (TellsEnding run.now.journal.now.entries run.now.before run.now.end run.now.plan.now
        run.now.faults.now run.now.operator.now (W.contents writer.old) (W.contents writer.new)) }
    // It is written of legal journals alone.
    ensures legal { OnOk result (legal greatest run.now.journal.now.entries ≡ true) }
    // They are legal by the plan's limits too.
    ensures planned { OnOk result (legal (limits_of run.now.plan.now) run.now.journal.now.entries ≡ true) }
{
    let book = book_of(alloc, run.journal, run.plan)?;
    book.is_lawful();
    write_run(writer, &book, run.end, run.plan)?;
    write_failures(writer, &book)?;
    write_plates(writer, &book)?;
    write_operator(alloc, writer, &book, run.before, run.operator)?;
    write_faults(alloc, writer, &book, run.before, run.faults)
}
