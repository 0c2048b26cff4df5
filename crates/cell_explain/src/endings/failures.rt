//! The machines that are failed.
ghost use Rattle.std.specs.Prelude.{◌≡◌, OnOk};
ghost use Rattle.std.specs.Io.KnownBytes.{Appends};
ghost use Rattle.cell_types.specs.Same.{same_machine};
ghost use Rattle.cell_explain.specs.Failures.{declared_last, declares, failed_line, failure_of, failures_of};

use cell_journal::Journal;
use cell_sentences::{cause_name, the_machine};
use cell_types::{Cause, Entry, MACHINES, Machine};
use plate_book::Book;
use std::io::{Result, Write};

fn is_same_machine(some: Machine, other: Machine) -> bool
    ensures { result ≡ same_machine some other }
{
    some == other
}

// The number of an entry and its cause, where it declares a machine failed.
fn declares(machine: Machine, number: u32, entry: Entry) -> Option<(u32, Cause)>
    ensures { result ≡ declares machine number entry }
{
    match entry {
        Entry::Declared {
            machine: declared,
            cause,
        } => {
            if is_same_machine(declared, machine) {
                Some((number, cause))
            } else {
                None
            }
        }
        _ => None,
    }
}

// The last entry, counted from 1, that declares a machine failed, and its cause.
fn declared_last(journal: &Journal, machine: Machine) -> Option<(u32, Cause)>
    ensures { result ≡ declared_last journal.now.entries machine }
{
    let mut found = None;
    for place in 0..journal.len() {
        if let Some(next) = declares(machine, place + 1, journal.at(place)) {
            found = Some(next);
        }
    }
    found
}

// Writes the line of a failed machine.
fn write_failed<W: Write>(
    writer: &mut W,
    machine: Machine,
    found: Option<(u32, Cause)>,
) -> Result<()>
    ensures { OnOk result (Appends (W.contents writer.old) (W.contents writer.new) (failed_line machine found)) }
{
    match found {
        Some((entry, cause)) => writeln!(
            writer,
            "{} is failed since entry {entry}: {}",
            the_machine(machine),
            cause_name(cause)
        ),
        None => Ok(()),
    }
}

// Writes the line of a machine, where it is failed.
fn write_failure<W: Write>(writer: &mut W, book: &Book, machine: Machine) -> Result<()>
    ensures { OnOk result (Appends (W.contents writer.old) (W.contents writer.new)
        (failure_of book.now.entries machine)) }
{
    if book.failed(machine) {
        write_failed(writer, machine, declared_last(book.journal(), machine))
    } else {
        Ok(())
    }
}

/// Writes the machines that are failed, each with the entry that declared it and the cause.
pub(crate) fn write_failures<W: Write>(writer: &mut W, book: &Book) -> Result<()>
    ensures { OnOk result (Appends (W.contents writer.old) (W.contents writer.new) (failures_of book.now.entries)) }
{
    for machine in MACHINES {
        write_failure(writer, book, machine)?;
    }
    Ok(())
}
