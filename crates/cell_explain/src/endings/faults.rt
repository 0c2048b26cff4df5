//! The faults whose motions were never reached.
ghost use Rattle.std.specs.Prelude.{◌≡◌, OnOk, drop, slice_index};
ghost use Rattle.std.specs.Io.KnownBytes.{Appends};
ghost use Rattle.cell_types.specs.Same.{axis_number};
ghost use Rattle.cell_types.specs.declared.words.Axis.{Axis};
ghost use Rattle.cell_sim.specs.Script.{next_fault};
ghost use Rattle.cell_explain.specs.Missed.{missed_line, missed_of, motions_of, told_fault};
ghost use Rattle.cell_explain.specs.Endings.{script_lines};

use crate::endings::words::times;
use cell_journal::Journal;
use cell_rows::{LineError, read_script};
use cell_sentences::axis_name;
use cell_sim::PlannedFault;
use cell_types::{Axis, Entry, axis_number};
use plate_book::Book;
use std::alloc::{AllocError, Global};
use std::io::{Error, Result, Write};

/// How often each axis set out by a journal's entries from a place on, by the axes' numbers.
pub fn motions(journal: &Journal, before: u32) -> [u32; 9]
    ensures { (a : Axis) → slice_index result (axis_number a) ≡ motions_of (drop before journal.now.entries) a }
{
    let mut counts = [0u32; 9];
    for place in before..journal.len() {
        if let Entry::Started { axis, .. } = journal.at(place) {
            counts[axis_number(axis)] += 1;
        }
    }
    counts
}

// Writes the line of a fault whose axis set out only so often.
fn write_missed<W: Write>(writer: &mut W, planned: &PlannedFault, count: u32) -> Result<()>
    ensures { OnOk result (Appends (W.contents writer.old) (W.contents writer.new) (missed_line planned.now count)) }
{
    writeln!(
        writer,
        "the fault in motion {} of {} was never reached: it set out {count}{}",
        planned.motion,
        axis_name(planned.axis),
        times(count)
    )
}

// Writes the line of a fault whose axis set out so often, where its motion was never reached.
fn write_fault<W: Write>(writer: &mut W, planned: &PlannedFault, count: u32) -> Result<()>
    ensures { OnOk result (Appends (W.contents writer.old) (W.contents writer.new) (told_fault planned.now count)) }
{
    if count < planned.motion {
        write_missed(writer, planned, count)
    } else {
        Ok(())
    }
}

/// Writes the faults whose motions were never reached by the entries from a place on. The motions of an axis are
/// counted from 1.
pub(crate) fn write_faults<W: Write>(
    alloc: Global,
    writer: &mut W,
    book: &Book,
    before: u32,
    faults: &[u8],
) -> Result<()>
    ensures { OnOk result (Appends (W.contents writer.old) (W.contents writer.new)
        (missed_of (drop before book.now.entries) (script_lines next_fault faults.now))) }
{
    let planned = match read_script::<PlannedFault>(alloc, faults) {
        Ok(planned) => planned,
        Err(LineError::OutOfMemory) => return Err(Error::from(AllocError)),
        Err(_) => return Ok(()),
    };
    let counts = motions(book.journal(), before);
    for fault in &planned {
        write_fault(writer, fault, counts[axis_number(fault.axis)])?;
    }
    Ok(())
}
