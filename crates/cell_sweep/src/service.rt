//! The operator of a sweep who serves the machines.
ghost use Rattle.std.specs.Prelude.{true, IfErr};
ghost use Rattle.cell_sweep.specs.Rows.{IsNoRun, RefusesServed};

use crate::lines::text_of;
use crate::runs::{NoRun, Ran, run_alone};
use crate::texts::{Faults, Settings};
use cell_explain::endings::lines_done;
use cell_rows::read_script;
use cell_types::{Entry, MACHINES, Machine, PlateId, Station, stations_of};
use operator_desk::{Line, Task, Trigger};
use plate_book::{Book, Refusal};
use std::alloc::{AllocError, Global};

/// How often a run is taken again at most, each time with more lines.
const MOST_TRIES: u32 = 50;

// Adds the clearing of a failed machine's station, where the book allows it, and books it.
fn plan_clearing(
    lines: &mut Vec<Line>,
    book: &mut Book,
    machine: Machine,
    station: Station,
) -> Result<(), AllocError> {
    let Some(plate) = book.plate_at(station) else {
        return Ok(());
    };
    let cleared = book.apply(Entry::Quarantined {
        plate,
        src: station,
    });
    match cleared {
        Ok(()) => {
            lines.push(Line {
                when: Trigger::Failed(machine),
                task: Task::Clear(station),
            })?;
            Ok(())
        }
        Err(Refusal::OutOfMemory) => Err(AllocError),
        Err(_) => Ok(()),
    }
}

// Adds what a machine needs that is failed, as far as the book allows it, and books it.
fn plan_repair(lines: &mut Vec<Line>, book: &mut Book, machine: Machine) -> Result<(), AllocError> {
    if !book.failed(machine) {
        return Ok(());
    }
    for station in stations_of(machine) {
        plan_clearing(lines, book, machine, *station)?;
    }
    if book.apply(Entry::Repaired { machine }).is_ok() {
        lines.push(Line {
            when: Trigger::Failed(machine),
            task: Task::Repair(machine),
        })?;
    }
    Ok(())
}

// Adds the repair of each failed machine.
fn plan_repairs(lines: &mut Vec<Line>, book: &mut Book) -> Result<(), AllocError> {
    for machine in MACHINES {
        plan_repair(lines, book, machine)?;
    }
    Ok(())
}

// Adds that a plate is laid back, for the first plate of which the book allows it, and books it.
fn plan_return(lines: &mut Vec<Line>, book: &mut Book) -> Result<(), AllocError> {
    for before in 0..book.totals().admitted {
        let Some(plate) = PlateId::new(before.saturating_add(1)) else {
            return Ok(());
        };
        if book.apply(Entry::Expected { plate }).is_ok() {
            lines.push(Line {
                when: Trigger::Always,
                task: Task::Expect(plate),
            })?;
            return Ok(());
        }
    }
    Ok(())
}

// Whether a plate that was taken out can be laid back: more can be laid in than are still to be admitted.
fn has_spare(ran: &Ran) -> bool {
    let due = ran
        .plan
        .plates
        .saturating_sub(ran.outcome.book.totals().admitted);
    ran.left > due
}

/// What an operator does at the end of a run who clears what is in a failed machine and repairs it, or else expects
/// what can be laid back: the lines that the book allows one after another. They are booked.
pub(crate) fn plan_service(alloc: Global, ran: &mut Ran) -> Result<Vec<Line>, AllocError> {
    let mut lines = Vec::new(alloc);
    plan_repairs(&mut lines, &mut ran.outcome.book)?;
    if lines.is_empty() && has_spare(ran) {
        plan_return(&mut lines, &mut ran.outcome.book)?;
    }
    Ok(lines)
}

// A script with further lines behind so many of its own.
fn with_lines(
    alloc: Global,
    script: &[Line],
    done: usize,
    added: &[Line],
) -> Result<Vec<Line>, AllocError> {
    let done = done.min(script.len());
    let mut lines = Vec::from_slice(alloc, &script[..done])?;
    lines.extend_from_slice(added)?;
    lines.extend_from_slice(&script[done..])?;
    Ok(lines)
}

// The script that serves where a run by this script ended; none where there is nothing to be done.
fn served_further(
    alloc: Global,
    script: &[Line],
    ran: &mut Ran,
) -> Result<Option<Vec<Line>>, AllocError> {
    let done = lines_done(ran.outcome.book.journal(), 0, script) as usize;
    let added = plan_service(alloc, ran)?;
    if added.is_empty() {
        return Ok(None);
    }
    Ok(Some(with_lines(alloc, script, done, added.as_slice())?))
}

// The lines of the operator's script, which was read before.
fn lines_of(alloc: Global, operator: &[u8]) -> Result<Vec<Line>, AllocError> {
    match read_script::<Line>(alloc, operator) {
        Ok(lines) => Ok(lines),
        Err(_) => Err(AllocError),
    }
}

/// The operator's script by which a run is served to its end: his own, and in it what was to be done at the end of each
/// try, before the first line that wasn't done in that. A script that grows beyond what a run takes is refused as any.
pub(crate) fn serve(
    alloc: Global,
    settings: &Settings<'_>,
    faults: &Faults<'_>,
    operator: &[u8],
) -> Result<Vec<u8>, NoRun>
    ensures refused { IfErr result (IsNoRun (RefusesServed settings.now.text.now operator.now true
        faults.now.text.now)) }
{
    let mut script = lines_of(alloc, operator)?;
    for _try in 0..MOST_TRIES {
        let text = text_of(alloc, script.as_slice())?;
        let mut ran = run_alone(alloc, settings, faults, text.as_slice())?;
        match served_further(alloc, script.as_slice(), &mut ran)? {
            Some(further) => script = further,
            None => return Ok(text),
        }
    }
    Ok(text_of(alloc, script.as_slice())?)
}
