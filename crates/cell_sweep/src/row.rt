//! What is told of each run of a sweep.
ghost use Rattle.std.specs.Prelude.{◌≡◌, IfOk};
ghost use Rattle.cell_sweep.specs.Cases.{text_of};
ghost use Rattle.cell_sweep.specs.Rows.{IsToldOf, IsWait, first_line};

use crate::runs::Ran;
use cell_explain::endings::{EndedRun, write_ending};
use cell_measures::{Durations, times_of};
use cell_sim::PlannedFault;
use cell_types::Totals;
use cell_workers::End;
use std::alloc::{AllocError, Global};
use std::io;
use std::marker::Model;

/// What is told of a run.
#[derive(Drop)]
pub(crate) struct Row {
    pub(crate) faults: Vec<PlannedFault>,
    pub(crate) end: End,
    pub(crate) totals: Totals,
    /// How long the run's entries need at least.
    pub(crate) time: u64,
    /// The first line of why the run ended so, if there is any.
    pub(crate) waits: Vec<u8>,
}

impl Model for Row {
    ghost use Rattle.cell_sweep.specs.Rows.{Told};

    ghost Value = { Told };

    ghost view = { λ r. record {
      faults = r.faults.items;
      end = r.end;
      totals = r.totals;
      time = r.time;
      waits =
          r.waits.items;
    } };
}

// The first line of a text, without its end.
fn first_line(text: &[u8]) -> &[u8]
    ensures { result.now ≡ first_line text.now }
{
    for (place, byte) in text.iter().enumerate() {
        if *byte == b'\n' {
            return &text[..place];
        }
    }
    text
}

// The first line of what is told of a run's end.
fn wait_of(alloc: Global, ran: &Ran, faults: &[u8], operator: &[u8]) -> io::Result<Vec<u8>>
    ensures { IfOk result (λ line. IsWait ran.now.outcome.book.entries ran.now.outcome.end ran.now.plan faults.now
        operator.now line.items) }
{
    let mut text = Vec::new(alloc);
    let outcome = &ran.outcome;
    let run = EndedRun {
        journal: outcome.book.journal(),
        before: 0,
        end: outcome.end,
        plan: &ran.plan,
        faults,
        operator,
    };
    write_ending(alloc, &run, &mut text)?;
    Ok(Vec::from_slice(alloc, first_line(text.as_slice()))?)
}

/// What is told of a run with these faults, by the texts of its two scripts.
pub(crate) fn row_of(
    alloc: Global,
    faults: Vec<PlannedFault>,
    ran: &Ran,
    text: &[u8],
    operator: &[u8],
) -> Result<Row, AllocError>
    ensures faults { IfOk result (λ row. row.faults ≡ faults.items) }
    ensures told { IfOk result (λ row. text.now ≡ text_of faults.items
        → IsToldOf row operator.now ran.now.plan ran.now.outcome.book.entries ran.now.outcome.end) }
{
    let Ok(waits) = wait_of(alloc, ran, text, operator) else {
        return Err(AllocError);
    };
    let ends = times_of(alloc, ran.outcome.book.journal(), &Durations::ONE)?;
    Ok(Row {
        faults,
        end: ran.outcome.end,
        totals: ran.outcome.book.totals(),
        time: ends.iter().copied().fold(0, u64::max),
        waits,
    })
}
