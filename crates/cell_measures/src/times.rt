//! The ends of a journal's entries.
ghost use Rattle.std.specs.Prelude.{◌≡◌, IfOk, length};
ghost use Rattle.cell_measures.specs.Times.{times};

use crate::clock::Clock;
use crate::durations::Durations;
use cell_journal::Journal;
use std::alloc::{AllocError, Global};

/// When each entry of a journal ends at the earliest, in units of time from the first on.
///
/// An entry begins when all have ended for which it waits: those of the same machine or that name the same plate, and
/// those that set a zone free which it wants. It ends when it begins; one that ends a motion ends not before the motion
/// is over, which takes its duration from its start. `AllocError` where memory was refused.
pub fn times_of(
    alloc: Global,
    journal: &Journal,
    durations: &Durations,
) -> Result<Vec<u64>, AllocError>
    ensures ends { IfOk result (λ ends. ends.items ≡ times durations.now journal.now.entries) }
    ensures long { IfOk result (λ ends. length ends.items ≡ length journal.now.entries) }
{
    let mut clock = Clock::new(alloc);
    let mut ends = Vec::with_capacity(alloc, journal.len() as usize)?;
    for place in 0..journal.len() {
        let entry = journal.at(place);
        let end = clock.ends(&entry, durations);
        clock.note(&entry, end)?;
        ends.push(end)?;
    }
    Ok(ends)
}
