//! The events of a journal.
ghost use Rattle.std.specs.Prelude.{◌≡◌, IfOk, map};
ghost use Rattle.cell_measures.specs.Times.{times};
ghost use Rattle.cell_events.specs.declared.event.Event.{Event};
ghost use Rattle.cell_events.specs.Events.{events};

use crate::event::Event;
use crate::past::Past;
use cell_journal::Journal;
use cell_measures::{Durations, times_of};
use std::alloc::{AllocError, Global};

/// The events of a journal, one for each entry, in the journal's order.
///
/// Their ends are those of `times_of`. `AllocError` where memory was refused.
pub fn events_of(
    alloc: Global,
    journal: &Journal,
    durations: &Durations,
) -> Result<Vec<Event>, AllocError>
    ensures events { IfOk result (λ found. found.items ≡ events durations.now journal.now.entries) }
    ensures ends { IfOk result (λ found. map (λ (v : Event). v.end) found.items ≡ times durations.now
        journal.now.entries) }
    ensures entries { IfOk result (λ found. map (λ (v : Event). v.entry) found.items ≡ journal.now.entries) }
{
    let ends = times_of(alloc, journal, durations)?;
    let mut events = Vec::with_capacity(alloc, journal.len() as usize)?;
    let mut past = Past::at_opening();
    for at in 0..journal.len() {
        let entry = journal.at(at);
        let end = ends[at as usize];
        let plate = past.plate(&entry);
        let place = past.place(&entry);
        events.push(Event {
            number: at + 1,
            begin: past.begin(&entry, end),
            end,
            entry,
            plate,
            place,
        })?;
        past.pass(&entry, end);
    }
    Ok(events)
}
