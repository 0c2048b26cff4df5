//! The events of a journal, its entries with their times and the plates that they tell of, as rows of CSV, as a trace
//! of slices and marks in JSON, and as the changes of variables in VCD.
#![tactic(auto)]

mod event;
mod events;
mod past;
mod places;
mod rows;
mod teller;
mod texts;
mod trace;
mod vcd;
mod walk;
mod write;

pub use event::{Event, Site};
pub use events::events_of;
pub use write::{EventForm, EventsError, write_events};
