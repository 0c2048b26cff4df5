//! How long the entries of a journal need at least, and how the time goes.
#![tactic(auto)]

mod clock;
mod course;
mod durations;
mod holders;
pub mod laws;
mod measures;
mod motion;
mod read;
mod rows;
mod table;
mod tally;
mod times;
mod waits;

pub use durations::Durations;
pub use measures::{Held, Measures, Spent, Spread};
pub use motion::{Move, motion_of};
pub use read::{TimesError, read_durations};
pub use rows::{Number, Row, rows_of};
pub use table::{Measured, csv_of, lines_of, table_of};
pub use tally::measure;
pub use times::times_of;
pub use waits::{machine_of, plate_of};
