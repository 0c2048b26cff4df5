//! This project's controller of a cell at the other end of two pipes, by the texts of a run.
#![tactic(auto)]

mod going_on;
mod texts;
mod told;

pub use texts::{ControlOptions, Finished, Orders, Streams, control_cell, read_orders};
