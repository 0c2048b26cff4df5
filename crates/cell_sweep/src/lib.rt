//! Sweeps over the simulated cell: runs with faults of each kind in each motion of each axis, and what is told of each.
#![tactic(auto)]

mod batch;
mod cases;
mod choice;
mod form;
mod kinds;
mod lines;
mod lots;
mod places;
mod print;
mod row;
mod runs;
mod service;
mod shared;
mod sweep;
mod texts;

pub use choice::{Choice, Part};
pub use form::Form;
pub use kinds::{KINDS, KindsError, read_kinds};
pub use sweep::{Sweep, sweep_texts};
