//! The simulated cell, driven by a control method over a reader and a writer: by entries of the machines' journal, or
//! by commands to the bare machines, with what is measured of a run.
#![tactic(auto)]

mod begun;
mod by_commands;
mod by_entries;
mod gauged;
mod hands;
mod looker;
mod measures;
mod own;
mod refusals;
mod report;
mod texts;
mod unread;
mod untruth;
mod wish;

pub use own::run_measured;
pub use texts::{DriveOptions, drive_texts};
