//! Runs of the simulated cell with faults that go on from where the run without faults was paused. Such a run is the
//! one from the opening, since no fault does anything before its motion begins.
#![tactic(auto)]

mod trunk;

pub use trunk::{Branch, Trunk};
