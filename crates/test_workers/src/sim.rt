//! The simulated cell, step by step.
mod belts;
mod faults;
pub(crate) mod looks;
mod machines;
mod plates;
mod ports;
mod returns;
mod rules;
mod script;
mod state;
pub(crate) mod steps;
