//! Runs in which no machine is declared failed, or only some may be, and no stop is asked.
#![tactic(auto)]

pub mod laws;
