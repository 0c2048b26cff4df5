//! The tests of `cell_runs`: runs of the simulated cell by their texts, in rounds on one thread and by workers on
//! threads; and of `cell_turns`: hostile schedules over that cell. Each stands in the module of its crate.
#![tactic(auto)]

#[cfg(test)]
mod runs;
#[cfg(test)]
mod turns;
