//! The tests of `cell_sim` and of `cell_workers`, each in the module of its crate.
#![tactic(auto)]

#[cfg(test)]
mod same;
#[cfg(test)]
mod sim;
#[cfg(test)]
mod workers;
