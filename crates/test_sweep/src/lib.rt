//! The tests of `cell_branches`, `cell_charts` and `cell_sweep`, each in the module of its crate.
#![tactic(auto)]

#[cfg(test)]
mod branches;
#[cfg(test)]
mod charts;
#[cfg(test)]
mod sweep;
