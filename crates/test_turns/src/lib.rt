//! The tests of `cell_policy`, `cell_machines`, `cell_ledger` and `cell_turns`, each in the module of its crate.
#![tactic(auto)]

#[cfg(test)]
mod ledger;
#[cfg(test)]
mod machines;
#[cfg(test)]
mod policy;
#[cfg(test)]
mod turns;
