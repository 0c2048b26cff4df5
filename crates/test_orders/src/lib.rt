//! The tests of `cell_command`, of the texts that `cell_orders` reads, of `cell_explain` and `cell_explore`, each in
//! the module of its crate. Those of `cell_explain` also test `run_kept` of `cell_runs`, whose runs are explained.
#![tactic(auto)]

#[cfg(test)]
mod command;
#[cfg(test)]
mod explain;
#[cfg(test)]
mod explore;
#[cfg(test)]
mod orders;
