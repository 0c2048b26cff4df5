//! The tests of `cell_rows`, `cell_audit`, `operator_desk` and `cell_settings`, each in the module of its crate. By
//! them what `cell_output` writes is tested too.
#![tactic(auto)]

#[cfg(test)]
mod audit;
#[cfg(test)]
mod desk;
#[cfg(test)]
mod rows;
#[cfg(test)]
mod settings;
