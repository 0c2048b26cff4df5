//! The tests of `cell_rounds` and `cell_control`: cells that are controlled over their ports and over lines, by which
//! `cell_plant` and `cell_lines` are tested too. Each test stands in the module of the crate whose call it tests.
#![tactic(auto)]

#[cfg(test)]
mod control;
#[cfg(test)]
mod rounds;
