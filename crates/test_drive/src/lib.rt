//! The tests of `cell_drive`, in which a method drives the simulated cell by the lines that it writes, and by which
//! `cell_method` is tested too. They stand in the module of its name.
#![tactic(auto)]

#[cfg(test)]
mod drive;
