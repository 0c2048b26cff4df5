//! The tests of `cell_types`, `cell_views`, `cell_journal`, `cell_diagnosis` and `plate_book`, each in the module of
//! its crate.
#![tactic(auto)]

#[cfg(test)]
mod book;
#[cfg(test)]
mod cases;
#[cfg(test)]
mod diagnosis;
#[cfg(test)]
mod journal;
#[cfg(test)]
mod types;
#[cfg(test)]
mod views;
