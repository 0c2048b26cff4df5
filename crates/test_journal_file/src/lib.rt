//! The tests of `cell_journal_file`.
#![tactic(auto)]

#[cfg(test)]
mod disk;
#[cfg(test)]
mod reading;
#[cfg(test)]
mod writing;
