//! The tests of `cell_measures`: measures computed by hand, journals whose independent entries are exchanged, tables,
//! lines of CSV, and files of times.
mod one_plate;
pub(crate) mod samples;
mod shuffled;
mod tables;
mod times_files;
