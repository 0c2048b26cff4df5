//! The tests of `cell_command`.
mod refused;
mod told;
mod words;
