//! The tests of `cell_control`: cells at the other end of two pipes, and the texts of a controlled run.
mod failing;
mod lines;
mod orders;
mod round;
mod sample;
