//! The tests of `cell_diagnosis`: worked rows of readings, and all sequences of a few readings beside a plain program.
mod plain;
mod rows;
mod sequences;
