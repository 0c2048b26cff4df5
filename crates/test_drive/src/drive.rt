//! The tests of `cell_drive`: runs by entries and by commands, from the opening and from a journal, and their measures.
mod commands;
mod entries;
mod hostile;
mod own;
mod sample;
mod takeover;
