//! The tests of `cell_turns`: schedules over the simulated cell in which readings, ports, hands and orders are hostile.
mod checks;
mod habits;
mod hostile;
mod left_out;
mod random;
mod settings;
mod stage;
mod tally;
