//! The tests of `cell_runs`: runs of the simulated cell by their texts, in rounds on one thread and on threads.
mod follow;
mod from;
mod refusals;
mod rounds;
mod threads;
