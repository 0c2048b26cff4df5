//! Sweeps of single faults, of pairs and of drawn faults, and parts of them.
mod chart;
mod kinds;
mod pairs;
mod parts;
mod random;
mod refusals;
mod sample;
mod service;
mod single_runs;
mod threads;
