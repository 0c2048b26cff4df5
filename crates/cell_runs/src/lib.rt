//! Runs of the simulated cell by their texts, in rounds on one thread or by workers on threads, from the opening or
//! from a journal on, and what is printed of them.
#![tactic(auto)]

mod booking;
mod follow;
mod followed;
mod following;
mod inputs;
pub mod laws;
mod lent;
mod ports;
mod refused;
mod report;
mod rounds;
mod run_from;
mod simulation;
mod steps;
mod texts;

pub use booking::book_after;
pub use cell_turns::empty_book;
pub use follow::{Followed, Following};
pub use following::follow_after;
pub use inputs::{InputError, Inputs, Texts, read_inputs};
pub use ports::sim_ports;
pub use refused::refuse_input;
pub use rounds::{Outcome, run_over};
pub use run_from::run_after;
pub use simulation::{follow_journal, run_on, simulate, simulate_from};
pub use texts::{KeptRun, Left, Mode, keep_outcome, run_kept, run_texts};
