//! A run in rounds over any cell: the machines' turns, what the operator does by his script, and what someone at the
//! cell did and wants. Each entry is kept before its command goes out.
#![tactic(auto)]

mod desk;
mod hands;
mod pause;
mod progress;
mod run;
mod settle;
mod turning;

pub use pause::Pause;
pub use progress::Halt;
pub use run::{Leg, Outcome, Start, Terms, control, finish, go_on};
pub use settle::{LastCommand, last_command};
