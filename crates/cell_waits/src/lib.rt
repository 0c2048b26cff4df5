//! Who waits for what: of each machine what it wants next after the first entries of a book, and what refuses that.
#![tactic(auto)]

mod course;
mod ends;
mod past;
mod reads;
mod sought;
mod waiting;

pub use past::Past;
pub use waiting::{Waiting, waits_for};
