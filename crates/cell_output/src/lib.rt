//! What is written: a writer that notes whether a write of it was refused, the line of a number, and the exit statuses.
#![tactic(auto)]

mod number;
pub mod status;
mod watched;
mod whole;

pub use number::write_number;
pub use watched::{WatchedWriter, WriteFault};
pub use whole::write_whole;
