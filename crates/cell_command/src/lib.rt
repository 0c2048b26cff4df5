//! The command line of the program: its commands with their helps, the order that its words give, and what is told
//! where a file or a stream fails.
#![tactic(auto)]

mod command;
mod count;
mod escaped;
mod failure;
mod help;
mod order;
mod table;

pub use count::{Count, read_count};
pub use escaped::Escaped;
pub use failure::{Resource, tell_failure};
pub use order::{
    Continuing, Controlling, Driving, Explaining, Exploring, Listing, Measuring, Order, Paths,
    Running, Showing, Sweeping, read_words,
};
