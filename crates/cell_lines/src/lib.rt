//! A cell at the other end of two pipes: the lines that it writes, read with bounded memory, and those that are written
//! to it.
#![tactic(auto)]

mod far_end;
mod known;
mod put;
mod reading;
mod said;
mod unread;
mod word;
mod written;

pub use far_end::{FarEnd, Loss, MAX_LINES};
