//! The records of the cell, and which entries they admit.
#![tactic(auto)]

pub mod book;
mod lists;
pub mod open_error;
pub mod records;
mod registers;
mod visits;

pub use book::Book;
pub use cell_rules::{BookLimits, Refusal, laws};
pub use open_error::OpenError;
pub use records::Records;
pub use registers::Registers;
