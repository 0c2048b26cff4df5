//! The rules: which entry is allowed after those before it, and what holds of every journal of allowed entries.
#![tactic(auto)]

pub mod laws;
pub mod limits;
pub mod refusal;

pub use limits::BookLimits;
pub use refusal::Refusal;
