//! The plate book tied to six ledgers, which count across threads, and the shares that count beside it.
#![tactic(auto)]

pub mod blanks;
mod counts;
pub mod kept;
pub mod run;
pub mod shares;
mod six;

pub use blanks::Blanks;
pub use kept::Kept;
pub use run::Run;
pub use shares::Shares;
