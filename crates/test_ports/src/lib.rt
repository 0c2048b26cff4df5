//! Ports and hands of the operator for the test crates: each stands over another, keeps what it was asked, and fails as
//! a test wants. No test stands here, and no crate but the test crates uses it.
#![tactic(auto)]

mod failing;
mod hands;
mod ports;
mod sent;
mod six;
mod still;

pub use failing::Failing;
pub use hands::TellingHands;
pub use ports::TellingPort;
pub use sent::{did, was_sent};
pub use six::telling_ports;
pub use still::{StillHands, StillPort};
