//! The turns of the machines on one thread: what a turn books and which command it answers, and where a schedule of
//! turns leads.
#![tactic(auto)]

mod books;
pub mod hands;
pub mod joining;
pub mod schedule;
pub mod scheduling;
pub mod six;
pub mod turns;
pub mod watch;
pub mod watches;
mod watching;

pub use books::empty_book;
pub use cell_ports::{Act, OperatorPort, Plan, Port, PortFault};
pub use schedule::{OutOfMemory, Step};
pub use scheduling::{LentState, Ran, run_schedule, run_step};
pub use six::{Ports, Six};
pub use turns::{TurnError, turn};
pub use watch::Watch;
pub use watches::Watches;
