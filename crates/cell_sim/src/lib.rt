//! The simulated cell: machines that move, show their switches and sensors and go wrong by a script, and the hands that
//! clear and repair them. Its physics is this project's own profile: each call of a world has a clause that says what
//! the world is after it. Of a world behind a lock none does.
#![tactic(auto)]

mod axis;
mod fault;
pub mod laws;
mod motion;
mod port;
mod read;
mod script;
mod switches;
mod watch;
mod world;

/// Why a script of faults can't be read: its error is that of any script of lines.
pub use cell_rows::LineError as FaultError;
pub use fault::{Fault, PlannedFault};
pub use port::{SimOperator, SimPort};
pub use script::FaultScript;
pub use watch::{Occasion, SAFETY_RULES, SafetyRule};
pub use world::World;
