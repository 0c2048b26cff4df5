//! Readings of the cell's switches and sensors, and the verdicts on them: whether a motion has arrived, and which fault
//! a component shows. A watch keeps counters alone, and its answer is the verdict of all readings since its start. The
//! rules are this project's own profile of the fault-tolerant production cell.
#![tactic(auto)]

mod axis_facts;
mod axis_watch;
mod expect;
pub mod laws;
mod limits;
mod motion;
mod reading;
mod rest_facts;
mod rest_watch;
mod verdict;

pub use axis_watch::AxisWatch;
pub use expect::Expect;
pub use limits::Limits;
pub use motion::Motion;
pub use reading::{Reading, bit};
pub use rest_watch::RestWatch;
pub use verdict::Verdict;
