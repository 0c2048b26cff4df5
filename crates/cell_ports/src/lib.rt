//! What a run reaches of its surroundings, and what it is to do: the ports of machines and the operator's hands, with
//! what they tell of what they were asked, and a run's plan.
#![tactic(auto)]

pub mod plan;
pub mod port;

pub use plan::Plan;
pub use port::{Act, OperatorPort, Port, PortFault};
