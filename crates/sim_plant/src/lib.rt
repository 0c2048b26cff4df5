//! The simulated cell as a whole cell that a controller on one thread reaches, with no lock round it.
#![tactic(auto)]

mod faultless;
mod plant;

pub use faultless::Faultless;
pub use plant::SimPlant;
