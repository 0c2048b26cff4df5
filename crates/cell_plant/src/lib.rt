//! A whole cell as a controller reaches it, and what keeps each entry before its command goes out.
#![tactic(auto)]

mod desk;
mod gone;
mod keeper;
mod plant;
mod ported;

pub use desk::{Denial, Reply, Wish};
pub use gone::Gone;
pub use keeper::{KeepFault, Keeper, Unkept};
pub use plant::Plant;
pub use ported::Ported;
