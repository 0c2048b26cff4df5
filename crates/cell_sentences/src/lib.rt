//! What an entry says, why an entry is refused, and the words of the cell, in plain English.
#![tactic(auto)]

mod deed;
mod entry;
mod names;
mod refusal;

pub use deed::EntryDeed;
pub use entry::{EntrySentence, PlateName, actor_name};
pub use names::{
    arm_name, axis_name, axis_of_its_machine, cause_name, colour_name, light_name, machine_name,
    pose_name, station_name, the_machine, way_to_pose, zone_name,
};
pub use refusal::RefusalSentence;
