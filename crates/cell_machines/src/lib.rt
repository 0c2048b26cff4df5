//! The machine cores: what each of the six machines does next, with the router and the lights that they ask.
#![tactic(auto)]

mod belts;
mod jobs;
pub mod laws;
mod lights;
mod policy;
mod presses;
mod proposals;
mod reads;
mod robot;
mod router;
mod rows;
mod table;

pub use belts::{deposit_rows, feed_rows};
pub use policy::{
    choose_press, deposit_light_wanted, feed_light_wanted, is_at_rest, is_held_by, is_occupied,
    rests_at,
};
pub use presses::{press1_rows, press2_rows};
pub use proposals::propose;
pub use robot::{arms_in_rows, arms_out_rows, claim_rows, drop_at, grip, turn_rows, yield_rows};
pub use table::table_rows;
