//! The router and the lights: which press takes the next plate, and which lights the belts want. Their code and
//! definitions stand in `cell_machines`, which asks them.
#![tactic(auto)]

pub use cell_machines::{
    choose_press, deposit_light_wanted, feed_light_wanted, is_at_rest, is_held_by, is_occupied,
    rests_at,
};
