//! What a picture of the cell shows of a journal's state, and the picture as text.
#![tactic(auto)]

mod facts;
mod parts;
mod scene;
mod sheet;
mod text;
mod views;

pub use facts::{Facts, ShownPlate, facts_of};
pub use parts::{axis_at, holder_at, is_asked, is_failed, lamp_at, plate_at};
pub use scene::{AnswerLine, Scene};
pub use text::draw_text;
pub use views::{facts_after, facts_left, step_on};
