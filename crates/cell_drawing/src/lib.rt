//! The cell drawn: what a journal's first entries left as one SVG file, and one in which a journal's entries play.
#![tactic(auto)]

mod geometry;
mod ink;
mod machines;
mod moving;
mod picture;
mod robot;
mod spots;

pub use geometry::write_geometry;
pub use moving::draw_moving;
pub use picture::draw_picture;
