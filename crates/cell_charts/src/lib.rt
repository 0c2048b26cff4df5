//! Charts for print, each as one SVG file: the ends of a sweep's runs, and where the time of journals goes.
#![tactic(auto)]

mod ends;
mod frame;
mod grid;
mod kinds;
mod measures;
mod name;
mod parts;
mod scale;
mod sweep;

pub use measures::{Bar, write_measures_chart};
pub use sweep::{Square, write_sweep_chart};
