//! The settings of a run, which a text in TOML says, and the line of the command `check`.
#![tactic(auto)]

mod check;
mod error;
mod escaped;
mod key_path;
mod keys;
mod numbers;
mod read;

pub use check::{check_lines, check_lines_watched, write_checked};
pub use error::SettingsError;
pub use escaped::write_escaped;
pub use key_path::KeyPath;
pub use read::read_settings;
