//! The command that shows the cell: what is written for a journal's text, as its first entries left the cell.
#![tactic(auto)]

mod beside;
pub mod chart;
mod error;
pub mod moving;
pub mod page;
mod show;

pub use beside::{Beside, show_beside};
pub use error::ShowError;
pub use show::{Form, show_journal, show_rows};
