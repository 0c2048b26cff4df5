//! Why a text is refused, in sentences: a journal, a script of faults or the operator's, settings.
#![tactic(auto)]

mod due;
pub mod endings;
mod facts;
mod fields;
mod grammar;
mod journal;
mod places;
mod said;
mod script;
mod settings;
mod shown;
mod telling;
mod unread;
mod wanted;
mod words;

pub use journal::explain_journal;
pub use script::{explain_faults, explain_operator};
pub use settings::explain_settings;
