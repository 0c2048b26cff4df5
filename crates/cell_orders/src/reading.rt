//! Texts that are read as far as they decide: a journal is judged while it is read, of a script and of settings no more
//! is read than one that is good can have. What was read is kept, so that a text without end takes no more than that.

mod ends;
mod journal;
mod keeping;
mod more;
mod script;
mod settings;

pub use journal::{JournalText, journal_text};
pub use script::{ScriptText, script_text};
pub use settings::settings_text;
