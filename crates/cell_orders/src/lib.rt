//! What is done for an order of the command line that runs no cell: the audit, the migration, the pictures, the
//! explanations, the measures and the events of a journal, the check of a run's settings, and the search through every
//! order of events. Files are read here as far as they decide, and what can't be read is told by the name of its file.
#![tactic(auto)]

mod asked;
mod error;
mod events;
mod explain;
mod explore;
mod failure;
mod judge;
mod measure;
mod mistaken;
mod numbers;
mod reading;
mod show;
mod texts;
mod times;
mod windows;

pub use error::CommandError;
pub use events::events_words;
pub use explain::{Text, explain_words};
pub use explore::explore_words;
pub use failure::Failure;
pub use judge::{audit_file, check_file, migrate_file};
pub use measure::measure_words;
pub use mistaken::wrong;
pub use numbers::{WRONG_THREADS, number_in, number_or, threads_of};
pub use reading::{JournalText, ScriptText, journal_text, script_text, settings_text};
pub use show::show_words;
pub use texts::{book_in, journal_in, script_in, settings_in, tell_too_long, told};
pub use times::{durations_in, tell_times};
