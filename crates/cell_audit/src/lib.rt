//! A journal's text: its audit, whether the text spells a legal journal and what that journal counts, its writing, its
//! migration, and what is printed for an audit and a migration.
#![tactic(auto)]

mod booking;
mod error;
mod judge;
pub mod laws;
mod lines;
mod migration;
mod profile;
mod read;
mod write;

pub use error::{AuditError, MigrateError};
pub use judge::{audit, audit_rows, audit_text, entry_of};
pub use lines::{
    audit_lines, audit_lines_watched, audit_rows_watched, migrate_lines, migrate_rows_watched,
    status_of, write_answer,
};
pub use migration::{migrate, migrate_watched};
pub use profile::Profile;
pub use read::{Audited, read_rows};
pub use write::{WriteError, write_journal, write_journal_watched};
