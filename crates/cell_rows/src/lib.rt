//! The records of a text in csv, one at a time from any reader, seen as a list of records.
//!
//! A text has no header row, its records may be of any length, and no field is trimmed. As csv reads it, blank lines
//! give no record, a field may be quoted, the last record needs no line end, and a byte order mark at the start is
//! skipped. Fields are bytes, which needn't be UTF-8.
//!
//! A line without quotes that turns out to be no record of four fields of at most 20 bytes each is refused there
//! (`Unfit`), so that no such line is held in memory, however long it is: what is read here has no longer records. csv
//! holds the records that it reads, and of a text that begins with a byte order mark it reads all.
#![tactic(auto)]

mod ahead;
pub mod laws;
mod places;
mod rows;
mod scan;
mod script;
mod together;
mod watched;

pub use rows::{Four, RowError, RowReader};
pub use script::{LineError, MAX_LINES, ScriptLine, read_script};
pub use watched::{TellsFault, Watched};
