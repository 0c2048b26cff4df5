//! The conversation with a control method: the lines that it writes, the answers to them, and the rounds in which it
//! books entries for the machines of a cell over any ports, reader and writer.
//!
//! A method's line is held only as far as it can be a record, so that the memory of a run is bounded however long a
//! line is.
#![tactic(auto)]

mod ask;
mod booking;
mod conversation;
mod entry_line;
mod error;
mod line;
mod onlooker;
mod operator;
mod reading_line;
mod reply;
mod rounds;

pub use ask::{Ask, ask_of};
pub use booking::MAX_LINES;
pub use conversation::Conversation;
pub use entry_line::tell_entries;
pub use error::DriveError;
pub use line::LineReader;
pub use onlooker::Onlooker;
pub use reading_line::ReadingLine;
pub use reply::Reply;
pub use rounds::{DriveEnd, drive};
