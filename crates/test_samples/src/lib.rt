//! Samples for the test crates: the journals of one plate and of a plate that is laid back, entries and books by their
//! records, scripts, readers and writers that fail, are slow or are interrupted, all that a book tells, and marks
//! around a call. No test stands here, and no crate but the test crates uses it.
#![tactic(auto)]

mod books;
mod journals;
mod marks;
mod records;
mod scripts;
mod streams;
mod told;

pub use books::{begun, book_all};
pub use journals::{entries_of, is_list_of};
pub use marks::{call_begins, call_ends};
pub use records::{LAID_BACK, ONE_PLATE, entry_of, one_plate_text, plate, text_of};
pub use scripts::{CLEARED_PRESS, STUCK_PRESS};
pub use streams::{FailingReader, FailingWriter, Interrupted, Pieces, Unwilling};
pub use told::Told;
