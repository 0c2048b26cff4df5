//! One page with all states of a journal: a file for a browser, which needs nothing from elsewhere.
mod beside;
mod error;
mod parts;
mod refused;
mod rows;
mod still;
mod waits;
mod whole;
mod window;
mod words;

pub use beside::write_beside;
pub use error::PageError;
pub use whole::write_page;
pub use window::{MAX_PAGE_ENTRIES, Window};
