//! Why a run ended as it did: which limit ended it, how many plates weren't admitted and were laid back, which machines
//! are failed, what stands in the cell and what it waits for, and what of the operator's script and of the faults was
//! left.
mod counts;
mod ending;
mod failures;
mod faults;
mod limit;
mod operator;
mod plates;
mod words;

pub use ending::{EndedRun, write_ending};
pub use faults::motions;
pub use operator::lines_done;
