//! The lines of a text that is read with bounded memory, each as a record of four fields.
#![tactic(auto)]

mod reader;
mod split;

pub use reader::{ReadFault, RecordReader};
pub use split::{cut, record_of};
