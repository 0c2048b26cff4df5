//! The operator's script: which machine is to be stopped or repaired, which station cleared and which plate laid back,
//! and when; and what the operator does next.
#![tactic(auto)]

mod action;
mod line;
mod read;
mod script;

/// Why a script can't be read: its error is that of any script of lines.
pub use action::{Action, entry_of, holds};
pub use cell_rows::LineError as ScriptError;
pub use line::{Line, Task, Trigger};
pub use script::Script;
