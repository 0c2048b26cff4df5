//! The workers of a run: six machines' and the operator's, each on a thread of its own, over one book under one lock.
//! Ports and plans are those of `cell_ports`, and watches, turns and schedules on one thread those of `cell_turns`, all
//! handed on under this crate's name.
#![tactic(auto)]

pub mod ends;
pub mod hall;
pub mod operating;
pub mod running;
pub mod team;
pub mod working;

pub use cell_ports::{Act, OperatorPort, Plan, Port, PortFault};
pub use cell_turns::{
    LentState, OutOfMemory, Ports, Ran, Six, Step, TurnError, Watch, Watches, run_schedule,
    run_step, turn,
};
pub use ends::{End, end_at_rest, is_idle};
pub use hall::{Ended, Hall, Room};
pub use operating::run_operator;
pub use running::{Report, RunError, run_cell};
pub use working::{Worked, run_worker};
