//! What a machine's worker remembers from one turn to the next.
ghost use Rattle.std.specs.Prelude.{◌≡◌};
ghost use Rattle.cell_diagnosis.specs.RestWatches.{machine_of};
ghost use Rattle.cell_turns.specs.Following.{IsFitted};

use cell_diagnosis::{AxisWatch, RestWatch};
use cell_types::Machine;

/// What a machine's watch keeps of its last command and, beside the readings, of its last turn.
#[derive(Clone, Copy, PartialEq, Eq, Debug)]
pub struct Memory {
    /// The port failed on the last command.
    pub command_failed: bool,
    /// The last reading was the first of a sign's two.
    pub sign: bool,
    /// The machine was booked failed after the last turn.
    pub failed: bool,
    /// A visitor held a zone of the machine.
    pub visited: bool,
    /// The journal's length.
    pub length: u32,
}

/// What a machine's worker remembers from one turn to the next: a watch of the axis that moves and one of the machine
/// at rest, and what is kept of the last turn and the last command. Nothing stores the readings; which verdicts follow
/// is said of the lists of all readings that a watch fits.
#[derive(Clone, Copy, PartialEq, Eq, Debug)]
pub struct Watch {
    pub(crate) machine: Machine,
    pub(crate) axis: Option<AxisWatch>,
    pub(crate) rest: RestWatch,
    pub(crate) memory: Memory,
    ghost same_machine: { machine_of rest ≡ machine },
    ghost fitted: { ∥ IsFitted axis rest ∥₁ },
}
