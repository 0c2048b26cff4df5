//! The watches of the six machines.
ghost use Rattle.std.specs.Prelude.{◌≡◌};
ghost use Rattle.cell_types.specs.declared.words.Machine.{Machine as MachineValue};
ghost use Rattle.cell_turns.specs.Six.{at, each};
ghost use Rattle.cell_turns.specs.Minds.{machine_of_watch, first_mind};
ghost use Rattle.cell_turns.specs.Schedules.{FitAll};

use crate::{Six, Watch};
use cell_types::Machine;
use plate_book::Book;

/// The six machines' watches.
pub type Watches = Six<Watch>;

impl Six<Watch> {
    /// A watch of each machine, none of which has taken a turn yet.
    pub fn start(book: &Book) -> Watches
        ensures machines { (m : MachineValue) → machine_of_watch (at result m) ≡ m }
        ensures fits { FitAll result (each (λ m. first_mind book.now.entries m)) }
    {
        Six {
            feed: Watch::start(Machine::Feed, book),
            table: Watch::start(Machine::Table, book),
            robot: Watch::start(Machine::Robot, book),
            press1: Watch::start(Machine::Press1, book),
            press2: Watch::start(Machine::Press2, book),
            deposit: Watch::start(Machine::Deposit, book),
        }
    }
}
