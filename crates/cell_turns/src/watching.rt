//! The start of a machine's watch, and what is asked of it.
ghost use Rattle.std.specs.Prelude.{◌≡◌, true};
ghost use Rattle.cell_turns.specs.Minds.{Mind, FitsMind, machine_of_watch, has_failed_command, first_mind};
ghost use Rattle.cell_turns.specs.Minds.{with_failure, is_quiet};

use crate::turns::remember::remembered;
use crate::watch::Watch;
use cell_diagnosis::RestWatch;
use cell_types::Machine;
use plate_book::Book;

impl Watch {
    /// A watch of a machine that has taken no turn yet. It counts as after a turn that booked nothing.
    pub fn start(machine: Machine, book: &Book) -> Watch
        ensures machine { machine_of_watch result ≡ machine }
        ensures fits { FitsMind result (first_mind book.now.entries machine) }
    {
        Watch {
            machine,
            axis: None,
            rest: RestWatch::start(machine),
            memory: remembered(book, machine, false, false),
        }
    }

    /// The machine's port failed on the command of its last entry: the next entry of a healthy machine is its
    /// `Declared` with `CommandFault`.
    pub fn command_failed(&mut self)
        ensures machine { machine_of_watch self.new ≡ machine_of_watch self.old }
        ensures failed { has_failed_command self.new ≡ true }
        ensures fits { (s : Mind) → FitsMind self.old s → FitsMind self.new (with_failure s) }
    {
        self.memory.command_failed = true;
    }

    /// Whether the last reading was present and agreed with what was expected of it, and no sign is open. False before
    /// the first reading.
    pub fn quiet(&self) -> bool
        ensures { (s : Mind) → FitsMind self.now s → result ≡ is_quiet s }
    {
        self.rest.agreed() && !self.memory.sign
    }
}
