//! A whole cell, as a controller reaches it.
use crate::desk::{Reply, Wish};
use crate::gone::Gone;
use cell_diagnosis::Reading;
use cell_types::{Command, Machine, Station};
use operator_desk::Task;
use plate_book::Refusal;

/// A whole cell, as a controller reaches it in rounds: its machines' readings, their commands, what the operator does
/// by hand, and what someone at the cell did and wants. It may tell of each call what it was asked and answered.
pub trait Plant {
    ghost use Rattle.std.specs.Prelude.{⊤, is_ok};
    ghost use Rattle.cell_ports.specs.declared.port.Act.TheVariants as act;
    ghost use Rattle.cell_plant.specs.Asked.{Acted, Asked, Closed, Handed, Opened};
    ghost use Rattle.cell_plant.specs.Asked.{Ordered, Refused, Replied, Shown, Wished};

    /// What it tells of a call: the cell before it and after it, what it was asked, and what it answered.
    ghost told: { Self → Self → Asked → Type 0 } = { λ _ _ _. ⊤ };

    /// A round begins: what is read of the cell as a whole is read now.
    fn begin_round(&mut self) -> Result<(), Gone>
        ensures told { told self.old self.new (Opened (is_ok result)) };

    /// What a machine's switches and sensors show in this round; `None` where the reading is missing.
    fn read(&mut self, machine: Machine) -> Option<Reading>
        ensures told { told self.old self.new (Shown machine result) };

    /// Sends a command to a machine, and says whether it was carried out. After the error that isn't known.
    fn command(&mut self, machine: Machine, command: Command) -> Result<bool, Gone>
        ensures told { told self.old self.new (Ordered machine command result) };

    /// Takes out the plate at a station by hand, and says whether that was done. After the error that isn't known.
    fn remove(&mut self, station: Station) -> Result<bool, Gone>
        ensures told { told self.old self.new (Handed (act.Remove station) result) };

    /// Puts the axes of a machine at home by hand, and says whether that was done. After the error that isn't known.
    fn home(&mut self, machine: Machine) -> Result<bool, Gone>
        ensures told { told self.old self.new (Handed (act.Home machine) result) };

    /// The next of what someone did at the cell, if there is more.
    fn act_done(&mut self) -> Option<Task>
        ensures told { told self.old self.new (Acted result) };

    /// Tells that the book refuses what someone did at the cell.
    fn refuse_act(&mut self, task: Task, why: Refusal)
        ensures told { told self.old self.new (Refused task why) };

    /// The next of what someone at the cell wants, if there is more.
    fn wish(&mut self) -> Option<Wish>
        ensures told { told self.old self.new (Wished result) };

    /// Answers the wish that came last.
    fn reply(&mut self, reply: Reply) -> Result<(), Gone>
        ensures told { told self.old self.new (Replied reply (is_ok result)) };

    /// The round is over.
    fn end_round(&mut self) -> Result<(), Gone>
        ensures told { told self.old self.new (Closed (is_ok result)) };
}
