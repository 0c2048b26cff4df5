//! One thing for each machine.
ghost use Rattle.std.specs.Prelude.{◌≡◌};
ghost use Rattle.std.specs.Borrow.{sem};
ghost use Rattle.cell_turns.specs.Six.{LendsAt, at};

use cell_types::Machine;

/// One thing for each of the cell's six machines.
#[derive(Debug, Drop)]
pub struct Six<T> {
    pub feed: T,
    pub table: T,
    pub robot: T,
    pub press1: T,
    pub press2: T,
    pub deposit: T,
}

/// The six machines' ports.
pub type Ports<P> = Six<P>;

impl<T> Six<T> {
    /// That of one machine.
    pub fn pick(&mut self, machine: Machine) -> &mut T
        ensures* lends { sem 𝓛 (LendsAt T.row machine self.entry result) }
        ensures value { result.now ≡ at self.old machine }
    {
        match machine {
            Machine::Feed => &mut self.feed,
            Machine::Table => &mut self.table,
            Machine::Robot => &mut self.robot,
            Machine::Press1 => &mut self.press1,
            Machine::Press2 => &mut self.press2,
            Machine::Deposit => &mut self.deposit,
        }
    }
}
