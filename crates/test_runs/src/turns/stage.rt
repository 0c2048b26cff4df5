//! A book, its watches, its ports and the operator's hands, on which schedules go on.
ghost use Rattle.std.specs.Prelude.{◌≡◌, ◌<◌};
ghost use Rattle.cell_types.specs.declared.words.Machine.{Machine as MachineValue};
ghost use Rattle.cell_turns.specs.Six.{at};
ghost use Rattle.cell_turns.specs.Minds.{machine_of_watch};
ghost use Rattle.cell_ledger.specs.New.{AreBlank};

use cell_ledger::{Blanks, Kept, Run, Shares};
use cell_turns::{OperatorPort, Plan, Port, Ran, Six, Step, Watch, Watches, run_schedule};
use cell_types::Machine;
use plate_book::Book;
use std::process::Abort;
use test_ports::{Failing, TellingHands, TellingPort, telling_ports};

/// How the devices fail, and what they keep.
#[derive(Clone, Copy)]
pub(crate) struct Devices {
    /// At which of its commands each port fails.
    pub(crate) failing: [Failing; 6],
    /// At which of its acts each kind of act by hand fails.
    pub(crate) removing: Failing,
    pub(crate) homing: Failing,
    /// How many answers and commands a port keeps, and how many acts the hands keep: more than there are steps.
    pub(crate) room: usize,
}

/// What schedules go on over.
#[derive(Drop)]
pub(crate) struct Stage<R: Run, P, O> {
    pub(crate) kept: Kept<R>,
    pub(crate) shares: Shares<R>,
    pub(crate) watches: Watches,
    pub(crate) ports: Six<TellingPort<P>>,
    pub(crate) hands: TellingHands<O>,
}

impl<R: Run, P: Port + Drop, O: OperatorPort + Drop> Stage<R, P, O> {
    /// A book with these ports and hands, which fail so, before its first turn.
    pub(crate) fn new<W: AllocGlobal + Abort>(
        rt: &W,
        devices: &Devices,
        ports: Six<P>,
        hands: O,
        book: Book,
        blanks: Blanks,
    ) -> Stage<R, P, O>
        requires parts { 0 < R.parts }
        requires limits { book.limits ≡ R.limits }
        requires ledgers { AreBlank R.Run blanks }
        ensures machines { (m : MachineValue) → machine_of_watch (at result.watches m) ≡ m }
    {
        let alloc = rt.alloc();
        let ports = telling_ports(alloc, ports, devices.failing, devices.room);
        let ports = ports.expect(rt, "memory");
        let hands = TellingHands::new(alloc, hands, devices.removing, devices.homing, devices.room);
        let hands = hands.expect(rt, "memory");
        let watches = Watches::start(&book);
        let (kept, shares) = Kept::<R>::new(book, blanks);
        Stage {
            kept,
            shares,
            watches,
            ports,
            hands,
        }
    }

    /// The watch of a machine, as it is.
    pub(crate) fn watch_of(&self, machine: Machine) -> Watch {
        let watches = &self.watches;
        match machine {
            Machine::Feed => watches.feed,
            Machine::Table => watches.table,
            Machine::Robot => watches.robot,
            Machine::Press1 => watches.press1,
            Machine::Press2 => watches.press2,
            Machine::Deposit => watches.deposit,
        }
    }

    /// Takes steps, for which there is memory.
    pub(crate) fn take<W: AllocGlobal + Abort>(
        &mut self,
        rt: &W,
        steps: &[Step],
        plan: &Plan,
    ) -> Ran
        requires { (m : MachineValue) → machine_of_watch (at self.old.watches m) ≡ m }
        ensures machines { (m : MachineValue) → machine_of_watch (at self.new.watches m) ≡ m }
    {
        let ran = run_schedule(
            rt.alloc(),
            steps,
            &mut self.ports,
            &mut self.hands,
            &mut self.kept,
            &mut self.shares,
            &mut self.watches,
            plan,
        );
        ran.expect(rt, "memory")
    }
}
