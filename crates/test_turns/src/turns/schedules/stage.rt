//! A book, its watches, its ports and the operator's hands, on which schedules go on.
ghost use Rattle.std.specs.Prelude.{◌≡◌, ◌<◌};
ghost use Rattle.cell_types.specs.declared.words.Machine.{Machine as MachineValue};
ghost use Rattle.cell_turns.specs.Six.{at};
ghost use Rattle.cell_turns.specs.Minds.{machine_of_watch};
ghost use Rattle.cell_ledger.specs.New.{AreBlank};

use crate::turns::told_by;
use cell_ledger::{Blanks, Kept, Run, Shares};
use cell_turns::{OperatorPort, Plan, Port, Ran, Six, Step, Watch, Watches, run_schedule};
use cell_types::{Machine, Totals};
use plate_book::Book;
use std::alloc::Global;
use std::process::Abort;
use test_ports::TellingPort;
use test_samples::Told;

/// What schedules go on over.
#[derive(Drop)]
pub(crate) struct Stage<R: Run, P, O> {
    kept: Kept<R>,
    shares: Shares<R>,
    watches: Watches,
    ports: Six<TellingPort<P>>,
    hands: O,
}

/// What a turn of a machine that is refused leaves as it was.
#[derive(Drop)]
pub(crate) struct Was {
    told: Told,
    counts: Totals,
    watch: Watch,
    asked: u32,
}

impl<R: Run, P: Port + Drop, O: OperatorPort + Drop> Stage<R, P, O> {
    /// A book with these ports and hands, before its first turn.
    pub(crate) fn new(
        book: Book,
        blanks: Blanks,
        ports: Six<TellingPort<P>>,
        hands: O,
    ) -> Stage<R, P, O>
        requires parts { 0 < R.parts }
        requires limits { book.limits ≡ R.limits }
        requires ledgers { AreBlank R.Run blanks }
        ensures machines { (m : MachineValue) → machine_of_watch (at result.watches m) ≡ m }
    {
        let watches = Watches::start(&book);
        let (kept, shares) = Kept::<R>::new(book, blanks);
        Stage {
            kept,
            shares,
            watches,
            ports,
            hands,
        }
    }

    // The watch of a machine, as it is.
    fn watch_of(&self, machine: Machine) -> Watch {
        let watches = &self.watches;
        match machine {
            Machine::Feed => watches.feed,
            Machine::Table => watches.table,
            Machine::Robot => watches.robot,
            Machine::Press1 => watches.press1,
            Machine::Press2 => watches.press2,
            Machine::Deposit => watches.deposit,
        }
    }

    // How many commands a machine's port was asked to send.
    fn asked_of(&self, machine: Machine) -> u32 {
        let ports = &self.ports;
        match machine {
            Machine::Feed => ports.feed.asked(),
            Machine::Table => ports.table.asked(),
            Machine::Robot => ports.robot.asked(),
            Machine::Press1 => ports.press1.asked(),
            Machine::Press2 => ports.press2.asked(),
            Machine::Deposit => ports.deposit.asked(),
        }
    }

    /// What a turn of a machine that is refused would leave as it is.
    pub(crate) fn was(&self, rt: &impl Abort, alloc: Global, machine: Machine) -> Was {
        Was {
            told: told_by(rt, alloc, self.kept.book()),
            counts: self.shares.counts(),
            watch: self.watch_of(machine),
            asked: self.asked_of(machine),
        }
    }

    /// Checks that the book, the shares, a machine's watch and its port are as they were.
    pub(crate) fn check_was(&self, rt: &impl Abort, alloc: Global, machine: Machine, was: &Was) {
        let now = self.was(rt, alloc, machine);
        assert!(rt; now.told.is_same(&was.told));
        assert!(rt; now.counts == was.counts && now.asked == was.asked);
        assert!(rt; now.watch == was.watch);
    }

    /// Takes steps, for which there is memory.
    pub(crate) fn take(
        &mut self,
        rt: &impl Abort,
        alloc: Global,
        steps: &[Step],
        plan: &Plan,
    ) -> Ran
        requires { (m : MachineValue) → machine_of_watch (at self.old.watches m) ≡ m }
        ensures machines { (m : MachineValue) → machine_of_watch (at self.new.watches m) ≡ m }
    {
        let ran = run_schedule(
            alloc,
            steps,
            &mut self.ports,
            &mut self.hands,
            &mut self.kept,
            &mut self.shares,
            &mut self.watches,
            plan,
        );
        let Ok(ran) = ran else {
            panic!(rt; "there is memory");
        };
        ran
    }
}
