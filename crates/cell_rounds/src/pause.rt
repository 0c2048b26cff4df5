//! A run that is paused between two rounds.
ghost use Rattle.std.specs.Prelude.{◌≡◌};
ghost use Rattle.cell_types.specs.declared.words.Machine.{Machine as MachineValue};
ghost use Rattle.cell_turns.specs.Minds.{machine_of_watch};
ghost use Rattle.cell_turns.specs.Six.{at};
ghost use Rattle.cell_rounds.specs.Pauses.{IsUnbegun};

use crate::run::Start;
use crate::settle::{PendingCommand, begin_looking};
use cell_ports::Plan;
use cell_turns::Watches;
use operator_desk::Script;
use plate_book::Book;
use std::marker::Model;

/// What a run has between two rounds, but its cell and what keeps its entries.
#[derive(Drop)]
pub struct Pause {
    pub(crate) book: Book,
    pub(crate) watches: Watches,
    pub(crate) script: Script,
    pub(crate) lost: bool,
    pub(crate) pending: Option<PendingCommand>,
    pub(crate) rounds: u32,
    ghost own: { (m : MachineValue) → machine_of_watch (at watches m) ≡ m },
}

// The same watches once more.
fn copied(watches: &Watches) -> Watches
    ensures { result ≡ watches.now }
{
    Watches {
        feed: watches.feed,
        table: watches.table,
        robot: watches.robot,
        press1: watches.press1,
        press2: watches.press2,
        deposit: watches.deposit,
    }
}

impl Model for Pause {
    ghost use Rattle.cell_rounds.specs.Pauses.{Paused};
    ghost use Rattle.cell_rounds.specs.Stands.{desk, last_of};

    ghost Value = { Paused };

    ghost view = { λ pause. record {
      limits = pause.book.limits;
      journal = pause.book.entries;
      watches = pause.watches;
      pending = last_of pause.pending;
      desk = desk pause.script pause.lost;
      rounds = pause.rounds;
    } };
}

impl Pause {
    /// A run that isn't begun yet.
    pub fn start(start: Start, plan: &Plan) -> Pause
        ensures { IsUnbegun start.book.limits start.book.entries start.script start.pending result }
    {
        let Start {
            book,
            script,
            pending,
        } = start;
        let watches = Watches::start(&book);
        Pause {
            book,
            watches,
            script,
            lost: false,
            pending: begin_looking(pending, plan),
            rounds: 0,
        }
    }

    /// The book.
    pub fn book(&self) -> &Book
        ensures limits { result.now.limits ≡ self.now.limits }
        ensures entries { result.now.entries ≡ self.now.journal }
    {
        &self.book
    }

    /// How many rounds were closed.
    pub fn rounds(&self) -> u32
        ensures { result ≡ self.now.rounds }
    {
        self.rounds
    }

    /// The book alone.
    pub(crate) fn into_book(self) -> Book
        ensures { result ≡ record { limits = self.limits; entries = self.journal } }
    {
        self.book
    }

    /// The lines of the operator's script that aren't done.
    pub fn script(&self) -> &Script
        ensures { result.now ≡ self.now.desk.lines }
    {
        &self.script
    }

    /// The same once more, of another book and another script that have the same in them.
    pub fn copy(&self, book: Book, script: Script) -> Pause
        requires limits { book.limits ≡ self.now.limits }
        requires entries { book.entries ≡ self.now.journal }
        requires lines { script ≡ self.now.desk.lines }
        ensures { result ≡ self.now }
    {
        Pause {
            book,
            watches: copied(&self.watches),
            script,
            lost: self.lost,
            pending: self.pending,
            rounds: self.rounds,
        }
    }
}
