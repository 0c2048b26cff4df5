//! What a run has from round to round, and how it halts.
ghost use Rattle.std.specs.Prelude.{◌≡◌};
ghost use Rattle.cell_types.specs.declared.words.Machine.{Machine as MachineValue};
ghost use Rattle.cell_turns.specs.Minds.{machine_of_watch};
ghost use Rattle.cell_turns.specs.Six.{at};
ghost use Rattle.cell_rounds.specs.Runs.{end_of};
ghost use Rattle.cell_rounds.specs.Stands.{desk, last_of};

use crate::pause::Pause;
use crate::settle::PendingCommand;
use cell_ledger::{Kept, Run, Shares};
use cell_plant::{Gone, KeepFault, Keeper};
use cell_turns::Watches;
use cell_types::Entry;
use cell_workers::End;
use operator_desk::Script;
use plate_book::Book;

/// Why a run halts.
#[derive(Clone, Copy, Debug, PartialEq, Eq)]
pub enum Halt {
    /// By an end.
    End(End),
    /// The cell can't be reached any more.
    Gone,
    /// An entry couldn't be kept.
    Unkept,
}

impl Halt {
    /// The end of a run that halted so: one that broke off has stalled.
    pub fn end(self) -> End
        ensures { result ≡ end_of self }
    {
        match self {
            Halt::End(end) => end,
            Halt::Gone | Halt::Unkept => End::Stalled,
        }
    }
}

impl From<Gone> for Halt {
    ghost use Rattle.std.specs.Prelude.{◌≡◌};
    ghost use Rattle.cell_rounds.specs.declared.progress.Halt.TheVariants as halt;

    ghost from_gives = { λ _ h. h ≡ halt.Gone };

    fn from(_gone: Gone) -> Halt {
        Halt::Gone
    }
}

impl From<KeepFault> for Halt {
    ghost use Rattle.std.specs.Prelude.{◌≡◌};
    ghost use Rattle.cell_rounds.specs.declared.progress.Halt.TheVariants as halt;

    ghost from_gives = { λ _ h. h ≡ halt.Unkept };

    fn from(_fault: KeepFault) -> Halt {
        Halt::Unkept
    }
}

/// What a run has from round to round.
#[derive(Drop)]
pub(crate) struct Progress<R: Run> {
    pub(crate) kept: Kept<R>,
    pub(crate) shares: Shares<R>,
    pub(crate) watches: Watches,
    /// The entry of the last turn.
    pub(crate) entries: Vec<Entry>,
    pub(crate) script: Script,
    /// The operator's hands failed, so that his script goes no further.
    pub(crate) lost: bool,
    /// The command of which it isn't known yet whether it went out, after a start from a journal.
    pub(crate) pending: Option<PendingCommand>,
}

impl<R: Run> Progress<R> {
    /// A run that is paused after so many rounds.
    pub(crate) fn pause(self, rounds: u32) -> Pause
        requires { (m : MachineValue) → machine_of_watch (at self.watches m) ≡ m }
        ensures { result ≡ record {
          limits = self.kept.limits;
          journal = self.kept.entries;
          watches = self.watches;
          pending = last_of self.pending;
          desk = desk self.script self.lost;
          rounds = rounds;
        } }
    {
        Pause {
            book: self.kept.into_book(),
            watches: self.watches,
            script: self.script,
            lost: self.lost,
            pending: self.pending,
            rounds,
        }
    }

    /// The book.
    pub(crate) fn book(&self) -> &Book
        ensures { result.now ≡ self.now.kept }
    {
        self.kept.book()
    }
}
