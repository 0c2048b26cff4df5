//! Shares of the six ledgers.
ghost use Rattle.std.specs.Prelude.{◌≡◌, ◌≤◌, ◌+◌, ◌-◌};
ghost use Rattle.cell_ledger.specs.Counts.{nothing, plus, AreCounts};
ghost use Rattle.cell_ledger.specs.Held.{held};

use crate::Run;
use crate::counts::{NOTHING, grow};
use crate::six::SixShares;
use cell_types::Totals;
use std::marker::Model;

/// Some parts of each of a run's six ledgers, and what they count.
#[derive(Drop)]
pub struct Shares<R: Run> {
    pub(crate) counted: Totals,
    pub(crate) six: SixShares<R>,
}

impl<R: Run> Model for Shares<R> {
    ghost use Rattle.std.specs.Prelude.{◌≡◌};
    ghost use Rattle.cell_ledger.specs.Held.{Held};

    ghost Value = { Held };

    ghost view = { λ s. s.six };

    ghost invariant = { λ s. s.six.counts ≡ s.counted };
}

impl<R: Run> Shares<R> {
    /// What these shares count.
    pub fn counts(&self) -> Totals
        ensures { result ≡ self.now.counts }
    {
        self.counted
    }

    /// Cuts off one part. The first of the two keeps what was counted and all other parts, the second counts nothing.
    pub fn split(self) -> (Shares<R>, Shares<R>)
        requires { 2 ≤ self.parts }
        ensures first { result.0 ≡ held (self.parts - 1) self.counts }
        ensures second { result.1 ≡ held 1 nothing }
    {
        let Shares { counted, mut six } = self;
        let one = Shares {
            counted: NOTHING,
            six: six.split_one(),
        };
        (Shares { counted, six }, one)
    }

    /// Puts two together: their parts and their counts add up. No count may pass `u32::MAX`, and both have to be of one
    /// run, as `R` says.
    pub fn join(self, other: Shares<R>) -> Shares<R>
        requires { AreCounts (plus self.counts other.counts) }
        ensures { result ≡ held (self.parts + other.parts) (plus self.counts other.counts) }
    {
        let Shares {
            mut counted,
            mut six,
        } = self;
        six.merge(other.six);
        grow(&mut counted, &other.counted);
        Shares { counted, six }
    }
}
