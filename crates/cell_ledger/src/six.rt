//! The six ledgers of a run, taken together: their books, and a share of each.
ghost use Rattle.std.specs.Prelude.{◌≡◌, ◌<◌, ◌≤◌, ◌+◌, ◌-◌};
ghost use Rattle.cell_ledger.specs.Counts.{nothing, plus, AreWithin};
ghost use Rattle.cell_ledger.specs.Held.{held};
ghost use Rattle.cell_ledger.specs.New.{AreBlank};

use crate::run::{AdmittedOf, DeliveredOf, EntriesOf, ForgedOf, QuarantinedOf, ReinstatedOf};
use crate::{Blanks, Run};
use cell_types::Totals;
use std::marker::Model;
use std::sync::ledger::{Book, Share};

/// A share of each of the six ledgers, of equally many parts.
#[derive(Drop)]
pub(crate) struct SixShares<R: Run> {
    entries: Share<EntriesOf<R>>,
    admitted: Share<AdmittedOf<R>>,
    forged: Share<ForgedOf<R>>,
    quarantined: Share<QuarantinedOf<R>>,
    delivered: Share<DeliveredOf<R>>,
    reinstated: Share<ReinstatedOf<R>>,
}

impl<R: Run> Model for SixShares<R> {
    ghost use Rattle.std.specs.Prelude.{◌≡◌, ◌<◌};
    ghost use Rattle.cell_ledger.specs.Held.{Held};

    ghost Value = { Held };

    ghost view = { λ s. record {
      parts = s.entries.parts;
      counts = record {
        entries = s.entries.amount;
        admitted =
            s.admitted.amount;
        forged = s.forged.amount;
        quarantined = s.quarantined.amount;
        delivered =
            s.delivered.amount;
        reinstated = s.reinstated.amount;
      };
    } };

    ghost invariant = { λ s. (0 < s.entries.parts)
        × (s.admitted.parts ≡ s.entries.parts)
        × (s.forged.parts ≡ s.entries.parts)
        × (s.quarantined.parts ≡ s.entries.parts)
        × (s.delivered.parts ≡ s.entries.parts)
        × (s.reinstated.parts ≡ s.entries.parts) };
}

impl<R: Run> SixShares<R> {
    /// Puts others to these: their parts and their counts add up.
    pub fn merge(&mut self, other: SixShares<R>)
        ensures { self.new ≡ held (self.old.parts + other.parts) (plus self.old.counts other.counts) }
    {
        let SixShares {
            entries,
            admitted,
            forged,
            quarantined,
            delivered,
            reinstated,
        } = other;
        self.entries.merge(entries);
        self.admitted.merge(admitted);
        self.forged.merge(forged);
        self.quarantined.merge(quarantined);
        self.delivered.merge(delivered);
        self.reinstated.merge(reinstated);
    }

    /// Cuts off one part, which counts nothing.
    pub fn split_one(&mut self) -> SixShares<R>
        requires { 2 ≤ self.old.parts }
        ensures rest { self.new ≡ held (self.old.parts - 1) self.old.counts }
        ensures one { result ≡ held 1 nothing }
    {
        SixShares {
            entries: self.entries.split_off(1, 0),
            admitted: self.admitted.split_off(1, 0),
            forged: self.forged.split_off(1, 0),
            quarantined: self.quarantined.split_off(1, 0),
            delivered: self.delivered.split_off(1, 0),
            reinstated: self.reinstated.split_off(1, 0),
        }
    }
}

/// The books of the six ledgers.
#[derive(Drop)]
pub(crate) struct SixBooks<R: Run> {
    entries: Book<EntriesOf<R>>,
    admitted: Book<AdmittedOf<R>>,
    forged: Book<ForgedOf<R>>,
    quarantined: Book<QuarantinedOf<R>>,
    delivered: Book<DeliveredOf<R>>,
    reinstated: Book<ReinstatedOf<R>>,
}

impl<R: Run> Model for SixBooks<R> {
    ghost use Rattle.cell_types.specs.declared.words.Totals.{Totals};

    ghost Value = { Totals };

    ghost view = { λ b. record {
      entries = b.entries.total;
      admitted = b.admitted.total;
      forged =
          b.forged.total;
      quarantined = b.quarantined.total;
      delivered = b.delivered.total;
      reinstated =
          b.reinstated.total;
    } };
}

impl<R: Run> SixBooks<R> {
    /// Opens new ledgers. Nothing is counted yet, and the shares have all parts.
    pub fn open(blanks: Blanks) -> (SixBooks<R>, SixShares<R>)
        requires some { 0 < R.parts }
        requires ledgers { AreBlank R.Run blanks }
        ensures books { result.0 ≡ nothing }
        ensures shares { result.1 ≡ held R.parts nothing }
    {
        let (entries, entries_share) = blanks.entries.open::<EntriesOf<R>>();
        let (admitted, admitted_share) = blanks.admitted.open::<AdmittedOf<R>>();
        let (forged, forged_share) = blanks.forged.open::<ForgedOf<R>>();
        let (quarantined, quarantined_share) = blanks.quarantined.open::<QuarantinedOf<R>>();
        let (delivered, delivered_share) = blanks.delivered.open::<DeliveredOf<R>>();
        let (reinstated, reinstated_share) = blanks.reinstated.open::<ReinstatedOf<R>>();
        let books = SixBooks {
            entries,
            admitted,
            forged,
            quarantined,
            delivered,
            reinstated,
        };
        let shares = SixShares {
            entries: entries_share,
            admitted: admitted_share,
            forged: forged_share,
            quarantined: quarantined_share,
            delivered: delivered_share,
            reinstated: reinstated_share,
        };
        (books, shares)
    }

    /// Counts more, in the books and in the shares.
    pub fn add(&mut self, shares: &mut SixShares<R>, more: &Totals)
        ensures books { self.new ≡ plus self.old more.now }
        ensures shares { shares.new ≡ held shares.old.parts (plus shares.old.counts more.now) }
    {
        self.entries
            .add(&mut shares.entries, u64::from(more.entries));
        self.admitted
            .add(&mut shares.admitted, u64::from(more.admitted));
        self.forged.add(&mut shares.forged, u64::from(more.forged));
        self.quarantined
            .add(&mut shares.quarantined, u64::from(more.quarantined));
        self.delivered
            .add(&mut shares.delivered, u64::from(more.delivered));
        self.reinstated
            .add(&mut shares.reinstated, u64::from(more.reinstated));
    }

    /// No count of the shares passes that of the books, and shares of all parts count what the books do. Nothing
    /// changes.
    pub fn audit(&mut self, shares: &mut SixShares<R>)
        ensures within { AreWithin shares.old.counts self.old }
        ensures whole { shares.old.parts ≡ R.parts → shares.old.counts ≡ self.old }
        ensures books { self.new ≡ self.old }
        ensures shares { shares.new ≡ shares.old }
    {
        self.entries.audit(&mut shares.entries);
        self.admitted.audit(&mut shares.admitted);
        self.forged.audit(&mut shares.forged);
        self.quarantined.audit(&mut shares.quarantined);
        self.delivered.audit(&mut shares.delivered);
        self.reinstated.audit(&mut shares.reinstated);
    }
}
