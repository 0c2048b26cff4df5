//! Sums of totals.
ghost use Rattle.std.specs.Prelude.{◌≡◌};
ghost use Rattle.cell_ledger.specs.Counts.{plus, count_one, AreCounts};

use cell_types::{Entry, Totals};

pub const NOTHING: Totals = Totals {
    entries: 0,
    admitted: 0,
    forged: 0,
    quarantined: 0,
    delivered: 0,
    reinstated: 0,
};

/// Adds counts to others.
pub fn grow(counts: &mut Totals, more: &Totals)
    requires { AreCounts (plus counts.old more.now) }
    ensures { counts.new ≡ plus counts.old more.now }
{
    counts.entries += more.entries;
    counts.admitted += more.admitted;
    counts.forged += more.forged;
    counts.quarantined += more.quarantined;
    counts.delivered += more.delivered;
    counts.reinstated += more.reinstated;
}

/// What one entry counts.
pub fn count_one(entry: &Entry) -> Totals
    ensures { result ≡ count_one entry.now }
{
    let one = Totals {
        entries: 1,
        ..NOTHING
    };
    match entry {
        Entry::Admitted { .. } => Totals { admitted: 1, ..one },
        Entry::Forged { .. } => Totals { forged: 1, ..one },
        Entry::Quarantined { .. } => Totals {
            quarantined: 1,
            ..one
        },
        Entry::Delivered { .. } => Totals {
            delivered: 1,
            ..one
        },
        Entry::Reinstated { .. } => Totals {
            reinstated: 1,
            ..one
        },
        _ => one,
    }
}
