//! The answer of a watch.
ghost use Rattle.std.specs.Prelude.{◌≡◌};
ghost use Rattle.cell_diagnosis.specs.Verdicts.{then_verdict};

use cell_types::Cause;

/// What a watch concludes from its readings so far.
#[derive(Clone, Copy, Debug, PartialEq, Eq)]
pub enum Verdict {
    /// No rule applied yet.
    Pending,
    /// The motion reached its end. Only an axis watch answers this.
    Arrived,
    /// The readings show this fault.
    Fault(Cause),
}

/// The first verdict, or the later one where the first is Pending.
pub fn then_verdict(first: Verdict, later: Verdict) -> Verdict
    ensures { result ≡ then_verdict first later }
{
    match first {
        Verdict::Pending => later,
        Verdict::Arrived => Verdict::Arrived,
        Verdict::Fault(cause) => Verdict::Fault(cause),
    }
}
