//! The kinds of faults in a chart.
ghost use Rattle.std.specs.Prelude.{◌≡◌, IfSome, Some, slice_get};
ghost use Rattle.cell_sim.specs.Spelled.{word_of};

use cell_sim::Fault;
use std::fmt;

/// The word of a kind, as the script of faults has it.
pub(crate) fn kind_word(kind: Fault) -> &'static str
    ensures { result.now ≡ word_of kind }
{
    match kind {
        Fault::NoMotion => "no_motion",
        Fault::KeepsOld => "keeps_old",
        Fault::Both => "both",
        Fault::Slow(_) => "slow",
        Fault::LosePlate => "lose_plate",
        Fault::Silent(_) => "silent",
        Fault::RefuseCommand => "refuse_command",
    }
}

/// A kind as a list of kinds has it: its word, and behind a colon its number of readings, if it takes one.
#[derive(Clone, Copy, Debug)]
pub(crate) struct KindText(pub(crate) Fault);

impl fmt::Display for KindText {
    fn fmt<W: fmt::Write>(&self, f: &mut fmt::Formatter<W>) -> fmt::Result {
        let word = kind_word(self.0);
        match self.0.readings() {
            Some(readings) => write!(f, "{word}:{readings}"),
            None => write!(f, "{word}"),
        }
    }
}

/// The place of a kind in a list of kinds, from 0, the first one if it stands there twice.
pub(crate) fn kind_place(kinds: &[Fault], kind: Fault) -> Option<usize>
    ensures { IfSome result (λ place. slice_get kinds.now place ≡ Some kind) }
{
    for (place, named) in kinds.iter().enumerate() {
        if *named == kind {
            return Some(place);
        }
    }
    None
}
