//! How the ends of runs are shown: by a word, a colour and a sign.
ghost use Rattle.std.specs.Prelude.{◌≡◌, count_by};
ghost use Rattle.cell_charts.specs.Ends.{end_place, end_word, has_end};

use crate::sweep::Square;
use cell_workers::End;

/// All ends, in the order of a legend. The last one is no end of a sweep's run, which then stops.
pub(crate) const ENDS: [End; 5] = [
    End::Finished,
    End::Stalled,
    End::TurnLimit,
    End::Full,
    End::Memory,
];

/// The word of an end, as runs tell it.
pub(crate) fn end_word(end: End) -> &'static str
    ensures { result.now ≡ end_word end }
{
    match end {
        End::Finished => "finished",
        End::Stalled => "stalled",
        End::TurnLimit => "turn limit",
        End::Memory => "memory",
        End::Full => "full",
    }
}

/// The colour of an end's squares: colours that those who don't see red and green as others do can tell apart.
pub(crate) fn end_fill(end: End) -> &'static str {
    match end {
        End::Finished => "#b5dcf2",
        End::Stalled => "#e69f00",
        End::TurnLimit => "#cc79a7",
        End::Full => "#f0e442",
        End::Memory => "#999999",
    }
}

/// The sign of an end in a square of 11 units, as a path from its upper left corner: a dot, a cross, a dash, a bar, a
/// stroke.
pub(crate) fn end_sign(end: End) -> &'static str {
    match end {
        End::Finished => "m4.5 4.5h2v2h-2z",
        End::Stalled => "m3 3l5 5m0-5l-5 5",
        End::TurnLimit => "m2.5 5.5h6",
        End::Full => "m5.5 2.5v6",
        End::Memory => "m3 8l5-5",
    }
}

// The place of an end in the order in which ends are declared.
fn end_place(end: End) -> u32
    ensures { result ≡ end_place end }
{
    match end {
        End::Finished => 0,
        End::Stalled => 1,
        End::TurnLimit => 2,
        End::Memory => 3,
        End::Full => 4,
    }
}

// Whether a run had an end.
fn has_end(end: End, square: &Square) -> bool
    ensures { result ≡ has_end end square.now }
{
    end_place(square.end) == end_place(end)
}

/// How many runs had an end.
pub(crate) fn count_of(squares: &[Square], end: End) -> usize
    ensures { result ≡ count_by (has_end end) squares.now }
{
    squares
        .iter()
        .filter(|square| has_end(end, *square))
        .count()
}
