//! The parts of a machine's time, and how they are drawn.
ghost use Rattle.std.specs.Prelude.{◌≡◌};
ghost use Rattle.cell_charts.specs.Parts.{part_time, part_word};

use cell_measures::Spent;
use std::io;
use std::io::Write;

/// A part of a machine's time.
#[derive(Clone, Copy, Debug, PartialEq, Eq)]
pub(crate) enum Part {
    Moving,
    Holding,
    Waiting,
    Failed,
    Idle,
}

/// All parts, in the order in which measures are told.
pub(crate) const PARTS: [Part; 5] = [
    Part::Moving,
    Part::Holding,
    Part::Waiting,
    Part::Failed,
    Part::Idle,
];

/// How long a part is.
pub(crate) fn part_time(spent: &Spent, part: Part) -> u64
    ensures { result ≡ part_time spent.now part }
{
    match part {
        Part::Moving => spent.moving,
        Part::Holding => spent.holding,
        Part::Waiting => spent.waiting,
        Part::Failed => spent.failed,
        Part::Idle => spent.idle,
    }
}

/// The word of a part, as measures are told.
pub(crate) fn part_word(part: Part) -> &'static str
    ensures { result.now ≡ part_word part }
{
    match part {
        Part::Moving => "moving",
        Part::Holding => "holding",
        Part::Waiting => "waiting",
        Part::Failed => "failed",
        Part::Idle => "idle",
    }
}

/// What a part is filled with: a plain colour, stripes, dots, a net, or white.
pub(crate) fn part_fill(part: Part) -> &'static str {
    match part {
        Part::Moving => "#56a3d9",
        Part::Holding => "url(#holding)",
        Part::Waiting => "url(#waiting)",
        Part::Failed => "url(#failed)",
        Part::Idle => "#ffffff",
    }
}

/// Writes the stripes, the dots and the net.
pub(crate) fn write_patterns<W: Write>(out: &mut W) -> io::Result<()> {
    writeln!(
        out,
        "<defs>\n\
         <pattern id=\"holding\" width=\"6\" height=\"6\" patternUnits=\"userSpaceOnUse\">\
         <rect width=\"6\" height=\"6\" fill=\"#e3f1fa\"/>\
         <path d=\"M-1 1l2-2M0 6l6-6M5 7l2-2\" stroke=\"#2f7fb8\"/></pattern>\n\
         <pattern id=\"waiting\" width=\"5\" height=\"5\" patternUnits=\"userSpaceOnUse\">\
         <rect width=\"5\" height=\"5\" fill=\"#f8d38a\"/>\
         <circle cx=\"2.5\" cy=\"2.5\" r=\"1\" fill=\"#7a5200\"/></pattern>\n\
         <pattern id=\"failed\" width=\"5\" height=\"5\" patternUnits=\"userSpaceOnUse\">\
         <rect width=\"5\" height=\"5\" fill=\"#f0a08a\"/>\
         <path d=\"M0 0l5 5M5 0l-5 5\" stroke=\"#8a2a12\"/></pattern>\n\
         </defs>"
    )
}
