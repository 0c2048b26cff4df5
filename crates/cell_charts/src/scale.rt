//! The axis of time of a chart.
ghost use Rattle.std.specs.Prelude.{◌≤◌};

use crate::frame::{Look, write_line, write_text, xy};
use std::io::Write;
use std::{fmt, io};

/// Where the axis begins, and how long it is.
pub(crate) const LEFT: u64 = 80;

pub(crate) const WIDTH: u64 = 660;

/// How long it is in tenths.
const TENTHS: u64 = 6600;

/// How many parts it has at most between its marks, where their times are short.
const MOST_PARTS: u64 = 8;

/// Times up to this one are told apart by tenths of a unit of the drawing; of greater ones a small part is cut off.
const FINE: u64 = 4_294_967_296;

/// A number of tenths, with a point before the last digit.
#[derive(Clone, Copy, Debug)]
pub(crate) struct Tenths(pub(crate) u64);

impl fmt::Display for Tenths {
    fn fmt<W: fmt::Write>(&self, f: &mut fmt::Formatter<W>) -> fmt::Result {
        let whole = self.0 / 10;
        let rest = self.0 % 10;
        write!(f, "{whole}.{rest}")
    }
}

/// How many digits a number has.
pub(crate) fn digits(number: u64) -> u64 {
    let mut rest = number / 10;
    let mut count: u64 = 1;
    for _ in 0..20 {
        if rest == 0 {
            break;
        }
        rest /= 10;
        count = count.saturating_add(1);
    }
    count
}

/// An axis of time from 0 to its end.
#[derive(Clone, Copy, Debug)]
pub(crate) struct Scale {
    pub(crate) end: u64,
}

// The step after one of 1, 2, 5, 10, 20 and so on, by its place among them.
fn step_after(place: u64, step: u64) -> u64
    ensures { step ≤ result }
{
    if place % 3 == 1 {
        (step / 2).saturating_mul(5).max(step)
    } else {
        step.saturating_mul(2)
    }
}

impl Scale {
    /// How far a time is from the axis's begin, in tenths. A time past the end stands there.
    pub(crate) fn tenths(self, time: u64) -> u64
        ensures { result ≤ 6600 }
    {
        let unit = self.end / FINE + 1;
        let end = self.end / unit;
        if end == 0 {
            return 0;
        }
        let time = time.min(self.end) / unit;
        (time.saturating_mul(TENTHS) / end).min(TENTHS)
    }

    /// Where a time stands, in tenths from the chart's left edge.
    pub(crate) fn x(self, time: u64) -> Tenths {
        Tenths(LEFT.saturating_mul(10).saturating_add(self.tenths(time)))
    }

    // How many parts may lie between marks, so that their times don't touch: a digit has 6 units.
    fn most_parts(self) -> u64 {
        let wide = digits(self.end).saturating_mul(6).saturating_add(8);
        (WIDTH / wide.max(1)).min(MOST_PARTS)
    }

    // How much time lies between two marks: the least of 1, 2, 5, 10, 20 and so on with few enough parts.
    fn step(self) -> u64
        ensures { 1 ≤ result }
    {
        let most = self.most_parts();
        let mut step: u64 = 1;
        for place in 0..64 {
            if self.end / step <= most {
                break;
            }
            step = step_after(place, step);
        }
        step
    }
}

// Draws a mark of the axis: a line, and its time above.
fn write_mark<W: Write>(
    out: &mut W,
    scale: Scale,
    time: u64,
    top: u64,
    bottom: u64,
) -> io::Result<()> {
    let x = scale.x(time);
    write_line(out, (x, top), (x, bottom))?;
    let y = top.saturating_sub(4);
    writeln!(
        out,
        "<text x=\"{x}\" y=\"{y}\" font-size=\"9\" text-anchor=\"middle\">{time}</text>"
    )
}

/// Draws the marks of the axis from one height down to another, with their times above.
pub(crate) fn write_marks<W: Write>(
    out: &mut W,
    scale: Scale,
    top: u64,
    bottom: u64,
) -> io::Result<()> {
    let step = scale.step();
    let mut time: u64 = 0;
    for _ in 0..16 {
        write_mark(out, scale, time, top, bottom)?;
        match time.checked_add(step) {
            Some(next) if next <= scale.end => time = next,
            _ => break,
        }
    }
    let x = LEFT.saturating_add(WIDTH);
    write_text(out, xy(x, top.saturating_sub(16)), Look::SmallRight, "time")
}
