//! Where a time stands in a chart.

/// Where the axis of time begins, in units of the drawing.
const LEFT: u64 = 130;

/// The most units of the drawing for a unit of time, and for all of it.
const WIDEST_UNIT: u64 = 40;

const WIDEST: u64 = 24_000;

/// How far two marks of the axis are apart at least.
const GAP: u64 = 48;

/// How many units of time may lie between two marks.
const STEPS: [u64; 18] = [
    1, 2, 5, 10, 20, 50, 100, 200, 500, 1000, 2000, 5000, 10_000, 20_000, 50_000, 100_000, 200_000,
    500_000,
];

/// An axis of time, from its begin to its end.
#[derive(Clone, Copy, Debug)]
pub(crate) struct Scale {
    begin: u64,
    total: u64,
    width: u64,
}

impl Scale {
    /// The axis from one time to another.
    pub(crate) fn new(begin: u64, end: u64) -> Scale {
        let total = end.saturating_sub(begin);
        Scale {
            begin,
            total,
            width: total.saturating_mul(WIDEST_UNIT).min(WIDEST),
        }
    }

    /// Where it begins.
    pub(crate) fn begin(self) -> u64 {
        self.begin
    }

    /// Where it ends.
    pub(crate) fn end(self) -> u64 {
        self.begin.saturating_add(self.total)
    }

    // How wide so much time is.
    fn span(self, time: u64) -> u64 {
        if self.total == 0 {
            return 0;
        }
        time.saturating_mul(self.width) / self.total
    }

    /// Where a time stands, from the drawing's left edge. What was before the begin stands there.
    pub(crate) fn x(self, time: u64) -> u64 {
        LEFT.saturating_add(self.span(time.saturating_sub(self.begin)))
    }

    /// How wide the drawing is.
    pub(crate) fn right(self) -> u64 {
        self.x(self.end()).saturating_add(30)
    }

    /// The first mark that isn't before the begin.
    pub(crate) fn first_mark(self) -> u64 {
        let step = self.step();
        if step == 0 {
            return self.begin;
        }
        let past = self.begin % step;
        if past == 0 {
            self.begin
        } else {
            self.begin.saturating_sub(past).saturating_add(step)
        }
    }

    /// How much time lies between two marks.
    pub(crate) fn step(self) -> u64 {
        for step in STEPS {
            if self.span(step) >= GAP {
                return step;
            }
        }
        self.total
    }
}
