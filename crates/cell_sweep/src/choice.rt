//! Which runs a sweep has.

/// Which faults the runs of a sweep have.
#[derive(Clone, Copy, Debug, PartialEq, Eq)]
pub enum Choice {
    /// Each fault alone.
    Single,
    /// Each two faults in different motions.
    Pairs,
    /// In each of so many runs faults that are drawn evenly: different motions of all, and for each a kind. Each run of
    /// a seed has a generator of its own.
    Random {
        /// How many runs.
        runs: u32,
        /// How many faults a run has; with fewer motions, one in each.
        faults: u32,
        /// What the generators are made of.
        seed: u32,
    },
}

/// Which of so many equal parts of a sweep is run.
#[derive(Clone, Copy, Debug, PartialEq, Eq)]
pub struct Part {
    /// The number of the part, counted from 1.
    pub number: u32,
    /// How many parts there are, at least 1.
    pub count: u32,
}

impl Part {
    /// The whole sweep.
    pub const WHOLE: Part = Part {
        number: 1,
        count: 1,
    };
}
