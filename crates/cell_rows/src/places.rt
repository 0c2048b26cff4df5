//! Where the fields of a line stand.
ghost use Rattle.std.specs.Prelude.{◌≤◌, ◌<◌};

/// The most bytes of a field of a record that fits.
pub(crate) const LONGEST_FIELD: usize = 20;

/// Where the four fields of a line stand in a text. Each ends before a comma, the last one before the line feed.
#[derive(Clone, Copy, Debug, PartialEq, Eq)]
pub struct Places {
    pub start: usize,
    pub first: usize,
    pub second: usize,
    pub third: usize,
    pub fourth: usize,
    pub ghost ordered: { (start ≤ first) × (first < second) × (second < third) × (third < fourth) × (fourth < 16384) },
}

/// The places before anything is read.
pub const NOWHERE: Places = Places {
    start: 0,
    first: 0,
    second: 1,
    third: 2,
    fourth: 3,
};
