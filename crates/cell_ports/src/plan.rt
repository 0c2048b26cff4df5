//! What a run is to do.
ghost use Rattle.std.specs.Prelude.{◌≤◌};

use cell_diagnosis::Limits;

/// What a run is to do, and its limits: numbers in the ranges of this project's settings.
#[derive(Clone, Copy, PartialEq, Eq, Debug)]
pub struct Plan {
    /// How many plates are to be admitted, 1 to 100,000.
    pub plates: u32,
    /// How many entries the journal takes, 1 to 1,000,000.
    pub journal_limit: u32,
    /// How many turns each machine may take, 1 to 10,000,000.
    pub turns: u32,
    /// How many readings a motion of each axis may take, in the order of the axes.
    pub limits: [Limits; 9],
    pub ghost plates_in_range: { (1 ≤ plates) × (plates ≤ 100000) },
    pub ghost journal_in_range: { (1 ≤ journal_limit) × (journal_limit ≤ 1000000) },
    pub ghost turns_in_range: { (1 ≤ turns) × (turns ≤ 10000000) },
}
