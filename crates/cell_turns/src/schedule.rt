//! The steps of a schedule, and what became of them.
use cell_diagnosis::Reading;
use cell_types::{Entry, Machine};

/// One step of a schedule.
#[derive(Clone, Copy, PartialEq, Eq, Debug)]
pub enum Step {
    /// A turn of a machine, at a reading.
    Turn(Machine, Option<Reading>),
    /// An entry of the operator, who first does by hand what it says.
    Hand(Entry),
}

/// What became of an entry that the operator was to book.
#[derive(Clone, Copy, PartialEq, Eq, Debug)]
pub enum Handed {
    /// Nothing was done: it isn't the operator's, or the book refuses it.
    Spared,
    /// His act by hand failed, and nothing was booked.
    Failed,
    /// He did the act by hand, if there is one, and it was booked.
    Booked,
}

/// A call was refused memory.
#[derive(Clone, Copy, PartialEq, Eq, Debug)]
pub struct OutOfMemory;
