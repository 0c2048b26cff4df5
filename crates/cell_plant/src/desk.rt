//! What someone at the cell did and wants, and what is answered.
use operator_desk::Task;
use plate_book::Refusal;

/// What someone at the cell wants.
#[derive(Clone, Copy, Debug, Default, PartialEq, Eq)]
pub enum Wish {
    /// Something that can't be read.
    #[default]
    Unreadable,
    /// More than there is room for.
    TooMuch,
    /// This.
    For(Task),
}

/// Why a wish isn't granted.
#[derive(Clone, Copy, Debug, PartialEq, Eq)]
pub enum Denial {
    /// The book refuses it.
    Book(Refusal),
    /// The operator's hands failed.
    Failed,
    /// It can't be read.
    Unreadable,
    /// Too much is wanted in one round.
    TooMany,
}

/// What a wish is answered by.
#[derive(Clone, Copy, Debug, PartialEq, Eq)]
pub enum Reply {
    /// It was done, and booked as the entry of this number.
    Booked(u32),
    /// It isn't done.
    Denied(Denial),
}
