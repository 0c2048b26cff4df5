//! What looks on while a method drives the cell.
use cell_rows::Four;
use cell_types::Entry;
use plate_book::Refusal;

/// What looks on while a method drives the cell, and is told of each step after it was done. What it does changes
/// nothing of the run.
pub trait Onlooker {
    /// The round of this number, counted from 1, is open for the method's lines.
    fn opened(&mut self, round: u32);

    /// An entry of a machine was booked, and its command was sent or failed.
    fn booked(&mut self, entry: &Entry);

    /// An entry was refused.
    fn refused(&mut self, why: Refusal);

    /// A line was no record of a machine's entry. These are its fields, if it is a record.
    fn unread(&mut self, four: Option<Four<'_>>);

    /// The operator's entry was booked, after what it wants by hand was done.
    fn acted(&mut self, entry: &Entry);

    /// The round is over, and the operator's turn too.
    fn closed(&mut self);
}
