//! What is drawn in one picture.
use crate::Facts;
use cell_audit::AuditError;
use cell_types::Entry;
use std::fmt;

/// What is drawn in one picture: what a journal's first entries leave, and what stands below it.
#[derive(Clone, Copy, Debug)]
pub struct Scene<'a> {
    /// The state of the cell.
    pub facts: &'a Facts,
    /// How many entries were taken.
    pub entries: u32,
    /// The last of these entries, if there is one.
    pub last: Option<Entry>,
    /// Why the journal's text isn't legal, where that is to be drawn.
    pub answer: Option<AuditError>,
}

/// The line of an audit's answer that isn't legal, as the program prints it, without its line feed.
#[derive(Clone, Copy, Debug)]
pub struct AnswerLine(pub AuditError);

impl fmt::Display for AnswerLine {
    ghost use Rattle.std.specs.Prelude.{Some};
    ghost use Rattle.cell_picture.specs.Answers.{answer_text};

    ghost output = { λ line. Some (answer_text line.0) };

    fn fmt<W: fmt::Write>(&self, f: &mut fmt::Formatter<W>) -> fmt::Result {
        match self.0 {
            AuditError::Unreadable(place) => write!(f, "unreadable {place}"),
            AuditError::Refused(place, why) => write!(f, "refused {place} {why}"),
            AuditError::ReadFault => write!(f, "read fault"),
            AuditError::OutOfMemory => write!(f, "out of memory"),
        }
    }
}
