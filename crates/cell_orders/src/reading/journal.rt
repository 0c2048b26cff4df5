//! The text of a journal.
ghost use Rattle.std.specs.Prelude.{◌≡◌, ◌⊎◌, ◌↔◌, ℕ, Result, true, IfOk, IfSome, IsTrue};
ghost use Rattle.cell_rows.specs.Rows.{rows_of};
ghost use Rattle.cell_types.specs.declared.words.Totals.{Totals};
ghost use Rattle.cell_audit.specs.declared.error.AuditError.{AuditError};
ghost use Rattle.cell_audit.specs.Meaning.{Due, IsFault};
ghost use Rattle.cell_orders.specs.Ends.{CutsEntry};
ghost use Rattle.cell_orders.specs.Parts.{IsFirstPart, IsWhole};

use crate::reading::ends::goes_on;
use crate::reading::keeping::{Keeping, Whole};
use crate::reading::more::{PIECE, read_on};
use cell_audit::{AuditError, audit};
use cell_types::Totals;
use std::alloc::{AllocError, Global};
use std::io;
use std::io::{ErrorKind, Read};
use std::marker::Brand;

/// What was read of a journal's text.
#[derive(Drop)]
pub struct JournalText {
    /// The first bytes of the text.
    pub bytes: Vec<u8>,
    /// Whether these are all.
    pub is_whole: bool,
    /// The audit's answer to the whole text.
    pub answer: Result<(u8, Totals), AuditError>,
}

impl JournalText {
    /// Whether the record of an entry that can't be read goes on behind what was read.
    pub fn cuts_record(&self, alloc: Global) -> Result<bool, AllocError>
        ensures { IfOk result (λ cuts. IsTrue cuts ↔ CutsEntry self.now.is_whole self.now.answer self.now.bytes.items) }
    {
        match self.answer {
            Err(AuditError::Unreadable(number)) if number > 0 && !self.is_whole => {
                goes_on(alloc, self.bytes.as_slice(), number)
            }
            _ => Ok(false),
        }
    }
}

// Whether an answer of the audit is one on the text, and not on the reader or on memory.
fn is_told(answer: &Result<(u8, Totals), AuditError>) -> bool {
    !matches!(answer, Err(AuditError::ReadFault | AuditError::OutOfMemory))
}

// What was kept while an audit gave this answer, and what comes behind it.
fn finish<T: Whole, R: Read + Drop>(
    keeping: Keeping<T, R>,
    answer: Result<(u8, Totals), AuditError>,
) -> io::Result<JournalText>
    ensures first { IfOk result (λ read. IsFirstPart T.text read.bytes.items) }
    ensures whole { IfOk result (λ read. read.is_whole ≡ true → IsWhole T.text read.bytes.items) }
    ensures answer { IfOk result (λ read. read.answer ≡ answer) }
{
    let Keeping {
        mut source,
        kept: mut bytes,
        refused,
        of: _,
    } = keeping;
    if let Some(kind) = refused {
        return Err(io::Error::from(kind));
    }
    let is_whole = is_told(&answer) && read_on(&mut source, &mut bytes, PIECE)?;
    Ok(JournalText {
        bytes,
        is_whole,
        answer,
    })
}

// Judges the text of a reader, and keeps what is read of it.
fn judge<T: Whole, R: Read + Drop>(alloc: Global, reader: R) -> io::Result<JournalText>
    requires { T.text ≡ R.remaining reader }
    ensures first { IfOk result (λ read. IsFirstPart T.text read.bytes.items) }
    ensures whole { IfOk result (λ read. read.is_whole ≡ true → IsWhole T.text read.bytes.items) }
    ensures due { IfOk result (λ read. IfSome T.text (λ text. IsFault read.answer ⊎ Due (rows_of text) read.answer)) }
    ensures only { IfOk result (λ read. IfSome T.text (λ text. (answer : Result (ℕ × Totals) AuditError)
        → Due (rows_of text) answer → (read.answer ≡ answer) ⊎ IsFault read.answer)) }
{
    let mut keeping = Keeping::<T, R>::new(alloc, reader);
    let answer = audit(alloc, &mut keeping);
    finish(keeping, answer)
}

/// Reads a journal's text as far as it is judged, and 65,536 bytes more: to its end, or to a record that can't be read
/// or an entry that isn't allowed.
///
/// `OutOfMemory` is the kind of an error where memory was refused for what is kept, and `FileTooLarge` where
/// 134,217,728 bytes are kept and the text isn't decided; each only there or where the reader gave it.
pub fn journal_text<R: Read + Drop>(alloc: Global, reader: R) -> io::Result<JournalText>
    ensures first { IfOk result (λ read. IsFirstPart (R.remaining reader) read.bytes.items) }
    ensures whole { IfOk result (λ read. read.is_whole ≡ true → IsWhole (R.remaining reader) read.bytes.items) }
    // The answer is that of an audit of the whole text, which is due for its records, and no other is.
    ensures due { IfOk result (λ read. IfSome (R.remaining reader) (λ text. IsFault read.answer
        ⊎ Due (rows_of text) read.answer)) }
    ensures only { IfOk result (λ read. IfSome (R.remaining reader) (λ text. (answer : Result (ℕ × Totals) AuditError)
        → Due (rows_of text) answer → (read.answer ≡ answer) ⊎ IsFault read.answer)) }
{
    judge::<Brand, R>(alloc, reader)
}
