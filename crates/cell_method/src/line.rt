//! The lines of a method.
ghost use Rattle.std.specs.Prelude.{◌≡◌, ◌⊎◌, ◌==◌, ◌∷◌, [], true, IfOk, IfSome, IsErr, IsNone, None, Some};
ghost use Rattle.std.specs.Prelude.{option_map};
ghost use Rattle.std.specs.List.{list_all, list_any};
ghost use Rattle.cell_method.specs.Fields.{is_field, record_of};
ghost use Rattle.cell_method.specs.Lines.{IsEndless, TakesLine, bytes_left, current, has_failed, lines_left, lines_of};

use cell_rows::{Four, TellsFault};
use line_reader::{ReadFault, RecordReader};

// The most bytes of a field.
const LONGEST_FIELD: usize = 20;

/// The lines of a method, one at a time, with the one that was read last.
#[derive(Drop)]
pub struct LineReader<R> {
    records: RecordReader<R>,
}

// Whether bytes have a quote.
fn has_quote(bytes: &[u8]) -> bool
    ensures { result ≡ list_any (λ b. b == 34) bytes.now }
{
    for byte in bytes {
        if *byte == b'"' {
            return true;
        }
    }
    false
}

// Whether bytes are a field: at most 20, and no quote.
fn is_field(bytes: &[u8]) -> bool
    ensures { result ≡ is_field bytes.now }
{
    bytes.len() <= LONGEST_FIELD && !has_quote(bytes)
}

// Whether all four are fields.
fn are_fields(four: &Four<'_>) -> bool
    ensures { result ≡ list_all is_field (four.now.first.now ∷ four.now.second.now ∷ four.now.third.now
        ∷ four.now.fourth.now ∷ []) }
{
    is_field(four.first) && is_field(four.second) && is_field(four.third) && is_field(four.fourth)
}

impl<R: TellsFault> LineReader<R> {
    /// The lines of what the reader has left. It reads nothing yet.
    pub fn new(source: R) -> LineReader<R>
        ensures { lines_left R.remaining result ≡ option_map lines_of (R.remaining source) }
    {
        LineReader {
            records: RecordReader::new(source),
        }
    }

    /// Reads the next line that isn't blank, and says whether there was one.
    ///
    /// It reads no further than the line feed, and holds no more of a line than a record can have.
    pub fn advance(&mut self) -> Result<bool, ReadFault>
        ensures line { IfOk result (TakesLine (lines_left R.remaining self.old) (lines_left R.remaining self.new)
            (current self.new)) }
        // It answers an error only where the reader failed, or after more bytes than a count can have.
        ensures fault { IsErr result → (has_failed R.failed self.new ≡ true)
            ⊎ IsEndless (bytes_left R.remaining self.old) (bytes_left R.remaining self.new) }
    {
        self.records.advance()
    }

    /// The record of the line that was read last, if it is one: four fields of at most 20 bytes each, and no quote.
    pub fn four(&self) -> Option<Four<'_>>
        ensures some { IfSome result (λ four. current self.now
            ≡ Some (four.first.now ∷ four.second.now ∷ four.third.now ∷ four.fourth.now ∷ [])) }
        ensures none { IsNone result → current self.now ≡ None }
    {
        let four = self.records.four()?;
        if are_fields(&four) { Some(four) } else { None }
    }
}
