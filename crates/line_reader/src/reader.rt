//! The lines of a text that is read, and the record of each.
ghost use Rattle.std.specs.Prelude.{◌≡◌, ◌⊎◌, ◌∷◌, [], ℕ, List, true, IfOk, IfSome, IsErr, IsNone, None, Some, ◌++◌};
ghost use Rattle.std.specs.Prelude.{option_map};
ghost use Rattle.std.specs.Io.KnownBytes.{Consumes, IsAtEnd};
ghost use Rattle.line_reader.specs.Lines.{EndsLine, Holds, IsEndless, TakesLine, bytes_left, current, has_failed};
ghost use Rattle.line_reader.specs.Lines.{bytes_held, is_blank, is_within, lines_left, lines_of, lines_read};
ghost use Rattle.line_reader.specs.Lines.{without_return};

use crate::split::record_of;
use arrayvec::ArrayVec;
use cell_rows::{Four, TellsFault};

/// The reader of the text failed, or a line or the blank lines together have 2^64 - 1 bytes.
#[derive(Clone, Copy, Debug, PartialEq, Eq)]
pub struct ReadFault;

/// The lines of a reader's text, one at a time, with the one that was read last. Of a line at most 128 bytes are held,
/// and a longer one is no record.
#[derive(Drop)]
pub struct RecordReader<R> {
    source: R,
    line: ArrayVec<u8, 128>,
    is_long: bool,
    /// How many lines were read, blank ones too. At `u64::MAX` the count stays.
    number: u64,
}

// The next byte, if there is one.
fn take_byte<R: TellsFault>(source: &mut R) -> Result<Option<u8>, ReadFault>
    ensures some { IfOk result (λ byte. IfSome byte (λ b. Consumes (R.remaining source.old) (R.remaining source.new)
        (b ∷ []))) }
    ensures none { IfOk result (λ byte. IsNone byte → Consumes (R.remaining source.old) (R.remaining source.new) []
        × IsAtEnd (R.remaining source.new)) }
    ensures fault { IsErr result → R.failed source.new ≡ true }
{
    let mut byte = [0];
    match source.read_told(&mut byte) {
        Ok(0) => Ok(None),
        Ok(_) => Ok(Some(byte[0])),
        Err(_) => Err(ReadFault),
    }
}

// A line without the carriage return at its end.
fn without_return(line: &[u8]) -> &[u8]
    ensures { result.now ≡ without_return line.now }
{
    if let [.., b'\r'] = line {
        &line[..line.len() - 1]
    } else {
        line
    }
}

impl<R: TellsFault> RecordReader<R> {
    /// The lines of what the reader has left. It reads nothing yet.
    pub fn new(source: R) -> RecordReader<R>
        ensures { lines_left R.remaining result ≡ option_map lines_of (R.remaining source) }
    {
        RecordReader {
            source,
            line: ArrayVec::new(),
            is_long: false,
            number: 0,
        }
    }

    // Keeps one more byte of the line, as far as the line can be a record.
    fn keep(&mut self, byte: u8)
        ensures source { self.new.source ≡ self.old.source }
        ensures holds { (line : List ℕ) → Holds self.old line → is_within byte ≡ true
            → Holds self.new (line ++ byte ∷ []) }
    {
        match self.line.try_push(byte) {
            Ok(()) => {}
            Err(_) => self.is_long = true,
        }
    }

    // Reads a line, and says whether the text ended with it.
    fn read_line(&mut self) -> Result<bool, ReadFault>
        ensures line { IfOk result (λ ended. (line : List ℕ) × Holds self.new line
            × EndsLine (R.remaining self.old.source) (R.remaining self.new.source) line ended) }
        ensures fault { IsErr result → (has_failed R.failed self.new ≡ true)
            ⊎ IsEndless (bytes_left R.remaining self.old) (bytes_left R.remaining self.new) }
    {
        self.line.clear();
        self.is_long = false;
        self.number = self.number.saturating_add(1);
        for _count in 0..u64::MAX {
            match take_byte(&mut self.source)? {
                None => return Ok(true),
                Some(b'\n') => return Ok(false),
                Some(byte) => self.keep(byte),
            }
        }
        Err(ReadFault)
    }

    // Whether the line is blank.
    fn is_blank(&self) -> bool
        ensures { (line : List ℕ) → Holds self.now line → result ≡ is_blank line }
    {
        !self.is_long && without_return(self.line.as_slice()).is_empty()
    }

    /// Reads the next line that isn't blank, and says whether there was one. It reads no further than the line feed.
    pub fn advance(&mut self) -> Result<bool, ReadFault>
        ensures line { IfOk result (TakesLine (lines_left R.remaining self.old) (lines_left R.remaining self.new)
            (current self.new)) }
        // It answers an error only where the reader failed, or after more bytes than a count can have.
        ensures fault { IsErr result → (has_failed R.failed self.new ≡ true)
            ⊎ IsEndless (bytes_left R.remaining self.old) (bytes_left R.remaining self.new) }
    {
        for _count in 0..u64::MAX {
            let ended = self.read_line()?;
            if !self.is_blank() {
                return Ok(true);
            }
            if ended {
                return Ok(false);
            }
        }
        Err(ReadFault)
    }

    /// The record of the line that was read last, if it is one: four fields with commas between them.
    pub fn four(&self) -> Option<Four<'_>>
        ensures some { IfSome result (λ four. current self.now
            ≡ Some (four.first.now ∷ four.second.now ∷ four.third.now ∷ four.fourth.now ∷ [])) }
        ensures none { IsNone result → current self.now ≡ None }
    {
        if self.is_long {
            return None;
        }
        record_of(without_return(self.line.as_slice()))
    }

    /// The bytes that are held of the line that was read last.
    pub fn bytes(&self) -> &[u8]
        ensures { result.now ≡ bytes_held self.now }
    {
        without_return(self.line.as_slice())
    }

    /// The number of the line that was read last, from 1.
    pub fn number(&self) -> u64
        ensures { result ≡ lines_read self.now }
    {
        self.number
    }
}
