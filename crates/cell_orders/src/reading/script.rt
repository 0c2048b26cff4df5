//! The text of a script.
ghost use Rattle.std.specs.Prelude.{◌≡◌, ◌≢◌, ◌<◌, ◌+◌, ◌↔◌, ℕ, true, false, count_by, Err, IfOk, IfSome, IsNone};
ghost use Rattle.std.specs.Prelude.{IsTrue};
ghost use Rattle.cell_rows.specs.Rows.{rows_of};
ghost use Rattle.cell_rows.specs.Scripts.{lines_of};
ghost use Rattle.cell_orders.specs.Ends.{CutsLine};
ghost use Rattle.cell_orders.specs.Parts.{IsFirstPart, IsWhole, ends_no_line};

use crate::reading::ends::goes_on;
use crate::reading::more::{MOST_KEPT, PIECE, read_on};
use cell_rows::{LineError, ScriptLine, read_script};
use std::alloc::{AllocError, Global};
use std::io;
use std::io::{ErrorKind, Read};

// More bytes than those of 1,000 lines of a script and of `PIECE` together have, but for line ends.
const MOST: usize = 262_144;

/// What was read of a script.
#[derive(Drop)]
pub struct ScriptText {
    /// The first bytes of its text.
    pub bytes: Vec<u8>,
    /// Whether these are all.
    pub is_whole: bool,
}

impl ScriptText {
    /// Whether the first record that is no line goes on behind what was read.
    pub fn cuts_record<L: ScriptLine + Drop>(&self, alloc: Global) -> Result<bool, AllocError>
        ensures { IfOk result (λ cuts. IsTrue cuts ↔ CutsLine self.now.is_whole
            (lines_of L.line_of (rows_of self.now.bytes.items)) self.now.bytes.items) }
    {
        if self.is_whole {
            return Ok(false);
        }
        let bytes = self.bytes.as_slice();
        match first_unread::<L>(alloc, bytes)? {
            Some(number) => goes_on(alloc, bytes, number),
            None => Ok(false),
        }
    }
}

// The number, counted from 0, of the first record of a script that is no line, if there is one among its first 1,000.
fn first_unread<L: ScriptLine + Drop>(alloc: Global, text: &[u8]) -> Result<Option<u32>, AllocError>
    ensures some { IfOk result (λ found. IfSome found (λ number. lines_of L.line_of (rows_of text.now)
        ≡ Err (LineError.Unreadable (number + 1)))) }
    ensures none { IfOk result (λ found. IsNone found → (number : ℕ)
        → lines_of L.line_of (rows_of text.now) ≢ Err (LineError.Unreadable number)) }
{
    match read_script::<L>(alloc, text) {
        Ok(_) | Err(LineError::TooManyLines) => return Ok(None),
        Err(LineError::OutOfMemory) => return Err(AllocError),
        Err(LineError::Unreadable(number)) => Ok(Some(number - 1)),
    }
}

// Whether a byte ends no line.
fn ends_no_line(byte: u8) -> bool
    ensures { result ≡ ends_no_line byte }
{
    byte != b'\n' && byte != b'\r'
}

// How many of these bytes end no line.
fn count_in_lines(bytes: &[u8]) -> usize
    ensures { result ≡ count_by ends_no_line bytes.now }
{
    bytes.iter().filter(|byte| ends_no_line(**byte)).count()
}

/// Reads a script as far as it decides.
///
/// A field of a line that can be read has at most 20 bytes, which two quotes and another quote before each write in at
/// most 42, and so the line has at most 171 bytes; a byte order mark has three. So a text that has more than 171,003
/// bytes but for line ends has a record that is no line, or 1,001 records, and the first of them begins among those
/// bytes. The text is read to its end, or until it has more than 262,144 such bytes: 91,141 behind the last place at
/// which that record may begin. It is no line as far as it was read either, since it has more than 171 bytes there, or
/// has ended. So what is read decides as the whole text does. No clause says so, and `test_orders` looks at it. A text
/// of which 134,217,728 bytes don't decide is too large: most of it is blank lines.
pub fn script_text<R: Read + Drop>(alloc: Global, mut reader: R) -> io::Result<ScriptText>
    ensures first { IfOk result (λ script. IsFirstPart (R.remaining reader) script.bytes.items) }
    ensures whole { IfOk result (λ script. script.is_whole ≡ true → IsWhole (R.remaining reader) script.bytes.items) }
    // It is cut only behind more bytes than a good script has.
    ensures cut { IfOk result (λ script. script.is_whole ≡ false → 262144 < count_by ends_no_line script.bytes.items) }
{
    let mut bytes = Vec::new(alloc);
    let mut count = 0;
    'pieces: for _ in 0..MOST_KEPT / PIECE {
        let start = bytes.len();
        if read_on(&mut reader, &mut bytes, PIECE)? {
            return Ok(ScriptText {
                bytes,
                is_whole: true,
            });
        }
        count += count_in_lines(&bytes[start..]);
        if count > MOST {
            return Ok(ScriptText {
                bytes,
                is_whole: false,
            });
        }
    }
    Err(io::Error::from(ErrorKind::FileTooLarge))
}
