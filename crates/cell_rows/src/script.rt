//! Scripts: texts each of whose records is a line.
ghost use Rattle.std.specs.Prelude.{◌≡◌, ◌≢◌, ◌≤◌, ◌<◌, ◌+◌, vec_items};
ghost use Rattle.std.specs.Result.{result_map_both};
ghost use Rattle.cell_rows.specs.Rows.{current_row, rows_of};
ghost use Rattle.cell_rows.specs.Scripts.{FitLines, Gives, Means, line_of_row, lines_of};

use crate::rows::{Four, RowError, RowReader};
use crate::watched::TellsFault;
use std::alloc::Global;

/// The most lines that a script may have.
pub const MAX_LINES: u32 = 1000;

/// Why a script can't be read.
#[derive(Clone, Copy, Debug, PartialEq, Eq)]
pub enum LineError {
    /// This record, counted from 1, is no line.
    Unreadable(u32),
    /// There is a record 1,001.
    TooManyLines,
    /// Memory was refused.
    OutOfMemory,
}

/// A line of a script, which four fields write.
pub trait ScriptLine: Sized {
    ghost use Rattle.std.specs.Prelude.{◌≡◌, ℕ, List, Option};
    ghost use Rattle.cell_rows.specs.Scripts.{FitLines};

    /// The line that four fields write after these lines, if they write one.
    ghost line_of: { List Self → List ℕ → List ℕ → List ℕ → List ℕ → Option Self };

    /// The line that these fields write after these lines; `None` where they write none.
    fn read_line(before: &[Self], fields: Four<'_>) -> Option<Self>
        ensures { result ≡ line_of before.now fields.entry.first.now fields.entry.second.now fields.entry.third.now
            fields.entry.fourth.now };

    /// Fields that write a line are short: the contract is this law, and a body does nothing.
    fn lines_fit()
        ensures { FitLines line_of };
}

// The answer where the record at a place, counted from 0, is none that can be a line, or couldn't be read.
fn stopped<L: ScriptLine>(place: u32, why: RowError) -> LineError
    requires { place ≤ 1000 }
    ensures unread { why ≡ RowError.Unfit → place < 1000 → result ≡ LineError.Unreadable (place + 1) }
    ensures many { why ≡ RowError.Unfit → place ≡ 1000 → result ≡ LineError.TooManyLines }
    ensures memory { why ≢ RowError.Unfit → result ≡ LineError.OutOfMemory }
    ensures fits { FitLines L.line_of }
{
    L::lines_fit();
    match why {
        RowError::Unfit if place == MAX_LINES => LineError::TooManyLines,
        RowError::Unfit => LineError::Unreadable(place + 1),
        RowError::ReadFault | RowError::OutOfMemory => LineError::OutOfMemory,
    }
}

// The line of the record that was read, after these lines.
fn current_line<L: ScriptLine, R: TellsFault>(before: &[L], rows: &RowReader<R>) -> Option<L>
    ensures { result ≡ line_of_row L.line_of before.now (current_row rows.now) }
{
    match rows.four() {
        Some(four) => L::read_line(before, four),
        None => None,
    }
}

/// Reads a script: at most 1,000 records of four fields, each of them a line.
///
/// The first record that is no line is `Unreadable`, counted from 1; a record 1,001 is `TooManyLines`, whatever it
/// holds. `OutOfMemory` comes where memory was refused: that it comes nowhere else is tested, and no clause says so.
#[tactic(auto, unfolding(crate::specs::Scripts::lines_after))]
pub fn read_script<L: ScriptLine + Drop>(alloc: Global, text: &[u8]) -> Result<Vec<L>, LineError>
    ensures exact { Gives (result_map_both vec_items (λ e. e) result) (lines_of L.line_of (rows_of text.now)) }
    ensures means { Means L.line_of (rows_of text.now) (result_map_both vec_items (λ e. e) result) }
{
    let mut rows = RowReader::new(alloc, text);
    let mut lines = Vec::new(alloc);
    for place in 0..MAX_LINES + 1 {
        match rows.advance() {
            Ok(found) => {
                if !found {
                    return Ok(lines);
                }
            }
            Err(why) => return Err(stopped::<L>(place, why)),
        }
        if place == MAX_LINES {
            return Err(LineError::TooManyLines);
        }
        match current_line(lines.as_slice(), &rows) {
            Some(line) => {
                if lines.push(line).is_err() {
                    return Err(LineError::OutOfMemory);
                }
            }
            None => return Err(LineError::Unreadable(place + 1)),
        }
    }
    unreachable!()
}
