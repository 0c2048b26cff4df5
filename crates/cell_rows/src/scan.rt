//! Finding the four fields of a plain line.
ghost use Rattle.std.specs.Prelude.{◌≡◌, ◌≢◌, ◌≤◌, ◌<◌, ◌+◌, ◌⊎◌, true, false, length, take, get_or, slice_range, Err};
ghost use Rattle.std.specs.Prelude.{IfOk, IfSome, IsErrOf};
ghost use Rattle.csv.specs.Writing.{default_writer, needs_byte, needs_quotes};
ghost use Rattle.cell_rows.specs.Plain.{BeginsLine, BeginsLong, EndsField, HasComma, IsLineAt, IsUnfitAt, IsUnfitLine};
ghost use Rattle.cell_rows.specs.Plain.{TakesLine};

use crate::places::{LONGEST_FIELD, Places};
use crate::together::{LANES, places_together};

/// How many bytes of a text are kept at once.
pub const SIZE: usize = 16384;

/// Why no line was taken from the bytes in sight.
#[derive(Clone, Copy, Debug, PartialEq, Eq)]
pub enum Stop {
    /// The next line is plain so far and no record of four short fields, whatever comes after these bytes.
    Unfit,
    /// The next line is plain so far, and isn't whole in sight.
    Cut,
    /// The next line isn't four plain fields: csv has to read it.
    Odd,
}

// Whether a byte can't stand in a field without quotes: a comma, a quote or a line end.
fn ends_field(byte: u8) -> bool
    ensures { result ≡ needs_byte default_writer byte }
{
    matches!(byte, b',' | b'"' | b'\r' | b'\n')
}

// How many bytes come before the first that can't stand in a field without quotes.
fn plain_len(text: &[u8]) -> usize
    ensures bound { result ≤ length text.now }
    ensures plain { needs_quotes default_writer (take result text.now) ≡ false }
{
    for (place, byte) in text.iter().enumerate() {
        if ends_field(*byte) {
            return place;
        }
    }
    text.len()
}

// How many bytes without quotes come from a place on, of the first that no short field has room for.
fn plain_run(text: &[u8], from: usize, to: usize) -> usize
    requires range { (from ≤ to) × (to ≤ length text.now) }
    ensures bound { result ≤ length (slice_range text.now from to) }
    ensures plain { needs_quotes default_writer (take result (slice_range text.now from to)) ≡ false }
{
    if to - from > LONGEST_FIELD {
        plain_len(&text[from..from + (LONGEST_FIELD + 1)])
    } else {
        plain_len(&text[from..to])
    }
}

// Where the plain field that begins at a place ends.
fn field_end(text: &[u8], from: usize, to: usize) -> Result<usize, Stop>
    requires range { (from ≤ to) × (to ≤ length text.now) }
    ensures end { IfOk result (λ at. (at < to) × EndsField text.now from to (get_or text.now at 0) at) }
    ensures near { IfOk result (λ at. at ≤ from + 20) }
    ensures long { IsErrOf result Stop.Unfit → BeginsLong text.now from to }
{
    let len = plain_run(text, from, to);
    if len > LONGEST_FIELD {
        return Err(Stop::Unfit);
    }
    let at = from + len;
    if at < to { Ok(at) } else { Err(Stop::Cut) }
}

// Where the plain field that begins at a place ends at a comma.
fn comma(text: &[u8], from: usize, to: usize) -> Result<usize, Stop>
    requires range { (from ≤ to) × (to ≤ length text.now) }
    ensures end { IfOk result (λ at. EndsField text.now from to 44 at) }
    ensures near { IfOk result (λ at. at ≤ from + 20) }
    ensures long { IsErrOf result Stop.Unfit → BeginsLong text.now from to }
{
    let at = field_end(text, from, to)?;
    if text[at] == b',' {
        Ok(at)
    } else {
        Err(Stop::Odd)
    }
}

// Where the plain field that begins at a place ends at a line feed. A comma there is that of a fifth field.
fn line_feed(text: &[u8], from: usize, to: usize) -> Result<usize, Stop>
    requires range { (from ≤ to) × (to ≤ length text.now) }
    ensures end { IfOk result (λ at. EndsField text.now from to 10 at) }
    ensures unfit { IsErrOf result Stop.Unfit → BeginsLong text.now from to ⊎ HasComma text.now from to }
{
    let at = field_end(text, from, to)?;
    match text[at] {
        b'\n' => Ok(at),
        b',' => Err(Stop::Unfit),
        _ => Err(Stop::Odd),
    }
}

// The places of the fields of the line that begins at `start`, if it has four plain fields and ends before `to`.
fn places_in(text: &[u8], start: usize, to: usize) -> Result<Places, Stop>
    requires range { (start ≤ to) × (to ≤ length text.now) × (to ≤ 16384) }
    ensures line { IfOk result (λ places. IsLineAt text.now start to places) }
    ensures unfit { IsErrOf result Stop.Unfit → IsUnfitLine text.now start to }
{
    let first = comma(text, start, to)?;
    let second = comma(text, first + 1, to)?;
    let third = comma(text, second + 1, to)?;
    let fourth = line_feed(text, third + 1, to)?;
    Ok(Places {
        start,
        first,
        second,
        third,
        fourth,
    })
}

// Where the next line begins: after the line feed that ended the last one, if there is one. A line that might begin
// with a byte order mark is odd.
#[inline(always)]
fn line_start(text: &[u8], at: usize, to: usize) -> Result<usize, Stop>
    requires { (at ≤ to) × (to ≤ length text.now) }
    ensures start { IfOk result (λ start. BeginsLine text.now at to start) }
    ensures fits { result ≢ Err Stop.Unfit }
{
    if at >= to {
        return Err(Stop::Cut);
    }
    match text[at] {
        b'\n' => Ok(at + 1),
        0xEF => Err(Stop::Odd),
        _ => Ok(at),
    }
}

/// The places of the next line from `at` on, if it has four plain fields that fit and is no longer than the bytes that
/// are looked at together, which are in sight.
#[inline(always)]
pub fn line_together(text: &[u8], at: usize, to: usize) -> Option<Places>
    requires { (at ≤ to) × (to ≤ length text.now) × (to ≤ 16384) }
    ensures { IfSome result (λ places. TakesLine text.now at to places) }
{
    let Ok(start) = line_start(text, at, to) else {
        return None;
    };
    if to - start < LANES {
        return None;
    }
    places_together(text, start, to)
}

/// The places of the next line from `at` on, if it has four plain fields and ends before `to`.
pub fn next_line(text: &[u8], at: usize, to: usize) -> Result<Places, Stop>
    requires { (at ≤ to) × (to ≤ length text.now) × (to ≤ 16384) }
    ensures line { IfOk result (λ places. TakesLine text.now at to places) }
    ensures unfit { IsErrOf result Stop.Unfit → IsUnfitAt text.now at to }
{
    let start = line_start(text, at, to)?;
    places_in(text, start, to)
}
