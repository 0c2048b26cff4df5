//! Finding the four fields of a plain line in bytes that are looked at together.
ghost use Rattle.std.specs.Prelude.{◌≡◌, ◌≤◌, ◌<◌, ◌+◌, IfSome, length};
ghost use Rattle.cell_rows.specs.Plain.{EndsField, IsLineAt, ends_marked};

use crate::places::{LONGEST_FIELD, Places};
use std::simd::prelude::*;

/// How many bytes are looked at together.
pub(crate) const LANES: usize = 32;

// Where a field ends, and the marks of the bytes behind its end.
#[derive(Clone, Copy)]
struct Ended {
    at: usize,
    marks: u64,
}

// Which bytes from a place on can't stand in a field without quotes: a bit for each, the first one's lowest.
#[inline(always)]
fn marks_from(text: &[u8], from: usize) -> u64
    requires { from + 32 ≤ length text.now }
    ensures { result ≡ ends_marked text.now from (from + 32) }
{
    let bytes = u8x32::from_slice(&text[from..]);
    let quotes = bytes.simd_eq(u8x32::splat(b',')) | bytes.simd_eq(u8x32::splat(b'"'));
    let line_ends = bytes.simd_eq(u8x32::splat(b'\r')) | bytes.simd_eq(u8x32::splat(b'\n'));
    (quotes | line_ends).to_bitmask()
}

// The end of the field that begins at a place, by the marks of the bytes up to `edge`, if it is short and ends before
// there at this byte.
#[inline(always)]
fn ended_by(text: &[u8], from: usize, edge: usize, to: usize, marks: u64, end: u8) -> Option<Ended>
    requires range { (from ≤ edge) × (edge ≤ from + 32) × (edge ≤ to) × (to ≤ length text.now) }
    requires marks { marks ≡ ends_marked text.now from edge }
    ensures end { IfSome result (λ ended. EndsField text.now from to end ended.at) }
    ensures inside { IfSome result (λ ended. (ended.at < edge) × (ended.at ≤ from + 20)) }
    ensures marks { IfSome result (λ ended. ended.marks ≡ ends_marked text.now (ended.at + 1) edge) }
{
    if marks == 0 {
        return None;
    }
    let len = marks.trailing_zeros() as usize;
    let at = from + len;
    if len > LONGEST_FIELD || text[at] != end {
        return None;
    }
    Some(Ended {
        at,
        marks: marks >> len >> 1,
    })
}

/// The places of the fields of the line that begins at `start`, if it has four plain fields that fit and is no longer
/// than the bytes that are looked at together.
#[inline(always)]
pub(crate) fn places_together(text: &[u8], start: usize, to: usize) -> Option<Places>
    requires { (start + 32 ≤ to) × (to ≤ length text.now) × (to ≤ 16384) }
    ensures { IfSome result (λ places. IsLineAt text.now start to places) }
{
    let edge = start + LANES;
    let first = ended_by(text, start, edge, to, marks_from(text, start), b',')?;
    let second = ended_by(text, first.at + 1, edge, to, first.marks, b',')?;
    let third = ended_by(text, second.at + 1, edge, to, second.marks, b',')?;
    let fourth = ended_by(text, third.at + 1, edge, to, third.marks, b'\n')?;
    Some(Places {
        start,
        first: first.at,
        second: second.at,
        third: third.at,
        fourth: fourth.at,
    })
}
