//! The reading that a line of the cell tells.
ghost use Rattle.std.specs.Prelude.{◌≡◌, ◌≤◌, ◌∷◌, [], length, map};
ghost use Rattle.std.specs.List.{list_all};
ghost use Rattle.cell_lines.specs.Shown.{axis_bits, bits_of, byte_of, is_among, reading_of, switches_by, switches_of};
ghost use Rattle.line_reader.specs.Split.{parts};

use crate::word::is_word;
use cell_diagnosis::Reading;
use cell_types::sensors::{presence_words, switch_words};
use cell_types::{Axis, Machine};
use line_reader::cut;

// Whether a word is one of these.
fn is_among(words: &[&str], word: &[u8]) -> bool
    ensures { result ≡ is_among (map (λ w. w.now) words.now) word.now }
{
    for known in words {
        if is_word(known.as_bytes(), word) {
            return true;
        }
    }
    false
}

// Whether a word is one of those of a text, with a plus between them.
fn has_word(text: &[u8], word: &[u8]) -> bool
    ensures { result ≡ is_among (parts 43 text.now) word.now }
{
    match cut(text, b'+') {
        Some((first, rest)) => is_word(first, word) || has_word(rest, word),
        None => is_word(text, word),
    }
}

// Whether the words of a text, with a plus between them, are all among these.
fn are_among(words: &[&str], text: &[u8]) -> bool
    ensures { result ≡ list_all (is_among (map (λ w. w.now) words.now)) (parts 43 text.now) }
{
    match cut(text, b'+') {
        Some((first, rest)) => is_among(words, first) && are_among(words, rest),
        None => is_among(words, text),
    }
}

// The byte whose bits say which of these words are among those of a text.
fn byte_of(words: &[&str], text: &[u8]) -> u8
    requires { length words.now ≤ 6 }
    ensures { result ≡ byte_of (map (λ w. w.now) words.now) (parts 43 text.now) }
{
    let mut byte: u8 = 0;
    for place in (0..words.len()).rev() {
        let is_told = has_word(text, words[place].as_bytes());
        byte = byte * 2 + u8::from(is_told);
    }
    byte
}

// The byte of a text that tells some of these words, if it tells no other.
fn bits_of(words: &[&str], text: &[u8]) -> Option<u8>
    requires { length words.now ≤ 6 }
    ensures { result ≡ bits_of (map (λ w. w.now) words.now) text.now }
{
    if text.is_empty() {
        Some(0)
    } else if are_among(words, text) {
        Some(byte_of(words, text))
    } else {
        None
    }
}

// The switches of an axis.
fn axis_bits(axis: Axis, text: &[u8]) -> Option<u8>
    ensures { result ≡ axis_bits axis text.now }
{
    bits_of(switch_words(axis), text)
}

// The switches of a machine with one axis.
fn one_axis(axis: Axis, text: &[u8]) -> Option<[u8; 3]>
    ensures { result ≡ switches_by (axis ∷ []) (parts 47 text.now) }
{
    match cut(text, b'/') {
        Some(_) => None,
        None => Some([axis_bits(axis, text)?, 0, 0]),
    }
}

// The switches of a machine with two axes.
fn two_axes(first: Axis, second: Axis, text: &[u8]) -> Option<[u8; 3]>
    ensures { result ≡ switches_by (first ∷ second ∷ []) (parts 47 text.now) }
{
    let (one, two) = cut(text, b'/')?;
    match cut(two, b'/') {
        Some(_) => None,
        None => Some([axis_bits(first, one)?, axis_bits(second, two)?, 0]),
    }
}

// The switches of a machine with three axes.
fn three_axes(axes: (Axis, Axis, Axis), text: &[u8]) -> Option<[u8; 3]>
    ensures { result ≡ switches_by (axes.0 ∷ axes.1 ∷ axes.2 ∷ []) (parts 47 text.now) }
{
    let (first, second, third) = axes;
    let (one, rest) = cut(text, b'/')?;
    let (two, three) = cut(rest, b'/')?;
    match cut(three, b'/') {
        Some(_) => None,
        None => Some([
            axis_bits(first, one)?,
            axis_bits(second, two)?,
            axis_bits(third, three)?,
        ]),
    }
}

// The switches of a machine, with a slash between those of its axes.
fn switches_of(machine: Machine, text: &[u8]) -> Option<[u8; 3]>
    ensures { result ≡ switches_of machine text.now }
{
    match machine {
        Machine::Feed => one_axis(Axis::FeedBelt, text),
        Machine::Table => two_axes(Axis::TableLift, Axis::TableTurn, text),
        Machine::Robot => three_axes((Axis::RobotTurn, Axis::ArmOne, Axis::ArmTwo), text),
        Machine::Press1 => one_axis(Axis::PressOne, text),
        Machine::Press2 => one_axis(Axis::PressTwo, text),
        Machine::Deposit => one_axis(Axis::DepositBelt, text),
    }
}

/// The reading of a machine by the last two fields of its line, if they are one.
pub(crate) fn reading_of(machine: Machine, switches: &[u8], presence: &[u8]) -> Option<Reading>
    ensures { result ≡ reading_of machine switches.now presence.now }
{
    Some(Reading {
        switches: switches_of(machine, switches)?,
        presence: bits_of(presence_words(machine), presence)?,
    })
}
