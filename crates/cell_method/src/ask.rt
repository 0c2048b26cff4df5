//! What a line of a method asks for.
ghost use Rattle.std.specs.Prelude.{◌≡◌};
ghost use Rattle.cell_method.specs.Asked.{ask_of, asked_by, has_word, to_book};
ghost use Rattle.cell_method.specs.Lines.{current};

use crate::line::LineReader;
use cell_rows::{Four, TellsFault};
use cell_types::{Entry, read_fields};

/// What a line of a method asks for.
#[derive(Clone, Copy, Debug, PartialEq, Eq)]
pub enum Ask {
    /// To book this entry, and to send its command.
    Book(Entry),
    /// The round is over.
    Done,
    /// The run is over.
    Quit,
    /// Nothing: the line is no record of an entry.
    Nothing,
}

// Whether the fields are a word and three that are blank.
fn has_word(four: Four<'_>, word: &[u8]) -> bool
    ensures { result ≡ has_word word.now four.entry.first.now four.entry.second.now four.entry.third.now
        four.entry.fourth.now }
{
    four.first == word && four.second.is_empty() && four.third.is_empty() && four.fourth.is_empty()
}

// To book an entry, if there is one.
fn to_book(entry: Option<Entry>) -> Ask
    ensures { result ≡ to_book entry }
{
    match entry {
        Some(entry) => Ask::Book(entry),
        None => Ask::Nothing,
    }
}

// What four fields ask for.
fn asked_by(four: Four<'_>) -> Ask
    ensures { result ≡ asked_by four.entry.first.now four.entry.second.now four.entry.third.now four.entry.fourth.now }
{
    if has_word(four, b"done") {
        Ask::Done
    } else if has_word(four, b"quit") {
        Ask::Quit
    } else {
        to_book(read_fields(&[four.first, four.second, four.third, four.fourth]))
    }
}

/// What the line that was read last asks for.
pub fn ask_of<R: TellsFault>(lines: &LineReader<R>) -> Ask
    ensures { result ≡ ask_of (current lines.now) }
{
    match lines.four() {
        Some(four) => asked_by(four),
        None => Ask::Nothing,
    }
}
