//! What may stand in a field, and why a record can't be read.
ghost use Rattle.std.specs.Prelude.{◌≡◌};
ghost use Rattle.cell_explain.specs.Sayings.{number_word};

use crate::fields::Fields;
use crate::words::{Words, is_one_of};
use cell_types::number::read_number;
use std::fmt;

/// What may stand in a field.
#[derive(Clone, Copy)]
pub(crate) enum Wanted {
    /// One of these words.
    Word(Words),
    /// A number in decimal digits, from the first to the second, of which the first is 0 or 1.
    Number(u32, u32),
    Nothing,
}

impl Wanted {
    // Whether the bytes may stand in the field.
    fn allows(self, field: &[u8]) -> bool {
        match self {
            Wanted::Word(words) => is_one_of(field, words.text()),
            Wanted::Number(low, most) => {
                low == 0 && field == b"0".as_slice() || read_number(most, field).is_some()
            }
            Wanted::Nothing => field.is_empty(),
        }
    }
}

impl fmt::Display for Wanted {
    ghost use Rattle.std.specs.Prelude.{Some};
    ghost use Rattle.cell_explain.specs.Sayings.{wanted_text};

    ghost output = { λ wanted. Some (wanted_text wanted) };

    fn fmt<W: fmt::Write>(&self, f: &mut fmt::Formatter<W>) -> fmt::Result {
        match *self {
            Wanted::Word(words) => write!(f, "one of {}", words.text()),
            Wanted::Number(low, most) => write!(
                f,
                "a number from {low} to {most}, in digits alone, with no 0 in front"
            ),
            Wanted::Nothing => write!(f, "nothing"),
        }
    }
}

/// Why a record can't be read.
#[derive(Clone, Copy)]
pub(crate) enum Trouble {
    /// A quote isn't closed, so that the rest of the text belongs to the record.
    OpenQuote,
    /// It has so many fields, and not four.
    Count(u32),
    /// In the field of this number, counted from 1, something else may stand.
    Field(usize, Wanted),
    /// Each field is in order by itself, but together they are no entry's.
    NoEntry,
    /// Its motion has a fault already.
    Twice,
    /// Each field is in order by itself, but together they are no line of the operator's.
    NoLine,
}

impl Trouble {
    /// Why a record can't be read of whose fields this is wanted. Where each field is in order, it is for this cause.
    pub(crate) fn of(fields: &Fields, wanted: [Wanted; 4], whole: Trouble) -> Trouble {
        if fields.is_open() {
            return Trouble::OpenQuote;
        }
        if fields.count() != 4 {
            return Trouble::Count(fields.count());
        }
        for (place, wanted) in wanted.iter().enumerate() {
            if !wanted.allows(fields.at(place)) {
                return Trouble::Field(place.saturating_add(1), *wanted);
            }
        }
        whole
    }
}

// A number from 2 to 12 in words; nothing for another.
fn number_word(number: u32) -> &'static str
    ensures { result.now ≡ number_word number }
{
    match number {
        2 => "two",
        3 => "three",
        4 => "four",
        5 => "five",
        6 => "six",
        7 => "seven",
        8 => "eight",
        9 => "nine",
        10 => "ten",
        11 => "eleven",
        12 => "twelve",
        _ => "",
    }
}

// How many fields a record has that hasn't four.
#[derive(Clone, Copy)]
struct Count(u32);

impl fmt::Display for Count {
    ghost use Rattle.std.specs.Prelude.{Some};
    ghost use Rattle.cell_explain.specs.Sayings.{count_text};

    ghost output = { λ count. Some (count_text count.0) };

    fn fmt<W: fmt::Write>(&self, f: &mut fmt::Formatter<W>) -> fmt::Result {
        if self.0 == 1 {
            return write!(f, "one field, and not four");
        }
        let word = number_word(self.0);
        if word.is_empty() {
            write!(f, "{} fields, and not four", self.0)
        } else {
            write!(f, "{word} fields, and not four")
        }
    }
}

impl fmt::Display for Trouble {
    ghost use Rattle.std.specs.Prelude.{Some};
    ghost use Rattle.cell_explain.specs.Sayings.{trouble_text};

    ghost output = { λ trouble. Some (trouble_text trouble) };

    fn fmt<W: fmt::Write>(&self, f: &mut fmt::Formatter<W>) -> fmt::Result {
        match *self {
            Trouble::OpenQuote => write!(f, "a quote isn't closed"),
            Trouble::Count(count) => write!(f, "{}", Count(count)),
            Trouble::Field(number, wanted) => write!(f, "field {number}: {wanted}"),
            Trouble::NoEntry => write!(f, "no entry's record"),
            Trouble::Twice => write!(f, "this motion has a fault already"),
            Trouble::NoLine => write!(f, "no line of a script"),
        }
    }
}
