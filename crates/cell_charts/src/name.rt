//! Names in a chart.
ghost use Rattle.std.specs.Prelude.{◌≡◌, ◌<◌, true};
ghost use Rattle.std.specs.Fmt.{WritesOnOk};
ghost use Rattle.cell_charts.specs.Names.{hex_digit, is_untold, name_char};

use std::fmt;

/// How many characters of a name are told.
const MOST_CHARS: usize = 60;

const DIGITS: [char; 16] = [
    '0', '1', '2', '3', '4', '5', '6', '7', '8', '9', 'A', 'B', 'C', 'D', 'E', 'F',
];

/// A name as it stands in XML: `&`, `<`, `>` and `"` as XML's names of them, and what no text of XML may have, control
/// characters among them, by four upper-case hexadecimal digits behind `\u`. Of a name with more than 60 characters the
/// first 60 are told, and three dots.
#[derive(Clone, Copy, Debug)]
pub(crate) struct Name<'a>(pub(crate) &'a str);

// The digit of a number below 16.
fn digit(number: u32) -> char
    requires { number < 16 }
    ensures digit { result ≡ hex_digit number }
    ensures ascii { result < 128 }
{
    DIGITS[number as usize]
}

// Whether a text in XML can't have a character, or has it only as an end of a line.
fn is_untold(c: char) -> bool
    ensures { result ≡ is_untold c }
{
    c.is_control() || (c == '\u{FFFE}' || c == '\u{FFFF}')
}

// Writes a character by its number.
fn write_code<W: fmt::Write>(f: &mut fmt::Formatter<W>, c: char) -> fmt::Result
    requires { is_untold c ≡ true }
    ensures { WritesOnOk W.write_str_gives f.old result (name_char c) f.new }
{
    let code = c as u32;
    let first = digit(code / 4096 % 16);
    let second = digit(code / 256 % 16);
    let third = digit(code / 16 % 16);
    let fourth = digit(code % 16);
    write!(f, "\\u{first}{second}{third}{fourth}")
}

// Writes a character of a name.
fn write_char<W: fmt::Write>(f: &mut fmt::Formatter<W>, c: char) -> fmt::Result
    ensures { WritesOnOk W.write_str_gives f.old result (name_char c) f.new }
{
    if is_untold(c) {
        return write_code(f, c);
    }
    match c {
        '&' => write!(f, "&amp;"),
        '<' => write!(f, "&lt;"),
        '>' => write!(f, "&gt;"),
        '"' => write!(f, "&quot;"),
        _ => write!(f, "{c}"),
    }
}

impl fmt::Display for Name<'_> {
    fn fmt<W: fmt::Write>(&self, f: &mut fmt::Formatter<W>) -> fmt::Result {
        for (place, c) in self.0.chars().enumerate() {
            if place >= MOST_CHARS {
                return write!(f, "...");
            }
            write_char(f, c)?;
        }
        Ok(())
    }
}
