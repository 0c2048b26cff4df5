//! A text as it is printed back.
ghost use Rattle.std.specs.Prelude.{◌≡◌, ◌<◌};
ghost use Rattle.std.specs.Fmt.{WritesOnOk};
ghost use Rattle.cell_command.specs.Escaped.{escaped, escaped_char, hex_digit};

use std::fmt;

const DIGITS: [char; 16] = [
    '0', '1', '2', '3', '4', '5', '6', '7', '8', '9', 'A', 'B', 'C', 'D', 'E', 'F',
];

/// A text as it is printed among other words: its control characters as escapes of TOML by four upper-case hexadecimal
/// digits, and all other characters as they stand. So it has no line feed where it is printed, and no order to a
/// terminal.
#[derive(Clone, Copy, Debug, PartialEq, Eq)]
pub struct Escaped<'a>(pub &'a str);

// The digit of a number below 16.
fn digit(number: u32) -> char
    requires { number < 16 }
    ensures digit { result ≡ hex_digit number }
    ensures ascii { result < 128 }
{
    DIGITS[number as usize]
}

// Writes a character of a text.
fn write_char<W: fmt::Write>(f: &mut fmt::Formatter<W>, c: char) -> fmt::Result
    ensures { WritesOnOk W.write_str_gives f.old result (escaped_char c) f.new }
{
    if c.is_control() {
        let code = c as u32;
        let high = digit(code / 16);
        let low = digit(code % 16);
        write!(f, "\\u00{high}{low}")
    } else {
        write!(f, "{c}")
    }
}

// Writes a text, character by character.
fn write_text<W: fmt::Write>(f: &mut fmt::Formatter<W>, text: &str) -> fmt::Result
    ensures { WritesOnOk W.write_str_gives f.old result (escaped text.now) f.new }
{
    for c in text.chars() {
        write_char(f, c)?;
    }
    Ok(())
}

impl fmt::Display for Escaped<'_> {
    ghost use Rattle.std.specs.Prelude.{Some};

    ghost output = { λ text. Some (escaped text.0.now) };

    fn fmt<W: fmt::Write>(&self, f: &mut fmt::Formatter<W>) -> fmt::Result {
        write_text(f, self.0)
    }
}
