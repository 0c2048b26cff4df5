//! The parts that charts share, in SVG's elements: the sheet, texts, squares with signs, and bars.
ghost use Rattle.std.specs.Prelude.{◌≡◌};

use std::fmt::Display;
use std::io;
use std::io::Write;

/// How wide and high a square is.
pub(crate) const SIDE: u64 = 11;

/// A place of a chart, so far from its left and from its upper edge.
#[derive(Clone, Copy, Debug, PartialEq, Eq)]
pub(crate) struct Spot {
    pub(crate) x: u64,
    pub(crate) y: u64,
}

/// A place of a chart.
pub(crate) fn xy(x: u64, y: u64) -> Spot
    ensures across { result.x ≡ x }
    ensures down { result.y ≡ y }
{
    Spot { x, y }
}

/// How a text looks, and where its spot is.
#[derive(Clone, Copy, Debug)]
pub(crate) enum Look {
    /// It begins at the spot.
    Plain,
    /// In large bold letters.
    Heading,
    /// In bold letters.
    Bold,
    /// It ends at the spot.
    Right,
    /// In small letters, and ends at the spot.
    SmallRight,
    /// In small letters round the spot.
    SmallMiddle,
}

impl Look {
    // Its attributes.
    fn attributes(self) -> &'static str {
        match self {
            Look::Plain => "",
            Look::Heading => " font-size=\"15\" font-weight=\"bold\"",
            Look::Bold => " font-size=\"12\" font-weight=\"bold\"",
            Look::Right => " text-anchor=\"end\"",
            Look::SmallRight => " font-size=\"9\" text-anchor=\"end\"",
            Look::SmallMiddle => " font-size=\"9\" text-anchor=\"middle\"",
        }
    }
}

/// What a square or a bar is filled with, and the sign in it.
#[derive(Clone, Copy, Debug)]
pub(crate) struct Ink {
    pub(crate) fill: &'static str,
    pub(crate) sign: &'static str,
}

/// Begins a chart that is so wide and high, on white ground.
pub(crate) fn begin_sheet<W: Write>(
    out: &mut W,
    width: u64,
    height: u64,
    title: &str,
) -> io::Result<()> {
    writeln!(
        out,
        "<svg xmlns=\"http://www.w3.org/2000/svg\" viewBox=\"0 0 {width} {height}\" width=\"{width}\" \
            height=\"{height}\" font-family=\"Helvetica, Arial, sans-serif\" font-size=\"11\" fill=\"#111111\">\n\
         <title>{title}</title>\n\
         <rect width=\"{width}\" height=\"{height}\" fill=\"#ffffff\"/>"
    )
}

/// Writes a text.
pub(crate) fn write_text<W: Write, D: Display + Drop>(
    out: &mut W,
    at: Spot,
    look: Look,
    text: D,
) -> io::Result<()> {
    let Spot { x, y } = at;
    let attributes = look.attributes();
    writeln!(out, "<text x=\"{x}\" y=\"{y}\"{attributes}>{text}</text>")
}

/// Draws a square with a sign and a title.
pub(crate) fn write_square<W: Write, D: Display + Drop>(
    out: &mut W,
    at: Spot,
    ink: Ink,
    title: D,
) -> io::Result<()> {
    let Spot { x, y } = at;
    let Ink { fill, sign } = ink;
    writeln!(
        out,
        "<g><title>{title}</title><rect x=\"{x}\" y=\"{y}\" width=\"{SIDE}\" height=\"{SIDE}\" \
            fill=\"{fill}\"/><path d=\"M{x} {y}{sign}\" stroke=\"#111111\"/></g>"
    )
}

/// Draws a thin line.
pub(crate) fn write_line<W: Write, D: Display + Drop>(
    out: &mut W,
    from: (D, u64),
    to: (D, u64),
) -> io::Result<()> {
    let (x1, y1) = from;
    let (x2, y2) = to;
    writeln!(
        out,
        "<line x1=\"{x1}\" y1=\"{y1}\" x2=\"{x2}\" y2=\"{y2}\" stroke=\"#cccccc\"/>"
    )
}

/// Ends a chart.
pub(crate) fn end_sheet<W: Write>(out: &mut W) -> io::Result<()> {
    writeln!(out, "</svg>")
}
