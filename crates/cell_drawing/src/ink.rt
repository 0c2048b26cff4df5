//! The shapes and texts of a drawing, in SVG's elements.
ghost use Rattle.std.specs.Prelude.{◌≡◌};
ghost use Rattle.cell_drawing.specs.Spots.{spot};

use cell_picture::ShownPlate;
use cell_sentences::{pose_name, way_to_pose};
use cell_types::{AxisState, PlateId};
use std::fmt::Display;
use std::io::Write;
use std::{fmt, io};

/// A place of a drawing.
#[derive(Clone, Copy)]
pub struct Spot {
    pub x: u32,
    pub y: u32,
}

/// A place of a drawing, so far from its left and from its upper edge.
pub fn xy(x: u32, y: u32) -> Spot
    ensures { result ≡ spot x y }
{
    Spot { x, y }
}

/// A rectangle, by its upper left corner.
#[derive(Clone, Copy)]
pub struct Rectangle {
    pub corner: Spot,
    pub width: u32,
    pub height: u32,
}

/// The line of a machine's shape: thick, red and broken where the machine is booked failed.
#[derive(Clone, Copy)]
pub struct Outline {
    pub failed: bool,
}

impl fmt::Display for Outline {
    fn fmt<W: fmt::Write>(&self, f: &mut fmt::Formatter<W>) -> fmt::Result {
        if self.failed {
            write!(
                f,
                "stroke=\"#c00000\" stroke-width=\"4\" stroke-dasharray=\"9 4\""
            )
        } else {
            write!(f, "stroke=\"#222222\" stroke-width=\"2\"")
        }
    }
}

/// The pose that an axis has; where it goes, the pose that it has left and that to which it goes.
#[derive(Clone, Copy)]
pub struct Way(pub AxisState);

impl fmt::Display for Way {
    fn fmt<W: fmt::Write>(&self, f: &mut fmt::Formatter<W>) -> fmt::Result {
        let at = pose_name(self.0.at);
        match self.0.going {
            Some(to) => write!(f, "{at} \u{2192} {}", way_to_pose(to)),
            None => write!(f, "{at}"),
        }
    }
}

/// Writes a text that begins at a spot.
pub fn ink_text<W: Write, D: Display + Drop>(out: &mut W, at: Spot, text: D) -> io::Result<()> {
    let Spot { x, y } = at;
    writeln!(out, "<text x=\"{x}\" y=\"{y}\">{text}</text>")
}

/// Writes a text in bold letters that begins at a spot.
pub fn ink_bold<W: Write, D: Display + Drop>(out: &mut W, at: Spot, text: D) -> io::Result<()> {
    let Spot { x, y } = at;
    writeln!(
        out,
        "<text x=\"{x}\" y=\"{y}\" font-weight=\"bold\">{text}</text>"
    )
}

/// Writes a text that ends at a spot.
pub fn ink_right<W: Write, D: Display + Drop>(out: &mut W, at: Spot, text: D) -> io::Result<()> {
    let Spot { x, y } = at;
    writeln!(
        out,
        "<text x=\"{x}\" y=\"{y}\" text-anchor=\"end\">{text}</text>"
    )
}

/// Writes what is wrong, in red, from a spot on.
pub fn ink_fault<W: Write>(out: &mut W, at: Spot, text: &str) -> io::Result<()> {
    let Spot { x, y } = at;
    writeln!(
        out,
        "<text x=\"{x}\" y=\"{y}\" fill=\"#c00000\">{text}</text>"
    )
}

/// Draws a line.
pub fn ink_line<W: Write>(out: &mut W, from: Spot, to: Spot, width: u32) -> io::Result<()> {
    writeln!(
        out,
        "<line x1=\"{}\" y1=\"{}\" x2=\"{}\" y2=\"{}\" stroke=\"#667085\" stroke-width=\"{width}\"/>",
        from.x, from.y, to.x, to.y
    )
}

/// Draws the broken line of what an axis has set out for.
pub fn ink_ghost<W: Write>(out: &mut W, from: Spot, to: Spot) -> io::Result<()> {
    writeln!(
        out,
        "<line x1=\"{}\" y1=\"{}\" x2=\"{}\" y2=\"{}\" stroke=\"#2a5d9f\" stroke-width=\"3\" \
            stroke-dasharray=\"5 6\"/>",
        from.x, from.y, to.x, to.y
    )
}

/// Draws a circle.
pub fn ink_circle<W: Write>(
    out: &mut W,
    centre: Spot,
    radius: u32,
    fill: &str,
    outline: Outline,
) -> io::Result<()> {
    let Spot { x, y } = centre;
    writeln!(
        out,
        "<circle cx=\"{x}\" cy=\"{y}\" r=\"{radius}\" fill=\"{fill}\" {outline}/>"
    )
}

/// Draws a rectangle.
pub fn ink_rectangle<W: Write>(
    out: &mut W,
    rectangle: Rectangle,
    fill: &str,
    outline: Outline,
) -> io::Result<()> {
    writeln!(
        out,
        "<rect x=\"{}\" y=\"{}\" width=\"{}\" height=\"{}\" rx=\"4\" fill=\"{fill}\" {outline}/>",
        rectangle.corner.x, rectangle.corner.y, rectangle.width, rectangle.height
    )
}

/// The colour of a plate, and the sign behind its number: a forged one is orange and has a star.
pub fn plate_inks(forged: bool) -> (&'static str, &'static str) {
    if forged {
        ("#f0b45c", "*")
    } else {
        ("#ffffff", "")
    }
}

/// Draws a plate round a spot, without its number.
pub fn ink_tile<W: Write>(out: &mut W, centre: Spot, forged: bool) -> io::Result<()> {
    let (fill, _) = plate_inks(forged);
    writeln!(
        out,
        "<rect x=\"{}\" y=\"{}\" width=\"46\" height=\"26\" rx=\"5\" fill=\"{fill}\" stroke=\"#000000\" \
            stroke-width=\"1.5\"/>",
        centre.x.saturating_sub(23),
        centre.y.saturating_sub(13)
    )
}

/// How large the number of a plate is written, so that it stays within the plate.
pub fn number_size(plate: PlateId) -> u32 {
    if plate.number() < 1000 { 14 } else { 10 }
}

/// Draws a plate round a spot, with its number.
pub fn ink_plate<W: Write>(out: &mut W, centre: Spot, shown: ShownPlate) -> io::Result<()> {
    let (_, star) = plate_inks(shown.forged);
    let size = number_size(shown.plate);
    ink_tile(out, centre, shown.forged)?;
    writeln!(
        out,
        "<text x=\"{}\" y=\"{}\" font-size=\"{size}\" text-anchor=\"middle\">{}{star}</text>",
        centre.x,
        centre.y.saturating_add(5),
        shown.plate.number()
    )
}

// Draws the place of a plate round a spot.
fn ink_gap<W: Write>(out: &mut W, centre: Spot) -> io::Result<()> {
    writeln!(
        out,
        "<rect x=\"{}\" y=\"{}\" width=\"46\" height=\"26\" rx=\"5\" fill=\"none\" stroke=\"#667085\" \
            stroke-dasharray=\"2 3\"/>",
        centre.x.saturating_sub(23),
        centre.y.saturating_sub(13)
    )
}

/// Draws the plate of a station, or the place of one where the station is empty.
pub fn ink_place<W: Write>(out: &mut W, centre: Spot, shown: Option<ShownPlate>) -> io::Result<()> {
    match shown {
        Some(shown) => ink_plate(out, centre, shown),
        None => ink_gap(out, centre),
    }
}
