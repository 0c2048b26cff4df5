//! The chart of a sweep: the axes by their motions, and a square with the run's end for each kind of fault.
use crate::ends::{ENDS, count_of, end_fill, end_sign, end_word};
use crate::frame::{Ink, Look, begin_sheet, end_sheet, write_line, write_square, write_text, xy};
use crate::grid::{Grid, MOST_KINDS, MOST_MOTIONS, TOP, column_x};
use crate::kinds::KindText;
use cell_sim::{Fault, PlannedFault};
use cell_types::texts::axis_word;
use cell_types::{AXES, Axis};
use cell_workers::End;
use std::io::Write;
use std::{fmt, io};

/// The run of a sweep with one fault, by its end.
#[derive(Clone, Copy, Debug, PartialEq, Eq)]
pub struct Square {
    pub fault: PlannedFault,
    pub end: End,
}

// How the squares of an end are drawn.
fn ink_of(end: End) -> Ink {
    Ink {
        fill: end_fill(end),
        sign: end_sign(end),
    }
}

// Draws what an end's squares look like, and writes its word and how many runs had it.
fn write_end<W: Write>(out: &mut W, x: u64, end: End, count: usize) -> io::Result<()> {
    let word = end_word(end);
    write_square(out, xy(x, 54), ink_of(end), word)?;
    write_text(
        out,
        xy(x.saturating_add(17), 63),
        Look::Plain,
        format_args!("{word} {count}"),
    )
}

// Writes what the colours and signs mean, and how many runs had each end.
fn write_legend<W: Write>(out: &mut W, squares: &[Square]) -> io::Result<()> {
    let mut x: u64 = 10;
    for end in ENDS {
        let count = count_of(squares, end);
        if count > 0 || end != End::Memory {
            write_end(out, x, end, count)?;
            x = x.saturating_add(125);
        }
    }
    Ok(())
}

// Writes the numbers of motions above their columns: the first and each fifth.
fn write_motions<W: Write>(out: &mut W, grid: &Grid<'_>) -> io::Result<()> {
    let y = TOP.saturating_sub(9);
    for motion in 1..grid.columns().saturating_add(1) {
        if motion == 1 || motion % 5 == 0 {
            let x = column_x(motion).saturating_add(5);
            write_text(out, xy(x, y), Look::SmallMiddle, motion)?;
        }
    }
    Ok(())
}

// Writes the words of an axis and of the kinds in its rows.
fn write_axis<W: Write>(out: &mut W, grid: &Grid<'_>, axis: Axis) -> io::Result<()> {
    let y = grid.row(axis, 0);
    let line = y.saturating_sub(6);
    write_line(out, (10, line), (grid.right(), line))?;
    write_text(
        out,
        xy(10, y.saturating_add(10)),
        Look::Bold,
        axis_word(axis),
    )?;
    for (row, kind) in grid.kinds().iter().enumerate() {
        let y = grid.row(axis, row).saturating_add(9);
        write_text(out, xy(170, y), Look::SmallRight, KindText(*kind))?;
    }
    Ok(())
}

// Writes the words before all rows.
fn write_axes<W: Write>(out: &mut W, grid: &Grid<'_>) -> io::Result<()> {
    for axis in AXES {
        write_axis(out, grid, axis)?;
    }
    Ok(())
}

// The title of a run's square: its axis, motion and kind, and its end.
#[derive(Clone, Copy)]
struct Title(Square);

impl fmt::Display for Title {
    fn fmt<W: fmt::Write>(&self, f: &mut fmt::Formatter<W>) -> fmt::Result {
        let Square { fault, end } = self.0;
        let (axis, motion) = (axis_word(fault.axis), fault.motion);
        let (kind, end) = (KindText(fault.fault), end_word(end));
        write!(f, "{axis}, motion {motion}, {kind}: {end}")
    }
}

// Draws the square of a run, if it has a place.
fn draw_square<W: Write>(out: &mut W, grid: &Grid<'_>, square: Square) -> io::Result<bool> {
    match grid.place(square.fault) {
        Some(at) => {
            write_square(out, at, ink_of(square.end), Title(square))?;
            Ok(true)
        }
        None => Ok(false),
    }
}

// Draws the squares of all runs that have a place, and gives how many haven't.
fn draw_squares<W: Write>(out: &mut W, grid: &Grid<'_>, squares: &[Square]) -> io::Result<u64> {
    let mut left: u64 = 0;
    for square in squares {
        if !draw_square(out, grid, *square)? {
            left = left.saturating_add(1);
        }
    }
    Ok(left)
}

// Writes how many runs aren't drawn, if there are such.
fn write_left<W: Write>(out: &mut W, grid: &Grid<'_>, left: u64) -> io::Result<()> {
    if left == 0 {
        return Ok(());
    }
    write_text(
        out,
        xy(10, grid.bottom().saturating_add(20)),
        Look::Plain,
        format_args!(
            "Not drawn: {left} of the runs, with a motion above {MOST_MOTIONS} or a kind behind the first {MOST_KINDS}"
        ),
    )
}

/// Writes the runs of a sweep as one SVG file: the axes in their order, in each a row for each kind of fault in the
/// order of `kinds`, and a column for each motion. The square of a run has the colour and the sign of its end and a
/// title, and a legend tells how many runs had each end. A fault without a run has no square.
///
/// Motions above 200 and kinds behind the first 30 aren't drawn, but counted; a line says of how many runs. An error is
/// that of the writer; a first part of the file was written then. It takes no memory.
pub fn write_sweep_chart<W: Write>(
    writer: &mut W,
    kinds: &[Fault],
    squares: &[Square],
) -> io::Result<()> {
    let grid = Grid::new(kinds, squares);
    let height = grid.bottom().saturating_add(32);
    let runs = squares.len();
    begin_sheet(writer, grid.width(), height, "Ends of a sweep's runs")?;
    write_text(
        writer,
        xy(10, 24),
        Look::Heading,
        format_args!("{runs} runs, each with one fault"),
    )?;
    write_text(
        writer,
        xy(10, 42),
        Look::Plain,
        "by axis and kind of fault (rows) and by the axis's motion that has it (columns)",
    )?;
    write_legend(writer, squares)?;
    write_motions(writer, &grid)?;
    write_axes(writer, &grid)?;
    let left = draw_squares(writer, &grid, squares)?;
    write_left(writer, &grid, left)?;
    end_sheet(writer)
}
