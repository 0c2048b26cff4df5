//! A sheet of text, on which frames and words are put before it is written.
ghost use Rattle.std.specs.Prelude.{◌≡◌, true, IsErr};
ghost use Rattle.cell_output.specs.Watched.{IsSameWriter, has_refused};

use arrayvec::ArrayVec;
use cell_output::{WatchedWriter, WriteFault};
use std::fmt;
use std::fmt::Write as _;
use std::io::Write;

/// How many columns a sheet has.
pub const COLUMNS: usize = 78;

/// How many rows a sheet has.
pub const ROWS: usize = 24;

// The most bytes of a line: three for each sign, and the line feed.
const LINE: usize = 235;

/// What stands in one place of a sheet.
#[derive(Clone, Copy)]
pub enum Sign {
    /// A byte of a text.
    Letter(u8),
    Across,
    Down,
    TopLeft,
    TopRight,
    BottomLeft,
    BottomRight,
    Arrow,
}

const BLANK: Sign = Sign::Letter(b' ');

impl Sign {
    // What is written for a sign that is no letter.
    fn drawn(self, unicode: bool) -> &'static str {
        match (self, unicode) {
            (Sign::Across, true) => "─",
            (Sign::Across, false) => "-",
            (Sign::Down, true) => "│",
            (Sign::Down, false) => "|",
            (Sign::TopLeft, true) => "┌",
            (Sign::TopRight, true) => "┐",
            (Sign::BottomLeft, true) => "└",
            (Sign::BottomRight, true) => "┘",
            (Sign::Arrow, true) => "→",
            (Sign::Arrow, false) => ">",
            (Sign::Letter(_), _) => " ",
            (_, false) => "+",
        }
    }
}

/// A part of a sheet.
#[derive(Clone, Copy)]
pub struct Area {
    pub top: usize,
    pub left: usize,
    pub width: usize,
    pub height: usize,
}

/// A sheet of text, and the place where the next sign is put. What doesn't fit is left out.
#[derive(Drop)]
pub struct Sheet {
    signs: [[Sign; COLUMNS]; ROWS],
    row: usize,
    column: usize,
    end: usize,
}

impl Sheet {
    /// A sheet of blanks.
    pub fn blank() -> Self {
        Sheet {
            signs: [[BLANK; COLUMNS]; ROWS],
            row: 0,
            column: 0,
            end: COLUMNS,
        }
    }

    /// The next signs are put into a row, from a column up to an end.
    pub fn go_to(&mut self, row: usize, column: usize, end: usize) {
        self.row = row;
        self.column = column;
        self.end = end;
    }

    /// The next signs are put into a line inside a frame, after a blank.
    pub fn go_inside(&mut self, area: Area, line: usize) {
        self.go_to(
            area.top.saturating_add(line),
            area.left.saturating_add(2),
            area.left.saturating_add(area.width).saturating_sub(1),
        );
    }

    /// Puts a sign into the next place.
    pub fn put(&mut self, sign: Sign) {
        if self.column < self.end {
            if let Some(line) = self.signs.get_mut(self.row) {
                if let Some(place) = line.get_mut(self.column) {
                    *place = sign;
                }
            }
            self.column = self.column.saturating_add(1);
        }
    }

    /// Puts words from a row's start on, and goes on in the next row where a word doesn't fit.
    pub fn put_words(&mut self, row: usize, text: &str) -> fmt::Result {
        self.go_to(row, 0, COLUMNS);
        for word in text.split_whitespace() {
            if COLUMNS < self.column.saturating_add(word.len()) {
                self.go_to(self.row.saturating_add(1), 0, COLUMNS);
            }
            write!(self, "{word} ")?;
        }
        Ok(())
    }

    // Puts the first or last row of a frame.
    fn put_edge(&mut self, row: usize, area: Area, left: Sign, right: Sign) {
        self.go_to(row, area.left, COLUMNS);
        self.put(left);
        for _ in 2..area.width {
            self.put(Sign::Across);
        }
        self.put(right);
    }

    /// Puts a frame round an area.
    pub fn put_frame(&mut self, area: Area) {
        let right = area.left.saturating_add(area.width).saturating_sub(1);
        let bottom = area.top.saturating_add(area.height).saturating_sub(1);
        self.put_edge(area.top, area, Sign::TopLeft, Sign::TopRight);
        for row in area.top.saturating_add(1)..bottom {
            self.go_to(row, area.left, COLUMNS);
            self.put(Sign::Down);
            self.go_to(row, right, COLUMNS);
            self.put(Sign::Down);
        }
        self.put_edge(bottom, area, Sign::BottomLeft, Sign::BottomRight);
    }

    /// Writes the first rows of the sheet, each as a line without the blanks at its end.
    pub fn print<W: Write>(
        &self,
        writer: &mut WatchedWriter<'_, W>,
        rows: usize,
        unicode: bool,
    ) -> Result<(), WriteFault>
        ensures writer { IsSameWriter writer.old writer.new }
        ensures fault { IsErr result → has_refused writer.new ≡ true }
    {
        for signs in self.signs.iter().take(rows) {
            let line = line_of(signs, unicode);
            writer.write_bytes(line.as_slice())?;
        }
        Ok(())
    }
}

impl fmt::Write for Sheet {
    fn write_str(&mut self, text: &str) -> fmt::Result {
        for byte in text.bytes() {
            self.put(Sign::Letter(byte));
        }
        Ok(())
    }
}

// How many signs there are up to the last that is no blank.
fn used(signs: &[Sign; COLUMNS]) -> usize {
    let mut used = 0;
    for (index, sign) in signs.iter().enumerate() {
        if !matches!(sign, Sign::Letter(b' ')) {
            used = index + 1;
        }
    }
    used
}

// The bytes of a row, with its line feed.
fn line_of(signs: &[Sign; COLUMNS], unicode: bool) -> ArrayVec<u8, LINE> {
    let mut line = ArrayVec::new();
    for sign in signs.iter().take(used(signs)) {
        let _ = match *sign {
            Sign::Letter(byte) => line.try_extend_from_slice(&[byte]),
            other => line.try_extend_from_slice(other.drawn(unicode).as_bytes()),
        };
    }
    let _ = line.try_extend_from_slice(b"\n");
    line
}
