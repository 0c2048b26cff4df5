//! Where the squares of a sweep stand.
ghost use Rattle.std.specs.Prelude.{◌≡◌, ◌≤◌, ◌<◌, IfSome};
ghost use Rattle.cell_charts.specs.Places.{column_x, row_y};

use crate::frame::{Spot, xy};
use crate::kinds::kind_place;
use crate::sweep::Square;
use cell_sim::{Fault, PlannedFault};
use cell_types::{Axis, axis_number};

/// How many motions of an axis are drawn at most.
pub(crate) const MOST_MOTIONS: u32 = 200;

/// How many kinds are drawn at most.
pub(crate) const MOST_KINDS: usize = 30;

/// Where the squares begin, and how far they are apart.
const LEFT: u64 = 176;

pub(crate) const TOP: u64 = 96;

pub(crate) const PITCH: u64 = 13;

/// How far the rows of an axis are from those of the next.
const SPACE: u64 = 9;

/// How wide a chart is at least, so that its legend has room.
const LEAST_WIDTH: u64 = 660;

/// Where the column of a motion begins, from a chart's left edge.
pub(crate) fn column_x(motion: u32) -> u64
    requires { 1 ≤ motion }
    ensures { result ≡ column_x motion }
{
    LEFT + PITCH * (u64::from(motion) - 1)
}

/// Where the row of a kind in an axis begins, from a chart's upper edge, if an axis has so many rows.
pub(crate) fn row_y(axis: usize, rows: usize, row: usize) -> u64
    requires axis { axis < 9 }
    requires rows { rows ≤ 30 }
    requires row { row < 30 }
    ensures { result ≡ row_y axis rows row }
{
    TOP + (PITCH * rows as u64 + SPACE) * axis as u64 + PITCH * row as u64
}

/// The rows and columns of a sweep's chart: the kinds that have a row, and how many motions have a column.
#[derive(Clone, Copy, Debug)]
pub(crate) struct Grid<'a> {
    kinds: &'a [Fault],
    columns: u32,
}

// The first kinds of a list, 30 at most.
fn first_kinds(kinds: &[Fault]) -> &[Fault] {
    &kinds[..kinds.len().min(MOST_KINDS)]
}

// The greatest motion of some squares, 200 at most.
fn last_motion(squares: &[Square]) -> u32
    ensures { result ≤ 200 }
{
    let mut last = 0;
    for square in squares {
        last = square.fault.motion.max(last).min(MOST_MOTIONS);
    }
    last
}

impl<'a> Grid<'a> {
    /// The grid in which all squares have a place of which the kind and the motion have one.
    pub(crate) fn new(kinds: &'a [Fault], squares: &[Square]) -> Grid<'a> {
        Grid {
            kinds: first_kinds(kinds),
            columns: last_motion(squares),
        }
    }

    /// The kinds that have a row.
    pub(crate) fn kinds(&self) -> &'a [Fault] {
        self.kinds
    }

    /// How many motions have a column.
    pub(crate) fn columns(&self) -> u32 {
        self.columns
    }

    /// Where a row of an axis begins.
    pub(crate) fn row(&self, axis: Axis, row: usize) -> u64 {
        let rows = self.kinds.len().max(1).min(MOST_KINDS);
        row_y(axis_number(axis), rows, row.min(MOST_KINDS - 1))
    }

    /// Where the square of a fault stands, if its motion has a column and its kind a row.
    pub(crate) fn place(&self, fault: PlannedFault) -> Option<Spot>
        ensures column { IfSome result (λ at. at.x ≡ column_x fault.motion) }
        ensures drawn { IfSome result (λ at. (1 ≤ fault.motion) × (fault.motion ≤ self.now.columns)) }
    {
        if fault.motion == 0 || fault.motion > self.columns {
            return None;
        }
        let x = column_x(fault.motion);
        match kind_place(self.kinds, fault.fault) {
            Some(row) => Some(xy(x, self.row(fault.axis, row))),
            None => None,
        }
    }

    /// Where the rows end, from the chart's upper edge.
    pub(crate) fn bottom(&self) -> u64 {
        let rows = self.kinds.len().max(1);
        self.row(Axis::DepositBelt, rows.saturating_sub(1))
            .saturating_add(PITCH)
    }

    /// Where the columns end, from the chart's left edge.
    pub(crate) fn right(&self) -> u64 {
        column_x(self.columns.saturating_add(1))
    }

    /// How wide the chart is.
    pub(crate) fn width(&self) -> u64 {
        self.right().saturating_add(20).max(LEAST_WIDTH)
    }
}
