//! How a sweep is told.

/// How a sweep is told.
#[derive(Clone, Copy, Debug, PartialEq, Eq)]
pub enum Form {
    /// A row of each run in columns, and then how many runs had each end.
    Table,
    /// A row of each run as CSV.
    Csv,
    /// One SVG file with a square for each run that has one fault, and no row.
    Chart,
}
