//! That a cell can't be reached any more.

/// The cell can't be reached any more.
#[derive(Clone, Copy, PartialEq, Eq, Debug)]
pub struct Gone;
