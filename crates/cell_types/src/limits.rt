//! The greatest journal and the greatest plate number, by this project's profile.

/// The most entries that any journal may have.
pub const MAX_ENTRIES: u32 = 1_000_000;

/// The greatest number of a plate.
pub const MAX_PLATES: u32 = 100_000;
