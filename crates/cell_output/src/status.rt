//! The exit statuses of the program.

/// All is well: a legal journal, good settings, a run that finished.
pub const SUCCESS: u8 = 0;

/// What was read isn't in order, or a run didn't finish.
pub const REFUSED: u8 = 1;

/// The arguments are wrong.
pub const WRONG_ARGUMENTS: u8 = 2;

/// A read or a write failed.
pub const DEVICE_FAULT: u8 = 3;

/// Memory or a thread was refused.
pub const OUT_OF_MEMORY: u8 = 4;
