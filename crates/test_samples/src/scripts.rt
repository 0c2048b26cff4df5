//! Scripts of runs of the simulated cell.

/// The faults of a run in which the first motion of the second press doesn't happen.
pub const STUCK_PRESS: &str = "press_two,1,no_motion,\n";

/// The operator clears the second press once it has failed, and repairs it.
pub const CLEARED_PRESS: &str = "failed,press2,clear,press2\nfailed,press2,repair,press2\n";
