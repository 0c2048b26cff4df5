//! The lines of a script.
use cell_types::{Machine, PlateId, Station};

/// When a line's turn has come. The triggers are this project's profile.
#[derive(Clone, Copy, Debug, PartialEq, Eq)]
pub enum Trigger {
    /// At once.
    Always,
    /// As soon as at least so many plates were admitted, 0 to 100,000.
    Admitted(u32),
    /// As soon as at least so many plates were delivered, 0 to 100,000.
    Delivered(u32),
    /// As soon as at least so many plates were taken into quarantine, 0 to 100,000.
    Quarantined(u32),
    /// While the machine is booked failed.
    Failed(Machine),
}

/// What a line asks for.
#[derive(Clone, Copy, Debug, PartialEq, Eq)]
pub enum Task {
    /// A stop of the machine.
    Stop(Machine),
    /// That the plate at the station is taken out.
    Clear(Station),
    /// The repair of the machine.
    Repair(Machine),
    /// That the plate, which was taken into quarantine, is laid back.
    Expect(PlateId),
}

/// A line of a script.
#[derive(Clone, Copy, Debug, PartialEq, Eq)]
pub struct Line {
    pub when: Trigger,
    pub task: Task,
}
