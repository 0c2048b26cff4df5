//! The motions that entries end.
ghost use Rattle.std.specs.Prelude.{◌≡◌};
ghost use Rattle.cell_measures.specs.Times.{motion_of};

use cell_types::{Axis, Entry, Pose, motion_to, press_axis};

/// A motion of an axis.
#[derive(Clone, Copy, Debug, PartialEq, Eq)]
pub struct Move {
    /// The axis that moves.
    pub axis: Axis,
    /// The pose to which it moves; of a belt the motion's name.
    pub to: Pose,
}

/// The motion that an entry ends: an arrival, a plate that a belt has brought, or a forging.
pub fn motion_of(entry: Entry) -> Option<Move>
    ensures { result ≡ motion_of entry }
{
    match entry {
        Entry::Arrived { axis, at } => Some(Move { axis, to: at }),
        Entry::Conveyed { axis, dest, .. } => match motion_to(axis, dest) {
            Some(motion) => Some(Move {
                axis,
                to: motion.to,
            }),
            None => None,
        },
        Entry::Forged { press, .. } => match press_axis(press) {
            Some(axis) => Some(Move {
                axis,
                to: Pose::Top,
            }),
            None => None,
        },
        _ => None,
    }
}
