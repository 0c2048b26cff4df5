//! How long motions take.
ghost use Rattle.std.specs.Prelude.{◌≡◌, ◌&&◌, ◌<◌, if◌then◌else◌, slice_index};
ghost use Rattle.cell_types.specs.declared.words.Pose.{Pose};
ghost use Rattle.cell_types.specs.Same.{pose_number, same_axis, same_pose};
ghost use Rattle.cell_measures.specs.declared.motion.Move.{Move};
ghost use Rattle.cell_measures.specs.Times.{duration};

use crate::motion::Move;
use cell_types::{Axis, Pose, axis_number};

/// How long each motion takes, in whole units of time.
#[derive(Clone, Copy, Debug, PartialEq, Eq)]
pub struct Durations {
    // By axis, and of each by pose.
    rows: [[u16; 18]; 9],
}

// A pose's number.
fn pose_number(pose: Pose) -> usize
    ensures value { result ≡ pose_number pose }
    ensures below { result < 18 }
{
    pose as usize
}

// An axis's times, with that of the motion to a pose set.
fn with_time(mut row: [u16; 18], to: Pose, time: u16) -> [u16; 18]
    ensures { (p : Pose) → slice_index result (pose_number p)
        ≡ (if same_pose to p then time else slice_index row (pose_number p)) }
{
    row[pose_number(to)] = time;
    row
}

impl Durations {
    /// Each motion takes one unit.
    pub const ONE: Durations = Durations { rows: [[1; 18]; 9] };

    /// How long a motion takes.
    pub fn of(&self, motion: Move) -> u16
        ensures { result ≡ duration self.now motion }
    {
        self.rows[axis_number(motion.axis)][pose_number(motion.to)]
    }

    /// Sets how long each motion of an axis takes.
    pub fn set_axis(&mut self, axis: Axis, time: u16)
        ensures { (m : Move) → duration self.new m ≡ (if same_axis axis m.axis then time else duration self.old m) }
    {
        self.rows[axis_number(axis)] = [time; 18];
    }

    /// Sets how long a motion takes.
    pub fn set(&mut self, axis: Axis, to: Pose, time: u16)
        ensures { (m : Move) → duration self.new m
            ≡ (if same_axis axis m.axis && same_pose to m.to then time else duration self.old m) }
    {
        let place = axis_number(axis);
        self.rows[place] = with_time(self.rows[place], to, time);
    }
}
