//! One axis as it is.
ghost use Rattle.std.specs.Prelude.{◌≡◌, None};
ghost use Rattle.cell_sim.specs.Simulated.{at_home};
ghost use Rattle.cell_sim.specs.Moves.{going_by, moves};
ghost use Rattle.cell_sim.specs.Readings.{switches_by};

use crate::motion::{Moving, Path, Phase};
use crate::switches::switch_bit;
use cell_types::{Axis, AxisState, Pose, home};

/// An axis as it is: which pose it has, which motion it is in and how many commands have begun one. A belt has the pose
/// `Rest` always: where it has carried a plate is told by the plate's station.
#[derive(Clone, Copy, Debug)]
pub(crate) struct AxisInWorld {
    pub pose: Pose,
    pub motion: Option<Moving>,
    /// How many commands to move it came, those that failed included. At `u32::MAX` the count stays.
    pub commands: u32,
}

impl AxisInWorld {
    /// An axis at home that hasn't moved yet.
    pub(crate) fn new(axis: Axis) -> AxisInWorld
        ensures { result ≡ at_home axis }
    {
        AxisInWorld {
            pose: home(axis),
            motion: None,
            commands: 0,
        }
    }

    /// The pose that it has or has left, and where it is going.
    pub(crate) fn state(self, axis: Axis) -> AxisState
        ensures at { result.at ≡ self.pose }
        ensures going { result.going ≡ going_by axis self.motion }
    {
        AxisState {
            at: self.pose,
            going: self.going(axis),
        }
    }

    fn going(self, axis: Axis) -> Option<Pose>
        ensures { result ≡ going_by axis self.motion }
    {
        match self.motion {
            Some(motion) if !motion.is_over() => motion.goal(axis),
            _ => None,
        }
    }

    /// Whether a motion of it is under way.
    #[inline(always)]
    pub(crate) fn is_moving(self) -> bool
        ensures { result ≡ moves self.motion }
    {
        match self.motion {
            Some(motion) => !motion.stopped && motion.phase != Phase::Arrived,
            None => false,
        }
    }

    /// The switches that it shows.
    pub(crate) fn switches(self, axis: Axis) -> u8
        ensures { result ≡ switches_by axis self self.motion }
    {
        let Some(motion) = self.motion else {
            return self.switch_at_rest(axis);
        };
        match motion.path {
            Path::Poses { from, to } => motion.shown_switches(axis, from, to),
            Path::Stations { .. } => 0,
        }
    }

    fn switch_at_rest(self, axis: Axis) -> u8
        ensures { result ≡ switches_by axis self None }
    {
        match axis {
            Axis::FeedBelt | Axis::DepositBelt => 0,
            _ => switch_bit(self.pose),
        }
    }
}
