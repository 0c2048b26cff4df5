//! A motion of an axis.
use crate::Limits;
use cell_types::{Axis, Pose};

/// A motion as an axis watch follows it: from one pose of the axis to another of its poses or motions, within limits.
/// A pose that isn't the axis's own is read by its place among the poses of the axis that has it.
#[derive(Clone, Copy, Debug, PartialEq, Eq)]
pub struct Motion {
    /// The axis that moves.
    pub axis: Axis,
    /// The pose that it leaves.
    pub from: Pose,
    /// The pose that it has to reach; of a belt, the motion `ToEnd` or `ToTable`.
    pub to: Pose,
    /// How many readings it may take.
    pub limits: Limits,
}
