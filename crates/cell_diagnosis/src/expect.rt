//! What a machine at rest has to show.
use cell_types::Pose;

/// What a reading of a machine at rest is compared with. Bits of `must` and `may` are those of a reading's `presence`.
#[derive(Clone, Copy, Debug, PartialEq, Eq)]
pub struct Expect {
    /// The pose that each axis of the machine, in their order, has to show alone; at None the axis isn't looked at. A
    /// belt has no switches, so its entry is never looked at, nor are those of axes that the machine lacks.
    pub poses: [Option<Pose>; 3],
    /// The presence bits that have to be set. Those of the machine's bits that stand neither here nor in `may` have to
    /// be clear.
    pub must: u8,
    /// The presence bits that aren't looked at, also where they stand in `must`.
    pub may: u8,
}
