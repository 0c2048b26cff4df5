//! The motion of one axis, and how it goes on from reading to reading.
ghost use Rattle.std.specs.Prelude.{◌≡◌};
ghost use Rattle.cell_sim.specs.Moves.{after_leaving, begun, between_at, carried_from, goal_of, hides_by};
ghost use Rattle.cell_sim.specs.Moves.{is_over, left_at, next_phase, shown_bits, shows_by_fault};

use crate::fault::Fault;
use crate::switches::{all_switches, switch_bit};
use cell_types::{Axis, Pose, Station, motion_to};

/// Where a motion leads.
#[derive(Clone, Copy, Debug, PartialEq, Eq)]
pub(crate) enum Path {
    /// An axis with switches goes from one of its poses to another.
    Poses {
        from: Pose,
        to: Pose,
    },
    /// A belt carries the plate that lay at a station, if one did, to another.
    Stations {
        from: Station,
        to: Station,
        plate: Option<u32>,
    },
}

/// How far a motion is. Each reading that is given takes it to the next phase, unless it was stopped.
#[derive(Clone, Copy, Debug, PartialEq, Eq)]
pub(crate) enum Phase {
    /// No reading was given yet.
    Begun,
    /// The first reading was given. It shows where the motion begins.
    Seen,
    /// The second reading was given, which shows nothing, and so many further empty ones come before the end.
    Between(u32),
    /// The end was reached. All readings show it.
    Arrived,
}

/// A motion of an axis, which goes on until another begins, the axis is put at home or, for a belt, it is turned off.
#[derive(Clone, Copy, Debug, PartialEq, Eq)]
pub(crate) struct Moving {
    pub path: Path,
    pub fault: Option<Fault>,
    pub phase: Phase,
    /// How many readings are still missing before the motion is read at all, also after a stop.
    pub missing: u32,
    /// How many readings show nothing between its two ends, beside the first that does and those of a fault.
    pub further: u32,
    /// Whether all motors of the machine were stopped since. The motion then stays in its phase, and shows what it
    /// showed.
    pub stopped: bool,
}

impl Moving {
    /// A motion that begins. Its duration is how many readings show nothing between its two ends, one at least.
    pub(crate) fn begin(path: Path, fault: Option<Fault>, duration: u16) -> Moving
        ensures { result ≡ begun path fault duration }
    {
        let missing = match fault {
            Some(Fault::Silent(readings)) => readings,
            _ => 0,
        };
        Moving {
            path,
            fault,
            phase: Phase::Begun,
            missing,
            further: u32::from(duration.saturating_sub(1)),
            stopped: false,
        }
    }

    /// The phase after one more reading is given.
    pub(crate) fn next_phase(self) -> Phase
        ensures { result ≡ next_phase self }
    {
        if self.stopped {
            return self.phase;
        }
        match self.phase {
            Phase::Begun => Phase::Seen,
            Phase::Seen => self.phase_after_leaving(),
            Phase::Between(0) | Phase::Arrived => Phase::Arrived,
            Phase::Between(readings) => Phase::Between(readings - 1),
        }
    }

    fn phase_after_leaving(self) -> Phase
        ensures { result ≡ after_leaving self.fault self.further }
    {
        match self.fault {
            Some(Fault::NoMotion) => Phase::Seen,
            Some(Fault::Slow(readings)) => Phase::Between(self.further.saturating_add(readings)),
            _ => Phase::Between(self.further),
        }
    }

    /// Whether the axis has left where the motion began, so that a fault of its switches or sensors shows. Such a fault
    /// changes what is shown alone: the axis moves.
    pub(crate) fn has_left(self) -> bool
        ensures { result ≡ left_at self.phase }
    {
        matches!(self.phase, Phase::Between(_) | Phase::Arrived)
    }

    /// Whether the axis is at rest: it has arrived, or was stopped before it left.
    pub(crate) fn is_over(self) -> bool
        ensures { result ≡ is_over self }
    {
        self.phase == Phase::Arrived || (self.stopped && !self.has_left())
    }

    /// Where the motion leads: a pose, or of a belt the name of its motion.
    pub(crate) fn goal(self, axis: Axis) -> Option<Pose>
        ensures { result ≡ goal_of axis self }
    {
        match self.path {
            Path::Poses { from: _, to } => Some(to),
            Path::Stations { to, .. } => motion_to(axis, to).map(|motion| motion.to),
        }
    }

    /// The switches that an axis shows in this motion from one of its poses to another.
    pub(crate) fn shown_switches(self, axis: Axis, from: Pose, to: Pose) -> u8
        ensures { result ≡ shown_bits self axis from to }
    {
        let moved = match self.phase {
            Phase::Begun | Phase::Seen => switch_bit(from),
            Phase::Between(_) => 0,
            Phase::Arrived => switch_bit(to),
        };
        match self.fault {
            Some(Fault::KeepsOld) => moved | switch_bit(from),
            Some(Fault::Both) if self.has_left() => all_switches(axis),
            _ => moved,
        }
    }

    /// Whether a fault of this motion shows a plate at a station, be one there or not: at where a plate was carried
    /// from, or at both ends.
    pub(crate) fn shows_by_fault(self, station: Station) -> bool
        ensures { result ≡ shows_by_fault self.fault (left_at self.phase) self.path station }
    {
        let Path::Stations { from, to, plate } = self.path else {
            return false;
        };
        match self.fault {
            Some(Fault::KeepsOld) => self.has_left() && plate.is_some() && station == from,
            Some(Fault::Both) => self.has_left() && (station == from || station == to),
            _ => false,
        }
    }

    /// Whether this plate at a station isn't shown, since it is carried and on its way.
    pub(crate) fn hides(self, station: Station, shown: Option<u32>) -> bool
        ensures { result ≡ hides_by self.path (between_at self.phase) station shown }
    {
        let Path::Stations { from, to: _, plate } = self.path else {
            return false;
        };
        matches!(self.phase, Phase::Between(_)) && station == from && shown == plate
    }

    /// The plate that this motion carries from a station, if it does.
    pub(crate) fn plate_from(self, station: Station) -> Option<u32>
        ensures { result ≡ carried_from self.path station }
    {
        match self.path {
            Path::Stations { from, to: _, plate } if from == station => plate,
            _ => None,
        }
    }
}
