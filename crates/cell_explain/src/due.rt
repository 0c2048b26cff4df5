//! What is so where an entry is refused, and what the entry needs.
use crate::telling::{Since, station_of};
use cell_journal::Snapshot;
use cell_sentences::{PlateName, arm_name, pose_name, station_name, way_to_pose};
use cell_types::{
    Arm, Axis, AxisState, Entry, Machine, PlateId, Pose, Station, faced, is_pose_of, motion_to,
};
use plate_book::Refusal;
use std::fmt;

/// What an entry needs of an axis.
#[derive(Clone, Copy)]
pub(crate) enum Need {
    /// It has to stand still.
    Still,
    /// It has to be at rest at a pose.
    Pose(Pose),
    /// It has to be going to a pose.
    Going(Pose),
    /// The arm has to face a station.
    Facing(Station),
    /// The arm has to face any of its stations.
    FacingAny(Arm),
    /// It has to be at another pose than the one to which it is to go.
    Elsewhere,
    /// That isn't told.
    Untold,
}

impl fmt::Display for Need {
    ghost use Rattle.std.specs.Prelude.{Some};
    ghost use Rattle.cell_explain.specs.Sayings.{need_text};

    ghost output = { λ need. Some (need_text need) };

    fn fmt<W: fmt::Write>(&self, f: &mut fmt::Formatter<W>) -> fmt::Result {
        match *self {
            Need::Still => write!(f, ", and it has to stand still"),
            Need::Pose(pose) => write!(f, ", and its pose has to be {}", pose_name(pose)),
            Need::Going(pose) => write!(f, ", and it has to be going {}", way_to_pose(pose)),
            Need::Facing(station) => write!(f, ", and it has to face {}", station_name(station)),
            Need::FacingAny(arm) => write!(f, ", and it has to face a place of {}", arm_name(arm)),
            Need::Elsewhere => write!(f, " already"),
            Need::Untold => Ok(()),
        }
    }
}

/// What is so where an entry is refused, beside the refusal.
#[derive(Clone, Copy)]
pub(crate) enum Due {
    /// Nothing more is told.
    Nothing,
    /// The next plate that is admitted has this number.
    NextPlate(u32),
    /// This plate, or none, is at the station of the entry.
    PlateThere(Option<PlateId>),
    /// This plate, or none, is expected.
    PlateExpected(Option<PlateId>),
    /// The axis has no such motion.
    NoMotion,
    /// Where the axis is, and what the entry needs of it.
    Axis(AxisState, Need),
}

// Where an axis is, or goes.
#[derive(Clone, Copy)]
struct Whereabouts(AxisState);

impl fmt::Display for Whereabouts {
    ghost use Rattle.std.specs.Prelude.{Some};
    ghost use Rattle.cell_explain.specs.Sayings.{whereabouts_text};

    ghost output = { λ shown. Some (whereabouts_text shown.0) };

    fn fmt<W: fmt::Write>(&self, f: &mut fmt::Formatter<W>) -> fmt::Result {
        match self.0.going {
            Some(pose) => write!(f, "it goes {}", way_to_pose(pose)),
            None => write!(f, "its pose is {}", pose_name(self.0.at)),
        }
    }
}

impl fmt::Display for Due {
    ghost use Rattle.std.specs.Prelude.{Some};
    ghost use Rattle.cell_explain.specs.Sayings.{due_text};

    ghost output = { λ due. Some (due_text due) };

    fn fmt<W: fmt::Write>(&self, f: &mut fmt::Formatter<W>) -> fmt::Result {
        match *self {
            Due::Nothing => Ok(()),
            Due::NextPlate(number) => write!(f, "; the next plate is {number}"),
            Due::PlateThere(Some(plate)) => write!(f, "; {} is there", PlateName(plate)),
            Due::PlateThere(None) => write!(f, "; no plate is there"),
            Due::PlateExpected(Some(plate)) => write!(f, "; {} is expected", PlateName(plate)),
            Due::PlateExpected(None) => write!(f, "; no plate is expected"),
            Due::NoMotion => write!(f, "; it has no such motion"),
            Due::Axis(state, need) => write!(f, "; {}{}", Whereabouts(state), need),
        }
    }
}

/// Since when it is so that an entry is refused, and what is so beside.
#[derive(Clone, Copy)]
pub(crate) struct Circumstances {
    pub(crate) since: Since,
    pub(crate) due: Due,
}

impl fmt::Display for Circumstances {
    ghost use Rattle.std.specs.Prelude.{Some};
    ghost use Rattle.cell_explain.specs.Sayings.{circumstances_text};

    ghost output = { λ made. Some (circumstances_text made) };

    fn fmt<W: fmt::Write>(&self, f: &mut fmt::Formatter<W>) -> fmt::Result {
        write!(f, "{}{}", self.since, self.due)
    }
}

// What an axis needs of itself to go to a pose; `None` where it never goes there.
fn need_of_its_own(axis: Axis, to: Pose, is_going: bool) -> Option<Need> {
    match (axis, to) {
        (Axis::FeedBelt, Pose::ToEnd | Pose::ToTable) | (Axis::DepositBelt, Pose::ToEnd) => {
            Some(Need::Still)
        }
        (Axis::ArmOne | Axis::ArmTwo, Pose::Out) => Some(Need::Pose(Pose::In)),
        (Axis::ArmOne | Axis::ArmTwo, Pose::In) => Some(Need::Pose(Pose::Out)),
        (Axis::PressOne | Axis::PressTwo, Pose::Top) => Some(Need::Pose(Pose::Middle)),
        (Axis::PressOne | Axis::PressTwo, Pose::Bottom) => Some(Need::Pose(Pose::Top)),
        (Axis::PressOne | Axis::PressTwo, Pose::Middle) => Some(Need::Pose(Pose::Bottom)),
        (Axis::TableLift | Axis::TableTurn | Axis::RobotTurn, _) if is_pose_of(axis, to) => {
            Some(if is_going {
                Need::Still
            } else {
                Need::Elsewhere
            })
        }
        _ => None,
    }
}

// What an arm that goes out needs of another axis, where the robot's turn has a pose.
fn need_of_faced(arm: Arm, other: Axis, turn: Pose) -> Need {
    let Some(facing) = faced(arm, turn) else {
        return Need::FacingAny(arm);
    };
    let rests = facing.before.iter().chain(facing.after);
    for (axis, pose) in rests {
        if *axis == other {
            return Need::Pose(*pose);
        }
    }
    Need::FacingAny(arm)
}

// What a motion of an axis needs of another axis.
fn need_of_other(axis: Axis, other: Axis, turn: Pose) -> Need {
    match (axis, other) {
        (Axis::FeedBelt, Axis::TableLift) => Need::Pose(Pose::Low),
        (Axis::FeedBelt, Axis::TableTurn) => Need::Pose(Pose::Belt),
        (Axis::TableLift | Axis::TableTurn, _) => Need::Still,
        (Axis::RobotTurn, _) => Need::Pose(Pose::In),
        (Axis::ArmOne, _) => need_of_faced(Arm::Arm1, other, turn),
        (Axis::ArmTwo, _) => need_of_faced(Arm::Arm2, other, turn),
        _ => Need::Untold,
    }
}

// What a grip or a drop at a station needs of an axis.
fn need_of_handing(axis: Axis, station: Station) -> Need {
    match axis {
        Axis::RobotTurn => Need::Facing(station),
        _ => Need::Pose(Pose::Out),
    }
}

// What an entry that is refused for an axis needs of it; `None` where the axis has no such motion.
fn need_of(entry: Entry, axis: Axis, state: &Snapshot) -> Option<Need> {
    match entry {
        Entry::Started { axis: own, to } if own == axis => {
            need_of_its_own(axis, to, state.pose(axis).going.is_some())
        }
        Entry::Started { axis: own, .. } => {
            Some(need_of_other(own, axis, state.pose(Axis::RobotTurn).at))
        }
        Entry::Arrived { at, .. } if state.pose(axis).going == Some(at) => None,
        Entry::Arrived { at, .. } => Some(Need::Going(at)),
        Entry::Conveyed { dest, .. } => Some(Need::Going(motion_to(axis, dest)?.to)),
        Entry::Forged { .. } => Some(Need::Going(Pose::Top)),
        Entry::Gripped { src, .. } => Some(need_of_handing(axis, src)),
        Entry::Dropped { dest, .. } => Some(need_of_handing(axis, dest)),
        Entry::Yielded {
            machine: Machine::Robot,
            ..
        } => Some(Need::Pose(Pose::In)),
        Entry::Lamp { .. } | Entry::Yielded { .. } => Some(Need::Still),
        _ => Some(Need::Untold),
    }
}

// What is so where an entry names the wrong plate.
fn due_plate(entry: Entry, state: &Snapshot) -> Due {
    match entry {
        Entry::Admitted { .. } => Due::NextPlate(state.totals.admitted.saturating_add(1)),
        Entry::Reinstated { .. } => Due::PlateExpected(state.expected()),
        _ => match station_of(entry) {
            Some(station) => Due::PlateThere(state.plate_at(station)),
            None => Due::Nothing,
        },
    }
}

/// What is so where an entry is refused after entries that leave this, and what it needs.
pub(crate) fn due_of(why: Refusal, entry: Entry, state: &Snapshot) -> Due {
    match why {
        Refusal::WrongPose(axis) => match need_of(entry, axis, state) {
            Some(need) => Due::Axis(state.pose(axis), need),
            None => Due::NoMotion,
        },
        Refusal::WrongPlate => due_plate(entry, state),
        _ => Due::Nothing,
    }
}
