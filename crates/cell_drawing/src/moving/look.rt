//! How a part of a drawing looks at a moment, in CSS.
use crate::ink::Spot;
use crate::robot::tip;
use crate::spots::{bed_half, plate_spot};
use cell_types::{Arm, Axis, Pose, Station, motion_named};
use std::fmt;

/// How a part looks at a moment, beside how it was drawn.
#[derive(Clone, Copy)]
pub enum Look {
    /// Moved as far as the second spot is from the first.
    Moved(Spot, Spot),
    /// So many hundredths as large.
    Sized(u32),
    /// Turned by so many degrees, as the clock goes.
    Turned(i64),
    /// Its rows are moved up by so many units.
    Raised(u32),
    /// Shown, or not.
    Shown(bool),
}

impl fmt::Display for Look {
    fn fmt<W: fmt::Write>(&self, f: &mut fmt::Formatter<W>) -> fmt::Result {
        match *self {
            Look::Moved(from, to) => {
                let x = i64::from(to.x).saturating_sub(i64::from(from.x));
                let y = i64::from(to.y).saturating_sub(i64::from(from.y));
                write!(f, "transform:translate({x}px,{y}px)")
            }
            Look::Sized(size) => {
                let (whole, rest) = (size / 100, size % 100);
                write!(f, "transform:scale({whole}.{rest:02})")
            }
            Look::Turned(degrees) => write!(f, "transform:rotate({degrees}deg)"),
            Look::Raised(units) => write!(f, "transform:translateY(-{units}px)"),
            Look::Shown(true) => write!(f, "opacity:1"),
            Look::Shown(false) => write!(f, "opacity:0"),
        }
    }
}

// How what a belt carries looks at the end of a motion, and at rest.
fn carried(belt: Axis, to: Pose) -> Look {
    match motion_named(belt, to) {
        Some(motion) => Look::Moved(plate_spot(motion.from), plate_spot(motion.dest)),
        None => Look::Moved(plate_spot(Station::FeedIn), plate_spot(Station::FeedIn)),
    }
}

// How an arm looks at a pose.
fn reaching(arm: Arm, pose: Pose) -> Look {
    Look::Moved(
        tip(arm, Pose::Table1, Pose::In),
        tip(arm, Pose::Table1, pose),
    )
}

/// How what an axis moves looks at a pose, or at the end of a belt's motion. Of the robot's turn it says nothing.
pub fn look_of(axis: Axis, pose: Pose) -> Look {
    match (axis, pose) {
        (Axis::FeedBelt | Axis::DepositBelt, _) => carried(axis, pose),
        (Axis::ArmOne, _) => reaching(Arm::Arm1, pose),
        (Axis::ArmTwo, _) => reaching(Arm::Arm2, pose),
        (Axis::TableTurn, Pose::Robot) => Look::Turned(180),
        (Axis::TableTurn | Axis::RobotTurn, _) => Look::Turned(0),
        _ => Look::Sized(bed_half(pose).saturating_mul(100) / bed_half(Pose::Middle).max(1)),
    }
}

// By how many eighths of a turn the robot is turned at a pose, as the clock goes, from where it is at the opening.
fn eighths_of(pose: Pose) -> i64 {
    match pose {
        Pose::P2Unload => 1,
        Pose::P1Load => 2,
        Pose::P1Unload => 5,
        Pose::P2Load => 6,
        Pose::Deposit2 => 7,
        _ => 0,
    }
}

/// By how many degrees the robot turns from one pose to another, the shorter way.
pub fn turn_between(from: Pose, to: Pose) -> i64 {
    let further = eighths_of(to).saturating_sub(eighths_of(from));
    let eighths = if further > 4 {
        further.saturating_sub(8)
    } else if further < -4 {
        further.saturating_add(8)
    } else {
        further
    };
    eighths.saturating_mul(45)
}
