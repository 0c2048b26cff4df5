//! The robot of a drawing.
ghost use Rattle.std.specs.Prelude.{◌≡◌};
ghost use Rattle.cell_types.specs.declared.words.Pose.TheVariants as poses;
ghost use Rattle.cell_drawing.specs.Spots.{EndsOver};

use crate::ink::{Outline, Spot, Way, ink_circle, ink_ghost, ink_line, ink_plate, ink_text, xy};
use crate::machines::{draw_body, draw_name, draw_stop, outline_of};
use crate::spots::{CENTRE, line_spot};
use cell_picture::{Facts, axis_at, plate_at};
use cell_sentences::{pose_name, way_to_pose};
use cell_types::{ARMS, Arm, Axis, AxisState, Machine, Pose, axis_of_arm, station_of_arm};
use std::io;
use std::io::Write;

/// A way in which an arm points, seen from above. Press 1 is up, press 2 down, the table left, the deposit belt right.
#[derive(Clone, Copy)]
enum Bearing {
    Up,
    UpRight,
    Right,
    DownRight,
    Down,
    DownLeft,
    Left,
    UpLeft,
}

// How an arm points where the robot's turn has a pose: an arm points at what it faces, and the second arm stands three
// eighths of a turn before the first, counted as the clock goes.
fn bearing_of(arm: Arm, turn: Pose) -> Bearing {
    match (arm, turn) {
        (Arm::Arm1, Pose::P1Load) => Bearing::Up,
        (Arm::Arm1, Pose::P1Unload) => Bearing::DownRight,
        (Arm::Arm1, Pose::P2Load) => Bearing::Down,
        (Arm::Arm1, Pose::P2Unload) => Bearing::UpLeft,
        (Arm::Arm1, Pose::Deposit2) => Bearing::DownLeft,
        (Arm::Arm1, _) => Bearing::Left,
        (Arm::Arm2, Pose::P1Load) => Bearing::DownLeft,
        (Arm::Arm2, Pose::P1Unload) => Bearing::Up,
        (Arm::Arm2, Pose::P2Load) => Bearing::UpRight,
        (Arm::Arm2, Pose::P2Unload) => Bearing::Down,
        (Arm::Arm2, Pose::Deposit2) => Bearing::Right,
        (Arm::Arm2, _) => Bearing::DownRight,
    }
}

// The end of an arm that is out.
fn out_spot(arm: Arm, turn: Pose) -> Spot
    ensures over { EndsOver arm turn result }
{
    match (arm, turn) {
        (Arm::Arm1, Pose::P1Load) | (Arm::Arm2, Pose::P1Unload) => xy(400, 100),
        (Arm::Arm1, Pose::P2Load) | (Arm::Arm2, Pose::P2Unload) => xy(400, 400),
        (Arm::Arm2, Pose::Deposit2) => xy(550, 250),
        (Arm::Arm1, Pose::P1Unload) => xy(506, 356),
        (Arm::Arm1, Pose::P2Unload) => xy(294, 144),
        (Arm::Arm1, Pose::Deposit2) | (Arm::Arm2, Pose::P1Load) => xy(294, 356),
        (Arm::Arm2, Pose::P2Load) => xy(506, 144),
        (Arm::Arm1, _) => xy(250, 250),
        (Arm::Arm2, _) => xy(506, 356),
    }
}

// The spot at a distance from the robot's centre, straight or along both axes.
fn spot_at(bearing: Bearing, straight: u32, slanted: u32) -> Spot {
    let Spot { x, y } = CENTRE;
    match bearing {
        Bearing::Up => xy(x, y.saturating_sub(straight)),
        Bearing::UpRight => xy(x.saturating_add(slanted), y.saturating_sub(slanted)),
        Bearing::Right => xy(x.saturating_add(straight), y),
        Bearing::DownRight => xy(x.saturating_add(slanted), y.saturating_add(slanted)),
        Bearing::Down => xy(x, y.saturating_add(straight)),
        Bearing::DownLeft => xy(x.saturating_sub(slanted), y.saturating_add(slanted)),
        Bearing::Left => xy(x.saturating_sub(straight), y),
        Bearing::UpLeft => xy(x.saturating_sub(slanted), y.saturating_sub(slanted)),
    }
}

/// The end of an arm where the robot's turn and the arm have these poses: where it is out, on the place of the plate of
/// the station that it faces.
pub fn tip(arm: Arm, turn: Pose, pose: Pose) -> Spot
    ensures over { pose ≡ poses.Out → EndsOver arm turn result }
{
    match pose {
        Pose::Out => out_spot(arm, turn),
        _ => spot_at(bearing_of(arm, turn), 58, 41),
    }
}

/// Where an arm's number stands where the robot's turn has a pose.
pub fn number_spot(arm: Arm, turn: Pose) -> Spot {
    spot_at(bearing_of(arm, turn), 28, 20)
}

/// Draws an arm to its end.
pub fn draw_rod<W: Write>(out: &mut W, end: Spot) -> io::Result<()> {
    ink_line(out, CENTRE, end, 10)?;
    ink_circle(out, end, 8, "#ffffff", Outline { failed: false })
}

/// Draws an arm's number.
pub fn draw_number<W: Write>(out: &mut W, at: Spot, arm: Arm) -> io::Result<()> {
    let number = match arm {
        Arm::Arm1 => 1,
        Arm::Arm2 => 2,
    };
    ink_circle(out, at, 8, "#ffffff", Outline { failed: false })?;
    writeln!(
        out,
        "<text x=\"{}\" y=\"{}\" font-size=\"12\" text-anchor=\"middle\">{number}</text>",
        at.x,
        at.y.saturating_add(4)
    )
}

// The pose to which an axis goes, or else that which it has.
fn aim_of(state: AxisState) -> Pose {
    state.going.unwrap_or(state.at)
}

// A broken line to where an arm will end, if it or the robot's turn has set out.
fn draw_aim<W: Write>(out: &mut W, facts: &Facts, arm: Arm) -> io::Result<()> {
    let turn = axis_at(facts, Axis::RobotTurn);
    let reach = axis_at(facts, axis_of_arm(arm));
    if turn.going.is_none() && reach.going.is_none() {
        return Ok(());
    }
    ink_ghost(out, CENTRE, tip(arm, aim_of(turn), aim_of(reach)))
}

fn draw_arm<W: Write>(out: &mut W, facts: &Facts, arm: Arm) -> io::Result<()> {
    let turn = axis_at(facts, Axis::RobotTurn).at;
    let end = tip(arm, turn, axis_at(facts, axis_of_arm(arm)).at);
    draw_rod(out, end)?;
    draw_number(out, number_spot(arm, turn), arm)?;
    match plate_at(facts, station_of_arm(arm)) {
        Some(shown) => ink_plate(out, end, shown),
        None => Ok(()),
    }
}

// The poses of the robot's axes in words.
fn draw_poses<W: Write>(out: &mut W, facts: &Facts) -> io::Result<()> {
    let first = Way(axis_at(facts, Axis::ArmOne));
    ink_text(
        out,
        line_spot(Machine::Robot, 1),
        format_args!("arm 1 {first}"),
    )?;
    let second = Way(axis_at(facts, Axis::ArmTwo));
    ink_text(
        out,
        line_spot(Machine::Robot, 2),
        format_args!("arm 2 {second}"),
    )?;
    let turn = axis_at(facts, Axis::RobotTurn);
    let at = pose_name(turn.at);
    ink_text(out, line_spot(Machine::Robot, 3), format_args!("turn {at}"))?;
    match turn.going {
        Some(to) => ink_text(
            out,
            line_spot(Machine::Robot, 4),
            format_args!("\u{2192} {}", way_to_pose(to)),
        ),
        None => Ok(()),
    }
}

/// Draws the robot, its arms and their plates.
pub fn draw_robot<W: Write>(out: &mut W, facts: &Facts) -> io::Result<()> {
    for arm in ARMS {
        draw_aim(out, facts, arm)?;
    }
    draw_arm(out, facts, Arm::Arm1)?;
    draw_arm(out, facts, Arm::Arm2)?;
    draw_body(out, Machine::Robot, outline_of(facts, Machine::Robot))?;
    draw_name(out, facts, Machine::Robot)?;
    draw_poses(out, facts)?;
    draw_stop(out, facts, Machine::Robot, 5)
}
