//! The places of a drawing as data, by which the page draws the cell as the pictures do.
use crate::ink::{Rectangle, Spot};
use crate::robot::{number_spot, tip};
use crate::spots::{
    CENTRE, bed_half, body_of, height_spot, holder_spot, light_spot, name_spot, plate_spot,
    zone_area, zone_spot,
};
use cell_types::{ARMS, Arm, Axis, BELTS, MACHINES, Pose, STATIONS, ZONES, poses_of};
use std::io::Write;
use std::{fmt, io};

impl fmt::Display for Spot {
    fn fmt<W: fmt::Write>(&self, f: &mut fmt::Formatter<W>) -> fmt::Result {
        write!(f, "[{},{}]", self.x, self.y)
    }
}

impl fmt::Display for Rectangle {
    fn fmt<W: fmt::Write>(&self, f: &mut fmt::Formatter<W>) -> fmt::Result {
        let Spot { x, y } = self.corner;
        write!(f, "[{x},{y},{},{}]", self.width, self.height)
    }
}

// Writes a list of places.
fn write_spots<W: Write>(out: &mut W, name: &str, spots: &[Spot]) -> io::Result<()> {
    write!(out, ",\"{name}\":[")?;
    for (place, spot) in spots.iter().enumerate() {
        let comma = if place == 0 { "" } else { "," };
        write!(out, "{comma}{spot}")?;
    }
    write!(out, "]")
}

// Writes a list of rectangles.
fn write_areas<W: Write>(out: &mut W, name: &str, areas: &[Rectangle]) -> io::Result<()> {
    write!(out, ",\"{name}\":[")?;
    for (place, area) in areas.iter().enumerate() {
        let comma = if place == 0 { "" } else { "," };
        write!(out, "{comma}{area}")?;
    }
    write!(out, "]")
}

// Writes the ends of both arms where they are in and where they are out, and their numbers' places, by the poses of the
// robot's turn.
fn write_arms<W: Write>(out: &mut W) -> io::Result<()> {
    write!(out, ",\"arms\":[")?;
    for (place, turn) in poses_of(Axis::RobotTurn).iter().enumerate() {
        let comma = if place == 0 { "" } else { "," };
        write!(out, "{comma}[")?;
        for arm in ARMS {
            let near = tip(arm, *turn, Pose::In);
            let far = tip(arm, *turn, Pose::Out);
            let number = number_spot(arm, *turn);
            let comma = match arm {
                Arm::Arm1 => "",
                Arm::Arm2 => ",",
            };
            write!(out, "{comma}[{near},{far},{number}]")?;
        }
        write!(out, "]")?;
    }
    write!(out, "]")
}

// Writes the heights of the table and of the presses by their poses, and half of how large their beds are.
fn write_heights<W: Write>(out: &mut W) -> io::Result<()> {
    for (name, axis) in [
        ("lift", Axis::TableLift),
        ("press1", Axis::PressOne),
        ("press2", Axis::PressTwo),
    ] {
        write!(out, ",\"{name}\":[")?;
        for (place, pose) in poses_of(axis).iter().enumerate() {
            let comma = if place == 0 { "" } else { "," };
            let half = bed_half(*pose);
            write!(out, "{comma}[{},{half}]", height_spot(axis, *pose))?;
        }
        write!(out, "]")?;
    }
    Ok(())
}

/// Writes where the parts of a drawing stand, as a value in the syntax of JSON: the robot's centre, by station the
/// plates, by machine the shapes and names, by zone the areas, names and holders, by belt the lights, and for the poses
/// of axes the ends of the arms and the heights.
///
/// A writer that fails is told; a first part was written then.
pub fn write_geometry<W: Write>(out: &mut W) -> io::Result<()> {
    write!(out, "{{\"centre\":{}", CENTRE)?;
    write_spots(
        out,
        "stations",
        &STATIONS.map(|station| plate_spot(station)),
    )?;
    write_areas(out, "bodies", &MACHINES.map(|machine| body_of(machine)))?;
    write_spots(out, "names", &MACHINES.map(|machine| name_spot(machine)))?;
    write_areas(out, "zones", &ZONES.map(|zone| zone_area(zone)))?;
    write_spots(out, "marks", &ZONES.map(|zone| zone_spot(zone)))?;
    write_spots(out, "holders", &ZONES.map(|zone| holder_spot(zone)))?;
    write_spots(out, "lights", &BELTS.map(|belt| light_spot(belt)))?;
    write_arms(out)?;
    write_heights(out)?;
    write!(out, "}}")
}
