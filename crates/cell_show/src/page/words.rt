//! The words of the page's data: lists of names, from which the rows choose by their letters.
ghost use Rattle.std.specs.Prelude.{◌≡◌, Err, OnOk};
ghost use Rattle.cell_show.specs.Page.{AppendsSome};

use crate::page::PageError;
use crate::page::rows::comma;
use cell_drawing::write_geometry;
use cell_sentences::{
    axis_name, axis_of_its_machine, light_name, machine_name, pose_name, station_name, way_to_pose,
    zone_name,
};
use cell_types::{
    AXES, BELTS, MACHINES, POSES, STATIONS, ZONES, machine_of_axis, machine_of_station, owner,
    visitor,
};
use std::io::Write;

// Writes a list of names.
fn write_names<W: Write>(
    writer: &mut W,
    list: &str,
    names: &[&'static str],
) -> Result<(), PageError>
    ensures fault { result ≡ Err PageError.TooManyEntries → ⊥ }
    ensures some { OnOk result (AppendsSome (W.contents writer.old) (W.contents writer.new)) }
{
    write!(writer, "\"{list}\":[")?;
    for (place, name) in names.iter().enumerate() {
        write!(writer, "{}\"{name}\"", comma(place))?;
    }
    writeln!(writer, "],")?;
    Ok(())
}

// Writes the lists of names of machines, stations and axes.
fn write_machine_words<W: Write>(writer: &mut W) -> Result<(), PageError>
    ensures fault { result ≡ Err PageError.TooManyEntries → ⊥ }
    ensures some { OnOk result (AppendsSome (W.contents writer.old) (W.contents writer.new)) }
{
    write_names(
        writer,
        "machines",
        &MACHINES.map(|machine| machine_name(machine)),
    )?;
    write_names(
        writer,
        "stations",
        &STATIONS.map(|station| station_name(station)),
    )?;
    write_names(writer, "axes", &AXES.map(|axis| axis_name(axis)))?;
    write_names(writer, "parts", &AXES.map(|axis| axis_of_its_machine(axis)))
}

// Writes the machine of each axis and each station, and between which machines each zone is.
fn write_neighbours<W: Write>(writer: &mut W) -> Result<(), PageError>
    ensures fault { result ≡ Err PageError.TooManyEntries → ⊥ }
    ensures some { OnOk result (AppendsSome (W.contents writer.old) (W.contents writer.new)) }
{
    write_names(
        writer,
        "movers",
        &AXES.map(|axis| machine_name(machine_of_axis(axis))),
    )?;
    write_names(
        writer,
        "places",
        &STATIONS.map(|station| machine_name(machine_of_station(station))),
    )?;
    write_names(
        writer,
        "owners",
        &ZONES.map(|zone| machine_name(owner(zone))),
    )?;
    write_names(
        writer,
        "visitors",
        &ZONES.map(|zone| machine_name(visitor(zone))),
    )
}

// Bytes enough for the places of the drawing, which have fewer than 1,600.
const ROOM: usize = 4096;

// Writes the places of the drawing into a room, and says how many bytes they took, if there was room for them.
fn lay_geometry(room: &mut [u8]) -> Option<usize> {
    let size = room.len();
    let mut rest = room;
    write_geometry(&mut rest).ok()?;
    Some(size.saturating_sub(rest.len()))
}

// Writes where the parts of the drawing stand. No memory is taken for it.
fn write_places<W: Write>(writer: &mut W) -> Result<(), PageError>
    ensures fault { result ≡ Err PageError.TooManyEntries → ⊥ }
    ensures some { OnOk result (AppendsSome (W.contents writer.old) (W.contents writer.new)) }
{
    let mut room = [0u8; ROOM];
    let taken = lay_geometry(&mut room).unwrap_or(0);
    writer.write_all(b"\"geometry\":")?;
    writer.write_all(room.get(..taken).unwrap_or(&[]))?;
    writer.write_all(b",\n")?;
    Ok(())
}

/// Writes the lists of names, and where the parts of the drawing stand.
pub(crate) fn write_words<W: Write>(writer: &mut W) -> Result<(), PageError>
    ensures fault { result ≡ Err PageError.TooManyEntries → ⊥ }
    ensures some { OnOk result (AppendsSome (W.contents writer.old) (W.contents writer.new)) }
{
    write_machine_words(writer)?;
    write_neighbours(writer)?;
    write_places(writer)?;
    write_names(writer, "poses", &POSES.map(|pose| pose_name(pose)))?;
    write_names(writer, "ways", &POSES.map(|pose| way_to_pose(pose)))?;
    write_names(writer, "zones", &ZONES.map(|zone| zone_name(zone)))?;
    write_names(writer, "lights", &BELTS.map(|belt| light_name(belt)))
}
