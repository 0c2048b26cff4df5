//! What an entry begins and ends in the lanes of a chart.
use crate::chart::bar::{What, draw_bar};
use crate::chart::lanes::{Lane, Lanes};
use crate::chart::scale::Scale;
use cell_types::{
    Entry, Machine, PlateId, Station, ZONES, axes_of, motion_to, press_axis, station_of_arm,
};
use std::io;
use std::io::Write;

/// A chart that is drawn: its axis of time, and what goes on in its lanes.
#[derive(Clone, Copy, Debug)]
pub(crate) struct Drawing {
    pub(crate) scale: Scale,
    pub(crate) lanes: Lanes,
}

// Draws what ends in a lane at a time, if something does.
pub(crate) fn end<W: Write>(
    out: &mut W,
    drawing: &mut Drawing,
    lane: Lane,
    time: u64,
) -> io::Result<()> {
    match drawing.lanes.take(lane) {
        Some(open) => draw_bar(out, drawing.scale, lane, open, time),
        None => Ok(()),
    }
}

// What went on in a lane ends, and this begins.
fn change<W: Write>(
    out: &mut W,
    drawing: &mut Drawing,
    lane: Lane,
    what: What,
    time: u64,
) -> io::Result<()> {
    end(out, drawing, lane, time)?;
    drawing.lanes.begin(lane, what, time);
    Ok(())
}

// The motions of a machine are cut off.
fn end_axes<W: Write>(
    out: &mut W,
    drawing: &mut Drawing,
    machine: Machine,
    time: u64,
) -> io::Result<()> {
    for axis in axes_of(machine) {
        end(out, drawing, Lane::Axis(*axis), time)?;
    }
    Ok(())
}

// The zones that a machine holds are free.
fn end_zones<W: Write>(
    out: &mut W,
    drawing: &mut Drawing,
    machine: Machine,
    time: u64,
) -> io::Result<()> {
    for zone in ZONES {
        if drawing.lanes.holder(zone) == Some(machine) {
            end(out, drawing, Lane::Zone(zone), time)?;
        }
    }
    Ok(())
}

// A plate is at another station.
fn move_plate<W: Write>(
    out: &mut W,
    drawing: &mut Drawing,
    plate: PlateId,
    stations: (Station, Station),
    time: u64,
) -> io::Result<()> {
    let (from, to) = stations;
    end(out, drawing, Lane::Station(from), time)?;
    change(out, drawing, Lane::Station(to), What::Plate(plate), time)
}

// What an entry says of motions.
fn follow_motions<W: Write>(
    out: &mut W,
    drawing: &mut Drawing,
    entry: &Entry,
    time: u64,
) -> io::Result<()> {
    match *entry {
        Entry::Started { axis, to } => {
            change(out, drawing, Lane::Axis(axis), What::Motion(to), time)
        }
        Entry::Arrived { axis, .. } | Entry::Conveyed { axis, .. } => {
            end(out, drawing, Lane::Axis(axis), time)
        }
        Entry::Forged { press, .. } => match press_axis(press) {
            Some(axis) => end(out, drawing, Lane::Axis(axis), time),
            None => Ok(()),
        },
        Entry::Declared { machine, .. } => end_axes(out, drawing, machine, time),
        _ => Ok(()),
    }
}

// What an entry says of zones.
fn follow_zones<W: Write>(
    out: &mut W,
    drawing: &mut Drawing,
    entry: &Entry,
    time: u64,
) -> io::Result<()> {
    match *entry {
        Entry::Claimed { machine, zone } => {
            change(out, drawing, Lane::Zone(zone), What::Holder(machine), time)
        }
        Entry::Yielded { zone, .. } => end(out, drawing, Lane::Zone(zone), time),
        Entry::Repaired { machine } => end_zones(out, drawing, machine, time),
        _ => Ok(()),
    }
}

// What an entry says of where plates are.
fn follow_plates<W: Write>(
    out: &mut W,
    drawing: &mut Drawing,
    entry: &Entry,
    time: u64,
) -> io::Result<()> {
    match *entry {
        Entry::Admitted { plate } | Entry::Reinstated { plate } => {
            let lane = Lane::Station(Station::FeedIn);
            change(out, drawing, lane, What::Plate(plate), time)
        }
        Entry::Conveyed { axis, plate, dest } => match motion_to(axis, dest) {
            Some(motion) => move_plate(out, drawing, plate, (motion.from, dest), time),
            None => Ok(()),
        },
        Entry::Gripped { arm, plate, src } => {
            move_plate(out, drawing, plate, (src, station_of_arm(arm)), time)
        }
        Entry::Dropped { arm, plate, dest } => {
            move_plate(out, drawing, plate, (station_of_arm(arm), dest), time)
        }
        Entry::Delivered { .. } => end(out, drawing, Lane::Station(Station::DepEnd), time),
        Entry::Quarantined { src, .. } => end(out, drawing, Lane::Station(src), time),
        _ => Ok(()),
    }
}

// What an entry says of failures.
fn follow_failures<W: Write>(
    out: &mut W,
    drawing: &mut Drawing,
    entry: &Entry,
    time: u64,
) -> io::Result<()> {
    match *entry {
        Entry::Declared { machine, cause } => {
            let lane = Lane::Failure(machine);
            change(out, drawing, lane, What::Failed(cause), time)
        }
        Entry::Repaired { machine } => end(out, drawing, Lane::Failure(machine), time),
        _ => Ok(()),
    }
}

/// Draws what an entry ends, at the time at which it ends itself, and notes what it begins.
pub(crate) fn follow<W: Write>(
    out: &mut W,
    drawing: &mut Drawing,
    entry: &Entry,
    time: u64,
) -> io::Result<()> {
    follow_motions(out, drawing, entry, time)?;
    follow_zones(out, drawing, entry, time)?;
    follow_plates(out, drawing, entry, time)?;
    follow_failures(out, drawing, entry, time)
}
