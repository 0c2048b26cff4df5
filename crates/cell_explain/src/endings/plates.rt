//! The plates that stand in the cell, and what they wait for.
ghost use Rattle.std.specs.Prelude.{◌≡◌, OnOk};
ghost use Rattle.std.specs.Io.KnownBytes.{Appends};
ghost use Rattle.cell_types.specs.Same.{same_pose};
ghost use Rattle.cell_rules.specs.Views.{going_of, pose_of};
ghost use Rattle.cell_explain.specs.Plates.{belt_entry, next_entry, plate_line, plates_of, press_entry_at};
ghost use Rattle.cell_explain.specs.Plates.{press_for_arm, told_at};

use cell_sentences::{EntrySentence, RefusalSentence, station_name};
use cell_types::{Arm, Axis, Entry, Machine, PlateId, Pose, STATIONS, Station, machine_of_axis};
use plate_book::Book;
use std::io::{Result, Write};

fn is_same_pose(some: Pose, other: Pose) -> bool
    ensures { result ≡ same_pose some other }
{
    some == other
}

// The entry by which a plate on a belt goes on: the belt brings it to the end of its motion, or sets out.
fn belt_entry(book: &Book, axis: Axis, plate: PlateId, to: Pose, dest: Station) -> Entry
    ensures { result ≡ belt_entry axis plate to dest (going_of book.now.entries axis) }
{
    match book.pose(axis).going {
        Some(going) => {
            if is_same_pose(going, to) {
                Entry::Conveyed { axis, plate, dest }
            } else {
                Entry::Started { axis, to }
            }
        }
        None => Entry::Started { axis, to },
    }
}

// The entry by which the plate in a press goes on: the press sets out for its top, forges the plate there, and goes to
// its bottom, where the plate is gripped.
fn press_entry(book: &Book, axis: Axis, plate: PlateId, station: Station) -> Entry
    ensures { result ≡ press_entry_at axis plate station (pose_of book.now.entries axis) }
{
    let state = book.pose(axis);
    match (state.going, state.at) {
        (Some(Pose::Top), _) => Entry::Forged {
            press: machine_of_axis(axis),
            plate,
        },
        (Some(at), _) => Entry::Arrived { axis, at },
        (None, Pose::Middle) => Entry::Started {
            axis,
            to: Pose::Top,
        },
        (None, Pose::Top) => Entry::Started {
            axis,
            to: Pose::Bottom,
        },
        (None, _) => Entry::Gripped {
            arm: Arm::Arm2,
            plate,
            src: station,
        },
    }
}

// The press at which arm 1 would drop its plate.
fn press_for_arm(book: &Book) -> Station
    ensures { result ≡ press_for_arm book.now.entries }
{
    if book.failed(Machine::Press1) || book.plate_at(Station::Press1).is_some() {
        Station::Press2
    } else {
        Station::Press1
    }
}

// The entry by which the plate at a station goes on.
fn next_entry(book: &Book, station: Station, plate: PlateId) -> Entry
    ensures { result ≡ next_entry book.now.entries station plate }
{
    match station {
        Station::FeedIn => belt_entry(book, Axis::FeedBelt, plate, Pose::ToEnd, Station::FeedEnd),
        Station::FeedEnd => belt_entry(book, Axis::FeedBelt, plate, Pose::ToTable, Station::Table),
        Station::Table => Entry::Gripped {
            arm: Arm::Arm1,
            plate,
            src: Station::Table,
        },
        Station::Arm1 => Entry::Dropped {
            arm: Arm::Arm1,
            plate,
            dest: press_for_arm(book),
        },
        Station::Arm2 => Entry::Dropped {
            arm: Arm::Arm2,
            plate,
            dest: Station::DepIn,
        },
        Station::Press1 => press_entry(book, Axis::PressOne, plate, Station::Press1),
        Station::Press2 => press_entry(book, Axis::PressTwo, plate, Station::Press2),
        Station::DepIn => belt_entry(book, Axis::DepositBelt, plate, Pose::ToEnd, Station::DepEnd),
        Station::DepEnd => Entry::Delivered { plate },
    }
}

// Writes a plate that stands at a station, and what it waits for.
fn write_plate<W: Write>(
    writer: &mut W,
    book: &Book,
    station: Station,
    plate: PlateId,
) -> Result<()>
    ensures { OnOk result (Appends (W.contents writer.old) (W.contents writer.new)
        (plate_line book.now.limits book.now.entries station plate)) }
{
    let entry = next_entry(book, station, plate);
    let shown = entry;
    let sentence = EntrySentence(shown);
    let number = plate.number();
    let at = station_name(station);
    match book.allows(entry) {
        Ok(()) => writeln!(
            writer,
            "plate {number} is at {at}; next is \"{sentence}\", which nothing refuses"
        ),
        Err(why) => writeln!(
            writer,
            "plate {number} is at {at}; next is \"{sentence}\", but {}",
            RefusalSentence(why)
        ),
    }
}

// Writes the plate of a station, where it has one.
fn write_station<W: Write>(writer: &mut W, book: &Book, station: Station) -> Result<()>
    ensures { OnOk result (Appends (W.contents writer.old) (W.contents writer.new)
        (told_at book.now.limits book.now.entries station)) }
{
    match book.plate_at(station) {
        Some(plate) => write_plate(writer, book, station, plate),
        None => Ok(()),
    }
}

/// Writes the plates that stand in the cell, each with the entry by which it would go on and what refuses that.
pub(crate) fn write_plates<W: Write>(writer: &mut W, book: &Book) -> Result<()>
    ensures { OnOk result (Appends (W.contents writer.old) (W.contents writer.new)
        (plates_of book.now.limits book.now.entries)) }
{
    for station in STATIONS {
        write_station(writer, book, station)?;
    }
    Ok(())
}
