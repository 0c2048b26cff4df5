//! The rows of CSV in which events are told.
ghost use Rattle.std.specs.Prelude.{◌≡◌, ◌++◌, ◌∷◌, [], IfErr, IsErrOf, OnOk, decimal, get_or, map, true};
ghost use Rattle.std.specs.Io.KnownBytes.{Appends};
ghost use Rattle.cell_types.specs.Entries.{actor_of};
ghost use Rattle.cell_types.specs.Spelling.{Nothing, content_of, fields_of};
ghost use Rattle.cell_types.specs.Texts.{axis_word};
ghost use Rattle.cell_rows.specs.Lines.{line, lines_of};
ghost use Rattle.cell_output.specs.Watched.{IsSameWriter, WritesPart, bytes_held, has_refused};
ghost use Rattle.cell_events.specs.Rows.{actor_text, axis_of, cause_text, header, kind_text, pose_text, row, site_text};
ghost use Rattle.cell_events.specs.Rows.{text_or_blank, word_in, zone_text};

use crate::event::{Event, Site};
use crate::write::EventsError;
use cell_measures::motion_of;
use cell_output::WatchedWriter;
use cell_types::texts::{axis_word, machine_word, pose_word, station_word, zone_word};
use cell_types::{Actor, Axis, Belt, Entry, Field, PlateId, actor_of, axis_of_arm, spell};
use itoa::Buffer;
use std::alloc::{AllocError, Global};
use std::io::Write;

/// The names of the columns.
const HEADER: &[u8] = b"entry,begin,end,actor,kind,axis,pose,zone,plate,station,cause\n";

// The word of a field.
fn word_of(field: Field) -> &'static str
    ensures { result.now ≡ word_in (content_of field) }
{
    match field {
        Field::Word(word) => word,
        Field::Number(_) | Field::Blank => "",
    }
}

fn actor_text(actor: Actor) -> &'static str
    ensures { result.now ≡ actor_text actor }
{
    match actor {
        Actor::Machine(machine) => machine_word(machine),
        Actor::Operator => "operator",
    }
}

fn kind_text(entry: &Entry) -> &'static str
    ensures { result.now ≡ kind_text entry.now }
{
    let [kind, _, _, _] = spell(*entry);
    word_of(kind)
}

// The axis of which an entry tells.
fn axis_of(entry: &Entry) -> Option<Axis>
    ensures { result ≡ axis_of entry.now }
{
    match *entry {
        Entry::Started { axis, .. } => Some(axis),
        Entry::Gripped { arm, .. } | Entry::Dropped { arm, .. } => Some(axis_of_arm(arm)),
        Entry::Lamp {
            belt: Belt::Feed,
            ..
        } => Some(Axis::FeedBelt),
        Entry::Lamp {
            belt: Belt::Deposit,
            ..
        } => Some(Axis::DepositBelt),
        _ => motion_of(*entry).map(|motion| motion.axis),
    }
}

fn axis_text(axis: Option<Axis>) -> &'static str
    ensures { result.now ≡ text_or_blank axis_word axis }
{
    match axis {
        Some(axis) => axis_word(axis),
        None => "",
    }
}

// The colour or the cause that stands in an entry's record.
fn object_word(entry: &Entry) -> &'static str
    ensures { result.now ≡ word_in (get_or (fields_of entry.now) 2 Nothing) }
{
    let [_, _, object, _] = spell(*entry);
    word_of(object)
}

fn pose_text(entry: &Entry) -> &'static str
    ensures { result.now ≡ pose_text entry.now }
{
    match *entry {
        Entry::Started { to, .. } => pose_word(to),
        Entry::Lamp { .. } => object_word(entry),
        _ => match motion_of(*entry) {
            Some(motion) => pose_word(motion.to),
            None => "",
        },
    }
}

fn zone_text(entry: &Entry) -> &'static str
    ensures { result.now ≡ zone_text entry.now }
{
    match *entry {
        Entry::Claimed { zone, .. } | Entry::Yielded { zone, .. } => zone_word(zone),
        _ => "",
    }
}

/// The word of the cause for which an entry declares a machine failed, if it does.
pub(crate) fn cause_text(entry: &Entry) -> &'static str
    ensures { result.now ≡ cause_text entry.now }
{
    match *entry {
        Entry::Declared { .. } => object_word(entry),
        _ => "",
    }
}

fn place_text(place: Option<Site>) -> &'static str
    ensures { result.now ≡ text_or_blank site_text place }
{
    match place {
        Some(Site::Station(station)) => station_word(station),
        Some(Site::Machine(machine)) => machine_word(machine),
        None => "",
    }
}

// Adds a field, and the byte that ends it.
fn push_field(text: &mut Vec<u8>, field: &[u8], end: u8) -> Result<(), AllocError>
    ensures { OnOk result (text.new.items ≡ text.old.items ++ (field.now ++ end ∷ [])) }
{
    text.extend_from_slice(field)?;
    text.push(end)?;
    Ok(())
}

// Adds a word, and a comma.
fn push_word(text: &mut Vec<u8>, word: &str) -> Result<(), AllocError>
    ensures { OnOk result (text.new.items ≡ text.old.items ++ (word.now ++ 44 ∷ [])) }
{
    push_field(text, word.as_bytes(), b',')
}

// Adds a number, and a comma.
fn push_number(text: &mut Vec<u8>, number: u64) -> Result<(), AllocError>
    ensures { OnOk result (text.new.items ≡ text.old.items ++ (decimal number ++ 44 ∷ [])) }
{
    let mut digits = Buffer::new();
    push_word(text, digits.format(number))
}

// Adds the number of a plate, if there is one, and a comma.
fn push_plate(text: &mut Vec<u8>, plate: Option<PlateId>) -> Result<(), AllocError>
    ensures { OnOk result (text.new.items ≡ text.old.items ++ (text_or_blank decimal plate ++ 44 ∷ [])) }
{
    match plate {
        Some(plate) => push_number(text, u64::from(plate.number())),
        None => push_word(text, ""),
    }
}

// Adds the row of an event.
fn push_row(text: &mut Vec<u8>, event: &Event) -> Result<(), AllocError>
    ensures { OnOk result (text.new.items ≡ text.old.items ++ line (row event.now)) }
{
    push_number(text, u64::from(event.number))?;
    push_number(text, event.begin)?;
    push_number(text, event.end)?;
    push_word(text, actor_text(actor_of(event.entry)))?;
    push_word(text, kind_text(&event.entry))?;
    push_word(text, axis_text(axis_of(&event.entry)))?;
    push_word(text, pose_text(&event.entry))?;
    push_word(text, zone_text(&event.entry))?;
    push_plate(text, event.plate)?;
    push_word(text, place_text(event.place))?;
    push_field(text, cause_text(&event.entry).as_bytes(), b'\n')?;
    Ok(())
}

// Writes the row of an event, which is put together in `text`.
fn write_row<W: Write>(
    event: &Event,
    text: &mut Vec<u8>,
    output: &mut WatchedWriter<'_, W>,
) -> Result<(), EventsError>
    ensures writer { IsSameWriter output.old output.new }
    ensures whole { OnOk result (Appends (bytes_held W.contents output.old) (bytes_held W.contents output.new)
        (line (row event.now))) }
    ensures part { IsErrOf result EventsError.WriteFault
        → WritesPart (bytes_held W.contents output.old) (bytes_held W.contents output.new) (line (row event.now)) }
    ensures nothing { IsErrOf result EventsError.OutOfMemory → output.new ≡ output.old }
    ensures fault { IsErrOf result EventsError.WriteFault → has_refused output.new ≡ true }
{
    text.clear();
    push_row(text, event)?;
    output.write_bytes(text.as_slice())?;
    Ok(())
}

/// Writes events in CSV: a line with the names of the columns, and a row for each event.
pub(crate) fn write_rows<W: Write>(
    alloc: Global,
    events: &[Event],
    output: &mut WatchedWriter<'_, W>,
) -> Result<(), EventsError>
    ensures writer { IsSameWriter output.old output.new }
    ensures whole { OnOk result (Appends (bytes_held W.contents output.old) (bytes_held W.contents output.new)
        (lines_of (header ∷ map row events.now))) }
    ensures part { IfErr result (λ _. WritesPart (bytes_held W.contents output.old) (bytes_held W.contents output.new)
        (lines_of (header ∷ map row events.now))) }
    ensures fault { IsErrOf result EventsError.WriteFault → has_refused output.new ≡ true }
{
    let mut text = Vec::new(alloc);
    output.write_bytes(HEADER)?;
    for event in events {
        write_row(event, &mut text, output)?;
    }
    Ok(())
}
