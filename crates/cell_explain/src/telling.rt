//! Which entry made it so that another is refused.
ghost use Rattle.std.specs.Prelude.{◌≡◌, false, length, true};
ghost use Rattle.cell_types.specs.After.{after};
ghost use Rattle.cell_journal.specs.Snapshots.{seen, state_of};
ghost use Rattle.cell_types.specs.Entries.{actor_of};
ghost use Rattle.cell_explain.specs.Facts.{IsLastOf, IsSince, IsSinceNamed, NamesPlate, fact_of, full_length};
ghost use Rattle.cell_explain.specs.Facts.{not_held, plate_in, station_of, wrong_plate};
ghost use Rattle.cell_types.specs.Parts.{parts_of};

use crate::facts::{Fact, admitted, since_when};
use cell_journal::{Journal, Snapshot};
use cell_sentences::EntryDeed;
use cell_types::{
    Actor, Colour, Entry, MAX_ENTRIES, Object, PlateId, Station, Zone, actor_of, motion_to,
    parts_of, press_of, station_of_arm,
};
use plate_book::Refusal;
use std::fmt;

/// Since when a fact holds.
#[derive(Clone, Copy)]
pub(crate) enum Since {
    Opening,
    /// Since the entry of this number, counted from 1.
    Entry(u32, Entry),
    /// No entry made it so.
    Always,
}

impl fmt::Display for Since {
    ghost use Rattle.std.specs.Prelude.{Some};
    ghost use Rattle.cell_explain.specs.Sayings.{since_text};

    ghost output = { λ since. Some (since_text since) };

    fn fmt<W: fmt::Write>(&self, f: &mut fmt::Formatter<W>) -> fmt::Result {
        match *self {
            Since::Opening => write!(f, ", from the start on"),
            Since::Entry(number, entry) => write!(f, ", since entry {number} {}", EntryDeed(entry)),
            Since::Always => Ok(()),
        }
    }
}

/// What all entries of a journal leave, of which 255 at most are replayed.
pub(crate) fn left_by(journal: &Journal) -> Snapshot
    ensures { state_of result ≡ seen (after journal.now.entries) }
{
    let (left, _) = journal.state_at(journal.len());
    left
}

// The last entry that names a plate.
fn last_of(journal: &Journal, plate: PlateId) -> Since
    ensures { IsLastOf journal.now.entries (length journal.now.entries) plate result }
{
    let mut since = Since::Always;
    for place in 0..journal.len() {
        let entry = journal.at(place);
        let booked = entry;
        if names(entry, plate) {
            since = Since::Entry(place + 1, booked);
        }
    }
    since
}

// Whether an entry names a plate.
fn names(entry: Entry, plate: PlateId) -> bool
    ensures yes { result ≡ true → NamesPlate plate entry }
    ensures no { result ≡ false → NamesPlate plate entry → ⊥ }
{
    plate_of(entry) == Some(plate)
}

// The plate that an entry names.
fn plate_of(entry: Entry) -> Option<PlateId>
    ensures { result ≡ plate_in (parts_of entry).object }
{
    let object = parts_of(entry).object;
    match object {
        Object::Plate(plate) => Some(plate),
        _ => None,
    }
}

/// The station at which an entry wants its plate to be.
pub(crate) fn station_of(entry: Entry) -> Option<Station>
    ensures { result ≡ station_of entry }
{
    match entry {
        Entry::Conveyed { axis, dest, .. } => Some(motion_to(axis, dest)?.from),
        Entry::Forged { press, .. } => Some(press_of(press)?.station),
        Entry::Gripped { src, .. } | Entry::Quarantined { src, .. } => Some(src),
        Entry::Dropped { arm, .. } => Some(station_of_arm(arm)),
        Entry::Delivered { .. } => Some(Station::DepEnd),
        _ => None,
    }
}

// For which fact an entry is refused that names the wrong plate.
fn wrong_plate(entry: Entry, state: &Snapshot) -> Option<Fact>
    ensures { result ≡ wrong_plate entry (state_of state.now) }
{
    match entry {
        Entry::Admitted { .. } => Some(Fact::Admitted(admitted(state))),
        Entry::Reinstated { .. } => Some(Fact::Expected(state.expected())),
        _ => {
            let station = station_of(entry)?;
            Some(Fact::Plate(station, state.plate_at(station)))
        }
    }
}

// For which fact an entry is refused that its machine doesn't hold a zone.
fn not_held(entry: Entry, zone: Zone) -> Option<Fact>
    ensures { result ≡ not_held zone (actor_of entry) }
{
    match actor_of(entry) {
        Actor::Machine(machine) => Some(Fact::NotHeldBy(zone, machine)),
        Actor::Operator => None,
    }
}

// How many entries a journal has that is full for an entry.
fn full_length(entry: Entry) -> u32
    ensures { result ≡ full_length entry }
{
    match entry {
        Entry::Declared { .. } => MAX_ENTRIES + 6,
        _ => MAX_ENTRIES,
    }
}

// For which fact an entry is refused after entries that leave this; `None` where it is for none of these facts.
fn fact_of(why: Refusal, entry: Entry, state: &Snapshot) -> Option<Fact>
    ensures { result ≡ fact_of why entry (state_of state.now) }
{
    match why {
        Refusal::JournalFull => Some(Fact::Entries(full_length(entry))),
        Refusal::PlateLimit => Some(Fact::Admitted(admitted(state))),
        Refusal::MachineFailed(machine) | Refusal::OwnerFailed(machine) => {
            Some(Fact::Failed(machine, true))
        }
        Refusal::MachineHealthy(machine) => Some(Fact::Failed(machine, false)),
        Refusal::WrongPose(axis) => Some(Fact::Stands(axis, state.pose(axis))),
        Refusal::ZoneTaken(zone) => Some(Fact::Held(zone, state.holder(zone))),
        Refusal::NotHolder(zone) => not_held(entry, zone),
        Refusal::StationEmpty(station)
        | Refusal::StationFull(station)
        | Refusal::PlateStillThere(station) => Some(Fact::Plate(station, state.plate_at(station))),
        Refusal::WrongPlate => wrong_plate(entry, state),
        Refusal::LampRed(belt) => Some(Fact::Light(belt, Colour::Red)),
        Refusal::LampAlready(belt) => Some(Fact::Light(belt, state.lamp(belt))),
        Refusal::AlreadyAsked(machine) => Some(Fact::Asked(machine)),
        Refusal::PlateExpected => Some(Fact::Expected(state.expected())),
        Refusal::NotNeighbour | Refusal::NoPress | Refusal::NotReturnable | Refusal::OutOfMemory =>
            { None }
    }
}

// Since when it is so that no fact tells of.
fn since_named(journal: &Journal, entry: Entry, why: Refusal) -> Since
    ensures { IsSinceNamed journal.now.entries entry why result }
{
    match (why, entry) {
        (Refusal::WrongPlate | Refusal::NotReturnable, Entry::Expected { plate }) => {
            last_of(journal, plate)
        }
        _ => Since::Always,
    }
}

/// Since when it is so that an entry is refused after those of a journal, which leave this. It is told in a pass over
/// the journal.
pub(crate) fn told(journal: &Journal, entry: Entry, why: Refusal, left: &Snapshot) -> Since
    requires { state_of left.now ≡ seen (after journal.now.entries) }
    ensures { IsSince journal.now.entries entry why result }
{
    let refused = entry;
    match fact_of(why, entry, left) {
        Some(fact) => since_when(journal, &fact),
        None => since_named(journal, refused, why),
    }
}
