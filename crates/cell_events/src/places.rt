//! Which plate an entry tells of, and where it is.
ghost use Rattle.std.specs.Prelude.{◌≡◌};
ghost use Rattle.cell_journal.specs.Snapshots.{state_of};
ghost use Rattle.cell_events.specs.Places.{about, found, lying, moved_at, named, only, place_told, plate_told};

use crate::event::Site;
use cell_journal::Snapshot;
use cell_measures::plate_of;
use cell_types::{Axis, Entry, PlateId, Pose, Station, machine_of_axis, press_of, stations_of};

/// A plate, and the station where it lies.
#[derive(Clone, Copy, Debug)]
pub(crate) struct Lying {
    pub plate: PlateId,
    pub station: Station,
}

// Where the plate lies that a motion moves.
fn moved_at(axis: Axis, to: Pose) -> &'static [Station]
    ensures { result.now ≡ moved_at axis to }
{
    match (axis, to) {
        (Axis::FeedBelt, Pose::ToEnd) => &[Station::FeedIn],
        (Axis::FeedBelt, Pose::ToTable) => &[Station::FeedEnd],
        (Axis::DepositBelt, Pose::ToEnd) => &[Station::DepIn],
        (Axis::FeedBelt | Axis::DepositBelt, _) => &[],
        (Axis::ArmOne, _) => &[Station::Arm1],
        (Axis::ArmTwo, _) => &[Station::Arm2],
        _ => stations_of(machine_of_axis(axis)),
    }
}

// The stations that an entry is about which names no plate.
fn about(entry: &Entry) -> &'static [Station]
    ensures { result.now ≡ about entry.now }
{
    match *entry {
        Entry::Started { axis, to } => moved_at(axis, to),
        Entry::Arrived { axis, at } => moved_at(axis, at),
        Entry::Claimed { machine, .. }
        | Entry::Yielded { machine, .. }
        | Entry::Declared { machine, .. }
        | Entry::StopAsked { machine }
        | Entry::Repaired { machine } => stations_of(machine),
        _ => &[],
    }
}

// The one plate at some stations; `None` where there are several or none.
fn only_at(snapshot: &Snapshot, stations: &[Station]) -> Option<Lying>
    ensures { result ≡ only (lying (state_of snapshot.now).plate stations.now) }
{
    let mut found = None;
    for station in stations {
        if let Some(plate) = snapshot.plate_at(*station) {
            if found.is_some() {
                return None;
            }
            found = Some(Lying {
                plate,
                station: *station,
            });
        }
    }
    found
}

// The one plate at the stations that an entry is about.
fn found_at(snapshot: &Snapshot, entry: &Entry) -> Option<Lying>
    ensures { result ≡ found (state_of snapshot.now).plate entry.now }
{
    only_at(snapshot, about(entry))
}

/// The plate of which an entry tells.
pub(crate) fn plate_told(snapshot: &Snapshot, entry: &Entry) -> Option<PlateId>
    ensures { result ≡ plate_told (state_of snapshot.now).plate entry.now }
{
    match plate_of(*entry) {
        Some(plate) => Some(plate),
        None => found_at(snapshot, entry).map(|lying| lying.plate),
    }
}

// The station or the machine that an entry names, or the station that it means.
fn named(entry: &Entry) -> Option<Site>
    ensures { result ≡ named entry.now }
{
    match *entry {
        Entry::Admitted { .. } | Entry::Reinstated { .. } => Some(Site::Station(Station::FeedIn)),
        Entry::Conveyed { dest, .. } | Entry::Dropped { dest, .. } => Some(Site::Station(dest)),
        Entry::Forged { press, .. } => press_of(press).map(|press| Site::Station(press.station)),
        Entry::Gripped { src, .. } | Entry::Quarantined { src, .. } => Some(Site::Station(src)),
        Entry::Delivered { .. } => Some(Site::Station(Station::DepEnd)),
        Entry::StopAsked { machine } | Entry::Repaired { machine } => Some(Site::Machine(machine)),
        _ => None,
    }
}

/// Where that is of which an entry tells.
pub(crate) fn place_told(snapshot: &Snapshot, entry: &Entry) -> Option<Site>
    ensures { result ≡ place_told (state_of snapshot.now).plate entry.now }
{
    match named(entry) {
        Some(site) => Some(site),
        None => found_at(snapshot, entry).map(|lying| Site::Station(lying.station)),
    }
}
