//! For which entries before it an entry of a journal waits.
ghost use Rattle.std.specs.Prelude.{◌≡◌};
ghost use Rattle.cell_measures.specs.Waits.{frees, machine_of, plate_of, served, wants};

use cell_types::{
    Actor, Entry, Machine, PlateId, Zone, actor_of, machine_of_station, owner, visitor,
};

// The machine for which the operator books an entry.
fn served(entry: Entry) -> Machine
    ensures { result ≡ served entry }
{
    match entry {
        Entry::StopAsked { machine } | Entry::Repaired { machine } => machine,
        Entry::Quarantined { src, .. } => machine_of_station(src),
        _ => Machine::Feed,
    }
}

/// The machine of an entry: the one that books it, or the one for which the operator does. A plate is laid back at the
/// feed belt, so that is the machine of `Expected`.
pub fn machine_of(entry: Entry) -> Machine
    ensures { result ≡ machine_of entry }
{
    let booked = entry;
    match actor_of(entry) {
        Actor::Machine(machine) => machine,
        Actor::Operator => served(booked),
    }
}

/// The plate that an entry names.
pub fn plate_of(entry: Entry) -> Option<PlateId>
    ensures { result ≡ plate_of entry }
{
    match entry {
        Entry::Admitted { plate }
        | Entry::Conveyed { plate, .. }
        | Entry::Forged { plate, .. }
        | Entry::Gripped { plate, .. }
        | Entry::Dropped { plate, .. }
        | Entry::Delivered { plate }
        | Entry::Quarantined { plate, .. }
        | Entry::Expected { plate }
        | Entry::Reinstated { plate } => Some(plate),
        Entry::Lamp { .. }
        | Entry::Claimed { .. }
        | Entry::Yielded { .. }
        | Entry::Started { .. }
        | Entry::Arrived { .. }
        | Entry::Declared { .. }
        | Entry::StopAsked { .. }
        | Entry::Repaired { .. } => None,
    }
}

/// Whether an entry sets a zone free.
pub(crate) fn frees(zone: Zone, entry: Entry) -> bool
    ensures { result ≡ frees zone entry }
{
    match entry {
        Entry::Yielded { zone: yielded, .. } => yielded == zone,
        Entry::Repaired { machine } => owner(zone) == machine || visitor(zone) == machine,
        _ => false,
    }
}

/// Whether an entry waits until a zone is free.
pub(crate) fn wants(zone: Zone, entry: Entry) -> bool
    ensures { result ≡ wants zone entry }
{
    match entry {
        Entry::Claimed { zone: claimed, .. } => claimed == zone,
        Entry::Quarantined { src, .. } => owner(zone) == machine_of_station(src),
        Entry::Repaired { machine } => owner(zone) == machine,
        _ => false,
    }
}
