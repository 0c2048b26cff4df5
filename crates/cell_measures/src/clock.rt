//! When what an entry waits for ended last.
ghost use Rattle.std.specs.Prelude.{◌≡◌, ◌==◌, ◌+◌, ◌<◌, ◌≤◌, ◌^◌, [], ◌∷◌, ℕ, Bool, List, OnOk, if◌then◌else◌, length};
ghost use Rattle.std.specs.Prelude.{map, max, slice_index};
ghost use Rattle.cell_types.specs.declared.words.Axis.{Axis};
ghost use Rattle.cell_types.specs.declared.words.Entry.{Entry};
ghost use Rattle.cell_types.specs.Same.{axis_number};
ghost use Rattle.cell_types.specs.Texts.{all_zone};
ghost use Rattle.cell_measures.specs.Waits.{is_number, starts};
ghost use Rattle.cell_measures.specs.Times.{Ended, begins, ends, latest};
ghost use Rattle.cell_measures.specs.Clocks.{Keeps, freed_time, greatest, plate_time, zone_time};

use crate::durations::Durations;
use crate::motion::motion_of;
use crate::waits::{frees, machine_of, plate_of, wants};
use cell_types::{Entry, PlateId, ZONES, Zone, axis_number, machine_number, zone_number};
use std::alloc::{AllocError, Global};

/// When entries of each machine, of each plate, that set each zone free, and that start each axis ended last; 0 where
/// none did.
#[derive(Debug, Drop)]
pub(crate) struct Clock {
    machines: [u64; 6],
    zones: [u64; 5],
    axes: [u64; 9],
    // By the plate's number.
    plates: Vec<u64>,
}

// The later of two times.
fn later(one: u64, other: u64) -> u64
    ensures { result ≡ max one other }
{
    if one < other { other } else { one }
}

// Raises the time at a place.
fn raise(times: &mut [u64], place: usize, time: u64)
    requires { place < length times.old }
    ensures { (i : ℕ) → slice_index times.new i
        ≡ (if place == i then max time (slice_index times.old i) else slice_index times.old i) }
{
    times[place] = later(time, times[place]);
}

// The time at a place; 0 behind the end.
fn time_at(times: &[u64], place: usize) -> u64
    ensures { result ≡ slice_index times.now place }
{
    match times.get(place) {
        Some(time) => *time,
        None => 0,
    }
}

// Makes room for a place. The times stay, with 0 where none was.
fn make_room(times: &mut Vec<u64>, place: usize) -> Result<(), AllocError>
    requires { place < 2 ^ 32 }
    ensures room { OnOk result (place < length times.new.items) }
    ensures same { OnOk result ((k : ℕ) → slice_index times.new.items k ≡ slice_index times.old.items k) }
{
    if times.len() <= place {
        times.resize(place + 1, 0)?;
    }
    Ok(())
}

impl Clock {
    /// A clock before the first entry.
    pub(crate) fn new(alloc: Global) -> Clock
        ensures { Keeps result [] }
    {
        Clock {
            machines: [0; 6],
            zones: [0; 5],
            axes: [0; 9],
            plates: Vec::new(alloc),
        }
    }

    // When the last entry ended that names a plate; 0 for none.
    fn plate_end(&self, plate: Option<PlateId>) -> u64
        ensures { result ≡ plate_time self.now.plates.items plate }
    {
        match plate {
            Some(plate) => time_at(self.plates.as_slice(), plate.number() as usize),
            None => 0,
        }
    }

    // When a zone became free for which an entry waits; 0 where it doesn't.
    fn zone_end(&self, zone: Zone, entry: &Entry) -> u64
        ensures { result ≡ zone_time self.now.zones entry.now zone }
    {
        if wants(zone, *entry) {
            self.zones[zone_number(zone)]
        } else {
            0
        }
    }

    // When the last zone became free for which an entry waits; 0 where it waits for none.
    fn zones_end(&self, entry: &Entry) -> u64
        ensures { result ≡ greatest (zone_time self.now.zones entry.now) all_zone }
    {
        let mut end = 0;
        for zone in ZONES {
            end = later(end, self.zone_end(zone, entry));
        }
        end
    }

    // When all entries have ended for which one waits.
    fn begins(&self, entry: &Entry) -> u64
        ensures { (past : List Ended) → Keeps self.now past → result ≡ begins past entry.now }
    {
        let machine = self.machines[machine_number(machine_of(*entry))];
        let plate = self.plate_end(plate_of(*entry));
        let zones = self.zones_end(entry);
        later(machine, later(plate, zones))
    }

    /// When an entry ends.
    pub(crate) fn ends(&self, entry: &Entry, durations: &Durations) -> u64
        requires { (a : Axis) → slice_index self.now.axes (axis_number a) < 2 ^ 63 }
        ensures due { (past : List Ended) → Keeps self.now past → result ≡ ends durations.now past entry.now }
        ensures early { (past : List Ended) (n : ℕ) → Keeps self.now past → ((p : Entry → Bool) → latest p past ≤ n)
            → result ≤ n + 65535 }
    {
        let begun = self.begins(entry);
        match motion_of(*entry) {
            Some(motion) => {
                let start = self.axes[axis_number(motion.axis)];
                let lasts = u64::from(durations.of(motion));
                later(begun, start + lasts)
            }
            None => begun,
        }
    }

    // When a zone became free, where an entry has ended.
    fn freed(&self, zone: Zone, entry: &Entry, end: u64) -> u64
        ensures { result ≡ freed_time self.now.zones entry.now end zone }
    {
        let before = self.zones[zone_number(zone)];
        if frees(zone, *entry) {
            later(end, before)
        } else {
            before
        }
    }

    // Notes the end of an entry for each zone that it sets free.
    fn note_zones(&mut self, entry: &Entry, end: u64)
        ensures { self.new ≡ record self.old { zones = map (freed_time self.old.zones entry.now end) all_zone } }
    {
        self.zones = [
            self.freed(Zone::Z1, entry, end),
            self.freed(Zone::Z2, entry, end),
            self.freed(Zone::Z3, entry, end),
            self.freed(Zone::Z4, entry, end),
            self.freed(Zone::Z5, entry, end),
        ];
    }

    // Notes the end of an entry for the plate that it names.
    fn note_plate(&mut self, plate: Option<PlateId>, end: u64) -> Result<(), AllocError>
        ensures machines { self.new.machines ≡ self.old.machines }
        ensures zones { self.new.zones ≡ self.old.zones }
        ensures axes { self.new.axes ≡ self.old.axes }
        ensures plates { OnOk result ((k : ℕ) → slice_index self.new.plates.items k
            ≡ (if is_number k plate then max end (slice_index self.old.plates.items k) else slice_index
            self.old.plates.items k)) }
    {
        if let Some(plate) = plate {
            let number = plate.number() as usize;
            make_room(&mut self.plates, number)?;
            raise(self.plates.as_mut_slice(), number, end);
        }
        Ok(())
    }

    // Notes the end of an entry for the axis that it starts.
    fn note_axis(&mut self, entry: &Entry, end: u64)
        ensures machines { self.new.machines ≡ self.old.machines }
        ensures zones { self.new.zones ≡ self.old.zones }
        ensures plates { self.new.plates ≡ self.old.plates }
        ensures axes { (a : Axis) → slice_index self.new.axes (axis_number a)
            ≡ (if starts a entry.now then max end (slice_index self.old.axes (axis_number a)) else slice_index
            self.old.axes (axis_number a)) }
    {
        if let Entry::Started { axis, .. } = entry {
            raise(&mut self.axes, axis_number(*axis), end);
        }
    }

    /// Notes the end of an entry.
    pub(crate) fn note(&mut self, entry: &Entry, end: u64) -> Result<(), AllocError>
        ensures { OnOk result ((past : List Ended) → Keeps self.old past
            → Keeps self.new (record { entry = entry.now; at = end } ∷ past)) }
    {
        raise(&mut self.machines, machine_number(machine_of(*entry)), end);
        self.note_plate(plate_of(*entry), end)?;
        self.note_zones(entry, end);
        self.note_axis(entry, end);
        Ok(())
    }
}
