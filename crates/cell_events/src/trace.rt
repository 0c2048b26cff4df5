//! Events as a trace in Chrome's format: slices of time of axes, zones and plates, and marks of failures and repairs.
use crate::event::Event;
use crate::rows::cause_text;
use crate::teller::Teller;
use crate::texts::{push_digits, push_words};
use crate::walk::Walk;
use cell_journal::Snapshot;
use cell_types::texts::{axis_word, machine_word, pose_word, station_word, zone_word};
use cell_types::{AXES, Entry, Machine, PlateId, STATIONS, ZONES, axes_of, axis_number};
use std::alloc::AllocError;

/// How many microseconds, in which the format counts, a unit of time has.
const SCALE: u64 = 1000;

/// What the slices are of, each in its process.
#[derive(Clone, Copy)]
enum Process {
    Machines,
    Zones,
    Plates,
}

impl Process {
    fn number(self) -> u64 {
        match self {
            Process::Machines => 1,
            Process::Zones => 2,
            Process::Plates => 3,
        }
    }
}

/// A line of the trace: of an axis, a zone or a plate.
#[derive(Clone, Copy)]
struct Line {
    process: Process,
    thread: u64,
}

/// The entry and the time at which something began.
#[derive(Clone, Copy)]
struct Since {
    entry: u32,
    time: u64,
}

const FIRST: Since = Since { entry: 0, time: 0 };

// The line of the axis, zone or station with a number, from 0.
fn line_of(process: Process, number: usize) -> Line {
    Line {
        process,
        thread: (number as u64).saturating_add(1),
    }
}

// The line of a plate.
fn line_of_plate(plate: PlateId) -> Line {
    Line {
        process: Process::Plates,
        thread: u64::from(plate.number()),
    }
}

// Adds the members that say on which line something stands.
fn push_line(text: &mut Vec<u8>, line: Line) -> Result<(), AllocError> {
    push_words(text, &["\",\"pid\":"])?;
    push_digits(text, line.process.number())?;
    push_words(text, &[",\"tid\":"])?;
    push_digits(text, line.thread)
}

// Adds the member that says when something is.
fn push_time(text: &mut Vec<u8>, time: u64) -> Result<(), AllocError> {
    push_words(text, &[",\"ts\":"])?;
    push_digits(text, time.saturating_mul(SCALE))
}

// Adds the members that say with which entry something begins, and closes its object.
fn push_entry(text: &mut Vec<u8>, entry: u32) -> Result<(), AllocError> {
    push_words(text, &[",\"args\":{\"entry\":"])?;
    push_digits(text, u64::from(entry))?;
    push_words(text, &["}}"])
}

// Adds a slice of a line.
fn push_slice(
    text: &mut Vec<u8>,
    line: Line,
    name: &str,
    since: Since,
    end: u64,
) -> Result<(), AllocError> {
    push_words(text, &[",\n{\"name\":\"", name, "\",\"ph\":\"X"])?;
    push_line(text, line)?;
    push_time(text, since.time)?;
    push_words(text, &[",\"dur\":"])?;
    let lasts = end.saturating_sub(since.time);
    push_digits(text, lasts.saturating_mul(SCALE))?;
    push_entry(text, since.entry)
}

// Adds the name of a process.
fn push_process(text: &mut Vec<u8>, process: Process, name: &str) -> Result<(), AllocError> {
    push_words(text, &["{\"name\":\"process_name\",\"ph\":\"M"])?;
    push_line(text, Line { process, thread: 0 })?;
    push_words(text, &[",\"args\":{\"name\":\"", name, "\"}}"])
}

// Adds the name of a line, up to where a number may follow it.
fn push_name(text: &mut Vec<u8>, line: Line, name: &str) -> Result<(), AllocError> {
    push_words(text, &[",\n{\"name\":\"thread_name\",\"ph\":\"M"])?;
    push_line(text, line)?;
    push_words(text, &[",\"args\":{\"name\":\"", name])
}

// Adds the name of the line of a plate that is laid in.
fn push_plate(text: &mut Vec<u8>, entry: &Entry) -> Result<(), AllocError> {
    if let Entry::Admitted { plate } = *entry {
        push_name(text, line_of_plate(plate), "plate ")?;
        push_digits(text, u64::from(plate.number()))?;
        push_words(text, &["\"}}"])?;
    }
    Ok(())
}

// Adds a mark of a machine.
fn push_mark(
    text: &mut Vec<u8>,
    kind: &'static str,
    machine: Machine,
    event: &Event,
) -> Result<(), AllocError> {
    push_words(text, &[",\n{\"name\":\"", kind, " ", machine_word(machine)])?;
    if let Entry::Declared { .. } = event.entry {
        push_words(text, &[" ", cause_text(&event.entry)])?;
    }
    push_words(text, &["\",\"ph\":\"i\",\"s\":\"p"])?;
    let place = match axes_of(machine).first() {
        Some(axis) => axis_number(*axis),
        None => 0,
    };
    push_line(text, line_of(Process::Machines, place))?;
    push_time(text, event.end)?;
    push_entry(text, event.number)
}

// Adds the mark of a failure or a repair.
fn push_mishap(text: &mut Vec<u8>, event: &Event) -> Result<(), AllocError> {
    match event.entry {
        Entry::Declared { machine, .. } => push_mark(text, "declared", machine, event),
        Entry::Repaired { machine } => push_mark(text, "repaired", machine, event),
        _ => Ok(()),
    }
}

/// A trace, and since when each axis moves, each zone is held, and each station has its plate.
#[derive(Drop)]
pub(crate) struct Trace {
    walk: Walk,
    axes: [Since; 9],
    zones: [Since; 5],
    stations: [Since; 9],
    /// When the last event ended.
    time: u64,
}

impl Trace {
    /// A trace before the first event.
    pub(crate) fn new() -> Trace {
        Trace {
            walk: Walk::at_opening(),
            axes: [FIRST; 9],
            zones: [FIRST; 5],
            stations: [FIRST; 9],
            time: 0,
        }
    }

    // Adds the motions that are over now, and notes those that begin.
    fn tell_axes(
        &mut self,
        text: &mut Vec<u8>,
        before: &Snapshot,
        after: &Snapshot,
        now: Since,
    ) -> Result<(), AllocError> {
        for place in 0..9 {
            let going = before.axes[place].going;
            if going != after.axes[place].going {
                if let Some(to) = going {
                    let since = self.axes[place];
                    push_slice(
                        text,
                        line_of(Process::Machines, place),
                        pose_word(to),
                        since,
                        now.time,
                    )?;
                }
                self.axes[place] = now;
            }
        }
        Ok(())
    }

    // Adds the holdings of zones that are over now, and notes those that begin.
    fn tell_zones(
        &mut self,
        text: &mut Vec<u8>,
        before: &Snapshot,
        after: &Snapshot,
        now: Since,
    ) -> Result<(), AllocError> {
        for place in 0..5 {
            let holder = before.holders[place];
            if holder != after.holders[place] {
                if let Some(machine) = holder {
                    let name = machine_word(machine);
                    push_slice(
                        text,
                        line_of(Process::Zones, place),
                        name,
                        self.zones[place],
                        now.time,
                    )?;
                }
                self.zones[place] = now;
            }
        }
        Ok(())
    }

    // Adds the stays of plates that are over now, and notes those that begin.
    fn tell_stations(
        &mut self,
        text: &mut Vec<u8>,
        before: &Snapshot,
        after: &Snapshot,
        now: Since,
    ) -> Result<(), AllocError> {
        for place in 0..9 {
            let plate = before.plates[place];
            if plate != after.plates[place] {
                if let Some(plate) = plate {
                    let name = station_word(STATIONS[place]);
                    push_slice(
                        text,
                        line_of_plate(plate),
                        name,
                        self.stations[place],
                        now.time,
                    )?;
                }
                self.stations[place] = now;
            }
        }
        Ok(())
    }

    // Adds what is over where the cell changes, and notes what begins.
    fn tell_change(
        &mut self,
        text: &mut Vec<u8>,
        before: &Snapshot,
        after: &Snapshot,
        now: Since,
    ) -> Result<(), AllocError> {
        self.tell_axes(text, before, after, now)?;
        self.tell_zones(text, before, after, now)?;
        self.tell_stations(text, before, after, now)
    }
}

// Adds the names of the lines of the axes.
fn push_axes(text: &mut Vec<u8>) -> Result<(), AllocError> {
    for (place, axis) in AXES.iter().enumerate() {
        push_name(text, line_of(Process::Machines, place), axis_word(*axis))?;
        push_words(text, &["\"}}"])?;
    }
    Ok(())
}

// Adds the names of the lines of the zones.
fn push_zones(text: &mut Vec<u8>) -> Result<(), AllocError> {
    for (place, zone) in ZONES.iter().enumerate() {
        push_name(text, line_of(Process::Zones, place), zone_word(*zone))?;
        push_words(text, &["\"}}"])?;
    }
    Ok(())
}

impl Teller for Trace {
    fn begin(&self, text: &mut Vec<u8>) -> Result<(), AllocError> {
        push_words(text, &["{\"traceEvents\":[\n"])?;
        push_process(text, Process::Machines, "machines")?;
        push_words(text, &[",\n"])?;
        push_process(text, Process::Zones, "zones")?;
        push_words(text, &[",\n"])?;
        push_process(text, Process::Plates, "plates")?;
        push_axes(text)?;
        push_zones(text)
    }

    fn tell(&mut self, event: &Event, text: &mut Vec<u8>) -> Result<(), AllocError> {
        let before = self.walk.now();
        self.walk.pass(&event.entry);
        let after = self.walk.now();
        let now = Since {
            entry: event.number,
            time: event.end,
        };
        self.time = event.end;
        push_plate(text, &event.entry)?;
        self.tell_change(text, &before, &after, now)?;
        push_mishap(text, event)
    }

    // What still lasts ends with the last event.
    fn end(&mut self, text: &mut Vec<u8>) -> Result<(), AllocError> {
        let now = Since {
            entry: 0,
            time: self.time,
        };
        let before = self.walk.now();
        self.tell_change(text, &before, &Snapshot::opening(), now)?;
        push_words(text, &["\n],\"displayTimeUnit\":\"ms\"}\n"])
    }
}
