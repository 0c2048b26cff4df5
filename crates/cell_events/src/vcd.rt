//! Events as a value change dump: the variables of the cell, and when each changes.
use crate::event::Event;
use crate::teller::Teller;
use crate::texts::{push_digits, push_words};
use crate::walk::Walk;
use cell_journal::Snapshot;
use cell_types::texts::{axis_word, belt_word, machine_word, pose_word, station_word, zone_word};
use cell_types::{AXES, AxisState, BELTS, Colour, MACHINES, PlateId, STATIONS, ZONES};
use std::alloc::AllocError;

/// How many bits a plate's number has at most.
const BITS: u32 = 17;

// Adds the code of a variable, which is a letter and a number, and ends the line.
fn push_code(text: &mut Vec<u8>, letter: &str, place: usize) -> Result<(), AllocError> {
    push_words(text, &[letter])?;
    push_digits(text, place as u64)?;
    push_words(text, &["\n"])
}

// Adds the declaration of a variable. Its name may end with a second word.
fn push_variable(
    text: &mut Vec<u8>,
    kind: &str,
    letter: &str,
    place: usize,
    name: [&str; 2],
) -> Result<(), AllocError> {
    let [first, second] = name;
    push_words(text, &["$var ", kind, " ", letter])?;
    push_digits(text, place as u64)?;
    push_words(text, &[" ", first, second, " $end\n"])
}

// Adds the declarations of the poses.
fn push_axes(text: &mut Vec<u8>) -> Result<(), AllocError> {
    for (place, axis) in AXES.iter().enumerate() {
        push_variable(text, "string 1", "a", place, [axis_word(*axis), ""])?;
    }
    Ok(())
}

// Adds the declarations of the zones' holders.
fn push_zones(text: &mut Vec<u8>) -> Result<(), AllocError> {
    for (place, zone) in ZONES.iter().enumerate() {
        push_variable(text, "string 1", "z", place, [zone_word(*zone), ""])?;
    }
    Ok(())
}

// Adds the declarations of the stations' plates.
fn push_stations(text: &mut Vec<u8>) -> Result<(), AllocError> {
    for (place, station) in STATIONS.iter().enumerate() {
        push_variable(text, "integer 32", "s", place, [station_word(*station), ""])?;
    }
    Ok(())
}

// Adds the declarations of what says that machines have failed.
fn push_machines(text: &mut Vec<u8>) -> Result<(), AllocError> {
    for (place, machine) in MACHINES.iter().enumerate() {
        push_variable(
            text,
            "wire 1",
            "m",
            place,
            [machine_word(*machine), "_failed"],
        )?;
    }
    Ok(())
}

// Adds the declarations of the lights.
fn push_lights(text: &mut Vec<u8>) -> Result<(), AllocError> {
    for (place, belt) in BELTS.iter().enumerate() {
        push_variable(text, "wire 1", "l", place, [belt_word(*belt), "_light"])?;
    }
    Ok(())
}

// Adds the value of an axis: its pose, or, while it moves, `to_` and that to which it goes. The motions of the belts
// have names that begin so.
fn push_pose(text: &mut Vec<u8>, state: AxisState) -> Result<(), AllocError> {
    match state.going {
        Some(to) => {
            let pose = pose_word(to);
            let before = if pose.starts_with("to_") { "" } else { "to_" };
            push_words(text, &["s", before, pose, " "])
        }
        None => push_words(text, &["s", pose_word(state.at), " "]),
    }
}

// Adds a number in binary digits.
fn push_binary(text: &mut Vec<u8>, number: u32) -> Result<(), AllocError> {
    let mut begun = false;
    for place in 1..BITS {
        let bit = number >> (BITS - place) & 1;
        begun = begun || bit == 1;
        if begun {
            push_digits(text, u64::from(bit))?;
        }
    }
    push_digits(text, u64::from(number & 1))
}

// Adds the value of a station: the number of its plate, or 0.
fn push_plate(text: &mut Vec<u8>, plate: Option<PlateId>) -> Result<(), AllocError> {
    let number = match plate {
        Some(plate) => plate.number(),
        None => 0,
    };
    push_words(text, &["b"])?;
    push_binary(text, number)?;
    push_words(text, &[" "])
}

// Adds a value that is 0 or 1.
fn push_bit(text: &mut Vec<u8>, is_one: bool) -> Result<(), AllocError> {
    push_words(text, &[if is_one { "1" } else { "0" }])
}

// Adds the axes that changed.
fn push_changed_axes(
    text: &mut Vec<u8>,
    before: &Snapshot,
    after: &Snapshot,
    all: bool,
) -> Result<(), AllocError> {
    for place in 0..9 {
        let state = after.axes[place];
        if all || before.axes[place] != state {
            push_pose(text, state)?;
            push_code(text, "a", place)?;
        }
    }
    Ok(())
}

// Adds the zones that changed hands.
fn push_changed_zones(
    text: &mut Vec<u8>,
    before: &Snapshot,
    after: &Snapshot,
    all: bool,
) -> Result<(), AllocError> {
    for place in 0..5 {
        let holder = after.holders[place];
        if all || before.holders[place] != holder {
            let word = match holder {
                Some(machine) => machine_word(machine),
                None => "-",
            };
            push_words(text, &["s", word, " "])?;
            push_code(text, "z", place)?;
        }
    }
    Ok(())
}

// Adds the stations whose plate changed.
fn push_changed_stations(
    text: &mut Vec<u8>,
    before: &Snapshot,
    after: &Snapshot,
    all: bool,
) -> Result<(), AllocError> {
    for place in 0..9 {
        let plate = after.plates[place];
        if all || before.plates[place] != plate {
            push_plate(text, plate)?;
            push_code(text, "s", place)?;
        }
    }
    Ok(())
}

// Adds the machines that failed or were repaired.
fn push_changed_machines(
    text: &mut Vec<u8>,
    before: &Snapshot,
    after: &Snapshot,
    all: bool,
) -> Result<(), AllocError> {
    for place in 0..6 {
        let failed = after.failed[place];
        if all || before.failed[place] != failed {
            push_bit(text, failed)?;
            push_code(text, "m", place)?;
        }
    }
    Ok(())
}

// Adds the lights that changed.
fn push_changed_lights(
    text: &mut Vec<u8>,
    before: &Snapshot,
    after: &Snapshot,
    all: bool,
) -> Result<(), AllocError> {
    for place in 0..2 {
        let colour = after.lamps[place];
        if all || before.lamps[place] != colour {
            push_bit(text, colour == Colour::Green)?;
            push_code(text, "l", place)?;
        }
    }
    Ok(())
}

// Adds all that changed; or all, changed or not.
fn push_changes(
    text: &mut Vec<u8>,
    before: &Snapshot,
    after: &Snapshot,
    all: bool,
) -> Result<(), AllocError> {
    push_changed_axes(text, before, after, all)?;
    push_changed_zones(text, before, after, all)?;
    push_changed_stations(text, before, after, all)?;
    push_changed_machines(text, before, after, all)?;
    push_changed_lights(text, before, after, all)
}

/// A value change dump, and the time to which it came.
#[derive(Drop)]
pub(crate) struct Dump {
    walk: Walk,
    time: u64,
}

impl Dump {
    /// A dump before the first event.
    pub(crate) fn new() -> Dump {
        Dump {
            walk: Walk::at_opening(),
            time: 0,
        }
    }
}

impl Teller for Dump {
    fn begin(&self, text: &mut Vec<u8>) -> Result<(), AllocError> {
        push_words(text, &["$timescale 1 ms $end\n$scope module cell $end\n"])?;
        push_axes(text)?;
        push_zones(text)?;
        push_stations(text)?;
        push_machines(text)?;
        push_lights(text)?;
        push_words(
            text,
            &["$upscope $end\n$enddefinitions $end\n#0\n$dumpvars\n"],
        )?;
        let now = self.walk.now();
        push_changes(text, &now, &now, true)?;
        push_words(text, &["$end\n"])
    }

    fn tell(&mut self, event: &Event, text: &mut Vec<u8>) -> Result<(), AllocError> {
        let before = self.walk.now();
        self.walk.pass(&event.entry);
        if event.end > self.time {
            self.time = event.end;
            push_words(text, &["#"])?;
            push_digits(text, event.end)?;
            push_words(text, &["\n"])?;
        }
        let after = self.walk.now();
        push_changes(text, &before, &after, false)
    }

    fn end(&mut self, _text: &mut Vec<u8>) -> Result<(), AllocError> {
        Ok(())
    }
}
