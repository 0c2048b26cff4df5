//! Ways in a simulated cell, step by step, as texts.
use crate::sim::looks::is_said;
use cell_diagnosis::Reading;
use cell_measures::Durations;
use cell_sim::{FaultScript, SimOperator, SimPort, World};
use cell_turns::{OperatorPort, Port};
use cell_types::texts::{read_axis, read_machine, read_station};
use cell_types::{Command, Machine, command_of};
use std::process::Abort;
use std::sync::{Mutex, Wait};
use test_samples::entry_of;

/// A way in a new world: how many plates are laid in it at most, the script of its faults, and the way's parts. A part
/// is a text of steps, parted by a semicolon and a blank:
///
/// ```text
/// started,press_one,top      the command of this entry is carried out; blank fields at its end are left out
/// off press_one              the axis is switched off
/// stop press1                all of the machine is switched off
/// refused off press_one      the command fails
/// press1 2 0 0 1             the machine's next reading shows these switches of three axes, and these presence bits
/// press1 missing             the machine's next reading is missing
/// press1 any 3               three readings of the machine, whatever they are
/// remove feed_in             the operator takes out what is at the station
/// home press1                the operator puts the machine's axes at home
/// collisions 2               so many collisions were counted
/// round                      a round ends
/// ```
///
/// Besides these there are the steps of `looks`.
pub(crate) type Way = (u32, &'static str, &'static [&'static str]);

/// The faults of a text. In a run that refuses one allocation it may be refused here, and not when it is read again.
pub(crate) fn faults_of<R: AllocGlobal + Abort>(rt: &R, text: &str) -> FaultScript {
    let bytes = text.as_bytes();
    let faults = FaultScript::read(rt.alloc(), bytes);
    let Ok(faults) = faults.or_else(|_| FaultScript::read(rt.alloc(), bytes)) else {
        panic!(rt; "the faults are readable: {text}");
    };
    faults
}

// The number at a place of a text.
fn number(rt: &impl Abort, text: &str, place: usize) -> u8 {
    let word = text.split(' ').nth(place).unwrap_or("");
    word.parse::<u8>().ok().expect(rt, text)
}

/// The command of a step: of an entry, or what is switched off.
pub(crate) fn command_in(rt: &impl Abort, step: &str) -> Command {
    let (word, name) = step.split_once(' ').unwrap_or((step, ""));
    let command = match word {
        "off" => read_axis(name.as_bytes()).map(Command::Off),
        "stop" => read_machine(name.as_bytes()).map(Command::AllOff),
        _ => entry_of(step).and_then(command_of),
    };
    command.expect(rt, step)
}

// Whether a machine's port shows what is wanted.
fn is_shown<P: Port>(rt: &impl Abort, port: &mut P, wanted: &str) -> bool {
    if wanted == "missing" {
        return port.read().is_none();
    }
    if let Some(times) = wanted.strip_prefix("any ") {
        for _ in 0..number(rt, times, 0) {
            let _ = port.read();
        }
        return true;
    }
    let switches = [
        number(rt, wanted, 0),
        number(rt, wanted, 1),
        number(rt, wanted, 2),
    ];
    let presence = number(rt, wanted, 3);
    port.read() == Some(Reading { switches, presence })
}

/// Takes a step by a port and the operator's hands in a world, and says whether it is met. A command names its own part
/// of the cell, so that any port takes it.
pub(crate) fn is_met<P: Port, O: OperatorPort, R: Abort + Wait>(
    rt: &R,
    world: &Mutex<World>,
    port: &mut P,
    hands: &mut O,
    step: &str,
) -> bool {
    let said = is_said(rt, &world.lock(rt), step);
    if let Some(is_so) = said {
        return is_so;
    }
    let (word, rest) = step.split_once(' ').unwrap_or((step, ""));
    match word {
        "round" => {
            world.lock(rt).end_round();
            true
        }
        "refused" => port.command(command_in(rt, rest)).is_err(),
        "remove" => hands
            .remove(read_station(rest.as_bytes()).expect(rt, step))
            .is_ok(),
        "home" => hands
            .home(read_machine(rest.as_bytes()).expect(rt, step))
            .is_ok(),
        "collisions" => world.lock(rt).collisions() == u32::from(number(rt, rest, 0)),
        _ if read_machine(word.as_bytes()).is_some() => is_shown(rt, port, rest),
        _ => port.command(command_in(rt, step)).is_ok(),
    }
}

// Takes a step, by the port of the machine that it begins with or by any, and says whether it is met.
fn is_met_in<R: Abort + Wait>(
    rt: &R,
    world: &Mutex<World>,
    faults: &FaultScript,
    step: &str,
) -> bool {
    let word = step.split(' ').next().unwrap_or("");
    let machine = read_machine(word.as_bytes()).unwrap_or(Machine::Feed);
    let mut port = SimPort::new(rt, world, machine, faults);
    let mut hands = SimOperator::new(rt, world);
    is_met(rt, world, &mut port, &mut hands, step)
}

// Goes a way in a world.
fn run<R: AllocGlobal + Abort + Wait>(rt: &R, world: World, way: &Way) {
    let (_, faults, parts) = *way;
    let faults = faults_of(rt, faults);
    let world = Mutex::new(world);
    for part in parts {
        for (place, step) in part.split("; ").enumerate() {
            assert!(rt;
                is_met_in(rt, &world, &faults, step),
                "step {place}, {step}, of {part}"
            );
        }
    }
}

/// Goes these ways, each step of which has to be met.
pub(crate) fn run_all<R: AllocGlobal + Abort + Wait>(rt: &R, ways: &[Way]) {
    for way in ways {
        run(rt, World::new(way.0), way);
    }
}

/// Goes these ways in worlds whose motions take these times, each step of which has to be met.
pub(crate) fn run_timed<R: AllocGlobal + Abort + Wait>(
    rt: &R,
    durations: &Durations,
    ways: &[Way],
) {
    for way in ways {
        run(rt, World::new(way.0).with_durations(*durations), way);
    }
}

/// Goes these ways in watched worlds, each step of which has to be met.
pub(crate) fn run_watched<R: AllocGlobal + Abort + Wait>(rt: &R, ways: &[Way]) {
    for way in ways {
        run(rt, World::watched(way.0), way);
    }
}
