//! What a world says of itself, as steps.
use crate::sim::steps::command_in;
use cell_sim::{SAFETY_RULES, World};
use cell_types::texts::{pose_word, read_axis, read_machine, read_station};
use cell_types::{AXES, machine_of_axis};
use std::process::Abort;

/// Whether a world says what a step wants; `None` for a step of another kind:
///
/// ```text
/// axis press_one middle top   the axis has or has left the first pose, and goes to the second
/// axis press_one middle       the axis has the pose, and goes nowhere
/// moving press1               axes of this machine move, and no others; without a machine none moves
/// at press1 2                 the plate of this number is at the station; without a number none is
/// plates 3 1 1 1 0 0          so many plates were laid, are left, were forged, taken out, removed and lost
/// rounds press1 2             the machine moved in so many rounds
/// broken PressOrder           this rule was broken, once, and no other; without a name none was
/// times PressOrder 2          this rule was broken so often
/// first PressOrder 2 started,press_one,top   it was first broken in this round by the command of this entry
/// first ArmInPress 1 home     it was first broken in this round, by hand
/// ```
pub(crate) fn is_said(rt: &impl Abort, world: &World, step: &str) -> Option<bool> {
    let (word, rest) = step.split_once(' ').unwrap_or((step, ""));
    match word {
        "axis" => Some(is_axis_so(rt, world, rest)),
        "moving" => Some(is_moving_so(world, rest)),
        "at" => Some(is_plate_there(rt, world, rest)),
        "plates" => Some(are_counts_so(world, rest)),
        "rounds" => Some(is_moved_so(rt, world, rest)),
        "broken" => Some(is_broken_so(world, rest)),
        "times" => Some(is_broken_often(world, rest)),
        "first" => Some(is_first_so(rt, world, rest)),
        _ => None,
    }
}

fn parted(text: &str) -> (&str, &str) {
    text.split_once(' ').unwrap_or((text, ""))
}

fn is_axis_so(rt: &impl Abort, world: &World, wanted: &str) -> bool {
    let (name, poses) = parted(wanted);
    let (at, going) = parted(poses);
    let state = world.axis_state(read_axis(name.as_bytes()).expect(rt, wanted));
    let found = match state.going {
        Some(pose) => pose_word(pose),
        None => "",
    };
    pose_word(state.at) == at && found == going
}

fn is_moving_so(world: &World, wanted: &str) -> bool {
    let machine = read_machine(wanted.as_bytes());
    let mut is_moving = false;
    for &axis in &AXES {
        if world.is_moving(axis) {
            if machine != Some(machine_of_axis(axis)) {
                return false;
            }
            is_moving = true;
        }
    }
    is_moving == machine.is_some()
}

fn is_plate_there(rt: &impl Abort, world: &World, wanted: &str) -> bool {
    let (name, number) = parted(wanted);
    let station = read_station(name.as_bytes()).expect(rt, wanted);
    world.plate_at(station) == number.parse::<u32>().ok()
}

fn are_counts_so(world: &World, wanted: &str) -> bool {
    let counts = [
        world.laid(),
        world.left(),
        world.forged(),
        world.taken_out(),
        world.removed(),
        world.lost(),
    ];
    let mut words = wanted.split(' ');
    for count in counts {
        if words.next().unwrap_or("").parse::<u32>() != Ok(count) {
            return false;
        }
    }
    words.next().is_none()
}

fn is_moved_so(rt: &impl Abort, world: &World, wanted: &str) -> bool {
    let (name, number) = parted(wanted);
    let machine = read_machine(name.as_bytes()).expect(rt, wanted);
    number.parse::<u32>() == Ok(world.moving_rounds(machine))
}

fn is_broken_so(world: &World, wanted: &str) -> bool {
    for &rule in &SAFETY_RULES {
        let times = if rule.name() == wanted { 1 } else { 0 };
        if world.broken(rule) != times {
            return false;
        }
    }
    world.is_safe() == wanted.is_empty()
}

fn is_broken_often(world: &World, wanted: &str) -> bool {
    let (name, times) = parted(wanted);
    for &rule in &SAFETY_RULES {
        if rule.name() == name {
            return Ok(world.broken(rule)) == times.parse::<u32>();
        }
    }
    false
}

fn is_first_so(rt: &impl Abort, world: &World, wanted: &str) -> bool {
    let (name, occasion) = parted(wanted);
    let (round, by) = parted(occasion);
    let mut first = None;
    for &rule in &SAFETY_RULES {
        if rule.name() == name {
            first = world.first_broken(rule);
        }
    }
    let first = first.expect(rt, wanted);
    let command = if by == "home" {
        None
    } else {
        Some(command_in(rt, by))
    };
    Ok(first.round) == round.parse::<u32>() && first.command == command
}
