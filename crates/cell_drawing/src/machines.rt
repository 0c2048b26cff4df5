//! The belts, the table, the presses and the zones of a drawing.
use crate::ink::{
    Outline, Rectangle, Spot, Way, ink_bold, ink_circle, ink_fault, ink_ghost, ink_line, ink_place,
    ink_rectangle, ink_text, xy,
};
use crate::spots::{
    bed_half, body_of, height_spot, light_spot, line_spot, name_spot, plate_spot, square,
    zone_area, zone_spot,
};
use cell_picture::{Facts, axis_at, is_asked, is_failed, lamp_at, plate_at};
use cell_sentences::{colour_name, machine_name, pose_name, way_to_pose};
use cell_types::texts::zone_word;
use cell_types::{
    Axis, AxisState, Belt, BeltMotion, Colour, Machine, PRESS1, PRESS2, Pose, Press, Station, Zone,
    axes_of, home, machine_of_belt, motion_named, poses_of,
};
use std::io;
use std::io::Write;

const BELT: &str = "#eef0f3";

const STEEL: &str = "#dde2ea";

/// The fill of the bed on which a plate lies in a press and on the table.
pub const BED: &str = "#f4f6f9";

/// The line of a machine's shape.
pub fn outline_of(facts: &Facts, machine: Machine) -> Outline {
    Outline {
        failed: is_failed(facts, machine),
    }
}

// The circle within a square.
fn ink_round<W: Write>(
    out: &mut W,
    square: Rectangle,
    fill: &str,
    outline: Outline,
) -> io::Result<()> {
    let half = square.width / 2;
    let Spot { x, y } = square.corner;
    let centre = xy(x.saturating_add(half), y.saturating_add(half));
    ink_circle(out, centre, half, fill, outline)
}

/// The shape of a machine: of the robot that of its middle.
pub fn draw_body<W: Write>(out: &mut W, machine: Machine, outline: Outline) -> io::Result<()> {
    let body = body_of(machine);
    match machine {
        Machine::Feed | Machine::Deposit => ink_rectangle(out, body, BELT, outline),
        Machine::Press1 | Machine::Press2 => ink_rectangle(out, body, STEEL, outline),
        Machine::Table => ink_round(out, body, STEEL, outline),
        Machine::Robot => ink_round(out, body, "#b8c1cf", outline),
    }
}

/// The name of a machine, and whether it is booked failed or a stop is asked of it. In a legal journal no stop is asked
/// of a failed machine.
pub fn draw_name<W: Write>(out: &mut W, facts: &Facts, machine: Machine) -> io::Result<()> {
    let at = name_spot(machine);
    let name = machine_name(machine);
    if is_failed(facts, machine) {
        ink_bold(
            out,
            at,
            format_args!("{name} <tspan fill=\"#c00000\">FAILED</tspan>"),
        )
    } else if is_asked(facts, machine) {
        ink_bold(out, at, format_args!("{name}, stop asked"))
    } else {
        ink_bold(out, at, name)
    }
}

/// In a line below the name of a machine, that it stopped on its way, if it is booked failed while one of its axes was
/// going.
pub fn draw_stop<W: Write>(
    out: &mut W,
    facts: &Facts,
    machine: Machine,
    line: u32,
) -> io::Result<()> {
    if !is_failed(facts, machine) {
        return Ok(());
    }
    for axis in axes_of(machine) {
        if axis_at(facts, *axis).going.is_some() {
            return ink_fault(out, line_spot(machine, line), "stopped on the way");
        }
    }
    Ok(())
}

/// A belt's light.
pub fn draw_light<W: Write>(out: &mut W, belt: Belt, colour: Colour) -> io::Result<()> {
    let at = light_spot(belt);
    let fill = match colour {
        Colour::Red => "#d32f2f",
        Colour::Green => "#2e9e44",
    };
    ink_circle(out, at, 9, fill, Outline { failed: false })?;
    ink_text(
        out,
        xy(at.x.saturating_add(15), at.y.saturating_add(4)),
        format_args!("light {}", colour_name(colour)),
    )
}

/// An arrow along the way of a belt's motion.
pub fn draw_flow<W: Write>(out: &mut W, motion: BeltMotion) -> io::Result<()> {
    let from = plate_spot(motion.from);
    let dest = plate_spot(motion.dest);
    let to = xy(dest.x.saturating_sub(26), dest.y);
    let back = to.x.saturating_sub(9);
    ink_line(out, xy(from.x.saturating_add(26), from.y), to, 3)?;
    ink_line(out, xy(back, to.y.saturating_sub(7)), to, 3)?;
    ink_line(out, xy(back, to.y.saturating_add(7)), to, 3)
}

// The plate of a station that stands still, or its place.
fn draw_place<W: Write>(out: &mut W, facts: &Facts, station: Station) -> io::Result<()> {
    ink_place(out, plate_spot(station), plate_at(facts, station))
}

// A belt, its light, its name and the plates of its two stations.
fn draw_belt<W: Write>(
    out: &mut W,
    facts: &Facts,
    belt: Belt,
    axis: Axis,
    ends: [Station; 2],
) -> io::Result<()> {
    let machine = machine_of_belt(belt);
    let state = axis_at(facts, axis);
    draw_body(out, machine, outline_of(facts, machine))?;
    for station in ends {
        draw_place(out, facts, station)?;
    }
    if let Some(to) = state.going {
        if let Some(motion) = motion_named(axis, to) {
            draw_flow(out, motion)?;
        }
    }
    draw_light(out, belt, lamp_at(facts, belt))?;
    draw_name(out, facts, machine)?;
    ink_text(out, line_spot(machine, 1), Way(state))?;
    draw_stop(out, facts, machine, 2)
}

/// Draws both belts, their lights and their plates.
pub fn draw_belts<W: Write>(out: &mut W, facts: &Facts) -> io::Result<()> {
    let feed_ends = [Station::FeedIn, Station::FeedEnd];
    draw_belt(out, facts, Belt::Feed, Axis::FeedBelt, feed_ends)?;
    let deposit_ends = [Station::DepIn, Station::DepEnd];
    draw_belt(out, facts, Belt::Deposit, Axis::DepositBelt, deposit_ends)
}

/// A pointer on the table to the machine to which it is turned; hollow where it will be.
pub fn draw_pointer<W: Write>(out: &mut W, turn: Pose, hollow: bool) -> io::Result<()> {
    let points = match turn {
        Pose::Robot => "277,239 291,250 277,261",
        _ => "223,239 209,250 223,261",
    };
    let paint = if hollow {
        "fill=\"none\" stroke=\"#2a5d9f\" stroke-width=\"2\" stroke-dasharray=\"3 3\""
    } else {
        "fill=\"#222222\""
    };
    writeln!(out, "<polygon points=\"{points}\" {paint}/>")
}

// The poses of the table's axes in words.
fn draw_table_poses<W: Write>(out: &mut W, lift: AxisState, turn: AxisState) -> io::Result<()> {
    ink_text(
        out,
        line_spot(Machine::Table, 1),
        format_args!("lift {}", Way(lift)),
    )?;
    let at = pose_name(turn.at);
    ink_text(out, line_spot(Machine::Table, 2), format_args!("turn {at}"))?;
    match turn.going {
        Some(to) => ink_text(
            out,
            line_spot(Machine::Table, 3),
            format_args!("\u{2192} {}", way_to_pose(to)),
        ),
        None => Ok(()),
    }
}

/// Draws the table: its bed, which is larger where it is high, its height on a scale, and a pointer to the machine to
/// which it is turned.
pub fn draw_table<W: Write>(out: &mut W, facts: &Facts) -> io::Result<()> {
    let lift = axis_at(facts, Axis::TableLift);
    let turn = axis_at(facts, Axis::TableTurn);
    let middle = plate_spot(Station::Table);
    let plain = Outline { failed: false };
    draw_body(out, Machine::Table, outline_of(facts, Machine::Table))?;
    ink_circle(out, middle, bed_half(lift.at), BED, plain)?;
    draw_pointer(out, turn.at, false)?;
    if let Some(to) = turn.going {
        draw_pointer(out, to, true)?;
    }
    draw_place(out, facts, Station::Table)?;
    draw_height(out, lift, Axis::TableLift)?;
    draw_name(out, facts, Machine::Table)?;
    draw_table_poses(out, lift, turn)?;
    draw_stop(out, facts, Machine::Table, 4)
}

/// Draws both presses.
pub fn draw_presses<W: Write>(out: &mut W, facts: &Facts) -> io::Result<()> {
    draw_press(out, facts, PRESS1)?;
    draw_press(out, facts, PRESS2)
}

fn draw_press<W: Write>(out: &mut W, facts: &Facts, press: Press) -> io::Result<()> {
    let state = axis_at(facts, press.axis);
    let bed = square(plate_spot(press.station), bed_half(state.at));
    draw_body(out, press.machine, outline_of(facts, press.machine))?;
    ink_rectangle(out, bed, BED, Outline { failed: false })?;
    draw_place(out, facts, press.station)?;
    draw_height(out, state, press.axis)?;
    draw_name(out, facts, press.machine)?;
    ink_text(out, line_spot(press.machine, 1), Way(state))?;
    draw_stop(out, facts, press.machine, 2)
}

/// A scale of the heights of a press or of the table.
pub fn draw_scale<W: Write>(out: &mut W, axis: Axis) -> io::Result<()> {
    let middle = height_spot(axis, home(axis));
    for pose in poses_of(axis) {
        let Spot { x, y } = height_spot(axis, *pose);
        ink_line(out, middle, xy(x, y), 2)?;
        ink_line(
            out,
            xy(x.saturating_sub(9), y),
            xy(x.saturating_add(9), y),
            2,
        )?;
    }
    Ok(())
}

// A scale of heights: a dot where the press or the table is, and a broken line and a ring where it goes.
fn draw_height<W: Write>(out: &mut W, state: AxisState, axis: Axis) -> io::Result<()> {
    draw_scale(out, axis)?;
    let at = height_spot(axis, state.at);
    if let Some(to) = state.going {
        let aim = height_spot(axis, to);
        ink_ghost(out, at, aim)?;
        ink_circle(out, aim, 6, "#ffffff", Outline { failed: false })?;
    }
    ink_circle(out, at, 6, "#222222", Outline { failed: false })
}

// The name of a zone.
fn draw_zone_name<W: Write>(out: &mut W, zone: Zone, held: bool) -> io::Result<()> {
    let Spot { x, y } = zone_spot(zone);
    let (fill, letters) = if held {
        ("#1f3a5f", "#ffffff")
    } else {
        ("#ffffff", "#111111")
    };
    let word = zone_word(zone);
    writeln!(
        out,
        "<rect x=\"{}\" y=\"{}\" width=\"26\" height=\"18\" rx=\"9\" fill=\"{fill}\" stroke=\"#1f3a5f\"/>",
        x.saturating_sub(13),
        y.saturating_sub(9)
    )?;
    writeln!(
        out,
        "<text x=\"{x}\" y=\"{}\" font-size=\"12\" text-anchor=\"middle\" fill=\"{letters}\">{word}</text>",
        y.saturating_add(4)
    )
}

/// Marks a zone where its two machines could meet: filled where it is held, with a broken line where not.
pub fn draw_zone<W: Write>(out: &mut W, zone: Zone, held: bool) -> io::Result<()> {
    let area = zone_area(zone);
    let paint = if held {
        "fill=\"#cfe0f5\" stroke=\"#1f3a5f\" stroke-width=\"2\""
    } else {
        "fill=\"none\" stroke=\"#667085\" stroke-dasharray=\"4 3\""
    };
    writeln!(
        out,
        "<rect x=\"{}\" y=\"{}\" width=\"{}\" height=\"{}\" {paint}/>",
        area.corner.x, area.corner.y, area.width, area.height
    )?;
    draw_zone_name(out, zone, held)
}
