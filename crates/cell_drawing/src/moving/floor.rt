//! The drawing of a cell whose parts change.
use crate::ink::{
    Outline, Spot, ink_circle, ink_line, ink_place, ink_rectangle, ink_text, ink_tile, xy,
};
use crate::machines::{
    BED, draw_body, draw_flow, draw_light, draw_name, draw_pointer, draw_scale, draw_zone,
};
use crate::moving::keys::ROW;
use crate::moving::part::{Count, Part};
use crate::moving::play::{Player, Reel};
use crate::robot::{draw_number, draw_rod, number_spot, tip};
use crate::spots::{CENTRE, bed_half, height_spot, plate_spot, square};
use cell_journal::Snapshot;
use cell_picture::{Facts, facts_of};
use cell_types::{
    ARMS, Arm, Axis, Belt, Colour, MACHINES, Machine, PRESS1, PRESS2, Pose, Press, STATIONS,
    Station, ZONES, axis_of_arm, home, is_before_press, motion_named, station_of_arm,
};
use std::io;
use std::io::Write;

// The line of a machine that isn't failed.
const LINE: Outline = Outline { failed: false };

// What is so at the opening.
fn opening() -> Facts {
    facts_of(&Snapshot::opening())
}

// Begins what changes as a part does. It turns or grows round a spot.
fn begin<W: Write>(out: &mut W, part: Part, round: Spot) -> io::Result<()> {
    let way = if part.is_even() { "E" } else { "S" };
    let Spot { x, y } = round;
    write!(out, "<g class=\"{way} {part}\"")?;
    match part {
        Part::Moved(_) | Part::Upright => {
            write!(out, " style=\"transform-origin:{x}px {y}px\"")?;
        }
        _ if !part.is_seen(&opening()) => write!(out, " opacity=\"0\"")?,
        _ => {}
    }
    writeln!(out, ">")
}

// Ends what was begun last.
fn end<W: Write>(out: &mut W) -> io::Result<()> {
    writeln!(out, "</g>")
}

// Writes the texts that follow each other in a part, one below the other, the first so far below the present origin.
fn draw_texts<W: Write>(out: &mut W, reel: Reel<'_>, part: Part, first: u32) -> io::Result<()> {
    begin(out, part, CENTRE)?;
    let mut y = first;
    if let Some(label) = part.first_label() {
        writeln!(out, "<text y=\"{y}\">{label}</text>")?;
        y = y.saturating_add(ROW);
    }
    let mut player = Player::at_opening();
    for place in 0..reel.entries {
        if let Some(entry) = reel.journal.get(place) {
            let moment = player.play(entry);
            if let Some(label) = part.label(&moment) {
                writeln!(out, "<text y=\"{y}\">{label}</text>")?;
                y = y.saturating_add(ROW);
            }
        }
    }
    end(out)
}

// The plate of a station, if it is forged or if it isn't, with the numbers of all that come there so.
fn draw_plate<W: Write>(
    out: &mut W,
    reel: Reel<'_>,
    station: Station,
    forged: bool,
    at: Spot,
) -> io::Result<()> {
    let Spot { x, y } = at;
    begin(out, Part::Plate(station, forged), at)?;
    ink_tile(out, at, forged)?;
    writeln!(
        out,
        "<g transform=\"translate({x} {y})\" clip-path=\"url(#plate)\" text-anchor=\"middle\">"
    )?;
    draw_texts(out, reel, Part::Number(station, forged), 5)?;
    end(out)?;
    end(out)
}

// The plate of a station of a belt, which its axis moves.
fn draw_carried<W: Write>(
    out: &mut W,
    reel: Reel<'_>,
    axis: Axis,
    station: Station,
) -> io::Result<()> {
    let at = plate_spot(station);
    begin(out, Part::Moved(axis), at)?;
    draw_plate(out, reel, station, !is_before_press(station), at)?;
    end(out)
}

// The plate in a press: one that isn't forged, and one that is.
fn draw_pressed<W: Write>(out: &mut W, reel: Reel<'_>, press: Press) -> io::Result<()> {
    let at = plate_spot(press.station);
    draw_plate(out, reel, press.station, false, at)?;
    draw_plate(out, reel, press.station, true, at)
}

/// Draws all plates but those of the robot's arms.
pub fn draw_plates<W: Write>(out: &mut W, reel: Reel<'_>) -> io::Result<()> {
    for (axis, station) in [
        (Axis::FeedBelt, Station::FeedIn),
        (Axis::FeedBelt, Station::FeedEnd),
        (Axis::DepositBelt, Station::DepIn),
        (Axis::DepositBelt, Station::DepEnd),
    ] {
        draw_carried(out, reel, axis, station)?;
    }
    let table = Station::Table;
    draw_plate(out, reel, table, false, plate_spot(table))?;
    draw_pressed(out, reel, PRESS1)?;
    draw_pressed(out, reel, PRESS2)
}

// The shape and the name of a machine, and over them its marks.
fn draw_machine<W: Write>(out: &mut W, machine: Machine) -> io::Result<()> {
    let mut facts = opening();
    draw_body(out, machine, LINE)?;
    draw_name(out, &facts, machine)?;
    begin(out, Part::Asked(machine), CENTRE)?;
    facts.asked = [true; 6];
    draw_name(out, &facts, machine)?;
    end(out)?;
    begin(out, Part::Failed(machine), CENTRE)?;
    facts.failed = [true; 6];
    draw_body(out, machine, Outline { failed: true })?;
    draw_name(out, &facts, machine)?;
    end(out)
}

// A belt's light.
fn draw_lamp<W: Write>(out: &mut W, belt: Belt) -> io::Result<()> {
    begin(out, Part::Lamp(belt, Colour::Red), CENTRE)?;
    draw_light(out, belt, Colour::Red)?;
    end(out)?;
    begin(out, Part::Lamp(belt, Colour::Green), CENTRE)?;
    draw_light(out, belt, Colour::Green)?;
    end(out)
}

// The arrows of the belts' motions.
fn draw_flows<W: Write>(out: &mut W) -> io::Result<()> {
    for (axis, to) in [
        (Axis::FeedBelt, Pose::ToEnd),
        (Axis::FeedBelt, Pose::ToTable),
        (Axis::DepositBelt, Pose::ToEnd),
    ] {
        begin(out, Part::Going(axis, to), CENTRE)?;
        if let Some(motion) = motion_named(axis, to) {
            draw_flow(out, motion)?;
        }
        end(out)?;
    }
    Ok(())
}

// A scale of heights, with a dot where a press or the table is.
fn draw_gauge<W: Write>(out: &mut W, axis: Axis) -> io::Result<()> {
    draw_scale(out, axis)?;
    begin(out, Part::Height(axis), CENTRE)?;
    ink_circle(out, height_spot(axis, home(axis)), 6, "#222222", LINE)?;
    end(out)
}

// The bed of a press, which glows while it forges, and its height.
fn draw_bed<W: Write>(out: &mut W, press: Press) -> io::Result<()> {
    let middle = plate_spot(press.station);
    let bed = square(middle, bed_half(Pose::Middle));
    begin(out, Part::Moved(press.axis), middle)?;
    ink_rectangle(out, bed, BED, LINE)?;
    begin(out, Part::Glow(press), middle)?;
    ink_rectangle(out, bed, "#ff9a3c", LINE)?;
    end(out)?;
    end(out)?;
    draw_gauge(out, press.axis)
}

// The bed and the pointer of the table, and its height.
fn draw_disc<W: Write>(out: &mut W) -> io::Result<()> {
    let middle = plate_spot(Station::Table);
    begin(out, Part::Moved(Axis::TableLift), middle)?;
    ink_circle(out, middle, bed_half(Pose::Low), BED, LINE)?;
    end(out)?;
    begin(out, Part::Moved(Axis::TableTurn), middle)?;
    draw_pointer(out, Pose::Belt, false)?;
    end(out)?;
    draw_gauge(out, Axis::TableLift)
}

// The places of plates.
fn draw_places<W: Write>(out: &mut W) -> io::Result<()> {
    for station in STATIONS {
        if !matches!(station, Station::Arm1 | Station::Arm2) {
            ink_place(out, plate_spot(station), None)?;
        }
    }
    Ok(())
}

// The marks of the zones.
fn draw_zones<W: Write>(out: &mut W) -> io::Result<()> {
    for zone in ZONES {
        draw_zone(out, zone, false)?;
        begin(out, Part::Held(zone), CENTRE)?;
        draw_zone(out, zone, true)?;
        end(out)?;
    }
    Ok(())
}

/// Draws what stands below the robot and the plates: the machines, what moves in them, the places of plates, the lights
/// and the zones.
pub fn draw_floor<W: Write>(out: &mut W) -> io::Result<()> {
    for machine in MACHINES {
        if machine != Machine::Robot {
            draw_machine(out, machine)?;
        }
    }
    draw_bed(out, PRESS1)?;
    draw_bed(out, PRESS2)?;
    draw_disc(out)?;
    draw_places(out)?;
    draw_lamp(out, Belt::Feed)?;
    draw_lamp(out, Belt::Deposit)?;
    draw_flows(out)?;
    draw_zones(out)
}

// A spot below the robot's middle, behind it from an arm's number.
fn behind(number: Spot) -> Spot {
    xy(
        CENTRE.x.saturating_mul(3).saturating_sub(number.x) / 2,
        CENTRE.y.saturating_mul(3).saturating_sub(number.y) / 2,
    )
}

// An arm with its plate, which stands upright as its number does.
fn draw_arm<W: Write>(out: &mut W, reel: Reel<'_>, arm: Arm) -> io::Result<()> {
    let hand = tip(arm, Pose::Table1, Pose::In);
    let number = number_spot(arm, Pose::Table1);
    let station = station_of_arm(arm);
    ink_line(out, CENTRE, hand, 14)?;
    begin(out, Part::Moved(axis_of_arm(arm)), CENTRE)?;
    ink_line(out, behind(number), CENTRE, 10)?;
    draw_rod(out, hand)?;
    begin(out, Part::Upright, hand)?;
    draw_plate(out, reel, station, !is_before_press(station), hand)?;
    end(out)?;
    end(out)?;
    begin(out, Part::Upright, number)?;
    draw_number(out, number, arm)?;
    end(out)
}

/// Draws the robot with the plates of its arms.
pub fn draw_robot<W: Write>(out: &mut W, reel: Reel<'_>) -> io::Result<()> {
    begin(out, Part::Moved(Axis::RobotTurn), CENTRE)?;
    for arm in ARMS {
        draw_arm(out, reel, arm)?;
    }
    end(out)?;
    draw_machine(out, Machine::Robot)
}

/// Draws how many entries there are, the sentence of the last of them that is told, and the counts.
pub fn draw_words<W: Write>(out: &mut W, reel: Reel<'_>) -> io::Result<()> {
    let word = if reel.entries == 1 {
        "entry"
    } else {
        "entries"
    };
    let entries = reel.entries;
    writeln!(
        out,
        "<text x=\"20\" y=\"26\" font-size=\"16\" font-weight=\"bold\">{entries} {word}</text>\n\
         <g transform=\"translate(20 46)\" clip-path=\"url(#told)\">"
    )?;
    draw_texts(out, reel, Part::Sentence, 0)?;
    end(out)?;
    for (y, word, count) in [
        (84, "admitted", Count::Admitted),
        (101, "forged", Count::Forged),
        (118, "delivered", Count::Delivered),
        (135, "quarantined", Count::Quarantined),
    ] {
        ink_text(out, xy(20, y), word)?;
        writeln!(
            out,
            "<g transform=\"translate(165 {y})\" clip-path=\"url(#count)\" text-anchor=\"end\">"
        )?;
        draw_texts(out, reel, Part::Counted(count), 0)?;
        end(out)?;
    }
    Ok(())
}
