//! The picture of the cell as one SVG file.
use crate::ink::{Spot, ink_bold, ink_place, ink_right, ink_text, xy};
use crate::machines::{draw_belts, draw_presses, draw_table, draw_zone};
use crate::robot::draw_robot;
use cell_audit::AuditError;
use cell_output::WriteFault;
use cell_picture::{AnswerLine, Facts, Scene, ShownPlate, holder_at};
use cell_sentences::{EntrySentence, machine_name};
use cell_types::texts::zone_word;
use cell_types::{PlateId, ZONES, Zone, owner, visitor};
use std::io;
use std::io::Write;

/// Draws a scene as one SVG file of 800 by 480 units: the cell from above, with its plates, the arms, the presses'
/// heights, the lights and the zones, and beside them the counts and the answer's line. Failed machines, forged plates
/// and the lights are told by a sign or a word besides their colour.
///
/// `WriteFault` is meant for a writer that failed, and no clause says so; a first part of the file was written then.
pub fn draw_picture<W: Write>(writer: &mut W, scene: &Scene) -> Result<(), WriteFault> {
    match draw_scene(writer, scene) {
        Ok(()) => Ok(()),
        Err(_) => Err(WriteFault),
    }
}

fn draw_scene<W: Write>(out: &mut W, scene: &Scene) -> io::Result<()> {
    let facts = scene.facts;
    draw_sheet(out)?;
    writeln!(out, "<rect width=\"800\" height=\"480\" fill=\"#ffffff\"/>")?;
    draw_heading(out, scene)?;
    draw_totals(out, facts)?;
    draw_waiting(out, facts)?;
    draw_belts(out, facts)?;
    draw_presses(out, facts)?;
    draw_table(out, facts)?;
    draw_holders(out, facts)?;
    draw_robot(out, facts)?;
    draw_legend(out)?;
    draw_answer(out, scene.answer)?;
    writeln!(out, "</svg>")
}

/// Begins a file of 800 by 480 units.
pub fn draw_sheet<W: Write>(out: &mut W) -> io::Result<()> {
    writeln!(
        out,
        "<svg xmlns=\"http://www.w3.org/2000/svg\" viewBox=\"0 0 800 480\" width=\"800\" height=\"480\" \
         font-family=\"Helvetica, Arial, sans-serif\" font-size=\"13\" fill=\"#111111\">"
    )
}

fn draw_heading<W: Write>(out: &mut W, scene: &Scene) -> io::Result<()> {
    let word = if scene.entries == 1 {
        "entry"
    } else {
        "entries"
    };
    let count = scene.entries;
    writeln!(
        out,
        "<text x=\"20\" y=\"26\" font-size=\"16\" font-weight=\"bold\">After {count} {word}</text>"
    )?;
    match scene.last {
        Some(entry) => ink_text(out, xy(20, 46), EntrySentence(entry)),
        None => ink_text(out, xy(20, 46), "the opening"),
    }
}

fn draw_totals<W: Write>(out: &mut W, facts: &Facts) -> io::Result<()> {
    let totals = facts.totals;
    for (y, word, count) in [
        (84, "entries", totals.entries),
        (101, "admitted", totals.admitted),
        (118, "forged", totals.forged),
        (135, "delivered", totals.delivered),
        (152, "quarantined", totals.quarantined),
        (169, "reinstated", totals.reinstated),
    ] {
        ink_text(out, xy(20, y), word)?;
        ink_right(out, xy(165, y), count)?;
    }
    Ok(())
}

// What waits outside the cell.
fn draw_waiting<W: Write>(out: &mut W, facts: &Facts) -> io::Result<()> {
    ink_bold(out, xy(640, 84), "in quarantine")?;
    let word = if facts.quarantine == 1 {
        "plate"
    } else {
        "plates"
    };
    ink_text(
        out,
        xy(640, 101),
        format_args!("{} {word}", facts.quarantine),
    )?;
    ink_bold(out, xy(640, 126), "expected")?;
    match facts.expected {
        Some(plate) => ink_text(out, xy(640, 143), format_args!("plate {}", plate.number())),
        None => ink_text(out, xy(640, 143), "none"),
    }
}

// The zones, each with its two machines and its holder.
fn draw_holders<W: Write>(out: &mut W, facts: &Facts) -> io::Result<()> {
    ink_bold(out, xy(20, 396), "zone")?;
    ink_bold(out, xy(66, 396), "between")?;
    ink_bold(out, xy(200, 396), "held by")?;
    let rows = [412, 427, 442, 457, 472];
    for (zone, y) in ZONES.into_iter().zip(rows) {
        draw_holder(out, y, zone, facts)?;
    }
    Ok(())
}

fn draw_holder<W: Write>(out: &mut W, y: u32, zone: Zone, facts: &Facts) -> io::Result<()> {
    let holder = holder_at(facts, zone);
    draw_zone(out, zone, holder.is_some())?;
    ink_text(out, xy(20, y), zone_word(zone))?;
    let machines = (machine_name(owner(zone)), machine_name(visitor(zone)));
    ink_text(
        out,
        xy(66, y),
        format_args!("{}, {}", machines.0, machines.1),
    )?;
    match holder {
        Some(machine) => ink_text(out, xy(200, y), machine_name(machine)),
        None => ink_text(out, xy(200, y), "none"),
    }
}

fn draw_sample<W: Write>(out: &mut W, at: Spot, forged: bool, says: &str) -> io::Result<()> {
    if let Some(plate) = PlateId::new(7) {
        ink_place(out, at, Some(ShownPlate { plate, forged }))?;
    }
    ink_text(
        out,
        xy(at.x.saturating_add(32), at.y.saturating_add(4)),
        says,
    )
}

/// What the plates' signs mean.
pub fn draw_legend<W: Write>(out: &mut W) -> io::Result<()> {
    draw_sample(out, xy(223, 80), false, "not forged")?;
    draw_sample(out, xy(223, 112), true, "forged")
}

/// The line of an answer.
pub fn draw_answer<W: Write>(out: &mut W, answer: Option<AuditError>) -> io::Result<()> {
    match answer {
        Some(answer) => {
            let line = AnswerLine(answer);
            writeln!(
                out,
                "<text x=\"784\" y=\"470\" text-anchor=\"end\" font-size=\"15\" font-weight=\"bold\">{line}</text>"
            )
        }
        None => Ok(()),
    }
}
