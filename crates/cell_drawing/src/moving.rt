//! A journal that plays in a loop, as one SVG file: it moves by CSS alone.
mod floor;
mod keys;
mod look;
mod part;
mod play;

use crate::moving::floor::{draw_floor, draw_plates, draw_robot, draw_words};
use crate::moving::keys::write_keys;
use crate::moving::part::{Count, Part};
use crate::moving::play::{BEAT, Reel};
use crate::picture::{draw_answer, draw_legend, draw_sheet};
use cell_audit::AuditError;
use cell_journal::Journal;
use cell_output::WriteFault;
use cell_types::{Axis, Belt, Colour, Machine, PRESS1, PRESS2, Pose, Station, Zone};
use std::io;
use std::io::Write;

// All parts that change.
const PARTS: [Part; 66] = [
    Part::Upright,
    Part::Sentence,
    Part::Counted(Count::Admitted),
    Part::Counted(Count::Forged),
    Part::Counted(Count::Delivered),
    Part::Counted(Count::Quarantined),
    Part::Moved(Axis::FeedBelt),
    Part::Moved(Axis::TableLift),
    Part::Moved(Axis::TableTurn),
    Part::Moved(Axis::RobotTurn),
    Part::Moved(Axis::ArmOne),
    Part::Moved(Axis::ArmTwo),
    Part::Moved(Axis::PressOne),
    Part::Moved(Axis::PressTwo),
    Part::Moved(Axis::DepositBelt),
    Part::Height(Axis::TableLift),
    Part::Height(Axis::PressOne),
    Part::Height(Axis::PressTwo),
    Part::Glow(PRESS1),
    Part::Glow(PRESS2),
    Part::Lamp(Belt::Feed, Colour::Red),
    Part::Lamp(Belt::Feed, Colour::Green),
    Part::Lamp(Belt::Deposit, Colour::Red),
    Part::Lamp(Belt::Deposit, Colour::Green),
    Part::Going(Axis::FeedBelt, Pose::ToEnd),
    Part::Going(Axis::FeedBelt, Pose::ToTable),
    Part::Going(Axis::DepositBelt, Pose::ToEnd),
    Part::Held(Zone::Z1),
    Part::Held(Zone::Z2),
    Part::Held(Zone::Z3),
    Part::Held(Zone::Z4),
    Part::Held(Zone::Z5),
    Part::Failed(Machine::Feed),
    Part::Asked(Machine::Feed),
    Part::Failed(Machine::Table),
    Part::Asked(Machine::Table),
    Part::Failed(Machine::Robot),
    Part::Asked(Machine::Robot),
    Part::Failed(Machine::Press1),
    Part::Asked(Machine::Press1),
    Part::Failed(Machine::Press2),
    Part::Asked(Machine::Press2),
    Part::Failed(Machine::Deposit),
    Part::Asked(Machine::Deposit),
    Part::Plate(Station::FeedIn, false),
    Part::Number(Station::FeedIn, false),
    Part::Plate(Station::FeedEnd, false),
    Part::Number(Station::FeedEnd, false),
    Part::Plate(Station::Table, false),
    Part::Number(Station::Table, false),
    Part::Plate(Station::Arm1, false),
    Part::Number(Station::Arm1, false),
    Part::Plate(Station::Arm2, true),
    Part::Number(Station::Arm2, true),
    Part::Plate(Station::Press1, false),
    Part::Number(Station::Press1, false),
    Part::Plate(Station::Press1, true),
    Part::Number(Station::Press1, true),
    Part::Plate(Station::Press2, false),
    Part::Number(Station::Press2, false),
    Part::Plate(Station::Press2, true),
    Part::Number(Station::Press2, true),
    Part::Plate(Station::DepIn, true),
    Part::Number(Station::DepIn, true),
    Part::Plate(Station::DepEnd, true),
    Part::Number(Station::DepEnd, true),
];

/// Draws the first `entries` entries of a journal as one SVG file of 800 by 480 units, in which they play in a loop by
/// CSS alone, where the reader hasn't asked for less motion: axes move evenly from where they set out to where they
/// arrive, and carry plates along; lights, zones, marks of failed machines, counts and sentences change at their
/// entries. Where nothing moves it shows the opening. An entry takes 0.05 seconds, one that ends a motion 0.2, and what
/// a failure or the operator has changed is seen for 1.2 more. The answer's line stands in it, if there is one.
///
/// `WriteFault` is meant for a writer that failed, and no clause says so; a first part of the file was written then.
/// It takes no memory.
pub fn draw_moving<W: Write>(
    writer: &mut W,
    journal: &Journal,
    entries: u32,
    answer: Option<AuditError>,
) -> Result<(), WriteFault> {
    match draw_reel(writer, Reel::new(journal, entries), answer) {
        Ok(()) => Ok(()),
        Err(_) => Err(WriteFault),
    }
}

fn draw_reel<W: Write>(out: &mut W, reel: Reel<'_>, answer: Option<AuditError>) -> io::Result<()> {
    draw_sheet(out)?;
    write_style(out, reel)?;
    draw_ground(out)?;
    draw_words(out, reel)?;
    draw_floor(out)?;
    draw_robot(out, reel)?;
    draw_plates(out, reel)?;
    draw_legend(out)?;
    draw_answer(out, answer)?;
    writeln!(out, "</svg>")
}

// Writes how all parts change.
fn write_style<W: Write>(out: &mut W, reel: Reel<'_>) -> io::Result<()> {
    let time = u64::from(reel.total).saturating_mul(u64::from(BEAT));
    writeln!(
        out,
        "<style>@media (prefers-reduced-motion:no-preference){{\n\
         .E{{animation:{time}ms linear infinite}}.S{{animation:{time}ms steps(1) infinite}}\n\
         .t{{animation-name:t}}@keyframes t{{100%{{transform:scaleX(1)}}}}"
    )?;
    for part in PARTS {
        write_keys(out, reel, part)?;
    }
    writeln!(out, "}}</style>")
}

// Draws the ground, the windows through which texts are seen, and a bar that tells how much of the time is over.
fn draw_ground<W: Write>(out: &mut W) -> io::Result<()> {
    writeln!(
        out,
        "<clipPath id=\"plate\"><rect x=\"-22\" y=\"-12\" width=\"44\" height=\"24\"/></clipPath>\n\
         <clipPath id=\"count\"><rect x=\"-90\" y=\"-14\" width=\"92\" height=\"20\"/></clipPath>\n\
         <clipPath id=\"told\"><rect x=\"-4\" y=\"-15\" width=\"780\" height=\"21\"/></clipPath>\n\
         <rect width=\"800\" height=\"480\" rx=\"8\" fill=\"#ffffff\"/>\n\
         <rect x=\"20\" y=\"474\" width=\"760\" height=\"3\" fill=\"#e4e7ec\"/>\n\
         <rect class=\"E t\" x=\"20\" y=\"474\" width=\"760\" height=\"3\" fill=\"#667085\" \
         transform=\"scale(0 1)\" style=\"transform-origin:20px 0\"/>"
    )
}
