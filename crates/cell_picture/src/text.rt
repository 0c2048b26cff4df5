//! The picture of the cell as text.
ghost use Rattle.std.specs.Prelude.{◌≡◌, true, IsErr};
ghost use Rattle.cell_output.specs.Watched.{IsSameWriter, has_refused};

use crate::parts::{axis_at, holder_at, is_asked, is_failed, lamp_at, plate_at};
use crate::sheet::{Area, COLUMNS, ROWS, Sheet, Sign};
use crate::{AnswerLine, Facts, Scene, ShownPlate};
use arrayvec::ArrayString;
use cell_output::{WatchedWriter, WriteFault};
use cell_sentences::{EntrySentence, arm_name, colour_name, machine_name};
use cell_types::texts::{machine_word, pose_word, zone_word};
use cell_types::{
    Arm, Axis, AxisState, Belt, Machine, PRESS1, PRESS2, Press, Station, ZONES, axis_of_arm, owner,
    station_of_arm, visitor,
};
use std::fmt;
use std::fmt::Write as _;
use std::io::Write;

const FEED: Area = Area {
    top: 9,
    left: 0,
    width: 17,
    height: 8,
};

const TABLE: Area = Area {
    top: 9,
    left: 18,
    width: 18,
    height: 8,
};

const ROBOT: Area = Area {
    top: 9,
    left: 37,
    width: 23,
    height: 8,
};

const DEPOSIT: Area = Area {
    top: 9,
    left: 61,
    width: 17,
    height: 8,
};

const PRESS_ONE: Area = Area {
    top: 3,
    left: 37,
    width: 23,
    height: 6,
};

const PRESS_TWO: Area = Area {
    top: 17,
    left: 37,
    width: 23,
    height: 6,
};

// How many rows the picture has without an answer, which stands below them.
const PICTURE_ROWS: usize = 23;

// The most bytes of an entry's sentence, and more.
const SENTENCE: usize = 160;

/// Draws a scene as text of at most 24 lines of at most 78 columns: the machines as they stand in the cell, each with
/// its plates, its axes and what is booked of it, and beside them the zones' holders and the counts. The answer stands
/// in the last line, where there is one. Frames and arrows are of ASCII, or of Unicode where that is asked for.
///
/// The writer notes whether a write of it was refused. After `WriteFault` a first part of the text was written.
pub fn draw_text<W: Write>(
    writer: &mut WatchedWriter<'_, W>,
    scene: &Scene,
    unicode: bool,
) -> Result<(), WriteFault>
    ensures writer { IsSameWriter writer.old writer.new }
    // It fails only where a write was refused.
    ensures fault { IsErr result → has_refused writer.new ≡ true }
{
    let mut sheet = Sheet::blank();
    let rows = match scene.answer {
        Some(_) => ROWS,
        None => PICTURE_ROWS,
    };
    // A sheet takes what is put on it, so no error comes here.
    let _ = put_scene(&mut sheet, scene);
    sheet.print(writer, rows, unicode)
}

fn put_scene(sheet: &mut Sheet, scene: &Scene) -> fmt::Result {
    put_heading(sheet, scene)?;
    put_totals(sheet, scene.facts)?;
    put_waiting(sheet, scene.facts)?;
    put_press(sheet, scene.facts, PRESS1, PRESS_ONE)?;
    put_feed(sheet, scene.facts)?;
    put_table(sheet, scene.facts)?;
    put_robot(sheet, scene.facts)?;
    put_deposit(sheet, scene.facts)?;
    put_press(sheet, scene.facts, PRESS2, PRESS_TWO)?;
    put_zones(sheet, scene.facts)?;
    put_legend(sheet)?;
    put_answer(sheet, scene)
}

fn put_heading(sheet: &mut Sheet, scene: &Scene) -> fmt::Result {
    sheet.go_to(0, 0, COLUMNS);
    match scene.entries {
        1 => write!(sheet, "After 1 entry")?,
        entries => write!(sheet, "After {entries} entries")?,
    }
    match scene.last {
        Some(entry) => {
            write!(sheet, ". The last:")?;
            let mut sentence = ArrayString::<SENTENCE>::new();
            write!(sentence, "{}", EntrySentence(entry))?;
            sheet.put_words(1, sentence.as_str())
        }
        None => write!(sheet, ": the opening"),
    }
}

// The counts, left of the first press.
fn put_totals(sheet: &mut Sheet, facts: &Facts) -> fmt::Result {
    let totals = facts.totals;
    for (row, word, count) in [
        (3, "entries", totals.entries),
        (4, "admitted", totals.admitted),
        (5, "forged", totals.forged),
        (6, "delivered", totals.delivered),
        (7, "quarantined", totals.quarantined),
        (8, "reinstated", totals.reinstated),
    ] {
        sheet.go_to(row, 2, ROBOT.left);
        write!(sheet, "{word:<12}{count:>7}")?;
    }
    Ok(())
}

// What waits outside, right of the first press.
fn put_waiting(sheet: &mut Sheet, facts: &Facts) -> fmt::Result {
    sheet.go_to(4, DEPOSIT.left, COLUMNS);
    write!(sheet, "in quarantine:")?;
    sheet.go_to(5, DEPOSIT.left, COLUMNS);
    match facts.quarantine {
        1 => write!(sheet, "  1 plate")?,
        count => write!(sheet, "  {count} plates")?,
    }
    sheet.go_to(6, DEPOSIT.left, COLUMNS);
    write!(sheet, "expected:")?;
    sheet.go_to(7, DEPOSIT.left, COLUMNS);
    match facts.expected {
        Some(plate) => write!(sheet, "  plate {}", plate.number()),
        None => write!(sheet, "  none"),
    }
}

// The frame of a machine, its name, and in the line below it whether it is booked failed or a stop is asked of it. In a
// legal journal no stop is asked of a failed machine.
fn put_machine(sheet: &mut Sheet, facts: &Facts, area: Area, machine: Machine) -> fmt::Result {
    sheet.put_frame(area);
    sheet.go_inside(area, 1);
    write!(sheet, "{}", machine_name(machine))?;
    sheet.go_inside(area, 2);
    if is_failed(facts, machine) {
        write!(sheet, "FAILED")
    } else if is_asked(facts, machine) {
        write!(sheet, "stop asked")
    } else {
        Ok(())
    }
}

fn put_plate(sheet: &mut Sheet, shown: Option<ShownPlate>) -> fmt::Result {
    match shown {
        Some(
            ShownPlate {
                plate,
                forged: true,
            },
        ) => write!(sheet, "{}*", plate.number()),
        Some(ShownPlate { plate, .. }) => write!(sheet, "{}", plate.number()),
        None => write!(sheet, "-"),
    }
}

// The pose that an axis has; where it goes, the pose that it has left and that to which it goes.
fn put_axis(sheet: &mut Sheet, state: AxisState) -> fmt::Result {
    write!(sheet, "{}", pose_word(state.at))?;
    match state.going {
        Some(to) => {
            sheet.put(Sign::Arrow);
            write!(sheet, "{}", pose_word(to))
        }
        None => Ok(()),
    }
}

fn put_feed(sheet: &mut Sheet, facts: &Facts) -> fmt::Result {
    put_machine(sheet, facts, FEED, Machine::Feed)?;
    sheet.go_inside(FEED, 3);
    write!(sheet, "light {}", colour_name(lamp_at(facts, Belt::Feed)))?;
    sheet.go_inside(FEED, 4);
    put_axis(sheet, axis_at(facts, Axis::FeedBelt))?;
    sheet.go_inside(FEED, 5);
    write!(sheet, "start ")?;
    put_plate(sheet, plate_at(facts, Station::FeedIn))?;
    sheet.go_inside(FEED, 6);
    write!(sheet, "end   ")?;
    put_plate(sheet, plate_at(facts, Station::FeedEnd))
}

fn put_table(sheet: &mut Sheet, facts: &Facts) -> fmt::Result {
    put_machine(sheet, facts, TABLE, Machine::Table)?;
    put_flow(sheet, TABLE);
    sheet.go_inside(TABLE, 3);
    write!(sheet, "lift ")?;
    put_axis(sheet, axis_at(facts, Axis::TableLift))?;
    sheet.go_inside(TABLE, 4);
    write!(sheet, "turn ")?;
    put_axis(sheet, axis_at(facts, Axis::TableTurn))?;
    sheet.go_inside(TABLE, 6);
    write!(sheet, "plate ")?;
    put_plate(sheet, plate_at(facts, Station::Table))
}

fn put_robot(sheet: &mut Sheet, facts: &Facts) -> fmt::Result {
    put_machine(sheet, facts, ROBOT, Machine::Robot)?;
    put_flow(sheet, ROBOT);
    sheet.go_inside(ROBOT, 3);
    write!(sheet, "turned to")?;
    sheet.go_inside(ROBOT, 4);
    put_axis(sheet, axis_at(facts, Axis::RobotTurn))?;
    sheet.go_inside(ROBOT, 5);
    put_arm(sheet, facts, Arm::Arm1)?;
    sheet.go_inside(ROBOT, 6);
    put_arm(sheet, facts, Arm::Arm2)
}

fn put_arm(sheet: &mut Sheet, facts: &Facts, arm: Arm) -> fmt::Result {
    write!(sheet, "{} ", arm_name(arm))?;
    put_axis(sheet, axis_at(facts, axis_of_arm(arm)))?;
    write!(sheet, " ")?;
    put_plate(sheet, plate_at(facts, station_of_arm(arm)))
}

fn put_deposit(sheet: &mut Sheet, facts: &Facts) -> fmt::Result {
    put_machine(sheet, facts, DEPOSIT, Machine::Deposit)?;
    put_flow(sheet, DEPOSIT);
    sheet.go_inside(DEPOSIT, 3);
    write!(
        sheet,
        "light {}",
        colour_name(lamp_at(facts, Belt::Deposit))
    )?;
    sheet.go_inside(DEPOSIT, 4);
    put_axis(sheet, axis_at(facts, Axis::DepositBelt))?;
    sheet.go_inside(DEPOSIT, 5);
    write!(sheet, "start ")?;
    put_plate(sheet, plate_at(facts, Station::DepIn))?;
    sheet.go_inside(DEPOSIT, 6);
    write!(sheet, "end   ")?;
    put_plate(sheet, plate_at(facts, Station::DepEnd))
}

fn put_press(sheet: &mut Sheet, facts: &Facts, press: Press, area: Area) -> fmt::Result {
    put_machine(sheet, facts, area, press.machine)?;
    sheet.go_inside(area, 3);
    put_axis(sheet, axis_at(facts, press.axis))?;
    sheet.go_inside(area, 4);
    write!(sheet, "plate ")?;
    put_plate(sheet, plate_at(facts, press.station))
}

// An arrow before a machine, from where its plates come.
fn put_flow(sheet: &mut Sheet, area: Area) {
    sheet.go_to(
        area.top.saturating_add(1),
        area.left.saturating_sub(1),
        area.left,
    );
    sheet.put(Sign::Arrow);
}

// The zones and their holders, left of the second press.
fn put_zones(sheet: &mut Sheet, facts: &Facts) -> fmt::Result {
    sheet.go_to(PRESS_TWO.top, 2, PRESS_TWO.left);
    write!(sheet, "zone  between         held by")?;
    for (row, zone) in (PRESS_TWO.top + 1..).zip(ZONES) {
        sheet.go_to(row, 2, 8);
        write!(sheet, "{}", zone_word(zone))?;
        sheet.go_to(row, 8, 24);
        write!(
            sheet,
            "{}, {}",
            machine_word(owner(zone)),
            machine_word(visitor(zone))
        )?;
        sheet.go_to(row, 24, PRESS_TWO.left);
        match holder_at(facts, zone) {
            Some(machine) => write!(sheet, "{}", machine_word(machine))?,
            None => write!(sheet, "-")?,
        }
    }
    Ok(())
}

// What the signs mean, right of the second press.
fn put_legend(sheet: &mut Sheet) -> fmt::Result {
    sheet.go_to(PRESS_TWO.top + 3, DEPOSIT.left, COLUMNS);
    write!(sheet, "7*  forged")?;
    sheet.go_to(PRESS_TWO.top + 4, DEPOSIT.left, COLUMNS);
    write!(sheet, "a")?;
    sheet.put(Sign::Arrow);
    write!(sheet, "b goes to b")
}

fn put_answer(sheet: &mut Sheet, scene: &Scene) -> fmt::Result {
    sheet.go_to(ROWS - 1, 0, COLUMNS);
    match scene.answer {
        Some(answer) => write!(sheet, "{}", AnswerLine(answer)),
        None => Ok(()),
    }
}
