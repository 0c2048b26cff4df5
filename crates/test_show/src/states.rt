//! The states that are drawn.
use cell_audit::AuditError;
use cell_drawing::draw_picture;
use cell_output::WatchedWriter;
use cell_picture::{Facts, Scene, ShownPlate, draw_text, facts_after};
use cell_show::Form;
use cell_types::{AxisState, Cause, Colour, Entry, Machine, PlateId, Pose, Totals};
use plate_book::{Book, Refusal};
use std::alloc::Global;
use std::io::Write;
use std::process::Abort;
use test_samples::book_all;

/// Plate 1 is forged in the first press, and plate 2 lies on the table.
pub const TWO_PLATES: [&str; 50] = [
    "lamp,feed,green,",
    "admitted,1,,",
    "started,feed_belt,to_end,",
    "conveyed,feed_belt,1,feed_end",
    "claimed,feed,z1,",
    "started,feed_belt,to_table,",
    "conveyed,feed_belt,1,table",
    "yielded,feed,z1,",
    "claimed,table,z1,",
    "claimed,table,z2,",
    "started,table_lift,high,",
    "arrived,table_lift,high,",
    "started,table_turn,robot,",
    "arrived,table_turn,robot,",
    "yielded,table,z1,",
    "yielded,table,z2,",
    "claimed,robot,z2,",
    "started,arm_one,out,",
    "arrived,arm_one,out,",
    "gripped,arm1,1,table",
    "started,arm_one,in,",
    "arrived,arm_one,in,",
    "yielded,robot,z2,",
    "claimed,robot,z3,",
    "started,robot_turn,p1_load,",
    "arrived,robot_turn,p1_load,",
    "started,arm_one,out,",
    "arrived,arm_one,out,",
    "dropped,arm1,1,press1",
    "started,arm_one,in,",
    "arrived,arm_one,in,",
    "yielded,robot,z3,",
    "claimed,press1,z3,",
    "started,press_one,top,",
    "forged,press1,1,",
    "claimed,table,z1,",
    "claimed,table,z2,",
    "started,table_turn,belt,",
    "arrived,table_turn,belt,",
    "started,table_lift,low,",
    "arrived,table_lift,low,",
    "yielded,table,z1,",
    "yielded,table,z2,",
    "lamp,feed,green,",
    "admitted,2,,",
    "started,feed_belt,to_end,",
    "conveyed,feed_belt,2,feed_end",
    "claimed,feed,z1,",
    "started,feed_belt,to_table,",
    "conveyed,feed_belt,2,table",
];

/// Plate 1 was cleared from the table and is expected, and the first press has failed.
pub const FAILED_PRESS: [&str; 14] = [
    "lamp,feed,green,",
    "admitted,1,,",
    "started,feed_belt,to_end,",
    "conveyed,feed_belt,1,feed_end",
    "claimed,feed,z1,",
    "started,feed_belt,to_table,",
    "conveyed,feed_belt,1,table",
    "yielded,feed,z1,",
    "declared,table,operator_stop,",
    "quarantined,1,table,",
    "repaired,table,,",
    "expected,1,,",
    "stop_asked,robot,,",
    "declared,press1,silent,",
];

/// Draws a scene as text, or as an SVG file. Whether that was done.
pub fn draws<W: Write>(writer: &mut W, scene: &Scene, form: Form) -> bool {
    match form {
        Form::Text => draw_text(&mut WatchedWriter::new(writer), scene, false).is_ok(),
        Form::Unicode => draw_text(&mut WatchedWriter::new(writer), scene, true).is_ok(),
        Form::Picture | Form::Page(_) | Form::Chart(_) | Form::TimedPage(_, _) | Form::Moving => {
            draw_picture(writer, scene).is_ok()
        }
    }
}

/// A scene as it is drawn.
pub fn drawn(rt: &impl Abort, alloc: Global, scene: &Scene, form: Form) -> String {
    let mut bytes = Vec::new(alloc);
    assert!(rt; draws(&mut bytes, scene, form), "{form:?}");
    String::from_utf8_lossy(alloc, bytes.as_slice()).expect(rt, "memory")
}

/// A book of these records.
pub fn booked(rt: &impl Abort, alloc: Global, records: &[&str]) -> Book {
    let mut book = Book::new(alloc, 100, 100).ok().expect(rt, "a book");
    book_all(&mut book, records).expect(rt, "a record that is allowed");
    book
}

/// The state after all of these records, with the last of their entries and this answer, as it is drawn.
pub fn drawn_after(
    rt: &impl Abort,
    alloc: Global,
    records: &[&str],
    answer: Option<AuditError>,
    form: Form,
) -> String {
    let book = booked(rt, alloc, records);
    let entries = book.journal().len();
    let (facts, last) = facts_after(&book, entries);
    let scene = Scene {
        facts: &facts,
        entries,
        last,
        answer,
    };
    drawn(rt, alloc, &scene, form)
}

/// What is drawn with the longest words and the largest numbers.
pub fn largest() -> Facts {
    let shown = PlateId::new(100_000).map(|plate| ShownPlate {
        plate,
        forged: true,
    });
    let going = |at, to| AxisState {
        at,
        going: Some(to),
    };
    Facts {
        plates: [shown; 9],
        axes: [
            going(Pose::Rest, Pose::ToTable),
            going(Pose::Low, Pose::High),
            going(Pose::Robot, Pose::Belt),
            going(Pose::P1Unload, Pose::P2Unload),
            going(Pose::In, Pose::Out),
            going(Pose::Out, Pose::In),
            going(Pose::Bottom, Pose::Middle),
            going(Pose::Middle, Pose::Top),
            going(Pose::Rest, Pose::ToEnd),
        ],
        holders: [Some(Machine::Deposit); 5],
        failed: [true, false, false, true, false, true],
        asked: [false, true, true, false, true, false],
        lamps: [Colour::Green; 2],
        expected: PlateId::new(100_000),
        quarantine: 1_000_006,
        totals: Totals {
            entries: 1_000_006,
            admitted: 1_000_006,
            forged: 1_000_006,
            quarantined: 1_000_006,
            delivered: 1_000_006,
            reinstated: 1_000_006,
        },
    }
}

/// The scene of these facts with the longest lines.
pub fn longest(facts: &Facts) -> Scene<'_> {
    Scene {
        facts,
        entries: 1_000_006,
        last: Some(Entry::Declared {
            machine: Machine::Deposit,
            cause: Cause::StuckSwitch,
        }),
        answer: Some(AuditError::Refused(1_000_006, Refusal::MachineFailed(Machine::Deposit))),
    }
}
