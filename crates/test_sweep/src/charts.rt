//! The tests of `cell_charts`: a sweep of three runs, one without runs, what isn't drawn, the escapes of a name, and
//! the bars of two journals whose measures are known.
use cell_charts::{Bar, Square, write_measures_chart, write_sweep_chart};
use cell_measures::{Measures, Spent};
use cell_sim::{Fault, PlannedFault};
use cell_types::Axis;
use cell_workers::End;
use std::io;
use std::process::Abort;
use test_samples::FailingWriter;

const KINDS: [Fault; 2] = [Fault::NoMotion, Fault::Slow(30)];

// The run with a fault in a motion of an axis.
fn square(axis: Axis, motion: u32, fault: Fault, end: End) -> Square {
    Square {
        fault: PlannedFault {
            axis,
            motion,
            fault,
        },
        end,
    }
}

// The text of what was written.
fn text_of<R: AllocGlobal + Abort>(rt: &R, bytes: Vec<u8>, answer: io::Result<()>) -> String {
    assert!(rt; answer.is_ok());
    let text = String::from_utf8(bytes).expect(rt, "words");
    assert!(rt;
        text.as_str()
            .starts_with("<svg xmlns=\"http://www.w3.org/2000/svg\" viewBox=\"0 0 ")
    );
    assert!(rt; text.as_str().ends_with("</svg>\n"));
    text
}

// The chart of these runs.
fn swept<R: AllocGlobal + Abort>(rt: &R, squares: &[Square]) -> String {
    let mut bytes = Vec::new(rt.alloc());
    let answer = write_sweep_chart(&mut bytes, &KINDS, squares);
    text_of(rt, bytes, answer)
}

// These parts stand in a text.
fn has<R: AllocGlobal + Abort>(rt: &R, text: &String, parts: &[&str]) {
    for part in parts {
        assert!(rt; text.as_str().find(*part).is_some(), "{part}");
    }
}

// How many squares a chart has, with the four of its legend.
fn count_squares(text: &String) -> usize {
    text.as_str().matches("<g><title>").count()
}

#[test]
fn three_runs(rt: HostRuntime) {
    let text = swept(
        &rt,
        &[
            square(Axis::FeedBelt, 1, Fault::NoMotion, End::Stalled),
            square(Axis::FeedBelt, 2, Fault::Slow(30), End::Finished),
            square(Axis::TableLift, 1, Fault::Slow(30), End::Stalled),
        ],
    );
    assert!(&rt; count_squares(&text) == 7);
    has(
        &rt,
        &text,
        &[
            "<title>feed_belt, motion 1, no_motion: stalled</title>\
             <rect x=\"176\" y=\"96\" width=\"11\" height=\"11\" fill=\"#e69f00\"/>\
             <path d=\"M176 96m3 3l5 5m0-5l-5 5\" stroke=\"#111111\"/>",
            "<title>feed_belt, motion 2, slow:30: finished</title>\
             <rect x=\"189\" y=\"109\" width=\"11\" height=\"11\" fill=\"#b5dcf2\"/>\
             <path d=\"M189 109m4.5 4.5h2v2h-2z\" stroke=\"#111111\"/>",
            "<title>table_lift, motion 1, slow:30: stalled</title><rect x=\"176\" y=\"144\"",
            ">3 runs, each with one fault</text>",
            ">finished 1</text>",
            ">stalled 2</text>",
            ">turn limit 0</text>",
            ">full 0</text>",
        ],
    );
}

#[test]
fn no_runs(rt: HostRuntime) {
    let text = swept(&rt, &[]);
    assert!(&rt; count_squares(&text) == 4);
    has(
        &rt,
        &text,
        &[">0 runs, each with one fault</text>", ">stalled 0</text>"],
    );
    assert!(&rt; text.as_str().find("Not drawn").is_none());
}

// A late motion and a kind that isn't in the list have no square, but are counted.
#[test]
fn runs_without_a_place(rt: HostRuntime) {
    let text = swept(
        &rt,
        &[
            square(Axis::DepositBelt, 1_000_000, Fault::NoMotion, End::Full),
            square(Axis::DepositBelt, 1, Fault::Both, End::TurnLimit),
            square(Axis::DepositBelt, 200, Fault::NoMotion, End::Memory),
        ],
    );
    assert!(&rt; count_squares(&text) == 6);
    has(
        &rt,
        &text,
        &[
            ">full 1</text>",
            ">turn limit 1</text>",
            ">memory 1</text>",
            "deposit_belt, motion 200, no_motion: memory",
            ">Not drawn: 2 of the runs, with a motion above 200 or a kind behind the first 30</text>",
        ],
    );
}

// A machine that moves 3 of 10 units, waits 2 and is idle then.
const MOVES: Spent = Spent {
    failed: 0,
    moving: 3,
    waiting: 2,
    holding: 0,
    idle: 5,
};

// A machine that holds a zone for 1 of 5 units and then fails.
const FAILS: Spent = Spent {
    failed: 4,
    moving: 0,
    waiting: 0,
    holding: 1,
    idle: 0,
};

// Two journals, the second of this name.
fn bars_of<'a>(name: &'a str, measures: &'a [Measures; 2]) -> [Bar<'a>; 2] {
    [
        Bar {
            name: "one",
            measures: &measures[0],
        },
        Bar {
            name,
            measures: &measures[1],
        },
    ]
}

// The chart of two journals, the second of this name.
fn measured<R: AllocGlobal + Abort>(rt: &R, name: &'static str) -> String {
    let measures = [
        Measures {
            entries: 7,
            time: 10,
            machines: [MOVES; 6],
            ..Measures::NONE
        },
        Measures {
            time: 5,
            machines: [FAILS; 6],
            ..Measures::NONE
        },
    ];
    let mut bytes = Vec::new(rt.alloc());
    let answer = write_measures_chart(&mut bytes, &bars_of(name, &measures));
    text_of(rt, bytes, answer)
}

// The axis is 660 wide and begins at 80: a unit of 10 is 66 wide.
#[test]
fn two_journals(rt: HostRuntime) {
    let text = measured(&rt, "two");
    has(
        &rt,
        &text,
        &[
            "<title>one, feed moving: 3 of 10</title>\
             <rect x=\"80.0\" y=\"128\" width=\"198.0\" height=\"12\" fill=\"#56a3d9\"",
            "<title>one, feed waiting: 2 of 10</title>\
             <rect x=\"278.0\" y=\"128\" width=\"132.0\" height=\"12\" fill=\"url(#waiting)\"",
            "<title>one, deposit idle: 5 of 10</title><rect x=\"410.0\" y=\"203\" width=\"330.0\"",
            "<title>two, press1 holding: 1 of 5</title><rect x=\"80.0\"",
            "<title>two, press1 failed: 4 of 5</title><rect x=\"146.0\"",
            ">entries 7, time 10, delivered 0</text>",
        ],
    );
    // Five parts of two journals' machines are longer than 0: three of the first's, two of the second's.
    assert!(&rt; count_squares(&text) == 30);
}

#[test]
fn names_are_escaped(rt: HostRuntime) {
    let text = measured(&rt, "<a&\"b\">\u{1}");
    has(&rt, &text, &[">&lt;a&amp;&quot;b&quot;&gt;\\u0001</text>"]);
}

#[test]
fn a_long_name_is_cut(rt: HostRuntime) {
    let name = "01234567890123456789012345678901234567890123456789012345678\u{e9}xyz";
    let text = measured(&rt, name);
    has(&rt, &text, &["678\u{e9}...</text>"]);
}

// No journals make a chart too, and one whose time is 2^64 - 1.
#[test]
fn the_least_and_the_most(rt: HostRuntime) {
    let mut bytes = Vec::new(rt.alloc());
    let answer = write_measures_chart(&mut bytes, &[]);
    let _ = text_of(&rt, bytes, answer);
    let spent = Spent {
        moving: u64::MAX,
        waiting: u64::MAX,
        ..MOVES
    };
    let long = Measures {
        time: u64::MAX,
        machines: [spent; 6],
        ..Measures::NONE
    };
    let bar = Bar {
        name: "long",
        measures: &long,
    };
    let mut bytes = Vec::new(rt.alloc());
    let answer = write_measures_chart(&mut bytes, &[bar; 101]);
    let text = text_of(&rt, bytes, answer);
    has(
        &rt,
        &text,
        &["width=\"660.0\"", "Not drawn: the last 1 of the journals"],
    );
}

// A writer that fails is told.
#[test]
fn a_writer_that_fails(rt: HostRuntime) {
    let squares = [square(Axis::ArmOne, 3, Fault::NoMotion, End::Full)];
    for left in [0, 1, 900, 2000] {
        let mut writer = FailingWriter::new(io::sink(), left);
        assert!(&rt; write_sweep_chart(&mut writer, &KINDS, &squares).is_err());
        let mut writer = FailingWriter::new(io::sink(), left.min(900));
        assert!(&rt; write_measures_chart(&mut writer, &[]).is_err());
    }
}
