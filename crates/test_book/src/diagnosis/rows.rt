//! Worked examples: what a watch answers at the last of some readings, Pending at those before.
use cell_diagnosis::{AxisWatch, Expect, Limits, Motion, Reading, RestWatch, Verdict};
use cell_types::{Axis, Cause, Machine, Pose};
use std::process::Abort;

// A case: the motion with its two limits, or a press that is expected to rest in the middle, empty or full; the
// readings at which the watch answers Pending; those that follow; and what it answers at each of these. A reading is
// what it shows, joined by `+`: switches by their poses, and where a plate is: at the start of a belt, at its end, on
// the table after it, or `plate` in the press. `none` shows nothing, and `missing` is no reading.

const FOLLOWED: [&str; 18] = [
    "press_one middle>top 3 5|middle none none|top|arrived",
    "press_one middle>top 3 5|middle middle|middle|no_departure",
    "press_one middle>top 3 5|middle+top|top|stuck_switch",
    "press_one middle>top 3 5|middle none none none|none|missing_motion",
    "press_one middle>top 3 20|middle top+bottom none|top|arrived",
    "press_one middle>top 3 20|middle top+bottom|top+bottom|contradictory",
    "press_one middle>top 3 20|middle bottom|bottom|stray_position",
    "press_one middle>top 3 20|middle missing missing|missing|silent",
    "press_one middle>top 2 3|missing top|top|missing_motion",
    "feed_belt rest>to_end 3 20|start none|end|arrived",
    "feed_belt rest>to_end 3 20|start start+end|start+end|stuck_switch",
    "feed_belt rest>to_table 3 20|end none|start+table|arrived",
    "deposit_belt rest>to_end 3 20|start none|end|arrived",
    "robot_turn table1>p2_load 3 20|table1 none p1_load p1_unload|p2_load|arrived",
    "robot_turn table1>p2_load 3 20|table1 p2_unload|p2_unload|stray_position",
    "press_one top>bottom 3 20|top middle middle|bottom|arrived",
    // A verdict stays.
    "press_one middle>top 3 5|middle|top bottom bottom missing missing missing middle|arrived",
    "press_one middle>top 3 5|middle+top|top bottom bottom missing missing missing middle|stuck_switch",
];

const AT_REST: [&str; 8] = [
    "press1 rests empty|top|top|lost_position",
    "press1 rests empty|top middle|top|pending",
    "press1 rests empty|middle+top|middle+top|contradictory",
    "press1 rests empty|none|middle+top|lost_position",
    "press1 rests full|middle|middle|plate_lost",
    "press1 rests empty|middle+plate|middle+plate|strange_plate",
    "press1 rests empty|missing missing|missing|silent",
    // A verdict stays.
    "press1 rests empty|missing missing|missing top bottom bottom missing missing missing middle|silent",
];

// Readings of a press that rests, what its watch answers, and whether the reading agreed.
const AGREED: [(&str, &str, bool); 7] = [
    ("middle", "pending", true),
    ("missing", "pending", false),
    ("top", "pending", false),
    ("missing", "pending", false),
    ("missing", "pending", false),
    ("missing", "silent", false),
    ("middle", "silent", true),
];

// Limits, and whether they are in their ranges.
const RANGES: [(u16, u16, bool); 6] = [
    (2, 3, true),
    (999, 1000, true),
    (1, 3, false),
    (3, 3, false),
    (3, 1001, false),
    (1000, 1000, false),
];

const MOTIONS: [(&str, Axis, Pose, Pose, [u16; 2]); 8] = [
    (
        "press_one middle>top 3 5",
        Axis::PressOne,
        Pose::Middle,
        Pose::Top,
        [3, 5],
    ),
    (
        "press_one middle>top 3 20",
        Axis::PressOne,
        Pose::Middle,
        Pose::Top,
        [3, 20],
    ),
    (
        "press_one middle>top 2 3",
        Axis::PressOne,
        Pose::Middle,
        Pose::Top,
        [2, 3],
    ),
    (
        "press_one top>bottom 3 20",
        Axis::PressOne,
        Pose::Top,
        Pose::Bottom,
        [3, 20],
    ),
    (
        "feed_belt rest>to_end 3 20",
        Axis::FeedBelt,
        Pose::Rest,
        Pose::ToEnd,
        [3, 20],
    ),
    (
        "feed_belt rest>to_table 3 20",
        Axis::FeedBelt,
        Pose::Rest,
        Pose::ToTable,
        [3, 20],
    ),
    (
        "deposit_belt rest>to_end 3 20",
        Axis::DepositBelt,
        Pose::Rest,
        Pose::ToEnd,
        [3, 20],
    ),
    (
        "robot_turn table1>p2_load 3 20",
        Axis::RobotTurn,
        Pose::Table1,
        Pose::P2Load,
        [3, 20],
    ),
];

const VERDICTS: [(&str, Verdict); 11] = [
    ("pending", Verdict::Pending),
    ("arrived", Verdict::Arrived),
    ("stuck_switch", Verdict::Fault(Cause::StuckSwitch)),
    ("contradictory", Verdict::Fault(Cause::Contradictory)),
    ("stray_position", Verdict::Fault(Cause::StrayPosition)),
    ("no_departure", Verdict::Fault(Cause::NoDeparture)),
    ("missing_motion", Verdict::Fault(Cause::MissingMotion)),
    ("lost_position", Verdict::Fault(Cause::LostPosition)),
    ("plate_lost", Verdict::Fault(Cause::PlateLost)),
    ("strange_plate", Verdict::Fault(Cause::StrangePlate)),
    ("silent", Verdict::Fault(Cause::Silent)),
];

// What a reading shows: the bit of the machine's first axis, and the presence bit.
const SHOWN: [(&str, u8, u8); 13] = [
    ("none", 0, 0),
    ("middle", 1, 0),
    ("top", 2, 0),
    ("bottom", 4, 0),
    ("table1", 1, 0),
    ("p1_load", 2, 0),
    ("p1_unload", 4, 0),
    ("p2_load", 8, 0),
    ("p2_unload", 16, 0),
    ("start", 0, 1),
    ("end", 0, 2),
    ("table", 0, 4),
    ("plate", 0, 1),
];

/// A press is expected to rest in the middle with no plate.
const MIDDLE_EMPTY: Expect = Expect {
    poses: [Some(Pose::Middle), None, None],
    must: 0,
    may: 0,
};

/// The same with a plate.
const MIDDLE_FULL: Expect = Expect {
    must: 1,
    ..MIDDLE_EMPTY
};

/// A watch of a motion, or of a press that is expected to rest so.
#[derive(Clone, Copy)]
enum Watcher {
    Moving(AxisWatch),
    Resting(RestWatch, Expect),
}

fn part(case: &str, place: usize) -> &str {
    case.split('|').nth(place).unwrap_or("")
}

/// The bits that a word shows.
fn shown(rt: &impl Abort, word: &str) -> (u8, u8) {
    for &(name, switch, station) in &SHOWN {
        if name == word {
            return (switch, station);
        }
    }
    panic!(rt; "{word}")
}

fn reading_of(rt: &impl Abort, text: &str) -> Option<Reading> {
    if text == "missing" {
        return None;
    }
    let (mut switches, mut presence) = (0u8, 0u8);
    for word in text.split('+') {
        let (switch, station) = shown(rt, word);
        switches |= switch;
        presence |= station;
    }
    Some(Reading {
        switches: [switches, 0, 0],
        presence,
    })
}

fn verdict_of(rt: &impl Abort, word: &str) -> Verdict {
    for &(name, verdict) in &VERDICTS {
        if name == word {
            return verdict;
        }
    }
    panic!(rt; "{word}")
}

/// The motion of a name.
fn motion_of(rt: &impl Abort, wanted: &str) -> Motion {
    for &(name, axis, from, to, [leave, limit]) in &MOTIONS {
        if name == wanted {
            return Motion {
                axis,
                from,
                to,
                limits: Limits::new(leave, limit).expect(rt, name),
            };
        }
    }
    panic!(rt; "{wanted}")
}

/// The watch of a name.
fn watcher_of(rt: &impl Abort, wanted: &str) -> Watcher {
    let watch = RestWatch::start(Machine::Press1);
    match wanted {
        "press1 rests empty" => Watcher::Resting(watch, MIDDLE_EMPTY),
        "press1 rests full" => Watcher::Resting(watch, MIDDLE_FULL),
        _ => {
            let motion = motion_of(rt, wanted);
            let watch = AxisWatch::start(motion.axis, motion.from, motion.to, motion.limits);
            assert!(rt; watch.motion() == motion, "{wanted}");
            Watcher::Moving(watch)
        }
    }
}

/// Notes the readings of a line, each with this verdict.
fn follow(rt: &impl Abort, watcher: &mut Watcher, readings: &str, wanted: &str, case: &str) {
    let wanted = verdict_of(rt, wanted);
    for text in readings.split(' ') {
        let reading = reading_of(rt, text);
        let verdict = match watcher {
            Watcher::Moving(watch) => watch.note(reading),
            Watcher::Resting(watch, expect) => watch.note(expect, reading),
        };
        assert!(rt; verdict == wanted, "{case}: {text}");
    }
}

fn check(rt: &impl Abort, case: &str) {
    let mut watcher = watcher_of(rt, part(case, 0));
    follow(rt, &mut watcher, part(case, 1), "pending", case);
    follow(rt, &mut watcher, part(case, 2), part(case, 3), case);
}

#[test]
fn readings_are_followed_to_their_verdict_which_stays(rt: HostRuntime) {
    for &case in &FOLLOWED {
        check(&rt, case);
    }
    for &case in &AT_REST {
        check(&rt, case);
    }
}

#[test]
fn a_rest_watch_tells_whether_the_last_reading_agreed(rt: HostRuntime) {
    let mut watch = RestWatch::start(Machine::Press2);
    assert!(rt; !watch.agreed());
    for (place, (text, wanted, agreed)) in AGREED.iter().enumerate() {
        let verdict = watch.note(&MIDDLE_EMPTY, reading_of(&rt, text));
        assert!(rt;
            verdict == verdict_of(&rt, wanted) && watch.agreed() == *agreed,
            "reading {place}"
        );
    }
}

#[test]
fn limits_have_ranges(rt: HostRuntime) {
    for &(leave, limit, wanted) in &RANGES {
        let is_met = match Limits::new(leave, limit) {
            Some(limits) => wanted && limits.leave() == leave && limits.limit() == limit,
            None => !wanted,
        };
        assert!(rt; is_met, "{leave} {limit}");
    }
}
