//! Files of times.
use cell_measures::{Durations, Move, read_durations};
use cell_types::{Axis, Pose};
use std::process::Abort;

fn time_of<R: AllocGlobal + Abort>(rt: &R, text: &str, axis: Axis, to: Pose) -> u16 {
    match read_durations(rt.alloc(), text.as_bytes()) {
        Ok(durations) => durations.of(Move { axis, to }),
        Err(_) => panic!(rt; "the text is refused"),
    }
}

// The text is refused by this line.
fn is_refused<R: AllocGlobal + Abort>(rt: &R, text: &str, line: &str) {
    match read_durations(rt.alloc(), text.as_bytes()) {
        Ok(_) => panic!(rt; "the text is taken"),
        Err(error) => {
            let told = error.line(rt.alloc()).expect(rt, "memory");
            let told = told.expect(rt, "a line");
            assert!(rt; told.as_str() == line);
        }
    }
}

const TIMES: &str = "\
[time]
press_one = 4
table_lift.high = 0
feed_belt.to_table = 1000
";

// Texts, motions, and how long each takes.
const READ: [(&str, Axis, Pose, u16); 8] = [
    ("", Axis::PressOne, Pose::Top, 1),
    (TIMES, Axis::PressOne, Pose::Top, 4),
    (TIMES, Axis::PressOne, Pose::Bottom, 4),
    (TIMES, Axis::PressTwo, Pose::Bottom, 1),
    (TIMES, Axis::TableLift, Pose::High, 0),
    (TIMES, Axis::TableLift, Pose::Low, 1),
    (TIMES, Axis::FeedBelt, Pose::ToTable, 1000),
    (TIMES, Axis::FeedBelt, Pose::ToEnd, 1),
];

#[test]
fn times_are_read(rt: HostRuntime) {
    for &(text, axis, to, wanted) in &READ {
        assert!(&rt; time_of(&rt, text, axis, to) == wanted, "{axis:?}");
    }
}

#[test]
fn times_are_refused(rt: HostRuntime) {
    is_refused(&rt, "press_one", "times NotToml");
    is_refused(&rt, "time = 3\n", "times UnknownKey time");
    is_refused(&rt, "[times]\n", "times UnknownKey times");
    is_refused(
        &rt,
        "[time]\npress_three = 1\n",
        "times UnknownKey time.press_three",
    );
    is_refused(
        &rt,
        "[time]\npress_one.low = 1\n",
        "times UnknownKey time.press_one.low",
    );
    is_refused(
        &rt,
        "[time]\nfeed_belt.rest = 1\n",
        "times UnknownKey time.feed_belt.rest",
    );
    is_refused(
        &rt,
        "[time]\npress_one = 1001\n",
        "times OutOfRange time.press_one",
    );
    is_refused(
        &rt,
        "[time]\npress_one.top = -1\n",
        "times OutOfRange time.press_one.top",
    );
    is_refused(
        &rt,
        "[time]\npress_one = 1.5\n",
        "times NotNumber time.press_one",
    );
    is_refused(
        &rt,
        "[time]\n\"a\\tb\" = 1\n",
        "times UnknownKey time.a\\u0009b",
    );
}

#[test]
fn hostile_keys_are_escaped(rt: HostRuntime) {
    // Control characters beyond ASCII, and those that part lines or turn the direction of text.
    is_refused(
        &rt,
        "\"\\u009B31m\\u202Eno\" = 1\n",
        "times UnknownKey \\u009B31m\\u202Eno",
    );
    is_refused(
        &rt,
        "[time]\n\"\\u007F\\u0080\\u009F\\u061C\\u200E\\u200F\\u2028\\u202A\\u2066\\u2069\" = 1\n",
        "times UnknownKey time.\\u007F\\u0080\\u009F\\u061C\\u200E\\u200F\\u2028\\u202A\\u2066\\u2069",
    );
    // The characters beside these stand as they are.
    is_refused(
        &rt,
        "\"\u{a0}\u{61b}\u{61d}\u{200d}\u{2010}\u{2027}\u{202f}\u{2065}\u{206a}\u{1f600}\" = 1\n",
        "times UnknownKey \u{a0}\u{61b}\u{61d}\u{200d}\u{2010}\u{2027}\u{202f}\u{2065}\u{206a}\u{1f600}",
    );
}

// An unknown key is told before a number that is out of range.
#[test]
fn the_first_error_is_told(rt: HostRuntime) {
    is_refused(
        &rt,
        "[time]\narm_one = 1001\nzebra = 1\n",
        "times UnknownKey time.zebra",
    );
    is_refused(
        &rt,
        "[time]\narm_one = 1001\narm_two = 1.5\n",
        "times OutOfRange time.arm_one",
    );
}
