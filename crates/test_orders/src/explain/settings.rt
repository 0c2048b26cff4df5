//! What is said of settings.
use crate::explain::said::{Kind, check_texts};

const GOOD: [(&str, &str); 1] = [("plates = 5\n", "settings ok\n")];

const BAD: [(&str, &str); 7] = [
    (
        "plates = 5\n\n[watch.press_one]\nlimit = 2000\n",
        "settings OutOfRange watch.press_one.limit\nline 4: watch.press_one.limit: a whole number above leave, to \
            1000; 20 where none is given\n",
    ),
    (
        "plates = 5\nwatch.table_turn.leave = 30\n",
        "settings OutOfRange watch.table_turn.limit\nwatch.table_turn.limit: a whole number above leave, to 1000; 20 \
            where none is given\n",
    ),
    (
        "plates = 5\n\"watch.press_one.limit\" = 1\n",
        "settings UnknownKey watch.press_one.limit\nwatch.press_one.limit: in quotes this is one key, which settings \
            don't have: it is written without quotes\n",
    ),
    (
        "turns = 5\n",
        "settings Missing plates\nplates: a whole number from 1 to 100000\n",
    ),
    (
        "plates = 5\nwatch.press_on.leave = 3\n",
        "settings UnknownKey watch.press_on\nline 2: watch.press_on: no such axis, but feed_belt, table_lift, \
            table_turn, robot_turn, arm_one, arm_two, press_one, press_two and deposit_belt\n",
    ),
    (
        "# few\nplats = 5\n",
        "settings UnknownKey plats\nline 2: plats: no such key, but plates, journal_limit, turns and watch\n",
    ),
    (
        "plates = \"5\"\n",
        "settings NotNumber plates\nline 1: plates: a whole number from 1 to 100000\n",
    ),
];

// A key that isn't known is shown in one line.
const SHOWN: [(&str, &str); 4] = [
    (
        "plates = 5\n\"x\\ny\" = 1\n",
        "settings UnknownKey x\\u000Ay\nx\\u000Ay: no such key, but plates, journal_limit, turns and watch\n",
    ),
    (
        "plates = 5\n\"\\t\\u0007\\u007F\" = 1\n",
        "settings UnknownKey \\u0009\\u0007\\u007F\n\\u0009\\u0007\\u007F: no such key, but plates, journal_limit, \
            turns and watch\n",
    ),
    (
        "plates = 5\n\"caf\u{e9}\" = 1\n",
        "settings UnknownKey caf\u{e9}\ncaf\u{e9}: no such key, but plates, journal_limit, turns and watch\n",
    ),
    (
        "plates = 5\n'a\\nb' = 1\n",
        "settings UnknownKey a\\nb\na\\nb: no such key, but plates, journal_limit, turns and watch\n",
    ),
];

// A text that is no TOML is told by its place, and then by what toml says.
const NO_TOML: [(&str, &str); 1] = [(
    "plates = 5\nturns = = 3\n",
    "settings NotToml\nline 2, column 9: …",
)];

#[test]
fn settings_are_explained(rt: HostRuntime) {
    check_texts(&rt, Kind::Settings, 0, &GOOD);
    check_texts(&rt, Kind::Settings, 1, &BAD);
    check_texts(&rt, Kind::Settings, 1, &SHOWN);
    check_texts(&rt, Kind::Settings, 1, &NO_TOML);
}
