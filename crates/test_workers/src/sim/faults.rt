//! The faults of motions, each on an axis with switches and on a belt.
use crate::sim::steps::{Way, run_all, run_timed};
use cell_measures::Durations;
use cell_types::{Axis, Pose};

// A motion that doesn't happen leaves the press where it was.
const NO_MOTION: &str = "\
    started,press_one,top; press1 1 0 0 0; press1 1 0 0 0; press1 1 0 0 0; press1 1 0 0 0; \
    started,press_one,top; press1 any 2; press1 2 0 0 0";

// The old switch stays shown though the press moves, also after a stop.
const KEEPS_OLD: &str = "\
    started,press_one,top; press1 1 0 0 0; press1 1 0 0 0; press1 3 0 0 0; press1 3 0 0 0; stop press1; \
    press1 3 0 0 0; started,press_one,bottom; press1 2 0 0 0; press1 0 0 0 0; press1 4 0 0 0";

const BOTH: &str = "\
    started,press_one,top; press1 1 0 0 0; press1 7 0 0 0; press1 7 0 0 0; press1 7 0 0 0; home press1; \
    press1 1 0 0 0";

const SLOW: &str = "\
    started,press_one,top; press1 1 0 0 0; press1 0 0 0 0; press1 0 0 0 0; press1 0 0 0 0; press1 2 0 0 0; \
    press1 2 0 0 0";

const SILENT: &str = "\
    started,press_one,top; press1 missing; press1 missing; press1 1 0 0 0; press1 0 0 0 0; press1 2 0 0 0; \
    press1 2 0 0 0";

// The missing readings come after a stop too, and not after the axis was put at home.
const SILENT_STOPPED: &str = "\
    started,press_one,top; press1 missing; stop press1; press1 missing; press1 1 0 0 0; press1 1 0 0 0; \
    started,press_one,top; press1 any 2; press1 2 0 0 0";

const SILENT_HOME: &str =
    "started,press_one,top; press1 missing; home press1; press1 1 0 0 0; press1 1 0 0 0";

// The command that fails counts as a motion: the third fails too.
const REFUSED: &str = "\
    refused started,press_one,top; press1 1 0 0 0; press1 1 0 0 0; started,press_one,top; press1 1 0 0 0; \
    refused started,press_one,bottom; press1 0 0 0 0; press1 2 0 0 0; started,press_one,bottom";

// All switches of the two axes of a machine, each in its own byte, in the second motion of each.
const TWO_AXES: &str = "\
    started,table_lift,high; started,table_turn,robot; table any 2; table 2 2 0 0; started,table_lift,low; \
    table 2 2 0 0; table 3 2 0 0; started,table_turn,belt; table missing; table 3 2 0 0; table 3 0 0 0; \
    table 3 1 0 0";

/// A plate is laid, and the belt is turned on.
const STARTED: &str = "lamp,feed,green; feed 0 0 0 1; lamp,feed,red; started,feed_belt,to_end";

const BELT_NO_MOTION: &str =
    "feed 0 0 0 1; feed 0 0 0 1; feed 0 0 0 1; feed 0 0 0 1; off feed_belt";

const BELT_KEEPS_OLD: &str =
    "feed 0 0 0 1; feed 0 0 0 1; feed 0 0 0 3; feed 0 0 0 3; off feed_belt; feed 0 0 0 2";

const BELT_BOTH: &str =
    "feed 0 0 0 1; feed 0 0 0 3; feed 0 0 0 3; feed 0 0 0 3; off feed_belt; feed 0 0 0 2";

const BELT_SLOW: &str = "feed 0 0 0 1; feed 0 0 0 0; feed 0 0 0 0; feed 0 0 0 2; off feed_belt";

const BELT_SILENT: &str = "feed missing; feed 0 0 0 1; feed 0 0 0 0; feed 0 0 0 2; off feed_belt";

const BELT_LOSES: &str =
    "feed 0 0 0 1; feed 0 0 0 0; feed 0 0 0 0; feed 0 0 0 0; off feed_belt; feed 0 0 0 0";

// To the table all goes well but the switches of the second motion.
const BELT_TO_TABLE: &str = "\
    feed any 3; off feed_belt; started,feed_belt,to_table; feed 0 0 0 2; feed 0 0 0 6; table 1 1 0 0; \
    feed 0 0 0 6; table 1 1 0 1";

// Nothing lies on the belt: no plate stays shown, but both sensors show one where they are broken.
const BARE_KEEPS_OLD: &str =
    "started,feed_belt,to_end; feed 0 0 0 0; feed 0 0 0 0; feed 0 0 0 0; feed 0 0 0 0";

const BARE_BOTH: &str =
    "started,feed_belt,to_table; feed 0 0 0 0; feed 0 0 0 6; feed 0 0 0 6; table 1 1 0 0";

const BELT_REFUSED: &str = "\
    lamp,feed,green; feed 0 0 0 1; refused started,feed_belt,to_end; feed 0 0 0 1; feed 0 0 0 1";

const AT_SWITCHES: [Way; 9] = [
    (0, "press_one,1,no_motion,\n", &[NO_MOTION]),
    (0, "press_one,1,keeps_old,\n", &[KEEPS_OLD]),
    (0, "press_one,1,both,\n", &[BOTH]),
    (0, "press_one,1,slow,2\n", &[SLOW]),
    (0, "press_one,1,silent,2\n", &[SILENT]),
    (0, "press_one,1,silent,2\n", &[SILENT_STOPPED]),
    (0, "press_one,1,silent,2\n", &[SILENT_HOME]),
    (
        0,
        "press_one,1,refuse_command,\npress_one,3,refuse_command,\n",
        &[REFUSED],
    ),
    (
        0,
        "table_lift,2,both,\ntable_turn,2,silent,1\n",
        &[TWO_AXES],
    ),
];

const AT_SENSORS: [Way; 10] = [
    (1, "feed_belt,1,no_motion,\n", &[STARTED, BELT_NO_MOTION]),
    (1, "feed_belt,1,keeps_old,\n", &[STARTED, BELT_KEEPS_OLD]),
    (1, "feed_belt,1,both,\n", &[STARTED, BELT_BOTH]),
    (1, "feed_belt,1,slow,1\n", &[STARTED, BELT_SLOW]),
    (1, "feed_belt,1,silent,1\n", &[STARTED, BELT_SILENT]),
    (1, "feed_belt,1,lose_plate,\n", &[STARTED, BELT_LOSES]),
    (1, "feed_belt,2,both,\n", &[STARTED, BELT_TO_TABLE]),
    (1, "feed_belt,1,keeps_old,\n", &[BARE_KEEPS_OLD]),
    (1, "feed_belt,1,both,\n", &[BARE_BOTH]),
    (1, "feed_belt,1,refuse_command,\n", &[BELT_REFUSED]),
];

#[test]
fn a_fault_shows_at_switches_and_at_sensors(rt: HostRuntime) {
    run_all(&rt, &AT_SWITCHES);
    run_all(&rt, &AT_SENSORS);
}

// A motion of three readings shows what a slow one of two more shows, and a fault comes besides.
const TIMED: [Way; 4] = [
    (0, "", &[SLOW]),
    (0, "press_one,1,slow,1\n", &[SLOWER]),
    (0, "press_one,1,no_motion,\n", &[NO_LONG_MOTION]),
    (1, "", &[STARTED, BELT_SLOW]),
];

const SLOWER: &str = "\
    started,press_one,top; press1 1 0 0 0; press1 any 4; press1 2 0 0 0; started,press_one,bottom; press1 any 2; \
    press1 4 0 0 0";

const NO_LONG_MOTION: &str = "\
    started,press_one,top; press1 1 0 0 0; press1 1 0 0 0; press1 1 0 0 0; press1 1 0 0 0";

#[test]
fn a_motion_takes_its_time(rt: HostRuntime) {
    let mut durations = Durations::ONE;
    durations.set(Axis::PressOne, Pose::Top, 3);
    durations.set_axis(Axis::FeedBelt, 2);
    durations.set_axis(Axis::TableTurn, 0);
    run_timed(&rt, &durations, &TIMED);
}
