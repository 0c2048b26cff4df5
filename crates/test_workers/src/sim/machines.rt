//! Axes with switches: their motions, stops and homes.
use crate::sim::steps::{Way, run_all};

const TABLE: &str = "\
    table 1 1 0 0; started,table_lift,high; table 1 1 0 0; table 0 1 0 0; table 2 1 0 0; table 2 1 0 0; \
    off table_lift; table 2 1 0 0; started,table_turn,robot; table 2 1 0 0; table 2 0 0 0; table 2 2 0 0; \
    off table_turn; started,table_turn,belt; table any 2; table 2 1 0 0; started,table_lift,low; table any 2; \
    table 1 1 0 0";

const ROBOT: &str = "\
    robot 1 1 1 0; started,robot_turn,p1_load; robot 1 1 1 0; robot 0 1 1 0; robot 2 1 1 0; \
    started,robot_turn,p1_unload; robot any 2; robot 4 1 1 0; started,robot_turn,p2_load; robot any 2; \
    robot 8 1 1 0; started,robot_turn,p2_unload; robot any 2; robot 16 1 1 0; started,robot_turn,deposit2; \
    robot any 2; robot 32 1 1 0; started,arm_one,out; robot 32 1 1 0; robot 32 0 1 0; robot 32 2 1 0; \
    started,arm_two,out; robot 32 2 1 0; robot 32 2 0 0; robot 32 2 2 0; started,arm_one,in; robot 32 2 2 0; \
    robot 32 0 2 0; robot 32 1 2 0; robot 32 1 2 0";

const PRESSES: &str = "\
    started,press_one,top; press1 1 0 0 0; press1 0 0 0 0; press1 2 0 0 0; started,press_one,bottom; \
    press1 2 0 0 0; press1 0 0 0 0; press1 4 0 0 0; started,press_one,middle; press1 4 0 0 0; press1 0 0 0 0; \
    press1 1 0 0 0; press2 1 0 0 0; started,press_two,top; press2 1 0 0 0; press2 0 0 0 0; press2 2 0 0 0; \
    press2 2 0 0 0; press1 1 0 0 0";

// A stop before any reading, one after the first, one between two poses, and one at the end. A motion that is turned
// off goes on, and one to a pose that the axis lacks doesn't begin.
const STOPS: &str = "\
    started,press_one,top; stop press1; press1 1 0 0 0; press1 1 0 0 0; started,press_one,top; press1 1 0 0 0; \
    stop press1; press1 1 0 0 0; press1 1 0 0 0; started,press_one,top; press1 any 2; stop press1; \
    press1 0 0 0 0; press1 0 0 0 0; started,press_one,bottom; press1 1 0 0 0; press1 0 0 0 0; off press_one; \
    press1 4 0 0 0; stop press2; stop press1; press1 4 0 0 0; started,press_one,high; press1 4 0 0 0; \
    press1 4 0 0 0; press1 4 0 0 0";

// A stop of another machine stops nothing, and one machine's stop stops both axes of it.
const OTHER_STOPS: &str = "\
    started,table_lift,high; started,table_turn,robot; table 1 1 0 0; stop robot; table 0 0 0 0; stop table; \
    table 0 0 0 0; table 0 0 0 0; press1 1 0 0 0";

const HOMES: &str = "\
    started,robot_turn,p2_load; robot any 3; started,arm_one,out; robot any 3; started,arm_two,out; \
    robot 8 2 1 0; robot 8 2 0 0; home table; robot 8 2 2 0; home robot; robot 1 1 1 0; robot 1 1 1 0; \
    started,arm_two,out; robot 1 1 1 0";

const WAYS: [Way; 6] = [
    (0, "", &[TABLE]),
    (0, "", &[ROBOT]),
    (0, "", &[PRESSES]),
    (0, "", &[STOPS]),
    (0, "", &[OTHER_STOPS]),
    (0, "", &[HOMES]),
];

#[test]
fn axes_show_where_they_leave_arrive_and_are_stopped(rt: HostRuntime) {
    run_all(&rt, &WAYS);
}
