//! A plate's way through the cell: magnets, the presses, the deposit belt, and where machines meet.
use crate::sim::steps::{Way, run_all};

/// A plate is laid and carried to the table; the belt isn't turned off.
pub(crate) const AT_TABLE: &str = "\
    lamp,feed,green; feed any 1; lamp,feed,red; started,feed_belt,to_end; feed any 3; off feed_belt; \
    started,feed_belt,to_table; feed any 3";

/// Arm one takes it from the table.
pub(crate) const ON_ARM_ONE: &str = "\
    started,table_lift,high; table any 3; started,table_turn,robot; table any 3; started,arm_one,out; \
    robot any 3; gripped,arm1,1,table; robot 1 2 1 1; table 2 2 0 0";

/// Arm one lays it into the first press.
pub(crate) const IN_PRESS: &str = "\
    started,arm_one,in; robot any 3; started,robot_turn,p1_load; robot any 3; started,arm_one,out; \
    robot any 3; dropped,arm1,1,press1; robot 2 2 1 0; press1 1 0 0 1; collisions 0";

/// Arm two takes it from there and lays it on the deposit belt.
pub(crate) const ON_DEPOSIT: &str = "\
    started,arm_one,in; robot any 3; started,press_one,top; press1 any 3; started,press_one,bottom; \
    press1 any 3; started,robot_turn,p1_unload; robot any 3; started,arm_two,out; robot any 3; \
    gripped,arm2,1,press1; robot 4 1 2 2; started,arm_two,in; robot any 3; started,robot_turn,deposit2; \
    robot any 3; started,arm_two,out; robot any 3";

/// The belt carries it to its end, where it is taken once the light is green.
const DELIVERED: &str = "\
    dropped,arm2,1,dep_in; robot 32 1 2 0; started,arm_two,in; robot any 3; deposit 0 0 0 1; \
    started,deposit_belt,to_end; deposit 0 0 0 1; deposit 0 0 0 0; deposit 0 0 0 2; off deposit_belt; \
    deposit 0 0 0 2; press1 4 0 0 0; lamp,deposit,green; deposit 0 0 0 0; stop deposit; deposit 0 0 0 0; \
    collisions 0";

// The feed belt's motion goes on: its plate is found on the arm. A stop keeps the magnet, and so does a home.
const FOUND_ON_ARM: &str =
    "stop robot; home robot; robot 1 1 1 1; remove feed_end; robot 1 1 1 0; feed 0 0 0 0";

// A magnet takes nothing with its arm in, and none where the arm holds a plate.
const HELD: &str = "\
    started,arm_one,in; robot any 2; gripped,arm1,1,table; robot 1 1 1 1; gripped,arm1,1,table; \
    gripped,arm2,1,press1; robot 1 1 1 1; table 2 2 0 0; collisions 0";

// The plates of a moving arm, and of that arm alone, are lost; those of a turning robot are too.
const ARM_LOSES: &str =
    "started,arm_two,out; robot any 3; started,arm_one,in; robot 1 2 2 1; robot 1 0 2 0";

const TURN_LOSES: &str = "\
    started,arm_two,out; robot 1 2 1 1; robot 1 2 0 1; started,robot_turn,p2_load; robot 1 2 2 1; \
    robot 0 2 2 0";

// An arm is out at the table: each motion of the table counts, and no other. The arm is out until it shows that it is
// in.
const AT_THE_TABLE: &str = "\
    started,arm_one,out; robot any 2; started,table_lift,high; collisions 0; robot any 1; \
    started,table_turn,robot; collisions 1; started,press_one,top; started,deposit_belt,to_end; \
    started,feed_belt,to_table; started,robot_turn,p1_load; started,arm_one,in; robot any 2; collisions 1; \
    off table_lift; started,table_lift,high; collisions 2";

const AT_PRESSES: &str = "\
    started,robot_turn,p2_unload; robot any 3; started,arm_one,out; robot any 3; started,press_two,top; \
    collisions 0; started,arm_two,out; robot any 3; started,press_one,top; collisions 0; \
    started,press_two,top; collisions 1; home robot; started,press_two,top; collisions 1; \
    started,table_lift,high; collisions 1";

const AT_DEPOSIT: &str = "\
    started,robot_turn,deposit2; robot any 3; started,arm_two,out; robot any 3; started,deposit_belt,to_end; \
    collisions 1; dropped,arm2,1,dep_in; collisions 1; dropped,arm1,1,press1; collisions 2";

// A plate is held over no station, and then over a full one: it stays on the arm.
const LAID_DOWN_WRONGLY: &str = "\
    started,arm_one,in; robot any 3; dropped,arm1,1,press1; collisions 1; robot 1 1 1 1; lamp,feed,green; \
    feed any 1; started,feed_belt,to_end; feed any 3; started,feed_belt,to_table";

const OVER_A_FULL_STATION: &str = "\
    feed any 3; table 2 2 0 1; started,arm_one,out; robot any 3; dropped,arm1,1,press1; collisions 2; \
    robot 1 2 1 1; table 2 2 0 1";

const HELD_BY_MAGNETS: [Way; 5] = [
    (
        1,
        "",
        &[AT_TABLE, ON_ARM_ONE, IN_PRESS, ON_DEPOSIT, DELIVERED],
    ),
    (1, "", &[AT_TABLE, ON_ARM_ONE, FOUND_ON_ARM]),
    (1, "", &[AT_TABLE, ON_ARM_ONE, HELD]),
    (
        1,
        "arm_two,1,lose_plate,\narm_one,2,lose_plate,\n",
        &[AT_TABLE, ON_ARM_ONE, ARM_LOSES],
    ),
    (
        1,
        "robot_turn,1,lose_plate,\n",
        &[AT_TABLE, ON_ARM_ONE, TURN_LOSES],
    ),
];

const COLLIDING: [Way; 4] = [
    (0, "", &[AT_THE_TABLE]),
    (0, "", &[AT_PRESSES]),
    (0, "", &[AT_DEPOSIT]),
    (
        2,
        "",
        &[AT_TABLE, ON_ARM_ONE, LAID_DOWN_WRONGLY, OVER_A_FULL_STATION],
    ),
];

#[test]
fn magnets_carry_a_plate_through_the_cell(rt: HostRuntime) {
    run_all(&rt, &HELD_BY_MAGNETS);
}

#[test]
fn collisions_are_counted(rt: HostRuntime) {
    run_all(&rt, &COLLIDING);
}
