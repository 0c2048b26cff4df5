//! The safety rules in a watched world: each is broken once by a command, and the neighbouring correct conduct breaks
//! none.
use crate::sim::plates::{AT_TABLE, IN_PRESS, ON_ARM_ONE, ON_DEPOSIT};
use crate::sim::steps::{Way, run_watched};

// Of each rule first a way on which it is kept, and then ways on which it is broken.

// The plate lies in the first press, at the middle, and the first arm is out there.
const PRESS_LATER: &str =
    "started,arm_one,in; robot any 3; started,press_one,top; press1 any 3; broken";

const PRESS_UNDER_ARM: &str = "\
    round; started,press_one,top; broken ArmInPress; first ArmInPress 2 started,press_one,top; press1 any 3; round; \
    started,press_one,bottom; press1 any 3; started,arm_one,in; robot any 3; broken ArmInPress; at press1 1; \
    first ArmInPress 2 started,press_one,top; plates 1 0 1 0 0 0";

const PRESS_UNDER_LEAVING_ARM: &str = "\
    started,arm_one,in; robot any 2; started,press_one,top; broken ArmInPress; robot any 1; broken ArmInPress";

const ARM_AT_MIDDLE: &str = "\
    started,robot_turn,p1_load; robot any 3; started,arm_one,out; robot any 3; started,arm_one,in; robot any 3; broken";

const ARM_AT_BOTTOM: &str = "\
    started,robot_turn,p2_load; robot any 3; started,arm_two,out; robot any 3; started,arm_two,in; robot any 3; \
    started,robot_turn,p2_unload; robot any 3; broken; started,arm_two,out; broken ArmInPress; robot any 3; \
    started,arm_two,in; robot any 3; broken ArmInPress";

// The press goes on to where the arm is served: the second arm is right there.
const ARM_BEFORE_PRESS: &str = "\
    started,arm_one,in; robot any 3; started,press_one,top; press1 any 3; started,robot_turn,p1_unload; robot any 3; \
    started,press_one,bottom; press1 any 2; started,arm_two,out; broken ArmInPress; press1 any 1; robot any 3; \
    gripped,arm2,1,press1; at arm2 1; broken ArmInPress";

// The first plate is in the first press at its top, and the arm that brings the second one goes out there.
const ARM_WITH_PLATE: &str = "\
    started,press_one,top; press1 any 3; started,arm_one,in; robot any 3; started,robot_turn,p1_load; robot any 3; \
    at arm1 2; started,arm_one,out; broken ArmInPress; at arm1; at press1 1; plates 2 0 1 0 0 1";

// The second arm is out at the first press, at the bottom, when that is put at home.
const HOME_UNDER_ARM: &str = "\
    started,arm_one,in; robot any 3; started,press_one,top; press1 any 3; started,press_one,bottom; press1 any 3; \
    started,robot_turn,p1_unload; robot any 3; started,arm_two,out; robot any 3; broken; round; round; \
    home press1; broken ArmInPress; first ArmInPress 3 home";

// The arm is out at the table.
const TABLE_LATER: &str = "\
    started,table_lift,high; table any 3; started,arm_one,out; robot any 3; started,arm_one,in; robot any 3; \
    started,table_lift,low; broken";

const TABLE_UNDER_ARM: &str = "\
    started,arm_one,out; robot any 3; started,table_lift,high; broken ArmOverTable; table any 3; \
    started,arm_one,in; robot any 3; started,table_turn,robot; broken ArmOverTable";

const ARM_BEFORE_TABLE: &str = "\
    started,table_turn,robot; table any 1; started,arm_one,out; broken ArmOverTable; \
    first ArmOverTable 1 started,arm_one,out";

const BELT_LATER: &str = "\
    started,robot_turn,deposit2; robot any 3; started,deposit_belt,to_end; deposit any 3; started,arm_two,out; \
    robot any 3; started,arm_two,in; robot any 3; started,deposit_belt,to_end; broken";

const BELT_UNDER_ARM: &str = "\
    started,robot_turn,deposit2; robot any 3; started,arm_two,out; robot any 3; started,deposit_belt,to_end; \
    broken ArmOverBelt; deposit any 3; broken ArmOverBelt; started,deposit_belt,to_end; times ArmOverBelt 2; \
    started,deposit_belt,to_end; times ArmOverBelt 2; deposit any 3; times ArmOverBelt 2";

const TURNED: &str = "\
    started,robot_turn,p1_load; robot any 3; started,arm_one,out; robot any 3; started,arm_one,in; robot any 3; \
    started,robot_turn,p2_load; broken";

const TURNED_WITH_ARM: &str = "\
    started,arm_one,out; robot any 3; started,robot_turn,p1_load; broken TurnWithArmOut; robot any 3; \
    broken TurnWithArmOut";

const ARM_WHILE_TURNING: &str = "\
    started,robot_turn,p1_load; robot any 1; started,arm_one,out; broken TurnWithArmOut; \
    first TurnWithArmOut 1 started,arm_one,out";

// Of a robot that turns to a press with the arm out the arm comes to be in the press.
const TURNED_INTO_PRESS: &str = "\
    started,robot_turn,p2_load; robot any 3; started,arm_two,out; robot any 3; started,robot_turn,p2_unload; round; \
    broken TurnWithArmOut; robot any 3; first TurnWithArmOut 1 started,robot_turn,p2_unload; \
    first ArmInPress 2 started,robot_turn,p2_unload";

const AT_END: &str = "\
    lamp,feed,green; feed any 1; lamp,feed,red; started,feed_belt,to_end; feed any 3; off feed_belt";

const TO_TABLE: &str = "started,feed_belt,to_table; feed any 3; at table 1; broken";

const TO_HIGH_TABLE: &str = "\
    started,table_lift,high; table any 3; started,feed_belt,to_table; broken TableNotReady; feed any 2; \
    at feed_end 1; feed any 1; at feed_end; at table; plates 1 0 0 0 0 1; broken TableNotReady";

const TABLE_LEAVES: &str = "\
    started,feed_belt,to_table; feed any 2; started,table_turn,robot; broken TableNotReady; \
    first TableNotReady 1 started,table_turn,robot; feed any 1; plates 1 0 0 0 0 1";

const TO_FULL_TABLE: &str = "\
    off feed_belt; lamp,feed,green; feed any 1; lamp,feed,red; started,feed_belt,to_end; feed any 3; broken; \
    started,feed_belt,to_table; broken TableNotReady; feed any 3; at table 1; at feed_end; plates 2 0 0 0 0 1";

// The first plate is in the first press, and the arm brings the second one.
const SECOND: &str = "\
    started,arm_one,in; robot any 3; started,robot_turn,table1; robot any 3; started,table_turn,belt; table any 3; \
    started,table_lift,low; table any 3; off feed_belt";

const INTO_OTHER_PRESS: &str = "\
    started,arm_one,in; robot any 3; started,robot_turn,p2_load; robot any 3; started,arm_one,out; robot any 3; \
    dropped,arm1,2,press2; at press2 2; broken";

const ONTO_PLATE: &str = "\
    started,arm_one,in; robot any 3; started,robot_turn,p1_load; robot any 3; started,arm_one,out; robot any 3; \
    dropped,arm1,2,press1; broken PlateOnPlate; first PlateOnPlate 1 dropped,arm1,2,press1; at press1 1; at arm1; \
    plates 2 0 0 0 0 1; dropped,arm1,2,press1; broken PlateOnPlate";

const BACK_ONTO_TABLE: &str = "dropped,arm1,1,press1; at table 1; dropped,arm2,1,dep_in; broken";

const DROPPED: &str = "\
    started,arm_one,in; robot any 3; dropped,arm1,1,press1; broken PlateDropped; at arm1; plates 1 0 0 0 0 1; \
    dropped,arm1,1,press1; broken PlateDropped";

// The second arm holds the plate over the deposit belt.
const TO_EMPTY_END: &str = "\
    dropped,arm2,1,dep_in; started,arm_two,in; robot any 3; started,deposit_belt,to_end; deposit any 3; \
    off deposit_belt; at dep_end 1; broken";

const TO_FULL_END: &str =
    "started,deposit_belt,to_end; broken FullEnd; deposit any 3; broken FullEnd; at dep_end 1";

const AFTER_TAKING: &str = "\
    lamp,deposit,green; deposit any 1; lamp,deposit,red; started,deposit_belt,to_end; deposit any 3; broken; \
    plates 1 0 1 1 0 0";

const IN_ORDER: &str = "\
    started,arm_two,in; robot any 3; started,press_one,middle; press1 any 3; axis press_one middle; broken";

const UP_EMPTY: &str = "started,press_one,top; broken PressOrder";

const DOWN_FROM_MIDDLE: &str = "started,press_two,bottom; broken PressOrder";

const ON_TOO_EARLY: &str = "\
    started,arm_one,in; robot any 3; started,press_one,top; press1 any 2; started,press_one,bottom; broken PressOrder";

const TO_MIDDLE_FULL: &str = "\
    started,arm_one,in; robot any 3; started,press_one,top; press1 any 3; started,press_one,bottom; press1 any 3; \
    broken; started,press_one,middle; broken PressOrder";

const REFUSED: &str = "refused started,press_one,bottom; broken";

const ITS_OWN: &str = "\
    started,table_turn,robot; table any 3; started,table_turn,robot; table any 3; started,feed_belt,to_end; broken";

const NOT_ITS_OWN: &str = "started,press_one,high; broken NoSuchPose; axis press_one middle";

const NO_MOTION_OF_THE_BELT: &str = "started,deposit_belt,to_table; broken NoSuchPose; moving";

const STILL_GREEN: &str = "\
    lamp,feed,green; feed any 3; lamp,feed,green; feed any 1; started,feed_belt,to_end; feed any 3; off feed_belt; \
    feed any 1; started,feed_belt,to_table; feed any 3; off feed_belt; feed any 1; at table 1; at feed_in 2; broken";

const GREEN_OVER_PLATE: &str = "\
    lamp,feed,green; feed any 2; lamp,feed,red; feed any 1; lamp,feed,green; broken; feed any 1; \
    broken LaidOntoFullBelt; first LaidOntoFullBelt 1 lamp,feed,green; at feed_in 1; plates 2 1 0 0 0 1; feed any 2; \
    broken LaidOntoFullBelt; plates 2 1 0 0 0 1";

const GREEN_OVER_END: &str = "\
    lamp,feed,green; feed any 1; broken LaidOntoFullBelt; at feed_in 2; at feed_end 1; plates 2 0 0 0 0 0";

// The plate that goes to the full end is gone.
const GONE_AT_END: &str = "\
    started,feed_belt,to_end; feed any 3; at feed_in; at feed_end 1; plates 2 0 0 0 0 1";

// The press is put at home by hand, and the plate is left in it.
const FORGED_ONCE: &str = "\
    started,arm_one,in; robot any 3; started,press_one,top; press1 any 2; home press1; started,press_one,top; \
    press1 any 9; broken; plates 1 0 1 0 0 0";

const FORGED_AGAIN: &str = "\
    started,arm_one,in; robot any 3; started,press_one,top; press1 any 3; home press1; round; started,press_one,top; \
    round; press1 any 2; broken; press1 any 1; broken ForgedTwice; first ForgedTwice 3 started,press_one,top; \
    plates 1 0 1 0 0 0";

const ARM_IN_PRESS: [Way; 8] = [
    (1, "", &[AT_TABLE, ON_ARM_ONE, IN_PRESS, PRESS_LATER]),
    (1, "", &[AT_TABLE, ON_ARM_ONE, IN_PRESS, PRESS_UNDER_ARM]),
    (
        1,
        "",
        &[AT_TABLE, ON_ARM_ONE, IN_PRESS, PRESS_UNDER_LEAVING_ARM],
    ),
    (1, "", &[AT_TABLE, ON_ARM_ONE, IN_PRESS, ARM_BEFORE_PRESS]),
    (1, "", &[AT_TABLE, ON_ARM_ONE, IN_PRESS, HOME_UNDER_ARM]),
    (
        2,
        "",
        &[
            AT_TABLE,
            ON_ARM_ONE,
            IN_PRESS,
            SECOND,
            AT_TABLE,
            ON_ARM_ONE,
            ARM_WITH_PLATE,
        ],
    ),
    (0, "", &[ARM_AT_MIDDLE]),
    (0, "", &[ARM_AT_BOTTOM]),
];

const ARM_OVER_TABLE: [Way; 3] = [
    (0, "", &[TABLE_LATER]),
    (0, "", &[TABLE_UNDER_ARM]),
    (0, "", &[ARM_BEFORE_TABLE]),
];

const ARM_OVER_BELT: [Way; 2] = [(0, "", &[BELT_LATER]), (0, "", &[BELT_UNDER_ARM])];

const TURN_WITH_ARM_OUT: [Way; 4] = [
    (0, "", &[TURNED]),
    (0, "", &[TURNED_WITH_ARM]),
    (0, "", &[ARM_WHILE_TURNING]),
    (0, "", &[TURNED_INTO_PRESS]),
];

const TABLE_NOT_READY: [Way; 4] = [
    (1, "", &[AT_END, TO_TABLE]),
    (1, "", &[AT_END, TO_HIGH_TABLE]),
    (1, "", &[AT_END, TABLE_LEAVES]),
    (2, "", &[AT_TABLE, TO_FULL_TABLE]),
];

const PLATE_ON_PLATE: [Way; 2] = [
    (
        2,
        "",
        &[
            AT_TABLE,
            ON_ARM_ONE,
            IN_PRESS,
            SECOND,
            AT_TABLE,
            ON_ARM_ONE,
            INTO_OTHER_PRESS,
        ],
    ),
    (
        2,
        "",
        &[
            AT_TABLE, ON_ARM_ONE, IN_PRESS, SECOND, AT_TABLE, ON_ARM_ONE, ONTO_PLATE,
        ],
    ),
];

const PLATE_DROPPED: [Way; 2] = [
    (1, "", &[AT_TABLE, ON_ARM_ONE, BACK_ONTO_TABLE]),
    (1, "", &[AT_TABLE, ON_ARM_ONE, DROPPED]),
];

const FULL_END: [Way; 2] = [
    (
        1,
        "",
        &[
            AT_TABLE,
            ON_ARM_ONE,
            IN_PRESS,
            ON_DEPOSIT,
            TO_EMPTY_END,
            AFTER_TAKING,
        ],
    ),
    (
        1,
        "",
        &[
            AT_TABLE,
            ON_ARM_ONE,
            IN_PRESS,
            ON_DEPOSIT,
            TO_EMPTY_END,
            TO_FULL_END,
        ],
    ),
];

const PRESS_ORDER: [Way; 6] = [
    (
        1,
        "",
        &[AT_TABLE, ON_ARM_ONE, IN_PRESS, ON_DEPOSIT, IN_ORDER],
    ),
    (0, "", &[UP_EMPTY]),
    (0, "", &[DOWN_FROM_MIDDLE]),
    (1, "", &[AT_TABLE, ON_ARM_ONE, IN_PRESS, ON_TOO_EARLY]),
    (1, "", &[AT_TABLE, ON_ARM_ONE, IN_PRESS, TO_MIDDLE_FULL]),
    (0, "press_one,1,refuse_command,\n", &[REFUSED]),
];

const NO_SUCH_POSE: [Way; 3] = [
    (0, "", &[ITS_OWN]),
    (0, "", &[NOT_ITS_OWN]),
    (0, "", &[NO_MOTION_OF_THE_BELT]),
];

const LAID_ONTO_FULL_BELT: [Way; 3] = [
    (2, "", &[STILL_GREEN]),
    (3, "", &[GREEN_OVER_PLATE]),
    (2, "", &[AT_END, GREEN_OVER_END, GONE_AT_END]),
];

const FORGED_TWICE: [Way; 2] = [
    (1, "", &[AT_TABLE, ON_ARM_ONE, IN_PRESS, FORGED_ONCE]),
    (1, "", &[AT_TABLE, ON_ARM_ONE, IN_PRESS, FORGED_AGAIN]),
];

#[test]
fn an_arm_waits_for_the_press(rt: HostRuntime) {
    run_watched(&rt, &ARM_IN_PRESS);
}

#[test]
fn the_table_waits_for_the_arm(rt: HostRuntime) {
    run_watched(&rt, &ARM_OVER_TABLE);
}

#[test]
fn the_deposit_belt_waits_for_the_arm(rt: HostRuntime) {
    run_watched(&rt, &ARM_OVER_BELT);
}

#[test]
fn the_robot_turns_with_its_arms_in(rt: HostRuntime) {
    run_watched(&rt, &TURN_WITH_ARM_OUT);
}

#[test]
fn the_feed_belt_waits_for_the_table(rt: HostRuntime) {
    run_watched(&rt, &TABLE_NOT_READY);
}

#[test]
fn an_arm_lets_go_over_an_empty_station(rt: HostRuntime) {
    run_watched(&rt, &PLATE_ON_PLATE);
}

#[test]
fn an_arm_lets_go_over_a_station(rt: HostRuntime) {
    run_watched(&rt, &PLATE_DROPPED);
}

#[test]
fn a_belt_goes_to_an_empty_end(rt: HostRuntime) {
    run_watched(&rt, &FULL_END);
}

#[test]
fn a_press_keeps_its_order(rt: HostRuntime) {
    run_watched(&rt, &PRESS_ORDER);
}

#[test]
fn an_axis_goes_to_its_own_poses(rt: HostRuntime) {
    run_watched(&rt, &NO_SUCH_POSE);
}

#[test]
fn a_plate_is_laid_onto_an_empty_belt(rt: HostRuntime) {
    run_watched(&rt, &LAID_ONTO_FULL_BELT);
}

#[test]
fn a_plate_is_forged_once(rt: HostRuntime) {
    run_watched(&rt, &FORGED_TWICE);
}
