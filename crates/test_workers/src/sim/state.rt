//! What a world says of its axes, plates and rounds, step by step.
use crate::sim::plates::{AT_TABLE, IN_PRESS, ON_ARM_ONE, ON_DEPOSIT};
use crate::sim::steps::{Way, run_all};

// An axis goes until it has arrived, and moves until then or until it is stopped.
const MOVED: &str = "\
    axis press_one middle; moving; started,press_one,top; axis press_one middle top; moving press1; press1 any 2; \
    axis press_one middle top; moving press1; press1 any 1; axis press_one top; moving; started,press_one,bottom; \
    press1 any 2; stop press1; axis press_one top bottom; moving; press1 any 2; axis press_one top bottom; \
    home press1; axis press_one middle";

// One that was stopped before it left is where it was. One that a fault keeps there has begun to move.
const STOPPED: &str = "\
    started,table_lift,high; axis table_lift low high; stop table; axis table_lift low; moving; \
    started,press_two,top; press2 any 9; axis press_two middle top; moving press2; stop press2; \
    axis press_two middle; moving";

// A belt rests where it has arrived, and goes as the name of its motion says.
const BELT: &str = "\
    axis feed_belt rest; started,feed_belt,to_table; axis feed_belt rest to_table; moving feed; off feed_belt; \
    axis feed_belt rest; moving; started,deposit_belt,to_end; axis deposit_belt rest to_end; deposit any 3; \
    axis deposit_belt rest; moving; refused started,feed_belt,to_end; axis feed_belt rest; moving";

const IN_THE_PRESS: &str = "at press1 1; at arm1; plates 1 1 0 0 0 0";

const TAKEN_OUT: &str = "\
    at arm2 1; at press1; dropped,arm2,1,dep_in; at dep_in 1; plates 1 1 1 0 0 0; started,arm_two,in; robot any 3; \
    started,deposit_belt,to_end; deposit any 3; off deposit_belt; at dep_end 1; lamp,deposit,green; deposit any 2; \
    at dep_end; plates 1 1 1 1 0 0; lamp,feed,green; feed any 1; at feed_in 2; remove feed_in; remove feed_in; \
    plates 2 1 1 1 1 0; feed any 1; at feed_in 3; plates 3 0 1 1 1 0";

// A plate that a fault loses is lost; one that was removed from a press isn't left.
const LOST: &str = "\
    plates 1 1 0 0 0 0; at arm1 1; started,arm_one,in; robot any 2; at arm1; plates 1 1 0 0 0 1; robot any 1";

const REMOVED: &str = "remove press1; plates 1 1 0 0 1 0; remove press1; plates 1 1 0 0 1 0";

// Rounds in which a machine moves until their end.
const ROUNDS: &str = "\
    round; rounds table 0; started,table_lift,high; round; table any 1; round; table any 1; round; table any 1; \
    round; rounds table 3; rounds robot 0; started,arm_one,out; started,robot_turn,p1_load; round; stop robot; \
    round; rounds robot 1; rounds table 3";

const WAYS: [Way; 7] = [
    (0, "", &[MOVED]),
    (0, "press_two,1,no_motion,\n", &[STOPPED]),
    (0, "feed_belt,2,refuse_command,\n", &[BELT]),
    (
        2,
        "",
        &[
            AT_TABLE,
            ON_ARM_ONE,
            IN_PRESS,
            IN_THE_PRESS,
            ON_DEPOSIT,
            TAKEN_OUT,
        ],
    ),
    (2, "arm_one,2,lose_plate,\n", &[AT_TABLE, ON_ARM_ONE, LOST]),
    (2, "", &[AT_TABLE, ON_ARM_ONE, IN_PRESS, REMOVED]),
    (0, "", &[ROUNDS]),
];

#[test]
fn a_world_says_its_state(rt: HostRuntime) {
    run_all(&rt, &WAYS);
}
