//! Plates that are laid back: as many as the operator took out from before a press.
use crate::sim::plates::{AT_TABLE, IN_PRESS, ON_ARM_ONE, ON_DEPOSIT};
use crate::sim::steps::{Way, run_all};

// The one plate is laid, and then the light is red.
const LAID: &str = "lamp,feed,green; feed 0 0 0 1; lamp,feed,red";

const AT_END: &str = "started,feed_belt,to_end; feed any 3; off feed_belt";

// Nothing is laid where the light is red. Where it is green, one plate is laid and carried to the table, and no more.
const LAID_BACK: &str = "\
    feed 0 0 0 0; lamp,feed,green; feed 0 0 0 1; started,feed_belt,to_end; feed any 3; off feed_belt; \
    started,feed_belt,to_table; feed any 3; off feed_belt; feed 0 0 0 4; feed 0 0 0 4; feed 0 0 0 4";

const NOT_LAID_BACK: &str = "feed 0 0 0 0; lamp,feed,green; feed 0 0 0 0; feed 0 0 0 0";

// Arm two lays the plate on the deposit belt, which carries it to its end and isn't turned off.
const AT_DEPOSIT_END: &str = "\
    dropped,arm2,1,dep_in; started,arm_two,in; robot any 3; started,deposit_belt,to_end; deposit any 3";

// The plate is taken out where a belt carried it, and isn't there any more.
const CARRIED: &str = "remove feed_end; remove feed_end";

// A plate from before a press, and one that a belt carried: it is from where it was carried.
const FROM_BEFORE_A_PRESS: [Way; 7] = [
    (1, "", &[LAID, "remove feed_in", LAID_BACK]),
    (1, "", &[LAID, AT_END, "remove feed_end", LAID_BACK]),
    (1, "", &[AT_TABLE, "off feed_belt; remove table", LAID_BACK]),
    (
        1,
        "",
        &[
            AT_TABLE,
            ON_ARM_ONE,
            "off feed_belt; remove arm1",
            LAID_BACK,
        ],
    ),
    (1, "", &[AT_TABLE, CARRIED, LAID_BACK]),
    (1, "", &[AT_TABLE, ON_ARM_ONE, CARRIED, LAID_BACK]),
    (1, "", &[AT_TABLE, ON_ARM_ONE, IN_PRESS, CARRIED, LAID_BACK]),
];

const FROM_A_PRESS: [Way; 4] = [
    (
        1,
        "",
        &[
            AT_TABLE,
            ON_ARM_ONE,
            IN_PRESS,
            "remove press1",
            NOT_LAID_BACK,
        ],
    ),
    (
        1,
        "",
        &[
            AT_TABLE,
            ON_ARM_ONE,
            IN_PRESS,
            ON_DEPOSIT,
            "remove arm2",
            NOT_LAID_BACK,
        ],
    ),
    (
        1,
        "",
        &[
            AT_TABLE,
            ON_ARM_ONE,
            IN_PRESS,
            ON_DEPOSIT,
            AT_DEPOSIT_END,
            "remove dep_in",
            NOT_LAID_BACK,
        ],
    ),
    (
        1,
        "",
        &[
            AT_TABLE,
            ON_ARM_ONE,
            IN_PRESS,
            ON_DEPOSIT,
            AT_DEPOSIT_END,
            "remove dep_end",
            NOT_LAID_BACK,
        ],
    ),
];

const BEFORE_A_PRESS: &str = "remove feed_in; remove feed_end; remove table; remove arm1";

// Where there is no plate none is taken out, so that the one that was to be laid is, and a lost one is not.
const NOWHERE: [Way; 2] = [
    (1, "", &[BEFORE_A_PRESS, LAID_BACK]),
    (
        1,
        "feed_belt,1,lose_plate,\n",
        &[LAID, AT_END, BEFORE_A_PRESS, NOT_LAID_BACK],
    ),
];

#[test]
fn a_plate_from_before_a_press_alone_is_laid_back(rt: HostRuntime) {
    run_all(&rt, &FROM_BEFORE_A_PRESS);
    run_all(&rt, &FROM_A_PRESS);
    run_all(&rt, &NOWHERE);
}
