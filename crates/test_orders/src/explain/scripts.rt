//! What is said of scripts of faults and of the operator.
use crate::explain::said::{Kind, check_texts};

const GOOD_FAULTS: [(&str, &str); 2] = [
    ("", "faults ok, 0 lines\n"),
    ("press_two,1,no_motion,\n", "faults ok, 1 line\n"),
];

const BAD_FAULTS: [(&str, &str); 4] = [
    (
        "press_two,1,slow,30\n\npress_two,2,slow,1001\n",
        "line 3, record 2: press_two,2,slow,1001: field 4: a number from 1 to 1000, in digits alone, with no 0 in \
            front\n",
    ),
    (
        "press_two,0,both,\n",
        "line 1, record 1: press_two,0,both,: field 2: a number from 1 to 1000000, in digits alone, with no 0 in \
            front\n",
    ),
    (
        "press_two,1,both,2\n",
        "line 1, record 1: press_two,1,both,2: field 4: nothing\n",
    ),
    (
        "press_two,1,both,\npress_two,1,slow,3\n",
        "line 2, record 2: press_two,1,slow,3: this motion has a fault already\n",
    ),
];

const GOOD_OPERATOR: [(&str, &str); 1] = [(
    "failed,press2,clear,press2\nadmitted,0,repair,press2\nalways,,expect,1\n",
    "operator ok, 3 lines\n",
)];

const BAD_OPERATOR: [(&str, &str); 4] = [
    (
        "often,,stop,press1\n",
        "line 1, record 1: often,,stop,press1: field 1: one of always, admitted, delivered, quarantined, failed\n",
    ),
    (
        "always,1,stop,press1\n",
        "line 1, record 1: always,1,stop,press1: field 2: nothing\n",
    ),
    (
        "admitted,01,stop,press1\n",
        "line 1, record 1: admitted,01,stop,press1: field 2: a number from 0 to 100000, in digits alone, with no 0 in \
            front\n",
    ),
    (
        "always,,clear,robot\n",
        "line 1, record 1: always,,clear,robot: field 4: one of feed_in, feed_end, table, arm1, arm2, press1, press2, \
            dep_in, dep_end\n",
    ),
];

#[test]
fn a_script_is_explained(rt: HostRuntime) {
    check_texts(&rt, Kind::Faults, 0, &GOOD_FAULTS);
    check_texts(&rt, Kind::Faults, 1, &BAD_FAULTS);
    check_texts(&rt, Kind::Operator, 0, &GOOD_OPERATOR);
    check_texts(&rt, Kind::Operator, 1, &BAD_OPERATOR);
}

#[test]
fn a_long_script_is_told_by_its_first_line_too_many(rt: HostRuntime) {
    let mut text = String::new(rt.alloc());
    for _ in 0..1001 {
        text.push_str("\nalways,,stop,feed\n").expect(&rt, "memory");
    }
    let wanted = "line 2002: more than 1000 lines\n";
    check_texts(&rt, Kind::Operator, 1, &[(text.as_str(), wanted)]);
}
