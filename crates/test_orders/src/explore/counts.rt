//! How many states there are, as the same steps in another language count them.
use cell_explore::breadth::{NoProgress, Search};
use cell_explore::{PackedState, Question, search};
use std::process::Abort;
use std::thread::Threads;

const NONE_FAILS: [bool; 6] = [false; 6];

const ROBOT_FAILS: [bool; 6] = [false, false, true, false, false, false];

const PRESS1_FAILS: [bool; 6] = [false, false, false, true, false, false];

const PRESS2_FAILS: [bool; 6] = [false, false, false, false, true, false];

// States, steps, finished and stuck.
type Counts = (usize, u64, u32, u32);

// The search with one plate sees all states, and counts these.
fn check_counts<R: AllocGlobal + Abort + Threads + Sync>(
    rt: &R,
    may_fail: [bool; 6],
    repairs: bool,
    counts: Counts,
) {
    let asked = Question {
        plan: 1,
        may_fail,
        repairs,
    };
    let Ok(found) = search(rt, &asked, 100_000, 1, &mut NoProgress) else {
        panic!(rt; "there is memory");
    };
    assert!(rt; found.is_complete, "all are seen");
    let counted = (
        found.visited.len(),
        found.steps,
        found.finished,
        found.stuck,
    );
    assert!(rt; counted == counts, "{counted:?}");
}

#[test]
fn counts_where_nothing_fails(rt: HostRuntime) {
    check_counts(&rt, NONE_FAILS, false, (1631, 4544, 1, 0));
}

#[test]
fn counts_where_the_robot_fails(rt: HostRuntime) {
    check_counts(&rt, ROBOT_FAILS, false, (3262, 9823, 20, 16));
}

#[test]
fn counts_where_press1_fails(rt: HostRuntime) {
    check_counts(&rt, PRESS1_FAILS, false, (4928, 14_247, 15, 0));
}

#[test]
fn counts_where_press2_fails(rt: HostRuntime) {
    check_counts(&rt, PRESS2_FAILS, false, (3262, 10_719, 2, 0));
}

#[test]
fn counts_where_press1_fails_and_is_repaired(rt: HostRuntime) {
    check_counts(&rt, PRESS1_FAILS, true, (8337, 26_682, 6, 0));
}

#[test]
fn stops_past_the_limit(rt: HostRuntime) {
    let asked = Question {
        plan: 1,
        may_fail: NONE_FAILS,
        repairs: false,
    };
    let Ok(found) = search(&rt, &asked, 1630, 1, &mut NoProgress) else {
        panic!(rt; "there is memory");
    };
    assert!(rt; !found.is_complete, "there is one state more");
}

fn is_same(one: &Search<PackedState>, other: &Search<PackedState>) -> bool {
    one.visited.as_slice() == other.visited.as_slice()
        && one.parents.as_slice() == other.parents.as_slice()
        && one.steps == other.steps
        && one.stuck == other.stuck
        && one.finished == other.finished
        && one.is_complete == other.is_complete
}

// On several threads the search comes out as on one.
fn check_threads<R: AllocGlobal + Abort + Threads + Sync>(rt: &R, asked: &Question, limit: u32) {
    let Ok(one) = search(rt, asked, limit, 1, &mut NoProgress) else {
        panic!(rt; "there is memory");
    };
    let Ok(several) = search(rt, asked, limit, 3, &mut NoProgress) else {
        panic!(rt; "there is memory");
    };
    assert!(rt; is_same(&one, &several), "three threads see the same");
}

#[test]
fn several_threads_see_the_same_where_press1_fails(rt: HostRuntime) {
    let asked = Question {
        plan: 1,
        may_fail: PRESS1_FAILS,
        repairs: false,
    };
    check_threads(&rt, &asked, 100_000);
}

#[test]
fn several_threads_see_the_same_up_to_a_limit(rt: HostRuntime) {
    let asked = Question {
        plan: 2,
        may_fail: NONE_FAILS,
        repairs: false,
    };
    check_threads(&rt, &asked, 20_000);
}
