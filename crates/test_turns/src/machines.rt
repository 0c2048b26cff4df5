//! Worked examples: what each machine proposes along the journal of one plate, as an independent program of the same
//! rules lists what is useful.
mod walk;

use cell_machines::propose;
use cell_types::{Actor, Entry, MACHINES, Machine, actor_of};
use plate_book::Book;
use std::alloc::Global;
use std::process::Abort;
use test_samples::{begun, book_all, entry_of};

// After how many of the journal's entries, with how many plates to be admitted, which entries are useful.
const USEFUL: [(usize, u32, &str); 33] = [
    (0, 5, "lamp,feed,green,"),
    (2, 5, "started,feed_belt,to_end,"),
    (4, 5, "claimed,feed,z1,"),
    (5, 5, "started,feed_belt,to_table,"),
    (7, 5, "lamp,feed,green, yielded,feed,z1, claimed,table,z2,"),
    (
        10,
        5,
        "lamp,feed,green, started,table_lift,high, started,table_turn,robot,",
    ),
    (
        14,
        5,
        "lamp,feed,green, yielded,table,z1, yielded,table,z2,",
    ),
    (16, 5, "lamp,feed,green, claimed,robot,z2,"),
    (19, 5, "lamp,feed,green, gripped,arm1,1,table"),
    (
        20,
        5,
        "lamp,feed,green, claimed,table,z1, started,arm_one,in,",
    ),
    (
        22,
        5,
        "lamp,feed,green, claimed,table,z1, yielded,robot,z2,",
    ),
    (
        23,
        5,
        "lamp,feed,green, claimed,table,z1, claimed,table,z2, claimed,robot,z3,",
    ),
    (
        24,
        5,
        "lamp,feed,green, claimed,table,z1, claimed,table,z2, started,robot_turn,p1_load,",
    ),
    (
        26,
        5,
        "lamp,feed,green, claimed,table,z1, claimed,table,z2, started,arm_one,out,",
    ),
    (
        28,
        5,
        "lamp,feed,green, claimed,table,z1, claimed,table,z2, dropped,arm1,1,press1",
    ),
    (
        29,
        5,
        "lamp,feed,green, claimed,table,z1, claimed,table,z2, started,arm_one,in,",
    ),
    (
        32,
        1,
        "claimed,table,z1, claimed,table,z2, claimed,press1,z3,",
    ),
    (
        33,
        1,
        "claimed,table,z1, claimed,table,z2, started,press_one,top,",
    ),
    (
        35,
        1,
        "claimed,table,z1, claimed,table,z2, started,press_one,bottom,",
    ),
    (
        37,
        1,
        "claimed,table,z1, claimed,table,z2, yielded,press1,z3,",
    ),
    (
        38,
        1,
        "claimed,table,z1, claimed,table,z2, claimed,robot,z3,",
    ),
    (
        39,
        1,
        "claimed,table,z1, claimed,table,z2, started,robot_turn,p1_unload,",
    ),
    (
        43,
        1,
        "claimed,table,z1, claimed,table,z2, gripped,arm2,1,press1",
    ),
    (
        44,
        1,
        "claimed,table,z1, claimed,table,z2, started,arm_two,in,",
    ),
    (
        46,
        1,
        "claimed,table,z1, claimed,table,z2, yielded,robot,z3,",
    ),
    (
        47,
        1,
        "claimed,table,z1, claimed,table,z2, claimed,robot,z5, claimed,press1,z3,",
    ),
    (
        53,
        1,
        "claimed,table,z1, claimed,table,z2, started,arm_two,in, claimed,press1,z3,",
    ),
    (
        56,
        1,
        "claimed,table,z1, claimed,table,z2, claimed,press1,z3, claimed,deposit,z5,",
    ),
    (
        57,
        1,
        "claimed,table,z1, claimed,table,z2, claimed,press1,z3, started,deposit_belt,to_end,",
    ),
    (
        59,
        1,
        "claimed,table,z1, claimed,table,z2, claimed,press1,z3, lamp,deposit,green, yielded,deposit,z5,",
    ),
    (
        60,
        1,
        "claimed,table,z1, claimed,table,z2, claimed,press1,z3, lamp,deposit,green,",
    ),
    (
        61,
        1,
        "claimed,table,z1, claimed,table,z2, claimed,press1,z3,",
    ),
    (
        62,
        1,
        "claimed,table,z1, claimed,table,z2, claimed,press1,z3,",
    ),
];

fn is_of(machine: Machine, entry: Entry) -> bool {
    match actor_of(entry) {
        Actor::Machine(actor) => actor == machine,
        Actor::Operator => false,
    }
}

fn is_same(answer: &Option<Entry>, entry: &Entry) -> bool {
    match answer {
        Some(given) => given == entry,
        None => false,
    }
}

// Whether a machine proposes one of those of these entries that are its own, and nothing where there is none.
fn proposes_one_of(
    rt: &impl Abort,
    machine: Machine,
    book: &Book,
    plan: u32,
    useful: &str,
) -> bool {
    let answer = propose(machine, book, plan);
    let mut is_listed = false;
    let mut is_wanted = false;
    for record in useful.split(' ') {
        if record.is_empty() {
            continue;
        }
        let entry = entry_of(record).expect(rt, record);
        if is_of(machine, entry) {
            is_wanted = true;
            is_listed |= is_same(&answer, &entry);
        }
    }
    is_listed == is_wanted && answer.is_some() == is_wanted
}

// After so many of the journal's entries each machine proposes one of the useful entries that are its own.
fn each_proposes_one_of(rt: &impl Abort, alloc: Global, count: usize, plan: u32, useful: &str) {
    let book = begun(alloc, 100, 10, count).expect(rt, "a book");
    for &machine in &MACHINES {
        assert!(rt;
            proposes_one_of(rt, machine, &book, plan, useful),
            "after {count}"
        );
    }
}

fn all_are_proposed(rt: &impl Abort, alloc: Global, cases: &[(usize, u32, &str)]) {
    for (count, plan, useful) in cases {
        each_proposes_one_of(rt, alloc, *count, *plan, useful);
    }
}

#[test]
fn useful_entries_are_proposed(rt: HostRuntime) {
    all_are_proposed(&rt, rt.alloc(), &USEFUL);
}

// After so many of the journal's entries and then these, the robot proposes one of the useful entries that are its own,
// and the first press proposes nothing.
fn check_fault(rt: &impl Abort, alloc: Global, count: usize, records: &[&str], useful: &str) {
    let mut book = begun(alloc, 100, 10, count).expect(rt, "a book");
    assert!(rt; book_all(&mut book, records).is_ok(), "all are allowed");
    let is_answered = proposes_one_of(rt, Machine::Robot, &book, 1, useful)
        && proposes_one_of(rt, Machine::Press1, &book, 1, "");
    assert!(rt; is_answered, "after {count}");
}

#[test]
fn faults_are_answered(rt: HostRuntime) {
    let stopped: &[&str] = &["declared,press1,operator_stop,"];
    let silent: &[&str] = &["declared,robot,silent,"];
    for &(count, records, useful) in &[
        (28, stopped, "started,arm_one,in,"),
        (26, stopped, "yielded,robot,z3,"),
        (24, stopped, "yielded,robot,z3,"),
        (23, stopped, "claimed,robot,z4,"),
        (38, stopped, ""),
        (28, silent, ""),
    ] {
        check_fault(&rt, rt.alloc(), count, records, useful);
    }
}

#[test]
fn a_drop_is_proposed_at_a_full_journal(rt: HostRuntime) {
    let book = begun(rt.alloc(), 28, 10, 28).expect(&rt, "a book");
    let answers = proposes_one_of(&rt, Machine::Robot, &book, 1, "dropped,arm1,1,press1");
    assert!(rt; answers);
}
