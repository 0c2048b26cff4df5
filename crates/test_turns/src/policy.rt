//! Worked examples: which press is chosen along the journal of one plate, and which lights are wanted.
use cell_policy::{choose_press, deposit_light_wanted, feed_light_wanted};
use cell_types::{Colour, Machine};
use plate_book::Book;
use std::alloc::Global;
use std::process::Abort;
use test_samples::{LAID_BACK, ONE_PLATE, book_all};

// What is chosen or wanted by a book: a press; both lights, for so many plates; and the feed light alone.
#[derive(Clone, Copy, Debug)]
enum Wanted {
    Press(Option<Machine>),
    Lights(u32, Colour, Colour),
    FeedLight(u32, Colour),
}

fn is_met(book: &Book, wanted: Wanted) -> bool {
    match wanted {
        Wanted::Press(press) => choose_press(book) == press,
        Wanted::Lights(plan, feed, deposit) => {
            feed_light_wanted(book, plan) == feed && deposit_light_wanted(book) == deposit
        }
        Wanted::FeedLight(plan, feed) => feed_light_wanted(book, plan) == feed,
    }
}

// Checks what is wanted by a book of these records, and then of those.
fn check_after(rt: &impl Abort, alloc: Global, first: &[&str], then: &[&str], wanted: Wanted) {
    let Ok(mut book) = Book::new(alloc, 100, 10) else {
        panic!(rt; "the limits are in range, and there is memory");
    };
    let booked = book_all(&mut book, first).is_ok() && book_all(&mut book, then).is_ok();
    assert!(rt; booked, "all are allowed");
    let count = first.len();
    assert!(rt; is_met(&book, wanted), "after {count}: {wanted:?}");
}

#[test]
fn a_press_is_chosen(rt: HostRuntime) {
    let none: &[&str] = &[];
    let stopped: &[&str] = &["declared,press1,operator_stop,"];
    let both: &[&str] = &[
        "declared,press1,operator_stop,",
        "declared,press2,operator_stop,",
    ];
    let held: &[&str] = &["claimed,press1,z3,"];
    let emptied: &[&str] = &[
        "declared,press1,operator_stop,",
        "quarantined,1,press1,",
        "repaired,press1,,",
    ];
    for &(count, records, chosen) in &[
        (0, none, Some(Machine::Press1)),
        (38, none, Some(Machine::Press2)),
        (0, stopped, Some(Machine::Press2)),
        (0, both, None),
        (0, held, Some(Machine::Press2)),
        (38, emptied, Some(Machine::Press2)),
        (32, none, Some(Machine::Press2)),
    ] {
        let first = &ONE_PLATE[..count.min(62)];
        check_after(&rt, rt.alloc(), first, records, Wanted::Press(chosen));
    }
}

#[test]
fn lights_are_wanted(rt: HostRuntime) {
    for &(count, plan, feed, deposit) in &[
        (0, 0, Colour::Red, Colour::Red),
        (0, 1, Colour::Green, Colour::Red),
        (2, 5, Colour::Red, Colour::Red),
        (3, 5, Colour::Red, Colour::Red),
        (4, 5, Colour::Red, Colour::Red),
        (6, 5, Colour::Red, Colour::Red),
        (7, 5, Colour::Green, Colour::Red),
        (7, 1, Colour::Red, Colour::Red),
        (58, 1, Colour::Red, Colour::Red),
        (59, 1, Colour::Red, Colour::Green),
        (61, 2, Colour::Green, Colour::Green),
    ] {
        let wanted = Wanted::Lights(plan, feed, deposit);
        let first = &ONE_PLATE[..count.min(62)];
        check_after(&rt, rt.alloc(), first, &[], wanted);
    }
}

// A plate that is expected may be laid in though as many were admitted as are planned, where the belt is empty and
// healthy.
#[test]
fn a_light_is_wanted_for_a_plate_that_is_expected(rt: HostRuntime) {
    let none: &[&str] = &[];
    let failed: &[&str] = &["declared,feed,silent,"];
    for &(count, records, plan, wanted) in &[
        (10, none, 1, Colour::Red),
        (10, none, 2, Colour::Green),
        (11, none, 1, Colour::Green),
        (11, none, 2, Colour::Green),
        (11, failed, 1, Colour::Red),
        (12, none, 1, Colour::Green),
        (13, none, 1, Colour::Red),
        (13, none, 2, Colour::Red),
    ] {
        let first = &LAID_BACK[..count.min(13)];
        check_after(
            &rt,
            rt.alloc(),
            first,
            records,
            Wanted::FeedLight(plan, wanted),
        );
    }
}
