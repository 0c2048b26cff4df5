//! The machines' proposals alone carry plates through the cell, where each motion ends and each sign comes as soon as
//! it can.
use cell_machines::propose;
use cell_types::{AXES, Axis, Belt, Colour, Entry, MACHINES, Machine, PlateId, Pose, Station};
use plate_book::Book;
use std::alloc::Global;
use std::process::Abort;
use test_samples::entry_of;

fn conveyed(book: &Book, axis: Axis, from: Station, dest: Station) -> Option<Entry> {
    let plate = book.plate_at(from)?;
    Some(Entry::Conveyed { axis, plate, dest })
}

fn forged(book: &Book, press: Machine, station: Station) -> Option<Entry> {
    let plate = book.plate_at(station)?;
    Some(Entry::Forged { press, plate })
}

// The end of an axis's motion, where it moves.
fn motion_end(book: &Book, axis: Axis) -> Option<Entry> {
    let to = book.pose(axis).going?;
    match (axis, to) {
        (Axis::FeedBelt, Pose::ToEnd) => conveyed(book, axis, Station::FeedIn, Station::FeedEnd),
        (Axis::FeedBelt, _) => conveyed(book, axis, Station::FeedEnd, Station::Table),
        (Axis::DepositBelt, _) => conveyed(book, axis, Station::DepIn, Station::DepEnd),
        (Axis::PressOne, Pose::Top) => forged(book, Machine::Press1, Station::Press1),
        (Axis::PressTwo, Pose::Top) => forged(book, Machine::Press2, Station::Press2),
        _ => Some(Entry::Arrived { axis, at: to }),
    }
}

// The next plate, where the feed light is green.
fn admission(book: &Book) -> Option<Entry> {
    if book.lamp(Belt::Feed) == Colour::Red {
        return None;
    }
    let plate = PlateId::new(book.totals().admitted.saturating_add(1))?;
    Some(Entry::Admitted { plate })
}

// The plate at the deposit belt's end is taken, where the deposit light is green.
fn delivery(book: &Book) -> Option<Entry> {
    if book.lamp(Belt::Deposit) == Colour::Red {
        return None;
    }
    let plate = book.plate_at(Station::DepEnd)?;
    Some(Entry::Delivered { plate })
}

// Books an entry, if there is one, which is allowed.
fn book_one(rt: &impl Abort, book: &mut Book, entry: Option<Entry>) -> bool {
    let Some(entry) = entry else {
        return false;
    };
    let answer = book.apply(entry);
    assert!(rt;
        answer == Ok(()),
        "a proposal, a motion's end and a sign are allowed"
    );
    true
}

fn end_motions(rt: &impl Abort, book: &mut Book) -> bool {
    let mut is_booked = false;
    for &axis in &AXES {
        let end = motion_end(book, axis);
        is_booked |= book_one(rt, book, end);
    }
    is_booked
}

fn follow_proposals(rt: &impl Abort, book: &mut Book, plan: u32) -> bool {
    let mut is_booked = false;
    for &machine in &MACHINES {
        let proposal = propose(machine, book, plan);
        is_booked |= book_one(rt, book, proposal);
    }
    is_booked
}

// One round: what ends, the signs, and what each machine proposes. False where nothing was booked.
fn round(rt: &impl Abort, book: &mut Book, plan: u32) -> bool {
    let ended = end_motions(rt, book);
    let plate = admission(book);
    let admitted = book_one(rt, book, plate);
    let plate = delivery(book);
    let delivered = book_one(rt, book, plate);
    let followed = follow_proposals(rt, book, plan);
    ended || admitted || delivered || followed
}

// Carries plates until nothing more happens, from the opening and these entries.
fn walked(rt: &impl Abort, alloc: Global, plan: u32, records: &[&str]) -> Book {
    let Ok(mut book) = Book::new(alloc, 1000, plan) else {
        panic!(rt; "the limits are in range, and there is memory");
    };
    for record in records {
        let entry = entry_of(record).expect(rt, record);
        book_one(rt, &mut book, Some(entry));
    }
    for _ in 0..1000 {
        if !round(rt, &mut book, plan) {
            return book;
        }
    }
    panic!(rt; "something always happens");
}

// From the opening and these entries five plates are carried through the cell, of which each press forges so many.
fn check_walk(rt: &impl Abort, alloc: Global, records: &[&str], first: u32, second: u32) {
    let book = walked(rt, alloc, 5, records);
    let totals = book.totals();
    assert!(rt; totals.admitted == 5 && totals.forged == 5 && totals.delivered == 5);
    assert!(rt;
        book.forged_by(Machine::Press1) == first && book.forged_by(Machine::Press2) == second
    );
    assert!(rt; book.on_stations().is_empty());
}

#[test]
fn proposals_carry_plates_through_the_cell(rt: HostRuntime) {
    let (alloc, first_failed) = (rt.alloc(), ["declared,press1,operator_stop,"]);
    let second_failed = ["declared,press2,operator_stop,"];
    check_walk(&rt, alloc, &[], 3, 2);
    check_walk(&rt, alloc, &first_failed, 0, 5);
    check_walk(&rt, alloc, &second_failed, 5, 0);
}
