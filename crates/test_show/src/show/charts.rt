//! Journals on an axis of time.
use crate::states::{FAILED_PRESS, booked};
use cell_audit::AuditError;
use cell_measures::Durations;
use cell_show::chart::{ChartError, draw_chart};
use cell_types::{Axis, Belt, Colour, Entry, Pose};
use plate_book::Book;
use std::alloc::Global;
use std::process::Abort;

// The chart of a book's first entries has these parts.
fn shows(
    rt: &impl Abort,
    alloc: Global,
    book: &Book,
    entries: u32,
    durations: &Durations,
    parts: &[&str],
) {
    let mut bytes = Vec::new(alloc);
    let answer = Some(AuditError::Unreadable(15));
    let drawn = draw_chart(
        alloc,
        &mut bytes,
        book.journal(),
        entries,
        durations,
        answer,
    );
    assert!(rt; drawn.is_ok());
    let file = String::from_utf8_lossy(alloc, bytes.as_slice()).expect(rt, "memory");
    let chart = file.as_str();
    assert!(rt; chart.starts_with("<svg xmlns=\"http://www.w3.org/2000/svg\""));
    assert!(rt; chart.ends_with("</svg>\n"));
    for part in parts {
        assert!(rt; chart.find(*part).is_some(), "{part}");
    }
}

// The table fails at once and is repaired when the feed belt has left its zone.
const ALL: [&str; 9] = [
    ">14 entries, least time 5</text>",
    ">unreadable 15</text>",
    "<title>to_end: 0 to 1</title>",
    "<title>to_table: 1 to 5</title>",
    "<title>plate 1: 0 to 1</title>",
    "<title>plate 1: 1 to 5</title>",
    "<title>held by feed belt: 1 to 5</title>",
    "<title>failed, the operator asked for the stop: 0 to 5</title>",
    "<title>failed, its readings are missing: 0 to 5</title>",
];

// What goes on after four entries is drawn up to the end.
const FIRST: [&str; 5] = [
    ">4 entries, least time 1</text>",
    "<metadata>0 0 0 1 </metadata>\n",
    "<title>to_end: 0 to 1</title>",
    "<title>plate 1: 0 to 1</title>",
    "<title>plate 1: 1 to 1</title>",
];

#[test]
fn shows_motions_holders_plates_and_failures(rt: HostRuntime) {
    let book = booked(&rt, rt.alloc(), &FAILED_PRESS);
    let mut durations = Durations::ONE;
    durations.set(Axis::FeedBelt, Pose::ToTable, 4);
    shows(&rt, rt.alloc(), &book, 14, &durations, &ALL);
    shows(&rt, rt.alloc(), &book, 4, &durations, &FIRST);
    let nothing = [">0 entries, least time 0</text>", "<metadata></metadata>\n"];
    shows(&rt, rt.alloc(), &book, 0, &durations, &nothing);
}

#[test]
fn a_journal_may_be_too_long(rt: HostRuntime) {
    let mut book = Book::new(rt.alloc(), 30_000, 1).ok().expect(&rt, "a book");
    for place in 0..20_001u32 {
        let colour = if place % 2 == 0 {
            Colour::Green
        } else {
            Colour::Red
        };
        let belt = Belt::Feed;
        assert!(rt; book.apply(Entry::Lamp { belt, colour }).is_ok());
    }
    let mut bytes = Vec::new(rt.alloc());
    let answer = draw_chart(
        rt.alloc(),
        &mut bytes,
        book.journal(),
        1,
        &Durations::ONE,
        None,
    );
    assert!(rt; answer == Err(ChartError::TooManyEntries) && bytes.is_empty());
}
