//! Who waits for what: in books of a few entries, in the cell after each first part of a journal, and in a page's data.
use cell_reads::Reads;
use cell_show::page::{Window, write_page};
use cell_types::{Axis, MACHINES, Machine, Zone};
use cell_waits::{Past, Waiting, waits_for};
use plate_book::{Book, Refusal};
use std::alloc::Global;
use std::process::Abort;
use test_samples::{LAID_BACK, ONE_PLATE, begun, book_all, entry_of, plate};

// A second plate comes on the feed belt.
const SECOND: [&str; 4] = [
    "lamp,feed,green,",
    "admitted,2,,",
    "started,feed_belt,to_end,",
    "conveyed,feed_belt,2,feed_end",
];

// A machine after so many entries of the journal of one plate and some more, and what it waits for: what it wants next,
// and why that is refused.
type Case = (
    usize,
    &'static [&'static str],
    Machine,
    Option<(&'static str, Refusal)>,
);

// Fifteen of them, by the rules of docs/CELL.md.
const CASES: [Case; 15] = [
    // Nothing is laid in: the feed belt wants no motion. Then it moves, and gives its plate to the table.
    (0, &[], Machine::Feed, None),
    (3, &[], Machine::Feed, None),
    (4, &[], Machine::Feed, None),
    // Its motion has no end while it is failed.
    (
        3,
        &["declared,feed,operator_stop,"],
        Machine::Feed,
        Some((
            "conveyed,feed_belt,1,feed_end",
            Refusal::MachineFailed(Machine::Feed),
        )),
    ),
    // The robot is to fetch the plate, once the table that lifted it has left its zone.
    (
        14,
        &[],
        Machine::Robot,
        Some(("claimed,robot,z2,", Refusal::ZoneTaken(Zone::Z2))),
    ),
    (16, &SECOND, Machine::Robot, None),
    (16, &SECOND, Machine::Table, None),
    // The next plate comes while the table is still at the robot.
    (
        16,
        &SECOND,
        Machine::Feed,
        Some((
            "started,feed_belt,to_table,",
            Refusal::WrongPose(Axis::TableLift),
        )),
    ),
    // The table has a plate to lift.
    (
        8,
        &["declared,table,operator_stop,"],
        Machine::Table,
        Some(("claimed,table,z1,", Refusal::MachineFailed(Machine::Table))),
    ),
    // No press is left for the plate that arm 1 has; or one is.
    (
        23,
        &[
            "declared,press1,operator_stop,",
            "declared,press2,operator_stop,",
        ],
        Machine::Robot,
        Some((
            "dropped,arm1,1,press2",
            Refusal::OwnerFailed(Machine::Press2),
        )),
    ),
    (
        23,
        &["declared,press2,operator_stop,"],
        Machine::Robot,
        None,
    ),
    // The robot is still in the press's zone, and then gives it up; and so in the deposit belt's.
    (
        29,
        &[],
        Machine::Press1,
        Some(("claimed,press1,z3,", Refusal::ZoneTaken(Zone::Z3))),
    ),
    (32, &[], Machine::Press1, None),
    (
        53,
        &[],
        Machine::Deposit,
        Some(("claimed,deposit,z5,", Refusal::ZoneTaken(Zone::Z5))),
    ),
    (62, &[], Machine::Deposit, None),
];

// What a machine waits for in a book.
fn waiting(book: &Book, machine: Machine) -> Option<Waiting> {
    waits_for(book.registers(), book.limits(), machine)
}

#[test]
fn tells_what_a_machine_waits_for(rt: HostRuntime) {
    for &(first, more, machine, waits) in &CASES {
        let mut book = begun(rt.alloc(), 100, 10, first).expect(&rt, "a book");
        assert!(rt; book_all(&mut book, more).is_ok());
        let wanted = match waits {
            Some((record, refusal)) => entry_of(record).map(|wanted| Waiting { wanted, refusal }),
            None => None,
        };
        assert!(rt;
            waiting(&book, machine) == wanted,
            "{machine:?} after {first}"
        );
    }
}

// The cell after the first entries of a book is that of a book of these entries alone.
fn goes_along(rt: &impl Abort, alloc: Global, records: &[&str]) {
    let mut whole = Book::new(alloc, 100, 10).ok().expect(rt, "a book");
    assert!(rt; book_all(&mut whole, records).is_ok());
    let mut part = Book::new(alloc, 100, 10).ok().expect(rt, "a book");
    let mut past = Past::at_opening(&whole);
    let first = plate(1).ok().expect(rt, "a plate");
    for place in 0..=records.len() {
        for machine in MACHINES {
            let limits = part.limits();
            let is_same = waits_for(&past, limits, machine) == waiting(&part, machine)
                && past.forged_by(machine) == part.forged_by(machine);
            assert!(rt; is_same, "{machine:?} after {place}");
        }
        assert!(rt;
            past.waits_from(first) == part.registers().waits_from(first),
            "after {place}"
        );
        if let Some(record) = records.get(place) {
            assert!(rt; book_all(&mut part, &[*record]).is_ok());
        }
        past.step();
    }
}

#[test]
fn goes_along_a_journal(rt: HostRuntime) {
    goes_along(&rt, rt.alloc(), &ONE_PLATE);
    goes_along(&rt, rt.alloc(), &LAID_BACK);
}

// The list of the state after so many entries of the journal of one plate. The robot waits while the table that lifts
// its plate is in its zone, and the press while the robot that laid the plate in is in its own.
fn list_after(place: usize) -> &'static str {
    match place {
        14 => r#"[0,0,["robot: claims zone z2","ZoneTaken z2: zone z2 is held","zone-1"],0,0,0]"#,
        16 => "[0,0,[],0,0,0]",
        29 => {
            r#"[0,0,0,["press 1: claims zone z3","ZoneTaken z3: zone z3 is held","zone-2"],0,0]"#
        }
        32 => "[0,0,0,[],0,0]",
        _ => "[0,0,0,0,0,0]",
    }
}

// The page of some states has a list for each, of which the first tells all that is waited for.
fn has_lists(
    rt: &impl Abort,
    alloc: Global,
    window: Window,
    first: &str,
    since: usize,
    until: usize,
) {
    let book = begun(alloc, 100, 10, 34).expect(rt, "a book");
    let mut page = Vec::new(alloc);
    let entries = book.journal().len();
    assert!(rt; window.from <= entries);
    assert!(rt; write_page(&mut page, &book, window, None, None, None).is_ok());
    let page = String::from_utf8(page).ok().expect(rt, "the page is UTF-8");
    let (_, rest) = page
        .as_str()
        .split_once("\"waits\":[\n")
        .unwrap_or(("", ""));
    let (lists, _) = rest.split_once("\n],\n\"rows\":[\n").unwrap_or(("", ""));
    let mut left = lists.strip_prefix(first).unwrap_or("");
    for place in since..until {
        let rest = left
            .strip_prefix(",\n")
            .unwrap_or("")
            .strip_prefix(list_after(place));
        assert!(rt; rest.is_some(), "after {place}: {left}");
        left = rest.unwrap_or("");
    }
    assert!(rt; !lists.is_empty() && left == "", "from {first}");
}

// A page's data tell what changes.
#[test]
fn tells_what_changes_in_the_page(rt: HostRuntime) {
    has_lists(&rt, rt.alloc(), Window::FIRST, list_after(0), 1, 35);
    // The robot waits since the state before, and so does the press.
    let part = Window { from: 15, count: 2 };
    has_lists(&rt, rt.alloc(), part, list_after(14), 16, 18);
    let end = Window { from: 30, count: 9 };
    has_lists(&rt, rt.alloc(), end, list_after(29), 31, 35);
}
