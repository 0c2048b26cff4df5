//! Past states, and entries as words.
use crate::book::book_with;
use crate::cases::{entry, is_wanted, number, part, text_of};
use cell_journal::laws::{pack, unpack};
use cell_journal::{Journal, Snapshot};
use cell_types::{AXES, Axis, BELTS, Belt, MACHINES, Machine, STATIONS, Station, ZONES, Zone};
use plate_book::Book;
use std::alloc::{AllocError, Global};
use std::process::Abort;
use test_samples::{LAID_BACK, ONE_PLATE};

// Records, and the words of their entries by the table of bits.
const PACKED: [(&str, u32); 6] = [
    ("lamp,feed,red,", 0),
    ("conveyed,feed_belt,1,table", 134_218_246),
    ("started,press_one,top,", 8388),
    ("quarantined,100000,press2,", 453_853_197),
    ("expected,1,,", 527),
    ("reinstated,100000,,", 51_200_016),
];

// Words of no entry. A plate that is expected or laid back has a number from 1 to 100,000, and nothing besides. No
// kind has a number from 17 on, no entry has the two highest bits, a second colour is the last one, an admission has
// a plate from 1 to 100,000, and nothing besides.
const NO_ENTRY: [u32; 15] = [
    15,
    16,
    15 + (100_001 << 9),
    15 + (1 << 5) + (1 << 9),
    16 + (1 << 9) + (1 << 26),
    17,
    17 + (1 << 9),
    31,
    1 << 30,
    1 << 31,
    2 << 9,
    1,
    1 + (100_001 << 9),
    1 + (1 << 5) + (1 << 9),
    1 + (1 << 9) + (1 << 26),
];

// Records of kinds and words that the journal of one plate has not.
const OTHERS: [&str; 9] = [
    "admitted,100000,,",
    "gripped,arm2,77,press2",
    "dropped,arm1,3,press2",
    "declared,deposit,operator_stop,",
    "stop_asked,press2,,",
    "quarantined,9,dep_end,",
    "repaired,robot,,",
    "expected,100000,,",
    "reinstated,77,,",
];

// The entry of a record is packed as this word, and unpacked from it.
fn is_packed(rt: &impl Abort, record: &str, word: u32) {
    let entry = entry(rt, record);
    assert!(rt;
        pack(entry) == word && unpack(word) == Some(entry),
        "{record}"
    );
}

#[test]
fn entries_are_packed_by_the_table_of_bits(rt: HostRuntime) {
    for &(record, word) in &PACKED {
        is_packed(&rt, record, word);
    }
    for &word in &NO_ENTRY {
        assert!(rt; unpack(word).is_none(), "{word}");
    }
    for record in ONE_PLATE.iter().chain(OTHERS.iter()) {
        is_packed(&rt, record, pack(entry(&rt, record)));
    }
}

// Whether a book tells of a machine what a snapshot says.
fn tells_machine(snapshot: &Snapshot, book: &Book, machine: Machine) -> bool {
    snapshot.failed(machine) == book.failed(machine)
        && snapshot.asked(machine) == book.asked(machine)
}

// Whether a book tells of stations and axes what a snapshot says.
fn tells_places(snapshot: &Snapshot, book: &Book) -> bool {
    STATIONS.iter().all(|station| snapshot.plate_at(*station) == book.plate_at(*station))
        && AXES
            .iter()
            .all(|axis| snapshot.pose(*axis) == book.pose(*axis))
}

// Whether a book tells of zones, machines and lights what a snapshot says.
fn tells_signs(snapshot: &Snapshot, book: &Book) -> bool {
    ZONES
        .iter()
        .all(|zone| snapshot.holder(*zone) == book.holder(*zone))
        && MACHINES
            .iter()
            .all(|machine| tells_machine(snapshot, book, *machine))
        && BELTS
            .iter()
            .all(|belt| snapshot.lamp(*belt) == book.lamp(*belt))
}

// What a book tells is what a snapshot says.
fn check_told(rt: &impl Abort, snapshot: &Snapshot, book: &Book) {
    assert!(rt; tells_places(snapshot, book));
    assert!(rt; tells_signs(snapshot, book));
    assert!(rt; snapshot.expected == book.expected());
    assert!(rt; snapshot.totals == book.totals());
}

// The state of a book after as many entries as another has is what that one tells.
fn is_past_state(rt: &impl Abort, whole: &Book, book: &Book) {
    let length = book.journal().len();
    assert!(rt; length <= whole.journal().len());
    let (snapshot, replayed) = whole.state_at(length);
    check_told(rt, &snapshot, book);
    assert!(rt; replayed == length);
}

// Each past state of a journal is what a book with so many entries tells, and the opening what an empty book tells.
fn are_past_states(rt: &impl Abort, alloc: Global, journal: &[&str]) {
    let whole = book_with(rt, alloc, [100, 10], journal);
    is_past_state(rt, &whole, &book_with(rt, alloc, [1, 1], &[]));
    for count in 0..journal.len() {
        is_past_state(
            rt,
            &whole,
            &book_with(rt, alloc, [100, 10], &journal[..count]),
        );
    }
    is_past_state(rt, &whole, &whole);
}

#[test]
fn each_past_state_is_that_of_a_shorter_book(rt: HostRuntime) {
    are_past_states(&rt, rt.alloc(), &ONE_PLATE);
    are_past_states(&rt, rt.alloc(), &LAID_BACK);
}

// A case: after how many entries, what is asked of the state then, and the answer. `replayed`: how many entries were
// replayed for it.

// The journal of one plate: the plate is in the first press, which stands at the top.
const IN_THE_PRESS: [&str; 5] = [
    "35|press1|Some(PlateId { number: 1 })",
    "35|press_one|AxisState { at: Top, going: None }",
    "35|z3|Some(Press1)",
    "35|totals|Totals { entries: 35, admitted: 1, forged: 1, quarantined: 0, delivered: 0, reinstated: 0 }",
    "35|replayed|35",
];

// The journal of a plate that is laid back.
const EXPECTED: [&str; 14] = [
    "0|expected|None",
    "1|expected|None",
    "2|expected|None",
    "3|expected|None",
    "4|expected|None",
    "5|expected|None",
    "6|expected|None",
    "7|expected|None",
    "8|expected|None",
    "9|expected|None",
    "10|expected|None",
    "11|expected|Some(PlateId { number: 1 })",
    "12|expected|Some(PlateId { number: 1 })",
    "13|expected|None",
];

// A journal of 300 entries that switch the feed light, green first. Each 256 entries there is a checkpoint.
const SWITCHED: [&str; 9] = [
    "255|feed_light|Green",
    "255|totals|Totals { entries: 255, admitted: 0, forged: 0, quarantined: 0, delivered: 0, reinstated: 0 }",
    "255|replayed|255",
    "256|feed_light|Red",
    "256|totals|Totals { entries: 256, admitted: 0, forged: 0, quarantined: 0, delivered: 0, reinstated: 0 }",
    "256|replayed|0",
    "300|feed_light|Red",
    "300|totals|Totals { entries: 300, admitted: 0, forged: 0, quarantined: 0, delivered: 0, reinstated: 0 }",
    "300|replayed|44",
];

// A journal of three entries that isn't legal: the robot gives up its zone by the last one, and still carries its
// plate.
const EFFECTS: [&str; 5] = [
    "2|z3|Some(Robot)",
    "2|arm1|Some(PlateId { number: 7 })",
    "3|z3|None",
    "3|arm1|Some(PlateId { number: 7 })",
    "3|replayed|3",
];

// What a past state answers to a question.
fn answer(alloc: Global, state: &(Snapshot, u32), question: &str) -> Result<String, AllocError> {
    let (snapshot, replayed) = state;
    match question {
        "press1" => text_of(alloc, &snapshot.plate_at(Station::Press1)),
        "arm1" => text_of(alloc, &snapshot.plate_at(Station::Arm1)),
        "press_one" => text_of(alloc, &snapshot.pose(Axis::PressOne)),
        "z3" => text_of(alloc, &snapshot.holder(Zone::Z3)),
        "feed_light" => text_of(alloc, &snapshot.lamp(Belt::Feed)),
        "expected" => text_of(alloc, &snapshot.expected),
        "totals" => text_of(alloc, &snapshot.totals),
        "replayed" => text_of(alloc, replayed),
        _ => text_of(alloc, &question),
    }
}

// The past states of a book give the answers of these cases.
fn all_answer(rt: &impl Abort, alloc: Global, book: &Book, cases: &[&str]) {
    for case in cases {
        let count = number(rt, part(case, 0));
        assert!(rt; count <= book.journal().len(), "{case}");
        let state = book.state_at(count);
        is_wanted(rt, answer(alloc, &state, part(case, 1)), case);
    }
}

// A book of 300 entries that switch the feed light.
fn switched(rt: &impl Abort, alloc: Global) -> Book {
    let mut records = Vec::new(alloc);
    for _ in 0..150 {
        records
            .extend_from_slice(&["lamp,feed,green,", "lamp,feed,red,"])
            .expect(rt, "memory");
    }
    book_with(rt, alloc, [300, 1], records.as_slice())
}

#[test]
fn past_states_are_seen_and_replayed_from_the_last_checkpoint(rt: HostRuntime) {
    let alloc = rt.alloc();
    all_answer(
        &rt,
        alloc,
        &book_with(&rt, alloc, [100, 10], &ONE_PLATE),
        &IN_THE_PRESS,
    );
    all_answer(
        &rt,
        alloc,
        &book_with(&rt, alloc, [100, 10], &LAID_BACK),
        &EXPECTED,
    );
    all_answer(&rt, alloc, &switched(&rt, alloc), &SWITCHED);
}

// A journal keeps no law but its limit: what its entries leave is by their effects alone.
#[test]
fn a_journal_tells_the_effects_of_any_entries(rt: HostRuntime) {
    let mut journal = Journal::with_limit(rt.alloc(), 3).expect(&rt, "a journal");
    for &record in &[
        "claimed,robot,z3,",
        "gripped,arm1,7,table",
        "repaired,robot,,",
    ] {
        let entry = entry(&rt, record);
        assert!(rt; !journal.is_full_for(&entry), "{record}");
        journal.append(entry);
    }
    assert!(rt; journal.len() == 3);
    assert!(rt; journal.at(2) == entry(&rt, "repaired,robot,,"));
    for &case in &EFFECTS {
        let count = number(&rt, part(case, 0));
        assert!(rt; count <= journal.len(), "{case}");
        let state = journal.state_at(count);
        is_wanted(&rt, answer(rt.alloc(), &state, part(case, 1)), case);
    }
}
