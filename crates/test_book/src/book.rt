//! Worked examples: one plate carried whole through the cell, and what is answered on the way.
mod laid_back;
mod order_of_refusals;

use crate::cases::{entry, is_wanted, number, part, text_of};
use cell_types::{Axis, Belt, Machine, Place, PlateId, Station, Zone};
use plate_book::{Book, OpenError, Records, Refusal};
use std::alloc::{AllocError, Global};
use std::process::Abort;
use test_samples::{LAID_BACK, ONE_PLATE, Told, book_all, plate};

// A case: the limits of entries and plates, how many entries of a journal come first, the records that follow, what
// is asked, and the answer. A record is asked for by booking it: the answer is Ok, or the refusal's name and word.

const FIRST_REFUSALS: [&str; 18] = [
    "100 10 3||conveyed,feed_belt,2,feed_end|WrongPlate",
    "100 10 3||conveyed,feed_belt,1,table|WrongPose feed_belt",
    "100 10 2||started,feed_belt,rest,|WrongPose feed_belt",
    "100 10 2||lamp,feed,green,|StationFull feed_in",
    "100 10 2||forged,feed,1,|NoPress",
    "100 10 2||quarantined,1,feed_in,|MachineHealthy feed",
    "100 10 0||repaired,feed,,|MachineHealthy feed",
    "100 10 16||claimed,feed,z2,|NotNeighbour",
    "100 10 17||claimed,table,z2,|ZoneTaken z2",
    "100 10 17||claimed,feed,z2,|ZoneTaken z2",
    "100 10 19||started,robot_turn,p1_load,|WrongPose arm_one",
    "100 10 20||dropped,arm1,1,table|NotNeighbour",
    "100 10 24||started,robot_turn,table1,|WrongPose robot_turn",
    "100 10 28||started,press_one,top,|NotHolder z3",
    "100 10 34||arrived,press_one,top,|WrongPose press_one",
    "100 10 53||started,deposit_belt,to_end,|NotHolder z5",
    "100 10 60||delivered,1,,|LampRed deposit",
    "100 10 61||delivered,2,,|WrongPlate",
];

const FAULTS_AND_REPAIRS: [&str; 9] = [
    "100 10 28|declared,press1,operator_stop,|dropped,arm1,1,press1|OwnerFailed press1",
    "100 10 38|declared,press1,operator_stop,|claimed,robot,z3,|OwnerFailed press1",
    "100 10 34|declared,press1,missing_motion,|repaired,press1,,|PlateStillThere press1",
    "100 10 28|declared,robot,lost_position, declared,press1,operator_stop,|repaired,press1,,|ZoneTaken z3",
    "100 10 1|declared,feed,silent,|admitted,1,,|MachineFailed feed",
    "100 10 1|declared,feed,silent, repaired,feed,,|admitted,1,,|LampRed feed",
    "100 10 1|stop_asked,feed,,|stop_asked,feed,,|AlreadyAsked feed",
    // A plate is carried to the other press.
    "100 10 28|declared,press1,operator_stop, started,arm_one,in, arrived,arm_one,in, yielded,robot,z3, \
     claimed,robot,z4, started,robot_turn,p2_load, arrived,robot_turn,p2_load, started,arm_one,out, \
     arrived,arm_one,out,|dropped,arm1,1,press2|Ok",
    // The robot's arm is emptied, and out of the way.
    "100 10 28|declared,robot,lost_position, declared,press1,operator_stop, quarantined,1,arm1, repaired,robot,,|\
     repaired,press1,,|Ok",
];

// No more plates are admitted than the limit allows. A journal that is full but for declarations allows those alone.
const LIMITS: [&str; 6] = [
    "10 1 4|stop_asked,table,,|admitted,2,,|PlateLimit",
    "10 1 4|stop_asked,table,, stop_asked,robot,,|admitted,3,,|PlateLimit",
    "10 1 4|stop_asked,table,, stop_asked,robot,, declared,feed,silent,|admitted,3,,|PlateLimit",
    "1 1 1||lamp,feed,red,|JournalFull",
    "1 1 1||stop_asked,feed,,|JournalFull",
    "1 1 1||declared,feed,silent,|Ok",
];

const TOLD: [&str; 11] = [
    // The plate is in the first arm, and nowhere else.
    "100 10 28||arm1|Some(PlateId { number: 1 })",
    "100 10 28||place 1|At(Arm1)",
    "100 10 28||on_stations|[(Arm1, PlateId { number: 1 })]",
    // The robot holds the zone of the first press since the entry of number 23.
    "100 10 28||z3|Some(Robot)",
    "100 10 28||z3 claimed_since 23|true",
    "100 10 28||z3 claimed_since 24|false",
    // The first press forged the one plate that was delivered.
    "100 10 62||delivered|[PlateId { number: 1 }]",
    "100 10 62||press1 forged|1",
    // A repaired press is at home, and nobody holds its zone.
    "100 10 34|declared,press1,missing_motion, quarantined,1,press1, repaired,press1,,|press_one|\
     AxisState { at: Middle, going: None }",
    "100 10 34|declared,press1,missing_motion, quarantined,1,press1, repaired,press1,,|z3|None",
    "100 10 34|declared,press1,missing_motion, quarantined,1,press1, repaired,press1,,|totals|\
     Totals { entries: 37, admitted: 1, forged: 0, quarantined: 1, delivered: 0, reinstated: 0 }",
];

const ALL_DECLARED: [&str; 6] = [
    "declared,feed,silent,",
    "declared,table,silent,",
    "declared,robot,silent,",
    "declared,press1,silent,",
    "declared,press2,silent,",
    "declared,deposit,silent,",
];

// Books these records.
pub(crate) fn book_records(rt: &impl Abort, book: &mut Book, records: &[&str]) {
    assert!(rt; book_all(book, records).is_ok());
}

// A book of these limits of entries and plates, with these records.
pub(crate) fn book_with(
    rt: &impl Abort,
    alloc: Global,
    limits: [u32; 2],
    records: &[&str],
) -> Book {
    let [limit, plates] = limits;
    let mut book = Book::new(alloc, limit, plates).ok().expect(rt, "a book");
    book_records(rt, &mut book, records);
    book
}

// The book of a case, which begins with entries of a journal.
fn book_of(rt: &impl Abort, alloc: Global, journal: &[&str], case: &str) -> Book {
    let mut words = part(case, 0).split(' ');
    let limit = number(rt, words.next().unwrap_or(""));
    let plates = number(rt, words.next().unwrap_or(""));
    let count = number(rt, words.next().unwrap_or("")) as usize;
    let begun = &journal[..count.min(journal.len())];
    let mut book = book_with(rt, alloc, [limit, plates], begun);
    for record in part(case, 1).split(' ') {
        if !record.is_empty() {
            book_records(rt, &mut book, &[record]);
        }
    }
    book
}

// What a book answers to an entry. A refusal leaves the book as it was, and an entry that is booked changes it.
fn booked(rt: &impl Abort, alloc: Global, book: &mut Book, record: &str) -> Result<(), Refusal> {
    let before = Told::of(alloc, book).expect(rt, "memory");
    let allowed = book.allows(entry(rt, record));
    let applied = book.apply(entry(rt, record));
    assert!(rt; allowed == applied, "{record}");
    let after = Told::of(alloc, book).expect(rt, "memory");
    assert!(rt; after.is_same(&before) == applied.is_err(), "{record}");
    applied
}

// What was answered to the entry of a case is Ok, or the refusal of the wanted name and word.
fn is_answered(rt: &impl Abort, given: Result<(), Refusal>, case: &str) {
    let mut words = part(case, 3).split(' ');
    let name = words.next().unwrap_or("");
    match given {
        Ok(()) => assert!(rt; name == "Ok", "{case}"),
        Err(refusal) => {
            assert!(rt;
                refusal.name() == name && refusal.word() == words.next(),
                "{case}"
            );
        }
    }
}

// What a book tells when it is asked.
fn told(rt: &impl Abort, alloc: Global, book: &Book, question: &str) -> Result<String, AllocError> {
    match question {
        "arm1" => text_of(alloc, &book.plate_at(Station::Arm1)),
        "feed_in" => text_of(alloc, &book.plate_at(Station::FeedIn)),
        "place 1" => text_of(alloc, &book.place(plate(1).expect(rt, question))),
        "on_stations" => text_of(alloc, &book.on_stations().as_slice()),
        "press_one" => text_of(alloc, &book.pose(Axis::PressOne)),
        "z3" => text_of(alloc, &book.holder(Zone::Z3)),
        "z3 claimed_since 23" => text_of(alloc, &book.claimed_since(Zone::Z3, 23)),
        "z3 claimed_since 24" => text_of(alloc, &book.claimed_since(Zone::Z3, 24)),
        "press1 forged" => text_of(alloc, &book.forged_by(Machine::Press1)),
        "delivered" => text_of(alloc, &book.delivered()),
        "quarantine" => text_of(alloc, book.quarantine()),
        "expected" => text_of(alloc, &book.expected()),
        "feed_light" => text_of(alloc, &book.lamp(Belt::Feed)),
        "totals" => text_of(alloc, &book.totals()),
        "entries" => text_of(alloc, &book.journal().len()),
        _ => text_of(alloc, &question),
    }
}

// A book answers as the case wants.
fn answers(rt: &impl Abort, alloc: Global, book: &mut Book, case: &str) {
    let question = part(case, 2);
    if question.contains(',') {
        is_answered(rt, booked(rt, alloc, book, question), case);
    } else {
        is_wanted(rt, told(rt, alloc, book, question), case);
    }
}

// The book of each case answers as it wants.
fn all_answer(rt: &impl Abort, alloc: Global, journal: &[&str], cases: &[&str]) {
    for case in cases {
        answers(rt, alloc, &mut book_of(rt, alloc, journal, case), case);
    }
}

#[test]
fn one_plate_is_carried_through_the_cell(rt: HostRuntime) {
    all_answer(&rt, rt.alloc(), &ONE_PLATE, &FIRST_REFUSALS);
    all_answer(&rt, rt.alloc(), &ONE_PLATE, &FAULTS_AND_REPAIRS);
    all_answer(&rt, rt.alloc(), &ONE_PLATE, &LIMITS);
    all_answer(&rt, rt.alloc(), &ONE_PLATE, &TOLD);
}

#[test]
fn limits_are_kept(rt: HostRuntime) {
    for &(limit, plates, error) in &[
        (0, 1, OpenError::BadLimit),
        (0, 0, OpenError::BadLimit),
        (1_000_001, 1, OpenError::BadLimit),
        (1, 0, OpenError::BadPlates),
        (1, 100_001, OpenError::BadPlates),
    ] {
        let book = Book::new(rt.alloc(), limit, plates).err();
        assert!(rt; book == Some(error), "a book of limits {limit}, {plates}");
        let records = Records::new(rt.alloc(), limit, plates).err();
        assert!(rt;
            records == Some(error),
            "records of limits {limit}, {plates}"
        );
    }
}

// None of these records is booked, since the journal is full.
fn none_is_booked(rt: &impl Abort, book: &mut Book, records: &[&str]) {
    for record in records {
        let given = book.apply(entry(rt, record));
        assert!(rt; given == Err(Refusal::JournalFull), "{record}");
    }
}

#[test]
fn a_full_journal_takes_declarations_alone(rt: HostRuntime) {
    let mut book = book_with(&rt, rt.alloc(), [1, 1], &["lamp,feed,green,"]);
    book_records(&rt, &mut book, &ALL_DECLARED);
    assert!(rt; book.journal().len() == 7);
    none_is_booked(&rt, &mut book, &ONE_PLATE);
    none_is_booked(&rt, &mut book, &ALL_DECLARED);
}

// Whether a book has so many entries, and the first plate this place and, in the quarantine, this station.
fn has_first(book: &Book, first: PlateId, count: u32, place: Place, from: Option<Station>) -> bool {
    book.journal().len() == count
        && book.place(first) == place
        && book.quarantine().get(&first).copied() == from
}

// Clears the first plate from the table by the tenth entry. Where the growth of the quarantine is refused, the book
// is as it was, and takes the entry when it is asked again.
fn clear(rt: &impl Abort, book: &mut Book, first: PlateId) {
    let cleared = entry(rt, "quarantined,1,table,");
    if let Err(why) = book.apply(cleared) {
        assert!(rt; why == Refusal::OutOfMemory && book.quarantine().is_empty());
        assert!(rt; has_first(book, first, 9, Place::At(Station::Table), None));
        assert!(rt; book.apply(cleared).is_ok());
    }
    let from = Some(Station::Table);
    assert!(rt; has_first(book, first, 10, Place::Quarantine, from));
}

// In a run that refuses one allocation the quarantine's growth may be the one refused.
#[test]
fn a_refused_growth_leaves_the_book(rt: HostRuntime) {
    let mut book = Book::new(rt.alloc(), 100, 10)
        .or_else(|_| Book::new(rt.alloc(), 100, 10))
        .ok()
        .expect(&rt, "a book");
    book_records(&rt, &mut book, &LAID_BACK[..9]);
    clear(&rt, &mut book, plate(1).expect(&rt, "a plate"));
}

#[test]
fn a_refusal_is_printed_with_its_word(rt: HostRuntime) {
    for &(refusal, name, word) in &[
        (Refusal::LampRed(Belt::Feed), "LampRed", Some("feed")),
        (Refusal::WrongPlate, "WrongPlate", None),
        (Refusal::PlateExpected, "PlateExpected", None),
        (Refusal::NotReturnable, "NotReturnable", None),
    ] {
        assert!(rt; refusal.name() == name && refusal.word() == word, "{name}");
    }
}
