//! Worked examples: a plate that was cleared is expected at FeedIn, and laid back there.
use crate::book::{all_answer, answers, book_of, book_records};
use crate::cases::{entry, is_wanted, number, part, text_of};
use plate_book::Records;
use std::alloc::{AllocError, Global};
use std::process::Abort;
use test_samples::{LAID_BACK, ONE_PLATE, plate};

// Cases as in the module above.

// After entries of the journal of a plate that is laid back.
const ANSWERED: [&str; 14] = [
    "100 10 10||expected,1,,|Ok",
    "100 10 10||expected,2,,|WrongPlate",
    "100 10 10||expected,100000,,|WrongPlate",
    "100 10 11||expected,1,,|PlateExpected",
    "100 10 11||admitted,2,,|LampRed feed",
    "100 10 11||reinstated,1,,|LampRed feed",
    "100 10 11||lamp,feed,green,|Ok",
    "100 10 12||admitted,2,,|PlateExpected",
    "100 10 12||expected,1,,|LampAlready feed",
    "100 10 12||reinstated,2,,|WrongPlate",
    "100 10 12||reinstated,1,,|Ok",
    "100 10 13||reinstated,1,,|WrongPlate",
    "100 10 13||expected,1,,|WrongPlate",
    "100 10 13||admitted,2,,|LampRed feed",
];

const TOLD: [&str; 17] = [
    "100 10 10||expected|None",
    "100 10 11||expected|Some(PlateId { number: 1 })",
    "100 10 12||expected|Some(PlateId { number: 1 })",
    "100 10 13||expected|None",
    // The plate is in quarantine, cleared from the table.
    "100 10 12||place 1|Quarantine",
    "100 10 12||quarantine|{PlateId { number: 1 }: Table}",
    // It stands at the feed belt's start.
    "100 10 13||entries|13",
    "100 10 13||place 1|At(FeedIn)",
    "100 10 13||feed_in|Some(PlateId { number: 1 })",
    "100 10 13||on_stations|[(FeedIn, PlateId { number: 1 })]",
    "100 10 13||quarantine|{}",
    "100 10 13||feed_light|Red",
    "100 10 13||totals|Totals { entries: 13, admitted: 1, forged: 0, quarantined: 1, delivered: 0, reinstated: 1 }",
    // It is cleared and expected once more. The total counts each clearing.
    "100 10 13|declared,feed,operator_stop, quarantined,1,feed_in,|quarantine|{PlateId { number: 1 }: FeedIn}",
    "100 10 13|declared,feed,operator_stop, quarantined,1,feed_in,|totals|\
     Totals { entries: 15, admitted: 1, forged: 0, quarantined: 2, delivered: 0, reinstated: 1 }",
    "100 10 13|declared,feed,operator_stop, quarantined,1,feed_in, expected,1,,|entries|16",
    "100 10 13|declared,feed,operator_stop, quarantined,1,feed_in, expected,1,,|expected|Some(PlateId { number: 1 })",
];

// After entries of the journal of one plate: a plate is laid back that was cleared from before a press, and no other.
const RETURNABLE: [&str; 8] = [
    "100 10 34|declared,press1,missing_motion, quarantined,1,press1, repaired,press1,,|expected,1,,|NotReturnable",
    "100 10 2|declared,feed,silent, quarantined,1,feed_in,|expected,1,,|Ok",
    "100 10 4|declared,feed,silent, quarantined,1,feed_end,|expected,1,,|Ok",
    "100 10 20|declared,robot,silent, quarantined,1,arm1,|expected,1,,|Ok",
    "100 10 32|declared,press1,silent, quarantined,1,press1,|expected,1,,|NotReturnable",
    "100 10 44|declared,robot,silent, quarantined,1,arm2,|expected,1,,|NotReturnable",
    "100 10 56|declared,deposit,silent, quarantined,1,dep_in,|expected,1,,|NotReturnable",
    "100 10 59|declared,deposit,silent, quarantined,1,dep_end,|expected,1,,|NotReturnable",
];

// Three plates are laid in and cleared from FeedIn, and the first is laid back: the quarantine is in the order of the
// last clearings, whichever plate leaves it.
const ORDER_OF_QUARANTINE: [&str; 3] = [
    "100 10 0|lamp,feed,green, admitted,1,, declared,feed,silent, quarantined,1,feed_in, repaired,feed,, \
     lamp,feed,green, admitted,2,, declared,feed,silent, quarantined,2,feed_in, repaired,feed,, \
     lamp,feed,green, admitted,3,, declared,feed,silent, quarantined,3,feed_in, repaired,feed,, \
     expected,1,, lamp,feed,green, reinstated,1,,|entries|18",
    "100 10 0|lamp,feed,green, admitted,1,, declared,feed,silent, quarantined,1,feed_in, repaired,feed,, \
     lamp,feed,green, admitted,2,, declared,feed,silent, quarantined,2,feed_in, repaired,feed,, \
     lamp,feed,green, admitted,3,, declared,feed,silent, quarantined,3,feed_in, repaired,feed,, \
     expected,1,, lamp,feed,green, reinstated,1,,|quarantine|\
     {PlateId { number: 2 }: FeedIn, PlateId { number: 3 }: FeedIn}",
    "100 10 0|lamp,feed,green, admitted,1,, declared,feed,silent, quarantined,1,feed_in, repaired,feed,, \
     lamp,feed,green, admitted,2,, declared,feed,silent, quarantined,2,feed_in, repaired,feed,, \
     lamp,feed,green, admitted,3,, declared,feed,silent, quarantined,3,feed_in, repaired,feed,, \
     expected,1,, lamp,feed,green, reinstated,1,, declared,feed,silent, quarantined,1,feed_in,|quarantine|\
     {PlateId { number: 2 }: FeedIn, PlateId { number: 3 }: FeedIn, PlateId { number: 1 }: FeedIn}",
];

#[test]
fn a_cleared_plate_is_expected_and_laid_back(rt: HostRuntime) {
    all_answer(&rt, rt.alloc(), &LAID_BACK, &ANSWERED);
    all_answer(&rt, rt.alloc(), &LAID_BACK, &TOLD);
    all_answer(&rt, rt.alloc(), &ONE_PLATE, &RETURNABLE);
    all_answer(&rt, rt.alloc(), &ONE_PLATE, &ORDER_OF_QUARANTINE);
}

// A plate that is laid back goes the way of a new one, and is forged and delivered once.
#[test]
fn a_plate_that_was_laid_back_is_delivered(rt: HostRuntime) {
    let begun = "100 10 13|repaired,table,,";
    let mut book = book_of(&rt, rt.alloc(), &LAID_BACK, begun);
    book_records(&rt, &mut book, &ONE_PLATE[2..]);
    for &case in &[
        "||totals|Totals { entries: 74, admitted: 1, forged: 1, quarantined: 1, delivered: 1, reinstated: 1 }",
        "||delivered|[PlateId { number: 1 }]",
    ] {
        answers(&rt, rt.alloc(), &mut book, case);
    }
}

// A case: how many entries of the journal of a plate that is laid back come first, what the records are asked, and
// what they tell.
const RECORDS_TELL: [&str; 20] = [
    "0|expected|None",
    "1|expected|None",
    "2|expected|None",
    "3|expected|None",
    "4|expected|None",
    "5|expected|None",
    "6|expected|None",
    "7|expected|None",
    "8|expected|None",
    "9|expected|None",
    "10|expected|None",
    "11|expected|Some(PlateId { number: 1 })",
    "12|expected|Some(PlateId { number: 1 })",
    "13|expected|None",
    // The plate was cleared from the table.
    "10|totals|Totals { entries: 10, admitted: 1, forged: 0, quarantined: 1, delivered: 0, reinstated: 0 }",
    "10|quarantine|{PlateId { number: 1 }: Table}",
    "10|place 1|Quarantine",
    // It stands at the feed belt's start.
    "13|quarantine|{}",
    "13|place 1|At(FeedIn)",
    "13|totals|Totals { entries: 13, admitted: 1, forged: 0, quarantined: 1, delivered: 0, reinstated: 1 }",
];

// Records that took so many entries of the journal of a plate that is laid back.
fn records_of(rt: &impl Abort, alloc: Global, count: u32) -> Records {
    let mut records = Records::new(alloc, 100, 10).ok().expect(rt, "records");
    for record in LAID_BACK.iter().take(count as usize) {
        let given = records.apply(entry(rt, record));
        assert!(rt; given.is_ok(), "{record}");
    }
    records
}

// What records tell when they are asked.
fn told(
    rt: &impl Abort,
    alloc: Global,
    records: &Records,
    question: &str,
) -> Result<String, AllocError> {
    match question {
        "expected" => text_of(alloc, &records.expected()),
        "place 1" => text_of(alloc, &records.place(plate(1).expect(rt, question))),
        "quarantine" => text_of(alloc, records.quarantine()),
        "totals" => text_of(alloc, &records.totals()),
        _ => text_of(alloc, &question),
    }
}

#[test]
fn records_tell_a_plate_that_is_laid_back(rt: HostRuntime) {
    for &case in &RECORDS_TELL {
        let records = records_of(&rt, rt.alloc(), number(&rt, part(case, 0)));
        is_wanted(&rt, told(&rt, rt.alloc(), &records, part(case, 1)), case);
    }
}
