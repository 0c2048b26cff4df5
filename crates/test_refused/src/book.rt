//! Books and records.
use cell_types::{Machine, Place, PlateId, Station, Totals};
use plate_book::{Book, OpenError, Records, Refusal};
use std::alloc::Global;
use std::process::Abort;
use test_samples::{ONE_PLATE, begun, book_all, call_begins, call_ends, entry_of, plate};

#[test]
fn book_new(rt: HostRuntime) {
    let alloc = rt.alloc();
    call_begins(alloc);
    let answer = Book::new(alloc, 1000, 1000);
    call_ends(alloc, answer.is_err());
    let is_right = match answer {
        Ok(book) => book.journal().len() == 0,
        Err(why) => why == OpenError::OutOfMemory,
    };
    assert!(rt; is_right);
}

#[test]
fn records_new(rt: HostRuntime) {
    let alloc = rt.alloc();
    call_begins(alloc);
    let answer = Records::new(alloc, 1000, 1000);
    call_ends(alloc, answer.is_err());
    let is_right = match answer {
        Ok(records) => records.totals().entries == 0,
        Err(why) => why == OpenError::OutOfMemory,
    };
    assert!(rt; is_right);
}

// After the first seven entries of one plate, these leave it on a table that has failed.
const FAILED_TABLE: [&str; 2] = ["yielded,feed,z1,", "declared,table,operator_stop,"];

/// So many entries, of one plate that was admitted.
pub(crate) fn totals(entries: u32, quarantined: u32) -> Totals {
    Totals {
        entries,
        admitted: 1,
        forged: 0,
        quarantined,
        delivered: 0,
        reinstated: 0,
    }
}

/// A book of nine entries, in which the first plate can be cleared from the table.
pub(crate) fn book_to_clear(rt: &impl Abort, alloc: Global) -> Book {
    let mut book = begun(alloc, 100, 10, 7).expect(rt, "a book");
    assert!(rt;
        book_all(&mut book, &FAILED_TABLE).is_ok(),
        "both are allowed"
    );
    book
}

/// The record of the entry that clears it.
pub(crate) const CLEARED: &str = "quarantined,1,table,";

/// Nothing was cleared: the book tells of its nine entries.
pub(crate) fn check_as_it_was(rt: &impl Abort, book: &Book, first: PlateId) {
    let journal = book.journal();
    assert!(rt;
        journal.len() == 9
            && journal.get(8) == entry_of(FAILED_TABLE[1])
            && book.totals() == totals(9, 0)
            && book.place(first) == Place::At(Station::Table)
            && book.plate_at(Station::Table) == Some(first)
            && book.failed(Machine::Table)
            && book.quarantine().is_empty()
    );
}

/// The plate was cleared.
pub(crate) fn check_cleared(rt: &impl Abort, book: &Book, first: PlateId) {
    assert!(rt;
        book.journal().len() == 10
            && book.totals() == totals(10, 1)
            && book.place(first) == Place::Quarantine
            && book.plate_at(Station::Table).is_none()
    );
    let station = book.quarantine().get(&first).copied();
    assert!(rt; station == Some(Station::Table));
}

#[test]
fn book_apply(rt: HostRuntime) {
    let alloc = rt.alloc();
    let mut book = book_to_clear(&rt, alloc);
    let first = plate(1).expect(&rt, "a plate");
    let entry = entry_of(CLEARED).expect(&rt, "a record");
    call_begins(alloc);
    let answer = book.apply(entry);
    call_ends(alloc, answer.is_err());
    if let Err(why) = answer {
        assert!(rt; why == Refusal::OutOfMemory);
        check_as_it_was(&rt, &book, first);
        assert!(rt; book_all(&mut book, &[CLEARED]).is_ok(), "it is allowed");
    }
    check_cleared(&rt, &book, first);
}

// Records of the same nine entries.
fn records_to_clear(rt: &impl Abort, alloc: Global) -> Records {
    let Ok(mut records) = Records::new(alloc, 100, 10) else {
        panic!(rt; "the limits are in range, and there is memory");
    };
    for record in ONE_PLATE.iter().take(7).chain(FAILED_TABLE.iter()) {
        let answer = records.apply(entry_of(record).expect(rt, record));
        assert!(rt; answer == Ok(()), "{record}");
    }
    records
}

// Nothing was cleared: the records tell of their nine entries.
fn check_records_as_they_were(rt: &impl Abort, records: &Records, first: PlateId) {
    assert!(rt;
        records.totals() == totals(9, 0)
            && records.place(first) == Place::At(Station::Table)
            && records.plate_at(Station::Table) == Some(first)
            && records.failed(Machine::Table)
            && records.quarantine().is_empty()
    );
}

// The plate was cleared.
fn check_records_cleared(rt: &impl Abort, records: &Records, first: PlateId) {
    assert!(rt; records.totals() == totals(10, 1) && records.place(first) == Place::Quarantine);
    let station = records.quarantine().get(&first).copied();
    assert!(rt; station == Some(Station::Table));
}

#[test]
fn records_apply(rt: HostRuntime) {
    let alloc = rt.alloc();
    let mut records = records_to_clear(&rt, alloc);
    let first = plate(1).expect(&rt, "a plate");
    let entry = entry_of(CLEARED).expect(&rt, "a record");
    call_begins(alloc);
    let answer = records.apply(entry);
    call_ends(alloc, answer.is_err());
    if let Err(why) = answer {
        assert!(rt; why == Refusal::OutOfMemory);
        check_records_as_they_were(&rt, &records, first);
        let entry = entry_of(CLEARED).expect(&rt, "a record");
        let again = records.apply(entry);
        assert!(rt; again == Ok(()));
    }
    check_records_cleared(&rt, &records, first);
}
