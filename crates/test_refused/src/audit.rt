//! Journals that are written, audited, migrated, and read for more than their audit.
use crate::sample::{PLAIN, PROFILE_1, QUOTED, ROOM, check_written, clearing, is_wanted};
use cell_audit::{AuditError, Audited, MigrateError};
use cell_output::WatchedWriter;
use cell_rows::RowReader;
use cell_types::Totals;
use plate_book::Book;
use std::alloc::{AllocError, Global};
use std::process::Abort;
use std::test::Fail;
use test_samples::{begun, call_begins, call_ends};

// Audits the text of a journal with this last record.
fn check_audit<R: AllocGlobal + Abort>(rt: &R, last: &[u8]) -> Result<(), Fail> {
    let alloc = rt.alloc();
    let text = clearing(alloc, PROFILE_1, last)?;
    call_begins(alloc);
    let answer = cell_audit::audit(alloc, text.as_slice());
    call_ends(alloc, answer == Err(AuditError::OutOfMemory));
    let due = Totals {
        entries: 10,
        admitted: 1,
        forged: 0,
        quarantined: 1,
        delivered: 0,
        reinstated: 0,
    };
    assert!(rt; answer == Ok((1, due)) || answer == Err(AuditError::OutOfMemory));
    Ok(())
}

#[test]
fn audit(rt: HostRuntime) -> Result<(), Fail> {
    check_audit(&rt, PLAIN)
}

#[test]
fn audit_quoted(rt: HostRuntime) -> Result<(), Fail> {
    check_audit(&rt, QUOTED)
}

// What is printed for the audit of that text.
fn check_audit_lines<R: AllocGlobal + Abort>(rt: &R, last: &[u8]) -> Result<(), Fail> {
    let alloc = rt.alloc();
    let text = clearing(alloc, PROFILE_1, last)?;
    let mut written = Vec::with_capacity(alloc, ROOM)?;
    call_begins(alloc);
    let answer = cell_audit::audit_lines(alloc, text.as_slice(), &mut written);
    call_ends(alloc, is_wanted(answer));
    let due = b"legal 10\nadmitted 1\nforged 0\nquarantined 1\ndelivered 0\n";
    check_written(rt, answer, written.as_slice(), 0, due);
    Ok(())
}

#[test]
fn audit_lines(rt: HostRuntime) -> Result<(), Fail> {
    check_audit_lines(&rt, PLAIN)
}

#[test]
fn audit_lines_quoted(rt: HostRuntime) -> Result<(), Fail> {
    check_audit_lines(&rt, QUOTED)
}

// What is written where that text is migrated from profile 1 to profile 2.
fn migrated(alloc: Global) -> Result<Vec<u8>, AllocError> {
    clearing(alloc, b"profile,2,,\n", PLAIN)
}

// Migrates that text.
fn check_migrate<R: AllocGlobal + Abort>(rt: &R, last: &[u8]) -> Result<(), Fail> {
    let alloc = rt.alloc();
    let text = clearing(alloc, PROFILE_1, last)?;
    let due = migrated(alloc)?;
    let mut written = Vec::with_capacity(alloc, ROOM)?;
    call_begins(alloc);
    let answer = cell_audit::migrate(alloc, text.as_slice(), &mut written);
    call_ends(alloc, answer == Err(MigrateError::OutOfMemory));
    let (written, due) = (written.as_slice(), due.as_slice());
    match answer {
        Ok(told) => {
            let counts = [told.entries, told.quarantined, told.reinstated];
            assert!(rt; counts == [10, 1, 0] && written == due);
        }
        Err(why) => {
            assert!(rt; why == MigrateError::OutOfMemory && due.starts_with(written));
        }
    }
    Ok(())
}

#[test]
fn migrate(rt: HostRuntime) -> Result<(), Fail> {
    check_migrate(&rt, PLAIN)
}

#[test]
fn migrate_quoted(rt: HostRuntime) -> Result<(), Fail> {
    check_migrate(&rt, QUOTED)
}

#[test]
fn migrate_lines(rt: HostRuntime) -> Result<(), Fail> {
    let alloc = rt.alloc();
    let text = clearing(alloc, PROFILE_1, PLAIN)?;
    let due = migrated(alloc)?;
    let mut written = Vec::with_capacity(alloc, ROOM)?;
    let mut errors = Vec::with_capacity(alloc, ROOM)?;
    call_begins(alloc);
    let answer = cell_audit::migrate_lines(
        alloc,
        text.as_slice(),
        &mut WatchedWriter::new(&mut written),
        &mut WatchedWriter::new(&mut errors),
    );
    call_ends(alloc, is_wanted(answer));
    check_written(&rt, answer, written.as_slice(), 0, due.as_slice());
    assert!(rt; errors.as_slice().is_empty());
    Ok(())
}

// A journal of ten entries, or fewer where memory was wanting, begins as another book. It has the totals that are due.
fn check_reading(rt: &impl Abort, reading: &Audited, first: &Book, wanted: bool) {
    let journal = reading.book.journal();
    assert!(rt; journal.len() == 10 || wanted && journal.len() < 10);
    for place in 0..journal.len().min(7) {
        assert!(rt;
            journal.get(place) == first.journal().get(place),
            "entry {place}"
        );
    }
    let is_right = match &reading.answer {
        Ok((number, totals)) => {
            [*number as u32, totals.entries, totals.quarantined] == [1, 10, 1]
        }
        Err(why) => *why == AuditError::OutOfMemory,
    };
    assert!(rt; is_right);
}

#[test]
fn read_rows(rt: HostRuntime) -> Result<(), Fail> {
    let alloc = rt.alloc();
    let text = clearing(alloc, PROFILE_1, QUOTED)?;
    let first = begun(alloc, 100, 10, 7).expect(&rt, "a book");
    call_begins(alloc);
    let mut rows = RowReader::new(alloc, text.as_slice());
    let answer = cell_audit::read_rows(alloc, &mut rows);
    let wanted = match &answer {
        Ok(reading) => matches!(reading.answer, Err(AuditError::OutOfMemory)),
        Err(_) => true,
    };
    call_ends(alloc, wanted);
    if let Ok(reading) = &answer {
        check_reading(&rt, reading, &first, wanted);
    }
    Ok(())
}
