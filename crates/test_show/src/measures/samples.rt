//! Journals of records.
use cell_journal::Journal;
use std::process::Abort;
use test_samples::entry_of;

/// A journal of the entries of these records.
pub(crate) fn journal_of<R: AllocGlobal + Abort>(rt: &R, records: &[&str]) -> Journal {
    let mut journal = Journal::with_limit(rt.alloc(), 1000).expect(rt, "a journal");
    for record in records {
        let entry = entry_of(record).expect(rt, "an entry");
        assert!(rt; !journal.is_full_for(&entry));
        journal.append(entry);
    }
    journal
}
