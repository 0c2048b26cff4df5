//! Journals.
use cell_journal::{Journal, JournalError};
use test_samples::{call_begins, call_ends};

#[test]
fn journal_with_limit(rt: HostRuntime) {
    let alloc = rt.alloc();
    call_begins(alloc);
    let answer = Journal::with_limit(alloc, 1000);
    call_ends(alloc, answer.is_err());
    let is_right = match answer {
        Ok(journal) => journal.len() == 0,
        Err(why) => why == JournalError::OutOfMemory,
    };
    assert!(rt; is_right);
}
