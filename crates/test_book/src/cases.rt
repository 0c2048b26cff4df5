//! Cases as texts: a line a case, its parts separated by bars, and answers as texts.
use cell_types::Entry;
use std::alloc::{AllocError, Global};
use std::fmt::Debug;
use std::process::Abort;
use test_samples::entry_of;

// The part of a case at a place, counted from 0. A part that isn't there is empty.
pub(crate) fn part(case: &str, place: usize) -> &str {
    case.split('|').nth(place).unwrap_or("")
}

// The number that a word of a case is.
pub(crate) fn number(rt: &impl Abort, word: &str) -> u32 {
    word.parse::<u32>().ok().expect(rt, word)
}

// The entry of a record.
pub(crate) fn entry(rt: &impl Abort, record: &str) -> Entry {
    entry_of(record).expect(rt, record)
}

// An answer as a text: that of its derived form.
pub(crate) fn text_of<T: Debug>(alloc: Global, answer: &T) -> Result<String, AllocError> {
    format!(in alloc; "{answer:?}")
}

// The answer that a case was given is the last of its parts.
pub(crate) fn is_wanted(rt: &impl Abort, answer: Result<String, AllocError>, case: &str) {
    let given = answer.expect(rt, "memory");
    let wanted = case.rsplit('|').next().unwrap_or("");
    assert!(rt; given.as_str() == wanted, "{case}, and not {given}");
}
