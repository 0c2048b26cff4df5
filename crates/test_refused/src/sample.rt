//! What the tests share: the text of a journal, and what a call that writes may have written.
use cell_output::WriteFault;
use std::alloc::{AllocError, Global};
use std::process::Abort;
use test_samples::ONE_PLATE;

/// Room for all that a call writes, so that the writer asks for no memory.
pub(crate) const ROOM: usize = 10_000;

/// Whether a call's status is that of refused memory.
pub(crate) fn is_wanted(answer: Result<u8, WriteFault>) -> bool {
    answer == Ok(4)
}

/// What was written is all that is due, with its status, or a first part of it, where memory was refused.
pub(crate) fn check_written(
    rt: &impl Abort,
    answer: Result<u8, WriteFault>,
    written: &[u8],
    status: u8,
    due: &[u8],
) {
    if is_wanted(answer) {
        assert!(rt; due.starts_with(written));
    } else {
        assert!(rt; answer == Ok(status) && written == due);
    }
}

/// The last record of a journal, in which the first plate is cleared from the table.
pub(crate) const PLAIN: &[u8] = b"quarantined,1,table,\n";

/// The same in quotes.
pub(crate) const QUOTED: &[u8] = b"\"quarantined\",1,table,\n";

/// The record of the first profile.
pub(crate) const PROFILE_1: &[u8] = b"profile,1,,\n";

/// The text of a journal of ten entries, which begins with the profile's record, and in which the first plate is
/// cleared from the table by this last record.
pub(crate) fn clearing(alloc: Global, profile: &[u8], last: &[u8]) -> Result<Vec<u8>, AllocError> {
    let mut text = Vec::new(alloc);
    text.extend_from_slice(profile)?;
    for record in ONE_PLATE.iter().take(7) {
        text.extend_from_slice(record.as_bytes())?;
        text.push(b'\n')?;
    }
    text.extend_from_slice(b"yielded,feed,z1,\ndeclared,table,operator_stop,\n")?;
    text.extend_from_slice(last)?;
    Ok(text)
}
