//! Texts of which no more is read than decides.
use crate::sample::{PLAIN, PROFILE_1, clearing};
use cell_audit::AuditError;
use cell_orders::{JournalText, journal_text, script_text, settings_text};
use std::io;
use std::io::ErrorKind;
use std::process::Abort;
use std::test::Fail;
use test_samples::{call_begins, call_ends};

// Whether a text isn't read for want of memory, or the audit of the text answers that.
fn is_wanting(read: &io::Result<JournalText>) -> bool {
    match read {
        Ok(text) => text.answer == Err(AuditError::OutOfMemory),
        Err(why) => why.kind() == ErrorKind::OutOfMemory,
    }
}

// Where the audit wants memory, a first part of a journal's text is read.
fn check_journal<R: AllocGlobal + Abort>(rt: &R, last: &[u8]) -> Result<(), Fail> {
    let alloc = rt.alloc();
    let text = clearing(alloc, PROFILE_1, last)?;
    call_begins(alloc);
    let read = journal_text(alloc, text.as_slice());
    call_ends(alloc, is_wanting(&read));
    match read {
        Ok(read) if read.answer == Err(AuditError::OutOfMemory) => {
            assert!(rt; text.as_slice().starts_with(read.bytes.as_slice()));
        }
        Ok(read) => {
            assert!(rt; read.is_whole && matches!(read.answer, Ok((1, _))));
            assert!(rt; read.bytes.as_slice() == text.as_slice());
        }
        Err(why) => assert!(rt; why.kind() == ErrorKind::OutOfMemory),
    }
    Ok(())
}

#[test]
fn journal_text_plain(rt: HostRuntime) -> Result<(), Fail> {
    check_journal(&rt, PLAIN)
}

#[test]
fn journal_text_quoted(rt: HostRuntime) -> Result<(), Fail> {
    check_journal(&rt, b"\"quarantined\",1,table,\n")
}

#[test]
fn script_text_of_a_line(rt: HostRuntime) {
    let alloc = rt.alloc();
    let text: &[u8] = b"admitted,1,stop,feed\n";
    call_begins(alloc);
    let read = script_text(alloc, text);
    call_ends(alloc, read.is_err());
    let is_right = match read {
        Ok(read) => read.is_whole && read.bytes.as_slice() == text,
        Err(why) => why.kind() == ErrorKind::OutOfMemory,
    };
    assert!(rt; is_right);
}

#[test]
fn settings_text_of_a_line(rt: HostRuntime) {
    let alloc = rt.alloc();
    let text: &[u8] = b"plates = 1\n";
    call_begins(alloc);
    let read = settings_text(alloc, text);
    call_ends(alloc, read.is_err());
    let is_right = match read {
        Ok(Some(read)) => read.as_slice() == text,
        Ok(None) => false,
        Err(why) => why.kind() == ErrorKind::OutOfMemory,
    };
    assert!(rt; is_right);
}
