//! Texts that are explained.
mod endings;

use crate::sample::{PLAIN, PROFILE_1, clearing};
use cell_explain::{explain_faults, explain_journal, explain_operator, explain_settings};
use cell_output::{WatchedWriter, WriteFault};
use std::alloc::Global;
use std::process::Abort;
use std::test::Fail;
use test_samples::{call_begins, call_ends};

// Room for all that a call writes, so that the writer asks for no memory.
const ROOM: usize = 10_000;

// What a text is, which is explained.
#[derive(Clone, Copy)]
enum Kind {
    Journal,
    Settings,
    Faults,
    Operator,
}

// What is said of a text, and the answer. Where the call is marked, memory may be refused to it.
fn explain(
    alloc: Global,
    kind: Kind,
    text: &[u8],
    marked: bool,
) -> Result<(Vec<u8>, Result<u8, WriteFault>), Fail> {
    let mut written = Vec::with_capacity(alloc, ROOM)?;
    if marked {
        call_begins(alloc);
    }
    let mut writer = WatchedWriter::new(&mut written);
    let answer = match kind {
        Kind::Journal => explain_journal(alloc, text, &mut writer),
        Kind::Settings => explain_settings(alloc, text, &mut writer),
        Kind::Faults => explain_faults(alloc, text, &mut writer),
        Kind::Operator => explain_operator(alloc, text, &mut writer),
    };
    if marked {
        call_ends(alloc, answer == Ok(4));
    }
    Ok((written, answer))
}

// At most so many first lines of what is due are written.
fn check_begun(rt: &impl Abort, written: &[u8], due: &[u8], first: usize) {
    let lines = written.iter().filter(|byte| **byte == b'\n').count();
    assert!(rt; due.starts_with(written));
    assert!(rt; lines <= first && (written.is_empty() || written.ends_with(b"\n")));
}

// The text is explained with this status, or only so many first lines are written, where memory was refused.
fn check_explain<R: AllocGlobal + Abort>(
    rt: &R,
    kind: Kind,
    text: &[u8],
    status: u8,
    first: usize,
) -> Result<(), Fail> {
    let (due, usual) = explain(rt.alloc(), kind, text, false)?;
    assert!(rt; usual == Ok(status));
    let (written, answer) = explain(rt.alloc(), kind, text, true)?;
    if answer == Ok(4) {
        check_begun(rt, written.as_slice(), due.as_slice(), first);
    } else {
        assert!(rt; answer == Ok(status) && written.as_slice() == due.as_slice());
    }
    Ok(())
}

// A journal with this last record is explained with this status.
fn check_journal<R: AllocGlobal + Abort>(rt: &R, last: &[u8], status: u8) -> Result<(), Fail> {
    let text = clearing(rt.alloc(), PROFILE_1, last)?;
    check_explain(rt, Kind::Journal, text.as_slice(), status, 0)
}

#[test]
fn explain_legal_journal(rt: HostRuntime) -> Result<(), Fail> {
    check_journal(&rt, PLAIN, 0)
}

#[test]
fn explain_refused_journal(rt: HostRuntime) -> Result<(), Fail> {
    check_journal(&rt, b"\"quarantined\",2,table,\n", 1)
}

#[test]
fn explain_unreadable_journal(rt: HostRuntime) -> Result<(), Fail> {
    check_journal(&rt, b"\"quarantined\",1,tabel,\n", 1)
}

#[test]
fn explain_settings_unknown_key(rt: HostRuntime) -> Result<(), Fail> {
    check_explain(&rt, Kind::Settings, b"plates = 1\n\"x\\ny\" = 2\n", 1, 1)
}

#[test]
fn explain_settings_that_are_no_toml(rt: HostRuntime) -> Result<(), Fail> {
    check_explain(&rt, Kind::Settings, b"plates = 1\nturns = = 3\n", 1, 1)
}

#[test]
fn explain_script_of_faults(rt: HostRuntime) -> Result<(), Fail> {
    let text = b"feed_belt,1,refuse_command,\n\"press_two\",1,nothing,\n";
    check_explain(&rt, Kind::Faults, text, 1, 0)
}

#[test]
fn explain_script_of_operator(rt: HostRuntime) -> Result<(), Fail> {
    let text = b"admitted,1,stop,feed\n\"failed\",press2,repair,press3\n";
    check_explain(&rt, Kind::Operator, text, 1, 0)
}
