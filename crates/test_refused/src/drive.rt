//! The cell driven by a method, and the machines' own workers measured as a method is.
use crate::runs::tells_memory;
use cell_drive::DriveOptions;
use cell_output::{WatchedWriter, WriteFault};
use cell_runs::Texts;
use std::alloc::Global;
use std::process::Abort;
use std::sync::Wait;
use std::test::Fail;
use test_samples::{begun, call_begins, call_ends};

// Room for all that a run writes, so that the writers ask for no memory.
const ROOM: usize = 10_000;

// The only plate is cleared from the feed belt, which is repaired. This takes few rounds.
const CLEARED: &[u8] =
    b"admitted,1,stop,feed\nfailed,feed,clear,feed_in\nfailed,feed,repair,feed\n";

// The texts of that run.
fn one_plate() -> Texts<'static> {
    Texts::new(b"plates = 1", b"\"press_two\",1,no_motion,\n", CLEARED)
}

// What is written of that run and its measures, and the status. Where it is marked, memory may be refused to it.
fn measured(alloc: Global, marked: bool) -> Result<(Vec<u8>, Result<u8, WriteFault>), Fail> {
    let mut written = Vec::with_capacity(alloc, ROOM)?;
    if marked {
        call_begins(alloc);
    }
    let mut writer = WatchedWriter::new(&mut written);
    let answer = cell_drive::run_measured(alloc, one_plate(), false, &mut writer);
    let status = answer.map(|(status, _)| status);
    if marked {
        call_ends(alloc, status == Ok(4));
    }
    Ok((written, status))
}

// What is written of the run alone.
const LINES: &[u8] = b"finished\nadmitted 1\nforged 0\nquarantined 1\ndelivered 0\n";

// Without memory nothing is measured, and the status says so.
#[test]
fn run_measured(rt: HostRuntime) -> Result<(), Fail> {
    let (due, status) = measured(rt.alloc(), false)?;
    let due = due.as_slice();
    assert!(rt; status == Ok(0) && due.starts_with(LINES) && due.len() > LINES.len());
    let (written, answer) = measured(rt.alloc(), true)?;
    let text = written.as_slice();
    if answer == Ok(4) {
        assert!(rt; text.is_empty() || text == LINES || tells_memory(text));
    } else {
        assert!(rt; answer == Ok(0) && text == due);
    }
    Ok(())
}

// By entries or by commands, with the journal and an explanation.
const BY_ENTRIES: DriveOptions<'static> = DriveOptions {
    raw: false,
    journal: true,
    explain: true,
    from: None,
};

const BY_COMMANDS: DriveOptions<'static> = DriveOptions {
    raw: true,
    journal: true,
    explain: true,
    from: None,
};

// What is written where a method writes some lines and quits, what is told to the errors, and the status.
#[derive(Drop)]
struct Driven {
    output: Vec<u8>,
    errors: Vec<u8>,
    answer: Result<u8, WriteFault>,
}

// Where it is marked, memory may be refused to it.
fn drive_lines<R: AllocGlobal + Wait>(
    rt: &R,
    driving: DriveOptions<'_>,
    marked: bool,
) -> Result<Driven, Fail> {
    let alloc = rt.alloc();
    let mut output = Vec::with_capacity(alloc, ROOM)?;
    let mut errors = Vec::with_capacity(alloc, ROOM)?;
    if marked {
        call_begins(alloc);
    }
    let lines = b"lamp,feed,green,\ndone,,,\nlamp,feed,red,\ndone,,,\nquit,,,\n".as_slice();
    let answer = cell_drive::drive_texts(
        rt,
        one_plate(),
        driving,
        lines,
        &mut WatchedWriter::new(&mut output),
        &mut WatchedWriter::new(&mut errors),
    );
    if marked {
        call_ends(alloc, answer == Ok(4));
    }
    Ok(Driven {
        output,
        errors,
        answer,
    })
}

// Want of memory is told by the status alone, and behind a first part of what is due.
fn check_driven<R: AllocGlobal + Abort + Wait>(
    rt: &R,
    driving: DriveOptions<'_>,
) -> Result<(), Fail> {
    let due = drive_lines(rt, driving, false)?;
    assert!(rt; due.answer == Ok(1));
    let told = drive_lines(rt, driving, true)?;
    let (errors, due_errors) = (told.errors.as_slice(), due.errors.as_slice());
    if told.answer == Ok(4) {
        assert!(rt; due_errors.starts_with(errors));
    } else {
        assert!(rt; told.answer == Ok(1) && errors == due_errors);
        assert!(rt; told.output.as_slice() == due.output.as_slice());
    }
    Ok(())
}

#[test]
fn drive_texts_by_entries(rt: HostRuntime) -> Result<(), Fail> {
    check_driven(&rt, BY_ENTRIES)
}

#[test]
fn drive_texts_by_commands(rt: HostRuntime) -> Result<(), Fail> {
    check_driven(&rt, BY_COMMANDS)
}

// A run from where a journal left the cell, with a plate on the feed belt.
fn check_taken_over<R: AllocGlobal + Abort + Wait>(
    rt: &R,
    driving: DriveOptions<'_>,
) -> Result<(), Fail> {
    let book = begun(rt.alloc(), 100, 1, 2)?;
    let from = Some(book.journal());
    check_driven(rt, DriveOptions { from, ..driving })
}

#[test]
fn drive_texts_from_a_journal_by_entries(rt: HostRuntime) -> Result<(), Fail> {
    check_taken_over(&rt, BY_ENTRIES)
}

#[test]
fn drive_texts_from_a_journal_by_commands(rt: HostRuntime) -> Result<(), Fail> {
    check_taken_over(&rt, BY_COMMANDS)
}
