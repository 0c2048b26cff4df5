//! Whole runs by their texts, in rounds on one thread and on threads.
use cell_audit::{AuditError, audit, read_rows};
use cell_journal::Journal;
use cell_output::{WatchedWriter, WriteFault};
use cell_rows::RowReader;
use cell_runs::{KeptRun, Left, Mode, Texts, follow_after, run_after, run_kept};
use cell_types::Totals;
use std::process::Abort;
use std::sync::Wait;
use std::test::Fail;
use std::thread::Threads;
use test_samples::{CLEARED_PRESS, STUCK_PRESS, call_begins, call_ends};

/// Room for all that a run writes, so that the writer asks for no memory.
pub(crate) const ROOM: usize = 100_000;

/// The texts of a run: its settings, its faults and the operator's script.
pub(crate) type Case = [&'static str; 3];

// In rounds the only plate is cleared from the feed belt, which is repaired. This takes few rounds, each of which takes
// memory for its lists.
const SHORT: Case = [
    "plates = 1",
    "\"press_two\",1,no_motion,\n",
    "admitted,1,stop,feed\nfailed,feed,clear,feed_in\n\"failed\",feed,repair,feed\n",
];

// On threads one of six plates stays in the second press, and is cleared.
const LONG: Case = ["plates = 6", STUCK_PRESS, CLEARED_PRESS];

// One plate is carried through the cell.
const PLAIN: Case = ["plates = 1", "", ""];

// What a run writes, and its status. Where the run is marked, memory may be refused to it.
fn run<R: AllocGlobal + Abort + Threads + Wait + Sync>(
    rt: &R,
    texts: Case,
    threads: bool,
    journal: bool,
    marked: bool,
) -> Result<(Vec<u8>, Result<u8, WriteFault>), Fail> {
    let alloc = rt.alloc();
    let [settings, faults, operator] = texts;
    let mut written = Vec::with_capacity(alloc, ROOM)?;
    if marked {
        call_begins(alloc);
    }
    let answer = cell_runs::run_texts(
        rt,
        settings.as_bytes(),
        faults.as_bytes(),
        operator.as_bytes(),
        threads,
        journal,
        &mut written,
    );
    if marked {
        call_ends(alloc, answer == Ok(4));
    }
    Ok((written, answer))
}

/// Whether these are the five lines of a run that ended for want of memory.
pub(crate) fn tells_memory(written: &[u8]) -> bool {
    let ends = written.iter().filter(|byte| **byte == b'\n').count();
    written.starts_with(b"memory\nadmitted ") && written.ends_with(b"\n") && ends == 5
}

// The lines of a run, which are these where it has memory.
fn check_lines<R: AllocGlobal + Abort + Threads + Wait + Sync>(
    rt: &R,
    texts: Case,
    threads: bool,
    due: &[u8],
) -> Result<(), Fail> {
    let (written, answer) = run(rt, texts, threads, false, true)?;
    let lines = written.as_slice();
    if answer == Ok(4) {
        assert!(rt; lines.is_empty() || tells_memory(lines));
    } else {
        assert!(rt; answer == Ok(0) && lines == due);
    }
    Ok(())
}

#[test]
fn run_texts_in_rounds(rt: HostRuntime) -> Result<(), Fail> {
    let due = b"finished\nadmitted 1\nforged 0\nquarantined 1\ndelivered 0\n";
    check_lines(&rt, SHORT, false, due)
}

#[test]
fn run_texts_on_threads(rt: HostRuntime) -> Result<(), Fail> {
    let due = b"finished\nadmitted 6\nforged 5\nquarantined 1\ndelivered 5\n";
    check_lines(&rt, LONG, true, due)
}

// The journal of a run in rounds is the same each time.
#[test]
fn run_texts_in_rounds_with_journal(rt: HostRuntime) -> Result<(), Fail> {
    let (due, status) = run(&rt, SHORT, false, true, false)?;
    assert!(rt; status == Ok(0));
    let (written, answer) = run(&rt, SHORT, false, true, true)?;
    let (text, due) = (written.as_slice(), due.as_slice());
    if answer == Ok(4) {
        assert!(rt; due.starts_with(text));
    } else {
        assert!(rt; answer == Ok(0) && text == due);
    }
    Ok(())
}

// The audit of a whole journal of that plate.
fn check_audited(rt: &impl Abort, audited: Result<(u8, Totals), AuditError>) {
    match audited {
        Ok((number, totals)) => {
            assert!(rt; number == 2);
            let Totals {
                admitted,
                forged,
                quarantined,
                delivered,
                ..
            } = totals;
            let counts = [admitted, forged, quarantined, delivered];
            assert!(rt; counts == [1, 1, 0, 1]);
        }
        Err(why) => panic!(rt; "the journal is legal: {why:?}"),
    }
}

// That of a run on threads isn't. No entry of it is refused, and a whole one has the plate's counts.
#[test]
fn run_texts_on_threads_with_journal(rt: HostRuntime) -> Result<(), Fail> {
    let (written, answer) = run(&rt, PLAIN, true, true, true)?;
    let audited = audit(rt.alloc(), written.as_slice());
    if answer == Ok(4) {
        assert!(rt; matches!(audited, Ok(_) | Err(AuditError::Unreadable(_))));
    } else {
        assert!(rt; answer == Ok(0));
        check_audited(&rt, audited);
    }
    Ok(())
}

/// A run in rounds with its journal, which is kept. Where it is marked, memory may be refused to it.
pub(crate) fn keep<R: AllocGlobal + Abort + Threads + Wait + Sync>(
    rt: &R,
    texts: Case,
    marked: bool,
) -> Result<(Vec<u8>, u8, Option<KeptRun>), Fail> {
    let alloc = rt.alloc();
    let [settings, faults, operator] = texts;
    let [settings, faults, operator] = [
        settings.as_bytes(),
        faults.as_bytes(),
        operator.as_bytes(),
    ];
    let mut written = Vec::with_capacity(alloc, ROOM)?;
    if marked {
        call_begins(alloc);
    }
    let texts = Texts::new(settings, faults, operator);
    let mut writer = WatchedWriter::new(&mut written);
    let answer = run_kept(rt, texts, Mode::Rounds, false, &mut writer);
    if marked {
        call_ends(alloc, matches!(&answer, Ok((4, _))));
    }
    match answer {
        Ok((status, Left::Run(run))) => Ok((written, status, Some(run))),
        Ok((status, _)) => Ok((written, status, None)),
        Err(WriteFault) => panic!(rt; "there is room for all that is written"),
    }
}

// Whether a journal's entries are the first of another's.
fn begins(journal: &Journal, whole: &Journal) -> bool {
    let mut same = journal.len() <= whole.len();
    for place in 0..journal.len() {
        same = same && journal.get(place) == whole.get(place);
    }
    same
}

// The length of a journal that was kept, whose entries are the first of another's.
fn check_kept(rt: &impl Abort, kept: &Option<KeptRun>, whole: &Journal) -> Option<u32> {
    match kept {
        Some(run) => {
            assert!(rt; begins(&run.journal, whole));
            Some(run.journal.len())
        }
        None => None,
    }
}

// Where memory is wanting, a journal that is kept is a first part of the one that is due.
#[test]
fn run_kept_in_rounds(rt: HostRuntime) -> Result<(), Fail> {
    let (due, status, whole) = keep(&rt, SHORT, false)?;
    let whole = whole.expect(&rt, "a run").journal;
    assert!(rt; status == 0);
    let (written, status, journal) = keep(&rt, SHORT, true)?;
    let length = check_kept(&rt, &journal, &whole);
    let lines = written.as_slice();
    if status == 4 {
        assert!(rt; lines.is_empty() || tells_memory(lines));
    } else {
        assert!(rt; status == 0 && lines == due.as_slice() && length == Some(whole.len()));
    }
    Ok(())
}

// The journal of that plate's run is followed.
#[test]
fn follow_after_a_run(rt: HostRuntime) -> Result<(), Fail> {
    let (journal, status) = run(&rt, SHORT, false, true, false)?;
    assert!(rt; status == Ok(0));
    let alloc = rt.alloc();
    let [settings, faults, operator] = SHORT;
    let [settings, faults, operator] = [
        settings.as_bytes(),
        faults.as_bytes(),
        operator.as_bytes(),
    ];
    let followed = read_rows(alloc, &mut RowReader::new(alloc, journal.as_slice()))?;
    let texts = Texts::new(settings, faults, operator);
    let mut written = Vec::with_capacity(alloc, ROOM)?;
    let mut writer = WatchedWriter::new(&mut written);
    call_begins(alloc);
    let answer = follow_after(alloc, &followed, texts, false, &mut writer);
    let status = answer.map(|(status, _)| status);
    call_ends(alloc, status == Ok(4));
    let lines = written.as_slice();
    if status == Ok(4) {
        assert!(rt; lines.is_empty() || tells_memory(lines));
    } else {
        let due: &[u8] = b"followed\nadmitted 1\nforged 0\nquarantined 1\ndelivered 0\n";
        assert!(rt; status == Ok(0) && lines == due);
    }
    Ok(())
}

// The journal of that run, as far as the plate is laid in.
const BEGUN: &[u8] = b"profile,2,,\nlamp,feed,green,\nadmitted,1,,\n";

#[test]
fn run_from_a_journal_that_was_read(rt: HostRuntime) -> Result<(), Fail> {
    let alloc = rt.alloc();
    let [settings, faults, operator] = SHORT;
    let [settings, faults, operator] = [
        settings.as_bytes(),
        faults.as_bytes(),
        operator.as_bytes(),
    ];
    let before = read_rows(alloc, &mut RowReader::new(alloc, BEGUN))?;
    let texts = Texts::new(settings, faults, operator);
    let mut written = Vec::with_capacity(alloc, ROOM)?;
    let mut writer = WatchedWriter::new(&mut written);
    call_begins(alloc);
    let answer = run_after(alloc, &before, texts, false, &mut writer);
    let status = answer.map(|(status, _)| status);
    call_ends(alloc, status == Ok(4));
    let lines = written.as_slice();
    if status == Ok(4) {
        assert!(rt; lines.is_empty() || tells_memory(lines));
    } else {
        let due: &[u8] = b"finished\nadmitted 1\nforged 0\nquarantined 1\ndelivered 0\n";
        assert!(rt; status == Ok(0) && lines == due);
    }
    Ok(())
}
