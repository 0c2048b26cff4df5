//! Journals of runs that are followed.
use crate::runs::rounds::{read_case, told};
use cell_audit::{audit, read_rows};
use cell_output::{WatchedWriter, WriteFault};
use cell_rows::RowReader;
use cell_runs::{Texts, follow_after};
use std::io::Write;
use std::process::Abort;
use std::sync::Wait;
use std::test::Fail;
use std::thread::Threads;
use test_samples::FailingWriter;

// The status where a journal that was read is followed by the three texts of its run, or that the writer failed.
fn follow<R: AllocGlobal + Abort, W: Write>(
    rt: &R,
    journal: &[u8],
    [settings, faults, operator]: [&[u8]; 3],
    alone: bool,
    writer: &mut W,
) -> Result<u8, WriteFault> {
    let mut rows = RowReader::new(rt.alloc(), journal);
    let followed = read_rows(rt.alloc(), &mut rows).ok().expect(rt, "memory");
    let texts = Texts::new(settings, faults, operator);
    let mut writer = WatchedWriter::new(writer);
    let (status, _) = follow_after(rt.alloc(), &followed, texts, alone, &mut writer)?;
    Ok(status)
}

// What is printed where a journal is followed by the three texts of its run, or what is booked then. It has to end with
// this status.
fn followed<R: AllocGlobal + Abort>(
    rt: &R,
    journal: &[u8],
    texts: [&[u8]; 3],
    alone: bool,
    status: u8,
    case: &str,
) -> Vec<u8> {
    let mut written = Vec::new(rt.alloc());
    let answer = follow(rt, journal, texts, alone, &mut written);
    assert!(rt; answer == Ok(status), "{case}");
    written
}

// A journal has to be followed wholly by these texts: the same is booked, and its counts are printed.
fn check_whole<R: AllocGlobal + Abort>(
    rt: &R,
    journal: &[u8],
    texts: [&[u8]; 3],
    printed: &str,
    case: &str,
) -> Result<(), Fail> {
    let (_, totals) = printed.split_once('\n').unwrap_or(("", ""));
    let due = format!(in rt.alloc(); "followed\n{totals}")?;
    let written = followed(rt, journal, texts, false, 0, case);
    assert!(rt; written.as_slice() == due.as_str().as_bytes(), "{case}");
    let booked = followed(rt, journal, texts, true, 0, case);
    assert!(rt; booked.as_slice() == journal, "{case}");
    Ok(())
}

// The journal of a case's run, in rounds or on threads, has to be followed wholly.
fn check_run<R: AllocGlobal + Abort + Threads + Wait + Sync>(
    rt: &R,
    threads: bool,
    case: &str,
) -> Result<(), Fail> {
    let (texts, status, printed, _) = read_case(case);
    let journal = told(rt, texts, threads, true, status, case);
    check_whole(rt, journal.as_slice(), texts, printed, case)
}

/// A case is as in `rounds`.
pub(crate) const RUNS: [&str; 9] = [
    "plates = 5|||0|finished\nadmitted 5\nforged 5\nquarantined 0\ndelivered 5\n|0",
    // A press fails and is cleared, or is left so.
    "plates = 6|press_two,1,no_motion,\n|failed,press2,clear,press2\nfailed,press2,repair,press2\n\
    |0|finished\nadmitted 6\nforged 5\nquarantined 1\ndelivered 5\n|0",
    "plates = 6|press_two,1,no_motion,\n||1|stalled\nadmitted 6\nforged 5\nquarantined 0\ndelivered 5\n|0",
    // A plate that is laid back goes on.
    "plates = 3|feed_belt,1,no_motion,\n|failed,feed,clear,feed_in\nfailed,feed,repair,feed\nquarantined,1,expect,1\n\
    |0|finished\nadmitted 3\nforged 3\nquarantined 1\ndelivered 3\n|1",
    // A machine is stopped.
    "plates = 5||always,,stop,press1\n|0|finished\nadmitted 5\nforged 5\nquarantined 0\ndelivered 5\n|0",
    "plates = 5||always,,stop,deposit\n|1|stalled\nadmitted 5\nforged 3\nquarantined 0\ndelivered 0\n|0",
    // A command fails, and a plate is lost.
    "plates = 2|table_lift,1,refuse_command,\n||1|stalled\nadmitted 2\nforged 0\nquarantined 0\ndelivered 0\n|0",
    // A limit ended the run.
    "plates = 5\njournal_limit = 10|||1|full\nadmitted 1\nforged 0\nquarantined 0\ndelivered 0\n|0",
    "plates = 5\nturns = 1|||1|turn limit\nadmitted 0\nforged 0\nquarantined 0\ndelivered 0\n|0",
];

#[test]
fn a_run_in_rounds_is_followed(rt: HostRuntime) -> Result<(), Fail> {
    for &case in &RUNS {
        check_run(&rt, false, case)?;
    }
    Ok(())
}

// The first runs end on threads as they do in rounds.
const ON_THREADS: usize = 4;

// Journals that aren't followed wholly: the journal but for its profile, the three texts of the run, and what is
// printed.
const PARTED: [&str; 5] = [
    // Two entries of different machines are exchanged. Each of these journals is legal.
    "lamp,feed,green,\nadmitted,1,,\nstarted,feed_belt,to_end,\nconveyed,feed_belt,1,feed_end\nclaimed,feed,z1,\n\
    started,feed_belt,to_table,\nclaimed,table,z2,\nconveyed,feed_belt,1,table\n|plates = 1|||\
    entry 7: nothing in place of claimed,table,z2,\nadmitted 1\nforged 0\nquarantined 0\ndelivered 0\n",
    "lamp,feed,green,\nadmitted,1,,\nstarted,feed_belt,to_end,\nconveyed,feed_belt,1,feed_end\nclaimed,feed,z1,\n\
    started,feed_belt,to_table,\nconveyed,feed_belt,1,table\nyielded,feed,z1,\nclaimed,table,z2,\n|plates = 1|||\
    entry 9: claimed,table,z1, in place of claimed,table,z2,\nadmitted 1\nforged 0\nquarantined 0\ndelivered 0\n",
    // The machine books another entry, since a fault came; or none, since there is no room.
    "lamp,feed,green,\nadmitted,1,,\nstarted,feed_belt,to_end,\nconveyed,feed_belt,1,feed_end\n|plates = 1|\
    feed_belt,1,no_motion,||\
    entry 4: declared,feed,no_departure, in place of conveyed,feed_belt,1,feed_end\n\
    admitted 1\nforged 0\nquarantined 0\ndelivered 0\n",
    "lamp,feed,green,\nadmitted,1,,\n|plates = 1\njournal_limit = 1|||\
    entry 2: nothing in place of admitted,1,,\nadmitted 0\nforged 0\nquarantined 0\ndelivered 0\n",
    // The operator has nothing to do.
    "lamp,feed,green,\nstop_asked,press1,,\n|plates = 1|||\
    entry 2: nothing in place of stop_asked,press1,,\nadmitted 0\nforged 0\nquarantined 0\ndelivered 0\n",
];

// A journal of a case has to part so, with status 1, and what is booked then has to be legal.
fn check_parted<R: AllocGlobal + Abort>(rt: &R, case: &str) -> Result<(), Fail> {
    let (entries, rest) = case.split_once('|').unwrap_or(("", ""));
    let journal = format!(in rt.alloc(); "profile,2,,\n{entries}")?;
    let journal = journal.as_str().as_bytes();
    assert!(rt; audit(rt.alloc(), journal).is_ok(), "{case}");
    let mut parts = rest.split('|');
    let settings = parts.next().unwrap_or("").as_bytes();
    let faults = parts.next().unwrap_or("").as_bytes();
    let operator = parts.next().unwrap_or("").as_bytes();
    let texts = [settings, faults, operator];
    let printed = parts.next().unwrap_or("").as_bytes();
    let written = followed(rt, journal, texts, false, 1, case);
    assert!(rt; written.as_slice() == printed, "{case}");
    let booked = followed(rt, journal, texts, true, 1, case);
    assert!(rt; audit(rt.alloc(), booked.as_slice()).is_ok(), "{case}");
    Ok(())
}

#[test]
fn a_journal_parts_at_the_first_entry_that_is_not_booked(rt: HostRuntime) -> Result<(), Fail> {
    for &case in &PARTED {
        check_parted(&rt, case)?;
    }
    Ok(())
}

// The texts of which one is refused: the journal, the three of the run, and the line. The journal is told last.
const REFUSED: [&str; 6] = [
    "brew|plates = 0|brew|brew|settings OutOfRange plates\n",
    "brew|plates = 1|brew|brew|faults unreadable 1\n",
    "brew|plates = 1||brew|operator unreadable 1\n",
    "brew|plates = 1|||unreadable 0\n",
    "profile,2,,\nlamp,feed,green,\nbrew\n|plates = 1|||unreadable 2\n",
    "profile,1,,\nlamp,feed,green,\nadmitted,1,,\nadmitted,2,,\n|plates = 1|||refused 3 LampRed feed\n",
];

// The line of a case has to be printed, whether the journal is wanted or not.
fn check_first<R: AllocGlobal + Abort>(rt: &R, case: &str, alone: bool) {
    let mut parts = case.split('|');
    let journal = parts.next().unwrap_or("").as_bytes();
    let settings = parts.next().unwrap_or("").as_bytes();
    let faults = parts.next().unwrap_or("").as_bytes();
    let operator = parts.next().unwrap_or("").as_bytes();
    let line = parts.next().unwrap_or("").as_bytes();
    let written = followed(rt, journal, [settings, faults, operator], alone, 1, case);
    assert!(rt; written.as_slice() == line, "{case}");
}

#[test]
fn the_first_text_that_is_refused_is_told(rt: HostRuntime) {
    for &case in &REFUSED {
        check_first(&rt, case, false);
        check_first(&rt, case, true);
    }
}

const GREEN: &[u8] = b"profile,2,,\nlamp,feed,green,\n";

// That journal is followed over a writer that fails after so many bytes, which has to answer this.
fn check_cut<R: AllocGlobal + Abort>(
    rt: &R,
    alone: bool,
    left: usize,
    wanted: Result<u8, WriteFault>,
) {
    let mut writer = FailingWriter::new(Vec::new(rt.alloc()), left);
    let answer = follow(rt, GREEN, [b"plates = 1", b"", b""], alone, &mut writer);
    assert!(rt; answer == wanted, "after {left} bytes");
}

#[test]
fn a_failed_write_is_told(rt: HostRuntime) {
    let lines = b"followed\nadmitted 0\nforged 0\nquarantined 0\ndelivered 0\n".len();
    for left in 0..lines {
        check_cut(&rt, false, left, Err(WriteFault));
    }
    check_cut(&rt, false, lines, Ok(0));
    for left in 0..GREEN.len() {
        check_cut(&rt, true, left, Err(WriteFault));
    }
    check_cut(&rt, true, GREEN.len(), Ok(0));
}

#[test]
fn runs_on_threads_are_followed(rt: HostRuntime) -> Result<(), Fail> {
    for _ in 0..5u32 {
        for case in &RUNS[..ON_THREADS] {
            check_run(&rt, true, case)?;
        }
    }
    Ok(())
}
