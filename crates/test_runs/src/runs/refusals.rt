//! Texts that are refused, and writers that fail, in rounds and on threads.
use crate::runs::rounds::{read_case, told};
use cell_output::WriteFault;
use cell_runs::run_texts;
use std::process::Abort;
use std::sync::Wait;
use std::test::Fail;
use std::thread::Threads;
use test_samples::{FailingWriter, Unwilling};

// A run in rounds or on threads, and whether its journal is wanted.
const FORMS: [(bool, bool); 4] = [(false, false), (false, true), (true, false), (true, true)];

// Three texts of which one is refused with this line, before a thread is started, whether the journal is wanted or not.
fn check_refused<R: AllocGlobal + Abort + Threads + Wait + Sync>(
    rt: &R,
    settings: &[u8],
    faults: &[u8],
    operator: &[u8],
    line: &str,
) {
    for &(threads, journal) in &FORMS {
        let texts = [settings, faults, operator];
        let written = told(rt, texts, threads, journal, 1, line);
        assert!(rt; written.as_slice() == line.as_bytes(), "{line}");
    }
}

const GOOD: &[u8] = b"plates = 1";

// A case is as in `rounds`; no plate is laid back.
const REFUSED: [&str; 6] = [
    // The settings are told before the scripts, and the faults before the operator's script.
    "plates = 0|brew|brew|1|settings OutOfRange plates\n",
    "plates = 1|brew|brew|1|faults unreadable 1\n",
    "plates = 5|brew|brew|1|faults unreadable 1\n",
    // A fault stands twice.
    "plates = 1|press_two,1,both,\npress_two,1,both,\n|brew|1|faults unreadable 2\n",
    // The operator's line is told.
    "plates = 1||always,1,stop,press1|1|operator unreadable 1\n",
    "plates = 5||brew|1|operator unreadable 1\n",
];

#[test]
fn the_first_text_that_is_refused_is_told(rt: HostRuntime) {
    for &case in &REFUSED {
        let ([settings, faults, operator], _, line, _) = read_case(case);
        check_refused(&rt, settings, faults, operator, line);
    }
    check_refused(&rt, GOOD, b"\xff", b"\xff", "faults unreadable 1\n");
    check_refused(&rt, GOOD, b"", b"\xff", "operator unreadable 1\n");
}

#[test]
fn scripts_that_are_too_long_are_told(rt: HostRuntime) -> Result<(), Fail> {
    let mut stops = Vec::new(rt.alloc());
    let mut faults = Vec::new(rt.alloc());
    for motion in 1..1002u64 {
        stops.extend_from_slice(b"always,,stop,press1\n")?;
        let line = format!(in rt.alloc(); "press_two,{motion},both,\n")?;
        faults.extend_from_slice(line.as_str().as_bytes())?;
    }
    check_refused(&rt, GOOD, faults.as_slice(), b"brew", "faults too long\n");
    check_refused(&rt, GOOD, b"", stops.as_slice(), "operator too long\n");
    Ok(())
}

// A run in such a form, over a writer that fails after so many bytes, has to answer this.
fn check_cut<R: AllocGlobal + Abort + Threads + Wait + Sync>(
    rt: &R,
    (threads, journal): (bool, bool),
    left: usize,
    wanted: Result<u8, WriteFault>,
) {
    let mut writer = FailingWriter::new(Vec::new(rt.alloc()), left);
    let answer = run_texts(rt, GOOD, b"", b"", threads, journal, &mut writer);
    assert!(rt; answer == wanted, "after {left} bytes");
}

#[test]
fn a_failed_write_is_told(rt: HostRuntime) {
    for &(threads, journal) in &FORMS {
        let answer = run_texts(&rt, GOOD, b"", b"", threads, journal, &mut Unwilling);
        assert!(rt; answer == Err(WriteFault), "nothing was taken");
        check_cut(&rt, (threads, journal), 0, Err(WriteFault));
    }
    let lines = b"finished\nadmitted 1\nforged 1\nquarantined 0\ndelivered 1\n".len();
    for left in 0..lines {
        check_cut(&rt, (false, false), left, Err(WriteFault));
    }
    check_cut(&rt, (false, false), lines, Ok(0));
    for left in 0..40usize {
        check_cut(&rt, (false, true), left, Err(WriteFault));
    }
}
