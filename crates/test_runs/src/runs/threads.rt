//! Runs on threads by their texts: what is written, and the status.
use crate::runs::rounds::{read_case, told};
use cell_audit::audit_lines;
use std::process::Abort;
use std::sync::Wait;
use std::test::Fail;
use std::thread::Threads;

// What the audit prints of a run's journal, which has to be legal.
fn audited<R: AllocGlobal + Abort>(rt: &R, journal: &[u8], case: &str) -> Vec<u8> {
    let mut written = Vec::new(rt.alloc());
    let answer = audit_lines(rt.alloc(), journal, &mut written);
    assert!(rt; answer == Ok(0), "{case}");
    written
}

// A run's journal has to audit as legal, with the totals that are printed, and so many plates laid back.
fn check_journal<R: AllocGlobal + Abort>(
    rt: &R,
    journal: &[u8],
    (printed, laid_back): (&str, &str),
    case: &str,
) -> Result<(), Fail> {
    let audited = audited(rt, journal, case);
    assert!(rt; audited.as_slice().starts_with(b"legal "), "{case}");
    let (_, totals) = printed.split_once('\n').unwrap_or(("", ""));
    let due = format!(in rt.alloc(); "{totals}reinstated {laid_back}\n")?;
    assert!(rt;
        audited.as_slice().ends_with(due.as_str().as_bytes()),
        "{case}"
    );
    Ok(())
}

// A run on threads has to write what its case says. Its journal has to audit as legal, with the same totals.
fn check_case<R: AllocGlobal + Abort + Threads + Wait + Sync>(
    rt: &R,
    case: &str,
) -> Result<(), Fail> {
    let (texts, status, printed, laid_back) = read_case(case);
    let written = told(rt, texts, true, false, status, case);
    assert!(rt; written.as_slice() == printed.as_bytes(), "{case}");
    let journal = told(rt, texts, true, true, status, case);
    check_journal(rt, journal.as_slice(), (printed, laid_back), case)
}

// A case is as in `rounds`.
const RUNS: [&str; 5] = [
    "plates = 5|||0|finished\nadmitted 5\nforged 5\nquarantined 0\ndelivered 5\n|0",
    // A press fails and is cleared, or is left so.
    "plates = 6|press_two,1,no_motion,\n|failed,press2,clear,press2\nfailed,press2,repair,press2\n\
    |0|finished\nadmitted 6\nforged 5\nquarantined 1\ndelivered 5\n|0",
    "plates = 6|press_two,1,no_motion,\n||1|stalled\nadmitted 6\nforged 5\nquarantined 0\ndelivered 5\n|0",
    "plates = 5\nturns = 1|||1|turn limit\nadmitted 0\nforged 0\nquarantined 0\ndelivered 0\n|0",
    // A plate that is laid back goes on.
    "plates = 3|feed_belt,1,no_motion,\n|failed,feed,clear,feed_in\nfailed,feed,repair,feed\nquarantined,1,expect,1\n\
    |0|finished\nadmitted 3\nforged 3\nquarantined 1\ndelivered 3\n|1",
];

#[test]
fn writes_how_a_run_ends(rt: HostRuntime) -> Result<(), Fail> {
    for &case in &RUNS {
        check_case(&rt, case)?;
    }
    Ok(())
}

// How many lines a text has.
fn count_lines(text: &[u8]) -> usize {
    let mut lines = 0usize;
    for byte in text {
        if *byte == b'\n' {
            lines = lines.saturating_add(1);
        }
    }
    lines
}

// A run whose journal takes so many entries, which five plates fill. Its journal, after the line of its profile, has at
// most six entries more, and audits as legal.
fn check_full<R: AllocGlobal + Abort + Threads + Wait + Sync>(
    rt: &R,
    limit: usize,
) -> Result<(), Fail> {
    let settings = format!(in rt.alloc(); "plates = 5\njournal_limit = {limit}\n")?;
    let case = settings.as_str();
    let texts = [case.as_bytes(), b"", b""];
    let written = told(rt, texts, true, false, 1, case);
    assert!(rt;
        written.as_slice().starts_with(b"full\nadmitted "),
        "{case}"
    );
    let journal = told(rt, texts, true, true, 1, case);
    let entries = count_lines(journal.as_slice()).saturating_sub(1);
    assert!(rt;
        limit <= entries && entries <= limit.saturating_add(6),
        "{case}"
    );
    let _ = audited(rt, journal.as_slice(), case);
    Ok(())
}

#[test]
fn writes_that_the_journal_was_full(rt: HostRuntime) -> Result<(), Fail> {
    for limit in 1..101usize {
        check_full(&rt, limit)?;
    }
    Ok(())
}
