//! The program's own machine workers, measured.
use crate::drive::sample::has_line;
use cell_drive::run_measured;
use cell_output::WatchedWriter;
use cell_runs::{Texts, run_texts};
use std::process::Abort;
use std::sync::Wait;
use std::test::Fail;
use std::thread::Threads;
use test_samples::STUCK_PRESS;

// What is written of a run by these settings and faults, with its measures. It has to end with this status.
fn measured<R: AllocGlobal + Abort>(
    rt: &R,
    [settings, faults]: [&str; 2],
    journal: bool,
    status: u8,
) -> Vec<u8> {
    let mut text = Vec::new(rt.alloc());
    let texts = Texts::new(settings.as_bytes(), faults.as_bytes(), b"");
    let answer = run_measured(
        rt.alloc(),
        texts,
        journal,
        &mut WatchedWriter::new(&mut text),
    );
    let told = answer.map(|(told, _)| told);
    assert!(rt; told == Ok(status));
    text
}

// The same without its measures.
fn printed<R: AllocGlobal + Abort + Threads + Wait + Sync>(
    rt: &R,
    [settings, faults]: [&str; 2],
    journal: bool,
    status: u8,
) -> Vec<u8> {
    let mut text = Vec::new(rt.alloc());
    let (settings, faults) = (settings.as_bytes(), faults.as_bytes());
    let answer = run_texts(rt, settings, faults, b"", false, journal, &mut text);
    assert!(rt; answer == Ok(status));
    text
}

// Behind what is written of a run without its measures they have to begin so. What is written of both.
fn check_measures<R: AllocGlobal + Abort + Threads + Wait + Sync>(
    rt: &R,
    texts: [&str; 2],
    journal: bool,
    status: u8,
    first: &str,
) -> Result<Vec<u8>, Fail> {
    let mut due = printed(rt, texts, journal, status);
    due.extend_from_slice(first.as_bytes())?;
    let text = measured(rt, texts, journal, status);
    assert!(rt; text.as_slice().starts_with(due.as_slice()));
    Ok(text)
}

// Six plates are carried through the cell.
const SIX: [&str; 2] = ["plates = 6\n", ""];

// What is measured of them first.
const COUNTS: &str = "rounds 441\nentries 454\ncollisions 0\nbroken 0\n";

#[test]
fn the_own_workers_are_measured(rt: HostRuntime) -> Result<(), Fail> {
    let text = check_measures(&rt, SIX, false, 0, COUNTS)?;
    let text = text.as_slice();
    assert!(rt; has_line(text, "rounds a plate 92 181 181") && has_line(text, "deposit moving 18"));
    assert!(rt;
        has_line(text, "time journal entries 454") && has_line(text, "time plates delivered 6")
    );
    Ok(())
}

#[test]
fn measures_follow_a_journal(rt: HostRuntime) -> Result<(), Fail> {
    let _text = check_measures(&rt, SIX, true, 0, COUNTS)?;
    Ok(())
}

#[test]
fn a_stalled_run_is_measured(rt: HostRuntime) -> Result<(), Fail> {
    let texts = ["plates = 6\n", STUCK_PRESS];
    let _text = check_measures(&rt, texts, false, 1, "rounds ")?;
    Ok(())
}

#[test]
fn a_refused_text_has_no_measures(rt: HostRuntime) -> Result<(), Fail> {
    let texts = ["plates = 0\n", ""];
    let due = printed(&rt, texts, false, 1);
    let text = measured(&rt, texts, false, 1);
    assert!(rt; text.as_slice() == due.as_slice());
    Ok(())
}
