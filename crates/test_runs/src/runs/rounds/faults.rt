//! Each motion of a run with each fault.
use crate::runs::rounds::{check_told, due_of, run_in_world};
use cell_types::texts::axis_word;
use cell_types::{AXES, Axis, Entry};
use cell_workers::End;
use std::alloc::AllocError;
use std::process::Abort;
use std::sync::Wait;
use std::thread::Threads;
use test_samples::entries_of;

const TEN: &[u8] = b"plates = 10";

// How many motions an axis began.
fn motions_of(entries: &[Entry], wanted: Axis) -> usize {
    entries
        .iter()
        .filter(|entry| matches!(entry, Entry::Started { axis, .. } if *axis == wanted))
        .count()
}

// A run of ten plates with a line of faults. It finishes or stalls and prints that, its journal's text is legal with
// the totals of its book, and no machines meet.
fn check_line<R: AllocGlobal + Abort + Threads + Wait + Sync>(
    rt: &R,
    line: &str,
) -> Result<(), AllocError> {
    let outcome = run_in_world(rt, [TEN, line.as_bytes(), b""], line);
    assert!(rt;
        outcome.end == End::Finished || outcome.end == End::Stalled,
        "{line}"
    );
    let due = due_of(rt.alloc(), &outcome)?;
    let case = format!(in rt.alloc(); "plates = 10|{line}|{due}")?;
    check_told(rt, case.as_str(), outcome.book.totals());
    Ok(())
}

// Such runs with a fault in each of the first motions of an axis.
fn check_axis<R: AllocGlobal + Abort + Threads + Wait + Sync>(
    rt: &R,
    axis: &str,
    motions: usize,
    fault: &str,
) -> Result<(), AllocError> {
    assert!(rt; motions > 0, "{axis}");
    for motion in 0..motions {
        let line = format!(in rt.alloc(); "{axis},{},{fault}\n", motion + 1)?;
        check_line(rt, line.as_str())?;
    }
    Ok(())
}

// Runs of ten plates, each with this fault in another motion. Each finishes or stalls, its journal is legal, and no
// machines meet.
fn check_fault<R: AllocGlobal + Abort + Threads + Wait + Sync>(
    rt: &R,
    fault: &str,
) -> Result<(), AllocError> {
    let whole = run_in_world(rt, [TEN, b"", b""], "plates = 10");
    assert!(rt; whole.end == End::Finished, "without {fault}");
    let entries = entries_of(rt.alloc(), whole.book.journal())?;
    for &axis in &AXES {
        let motions = motions_of(entries.as_slice(), axis);
        check_axis(rt, axis_word(axis), motions, fault)?;
    }
    Ok(())
}

#[test]
fn an_axis_that_does_not_move_harms_nothing(rt: HostRuntime) -> Result<(), AllocError> {
    check_fault(&rt, "no_motion,")
}

#[test]
fn a_switch_that_stays_harms_nothing(rt: HostRuntime) -> Result<(), AllocError> {
    check_fault(&rt, "keeps_old,")
}

#[test]
fn switches_that_are_all_shown_harm_nothing(rt: HostRuntime) -> Result<(), AllocError> {
    check_fault(&rt, "both,")
}

#[test]
fn a_slow_axis_harms_nothing(rt: HostRuntime) -> Result<(), AllocError> {
    check_fault(&rt, "slow,30")
}

#[test]
fn a_lost_plate_harms_nothing(rt: HostRuntime) -> Result<(), AllocError> {
    check_fault(&rt, "lose_plate,")
}

#[test]
fn missing_readings_harm_nothing(rt: HostRuntime) -> Result<(), AllocError> {
    check_fault(&rt, "silent,3")
}

#[test]
fn a_refused_command_harms_nothing(rt: HostRuntime) -> Result<(), AllocError> {
    check_fault(&rt, "refuse_command,")
}
