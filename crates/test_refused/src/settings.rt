//! Settings that are read, and checked.
use crate::sample::{ROOM, check_written, is_wanted};
use cell_diagnosis::Limits;
use cell_settings::SettingsError;
use cell_turns::Plan;
use cell_types::Axis;
use std::process::Abort;
use std::test::Fail;
use test_samples::{call_begins, call_ends};

const SETTINGS: &[u8] = b"plates = 5\nturns = 7\n[watch.press_one]\nleave = 4\nlimit = 9\n";

fn check_plan(rt: &impl Abort, plan: &Plan) {
    let told = [plan.plates, plan.turns, plan.journal_limit];
    assert!(rt; told == [5, 7, 100_000]);
    let limits = plan.limits[Axis::PressOne as usize];
    assert!(rt; Some(limits) == Limits::new(4, 9));
}

#[test]
fn read_settings(rt: HostRuntime) {
    let alloc = rt.alloc();
    call_begins(alloc);
    let answer = cell_settings::read_settings(alloc, SETTINGS);
    call_ends(alloc, matches!(&answer, Err(SettingsError::OutOfMemory)));
    match &answer {
        Ok(plan) => check_plan(&rt, plan),
        Err(why) => assert!(rt; matches!(why, SettingsError::OutOfMemory), "{why:?}"),
    }
}

// The limit of the first press isn't above its leave.
const OUT_OF_RANGE: &[u8] = b"plates = 1\n[watch.press_one]\nleave = 20\n";

#[test]
fn read_settings_out_of_range(rt: HostRuntime) {
    let alloc = rt.alloc();
    call_begins(alloc);
    let answer = cell_settings::read_settings(alloc, OUT_OF_RANGE);
    call_ends(alloc, matches!(&answer, Err(SettingsError::OutOfMemory)));
    match &answer {
        Ok(_) => panic!(rt; "the limit is out of range"),
        Err(SettingsError::OutOfRange(path)) => {
            assert!(rt; path.as_str() == "watch.press_one.limit");
        }
        Err(why) => assert!(rt; matches!(why, SettingsError::OutOfMemory), "{why:?}"),
    }
}

#[test]
fn check_lines(rt: HostRuntime) -> Result<(), Fail> {
    let alloc = rt.alloc();
    let mut written = Vec::with_capacity(alloc, ROOM)?;
    call_begins(alloc);
    let answer = cell_settings::check_lines(alloc, SETTINGS, &mut written);
    call_ends(alloc, is_wanted(answer));
    check_written(&rt, answer, written.as_slice(), 0, b"settings ok\n");
    Ok(())
}

#[test]
fn check_lines_out_of_range(rt: HostRuntime) -> Result<(), Fail> {
    let alloc = rt.alloc();
    let mut written = Vec::with_capacity(alloc, ROOM)?;
    call_begins(alloc);
    let answer = cell_settings::check_lines(alloc, OUT_OF_RANGE, &mut written);
    call_ends(alloc, is_wanted(answer));
    let due = b"settings OutOfRange watch.press_one.limit\n";
    check_written(&rt, answer, written.as_slice(), 1, due);
    Ok(())
}
