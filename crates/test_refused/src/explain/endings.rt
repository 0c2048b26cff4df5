//! What is said of a run's end.
use crate::runs::{Case, ROOM, keep};
use cell_explain::endings::{EndedRun, write_ending};
use cell_runs::KeptRun;
use std::alloc::Global;
use std::io::ErrorKind;
use std::process::Abort;
use std::test::Fail;
use test_samples::{call_begins, call_ends};

// The plate stays on the feed belt, which fails, since the operator waits for more plates, and no plate sets the second
// press in motion.
const STALLED: Case = [
    "plates = 1",
    "\"press_two\",1,no_motion,\n",
    "admitted,1,stop,feed\n\"admitted\",2,repair,feed\n",
];

// What is said of the end of a run, and whether memory was wanting.
fn ending(
    rt: &impl Abort,
    alloc: Global,
    run: &KeptRun,
    marked: bool,
) -> Result<(Vec<u8>, bool), Fail> {
    let [_, faults, operator] = STALLED;
    let ended = EndedRun {
        journal: &run.journal,
        before: 0,
        end: run.end,
        plan: &run.plan,
        faults: faults.as_bytes(),
        operator: operator.as_bytes(),
    };
    let mut written = Vec::with_capacity(alloc, ROOM)?;
    if marked {
        call_begins(alloc);
    }
    let answer = write_ending(alloc, &ended, &mut written);
    if marked {
        call_ends(alloc, answer.is_err());
    }
    if let Err(why) = &answer {
        assert!(rt; why.kind() == ErrorKind::OutOfMemory);
    }
    Ok((written, answer.is_err()))
}

#[test]
fn write_ending_of_a_stalled_run(rt: HostRuntime) -> Result<(), Fail> {
    let alloc = rt.alloc();
    let (_, status, run) = keep(&rt, STALLED, false)?;
    let run = run.expect(&rt, "a run");
    assert!(rt; status == 1);
    let (due, wanted) = ending(&rt, alloc, &run, false)?;
    assert!(rt; !wanted);
    let ends = due.iter().filter(|byte| **byte == b'\n').count();
    assert!(rt; ends == 4);
    let (written, wanted) = ending(&rt, alloc, &run, true)?;
    if wanted {
        assert!(rt; due.as_slice().starts_with(written.as_slice()));
    } else {
        assert!(rt; written.as_slice() == due.as_slice());
    }
    Ok(())
}
