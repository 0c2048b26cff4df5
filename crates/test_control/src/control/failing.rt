//! Writers that fail in mid-stream.
use crate::control::sample::{
    EXPLAINED, NEW, STILL, STOP, controlled, controlled_over, joined, new_book,
};
use cell_control::{ControlOptions, Streams};
use std::process::Abort;
use std::test::Fail;
use test_samples::FailingWriter;

// The lines of a cell that opens two rounds and is silent then.
const LINES: [&str; 6] = [
    "drive,1,1,\n",
    STILL,
    "round,1,,\n",
    "ok,,,\nok,,,\n",
    STILL,
    "round,2,,\n",
];

// What is written to it before it is gone.
const ROUNDS: &str = "stay,,,\nlamp,feed,green,\ndone,,,\ndone,,,\n";

// What is told of it.
const TOLD: &str = "cell gone\nadmitted 0\nforged 0\nquarantined 0\ndelivered 0\n";

// And why the run ended so, where that is told.
const WHY: &str = "1 plate wasn't admitted\n";

// What was written has to be the first so many bytes of what is written without a fault.
fn is_begun<R: AllocGlobal + Abort>(rt: &R, written: &[u8], count: usize) -> Result<(), Fail> {
    let whole = joined(rt, &[ROUNDS, STOP])?;
    assert!(rt; written.len() == count, "{count} bytes");
    assert!(rt; whole.as_slice().starts_with(written), "{count} bytes");
    Ok(())
}

// A run whose output fails after so many bytes has to tell this first.
fn check_output<R: AllocGlobal + Abort>(rt: &R, count: usize, first: &str) -> Result<(), Fail> {
    let lines = joined(rt, &LINES)?;
    let errors: Vec<u8> = Vec::new(rt.alloc());
    let streams = Streams {
        input: lines.as_slice(),
        output: FailingWriter::new(Vec::new(rt.alloc()), count),
        errors,
    };
    let left = controlled_over(rt, new_book(rt), "", NEW, streams);
    is_begun(rt, left.output.inner().as_slice(), count)?;
    assert!(rt;
        left.errors.as_slice().starts_with(first.as_bytes()),
        "after {count} bytes"
    );
    assert!(rt; matches!(left.status, Ok(3)), "after {count} bytes");
    Ok(())
}

#[test]
fn an_output_that_fails_ends_the_run(rt: HostRuntime) -> Result<(), Fail> {
    for count in 0..ROUNDS.len() {
        check_output(&rt, count, "write to the cell failed\nadmitted 0\n")?;
    }
    Ok(())
}

// A run whose errors' writer fails after so many bytes writes the same to the cell, and answers an error.
fn check_errors<R: AllocGlobal + Abort>(
    rt: &R,
    options: ControlOptions,
    count: usize,
) -> Result<(), Fail> {
    let lines = joined(rt, &LINES)?;
    let output: Vec<u8> = Vec::new(rt.alloc());
    let streams = Streams {
        input: lines.as_slice(),
        output,
        errors: FailingWriter::new(Vec::new(rt.alloc()), count),
    };
    let left = controlled_over(rt, new_book(rt), "", options, streams);
    let whole = joined(rt, &[ROUNDS, STOP])?;
    assert!(rt; left.output.as_slice() == whole.as_slice());
    assert!(rt; left.status.is_err(), "after {count} bytes");
    Ok(())
}

#[test]
fn a_failed_write_of_what_is_told_is_an_error(rt: HostRuntime) -> Result<(), Fail> {
    for count in 0..TOLD.len() {
        check_errors(&rt, NEW, count)?;
    }
    let left = controlled(&rt, new_book(&rt), "", NEW, &LINES)?;
    assert!(rt; left.errors.as_slice() == TOLD.as_bytes());
    assert!(rt; matches!(left.status, Ok(1)));
    for count in TOLD.len()..TOLD.len() + WHY.len() {
        check_errors(&rt, EXPLAINED, count)?;
    }
    Ok(())
}
