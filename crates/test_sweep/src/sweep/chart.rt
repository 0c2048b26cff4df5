//! Sweeps that are told as a chart.
use crate::sweep::sample::{in_csv, line_with, printed};
use cell_sim::Fault;
use cell_sweep::{Choice, Form, Sweep};
use std::process::Abort;
use std::test::Fail;
use std::thread::Threads;

const TEXTS: [&[u8]; 2] = [b"plates = 1\n", b""];

// The chart of a sweep, by one thread and by three.
fn drawn<R: AllocGlobal + Abort + Threads + Sync>(rt: &R, choice: Choice) -> Result<String, Fail> {
    let kinds = [Fault::NoMotion, Fault::Slow(1)];
    let sweep = Sweep {
        choice,
        form: Form::Chart,
        ..in_csv(&kinds, Some(1), false)
    };
    let text = printed(rt, TEXTS, sweep, 0)?;
    let threads = 3;
    let again = printed(rt, TEXTS, Sweep { threads, ..sweep }, 0)?;
    assert!(rt; text.as_str() == again.as_str());
    Ok(text)
}

// Where the feed belt doesn't move the cell stalls; where a reading of it is late, it doesn't.
#[test]
fn each_run_has_a_square(rt: HostRuntime) -> Result<(), Fail> {
    let text = drawn(&rt, Choice::Single)?;
    let text = text.as_str();
    assert!(rt; text.starts_with("<svg ") && text.ends_with("</svg>\n"));
    assert!(rt; text.contains(">18 runs, each with one fault<"), "{text}");
    assert!(rt;
        text.contains("<title>feed_belt, motion 1, no_motion: stalled</title>"),
        "{text}"
    );
    assert!(rt;
        text.contains("<title>feed_belt, motion 1, slow:1: finished</title>"),
        "{text}"
    );
    assert!(rt; line_with(text, "axis,").is_empty() && line_with(text, "runs ").is_empty());
    Ok(())
}

#[test]
fn runs_with_two_faults_have_no_square(rt: HostRuntime) -> Result<(), Fail> {
    let text = drawn(&rt, Choice::Pairs)?;
    assert!(rt;
        text.as_str().contains(">0 runs, each with one fault<"),
        "{text}"
    );
    Ok(())
}
