//! Sweeps of faults that are drawn.
use crate::sweep::sample::{in_csv, printed};
use cell_sim::Fault;
use cell_sweep::{Choice, Part, Sweep};
use std::process::Abort;
use std::test::Fail;
use std::thread::Threads;

const TEXTS: [&[u8]; 2] = [b"plates = 1\n", b""];

const KINDS: [Fault; 2] = [Fault::Slow(2), Fault::NoMotion];

// Runs with so many faults in the first two motions of each axis.
fn drawn(runs: u32, faults: u32, seed: u32) -> Sweep<'static> {
    Sweep {
        choice: Choice::Random { runs, faults, seed },
        ..in_csv(&KINDS, Some(2), false)
    }
}

// The axis and the number of a motion, as a record of a fault begins.
fn motion_of(record: &str) -> Option<(&str, &str)> {
    let mut fields = record.trim_start_matches('"').split(',');
    Some((fields.next()?, fields.next()?))
}

#[test]
fn a_seed_says_the_faults(rt: HostRuntime) -> Result<(), Fail> {
    let first = printed(&rt, TEXTS, drawn(4, 3, 7), 0)?;
    let again = printed(&rt, TEXTS, drawn(4, 3, 7), 0)?;
    let other = printed(&rt, TEXTS, drawn(4, 3, 8), 0)?;
    assert!(rt; first.as_str() == again.as_str());
    assert!(rt; first.as_str() != other.as_str());
    assert!(rt; first.as_str().lines().count() == 5, "{first}");
    Ok(())
}

#[test]
fn parts_of_drawn_runs_are_the_whole(rt: HostRuntime) -> Result<(), Fail> {
    let sweep = drawn(5, 2, 1);
    let whole = printed(&rt, TEXTS, sweep, 0)?;
    let mut parts = String::new(rt.alloc());
    for number in 1..3 {
        let part = Part { number, count: 2 };
        let text = printed(&rt, TEXTS, Sweep { part, ..sweep }, 0)?;
        parts.push_str(text.as_str())?;
    }
    assert!(rt; parts.as_str() == whole.as_str());
    Ok(())
}

#[test]
fn with_fewer_motions_each_has_a_fault(rt: HostRuntime) -> Result<(), Fail> {
    let sweep = Sweep {
        motions: Some(1),
        ..drawn(1, 100, 3)
    };
    let text = printed(&rt, TEXTS, sweep, 0)?;
    let row = text.as_str().lines().nth(1).unwrap_or("");
    let axes = [
        "\"feed_belt,1,",
        ";table_lift,1,",
        ";table_turn,1,",
        ";robot_turn,1,",
        ";deposit_belt,1,",
    ];
    for axis in axes {
        assert!(rt; row.contains(axis), "{row}");
    }
    assert!(rt; row.split(';').count() == 9, "{row}");
    Ok(())
}

// The motions of a row's faults are different, since they come in the motions' order.
#[test]
fn faults_of_a_run_are_in_different_motions(rt: HostRuntime) -> Result<(), Fail> {
    let text = printed(&rt, TEXTS, drawn(6, 5, 9), 0)?;
    for line in text.as_str().lines().skip(1) {
        let faults = line.split("\",").next().unwrap_or("");
        assert!(rt; faults.split(';').count() == 5, "{line}");
        let mut before = None;
        for record in faults.split(';') {
            let motion = motion_of(record);
            assert!(rt; motion.is_some() && motion != before, "{line}");
            before = motion;
        }
    }
    Ok(())
}

#[test]
fn without_kinds_there_are_no_faults(rt: HostRuntime) -> Result<(), Fail> {
    let sweep = Sweep {
        kinds: &[],
        ..drawn(2, 3, 1)
    };
    let text = printed(&rt, TEXTS, sweep, 0)?;
    let mut lines = text.as_str().lines().skip(1);
    assert!(rt;
        lines.next().unwrap_or("").starts_with("\"\",finished,1,"),
        "{text}"
    );
    assert!(rt; lines.count() == 1);
    Ok(())
}
