//! Parts of sweeps.
use crate::sweep::sample::{in_csv, printed};
use cell_sim::Fault;
use cell_sweep::{Choice, Part, Sweep};
use std::process::Abort;
use std::test::Fail;
use std::thread::Threads;

const TEXTS: [&[u8]; 2] = [b"plates = 1\n", b""];

// The texts of three parts of a sweep, one behind the other, are the text of the whole.
fn check<R: AllocGlobal + Abort + Threads + Sync>(rt: &R, sweep: Sweep<'_>) -> Result<(), Fail> {
    let whole = printed(rt, TEXTS, sweep, 0)?;
    let mut parts = String::new(rt.alloc());
    for number in 1..4 {
        let part = Part { number, count: 3 };
        let text = printed(rt, TEXTS, Sweep { part, ..sweep }, 0)?;
        parts.push_str(text.as_str())?;
    }
    assert!(rt; parts.as_str() == whole.as_str());
    Ok(())
}

#[test]
fn parts_together_are_the_whole(rt: HostRuntime) -> Result<(), Fail> {
    let kinds = [Fault::Both];
    let single = in_csv(&kinds, Some(1), false);
    check(&rt, single)?;
    let pairs = Sweep {
        choice: Choice::Pairs,
        ..single
    };
    check(&rt, pairs)
}

// Of the nine runs the second of four parts has those with places 2 and 3.
#[test]
fn a_part_has_its_runs_and_no_head(rt: HostRuntime) -> Result<(), Fail> {
    let kinds = [Fault::Both];
    let sweep = Sweep {
        part: Part {
            number: 2,
            count: 4,
        },
        ..in_csv(&kinds, Some(1), false)
    };
    let text = printed(&rt, TEXTS, sweep, 0)?;
    let mut lines = text.as_str().lines();
    assert!(rt; lines.next().unwrap_or("").starts_with("table_turn,1,both,"));
    assert!(rt; lines.next().unwrap_or("").starts_with("robot_turn,1,both,"));
    assert!(rt; lines.next().is_none());
    Ok(())
}
