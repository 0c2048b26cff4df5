//! Sweeps whose runs several threads make.
use crate::sweep::sample::{in_csv, printed};
use cell_sim::Fault;
use cell_sweep::{Form, Sweep};
use std::process::Abort;
use std::test::Fail;
use std::thread::Threads;

const TEXTS: [&[u8]; 2] = [b"plates = 1\n", b""];

// Three threads write what one does.
fn check<R: AllocGlobal + Abort + Threads + Sync>(rt: &R, sweep: Sweep<'_>) -> Result<(), Fail> {
    let one = printed(rt, TEXTS, sweep, 0)?;
    let three = printed(
        rt,
        TEXTS,
        Sweep {
            threads: 3,
            ..sweep
        },
        0,
    )?;
    assert!(rt; one.as_str() == three.as_str());
    Ok(())
}

// The 18 runs are two stretches, of 16 runs and of 2.
#[test]
fn three_threads_write_the_same(rt: HostRuntime) -> Result<(), Fail> {
    let kinds = [Fault::Both, Fault::KeepsOld];
    let sweep = in_csv(&kinds, Some(1), false);
    check(&rt, sweep)?;
    check(
        &rt,
        Sweep {
            form: Form::Table,
            ..sweep
        },
    )
}
