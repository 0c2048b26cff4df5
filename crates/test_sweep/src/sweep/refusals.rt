//! Texts that are refused.
use crate::sweep::sample::{in_csv, printed};
use cell_runs::run_texts;
use cell_sim::Fault;
use std::process::Abort;
use std::sync::Wait;
use std::test::Fail;
use std::thread::Threads;

// Two texts of which one is refused are told as a run by them tells it.
fn check<R: AllocGlobal + Abort + Threads + Wait + Sync>(
    rt: &R,
    settings: &[u8],
    operator: &[u8],
    due: &str,
) -> Result<(), Fail> {
    let mut run = Vec::new(rt.alloc());
    let answer = run_texts(rt, settings, b"", operator, false, false, &mut run);
    assert!(rt; answer == Ok(1) && run.as_slice() == due.as_bytes());
    let kinds = [Fault::Both];
    let told = printed(
        rt,
        [settings, operator],
        in_csv(kinds.as_slice(), None, true),
        1,
    )?;
    assert!(rt; told.as_str() == due, "{told}");
    Ok(())
}

#[test]
fn refused_texts_are_told_as_a_run_tells_them(rt: HostRuntime) -> Result<(), Fail> {
    check(&rt, b"plates = 0\n", b"", "settings OutOfRange plates\n")?;
    check(&rt, b"plates = ", b"", "settings NotToml\n")?;
    check(
        &rt,
        b"plates = 1\n",
        b"always,,stop,press1\nalways,,go,press1\n",
        "operator unreadable 2\n",
    )
}

#[test]
fn a_sweep_without_kinds_runs_nothing(rt: HostRuntime) -> Result<(), Fail> {
    let told = printed(&rt, [b"plates = 1\n", b""], in_csv(&[], None, false), 0)?;
    let head = "axis,motion,kind,end,admitted,forged,quarantined,delivered,time,waits_for\n";
    assert!(rt; told.as_str() == head);
    Ok(())
}
