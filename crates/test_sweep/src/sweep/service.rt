//! Sweeps with an operator who serves.
use crate::sweep::sample::{field, in_csv, line_with, printed};
use cell_sim::Fault;
use std::process::Abort;
use std::test::Fail;
use std::thread::Threads;

const KINDS: [Fault; 2] = [Fault::NoMotion, Fault::LosePlate];

// The ends of the runs with a fault in the first motion of each axis all are this one.
fn all_end<R: AllocGlobal + Abort + Threads + Sync>(
    rt: &R,
    operator: &[u8],
    service: bool,
) -> Result<bool, Fail> {
    let sweep = in_csv(KINDS.as_slice(), Some(1), service);
    let text = printed(rt, [b"plates = 2\n", operator], sweep, 0)?;
    let mut rows = text.as_str().lines().skip(1);
    Ok(rows.all(|row| field(row, 3) == "finished"))
}

#[test]
fn who_serves_finishes_what_waits_else(rt: HostRuntime) -> Result<(), Fail> {
    assert!(rt; !all_end(&rt, b"", false)?);
    assert!(rt; all_end(&rt, b"", true)?);
    Ok(())
}

#[test]
fn a_plate_before_the_press_comes_back(rt: HostRuntime) -> Result<(), Fail> {
    let kinds = [Fault::NoMotion];
    let sweep = in_csv(kinds.as_slice(), Some(1), true);
    let text = printed(&rt, [b"plates = 2\n", b""], sweep, 0)?;
    let row = line_with(text.as_str(), "feed_belt,1,");
    assert!(rt;
        row.starts_with("feed_belt,1,no_motion,finished,2,2,1,2,")
            && row.ends_with(",\"1 plate was laid back\""),
        "{row}"
    );
    Ok(())
}

// A line that waits for ever holds up those behind it, but not the service.
#[test]
fn a_script_that_waits_holds_no_service_up(rt: HostRuntime) -> Result<(), Fail> {
    let waits = b"always,,stop,deposit\nfailed,deposit,clear,dep_end\n";
    assert!(rt; !all_end(&rt, waits, false)?);
    assert!(rt; all_end(&rt, waits, true)?);
    Ok(())
}

// With the lines of the service a script may be too long. That is told behind the rows of the runs before.
#[test]
fn a_script_that_grows_too_long_is_told(rt: HostRuntime) -> Result<(), Fail> {
    let kinds = [Fault::Slow(1), Fault::NoMotion];
    let sweep = in_csv(kinds.as_slice(), Some(1), true);
    let mut script = Vec::new(rt.alloc());
    for _line in 0..999 {
        script.extend_from_slice(b"delivered,9,stop,feed\n")?;
    }
    let text = printed(&rt, [b"plates = 2\n", script.as_slice()], sweep, 1)?;
    let mut lines = text.as_str().lines().skip(1);
    let row = lines.next().unwrap_or("");
    assert!(rt;
        row.starts_with("feed_belt,1,slow:1,finished,2,2,0,2,"),
        "{row}"
    );
    assert!(rt; lines.next() == Some("operator too long"));
    assert!(rt; lines.next().is_none());
    Ok(())
}
