//! Sweeps of pairs of faults.
use crate::sweep::sample::{in_csv, line_with, printed};
use cell_runs::run_texts;
use cell_sim::Fault;
use cell_sweep::{Choice, Form, Sweep};
use std::process::Abort;
use std::test::Fail;

const SETTINGS: &[u8] = b"plates = 1\n";

const KINDS: [Fault; 2] = [Fault::Slow(2), Fault::NoMotion];

// A sweep of the pairs of two kinds in the first motion of each axis.
fn in_pairs() -> Sweep<'static> {
    Sweep {
        choice: Choice::Pairs,
        ..in_csv(&KINDS, Some(1), false)
    }
}

#[test]
fn each_two_faults_in_different_motions_have_a_run(rt: HostRuntime) -> Result<(), Fail> {
    let text = printed(&rt, [SETTINGS, b""], in_pairs(), 0)?;
    let text = text.as_str();
    assert!(rt;
        text.starts_with("faults,end,admitted,forged,quarantined,delivered,time,waits_for\n")
    );
    // Nine axes give 36 pairs of motions, and each of these four pairs of kinds.
    assert!(rt; text.lines().count() == 1 + 36 * 4);
    let first = "\"feed_belt,1,slow,2;table_lift,1,slow,2\",finished,1,";
    assert!(rt;
        text.lines().nth(1).unwrap_or("").starts_with(first),
        "{text}"
    );
    let last = "\"press_two,1,no_motion,;deposit_belt,1,no_motion,\",";
    assert!(rt;
        text.lines().last().unwrap_or("").starts_with(last),
        "{text}"
    );
    Ok(())
}

// The second press isn't used for one plate, and the feed belt's first motion is slow.
#[test]
fn a_row_tells_of_the_run_with_both_faults(rt: HostRuntime) -> Result<(), Fail> {
    let text = printed(&rt, [SETTINGS, b""], in_pairs(), 0)?;
    let row = line_with(
        text.as_str(),
        "\"feed_belt,1,slow,2;table_lift,1,no_motion,\",",
    );
    let script = b"feed_belt,1,slow,2\ntable_lift,1,no_motion,\n";
    let mut output = Vec::new(rt.alloc());
    let answer = run_texts(&rt, SETTINGS, script, b"", false, false, &mut output);
    assert!(rt; answer == Ok(1) && output.starts_with(b"stalled\nadmitted 1\n"));
    assert!(rt; row.contains("\",stalled,1,0,0,0,"), "{row}");
    Ok(())
}

#[test]
fn a_table_of_pairs_has_shares(rt: HostRuntime) -> Result<(), Fail> {
    let kinds = [Fault::Slow(1)];
    let sweep = Sweep {
        kinds: &kinds,
        form: Form::Table,
        ..in_pairs()
    };
    let text = printed(&rt, [SETTINGS, b""], sweep, 0)?;
    let text = text.as_str();
    assert!(rt; line_with(text, "runs ") == "runs 36");
    assert!(rt; line_with(text, "finished 36") == "finished 36  100.0 %");
    assert!(rt; line_with(text, "stalled 0") == "stalled 0  0.0 %");
    let row = "finished           1       1            0          1";
    let row = line_with(text, row);
    assert!(rt;
        row.contains("  feed_belt,1,slow,1;table_lift,1,slow,1"),
        "{text}"
    );
    let head = line_with(text, "end ");
    assert!(rt; head.find("faults") == row.find("feed_belt"), "{text}");
    assert!(rt; head.find("waits for") == Some(110), "{text}");
    Ok(())
}
