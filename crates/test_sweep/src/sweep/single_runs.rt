//! A sweep beside the single runs of which it tells.
use crate::sweep::sample::{field, in_csv, line_with, printed};
use cell_output::{WatchedWriter, WriteFault};
use cell_runs::run_texts;
use cell_sim::Fault;
use cell_sweep::{Form, Sweep, sweep_texts};
use std::process::Abort;
use std::sync::Wait;
use std::test::Fail;
use std::thread::Threads;
use test_samples::FailingWriter;

const SETTINGS: &[u8] = b"plates = 2\n";

const KINDS: [Fault; 2] = [Fault::NoMotion, Fault::Slow(2)];

// How many runs had each end.
#[derive(Clone, Copy, Debug, Default, PartialEq, Eq)]
struct Ends {
    finished: u32,
    stalled: u32,
}

// The script with the fault of a row.
fn script_of<R: AllocGlobal>(rt: &R, row: &str) -> Result<String, Fail> {
    let axis = field(row, 0);
    let motion = field(row, 1);
    match field(row, 2).split_once(':') {
        Some((kind, readings)) => {
            Ok(format!(in rt.alloc(); "{axis},{motion},{kind},{readings}\n")?)
        }
        None => {
            let kind = field(row, 2);
            Ok(format!(in rt.alloc(); "{axis},{motion},{kind},\n")?)
        }
    }
}

// What the run with the fault of a row prints.
fn run_alone<R: AllocGlobal + Abort + Threads + Wait + Sync>(
    rt: &R,
    row: &str,
) -> Result<String, Fail> {
    let script = script_of(rt, row)?;
    let script = script.as_str().as_bytes();
    let mut output = Vec::new(rt.alloc());
    let answer = run_texts(rt, SETTINGS, script, b"", false, false, &mut output);
    assert!(rt; answer.is_ok());
    Ok(String::from_utf8(output).ok().ok_or("no text")?)
}

// What a row says in the lines of a run.
fn lines_of<R: AllocGlobal>(rt: &R, row: &str) -> Result<String, Fail> {
    let end = field(row, 3);
    let admitted = field(row, 4);
    let forged = field(row, 5);
    let quarantined = field(row, 6);
    let delivered = field(row, 7);
    Ok(format!(in rt.alloc();
        "{end}\nadmitted {admitted}\nforged {forged}\nquarantined {quarantined}\ndelivered {delivered}\n"
    )?)
}

// Compares each row with the run of its fault alone, and gives how many runs had each end.
fn compare<R: AllocGlobal + Abort + Threads + Wait + Sync>(
    rt: &R,
    text: &str,
) -> Result<Ends, Fail> {
    let mut ends = Ends::default();
    for row in text.lines().skip(1) {
        let alone = run_alone(rt, row)?;
        assert!(rt; alone.as_str() == lines_of(rt, row)?.as_str(), "{row}");
        if field(row, 3) == "finished" {
            ends.finished = ends.finished.saturating_add(1);
        } else {
            ends.stalled = ends.stalled.saturating_add(1);
        }
    }
    Ok(ends)
}

#[test]
fn rows_are_those_of_single_runs(rt: HostRuntime) -> Result<(), Fail> {
    let sweep = in_csv(KINDS.as_slice(), Some(2), false);
    let text = printed(&rt, [SETTINGS, b""], sweep, 0)?;
    assert!(rt; text.as_str().lines().count() == 1 + 9 * 2 * 2);
    let ends = compare(&rt, text.as_str())?;
    assert!(rt;
        ends.finished.saturating_add(ends.stalled) == 36 && ends.finished > 0 && ends.stalled > 0
    );
    let table = printed(
        &rt,
        [SETTINGS, b""],
        Sweep {
            form: Form::Table,
            ..sweep
        },
        0,
    )?;
    let table = table.as_str();
    let Ends { finished, stalled } = ends;
    assert!(rt; line_with(table, "runs ") == "runs 36");
    assert!(rt;
        line_with(table, "finished ") == format!(in rt.alloc(); "finished {finished}")?.as_str()
    );
    assert!(rt;
        line_with(table, "stalled ") == format!(in rt.alloc(); "stalled {stalled}")?.as_str()
    );
    assert!(rt; line_with(table, "turn limit ") == "turn limit 0");
    Ok(())
}

#[test]
fn all_motions_of_the_run_without_faults_are_gone_through(rt: HostRuntime) -> Result<(), Fail> {
    let kinds = [Fault::NoMotion];
    let sweep = in_csv(kinds.as_slice(), None, false);
    let text = printed(&rt, [b"plates = 1\n", b""], sweep, 0)?;
    let text = text.as_str();
    // A plate takes two motions of the feed belt, and the table goes up and turns, and back.
    assert!(rt; field(line_with(text, "feed_belt,2,"), 3) == "stalled");
    assert!(rt; line_with(text, "feed_belt,3,").is_empty());
    assert!(rt;
        !line_with(text, "table_lift,2,").is_empty() && line_with(text, "table_lift,3,").is_empty()
    );
    // The second press isn't used.
    assert!(rt; line_with(text, "press_two,").is_empty());
    Ok(())
}

// A sweep of tens of millions of runs writes its first rows, which are those of a shorter one, before it makes others.
#[test]
fn a_long_sweep_begins_at_once(rt: HostRuntime) -> Result<(), Fail> {
    let shorter = in_csv(KINDS.as_slice(), Some(3), false);
    let due = printed(&rt, [SETTINGS, b""], shorter, 0)?;
    let longer = Sweep {
        motions: Some(1_000_000),
        ..shorter
    };
    let mut output = FailingWriter::new(Vec::new(rt.alloc()), 350);
    let mut errors = Vec::new(rt.alloc());
    let mut writer = WatchedWriter::new(&mut output);
    let answer = sweep_texts(&rt, SETTINGS, b"", longer, &mut writer, &mut errors);
    assert!(rt; answer == Err(WriteFault));
    let written = output.inner().as_slice();
    assert!(rt; written.len() == 350 && due.as_str().as_bytes().starts_with(written));
    Ok(())
}
