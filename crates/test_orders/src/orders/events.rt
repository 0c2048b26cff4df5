//! The command that tells a journal's entries with times, of files that each test writes where it runs.
use cell_command::Listing;
use cell_orders::{CommandError, events_words};
use cell_output::{WatchedWriter, WriteFault};
use std::fs;
use std::process::Abort;
use std::rt::Files;
use std::test::Fail;
use test_samples::FailingWriter;

const JOURNAL: &str = "\
profile,1,,
lamp,feed,green,
admitted,1,,
started,feed_belt,to_end,
conveyed,feed_belt,1,feed_end
claimed,feed,z1,
started,feed_belt,to_table,
conveyed,feed_belt,1,table
yielded,feed,z1,
";

const TIMES: &str = "[time]\nfeed_belt.to_end = 3\nfeed_belt.to_table = 2\n";

// The journal's rows, where each motion takes 1.
const ROWS: &str = "\
entry,begin,end,actor,kind,axis,pose,zone,plate,station,cause
1,0,0,feed,lamp,feed_belt,green,,,,
2,0,0,feed,admitted,,,,1,feed_in,
3,0,0,feed,started,feed_belt,to_end,,1,feed_in,
4,0,1,feed,conveyed,feed_belt,to_end,,1,feed_end,
5,1,1,feed,claimed,,,z1,1,feed_end,
6,1,1,feed,started,feed_belt,to_table,,1,feed_end,
7,1,2,feed,conveyed,feed_belt,to_table,,1,table,
8,2,2,feed,yielded,,,z1,,,
";

// The same by the times above.
const TIMED: &str = "\
entry,begin,end,actor,kind,axis,pose,zone,plate,station,cause
1,0,0,feed,lamp,feed_belt,green,,,,
2,0,0,feed,admitted,,,,1,feed_in,
3,0,0,feed,started,feed_belt,to_end,,1,feed_in,
4,0,3,feed,conveyed,feed_belt,to_end,,1,feed_end,
5,3,3,feed,claimed,,,z1,1,feed_end,
6,3,3,feed,started,feed_belt,to_table,,1,feed_end,
7,3,5,feed,conveyed,feed_belt,to_table,,1,table,
8,5,5,feed,yielded,,,z1,,,
";

// The words that name a journal alone.
fn of_journal(journal: &str) -> Listing<'_> {
    Listing {
        times: None,
        csv: false,
        trace: false,
        vcd: false,
        journal,
    }
}

// What a call writes to the output and to the errors, and its status, which it has to give.
fn told<R: AllocGlobal + Files + Abort>(rt: &R, listing: Listing<'_>) -> (Vec<u8>, Vec<u8>, u8) {
    let mut output = Vec::new(rt.alloc());
    let mut errors = Vec::new(rt.alloc());
    let answer = events_words(
        rt,
        &mut WatchedWriter::new(&mut output),
        &mut errors,
        listing,
    );
    let Ok(status) = answer else {
        panic!(rt; "no status: {listing:?}");
    };
    (output, errors, status)
}

// A call writes this to the output and nothing to the errors, and gives this status.
fn check<R: AllocGlobal + Files + Abort>(rt: &R, listing: Listing<'_>, due: &str, wanted: u8) {
    let (output, errors, status) = told(rt, listing);
    assert!(rt; output.as_slice() == due.as_bytes(), "{listing:?}");
    assert!(rt; errors.is_empty() && status == wanted, "{listing:?}");
}

#[test]
fn entries_are_told_in_csv(rt: HostRuntime) -> Result<(), Fail> {
    fs::write(&rt, "whole.journal", JOURNAL)?;
    fs::write(&rt, "whole.times", TIMES)?;
    let plain = of_journal("whole.journal");
    let timed = Listing {
        csv: true,
        times: Some("whole.times"),
        ..plain
    };
    check(&rt, plain, ROWS, 0);
    check(&rt, timed, TIMED, 0);
    Ok(())
}

#[test]
fn entries_are_told_in_other_forms(rt: HostRuntime) -> Result<(), Fail> {
    fs::write(&rt, "formed.journal", JOURNAL)?;
    let plain = of_journal("formed.journal");
    let trace = Listing {
        trace: true,
        ..plain
    };
    let vcd = Listing { vcd: true, ..plain };
    let (output, errors, status) = told(&rt, trace);
    assert!(rt;
        output.as_slice().starts_with(b"{\"traceEvents\":[\n{") && errors.is_empty() && status == 0
    );
    let (output, errors, status) = told(&rt, vcd);
    assert!(rt; output.as_slice().starts_with(b"$timescale ") && errors.is_empty() && status == 0);
    Ok(())
}

// Texts that are no legal journal's, and what is told of each.
const REFUSED: [(&str, &str); 3] = [
    (
        "profile,1,,\nlamp,feed,green,\nadmitted,1,,\nadmitted,2,,\n",
        "refused 3 LampRed feed\n",
    ),
    ("profile,2,,\nadmited,1,,\n", "unreadable 1\n"),
    ("", "unreadable 0\n"),
];

#[test]
fn a_refused_journal_is_told_as_by_an_audit(rt: HostRuntime) -> Result<(), Fail> {
    for &(text, due) in &REFUSED {
        fs::write(&rt, "refused.journal", text)?;
        let plain = of_journal("refused.journal");
        check(&rt, plain, due, 1);
        check(&rt, Listing { vcd: true, ..plain }, due, 1);
    }
    Ok(())
}

#[test]
fn unusable_times_are_told(rt: HostRuntime) -> Result<(), Fail> {
    fs::write(&rt, "timed.journal", JOURNAL)?;
    fs::write(&rt, "wrong.times", "[time]\npress_three = 1\n")?;
    let listing = Listing {
        times: Some("wrong.times"),
        ..of_journal("timed.journal")
    };
    check(&rt, listing, "times UnknownKey time.press_three\n", 1);
    Ok(())
}

// The flags of two forms and of three.
const SEVERAL: [(bool, bool, bool); 4] = [
    (true, true, false),
    (true, false, true),
    (false, true, true),
    (true, true, true),
];

// No file is looked for.
#[test]
fn one_form_alone_can_be_asked_for(rt: HostRuntime) {
    let due = "error: of --csv, --trace and --vcd one alone can be given\n";
    for &(csv, trace, vcd) in &SEVERAL {
        let listing = Listing {
            csv,
            trace,
            vcd,
            ..of_journal("nowhere.journal")
        };
        let (output, errors, status) = told(&rt, listing);
        assert!(rt; output.is_empty() && errors.as_slice() == due.as_bytes());
        assert!(rt; status == 2);
    }
}

#[test]
fn a_journal_that_is_nowhere_is_named(rt: HostRuntime) {
    let mut output = Vec::new(rt.alloc());
    let mut errors = Vec::new(rt.alloc());
    let mut writer = WatchedWriter::new(&mut output);
    let answer = events_words(&rt, &mut writer, &mut errors, of_journal("missing.journal"));
    let named = match answer {
        Err(CommandError::System(failure)) => failure.file,
        _ => None,
    };
    assert!(rt; named == Some("missing.journal") && output.is_empty() && errors.is_empty());
}

#[test]
fn a_writer_that_fails_is_told(rt: HostRuntime) -> Result<(), Fail> {
    fs::write(&rt, "unwritten.journal", JOURNAL)?;
    let mut errors = Vec::new(rt.alloc());
    for left in 0..ROWS.len() {
        let mut failing = FailingWriter::new(Vec::new(rt.alloc()), left);
        let mut writer = WatchedWriter::new(&mut failing);
        let answer = events_words(
            &rt,
            &mut writer,
            &mut errors,
            of_journal("unwritten.journal"),
        );
        assert!(rt;
            matches!(answer, Err(CommandError::Write(WriteFault))),
            "after {left} bytes"
        );
        let written = failing.inner().as_slice();
        assert!(rt; ROWS.as_bytes().starts_with(written), "after {left} bytes");
    }
    Ok(())
}
