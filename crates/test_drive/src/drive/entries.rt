//! Runs by entries.
use crate::drive::sample::{ENTRIES, OPENING, begins, driven, has_line, patient};
use cell_drive::DriveOptions;
use std::process::Abort;
use std::sync::Wait;
use std::test::Fail;
use test_samples::one_plate_text;

const ONE_PLATE: [&str; 3] = ["plates = 1\n", "", ""];

#[test]
fn each_line_gets_its_answer(rt: HostRuntime) -> Result<(), Fail> {
    let lines = b"lamp,feed,green,\nlamp,feed,green,\n\nbogus\nstop_asked,press1,,\na,b,c,d,e\n\
\"lamp\",deposit,green,\nlamp,deposit,green,123456789012345678901\nclaimed,press1,z3,\r\ndone,,,\nadmitted,1,,\nquit,,\
,";
    let written = driven(&rt, ONE_PLATE, ENTRIES, lines.as_slice(), 1);
    let answers = "ok,1,,\nrefused,LampAlready,feed,\nunreadable,,,\nunreadable,,,\nunreadable,,,\n\
unreadable,,,\nunreadable,,,\nok,2,,\n";
    let next =
        "reading,feed,,feed_in\nreading,table,low/belt,\nreading,robot,table1/in/in,\nreading,press1,middle,\n\
reading,press2,middle,\nreading,deposit,,\nround,2,,\nok,3,,\nend,quit,,\nadmitted 1\n";
    begins(&rt, &written, &[OPENING, answers, next])
}

#[test]
fn a_plate_is_carried_through_the_cell(rt: HostRuntime) -> Result<(), Fail> {
    let journal = one_plate_text(rt.alloc(), 2)?;
    let lines = patient(&rt, journal.as_slice())?;
    let driving = DriveOptions {
        journal: true,
        explain: true,
        ..ENTRIES
    };
    let written = driven(&rt, ONE_PLATE, driving, lines.as_slice(), 0);
    let text = written.output.as_slice();
    assert!(rt; has_line(text, "end,finished,,"));
    assert!(rt; has_line(text, "forged 1") && has_line(text, "delivered 1"));
    assert!(rt;
        has_line(text, "time plates delivered 1") && has_line(text, "time to_repair least -")
    );
    assert!(rt;
        has_line(text, "untrue 0") && has_line(text, "broken 0") && has_line(text, "refused 0")
    );
    assert!(rt; written.errors.as_slice() == journal.as_slice());
    Ok(())
}

#[test]
fn what_is_booked_too_early_is_untrue(rt: HostRuntime) -> Result<(), Fail> {
    let driving = DriveOptions {
        explain: true,
        ..ENTRIES
    };
    let lines =
        b"admitted,1,,\nlamp,feed,green,\nadmitted,1,,\nclaimed,table,z1,\nclaimed,table,z2,\nstarted,table_lift,\
            high,\narrived,table_lift,high,\nquit,,,\n";
    let written = driven(&rt, ONE_PLATE, driving, lines.as_slice(), 1);
    let text = written.output.as_slice();
    assert!(rt; has_line(text, "refused LampRed 1") && has_line(text, "untrue 2"));
    let told = "untrue in round 1: arrived,table_lift,high,: table_lift is at low\n\
untrue in round 1: admitted,1,,: feed_in is empty\n";
    assert!(rt; written.errors.as_slice() == told.as_bytes());
    Ok(())
}

#[test]
fn the_field_that_cannot_be_read_is_told(rt: HostRuntime) -> Result<(), Fail> {
    let told = |lines: &[u8], why: &str| -> bool {
        let driving = DriveOptions {
            explain: true,
            ..ENTRIES
        };
        let written = driven(&rt, ONE_PLATE, driving, lines, 1);
        has_line(written.output.as_slice(), "unreadable,,,")
            && has_line(written.errors.as_slice(), why)
    };
    assert!(rt;
        told(
            b"lamp,feed,green,\nclaimed,tabel,z1,\nhop,,,\n",
            "unreadable in round 1, line 2: field 2 has to be feed, table, robot, press1, press2 or deposit"
        )
    );
    assert!(rt;
        told(
            b"done,,,\nhop,,,\n",
            "unreadable in round 2, line 1: field 1 has to be lamp, admitted, claimed, yielded, started, arrived, \
conveyed, forged, gripped, dropped, delivered, declared, reinstated, done or quit"
        )
    );
    assert!(rt;
        told(
            b"stop_asked,feed,,\n",
            "unreadable in round 1, line 1: only the operator books such an entry"
        )
    );
    assert!(rt;
        told(
            b"admitted,1\n",
            "unreadable in round 1, line 1: a line has four fields of at most 20 bytes, and no quote"
        )
    );
    Ok(())
}

#[test]
fn the_operator_does_his_script(rt: HostRuntime) -> Result<(), Fail> {
    let operator = "always,,stop,press1\nfailed,press1,repair,press1\n";
    let lines = b"done,,,\ndeclared,press1,operator_stop,\ndone,,,\n";
    let written = driven(
        &rt,
        ["plates = 1\n", "", operator],
        ENTRIES,
        lines.as_slice(),
        1,
    );
    let text = written.output.as_slice();
    assert!(rt; has_line(text, "stop_asked,press1,,") && has_line(text, "repaired,press1,,"));
    Ok(())
}

#[test]
fn limits_end_a_run(rt: HostRuntime) -> Result<(), Fail> {
    let turns = ["plates = 1\nturns = 1\n", "", ""];
    let written = driven(&rt, turns, ENTRIES, b"done,,,\ndone,,,\n".as_slice(), 1);
    assert!(rt; has_line(written.output.as_slice(), "end,turn limit,,"));
    let full = ["plates = 1\njournal_limit = 1\n", "", ""];
    let lines = b"lamp,feed,green,\nlamp,feed,red,\ndone,,,\n".as_slice();
    let written = driven(&rt, full, ENTRIES, lines, 1);
    let text = written.output.as_slice();
    assert!(rt; has_line(text, "end,full,,") && has_line(text, "refused,JournalFull,,"));
    Ok(())
}

#[test]
fn a_planned_fault_is_told(rt: HostRuntime) -> Result<(), Fail> {
    let refuses = ["plates = 1\n", "table_lift,1,refuse_command,\n", ""];
    let lines = b"claimed,table,z1,\nclaimed,table,z2,\nstarted,table_lift,high,\n".as_slice();
    let written = driven(&rt, refuses, ENTRIES, lines, 1);
    assert!(rt; has_line(written.output.as_slice(), "failed,3,,"));
    let silent = ["plates = 1\n", "table_lift,1,silent,2\n", ""];
    let lines =
        b"claimed,table,z1,\nclaimed,table,z2,\nstarted,table_lift,high,\ndone,,,\n".as_slice();
    let written = driven(&rt, silent, ENTRIES, lines, 1);
    assert!(rt; has_line(written.output.as_slice(), "missing,table,,"));
    Ok(())
}

#[test]
fn a_text_that_is_refused_is_told(rt: HostRuntime) -> Result<(), Fail> {
    let written = driven(&rt, ["plates = 0\n", "", ""], ENTRIES, b"".as_slice(), 1);
    assert!(rt; written.output.as_slice() == b"settings OutOfRange plates\n".as_slice());
    let written = driven(
        &rt,
        ["plates = 1\n", "bogus\n", ""],
        ENTRIES,
        b"".as_slice(),
        1,
    );
    assert!(rt; written.output.as_slice() == b"faults unreadable 1\n".as_slice());
    Ok(())
}
