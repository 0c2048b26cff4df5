//! Runs by commands.
use crate::drive::sample::{COMMANDS, OPENING, begins, driven, has_line, joined};
use cell_drive::DriveOptions;
use std::process::Abort;
use std::sync::Wait;
use std::test::Fail;

const ONE_PLATE: [&str; 3] = ["plates = 1\n", "", ""];

// What the machines show at the opening, in an open round: all of it, and what stands before and after the table's
// switches.
const STILL: &str = "\
reading,feed,,
reading,table,low/belt,
reading,robot,table1/in/in,
reading,press1,middle,
reading,press2,middle,
reading,deposit,,
round,1,,
";

const BEFORE_TABLE: &str = "reading,feed,,\nreading,table,";

const AFTER_TABLE: &str = "\
,
reading,robot,table1/in/in,
reading,press1,middle,
reading,press2,middle,
reading,deposit,,
round,1,,
";

#[test]
fn each_command_gets_its_answer(rt: HostRuntime) -> Result<(), Fail> {
    let faults = ["plates = 1\n", "table_turn,1,refuse_command,\n", ""];
    let lines =
        b"lamp,feed,green,\non,table_lift,high,\non,table_turn,robot,\noff,table_lift,,\nmagnet_on,arm1,,\n\
all_off,table,,\non,table_lift,nowhere,\nadmitted,1,,\nmagnet_on,arm3,,\nquit,,,\n";
    let written = driven(&rt, faults, COMMANDS, lines.as_slice(), 1);
    let answers =
        "ok,,,\nok,,,\nfailed,,,\nok,,,\nok,,,\nok,,,\nunreadable,,,\nunreadable,,,\nunreadable,,,\nend,quit,,\n";
    begins(&rt, &written, &[OPENING, answers])?;
    assert!(rt; has_line(written.output.as_slice(), "commands 6"));
    Ok(())
}

#[test]
fn a_rule_that_is_broken_is_told(rt: HostRuntime) -> Result<(), Fail> {
    let driving = DriveOptions {
        explain: true,
        ..COMMANDS
    };
    let lines = b"magnet_off,arm2,,\non,arm_one,nowhere,\non,arm_one,top,\nquit,,,\n";
    let written = driven(&rt, ONE_PLATE, driving, lines.as_slice(), 1);
    let text = written.output.as_slice();
    assert!(rt; has_line(text, "broken NoSuchPose 1"));
    let errors = written.errors.as_slice();
    assert!(rt;
        has_line(
            errors,
            "unreadable in round 1, line 2: field 3 has to be rest, to_end, to_table, low, high, \
belt, robot, table1, p1_load, p1_unload, p2_load, p2_unload, deposit2, in, out, middle, top or bottom"
        )
    );
    assert!(rt; has_line(errors, "NoSuchPose in round 1: on,arm_one,top,"));
    Ok(())
}

#[test]
fn the_operator_acts_in_the_world(rt: HostRuntime) -> Result<(), Fail> {
    let operator = "always,,stop,press1\nadmitted,1,clear,feed_in\nquarantined,1,repair,feed\n";
    let lines = b"lamp,feed,green,\ndone,,,\nlamp,feed,red,\ndone,,,\ndone,,,\nquit,,,\n";
    let written = driven(
        &rt,
        ["plates = 1\n", "", operator],
        COMMANDS,
        lines.as_slice(),
        1,
    );
    let text = written.output.as_slice();
    assert!(rt; has_line(text, "stop_asked,press1,,") && has_line(text, "quarantined,1,feed_in,"));
    assert!(rt; has_line(text, "repaired,feed,,") && has_line(text, "quarantined 1"));
    let expects = ["plates = 1\n", "", "always,,stop,feed\nalways,,expect,1\n"];
    let written = driven(&rt, expects, COMMANDS, b"".as_slice(), 1);
    assert!(rt; written.output.as_slice() == b"operator unreadable 2\n".as_slice());
    Ok(())
}

#[test]
fn a_controller_has_lines_of_its_own(rt: HostRuntime) -> Result<(), Fail> {
    let lines =
        b"remove,feed_in,,\nhome,table,,\nstay,,,\nbooked,3,,\nrefused,LampRed,feed,\nsync,7,,\nsync,0,,\n\
sync,1000006,,\nquit,,,\n";
    let written = driven(&rt, ONE_PLATE, COMMANDS, lines.as_slice(), 1);
    begins(
        &rt,
        &written,
        &[
            OPENING,
            "ok,,,\nok,,,\nok,,,\nsynced,7,,\n",
            STILL,
            "synced,0,,\n",
            STILL,
            "synced,1000006,,\n",
            STILL,
            "end,quit,,\n",
        ],
    )?;
    let text = written.output.as_slice();
    assert!(rt; has_line(text, "rounds 1") && has_line(text, "commands 0"));
    // Nobody takes a plate out of a station that has none.
    assert!(rt; has_line(text, "quarantined 0"));
    Ok(())
}

#[test]
fn a_line_of_a_controller_has_no_more_than_it_says(rt: HostRuntime) -> Result<(), Fail> {
    let lines =
        b"remove,nowhere,,\nremove,table,table,\nremove,table,,x\nremove,table,,,\nhome,,,\nhome,table,table,\n\
home,feed_in,,\nstay,1,,\nstay,,,1\nsync,,,\nsync,07,,\nsync,-1,,\nsync,1000007,,\nsync,1,1,\nsync,1,,1\n\
quit,,,1\nbooked,1,,,\nquit,,,\n";
    let written = driven(&rt, ONE_PLATE, COMMANDS, lines.as_slice(), 1);
    let six =
        "unreadable,,,\nunreadable,,,\nunreadable,,,\nunreadable,,,\nunreadable,,,\nunreadable,,,\n";
    let five = "unreadable,,,\nunreadable,,,\nunreadable,,,\nunreadable,,,\nunreadable,,,\n";
    begins(&rt, &written, &[OPENING, six, six, five, "end,quit,,\n"])
}

// Why one line can't be read.
fn explained<R: AllocGlobal + Abort + Wait>(rt: &R, line: &[u8]) -> Vec<u8> {
    let driving = DriveOptions {
        explain: true,
        ..COMMANDS
    };
    driven(rt, ONE_PLATE, driving, line, 1).errors
}

#[test]
fn it_is_told_what_a_line_of_a_controller_lacks(rt: HostRuntime) {
    let errors = explained(&rt, b"sync,1000007,,\n".as_slice());
    let length =
        "unreadable in round 1, line 1: field 2 has to be a number from 0 to 1000006 with no 0 in front";
    assert!(rt; has_line(errors.as_slice(), length));
    let errors = explained(&rt, b"remove,nowhere,,\n".as_slice());
    let station =
        "unreadable in round 1, line 1: field 2 has to be feed_in, feed_end, table, arm1, arm2, press1, press2, \
dep_in or dep_end";
    assert!(rt; has_line(errors.as_slice(), station));
    let errors = explained(&rt, b"stay,,,1\n".as_slice());
    assert!(rt;
        has_line(
            errors.as_slice(),
            "unreadable in round 1, line 1: field 4 has to be blank"
        )
    );
}

#[test]
fn a_motion_goes_on_by_each_reading_until_home(rt: HostRuntime) -> Result<(), Fail> {
    let lines =
        b"on,table_lift,high,\nsync,1,,\nsync,2,,\nsync,3,,\nhome,table,,\nsync,4,,\nquit,,,\n";
    let written = driven(&rt, ONE_PLATE, COMMANDS, lines.as_slice(), 1);
    begins(
        &rt,
        &written,
        &[
            OPENING,
            "ok,,,\nsynced,1,,\n",
            STILL,
            "synced,2,,\n",
            BEFORE_TABLE,
            "/belt",
            AFTER_TABLE,
            "synced,3,,\n",
            BEFORE_TABLE,
            "high/belt",
            AFTER_TABLE,
            "ok,,,\nsynced,4,,\n",
            STILL,
            "end,quit,,\n",
        ],
    )
}

// A plate that the feed belt loses: once the belt has arrived, in round 5, the cell is empty.
const PLATE_LOST: [&str; 3] = ["plates = 1\n", "feed_belt,1,lose_plate,\n", ""];

const SIX_ROUNDS: &str = "\
lamp,feed,green,
done,,,
lamp,feed,red,
on,feed_belt,to_end,
done,,,
done,,,
done,,,
done,,,
done,,,
";

#[test]
fn a_run_ends_with_its_last_plate(rt: HostRuntime) {
    let lines = SIX_ROUNDS.as_bytes();
    let written = driven(&rt, PLATE_LOST, COMMANDS, lines, 0);
    let text = written.output.as_slice();
    assert!(rt; has_line(text, "end,finished,,") && has_line(text, "rounds 5"));
}

#[test]
fn a_run_that_stays_ends_when_the_method_quits(rt: HostRuntime) -> Result<(), Fail> {
    for first in ["stay,,,\n", "sync,0,,\n"] {
        // At `quit`, and where the method writes no more.
        for last in ["quit,,,\n", ""] {
            let lines = joined(&rt, &[first, SIX_ROUNDS, last])?;
            let written = driven(&rt, PLATE_LOST, COMMANDS, lines.as_slice(), 0);
            let text = written.output.as_slice();
            assert!(rt; has_line(text, "end,finished,,") && has_line(text, "rounds 7"));
        }
    }
    Ok(())
}

#[test]
fn a_run_that_stays_and_has_a_plate_is_quit(rt: HostRuntime) {
    let lines = b"stay,,,\nlamp,feed,green,\ndone,,,\nquit,,,\n";
    let written = driven(&rt, ONE_PLATE, COMMANDS, lines.as_slice(), 1);
    let text = written.output.as_slice();
    assert!(rt; has_line(text, "end,quit,,") && has_line(text, "admitted 1"));
}
