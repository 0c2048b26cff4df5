//! Cells at the other end of two pipes, as the lines that they write.
use crate::control::sample::{NEW, RESUMED, STILL, STOP, controlled, is_due, new_book};
use cell_types::{Belt, Colour, Entry};
use std::test::Fail;

#[test]
fn a_cell_that_is_none_is_only_stopped(rt: HostRuntime) -> Result<(), Fail> {
    let left = controlled(&rt, new_book(&rt), "", NEW, &["hello\n"])?;
    let told = "line 1 of the cell can't be read: hello\nno cell\nadmitted 0\n";
    is_due(&rt, &left, &[STOP], &[told], 1)?;
    let left = controlled(&rt, new_book(&rt), "", NEW, &["drive,2,1,\n"])?;
    is_due(&rt, &left, &[STOP], &["another version\n"], 1)?;
    let left = controlled(&rt, new_book(&rt), "", NEW, &[])?;
    is_due(&rt, &left, &[STOP], &["cell gone\n"], 1)
}

#[test]
fn a_cell_that_ends_gets_nothing_more(rt: HostRuntime) -> Result<(), Fail> {
    let lines = ["drive,1,1,\n", STILL, "end,quit,,\n"];
    let left = controlled(&rt, new_book(&rt), "", NEW, &lines)?;
    is_due(&rt, &left, &[], &["cell ended\n"], 1)
}

#[test]
fn a_round_is_opened_answered_and_closed(rt: HostRuntime) -> Result<(), Fail> {
    let first = [
        "drive,1,1,\n",
        STILL,
        "round,1,,\n",
        "ok,,,\nok,,,\n",
        STILL,
        "round,2,,\n",
    ];
    let left = controlled(&rt, new_book(&rt), "", NEW, &first)?;
    let written = [
        "stay,,,\n",
        "lamp,feed,green,\n",
        "done,,,\n",
        "done,,,\n",
        STOP,
    ];
    is_due(&rt, &left, &written, &["cell gone\nadmitted 0\n"], 1)
}

#[test]
fn another_number_of_plates_is_told(rt: HostRuntime) -> Result<(), Fail> {
    let left = controlled(&rt, new_book(&rt), "", NEW, &["drive,1,7,\n"])?;
    let told = "the cell plans 7 plates, and the settings 1\ncell gone\n";
    is_due(&rt, &left, &[STOP], &[told], 1)
}

#[test]
fn what_is_wanted_at_the_cell_is_answered(rt: HostRuntime) -> Result<(), Fail> {
    let lines = [
        "drive,1,1,\n",
        "operator,repair,table,\noperator,jump,table,\noperator,stop,press1,\n",
        STILL,
        "round,1,,\nok,,,\nok,,,\n",
        STILL,
    ];
    let left = controlled(&rt, new_book(&rt), "", NEW, &lines)?;
    let output = left.output.as_slice();
    assert!(rt; has_line(output, "refused,MachineHealthy,table,"));
    assert!(rt; has_line(output, "refused,Unreadable,,"));
    assert!(rt; has_line(output, "booked,1,,") || has_line(output, "booked,2,,"));
    Ok(())
}

#[test]
fn what_was_done_at_the_cell_is_booked_or_refused(rt: HostRuntime) -> Result<(), Fail> {
    let lines = [
        "drive,1,1,\n",
        "stop_asked,press1,,\nrepaired,robot,,\n",
        STILL,
        "round,1,,\nok,,,\nok,,,\n",
        STILL,
    ];
    let left = controlled(&rt, new_book(&rt), "", NEW, &lines)?;
    let told = left.errors.as_slice();
    let refused = "the cell did repair robot, which isn't allowed: MachineHealthy robot";
    assert!(rt; has_line(told, refused));
    assert!(rt;
        !has_line(
            told,
            "the cell did stop press1, which isn't allowed: MachineHealthy press1"
        )
    );
    Ok(())
}

#[test]
fn a_run_that_goes_on_is_found_again(rt: HostRuntime) -> Result<(), Fail> {
    let mut book = new_book(&rt);
    let green = Entry::Lamp {
        belt: Belt::Feed,
        colour: Colour::Green,
    };
    assert!(rt; book.apply(green).is_ok());
    let lines = [
        "old line\n",
        "synced,1,,\n",
        STILL,
        "round,9,,\n",
        "ok,,,\n",
        STILL,
    ];
    let left = controlled(&rt, book, "", RESUMED, &lines)?;
    assert!(rt;
        left.output
            .as_slice()
            .starts_with(b"\nsync,1,,\nlamp,feed,green,\n")
    );
    Ok(())
}

// Whether a text has a line.
fn has_line(text: &[u8], line: &str) -> bool {
    for found in text.split(|byte| *byte == b'\n') {
        if found == line.as_bytes() {
            return true;
        }
    }
    false
}
