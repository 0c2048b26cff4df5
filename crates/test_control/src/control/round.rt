//! What comes when in a round, what a wish is answered, and when a stalled run goes on.
use crate::control::sample::{NEW, STILL, STOP, WAITING, controlled, is_due, new_book};
use cell_types::{Cause, Entry, Machine};
use plate_book::Book;
use std::process::Abort;
use std::test::Fail;

// A book in which this machine is failed.
fn book_with_failed<R: AllocGlobal + Abort>(rt: &R, machine: Machine) -> Book {
    let mut book = new_book(rt);
    let declared = Entry::Declared {
        machine,
        cause: Cause::CommandFault,
    };
    assert!(rt; book.apply(declared).is_ok());
    book
}

#[test]
fn the_script_has_its_turn_after_the_machines(rt: HostRuntime) -> Result<(), Fail> {
    let lines = [
        "drive,1,1,\n",
        "operator,stop,press2,\n",
        STILL,
        "round,1,,\nok,,,\nok,,,\nok,,,\n",
    ];
    let book = book_with_failed(&rt, Machine::Press1);
    let script = "failed,press1,repair,press1\n";
    let left = controlled(&rt, book, script, NEW, &lines)?;
    let written = [
        "stay,,,\n",
        "lamp,feed,green,\n",
        "home,press1,,\n",
        "booked,4,,\n",
        "done,,,\n",
        STOP,
    ];
    is_due(&rt, &left, &written, &["cell gone\n"], 1)
}

#[test]
fn a_wish_is_answered_by_what_became_of_it(rt: HostRuntime) -> Result<(), Fail> {
    let lines = [
        "drive,1,1,\n",
        "operator,repair,press1,\noperator,clear,table,\noperator,brew,,\noperator,stop,press2,\n",
        STILL,
        "round,1,,\nok,,,\nok,,,\nfailed,,,\n",
    ];
    let book = book_with_failed(&rt, Machine::Press1);
    let left = controlled(&rt, book, "", NEW, &lines)?;
    let written = [
        "stay,,,\n",
        "lamp,feed,green,\n",
        "home,press1,,\nrefused,Failed,,\n",
        "refused,MachineHealthy,table,\n",
        "refused,Unreadable,,\n",
        "booked,3,,\n",
        "done,,,\n",
        STOP,
    ];
    let told = "line 4 of the cell can't be read: operator,brew,,\n";
    is_due(&rt, &left, &written, &[told], 1)
}

#[test]
fn a_stalled_run_goes_on_only_where_it_waits(rt: HostRuntime) -> Result<(), Fail> {
    let lines = ["drive,1,1,\n", STILL, "round,1,,\nok,,,\n"];
    let book = book_with_failed(&rt, Machine::Feed);
    let left = controlled(&rt, book, "", NEW, &lines)?;
    is_due(
        &rt,
        &left,
        &["stay,,,\n", STOP, "quit,,,\n"],
        &["stalled\n"],
        1,
    )?;
    let book = book_with_failed(&rt, Machine::Feed);
    let left = controlled(&rt, book, "", WAITING, &lines)?;
    let written = ["stay,,,\n", "done,,,\n", STOP];
    is_due(&rt, &left, &written, &["cell gone\n"], 1)
}
