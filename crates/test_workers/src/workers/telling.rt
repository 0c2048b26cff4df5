//! What a machine's port was asked in a whole run.
use crate::same::check_same;
use cell_types::{Command, Entry, Machine};
use std::process::Abort;
use test_ports::{TellingPort, was_sent};

/// Checks what a machine's port was asked in a whole run in which the machine's worker booked this list: the commands
/// of its entries in their order, and then to switch all off, but for those at which it failed. The port gave at least
/// one answer for each entry.
pub(crate) fn check_sent<P>(
    rt: &impl Abort,
    machine: Machine,
    list: &[Entry],
    port: &TellingPort<P>,
) {
    let last = Some(Command::AllOff(machine));
    check_same(rt, &machine, &was_sent(list, last, port), &Ok(()));
    let answers = port.answer_count().expect(rt, "the port had room for all");
    assert!(rt; list.len() <= answers);
}
