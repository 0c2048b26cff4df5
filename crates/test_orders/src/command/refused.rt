//! The words of the command line where any allocation may be refused (docs/HOSTILE.md). The tests take no memory but
//! the call's.
use cell_command::{Order, Paths, Running};
use clap::error::ErrorKind;
use std::process::Abort;

// Reads words, which has to give this order or clap's error of this kind, or clap's want of memory.
fn check(
    rt: &(impl AllocGlobal + Abort),
    words: &[&str],
    order: Option<Order<'_>>,
    kind: Option<ErrorKind>,
) {
    match cell_command::read_words(rt.alloc(), words) {
        Ok(read) => assert!(rt; Some(read) == order),
        Err(error) => {
            let told = error.kind();
            assert!(rt; Some(told) == kind || told == ErrorKind::OutOfMemory);
        }
    }
}

#[test]
fn read_words(rt: HostRuntime) {
    let paths = Paths {
        settings: "a",
        faults: "b",
        operator: "c",
    };
    let words = ["cellctl", "sim", "--journal", "a", "b", "c"];
    let running = Running {
        times: None,
        journal: true,
        explain: false,
        paths,
    };
    check(&rt, &words, Some(Order::Sim(running)), None);
}

#[test]
fn read_words_of_no_command(rt: HostRuntime) {
    let kind = Some(ErrorKind::InvalidSubcommand);
    check(&rt, &["cellctl", "brew"], None, kind);
}

#[test]
fn read_words_for_help(rt: HostRuntime) {
    check(
        &rt,
        &["cellctl", "--help"],
        None,
        Some(ErrorKind::DisplayHelp),
    );
}
