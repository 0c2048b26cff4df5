//! The journals that are told.
use cell_explore::breadth::{NoProgress, Progress};
use cell_explore::{Asked, ProgressLine, Question, explore_lines, journal_to, nearest_end, search};
use cell_output::WatchedWriter;
use std::alloc::Global;
use std::process::Abort;
use std::thread::Threads;

const ONE_PLATE: Question = Question {
    plan: 1,
    may_fail: [false; 6],
    repairs: false,
};

const ROBOT_FAILS: Question = Question {
    plan: 1,
    may_fail: [false, false, true, false, false, false],
    repairs: false,
};

#[test]
fn tells_a_journal_to_the_end(rt: HostRuntime) {
    let Ok(found) = search(&rt, &ONE_PLATE, 10_000, 1, &mut NoProgress) else {
        panic!(rt; "there is memory");
    };
    let Ok(Some(last)) = nearest_end(rt.alloc(), &ONE_PLATE, &found) else {
        panic!(rt; "there is an end");
    };
    let Ok(book) = journal_to(rt.alloc(), &ONE_PLATE, &found, last) else {
        panic!(rt; "each entry on the way is allowed");
    };
    let totals = book.totals();
    assert!(rt;
        totals.entries == 72 && totals.forged == 1 && totals.delivered == 1,
        "{totals:?}"
    );
}

#[test]
fn tells_a_journal_to_a_stuck_state(rt: HostRuntime) {
    let Ok(found) = search(&rt, &ROBOT_FAILS, 10_000, 1, &mut NoProgress) else {
        panic!(rt; "there is memory");
    };
    let Ok(Some(stuck)) = nearest_end(rt.alloc(), &ROBOT_FAILS, &found) else {
        panic!(rt; "a state is stuck");
    };
    let Ok(book) = journal_to(rt.alloc(), &ROBOT_FAILS, &found, stuck) else {
        panic!(rt; "each entry on the way is allowed");
    };
    let totals = book.totals();
    assert!(rt; totals.delivered == 0, "the plate is left: {totals:?}");
}

#[test]
fn prints_the_counts(rt: HostRuntime) {
    let mut text = Vec::new(rt.alloc());
    let mut errors = Vec::new(rt.alloc());
    let mut progress = ProgressLine::new(&mut errors, true);
    let asked = Asked {
        question: ONE_PLATE,
        limit: 10_000,
        journal: false,
        threads: 4,
    };
    let Ok(status) = explore_lines(
        &rt,
        &asked,
        &mut WatchedWriter::new(&mut text),
        &mut progress,
    ) else {
        panic!(rt; "a list takes all");
    };
    let wanted = b"states 1631\nsteps 4544\ndeepest 72\nfinished 1\nstuck 0\n".as_slice();
    assert!(rt; status == 0 && text.as_slice() == wanted, "{status}");
}

// With a limit that is too low it's told that there are more states, with status 1.
fn check_more<R: AllocGlobal + Abort + Threads + Sync>(rt: &R, limit: u32, wanted: &[u8]) {
    let mut text = Vec::new(rt.alloc());
    let mut errors = Vec::new(rt.alloc());
    let asked = Asked {
        question: ONE_PLATE,
        limit,
        journal: true,
        threads: 1,
    };
    let mut progress = ProgressLine::new(&mut errors, false);
    let mut writer = WatchedWriter::new(&mut text);
    let Ok(status) = explore_lines(rt, &asked, &mut writer, &mut progress) else {
        panic!(rt; "a list takes all");
    };
    assert!(rt; status == 1 && text.as_slice() == wanted, "{status}");
}

#[test]
fn prints_that_there_are_more(rt: HostRuntime) {
    check_more(&rt, 100, b"more than 100 states\n".as_slice());
    check_more(&rt, 1, b"more than 1 state\n".as_slice());
    check_more(&rt, 0, b"more than 0 states\n".as_slice());
}

// What is on the errors after 20,000 of 30,000 states, and then after the line was taken away.
fn check_line(rt: &impl Abort, alloc: Global, is_wanted: bool, shown: &[u8], cleared: &[u8]) {
    let mut errors = Vec::new(alloc);
    let mut progress = ProgressLine::new(&mut errors, is_wanted);
    progress.note(20_000, 30_000);
    assert!(rt; errors.as_slice() == shown, "the line is shown");
    let mut progress = ProgressLine::new(&mut errors, is_wanted);
    progress.note(20_000, 30_000);
    progress.clear();
    progress.clear();
    assert!(rt;
        errors.as_slice() == cleared,
        "the line is taken away, once"
    );
}

#[test]
fn tells_how_far_it_is(rt: HostRuntime) {
    let line = b"looked at 20000 of 30000 states seen so far\r".as_slice();
    let twice =
        b"looked at 20000 of 30000 states seen so far\rlooked at 20000 of 30000 states seen so \
            far\r                                                            \r"
            .as_slice();
    check_line(&rt, rt.alloc(), true, line, twice);
}

#[test]
fn tells_nothing_where_that_is_not_wanted(rt: HostRuntime) {
    check_line(&rt, rt.alloc(), false, b"", b"");
}
