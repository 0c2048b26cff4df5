//! What is said of a run's end.
use crate::explain::said::check_said;
use cell_explain::endings::{EndedRun, write_ending};
use cell_output::WatchedWriter;
use cell_runs::{Left, Mode, Texts, run_kept};
use std::alloc::Global;
use std::process::Abort;
use std::sync::Wait;
use std::thread::Threads;

const SIX: &str = "plates = 6";

// The second press fails in its first motion. The first press sets out 15 times, so its fault is never reached.
const FAULTS: &str = "press_two,1,no_motion,\npress_one,99,no_motion,\n";

// Nothing clears the second press. The operator waits for more plates than are delivered.
const WAITING: &str = "\
press 2 is failed since entry 132: an axis is still where it started
plate 2 is at press 2; next is \"press 2: forges plate 2\", but press 2 is booked failed
line 1, record 1 of the operator's script isn't done: it waits for 6 plates to be delivered, and 5 are
the fault in motion 99 of press 1 was never reached: it set out 15 times
";

// The operator's repair is refused, since the plate isn't cleared.
const REFUSED: &str = "\
press 2 is failed since entry 132: an axis is still where it started
plate 2 is at press 2; next is \"press 2: forges plate 2\", but press 2 is booked failed
line 1, record 1 of the operator's script isn't done: a plate is still at press 2
the fault in motion 99 of press 1 was never reached: it set out 15 times
";

// A run by the texts of its settings and scripts, its status and lines, and what is said of its end: nothing, where a
// text is refused and no journal is kept.
#[derive(Clone, Copy)]
struct Case {
    settings: &'static str,
    faults: &'static str,
    operator: &'static str,
    status: u8,
    lines: &'static str,
    wanted: &'static str,
}

const RUNS: [Case; 3] = [
    Case {
        settings: SIX,
        faults: FAULTS,
        operator: "delivered,6,stop,press1\n",
        status: 1,
        lines: "stalled\n…",
        wanted: WAITING,
    },
    Case {
        settings: SIX,
        faults: FAULTS,
        operator: "failed,press2,repair,press2\n",
        status: 1,
        lines: "stalled\n…",
        wanted: REFUSED,
    },
    Case {
        settings: SIX,
        faults: "x",
        operator: "",
        status: 1,
        lines: "faults unreadable 1\n",
        wanted: "",
    },
];

// What is said of the run that is left, if one is, whose journal had so many entries before.
fn said_of(
    rt: &impl Abort,
    alloc: Global,
    left: &Left,
    before: u32,
    faults: &[u8],
    script: &[u8],
) -> Vec<u8> {
    let mut said = Vec::new(alloc);
    if let Left::Run(run) = left {
        let run = EndedRun {
            journal: &run.journal,
            before,
            end: run.end,
            plan: &run.plan,
            faults,
            operator: script,
        };
        let answer = write_ending(alloc, &run, &mut said);
        assert!(rt; answer.is_ok(), "what is said");
    }
    said
}

// What is written and said of a run in rounds, and its status.
fn check_run<R: AllocGlobal + Abort + Threads + Wait + Sync>(rt: &R, case: &Case) {
    let alloc = rt.alloc();
    let operator = case.operator;
    let (faults, script) = (case.faults.as_bytes(), operator.as_bytes());
    let mut written = Vec::new(alloc);
    let texts = Texts::new(case.settings.as_bytes(), faults, script);
    let mut writer = WatchedWriter::new(&mut written);
    let ran = run_kept(rt, texts, Mode::Rounds, false, &mut writer);
    let Ok((ended, left)) = ran else {
        panic!(rt; "no writer failed at {operator}");
    };
    assert!(rt; ended == case.status, "the status of {operator}");
    check_said(rt, operator, written.as_slice(), case.lines);
    assert!(rt;
        matches!(&left, Left::Run(_)) != case.wanted.is_empty(),
        "what is left of {operator}"
    );
    let said = said_of(rt, alloc, &left, 0, faults, script);
    check_said(rt, operator, said.as_slice(), case.wanted);
}

#[test]
fn a_run_that_stalled_is_told_by_what_it_waits_for(rt: HostRuntime) {
    for case in &RUNS {
        check_run(&rt, case);
    }
}

// Runs of six plates that end by a limit of their settings: the first of their lines, and what is said first of the
// end.
const LIMITED: [Case; 2] = [
    Case {
        settings: "plates = 6\njournal_limit = 1",
        faults: "",
        operator: "",
        status: 1,
        lines: "full\n…",
        wanted: "the journal is full (journal_limit = 1)\n6 plates weren't admitted\n…",
    },
    Case {
        settings: "plates = 6\nturns = 1",
        faults: "",
        operator: "",
        status: 1,
        lines: "turn limit\n…",
        wanted: "the turns are used up (turns = 1)\n6 plates weren't admitted\n…",
    },
];

#[test]
fn the_limit_that_ended_a_run_is_told_first(rt: HostRuntime) {
    for case in &LIMITED {
        check_run(&rt, case);
    }
}

// Four plates, of which one is cleared from the feed belt's end and laid back.
const LAID_BACK: &str = "\
failed,feed,clear,feed_end
failed,feed,repair,feed
always,,expect,1
";

// The table is stopped before a plate is on it, and then none comes.
const WAITS: &str = "\
admitted,1,stop,table
failed,table,clear,table
failed,table,repair,table
";

const TABLE_WAITS: &str = "\
3 plates weren't admitted
the table is failed since entry 5: the operator asked for the stop
plate 1 is at the feed belt's end; next is \"feed belt: starts to go to the table\", but the table, the owner, is \
booked failed
line 2, record 2 of the operator's script isn't done: it waits for a plate at the table, and none is there
";

const FOUR: &str = "plates = 4";

const COUNTED: [Case; 3] = [
    Case {
        settings: FOUR,
        faults: "feed_belt,2,no_motion,",
        operator: LAID_BACK,
        status: 0,
        lines: "finished\n…",
        wanted: "1 plate was laid back\n",
    },
    Case {
        settings: FOUR,
        faults: "",
        operator: WAITS,
        status: 1,
        lines: "stalled\n…",
        wanted: TABLE_WAITS,
    },
    Case {
        settings: FOUR,
        faults: "",
        operator: "\n\r\n\"quarantined\",1,stop,press1\n",
        status: 0,
        lines: "finished\n…",
        wanted: "line 3, record 1 of the operator's script isn't done: it waits for 1 plate to be taken into \
            quarantine, and 0 were\n",
    },
];

#[test]
fn plates_are_counted_and_a_record_waits_by_its_number(rt: HostRuntime) {
    for case in &COUNTED {
        check_run(&rt, case);
    }
}

// What is said of the run of four plates of which one is laid back, by another script than its own, and as if its
// journal had had so many entries before the run: none, or more than it has.
const FROM: [(u32, &str, &str); 4] = [
    (
        0,
        "always,,stop,press1\n",
        "1 plate was laid back\nline 1, record 1 of the operator's script isn't done: nothing refuses it\n",
    ),
    (0, "failed,feed,repair,feed\n", "1 plate was laid back\n"),
    (
        u32::MAX - 1,
        LAID_BACK,
        "1 plate was laid back\nline 1, record 1 of the operator's script isn't done: it waits for a failure of the \
         feed belt\nthe fault in motion 2 of the feed belt was never reached: it set out 0 times\n",
    ),
    (
        u32::MAX,
        "",
        "1 plate was laid back\nthe fault in motion 2 of the feed belt was never reached: it set out 0 times\n",
    ),
];

#[test]
fn an_entry_counts_for_a_line_that_asks_for_it_and_none_from_before_the_run(rt: HostRuntime) {
    let alloc = rt.alloc();
    let fault = "feed_belt,2,no_motion,".as_bytes();
    let mut written = Vec::new(alloc);
    let texts = Texts::new(FOUR.as_bytes(), fault, LAID_BACK.as_bytes());
    let mut writer = WatchedWriter::new(&mut written);
    let ran = run_kept(&rt, texts, Mode::Rounds, false, &mut writer);
    let Ok((_, left)) = ran else {
        panic!(&rt; "no writer failed");
    };
    for &(before, script, wanted) in &FROM {
        let said = said_of(&rt, alloc, &left, before, fault, script.as_bytes());
        check_said(&rt, script, said.as_slice(), wanted);
    }
}
