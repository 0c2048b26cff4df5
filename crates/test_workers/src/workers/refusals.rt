//! Workers and a whole run that may be refused memory, at any allocation: they end for want of memory, or as they do
//! with ample memory. Each test marks one call, to which a library below the program can refuse memory
//! (docs/HOSTILE.md).
use crate::sim::steps::faults_of;
use crate::workers::alone::FEEDS_ONE_PLATE;
use crate::workers::cell::{AMPLE, plan_of, script_of};
use crate::workers::operators::STOPS;
use crate::workers::reports::{check_end, check_report};
use crate::workers::rooms::{Work, play_in_room};
use cell_runs::sim_ports;
use cell_sim::{SimOperator, World};
use cell_workers::{End, Plan, Report, RunError};
use std::process::Abort;
use std::sync::Mutex;
use test_samples::{CLEARED_PRESS, STUCK_PRESS, call_begins, call_ends};

// The feed belt's worker alone isn't lost. Its list needs room for one more entry at each turn.
const FEEDS: Work<'static> = Work {
    may_be_refused: true,
    ..FEEDS_ONE_PLATE
};

#[test]
fn run_worker(rt: HostRuntime) {
    play_in_room(&rt, (AMPLE, AMPLE, &[FEEDS]));
}

const ASKS_STOPS: Work<'static> = Work {
    may_be_refused: true,
    ..STOPS
};

#[test]
fn run_operator(rt: HostRuntime) {
    play_in_room(&rt, (AMPLE, AMPLE, &[ASKS_STOPS]));
}

// The run ended for want of memory, or its report is that of a run with ample memory.
fn check_answer<R: AllocGlobal + Abort>(rt: &R, answer: &Result<Report, RunError>, plan: &Plan) {
    match answer {
        Ok(report) => {
            check_report(rt, report, plan);
            if report.end != End::Memory {
                check_end(rt, report, End::Finished, [6, 5, 1, 5]);
            }
        }
        Err(why) => assert!(rt; *why != RunError::JournalDisagrees),
    }
}

// Of six plates one stays in the second press, and is cleared.
#[test]
fn run_cell(rt: HostRuntime) {
    let alloc = rt.alloc();
    let plan = plan_of(&rt, 6, AMPLE, AMPLE);
    let faults = faults_of(&rt, STUCK_PRESS);
    let script = script_of(&rt, CLEARED_PRESS);
    let world = Mutex::new(World::new(plan.plates));
    let mut ports = sim_ports(&rt, &world, &faults);
    let mut hands = SimOperator::new(&rt, &world);
    call_begins(alloc);
    let answer = cell_workers::run_cell(&rt, alloc, &mut ports, &mut hands, script, &plan);
    call_ends(
        alloc,
        !matches!(&answer, Ok(report) if report.end != End::Memory),
    );
    check_answer(&rt, &answer, &plan);
}
