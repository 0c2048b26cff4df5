//! Worked runs of the simulated cell on threads.
use crate::workers::cell::{AMPLE, plan_of, run_world};
use crate::workers::reports::check_end;
use cell_workers::End;
use std::process::Abort;
use std::sync::Wait;
use std::thread::Threads;
use test_samples::{CLEARED_PRESS, STUCK_PRESS};

// A run: how many plates there are, how many turns each worker has, the scripts of faults and of the operator, how the
// run ends, and what it counts: admitted, forged, quarantined, delivered.
type Row = (u32, u32, &'static str, &'static str, End, [u32; 4]);

// Five plates are all forged and delivered. Of six one stays in the second press, and is cleared or left there.
const ROWS: [Row; 3] = [
    (5, AMPLE, "", "", End::Finished, [5, 5, 0, 5]),
    (
        6,
        AMPLE,
        STUCK_PRESS,
        CLEARED_PRESS,
        End::Finished,
        [6, 5, 1, 5],
    ),
    (6, AMPLE, STUCK_PRESS, "", End::Stalled, [6, 5, 0, 5]),
];

// One turn each is too few.
const SHORT: Row = (5, 1, "", "", End::TurnLimit, [0, 0, 0, 0]);

fn check_row<R: AllocGlobal + Abort + Threads + Wait + Sync>(rt: &R, row: Row) {
    let (plates, turns, faults, operator, end, totals) = row;
    let report = run_world(rt, &plan_of(rt, plates, AMPLE, turns), faults, operator);
    check_end(rt, &report, end, totals);
}

// The same runs again and again: no schedule of the threads may change how they end.
#[test]
fn every_schedule_ends_in_the_same_way(rt: HostRuntime) {
    check_row(&rt, SHORT);
    for _ in 0..41u32 {
        for &row in &ROWS {
            check_row(&rt, row);
        }
    }
}

#[test]
fn a_full_journal_ends_the_run(rt: HostRuntime) {
    for limit in 1..101u32 {
        let report = run_world(&rt, &plan_of(&rt, 5, limit, AMPLE), "", "");
        assert!(rt; report.end == End::Full, "with room for {limit} entries");
        assert!(rt; limit <= report.journal.len());
    }
}
