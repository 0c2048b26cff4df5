//! Ports and hands that fail under workers on threads.
use crate::same::check_same;
use crate::sim::steps::faults_of;
use crate::workers::cell::{AMPLE, plan_of, run_over, script_of};
use crate::workers::reports::check_end;
use crate::workers::rooms::check_entries;
use crate::workers::telling::check_sent;
use cell_runs::sim_ports;
use cell_sim::{SimOperator, World};
use cell_types::{MACHINES, Machine, Station};
use cell_workers::{Act, End, Report, Six};
use std::process::Abort;
use std::sync::{Mutex, Wait};
use std::thread::Threads;
use test_ports::{Failing, TellingHands, TellingPort, did, telling_ports};
use test_samples::{CLEARED_PRESS, STUCK_PRESS, entries_of};

/// How many answers of a port, commands to it and acts of the operator a test keeps: more than a run of a few plates
/// has.
const ROOM: usize = 20_000;

// A run in which a machine's port fails, and the operator's hands at acts of each kind, and what has to come of it.
#[derive(Clone, Copy)]
struct Failures {
    plates: u32,
    faults: &'static str,
    script: &'static str,
    machine: Machine,
    port: Failing,
    removing: Failing,
    homing: Failing,
    // How the run ends, and what it counts.
    end: End,
    totals: [u32; 4],
    // The records of its journal, where they are looked at.
    records: Option<&'static [&'static str]>,
    // The acts that the hands did, and how many failed.
    acts: &'static [Act],
    failed_acts: u32,
}

// Nothing fails, and nothing is to be done by hand.
const NEVER: Failures = Failures {
    plates: 5,
    faults: "",
    script: "",
    machine: Machine::Feed,
    port: Failing::Never,
    removing: Failing::Never,
    homing: Failing::Never,
    end: End::Finished,
    totals: [5, 5, 0, 5],
    records: None,
    acts: &[],
    failed_acts: 0,
};

// A feed belt that takes no command stops the cell.
const FEED_FAILS: Failures = Failures {
    port: Failing::Always,
    end: End::Stalled,
    totals: [0, 0, 0, 0],
    records: Some(&["lamp,feed,green,", "declared,feed,command_fault,"]),
    ..NEVER
};

// A press that takes no command keeps its plate.
const PRESS_FAILS: Failures = Failures {
    machine: Machine::Press1,
    port: Failing::Always,
    end: End::Stalled,
    totals: [5, 4, 0, 4],
    ..NEVER
};

// The second press fails, and is to be cleared and repaired. Its plate can't be taken out, and stays.
const PLATE_STAYS: Failures = Failures {
    plates: 6,
    faults: STUCK_PRESS,
    script: CLEARED_PRESS,
    removing: Failing::Always,
    end: End::Stalled,
    totals: [6, 5, 0, 5],
    failed_acts: 1,
    ..NEVER
};

// The press can't be put at home, and stays failed.
const PRESS_STAYS: Failures = Failures {
    removing: Failing::Never,
    homing: Failing::Always,
    end: End::Finished,
    totals: [6, 5, 1, 5],
    acts: &[Act::Remove(Station::Press2)],
    ..PLATE_STAYS
};

// Each port was asked what its machine's list says.
fn check_ports<P>(rt: &impl Abort, ports: &Six<TellingPort<P>>, report: &Report) {
    let [feed, table, robot, press1, press2, deposit, _] = &report.workers;
    check_sent(rt, Machine::Feed, feed.0.as_slice(), &ports.feed);
    check_sent(rt, Machine::Table, table.0.as_slice(), &ports.table);
    check_sent(rt, Machine::Robot, robot.0.as_slice(), &ports.robot);
    check_sent(rt, Machine::Press1, press1.0.as_slice(), &ports.press1);
    check_sent(rt, Machine::Press2, press2.0.as_slice(), &ports.press2);
    check_sent(rt, Machine::Deposit, deposit.0.as_slice(), &ports.deposit);
}

// The hands did the acts of what the operator's worker booked, which are these, and failed as often as is wanted.
fn check_hands<O>(rt: &impl Abort, wanted: &Failures, report: &Report, hands: &TellingHands<O>) {
    let (list, _) = &report.workers[6];
    check_same(rt, &"the hands", &did(list.as_slice(), hands), &Ok(()));
    check_same(rt, &"the acts", &hands.acts(), &Some(wanted.acts));
    check_same(rt, &"the failures", &hands.failures(), &wanted.failed_acts);
}

// How the run ended, what it counted, and its journal.
fn check_outcome<R: AllocGlobal + Abort>(rt: &R, wanted: &Failures, report: &Report) {
    check_end(rt, report, wanted.end, wanted.totals);
    if let Some(records) = wanted.records {
        let entries = entries_of(rt.alloc(), &report.journal).expect(rt, "there is memory");
        check_entries(rt, entries.as_slice(), records);
    }
}

// Runs the cell with such failures. What comes of it is compared where that is known.
fn run_failing<R: AllocGlobal + Abort + Threads + Wait + Sync>(
    rt: &R,
    failures: &Failures,
    is_known: bool,
) {
    let faults = faults_of(rt, failures.faults);
    let world = Mutex::new(World::new(failures.plates));
    let mut all = [Failing::Never; 6];
    all[failures.machine as usize] = failures.port;
    let ports = telling_ports(rt.alloc(), sim_ports(rt, &world, &faults), all, ROOM);
    let mut ports = ports.ok().expect(rt, "there is memory");
    let hands = SimOperator::new(rt, &world);
    let hands = TellingHands::new(rt.alloc(), hands, failures.removing, failures.homing, ROOM);
    let mut hands = hands.ok().expect(rt, "there is memory");
    let plan = plan_of(rt, failures.plates, AMPLE, AMPLE);
    let script = script_of(rt, failures.script);
    let report = run_over(rt, &mut ports, &mut hands, script, &plan);
    check_ports(rt, &ports, &report);
    check_hands(rt, failures, &report, &hands);
    if is_known {
        check_outcome(rt, failures, &report);
        assert!(rt; world.lock(rt).collisions() == 0);
    }
}

#[test]
fn ports_and_hands_do_what_is_booked_until_they_fail(rt: HostRuntime) {
    for &failures in &[NEVER, FEED_FAILS, PRESS_FAILS, PLATE_STAYS, PRESS_STAYS] {
        run_failing(&rt, &failures, true);
    }
}

#[test]
fn one_failed_command_is_declared(rt: HostRuntime) {
    for &machine in &MACHINES {
        for number in 1..21u32 {
            let port = Failing::At(number);
            let failures = Failures {
                machine,
                port,
                ..NEVER
            };
            run_failing(&rt, &failures, false);
        }
    }
}
