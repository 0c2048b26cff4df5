//! A simulated cell of a test's own, and its workers on threads.
use crate::sim::steps::faults_of;
use crate::workers::reports::check_report;
use cell_diagnosis::Limits;
use cell_runs::sim_ports;
use cell_sim::{SimOperator, World};
use cell_workers::{OperatorPort, Plan, Port, Report, Six, run_cell};
use operator_desk::Script;
use std::process::Abort;
use std::sync::{Mutex, Wait};
use std::thread::Threads;

/// As many entries or turns as any run of a test has room for.
pub(crate) const AMPLE: u32 = 100_000;

/// A plan with the settings' own limits for each axis.
pub(crate) fn plan_of(rt: &impl Abort, plates: u32, journal_limit: u32, turns: u32) -> Plan {
    assert!(rt; 1 <= plates && plates <= 100_000);
    assert!(rt; 1 <= journal_limit && journal_limit <= 1_000_000);
    assert!(rt; 1 <= turns && turns <= 10_000_000);
    let limits = Limits::new(3, 20).expect(rt, "the limits are in range");
    Plan {
        plates,
        journal_limit,
        turns,
        limits: [limits; 9],
    }
}

/// The operator's script of a text. In a run that refuses one allocation it may be refused here, and not when it is
/// read again.
pub(crate) fn script_of<R: AllocGlobal + Abort>(rt: &R, text: &str) -> Script {
    let bytes = text.as_bytes();
    let script = Script::read(rt.alloc(), bytes);
    let Ok(script) = script.or_else(|_| Script::read(rt.alloc(), bytes)) else {
        panic!(rt; "the operator's script is readable");
    };
    script
}

/// Runs seven workers on threads over these ports. There has to be a report, and what holds of every report has to hold
/// of it.
pub(crate) fn run_over<
    P: Port + Send,
    O: OperatorPort + Send,
    R: AllocGlobal + Abort + Threads + Wait + Sync,
>(rt: &R, ports: &mut Six<P>, operator: &mut O, script: Script, plan: &Plan) -> Report {
    match run_cell(rt, rt.alloc(), ports, operator, script, plan) {
        Ok(report) => {
            check_report(rt, &report, plan);
            report
        }
        Err(why) => panic!(rt; "there is a report: {why:?}"),
    }
}

/// Runs seven workers on threads over a world of their own, in which no two machines may meet.
pub(crate) fn run_world<R: AllocGlobal + Abort + Threads + Wait + Sync>(
    rt: &R,
    plan: &Plan,
    faults: &str,
    operator: &str,
) -> Report {
    let faults = faults_of(rt, faults);
    let script = script_of(rt, operator);
    let world = Mutex::new(World::new(plan.plates));
    let mut ports = sim_ports(rt, &world, &faults);
    let mut hands = SimOperator::new(rt, &world);
    let report = run_over(rt, &mut ports, &mut hands, script, plan);
    assert!(rt; world.lock(rt).collisions() == 0);
    report
}
