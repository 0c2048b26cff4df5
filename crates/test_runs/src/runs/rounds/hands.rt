//! Runs whose operator's hands fail.
use cell_plant::Ported;
use cell_runs::{Inputs, Outcome, Texts, empty_book, read_inputs, run_on, sim_ports};
use cell_sim::{SimOperator, World};
use cell_types::Machine;
use cell_workers::End;
use std::process::Abort;
use std::sync::{Mutex, Wait};
use test_ports::{Failing, TellingHands};
use test_samples::{CLEARED_PRESS, STUCK_PRESS};

// What comes of a run of six plates in which the second press fails and is to be cleared and repaired by such hands.
fn played<R: AllocGlobal + Wait + Abort>(rt: &R, removing: Failing, homing: Failing) -> Outcome {
    let [lines, operator] = [STUCK_PRESS.as_bytes(), CLEARED_PRESS.as_bytes()];
    let texts = Texts::new(b"plates = 6", lines, operator);
    let Inputs {
        plan,
        faults,
        script,
        durations,
    } = read_inputs(rt.alloc(), texts).expect(rt, "the texts are good");
    let book = empty_book(rt.alloc(), &plan).expect(rt, "memory");
    let world = Mutex::new(World::new(plan.plates).with_durations(durations));
    let hands = SimOperator::new(rt, &world);
    let hands = TellingHands::new(rt.alloc(), hands, removing, homing, 10).expect(rt, "memory");
    let ports = sim_ports(rt, &world, &faults);
    let mut cell = Ported { ports, hands };
    run_on(rt.alloc(), book, &mut cell, script, &plan)
}

// That run has to end so, with five plates forged and delivered and so many in quarantine, and with the press booked
// failed.
fn check_failing<R: AllocGlobal + Wait + Abort>(
    rt: &R,
    removing: Failing,
    homing: Failing,
    end: End,
    quarantined: u32,
) {
    let outcome = played(rt, removing, homing);
    let totals = outcome.book.totals();
    assert!(rt; outcome.end == end, "{end:?}");
    let counted = [
        totals.admitted,
        totals.forged,
        totals.quarantined,
        totals.delivered,
    ];
    assert!(rt;
        counted == [6, 5, quarantined, 5] && outcome.book.failed(Machine::Press2),
        "{end:?}"
    );
}

#[test]
fn a_press_that_hands_fail_at_stays_failed(rt: HostRuntime) {
    // The plate can't be taken out, and stays.
    check_failing(&rt, Failing::Always, Failing::Never, End::Stalled, 0);
    // The plate is taken out, and the press can't be put at home.
    check_failing(&rt, Failing::Never, Failing::Always, End::Finished, 1);
}
