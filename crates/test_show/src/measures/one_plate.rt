//! Measures that were computed by hand.
use crate::measures::samples::journal_of;
use cell_measures::{Durations, Held, Measures, Spent, Spread, measure, times_of};
use cell_types::{Axis, Machine, Pose, Zone};
use std::process::Abort;
use test_samples::ONE_PLATE;

fn measured<R: AllocGlobal + Abort>(rt: &R, records: &[&str], durations: &Durations) -> Measures {
    let journal = journal_of(rt, records);
    measure(rt.alloc(), &journal, durations).expect(rt, "memory")
}

fn spent(moving: u64, waiting: u64, idle: u64) -> Spent {
    Spent {
        failed: 0,
        moving,
        waiting,
        holding: 0,
        idle,
    }
}

fn held(by_owner: u64, by_visitor: u64) -> Held {
    Held {
        by_owner,
        by_visitor,
    }
}

const fn same(time: u64) -> Option<Spread> {
    Some(Spread {
        least: time,
        median: time,
        most: time,
    })
}

// The 18 motions of one plate alone come one after another.
#[test]
fn one_plate_takes_the_sum_of_its_motions(rt: HostRuntime) {
    let measures = measured(&rt, &ONE_PLATE, &Durations::ONE);
    let counted = (measures.entries, measures.delivered, measures.declared);
    assert!(&rt; counted == (62, 1, 0));
    assert!(&rt; (measures.time, measures.rate) == (18, None));
    let spreads = [measures.plate, measures.to_delivery, measures.to_repair];
    assert!(&rt; spreads == [same(18), None, None]);
}

#[test]
fn the_machines_of_one_plate(rt: HostRuntime) {
    let measures = measured(&rt, &ONE_PLATE, &Durations::ONE);
    for &(machine, wanted) in &[
        (Machine::Feed, spent(2, 0, 16)),
        (Machine::Table, spent(2, 1, 15)),
        (Machine::Robot, spent(11, 4, 3)),
        (Machine::Press1, spent(2, 3, 13)),
        (Machine::Press2, spent(0, 0, 18)),
        (Machine::Deposit, spent(1, 3, 14)),
    ] {
        assert!(&rt; measures.of_machine(machine) == wanted, "{machine:?}");
    }
}

#[test]
fn the_zones_of_one_plate(rt: HostRuntime) {
    let measures = measured(&rt, &ONE_PLATE, &Durations::ONE);
    for &(zone, wanted) in &[
        (Zone::Z1, held(2, 1)),
        (Zone::Z2, held(2, 2)),
        (Zone::Z3, held(2, 6)),
        (Zone::Z4, held(0, 0)),
        (Zone::Z5, held(1, 3)),
    ] {
        assert!(&rt; measures.of_zone(zone) == wanted, "{zone:?}");
    }
}

// A slower motion makes all later that much later.
#[test]
fn durations_count(rt: HostRuntime) {
    let mut durations = Durations::ONE;
    durations.set_axis(Axis::PressOne, 4);
    durations.set(Axis::PressOne, Pose::Top, 6);
    durations.set_axis(Axis::DepositBelt, 0);
    let measures = measured(&rt, &ONE_PLATE, &durations);
    let press = measures.of_machine(Machine::Press1).moving;
    let deposit = measures.of_machine(Machine::Deposit).moving;
    assert!(&rt; [measures.time, press, deposit] == [25, 10, 0]);
}

// Two axes of a machine that move at once take as long as the slower one.
#[test]
fn motions_at_once(rt: HostRuntime) {
    let records = [
        "started,table_lift,high,",
        "started,table_turn,robot,",
        "arrived,table_turn,robot,",
        "arrived,table_lift,high,",
    ];
    let mut durations = Durations::ONE;
    durations.set_axis(Axis::TableLift, 5);
    durations.set_axis(Axis::TableTurn, 3);
    let journal = journal_of(&rt, &records);
    let ends = times_of(rt.alloc(), &journal, &durations).expect(&rt, "memory");
    assert!(&rt; ends.as_slice() == [0, 0, 3, 5].as_slice());
    let measures = measured(&rt, &records, &durations);
    assert!(&rt; measures.of_machine(Machine::Table) == spent(5, 0, 0));
}

// A machine is failed from its declaration to its repair, and holds no zone from then on.
#[test]
fn a_failure(rt: HostRuntime) {
    let records = [
        "claimed,press1,z3,",
        "started,press_one,bottom,",
        "arrived,press_one,bottom,",
        "declared,press1,lost_position,",
        "started,table_lift,high,",
        "arrived,table_lift,high,",
        "quarantined,1,press1,",
        "repaired,press1,,",
        "claimed,robot,z3,",
    ];
    let mut durations = Durations::ONE;
    durations.set_axis(Axis::TableLift, 9);
    let measures = measured(&rt, &records, &durations);
    assert!(&rt; (measures.time, measures.declared) == (9, 1));
    let spreads = [measures.to_repair, measures.to_delivery];
    assert!(&rt; spreads == [same(0), None]);
    assert!(&rt; measures.of_zone(Zone::Z3) == held(1, 8));
    assert!(&rt; measures.of_machine(Machine::Press1) == spent(1, 0, 8));
}
