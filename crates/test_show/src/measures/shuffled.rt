//! Journals whose independent entries stand in other orders, and measures of several plates.
use crate::measures::samples::journal_of;
use cell_measures::{Durations, Measures, Spent, Spread, measure};
use cell_types::{Axis, Machine};
use std::alloc::AllocError;
use std::process::Abort;
use test_samples::ONE_PLATE;

// What the second press does while the plate is forged in the first.
const SECOND_PRESS: [&str; 4] = [
    "claimed,press2,z4,",
    "started,press_two,bottom,",
    "arrived,press_two,bottom,",
    "yielded,press2,z4,",
];

// The journal of one plate, with the second press's entries from a place on.
fn with_second_press<R: AllocGlobal>(
    rt: &R,
    place: usize,
) -> Result<Vec<&'static str>, AllocError> {
    let mut records = Vec::new(rt.alloc());
    for (i, record) in ONE_PLATE.iter().enumerate() {
        if i == place {
            records.extend_from_slice(&SECOND_PRESS)?;
        }
        records.push(*record)?;
    }
    Ok(records)
}

fn measured<R: AllocGlobal + Abort>(rt: &R, records: &[&str], durations: &Durations) -> Measures {
    let journal = journal_of(rt, records);
    measure(rt.alloc(), &journal, durations).expect(rt, "memory")
}

// It is no matter where the second press's entries stand.
#[test]
fn another_order(rt: HostRuntime) {
    let first = with_second_press(&rt, 0).expect(&rt, "memory");
    let first = measured(&rt, first.as_slice(), &Durations::ONE);
    assert!(&rt; first.time == 18);
    let moved = Spent {
        failed: 0,
        moving: 1,
        waiting: 0,
        holding: 0,
        idle: 17,
    };
    assert!(&rt; first.of_machine(Machine::Press2) == moved);
    for place in 1..62 {
        let records = with_second_press(&rt, place).expect(&rt, "memory");
        let other = measured(&rt, records.as_slice(), &Durations::ONE);
        assert!(&rt; other == first);
    }
}

// The first plate is delivered at 0, and the second at 4; press 2 fails at 2.
#[test]
fn two_deliveries(rt: HostRuntime) {
    let records = [
        "admitted,1,,",
        "admitted,2,,",
        "delivered,1,,",
        "started,deposit_belt,to_end,",
        "conveyed,deposit_belt,2,dep_end",
        "delivered,2,,",
        "started,press_two,bottom,",
        "arrived,press_two,bottom,",
        "declared,press2,stuck_switch,",
    ];
    let mut durations = Durations::ONE;
    durations.set_axis(Axis::DepositBelt, 4);
    durations.set_axis(Axis::PressTwo, 2);
    let measures = measured(&rt, &records, &durations);
    let counted = (measures.time, measures.delivered, measures.rate);
    assert!(&rt; counted == (4, 2, Some(250_000)));
    let plate = Spread {
        least: 0,
        median: 0,
        most: 4,
    };
    let two = Spread {
        least: 2,
        median: 2,
        most: 2,
    };
    let spreads = [measures.plate, measures.to_delivery, measures.to_repair];
    assert!(&rt; spreads == [Some(plate), Some(two), None]);
    assert!(&rt; measures.of_machine(Machine::Press2).failed == 2);
}
