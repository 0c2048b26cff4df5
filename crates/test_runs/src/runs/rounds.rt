//! Runs of the simulated cell by their texts, in rounds on one thread.
mod ends;
mod faults;
mod hands;
mod returns;

use cell_audit::{audit, write_journal};
use cell_runs::{Inputs, Outcome, Texts, read_inputs, run_texts, simulate};
use cell_sim::{SAFETY_RULES, World};
use cell_types::{STATIONS, Totals};
use cell_workers::End;
use sim_plant::SimPlant;
use std::alloc::{AllocError, Global};
use std::process::Abort;
use std::sync::Wait;
use std::thread::Threads;

// A case of a run: the settings, the script of faults, the operator's script, the exit status, what is printed, and how
// many plates were laid back, parted by `|`.

/// The texts of a case, and what it says of their run: the status, what is printed, the plates that were laid back.
pub(crate) fn read_case(case: &str) -> ([&[u8]; 3], u8, &str, &str) {
    let mut parts = case.split('|');
    let settings = parts.next().unwrap_or("").as_bytes();
    let faults = parts.next().unwrap_or("").as_bytes();
    let operator = parts.next().unwrap_or("").as_bytes();
    let status = parts.next().unwrap_or("").parse::<u8>();
    let printed = parts.next().unwrap_or("");
    let laid_back = parts.next().unwrap_or("");
    (
        [settings, faults, operator],
        status.unwrap_or(u8::MAX),
        printed,
        laid_back,
    )
}

/// What is printed for three texts, in rounds or on threads, or the run's journal. The run has to end with this status.
pub(crate) fn told<R: AllocGlobal + Abort + Threads + Wait + Sync>(
    rt: &R,
    texts: [&[u8]; 3],
    threads: bool,
    journal: bool,
    status: u8,
    case: &str,
) -> Vec<u8> {
    let [settings, faults, operator] = texts;
    let mut written = Vec::new(rt.alloc());
    let answer = run_texts(
        rt,
        settings,
        faults,
        operator,
        threads,
        journal,
        &mut written,
    );
    assert!(rt; answer == Ok(status), "{case}");
    written
}

// The journal's text of a run has to audit as legal, with the totals of its book.
fn check_journal<R: AllocGlobal + Abort>(rt: &R, outcome: &Outcome, case: &str) {
    let mut text = Vec::new(rt.alloc());
    assert!(rt;
        write_journal(rt.alloc(), outcome.book.journal(), &mut text).is_ok(),
        "{case}"
    );
    let answer = audit(rt.alloc(), text.as_slice());
    assert!(rt; answer == Ok((2, outcome.book.totals())), "{case}");
}

// How many plates are at the stations of a world.
fn count_inside(world: &World) -> u32 {
    let mut count = 0u32;
    for &station in &STATIONS {
        if world.plate_at(station).is_some() {
            count = count.saturating_add(1);
        }
    }
    count
}

/// No machines may have met in a watched world, and no safety rule may be broken. What was laid in has to be at a
/// station, or taken out, removed or lost.
pub(crate) fn check_world(rt: &impl Abort, world: &World, case: &str) {
    assert!(rt; world.collisions() == 0, "{case}");
    for &rule in &SAFETY_RULES {
        assert!(rt; world.broken(rule) == 0, "{case}: {rule}");
    }
    let gone = world
        .taken_out()
        .saturating_add(world.removed())
        .saturating_add(world.lost());
    assert!(rt;
        world.laid() == gone.saturating_add(count_inside(world)),
        "{case}"
    );
}

// What a run over a watched world of its own comes to.
fn run_in_world<R: AllocGlobal + Abort>(rt: &R, texts: [&[u8]; 3], case: &str) -> Outcome {
    let [settings, lines, operator] = texts;
    let inputs = read_inputs(rt.alloc(), Texts::new(settings, lines, operator)).expect(rt, case);
    let Inputs {
        plan,
        faults,
        script,
        durations,
    } = inputs;
    let world = World::watched(plan.plates).with_durations(durations);
    let mut cell = SimPlant::new(world, &faults);
    let outcome = simulate(rt.alloc(), &mut cell, script, &plan).expect(rt, case);
    check_world(rt, cell.world(), case);
    check_journal(rt, &outcome, case);
    outcome
}

// How a case ends whose run came to this: all that stands after its texts.
fn due_of(alloc: Global, outcome: &Outcome) -> Result<String, AllocError> {
    let (status, end) = match outcome.end {
        End::Finished => (0u8, "finished"),
        End::Stalled => (1, "stalled"),
        End::TurnLimit => (1, "turn limit"),
        End::Full => (1, "full"),
        End::Memory => (4, "memory"),
    };
    let Totals {
        admitted,
        forged,
        quarantined,
        delivered,
        reinstated,
        ..
    } = outcome.book.totals();
    format!(in alloc;
        "|{status}|{end}\nadmitted {admitted}\nforged {forged}\nquarantined {quarantined}\n\
        delivered {delivered}\n|{reinstated}"
    )
}

// A case's run has to print what the case says, with its status. Its journal has to audit as legal, with these totals.
fn check_told<R: AllocGlobal + Abort + Threads + Wait + Sync>(rt: &R, case: &str, totals: Totals) {
    let (texts, status, printed, _) = read_case(case);
    let written = told(rt, texts, false, false, status, case);
    assert!(rt; written.as_slice() == printed.as_bytes(), "{case}");
    let journal = told(rt, texts, false, true, status, case);
    let answer = audit(rt.alloc(), journal.as_slice());
    assert!(rt; answer == Ok((2, totals)), "{case}");
}

// A case's run has to come to what the case says in a world of its own, and to print that.
fn check_case<R: AllocGlobal + Abort + Threads + Wait + Sync>(
    rt: &R,
    case: &str,
) -> Result<(), AllocError> {
    let (texts, ..) = read_case(case);
    let outcome = run_in_world(rt, texts, case);
    let due = due_of(rt.alloc(), &outcome)?;
    assert!(rt; case.ends_with(due.as_str()), "{case}: {due}");
    check_told(rt, case, outcome.book.totals());
    Ok(())
}
