//! The simulated cell, controlled over its ports.
use cell_ledger::Blanks;
use cell_plant::{KeepFault, Keeper, Plant, Ported, Unkept};
use cell_rounds::{Halt, Outcome, Start, Terms, control, last_command};
use cell_runs::{Inputs, Texts, empty_book, read_inputs, sim_ports};
use cell_sim::{SimOperator, World};
use cell_types::Entry;
use cell_workers::{End, Plan};
use operator_desk::Script;
use sim_plant::SimPlant;
use std::marker::Brand;
use std::process::Abort;
use std::sync::{Mutex, Wait};

// Keeps so many entries, and then no more.
#[derive(Drop)]
struct Few {
    left: u32,
}

impl Keeper for Few {
    fn keep(&mut self, _entry: Entry) -> Result<(), KeepFault> {
        match self.left.checked_sub(1) {
            Some(left) => {
                self.left = left;
                Ok(())
            }
            None => Err(KeepFault),
        }
    }
}

// Three plates without a fault, and six of which a press fails, with an operator who serves it.
const CALM: Three = ("plates = 3\n", "", "");

const SERVED: Three = (
    "plates = 6\n",
    "press_two,1,no_motion,\n",
    "failed,press2,clear,press2\nfailed,press2,repair,press2\n",
);

// The settings of a run, its faults and the operator's script.
type Three = (&'static str, &'static str, &'static str);

fn inputs_of<R: AllocGlobal + Abort>(rt: &R, texts: Three) -> Inputs {
    let (settings, faults, operator) = texts;
    let texts = Texts::new(settings.as_bytes(), faults.as_bytes(), operator.as_bytes());
    read_inputs(rt.alloc(), texts).ok().expect(rt, "inputs")
}

// What a run over a cell left.
fn run_on<R: AllocGlobal + Abort, C: Plant, K: Keeper>(
    rt: &R,
    plant: &mut C,
    keeper: &mut K,
    script: Script,
    plan: &Plan,
) -> Outcome {
    let start = Start {
        book: empty_book(rt.alloc(), plan).ok().expect(rt, "a book"),
        script,
        pending: None,
    };
    let terms = Terms { plan, waits: false };
    control::<_, _, Brand>(rt.alloc(), plant, keeper, start, Blanks::new(1), terms)
}

// What a run over the simulated cell's ports left.
fn controlled<R: AllocGlobal + Abort + Wait, K: Keeper>(
    rt: &R,
    texts: Three,
    keeper: &mut K,
) -> Outcome {
    let Inputs {
        plan,
        faults,
        script,
        ..
    } = inputs_of(rt, texts);
    let world = Mutex::new(World::new(plan.plates));
    let mut plant = Ported {
        ports: sim_ports(rt, &world, &faults),
        hands: SimOperator::new(rt, &world),
    };
    run_on(rt, &mut plant, keeper, script, &plan)
}

// What a run over the simulated cell with no lock round it left.
fn controlled_alone<R: AllocGlobal + Abort>(rt: &R, texts: Three) -> Outcome {
    let Inputs {
        plan,
        faults,
        script,
        ..
    } = inputs_of(rt, texts);
    let mut plant = SimPlant::new(World::new(plan.plates), &faults);
    run_on(rt, &mut plant, &mut Unkept, script, &plan)
}

// Whether two runs left the same entries.
fn are_alike(one: &Outcome, other: &Outcome) -> bool {
    let (one, other) = (one.book.journal(), other.book.journal());
    one.len() == other.len() && (0..one.len()).all(|place| one.at(place) == other.at(place))
}

#[test]
fn the_simulated_cell_forges_all_plates(rt: HostRuntime) {
    let left = controlled(&rt, CALM, &mut Unkept);
    assert!(rt; left.halt == Halt::End(End::Finished));
    assert!(rt; left.book.totals().delivered == 3);
}

#[test]
fn what_cannot_be_kept_halts_the_run(rt: HostRuntime) {
    let left = controlled(&rt, CALM, &mut Few { left: 5 });
    assert!(rt; left.halt == Halt::Unkept);
    assert!(rt; left.book.journal().len() == 6);
    let last = last_command(left.book.journal());
    assert!(rt; last.is_some());
}

#[test]
fn a_cell_with_no_lock_round_it_gives_the_same_run(rt: HostRuntime) {
    for texts in [CALM, SERVED] {
        let left = controlled(&rt, texts, &mut Unkept);
        let alone = controlled_alone(&rt, texts);
        assert!(rt; left.halt == alone.halt);
        assert!(rt; are_alike(&left, &alone));
    }
}
