//! Runs that go on from the run without faults, beside those from the opening.
ghost use Rattle.cell_branches.specs.Trunks.{IsTrunk};

use cell_branches::Trunk;
use cell_ports::Plan;
use cell_runs::{Inputs, Outcome, Texts, read_inputs, simulate};
use cell_sim::World;
use operator_desk::Script;
use sim_plant::SimPlant;
use std::process::Abort;

const OPERATOR: &str = "failed,press2,clear,press2\nfailed,press2,repair,press2\n";

// Scripts of faults: in a first motion, in a last one, in two motions, in one that never begins, in none.
const FAULTS: [&str; 5] = [
    "feed_belt,1,no_motion,\n",
    "press_two,3,no_motion,\n",
    "arm_two,18,no_motion,\narm_one,5,slow,3\n",
    "press_one,1000,no_motion,\n",
    "",
];

fn inputs_of<R: AllocGlobal + Abort>(rt: &R, faults: &str) -> Inputs {
    let texts = Texts::new(b"plates = 6\n", faults.as_bytes(), OPERATOR.as_bytes());
    read_inputs(rt.alloc(), texts).ok().expect(rt, "inputs")
}

// Whether two runs left the same entries and the same end.
fn are_alike(one: &Outcome, other: &Outcome) -> bool {
    let (left, right) = (one.book.journal(), other.book.journal());
    let same = (0..left.len()).all(|place| left.get(place) == right.get(place));
    one.end == other.end && left.len() == right.len() && same
}

// The run without faults.
fn trunk_of<R: AllocGlobal + Abort>(rt: &R, script: Script, plan: &Plan) -> Trunk
    ensures { IsTrunk result }
{
    match Trunk::run(rt.alloc(), script, plan) {
        Ok(trunk) => trunk,
        Err(why) => panic!(rt; "there is memory: {why:?}"),
    }
}

// The run with these faults has the entries, the end and the plates of the one from the opening.
fn check<R: AllocGlobal + Abort>(rt: &R, trunk: &Trunk, plan: &Plan, faults: &str)
    requires { IsTrunk trunk.now }
{
    let Inputs {
        faults: planned,
        script,
        ..
    } = inputs_of(rt, faults);
    match trunk.branch(rt.alloc(), &planned) {
        Ok(Some(branch)) => {
            let mut cell = SimPlant::new(World::new(plan.plates), &planned);
            let outcome = simulate(rt.alloc(), &mut cell, script, plan).ok();
            let outcome = outcome.expect(rt, "memory");
            assert!(rt; are_alike(&branch.outcome, &outcome), "{faults}");
            assert!(rt; branch.left == cell.world().left(), "{faults}");
        }
        _ => panic!(rt; "there is a place before the faults"),
    }
}

#[test]
fn a_run_that_goes_on_is_the_one_from_the_opening(rt: HostRuntime) {
    let Inputs { plan, script, .. } = inputs_of(&rt, "");
    let trunk = trunk_of(&rt, script, &plan);
    for faults in FAULTS {
        check(&rt, &trunk, &plan, faults);
    }
}
