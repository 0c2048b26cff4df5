//! One run of a sweep.
ghost use Rattle.std.specs.Prelude.{IfErr, IfOk};
ghost use Rattle.cell_sweep.specs.Rows.{IsNoRun, RefusesRun, RunsTo};

use crate::texts::{Faults, Settings};
use cell_ports::Plan;
use cell_runs::{InputError, Outcome, simulate};
use cell_sim::World;
use cell_workers::End;
use operator_desk::Script;
use sim_plant::SimPlant;
use std::alloc::{AllocError, Global};

/// Why there is no run.
#[derive(Debug, Drop)]
pub(crate) enum NoRun {
    /// A text is refused.
    Refused(InputError),
    /// Memory was refused.
    OutOfMemory,
}

impl From<AllocError> for NoRun {
    ghost use Rattle.std.specs.Prelude.{◌≡◌};
    ghost use Rattle.cell_sweep.specs.declared.runs.NoRun.TheVariants as none;

    ghost from_gives = { λ error given. given ≡ none.OutOfMemory };

    fn from(_error: AllocError) -> NoRun {
        NoRun::OutOfMemory
    }
}

/// A run: what it was to do, and what it left.
#[derive(Drop)]
pub(crate) struct Ran {
    pub(crate) plan: Plan,
    pub(crate) outcome: Outcome,
    /// How many plates can still be laid in, those included that can be laid back.
    pub(crate) left: u32,
}

/// Runs the simulated cell by its texts over a new world. A run that ends for want of memory is none.
#[tactic(auto, using(crate::proofs::Steps::lines_refused))]
pub(crate) fn run_alone(
    alloc: Global,
    settings: &Settings<'_>,
    faults: &Faults<'_>,
    operator: &[u8],
) -> Result<Ran, NoRun>
    ensures ran { IfOk result (λ ran. RunsTo settings.now.text.now faults.now.text.now operator.now ran.plan
        ran.outcome.book.entries ran.outcome.end) }
    ensures refused { IfErr result (IsNoRun (RefusesRun settings.now.text.now faults.now.text.now operator.now)) }
{
    let plan = settings.plan;
    let script = match Script::read(alloc, operator) {
        Ok(script) => script,
        Err(error) => return Err(NoRun::Refused(InputError::Operator(error))),
    };
    let world = World::new(plan.plates);
    let mut cell = SimPlant::new(world, &faults.script);
    match simulate(alloc, &mut cell, script, &plan) {
        Ok(outcome) if matches!(outcome.end, End::Memory) => Err(NoRun::OutOfMemory),
        Ok(outcome) => {
            let left = cell.world().left();
            Ok(Ran {
                plan,
                outcome,
                left,
            })
        }
        Err(AllocError) => Err(NoRun::OutOfMemory),
    }
}
