//! The run without faults of a sweep, from which its runs with faults go on.
ghost use Rattle.std.specs.Prelude.{◌≡◌, IfErr, IfOk, IfSome};
ghost use Rattle.cell_branches.specs.Trunks.{IsTrunk};
ghost use Rattle.cell_runs.specs.Inputs.{AreLines};
ghost use Rattle.cell_sweep.specs.Rows.{RunsTo};
ghost use Rattle.cell_sweep.specs.declared.runs.NoRun.TheVariants as none;

use crate::runs::{NoRun, Ran};
use crate::texts::{Faults, Settings};
use cell_branches::{Branch, Trunk};
use cell_workers::End;
use operator_desk::Script;
use std::alloc::{AllocError, Global};

/// The run without faults by the texts of a sweep.
#[derive(Drop)]
pub(crate) struct Shared<'a> {
    pub(crate) settings: &'a Settings<'a>,
    pub(crate) operator: &'a [u8],
    pub(crate) trunk: Trunk,
    ghost plan: { trunk.plan ≡ settings.now.plan },
    ghost script: { AreLines operator.now trunk.script },
}

impl<'a> Shared<'a> {
    /// Runs the simulated cell without faults, unless the operator's script is refused.
    pub(crate) fn run(
        alloc: Global,
        settings: &'a Settings<'a>,
        operator: &'a [u8],
    ) -> Result<Option<Shared<'a>>, AllocError>
        ensures settings { IfOk result (λ made. IfSome made (λ shared. shared.settings.now.text.now
            ≡ settings.now.text.now)) }
        ensures operator { IfOk result (λ made. IfSome made (λ shared. shared.operator.now ≡ operator.now)) }
        ensures trunk { IfOk result (λ made. IfSome made (λ shared. IsTrunk shared.trunk)) }
    {
        let Ok(script) = Script::read(alloc, operator) else {
            return Ok(None);
        };
        let trunk = Trunk::run(alloc, script, &settings.plan)?;
        Ok(Some(Shared {
            settings,
            operator,
            trunk,
        }))
    }

    // A run that went on from there. One that ended for want of memory is none.
    fn ran(&self, branch: Branch) -> Result<Ran, NoRun>
        ensures plan { IfOk result (λ ran. ran.plan ≡ self.now.settings.now.plan) }
        ensures outcome { IfOk result (λ ran. ran.outcome ≡ branch.outcome) }
        ensures memory { IfErr result (λ why. why ≡ none.OutOfMemory) }
    {
        let Branch { outcome, left } = branch;
        match outcome.end {
            End::Memory => Err(NoRun::OutOfMemory),
            _ => Ok(Ran {
                plan: self.settings.plan,
                outcome,
                left,
            }),
        }
    }

    /// The run with these faults, if there is a place before their motions.
    pub(crate) fn with_faults(
        &self,
        alloc: Global,
        faults: &Faults<'_>,
    ) -> Result<Option<Ran>, NoRun>
        requires { IsTrunk self.now.trunk }
        ensures ran { IfOk result (λ made. IfSome made (λ ran. RunsTo self.now.settings.now.text.now
            faults.now.text.now self.now.operator.now ran.plan ran.outcome.book.entries ran.outcome.end)) }
        ensures memory { IfErr result (λ why. why ≡ none.OutOfMemory) }
    {
        match self.trunk.branch(alloc, &faults.script)? {
            Some(branch) => Ok(Some(self.ran(branch)?)),
            None => Ok(None),
        }
    }
}
