//! The three texts of a run.
ghost use Rattle.std.specs.Prelude.{◌≡◌, IfOk};
ghost use Rattle.cell_measures.specs.Times.{duration};
ghost use Rattle.cell_measures.specs.declared.motion.Move.{Move};
ghost use Rattle.cell_sim.specs.Simulated.{one_each};
ghost use Rattle.cell_runs.specs.Inputs.{AreInputs};

use cell_measures::Durations;
use cell_settings::{SettingsError, read_settings};
use cell_sim::{FaultError, FaultScript};
use cell_workers::Plan;
use operator_desk::{Script, ScriptError};
use std::alloc::Global;

/// The three texts of a run, and how many readings its motions take, which none of them says.
#[derive(Clone, Copy, Debug)]
pub struct Texts<'a> {
    pub settings: &'a [u8],
    /// The script of faults.
    pub faults: &'a [u8],
    /// The operator's script.
    pub operator: &'a [u8],
    pub durations: Durations,
}

impl<'a> Texts<'a> {
    /// These texts, and motions that take one reading each.
    pub fn new(settings: &'a [u8], faults: &'a [u8], operator: &'a [u8]) -> Texts<'a>
        ensures settings { result.settings.now ≡ settings.entry.now }
        ensures faults { result.faults.now ≡ faults.entry.now }
        ensures operator { result.operator.now ≡ operator.entry.now }
        ensures durations { (motion : Move) → duration result.durations motion ≡ 1 }
        ensures short { result.durations ≡ one_each }
    {
        Texts {
            settings,
            faults,
            operator,
            durations: Durations::ONE,
        }
    }
}

/// What the texts of a run say.
#[derive(Drop)]
pub struct Inputs {
    pub plan: Plan,
    pub faults: FaultScript,
    pub script: Script,
    /// How many readings each motion of the simulated cell takes.
    pub durations: Durations,
}

/// The first text of a run that is refused, in the order of these cases, and why.
#[derive(Debug, Drop)]
pub enum InputError {
    /// The settings.
    Settings(SettingsError),
    /// The script of faults.
    Faults(FaultError),
    /// The operator's script.
    Operator(ScriptError),
}

/// Reads the settings, the script of faults and the operator's script, in this order. The error is that of the first
/// text that is refused.
pub fn read_inputs(alloc: Global, texts: Texts<'_>) -> Result<Inputs, InputError>
    ensures inputs { AreInputs texts.entry.settings.now texts.entry.faults.now texts.entry.operator.now result }
    ensures durations { IfOk result (λ inputs. inputs.durations ≡ texts.entry.durations) }
{
    let Texts {
        settings,
        faults,
        operator,
        durations,
    } = texts;
    let plan = match read_settings(alloc, settings) {
        Ok(plan) => plan,
        Err(error) => return Err(InputError::Settings(error)),
    };
    let faults = match FaultScript::read(alloc, faults) {
        Ok(faults) => faults,
        Err(error) => return Err(InputError::Faults(error)),
    };
    match Script::read(alloc, operator) {
        Ok(script) => Ok(Inputs {
            plan,
            faults,
            script,
            durations,
        }),
        Err(error) => Err(InputError::Operator(error)),
    }
}
