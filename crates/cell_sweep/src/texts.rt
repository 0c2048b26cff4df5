//! Texts of a run, with what they say, so that each is read once.
ghost use Rattle.cell_runs.specs.Inputs.{AreFaults, AreSettings};
ghost use Rattle.cell_settings.specs.Settings.{plan_numbers};

use cell_ports::Plan;
use cell_sim::FaultScript;

/// Settings, and what they say.
#[derive(Drop)]
pub(crate) struct Settings<'a> {
    pub(crate) text: &'a [u8],
    pub(crate) plan: Plan,
    ghost read: { AreSettings text.now (plan_numbers plan) },
}

/// A script of faults, and what it says.
#[derive(Drop)]
pub(crate) struct Faults<'a> {
    pub(crate) text: &'a [u8],
    pub(crate) script: FaultScript,
    ghost read: { AreFaults text.now script },
}
