//! Reading settings.
ghost use Rattle.std.specs.Prelude.{Result, Ok};
ghost use Rattle.toml.specs.View.{table_view};
ghost use Rattle.cell_settings.specs.Settings.{AnswersText, Gives, GivesNumbers, axes_due, numbers_due, numbers_of};
ghost use Rattle.cell_settings.specs.Settings.{settings_due};
ghost use Rattle.cell_types.specs.Texts.{all_axis};

use crate::error::SettingsError;
use crate::keys::check_keys;
use crate::numbers::{axis_limits, member_number};
use cell_diagnosis::Limits;
use cell_ports::Plan;
use cell_types::{Axis, MAX_ENTRIES, MAX_PLATES};
use std::alloc::Global;
use toml::Table;

const MAX_TURNS: u32 = 10_000_000;

/// How many entries a journal takes and how many turns a machine, where settings don't say.
const DEFAULT: u32 = 100_000;

// The limits of all axes, in their order.
fn all_limits(alloc: Global, table: &Table) -> Result<[Limits; 9], SettingsError>
    ensures { Gives result (axes_due (table_view table.now) all_axis) }
{
    let feed_belt = axis_limits(alloc, table, Axis::FeedBelt)?;
    let table_lift = axis_limits(alloc, table, Axis::TableLift)?;
    let table_turn = axis_limits(alloc, table, Axis::TableTurn)?;
    let robot_turn = axis_limits(alloc, table, Axis::RobotTurn)?;
    let arm_one = axis_limits(alloc, table, Axis::ArmOne)?;
    let arm_two = axis_limits(alloc, table, Axis::ArmTwo)?;
    let press_one = axis_limits(alloc, table, Axis::PressOne)?;
    let press_two = axis_limits(alloc, table, Axis::PressTwo)?;
    let deposit_belt = axis_limits(alloc, table, Axis::DepositBelt)?;
    Ok([
        feed_belt,
        table_lift,
        table_turn,
        robot_turn,
        arm_one,
        arm_two,
        press_one,
        press_two,
        deposit_belt,
    ])
}

// The plan of a table whose keys are known.
fn plan(alloc: Global, table: &Table) -> Result<Plan, SettingsError>
    ensures { GivesNumbers result (numbers_due (table_view table.now)) }
{
    let plates = member_number(alloc, table, "plates", None, 1, MAX_PLATES)?;
    let journal_limit = member_number(
        alloc,
        table,
        "journal_limit",
        Some(DEFAULT),
        1,
        MAX_ENTRIES,
    )?;
    let turns = member_number(alloc, table, "turns", Some(DEFAULT), 1, MAX_TURNS)?;
    let limits = all_limits(alloc, table)?;
    Ok(Plan {
        plates,
        journal_limit,
        turns,
        limits,
    })
}

// The plan of a table.
#[tactic(auto, unfolding(crate::specs::Settings::settings_due))]
fn settings(alloc: Global, table: &Table) -> Result<Plan, SettingsError>
    ensures { GivesNumbers result (settings_due (table_view table.now)) }
{
    match check_keys(alloc, table) {
        Ok(()) => plan(alloc, table),
        Err(e) => Err(e),
    }
}

/// Reads settings, a text in TOML: `plates` (1 to 100,000), `journal_limit` (1 to 1,000,000, by default 100,000),
/// `turns` (1 to 10,000,000, by default 100,000), and for each axis a table such as `[watch.press_one]` with `leave` (2
/// to 999, by default 3) and `limit` (above `leave`, to 1,000, by default 20).
///
/// The error is the first that applies, in the order of `SettingsError`; `OutOfMemory` comes only where memory was
/// refused. The keys and ranges are this project's profile.
pub fn read_settings(alloc: Global, text: &[u8]) -> Result<Plan, SettingsError>
    // The numbers of the text's table with the defaults, or the first refusal.
    ensures { AnswersText text.now (numbers_of result) }
{
    match toml::table_from_slice(alloc, text) {
        Ok(table) => settings(alloc, &table),
        Err(e) => {
            if e.is_memory() {
                Err(SettingsError::OutOfMemory)
            } else {
                Err(SettingsError::NotToml)
            }
        }
    }
}
