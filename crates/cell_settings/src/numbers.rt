//! The numbers of settings, with their defaults and ranges.
ghost use Rattle.std.specs.Prelude.{◌≡◌, ◌+◌, ◌<◌, ◌≤◌, IfOk, option_and_then, option_map};
ghost use Rattle.cell_types.specs.Texts.{axis_word};
ghost use Rattle.toml.specs.Data.{get_member};
ghost use Rattle.toml.specs.View.{table_view, view};
ghost use Rattle.cell_settings.specs.Settings.{Gives, axis_due, axis_table, in_range, limit_due, member_due};
ghost use Rattle.cell_settings.specs.Settings.{number_due};

use crate::error::SettingsError;
use crate::key_path::KeyPath;
use crate::keys::{inner, member};
use cell_diagnosis::Limits;
use cell_types::Axis;
use cell_types::texts::axis_word;
use std::alloc::Global;
use toml::{Table, Value};

/// By which reading an axis has to have left its pose, where settings don't say.
const LEAVE: u32 = 3;

/// By which reading a motion has to have ended, where settings don't say.
const LIMIT: u32 = 20;

// The least and the greatest that a number may be.
#[derive(Clone, Copy)]
struct Bounds {
    low: u32,
    high: u32,
}

// A number in its bounds.
fn bounded(alloc: Global, path: &str, number: i64, bounds: Bounds) -> Result<u32, SettingsError>
    ensures due { Gives result (in_range path.now number bounds.low bounds.high) }
    ensures within { IfOk result (λ n. (bounds.low ≤ n) × (n ≤ bounds.high)) }
{
    if i64::from(bounds.low) <= number && number <= i64::from(bounds.high) {
        Ok(number as u32)
    } else {
        Err(SettingsError::OutOfRange(KeyPath::new(alloc, path)?))
    }
}

// The number that a value is, or its default.
#[tactic(auto, unfolding(crate::specs::Settings::number_due))]
fn number(
    alloc: Global,
    path: &str,
    value: Option<&Value>,
    default: Option<u32>,
    bounds: Bounds,
) -> Result<u32, SettingsError>
    ensures due { Gives result (number_due path.now (option_map (λ v. view v.now) value.entry) default bounds.low
        bounds.high) }
    ensures within { IfOk result (λ n. (bounds.low ≤ n) × (n ≤ bounds.high)) }
{
    match value {
        Some(value) => match value.as_integer() {
            Some(number) => bounded(alloc, path, number, bounds),
            None => Err(SettingsError::NotNumber(KeyPath::new(alloc, path)?)),
        },
        None => match default {
            Some(number) => bounded(alloc, path, i64::from(number), bounds),
            None => Err(SettingsError::Missing(KeyPath::new(alloc, path)?)),
        },
    }
}

/// The number at a key of settings, or its default.
#[tactic(auto, unfolding(crate::specs::Settings::member_due))]
pub(crate) fn member_number(
    alloc: Global,
    table: &Table,
    key: &str,
    default: Option<u32>,
    low: u32,
    high: u32,
) -> Result<u32, SettingsError>
    ensures due { Gives result (member_due key.now (table_view table.now) default low high) }
    ensures within { IfOk result (λ n. (low ≤ n) × (n ≤ high)) }
{
    number(
        alloc,
        key,
        member(table, key),
        default,
        Bounds { low, high },
    )
}

// The value at a key of a table that may be missing.
fn at<'a>(table: Option<&'a Table>, key: &str) -> Option<&'a Value>
    ensures { option_map (λ v. view v.now) result ≡ option_and_then (get_member key.now)
        (option_map (λ t. table_view t.now) table.entry) }
{
    match table {
        Some(table) => member(table, key),
        None => None,
    }
}

// The table of an axis.
#[tactic(auto, unfolding(crate::specs::Settings::axis_table))]
fn axis_table<'a>(table: &'a Table, axis: Axis) -> Option<&'a Table>
    ensures { option_map (λ t. table_view t.now) result ≡ axis_table (axis_word axis) (table_view table.now) }
{
    match inner(table, "watch") {
        Some(watch) => inner(watch, axis_word(axis)),
        None => None,
    }
}

// The number at a key of an axis's table, or its default.
#[tactic(auto, unfolding(crate::specs::Settings::limit_due))]
fn limit(
    alloc: Global,
    axis: Axis,
    table: Option<&Table>,
    key: &str,
    default: u32,
    bounds: Bounds,
) -> Result<u32, SettingsError>
    ensures due { Gives result (limit_due (axis_word axis) key.now (option_map (λ t. table_view t.now) table.entry)
        default bounds.low bounds.high) }
    ensures within { IfOk result (λ n. (bounds.low ≤ n) × (n ≤ bounds.high)) }
{
    let watched = KeyPath::join(alloc, "watch", axis_word(axis))?;
    let path = KeyPath::join(alloc, watched.as_str(), key)?;
    number(alloc, path.as_str(), at(table, key), Some(default), bounds)
}

/// The limits of an axis.
#[tactic(auto, unfolding(crate::specs::Settings::axis_due))]
pub(crate) fn axis_limits(alloc: Global, table: &Table, axis: Axis) -> Result<Limits, SettingsError>
    ensures { Gives result (axis_due (table_view table.now) axis) }
{
    let own = axis_table(table, axis);
    let leave_in = Bounds { low: 2, high: 999 };
    let leave = limit(alloc, axis, own, "leave", LEAVE, leave_in)?;
    let limit_in = Bounds {
        low: leave + 1,
        high: 1000,
    };
    let late = limit(alloc, axis, own, "limit", LIMIT, limit_in)?;
    match Limits::new(leave as u16, late as u16) {
        Some(limits) => Ok(limits),
        None => unreachable!(),
    }
}
