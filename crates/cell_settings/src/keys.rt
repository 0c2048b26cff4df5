//! Which keys settings have, and the first that is unknown.
ghost use Rattle.std.specs.Prelude.{◌≡◌, Err, Some, is_some, option_and_then, option_map};
ghost use Rattle.toml.specs.Data.{as_table, get_member};
ghost use Rattle.toml.specs.View.{table_view, view};
ghost use Rattle.cell_settings.specs.Keys.{dotted, is_axis_key, is_limit_key, is_number_key, stray, stray_at};
ghost use Rattle.cell_settings.specs.Keys.{stray_axis, stray_limit, stray_top};
ghost use Rattle.cell_settings.specs.Settings.{KnowsKeys};

use crate::error::SettingsError;
use crate::key_path::KeyPath;
use cell_types::texts::read_axis;
use std::alloc::Global;
use toml::{Table, Value};

/// The value at a key.
pub(crate) fn member<'a>(table: &'a Table, key: &str) -> Option<&'a Value>
    ensures { option_map (λ v. view v.now) result ≡ get_member key.now (table_view table.now) }
{
    table.get(key)
}

/// The table at a key.
pub(crate) fn inner<'a>(table: &'a Table, key: &str) -> Option<&'a Table>
    ensures { option_map (λ t. table_view t.now) result
        ≡ option_and_then as_table (get_member key.now (table_view table.now)) }
{
    match member(table, key) {
        Some(value) => value.as_table(),
        None => None,
    }
}

fn is_limit(key: &str) -> bool
    ensures { result ≡ is_limit_key key.now }
{
    key == "leave" || key == "limit"
}

fn is_axis(key: &str) -> bool
    ensures { result ≡ is_axis_key key.now }
{
    read_axis(key.as_bytes()).is_some()
}

fn is_number(key: &str) -> bool
    ensures { result ≡ is_number_key key.now }
{
    key == "plates" || key == "journal_limit" || key == "turns"
}

// The error of an unknown key below a table.
fn unknown(alloc: Global, path: &str, key: &str) -> SettingsError
    ensures { KnowsKeys {X = Unit {0}} (Err result) (Some (dotted path.now key.now)) }
{
    match KeyPath::join(alloc, path, key) {
        Ok(path) => SettingsError::UnknownKey(path),
        Err(_) => SettingsError::OutOfMemory,
    }
}

// The keys of an axis's table.
fn check_limits(alloc: Global, path: &str, table: &Table) -> Result<(), SettingsError>
    ensures { KnowsKeys result (stray_limit path.now (table_view table.now)) }
{
    for (key, _value) in table.iter() {
        if !is_limit(key.as_str()) {
            return Err(unknown(alloc, path, key.as_str()));
        }
    }
    Ok(())
}

// A key of the table of axes.
fn check_axis(alloc: Global, key: &str, value: &Value) -> Result<(), SettingsError>
    ensures { KnowsKeys result (stray_at key.now (view value.now)) }
{
    if !is_axis(key) {
        return Err(unknown(alloc, "watch", key));
    }
    let path = match KeyPath::join(alloc, "watch", key) {
        Ok(path) => path,
        Err(_) => return Err(SettingsError::OutOfMemory),
    };
    match value.as_table() {
        Some(table) => check_limits(alloc, path.as_str(), table),
        None => Err(SettingsError::UnknownKey(path)),
    }
}

// The keys of the table of axes.
fn check_axes(alloc: Global, table: &Table) -> Result<(), SettingsError>
    ensures { KnowsKeys result (stray_axis (table_view table.now)) }
{
    for (key, value) in table.iter() {
        match check_axis(alloc, key.as_str(), value) {
            Ok(()) => {}
            Err(e) => return Err(e),
        }
    }
    Ok(())
}

// A key at the top.
fn check_key(alloc: Global, key: &str, value: &Value) -> Result<(), SettingsError>
    ensures { KnowsKeys result (stray_top key.now (view value.now)) }
{
    if key == "watch" {
        match value.as_table() {
            Some(table) => check_axes(alloc, table),
            None => Err(SettingsError::UnknownKey(KeyPath::new(alloc, key)?)),
        }
    } else if is_number(key) {
        Ok(())
    } else {
        Err(SettingsError::UnknownKey(KeyPath::new(alloc, key)?))
    }
}

/// Looks for the first unknown key.
pub(crate) fn check_keys(alloc: Global, table: &Table) -> Result<(), SettingsError>
    ensures { KnowsKeys result (stray (table_view table.now)) }
{
    for (key, value) in table.iter() {
        match check_key(alloc, key.as_str(), value) {
            Ok(()) => {}
            Err(e) => return Err(e),
        }
    }
    Ok(())
}
