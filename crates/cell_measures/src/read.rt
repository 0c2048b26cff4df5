//! Durations from a text in TOML.
use crate::durations::Durations;
use cell_types::texts::{pose_word, read_axis};
use cell_types::{Axis, Pose, poses_of};
use std::alloc::{AllocError, Global};
use toml::{Table, Value};

/// The longest that a motion may take.
const MOST: i64 = 1000;

/// Why a file of times can't be used. The text is looked at first, then whether a key is unknown, then the keys'
/// values.
#[derive(Debug, Drop)]
pub enum TimesError {
    /// The text is no TOML.
    NotToml,
    /// There is no such key, or the key should be a table and isn't. Of several it is the first, where the keys of a
    /// table are walked in the order of their bytes and those of a sub-table where its own key stands.
    UnknownKey(String),
    /// The key's value is no whole number. Of several keys that are told so or by `OutOfRange` it is the first, in the
    /// same order.
    NotNumber(String),
    /// The number is outside 0 to 1000.
    OutOfRange(String),
    /// Memory was refused.
    OutOfMemory,
}

impl From<AllocError> for TimesError {
    ghost use Rattle.std.specs.Prelude.{◌≡◌};
    ghost use Rattle.cell_measures.specs.declared.read.TimesError.TheVariants as error;

    ghost from_gives = { λ _ e. e ≡ error.OutOfMemory };

    fn from(_error: AllocError) -> TimesError {
        TimesError::OutOfMemory
    }
}

// Whether a character is printed as an escape: a control character, or one that parts lines or turns the direction of
// text.
fn is_escaped(character: char) -> bool {
    character.is_control()
        || matches!(
            u32::from(character),
            0x061C | 0x200E | 0x200F | 0x2028..=0x202E | 0x2066..=0x2069
        )
}

// Adds a path's characters, some of them as escapes of TOML.
fn push_escaped(line: &mut String, path: &str, alloc: Global) -> Result<(), AllocError> {
    for character in path.chars() {
        if is_escaped(character) {
            let code = u32::from(character);
            let escape = format!(in alloc; "\\u{code:04X}")?;
            line.push_str(escape.as_str())?;
        } else {
            line.push(character)?;
        }
    }
    Ok(())
}

impl TimesError {
    /// The line that tells the error, without its end: `times`, the error's name, and the path of the key, if it names
    /// one; `None` where memory was refused. In the path control characters, also those beyond ASCII, and characters
    /// that part lines or turn the direction of text are escapes of TOML, by four digits.
    pub fn line(&self, alloc: Global) -> Result<Option<String>, AllocError> {
        let (name, path) = match self {
            TimesError::NotToml => ("NotToml", None),
            TimesError::UnknownKey(path) => ("UnknownKey", Some(path.as_str())),
            TimesError::NotNumber(path) => ("NotNumber", Some(path.as_str())),
            TimesError::OutOfRange(path) => ("OutOfRange", Some(path.as_str())),
            TimesError::OutOfMemory => return Ok(None),
        };
        let mut line = format!(in alloc; "times {name}")?;
        if let Some(path) = path {
            line.push_str(" ")?;
            push_escaped(&mut line, path, alloc)?;
        }
        Ok(Some(line))
    }
}

// The poses to which an axis moves; of a belt the names of its motions.
fn motions_of(axis: Axis) -> &'static [Pose] {
    match axis {
        Axis::FeedBelt => &[Pose::ToEnd, Pose::ToTable],
        Axis::DepositBelt => &[Pose::ToEnd],
        _ => poses_of(axis),
    }
}

// The pose of a name to which an axis moves.
fn pose_named(axis: Axis, name: &str) -> Option<Pose> {
    for pose in motions_of(axis) {
        if pose_word(*pose) == name {
            return Some(*pose);
        }
    }
    None
}

// The path of a key below a path.
fn below(alloc: Global, path: &str, key: &str) -> Result<String, AllocError> {
    format!(in alloc; "{path}.{key}")
}

// The first unknown key among the poses of an axis.
fn check_poses(alloc: Global, path: &str, axis: Axis, poses: &Table) -> Result<(), TimesError> {
    for (key, _value) in poses.iter() {
        if pose_named(axis, key.as_str()).is_none() {
            return Err(TimesError::UnknownKey(below(alloc, path, key.as_str())?));
        }
    }
    Ok(())
}

// The first unknown key among the axes.
fn check_axes(alloc: Global, axes: &Table) -> Result<(), TimesError> {
    for (key, value) in axes.iter() {
        let path = below(alloc, "time", key.as_str())?;
        let Some(axis) = read_axis(key.as_str().as_bytes()) else {
            return Err(TimesError::UnknownKey(path));
        };
        if let Some(poses) = value.as_table() {
            check_poses(alloc, path.as_str(), axis, poses)?;
        }
    }
    Ok(())
}

// The first unknown key at the top or below.
fn check_keys(alloc: Global, table: &Table) -> Result<(), TimesError> {
    for (key, value) in table.iter() {
        match value.as_table() {
            Some(axes) if key.as_str() == "time" => check_axes(alloc, axes)?,
            _ => {
                let path = String::from_str(alloc, key.as_str())?;
                return Err(TimesError::UnknownKey(path));
            }
        }
    }
    Ok(())
}

// The number that a value is.
fn number(alloc: Global, path: &str, value: &Value) -> Result<u16, TimesError> {
    match value.as_integer() {
        Some(number) if 0 <= number && number <= MOST => Ok(number as u16),
        Some(_) => Err(TimesError::OutOfRange(String::from_str(alloc, path)?)),
        None => Err(TimesError::NotNumber(String::from_str(alloc, path)?)),
    }
}

// Sets the times of an axis's motions, pose by pose.
fn set_poses(
    alloc: Global,
    durations: &mut Durations,
    path: &str,
    axis: Axis,
    poses: &Table,
) -> Result<(), TimesError> {
    for (key, value) in poses.iter() {
        if let Some(pose) = pose_named(axis, key.as_str()) {
            let path = below(alloc, path, key.as_str())?;
            durations.set(axis, pose, number(alloc, path.as_str(), value)?);
        }
    }
    Ok(())
}

// Sets the times of the axes.
fn set_axes(alloc: Global, durations: &mut Durations, axes: &Table) -> Result<(), TimesError> {
    for (key, value) in axes.iter() {
        let path = below(alloc, "time", key.as_str())?;
        let Some(axis) = read_axis(key.as_str().as_bytes()) else {
            return Err(TimesError::UnknownKey(path));
        };
        match value.as_table() {
            Some(poses) => set_poses(alloc, durations, path.as_str(), axis, poses)?,
            None => durations.set_axis(axis, number(alloc, path.as_str(), value)?),
        }
    }
    Ok(())
}

/// Reads how long motions take, from a text in TOML: in the table `time` by each axis's word a number, which is that of
/// all its motions, or a table with numbers by the words of the poses to which it moves. They are whole numbers from 0
/// to 1000; where none is given a motion takes 1. A text that isn't TOML is told before an unknown key, and that before
/// a key's value.
pub fn read_durations(alloc: Global, text: &[u8]) -> Result<Durations, TimesError> {
    let table = match toml::table_from_slice(alloc, text) {
        Ok(table) => table,
        Err(e) if e.is_memory() => return Err(TimesError::OutOfMemory),
        Err(_) => return Err(TimesError::NotToml),
    };
    check_keys(alloc, &table)?;
    let mut durations = Durations::ONE;
    if let Some(time) = table.get("time") {
        if let Some(axes) = time.as_table() {
            set_axes(alloc, &mut durations, axes)?;
        }
    }
    Ok(durations)
}
