//! Why settings can't be used.
ghost use Rattle.std.specs.Prelude.{◌≡◌};
ghost use Rattle.cell_settings.specs.declared.error.SettingsError.TheVariants.{OutOfMemory};

use crate::key_path::KeyPath;
use std::alloc::AllocError;
use thiserror::Error;

/// Why settings can't be used. The first that applies is told, in this order; of the last three the first of the keys
/// `plates`, `journal_limit`, `turns` and, axis by axis, `leave` and `limit`. The rules are this project's profile.
#[derive(Debug, Drop, Error)]
pub enum SettingsError {
    /// The text is no TOML.
    #[error("the settings are no TOML")]
    NotToml,
    /// The settings have no such key, or the key should be a table and isn't. Of several it is the first, where the
    /// keys of a table are walked in the order of their bytes and those of a sub-table where its own key stands.
    #[error("unknown key {0}")]
    UnknownKey(KeyPath),
    /// The key has to be there.
    #[error("{0} is missing")]
    Missing(KeyPath),
    /// The key's value is no whole number.
    #[error("{0} is no whole number")]
    NotNumber(KeyPath),
    /// The number, written or by default, is outside its range.
    #[error("{0} is out of range")]
    OutOfRange(KeyPath),
    /// Memory was refused.
    #[error("out of memory")]
    OutOfMemory,
}

impl From<AllocError> for SettingsError {
    ghost from_gives = { λ _ e. e ≡ OutOfMemory };

    fn from(_error: AllocError) -> SettingsError {
        SettingsError::OutOfMemory
    }
}
