//! Where a key stands in settings.
ghost use Rattle.std.specs.Prelude.{◌≡◌, IfOk, Some};
ghost use Rattle.cell_settings.specs.Keys.{dotted};

use std::alloc::{AllocError, Global};
use std::fmt;
use std::marker::Model;

/// The keys that lead to a value, joined by dots, as `watch.press_one.limit`. Contracts see a path as this text.
#[derive(Debug, Drop)]
pub struct KeyPath {
    text: String,
}

impl Model for KeyPath {
    ghost use Rattle.std.specs.Prelude.{List, ℕ, string_bytes};

    ghost Value = { List ℕ };

    ghost view = { λ p. string_bytes p.text };
}

impl KeyPath {
    /// A path of one key.
    pub fn new(alloc: Global, key: &str) -> Result<KeyPath, AllocError>
        ensures { IfOk result (λ p. p ≡ key.now) }
    {
        Ok(KeyPath {
            text: String::from_str(alloc, key)?,
        })
    }

    /// The path of one key more.
    pub fn join(alloc: Global, path: &str, key: &str) -> Result<KeyPath, AllocError>
        ensures { IfOk result (λ p. p ≡ dotted path.now key.now) }
    {
        let mut text = String::from_str(alloc, path)?;
        text.push_str(".")?;
        text.push_str(key)?;
        Ok(KeyPath { text })
    }

    /// The keys, joined by dots.
    pub fn as_str(&self) -> &str
        ensures { result.now ≡ self.now }
    {
        self.text.as_str()
    }
}

impl fmt::Display for KeyPath {
    ghost output = { λ p. Some p };

    fn fmt<W: fmt::Write>(&self, f: &mut fmt::Formatter<W>) -> fmt::Result {
        f.write_str(self.text.as_str())
    }
}
