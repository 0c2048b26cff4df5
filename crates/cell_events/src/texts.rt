//! Texts that are put together piece by piece.
ghost use Rattle.std.specs.Prelude.{◌≡◌, ◌++◌, OnOk, decimal};

use itoa::Buffer;
use std::alloc::AllocError;

/// Adds words, one behind the other.
pub(crate) fn push_words(text: &mut Vec<u8>, words: &[&str]) -> Result<(), AllocError> {
    for word in words {
        text.extend_from_slice(word.as_bytes())?;
    }
    Ok(())
}

/// Adds a number in decimal digits.
pub(crate) fn push_digits(text: &mut Vec<u8>, number: u64) -> Result<(), AllocError>
    ensures { OnOk result (text.new.items ≡ text.old.items ++ decimal number) }
{
    let mut digits = Buffer::new();
    text.extend_from_slice(digits.format(number).as_bytes())?;
    Ok(())
}
