//! Numbers and plates as texts.
ghost use Rattle.std.specs.Prelude.{◌≡◌, ◌≤◌, ◌<◌, length, true, Some, None};
ghost use Rattle.cell_types.specs.Numbers.{plate_of, number_to, is_number, all_digits, value_of};

use crate::{MAX_PLATES, PlateId};

/// Whether all bytes are decimal digits.
fn all_digits(bytes: &[u8]) -> bool
    ensures { result ≡ all_digits bytes.now }
{
    for byte in bytes {
        if !byte.is_ascii_digit() {
            return false;
        }
    }
    true
}

/// The number that decimal digits write.
fn value_of(bytes: &[u8]) -> u32
    requires short { length bytes.now ≤ 7 }
    requires digits { all_digits bytes.now ≡ true }
    ensures { result ≡ value_of bytes.now }
{
    let mut value: u32 = 0;
    for byte in bytes {
        value = value * 10 + u32::from(*byte - b'0');
    }
    value
}

/// Whether these are one to seven decimal digits that don't begin with a zero.
fn is_number(bytes: &[u8]) -> bool
    ensures { result ≡ is_number bytes.now }
{
    !bytes.is_empty() && bytes.len() <= 7 && bytes[0] != b'0' && all_digits(bytes)
}

/// The number from 1 to `most` that these bytes write in decimal digits, with no sign and no leading zero; `None` for
/// any other bytes, and for more than seven digits.
pub fn read_number(most: u32, bytes: &[u8]) -> Option<u32>
    ensures { result ≡ number_to most bytes.now }
{
    if !is_number(bytes) {
        return None;
    }
    let value = value_of(bytes);
    if 1 <= value && value <= most {
        Some(value)
    } else {
        None
    }
}

/// The plate whose number these bytes write in decimal digits, with no sign and no leading zero; `None` for any other
/// bytes, and outside 1..=100,000.
pub fn read_plate(bytes: &[u8]) -> Option<PlateId>
    ensures { result ≡ plate_of bytes.now }
{
    match read_number(MAX_PLATES, bytes) {
        Some(number) => PlateId::new(number),
        None => None,
    }
}
