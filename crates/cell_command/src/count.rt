//! The number of entries that a word asks for.
ghost use Rattle.std.specs.Prelude.{◌≡◌, ◌↔◌, ℕ, IfSome, IsNone, true};
ghost use Rattle.std.specs.List.{list_all};
ghost use Rattle.std.specs.Char.{is_ascii_digit};
ghost use Rattle.std.specs.Str.Parse.{without_leading_plus};
ghost use Rattle.cell_command.specs.Counts.{Counts, HasDigits, IsNumber};

/// A number of entries.
#[derive(Clone, Copy, Debug, PartialEq, Eq)]
pub enum Count {
    /// So many.
    Number(u32),
    /// 4294967296 or more, which no journal has.
    Beyond,
}

// A word without the plus before it, if there is one.
fn without_plus(word: &[u8]) -> &[u8]
    ensures { result.now ≡ without_leading_plus word.now }
{
    if !word.is_empty() && word[0] == b'+' {
        &word[1..]
    } else {
        word
    }
}

// Whether a word is of decimal digits, one or more, before which a plus may stand.
fn has_digits(word: &str) -> bool
    ensures { (result ≡ true) ↔ HasDigits word.now }
{
    let digits = without_plus(word.as_bytes());
    !digits.is_empty() && are_digits(digits)
}

// Whether all bytes are decimal digits.
fn are_digits(bytes: &[u8]) -> bool
    ensures { result ≡ list_all is_ascii_digit bytes.now }
{
    bytes.iter().all(|byte| byte.is_ascii_digit())
}

/// Reads a number of entries: decimal digits, before which a plus may stand. It is `None` for any other word.
pub fn read_count(word: &str) -> Option<Count>
    ensures number { IfSome result (λ count. (n : ℕ) × IsNumber word.now n × Counts count n) }
    ensures none { IsNone result → (n : ℕ) → IsNumber word.now n → ⊥ }
{
    match word.parse::<u32>() {
        Ok(number) => Some(Count::Number(number)),
        Err(_) if has_digits(word) => Some(Count::Beyond),
        Err(_) => None,
    }
}
