//! Numbers that words of the command line write.
ghost use Rattle.std.specs.Prelude.{IfNone, IfSome};
ghost use Rattle.cell_orders.specs.Numbers.{IsNoNumberIn, IsNumberIn, IsNumberOr, IsOutside};

use cell_command::{Count, read_count};

/// How many threads there are at the most.
const MOST_THREADS: u32 = 64;

/// What is told of a word that writes no number of threads.
pub const WRONG_THREADS: &str = "--threads is a whole number from 1 to 64";

/// The number from one to another that a word writes; `None` where it writes no such number.
pub fn number_in(word: &str, least: u32, most: u32) -> Option<u32>
    ensures known { IfSome result (IsNumberIn least most word.now) }
    ensures wrong { IfNone result (IsNoNumberIn least most word.now) }
{
    match read_count(word) {
        Some(Count::Number(number)) if least <= number && number <= most => Some(number),
        _ => None,
    }
}

/// The number from one to another that a word writes, or the usual one where there is no word; `None` where it writes
/// no such number.
pub fn number_or(word: Option<&str>, usual: u32, least: u32, most: u32) -> Option<u32>
    ensures known { IfSome result (IsNumberOr usual least most word.entry) }
    ensures wrong { IfNone result (IsOutside least most word.entry) }
{
    match word {
        Some(word) => number_in(word, least, most),
        None => Some(usual),
    }
}

/// How many threads do the work: as many as a word says, 1 to 64, or one; `None` where it writes no such number.
pub fn threads_of(word: Option<&str>) -> Option<u32>
    ensures known { IfSome result (IsNumberOr 1 1 64 word.entry) }
    ensures wrong { IfNone result (IsOutside 1 64 word.entry) }
{
    number_or(word, 1, 1, MOST_THREADS)
}
