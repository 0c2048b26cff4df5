//! What is asked of every order of events, by the words of its command.
ghost use Rattle.std.specs.Prelude.{◌≡◌, IfNone, IfSome};
ghost use Rattle.cell_orders.specs.Asked.{AreMachines, HasNoMachine, is_named, named, names_machine};
ghost use Rattle.cell_orders.specs.Numbers.{IsNumberOr, IsOutside};

use crate::numbers::number_or;
use cell_types::Machine;
use cell_types::texts::{machine_word, read_machine};

/// How many states are seen at the most, where no number is given.
const USUAL_LIMIT: u32 = 2_000_000;

/// How many states are seen at the most: as many as a word says, if there is one; `None` where it writes no such
/// number.
pub(crate) fn limit_of(word: Option<&str>) -> Option<u32>
    ensures known { IfSome result (IsNumberOr 2000000 1 4294967295 word.entry) }
    ensures wrong { IfNone result (IsOutside 1 4294967295 word.entry) }
{
    number_or(word, USUAL_LIMIT, 1, u32::MAX)
}

// Whether a word names a machine.
fn names_machine(word: &str) -> bool
    ensures { result ≡ names_machine word.now }
{
    read_machine(word.as_bytes()).is_some()
}

/// The first of the words that names no machine, if there is one.
pub(crate) fn stranger<'a>(words: &[&'a str]) -> Option<&'a str>
    ensures none { IfNone result (AreMachines words.now) }
    ensures some { IfSome result (λ _. HasNoMachine words.now) }
{
    for word in words {
        if !names_machine(word) {
            return Some(word);
        }
    }
    None
}

// Whether one of the words is a machine's.
fn is_named(words: &[&str], machine: Machine) -> bool
    ensures { result ≡ is_named words.now machine }
{
    words.iter().any(|word| *word == machine_word(machine))
}

/// Of each machine, in their order, whether one of the words is its own.
pub(crate) fn named(words: &[&str]) -> [bool; 6]
    ensures { result ≡ named words.now }
{
    [
        is_named(words, Machine::Feed),
        is_named(words, Machine::Table),
        is_named(words, Machine::Robot),
        is_named(words, Machine::Press1),
        is_named(words, Machine::Press2),
        is_named(words, Machine::Deposit),
    ]
}
