//! What a sweep is asked for, by the words of its command but for its kinds of faults.
ghost use Rattle.std.specs.Prelude.{◌≡◌, IfErr, IfNone, IfOk, IfSome};
ghost use Rattle.cellctl.specs.Swept.{AreMotions, Asks, AsksNothing, Chooses, ChoosesNone, Draws, DrawsNone, IsNoCount};
ghost use Rattle.cellctl.specs.Swept.{IsNoPart, IsPart, IsPartAsked, IsPartless, WriteNoPart, WritePart, is_crowded};

use cell_command::Sweeping;
use cell_orders::{WRONG_THREADS, number_in, number_or, threads_of};
use cell_sweep::{Choice, Part};
use cell_types::number::read_number;

/// The greatest number of motions, which is that of the script of faults.
const MOST_MOTIONS: u32 = 1_000_000;

/// The greatest number of runs with faults that are drawn.
const MOST_RUNS: u32 = 1_000_000;

/// How many faults are drawn for a run, where no number is given, and at the most.
const USUAL_FAULTS: u32 = 2;

const MOST_FAULTS: u32 = 100;

/// The number by which faults are drawn, where none is given.
const USUAL_SEED: u32 = 1;

/// The greatest number of parts.
const MOST_PARTS: u32 = 1_000_000;

/// What a sweep is asked for: how many motions of each axis, which faults its runs have, which part of the runs is
/// made, and on how many threads.
#[derive(Clone, Copy, Debug)]
pub(crate) struct Asked {
    pub(crate) motions: Option<u32>,
    pub(crate) choice: Choice,
    pub(crate) part: Part,
    pub(crate) threads: u32,
}

// How many motions a word asks for, if there is one; `None` where it is no such number.
fn motions_of(word: Option<&str>) -> Option<Option<u32>>
    ensures known { IfSome result (AreMotions word.entry) }
    ensures wrong { IfNone result (IsNoCount word.entry) }
{
    match word {
        Some(word) => Some(Some(read_number(MOST_MOTIONS, word.as_bytes())?)),
        None => Some(None),
    }
}

// So many runs as a word says, with faults that are drawn, or why the words for them are wrong.
fn drawn_of(word: &str, sweeping: &Sweeping<'_>) -> Result<Choice, &'static str>
    ensures known { IfOk result (Draws word.now sweeping.now) }
    ensures wrong { IfErr result (λ _. DrawsNone word.now sweeping.now) }
{
    let Some(runs) = number_in(word, 1, MOST_RUNS) else {
        return Err("--random is a whole number from 1 to 1000000");
    };
    let Some(faults) = number_or(sweeping.faults, USUAL_FAULTS, 1, MOST_FAULTS) else {
        return Err("--faults is a whole number from 1 to 100");
    };
    let Some(seed) = number_or(sweeping.seed, USUAL_SEED, 0, u32::MAX) else {
        return Err("--seed is a whole number from 0 to 4294967295");
    };
    Ok(Choice::Random { runs, faults, seed })
}

// Which faults the runs have, or why the words for that are wrong.
fn choice_of(sweeping: &Sweeping<'_>) -> Result<Choice, &'static str>
    ensures known { IfOk result (Chooses sweeping.now.random sweeping.now) }
    ensures wrong { IfErr result (λ _. ChoosesNone sweeping.now.random sweeping.now) }
{
    match sweeping.random {
        Some(_) if sweeping.pairs => Err("of --pairs and --random one alone can be given"),
        Some(word) => drawn_of(word, sweeping),
        None if sweeping.seed.is_some() => Err("--seed goes with --random"),
        None if sweeping.faults.is_some() => Err("--faults goes with --random"),
        None if sweeping.pairs => Ok(Choice::Pairs),
        None => Ok(Choice::Single),
    }
}

// The part that two words write, its number and how many parts there are; `None` where they write none.
#[tactic(auto, using(crate::proofs::Parts::no_part))]
fn part_by(number: &str, count: &str) -> Option<Part>
    ensures known { IfSome result (WritePart number.now count.now) }
    ensures wrong { IfNone result (WriteNoPart number.now count.now) }
{
    let count = number_in(count, 1, MOST_PARTS)?;
    let number = number_in(number, 1, count)?;
    Some(Part { number, count })
}

// The part that a word writes; `None` where it writes none.
fn part_in(word: &str) -> Option<Part>
    ensures known { IfSome result (IsPart word.now) }
    ensures wrong { IfNone result (IsPartless word.now) }
{
    let (number, count) = word.split_once('/')?;
    part_by(number, count)
}

// Which part of the runs is made: the one that a word writes, if there is one, or all; `None` where it writes none.
fn part_of(word: Option<&str>) -> Option<Part>
    ensures known { IfSome result (IsPartAsked word.entry) }
    ensures wrong { IfNone result (IsNoPart word.entry) }
{
    match word {
        Some(word) => part_in(word),
        None => Some(Part::WHOLE),
    }
}

// Whether a picture is asked for, and something with which it doesn't go.
fn is_crowded(sweeping: &Sweeping<'_>) -> bool
    ensures { result ≡ is_crowded sweeping.now }
{
    let is_parted = sweeping.random.is_some() || sweeping.part.is_some();
    sweeping.svg && (sweeping.csv || sweeping.pairs || is_parted)
}

/// What the words ask for, or why they are wrong.
pub(crate) fn asked_of(sweeping: &Sweeping<'_>) -> Result<Asked, &'static str>
    ensures known { IfOk result (Asks sweeping.now) }
    ensures wrong { IfErr result (λ _. AsksNothing sweeping.now) }
{
    if is_crowded(sweeping) {
        return Err("--svg goes with neither --csv, --pairs, --random nor --part");
    }
    let Some(motions) = motions_of(sweeping.motions) else {
        return Err("N is a whole number from 1 to 1000000");
    };
    let choice = match choice_of(sweeping) {
        Ok(choice) => choice,
        Err(why) => return Err(why),
    };
    let Some(part) = part_of(sweeping.part) else {
        return Err("--part is K/N, two whole numbers of which K is 1 to N and N 1 to 1000000");
    };
    let Some(threads) = threads_of(sweeping.threads) else {
        return Err(WRONG_THREADS);
    };
    Ok(Asked {
        motions,
        choice,
        part,
        threads,
    })
}
