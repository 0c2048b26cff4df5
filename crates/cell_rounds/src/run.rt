//! A run in rounds over a cell.
ghost use Rattle.std.specs.Prelude.{◌≡◌, ◌<◌, ◌≤◌, ◌+◌, ℕ, IfOk, IfSome, List, MatchResult, None, length, true};
ghost use Rattle.cell_types.specs.declared.words.Entry.{Entry as EntryValue};
ghost use Rattle.cell_types.specs.declared.words.Machine.{Machine as MachineValue};
ghost use Rattle.cell_rules.specs.Legal.{legal};
ghost use Rattle.cell_rules.specs.Safety.{IsSafe};
ghost use Rattle.cell_ledger.specs.New.{AreBlank};
ghost use Rattle.cell_turns.specs.Minds.{Mind, machine_of_watch};
ghost use Rattle.cell_turns.specs.Schedules.{FitAll};
ghost use Rattle.cell_turns.specs.declared.six.Six.{Six as SixValue};
ghost use Rattle.cell_turns.specs.Six.{at};
ghost use Rattle.cell_rounds.specs.Calls.{halted};
ghost use Rattle.cell_rounds.specs.Moves as moves;
ghost use Rattle.cell_rounds.specs.Rest.{IsAtRest, KeepsOn};
ghost use Rattle.cell_rounds.specs.Pauses.{IsPaused};
ghost use Rattle.cell_rounds.specs.Runs.{Controlled, Goes, Halts, Runs};
ghost use Rattle.cell_rounds.specs.Stands.{Between, Closing, Noting, Stand, last_of, place, state};

use crate::desk::{book_acts, serve};
use crate::hands::operate;
use crate::pause::Pause;
use crate::progress::{Halt, Progress};
use crate::settle::LastCommand;
use crate::turning::{are_idle, take_turns};
use cell_ledger::{Blanks, Kept, Run};
use cell_plant::{Keeper, Plant};
use cell_ports::Plan;
use cell_workers::{End, end_at_rest};
use operator_desk::Script;
use plate_book::Book;
use std::alloc::Global;

/// What a run starts with.
#[derive(Drop)]
pub struct Start {
    /// The book from which it goes on.
    pub book: Book,
    pub script: Script,
    /// The command of the book's last entry, if it isn't known whether it went out.
    pub pending: Option<LastCommand>,
}

/// What a run is bound to, beside the limits of its book.
#[derive(Clone, Copy, Debug)]
pub struct Terms<'a> {
    pub plan: &'a Plan,
    /// Whether it goes on where it is stalled.
    pub waits: bool,
}

/// How far a run goes on.
#[derive(Clone, Copy, Debug)]
pub struct Leg<'a> {
    pub terms: Terms<'a>,
    /// How many of its rounds are closed then.
    pub until: u32,
}

/// What a run left: its book, and how it halted.
#[derive(Drop)]
pub struct Outcome {
    pub book: Book,
    pub halt: Halt,
}

// What is done in a round: what was done at the cell is booked, each machine takes a turn, the script's next action is
// done, and what is wanted at the cell gets its answers.
fn act<C: Plant, K: Keeper, R: Run>(
    plant: &mut C,
    keeper: &mut K,
    cell: &mut Progress<R>,
    plan: &Plan,
) -> Result<(), Halt>
    requires { (m : MachineValue) → machine_of_watch (at cell.old.watches m) ≡ m }
    ensures machines { (m : MachineValue) → machine_of_watch (at cell.new.watches m) ≡ m }
    ensures limits { cell.new.kept.limits ≡ cell.old.kept.limits }
    ensures led { Goes C.told K.keeps cell.old.kept.limits plan.now (halted result) (Noting 0) Closing
        (state plant.old keeper.old
        cell.old.kept.entries cell.old.watches cell.old.pending cell.old.script cell.old.lost)
        (state plant.new keeper.new
        cell.new.kept.entries cell.new.watches cell.new.pending cell.new.script cell.new.lost) }
{
    book_acts(plant, keeper, cell)?;
    take_turns(plant, keeper, cell, plan)?;
    operate(plant, keeper, cell)?;
    serve(plant, keeper, cell)
}

// The end that a round sets, which began with so many entries in the journal: one that booked nothing, after which all
// machines are idle, sets one.
fn end_after<R: Run>(before: u32, cell: &Progress<R>, terms: Terms<'_>) -> Option<End>
    ensures ends { IfSome result (λ end. (length cell.now.kept.entries ≡ before) × (last_of cell.now.pending ≡ None)
        × ((minds : SixValue Mind) → FitAll cell.now.watches minds
        → IsAtRest terms.entry.plan.now terms.entry.waits cell.now.kept.entries minds end)) }
    ensures goes_on { result ≡ None → length cell.now.kept.entries ≡ before → last_of cell.now.pending ≡ None
        → (minds : SixValue Mind) → FitAll cell.now.watches minds
        → KeepsOn terms.entry.plan.now terms.entry.waits cell.now.kept.entries minds }
{
    let book = cell.book();
    if book.journal().len() != before || cell.pending.is_some() {
        return None;
    }
    if !are_idle(book, &cell.watches, terms.plan) {
        return None;
    }
    match end_at_rest(book, terms.plan) {
        End::Stalled if terms.waits => None,
        end => Some(end),
    }
}

// A round.
fn take_round<C: Plant, K: Keeper, R: Run>(
    plant: &mut C,
    keeper: &mut K,
    cell: &mut Progress<R>,
    terms: Terms<'_>,
) -> Result<(), Halt>
    requires { (m : MachineValue) → machine_of_watch (at cell.old.watches m) ≡ m }
    ensures machines { (m : MachineValue) → machine_of_watch (at cell.new.watches m) ≡ m }
    ensures limits { cell.new.kept.limits ≡ cell.old.kept.limits }
    ensures led { (rounds : ℕ) (J : List EntryValue) → rounds < terms.entry.plan.now.turns → Runs C.told K.keeps
        (moves.terms_of cell.old.kept.limits terms.entry.plan.now terms.entry.waits) (halted result)
        (place rounds J Between) (place (rounds + 1) cell.old.kept.entries Between)
        (state plant.old keeper.old
        cell.old.kept.entries cell.old.watches cell.old.pending cell.old.script cell.old.lost)
        (state plant.new keeper.new
        cell.new.kept.entries cell.new.watches cell.new.pending cell.new.script cell.new.lost) }
{
    plant.begin_round()?;
    let before = cell.book().journal().len();
    act(plant, keeper, cell, terms.plan)?;
    if let Some(end) = end_after(before, cell, terms) {
        return Err(Halt::End(end));
    }
    plant.end_round()?;
    Ok(())
}

// Rounds from so many that were closed until so many are, unless one ends the run.
fn take_rounds<C: Plant, K: Keeper, R: Run>(
    plant: &mut C,
    keeper: &mut K,
    cell: &mut Progress<R>,
    leg: Leg<'_>,
    closed: u32,
) -> Result<(), Halt>
    requires own { (m : MachineValue) → machine_of_watch (at cell.old.watches m) ≡ m }
    requires rounds { (closed ≤ leg.until) × (leg.until ≤ leg.terms.plan.now.turns) }
    ensures own { (m : MachineValue) → machine_of_watch (at cell.new.watches m) ≡ m }
    ensures limits { cell.new.kept.limits ≡ cell.old.kept.limits }
    ensures led { (J : List EntryValue) → (begun : List EntryValue) × Runs C.told K.keeps
        (moves.terms_of cell.old.kept.limits leg.entry.terms.plan.now leg.entry.terms.waits)
        (halted result) (place closed J Between) (place leg.entry.until begun Between) (state plant.old keeper.old
        cell.old.kept.entries cell.old.watches cell.old.pending cell.old.script cell.old.lost)
        (state plant.new keeper.new
        cell.new.kept.entries cell.new.watches cell.new.pending cell.new.script cell.new.lost) }
{
    for _round in closed..leg.until {
        if let Err(halt) = take_round(plant, keeper, cell, leg.terms) {
            return Err(halt);
        }
    }
    Ok(())
}

/// Goes on with a run that is paused until so many rounds are closed, if it doesn't halt before.
pub fn go_on<C: Plant, K: Keeper, R: Run>(
    alloc: Global,
    plant: &mut C,
    keeper: &mut K,
    pause: Pause,
    blanks: Blanks,
    leg: Leg<'_>,
) -> Result<Pause, Outcome>
    requires parts { 0 < R.parts }
    requires limits { pause.limits ≡ R.limits }
    requires ledgers { AreBlank R.Run blanks }
    requires rounds { (pause.rounds ≤ leg.until) × (leg.until ≤ leg.terms.plan.now.turns) }
    ensures limits { MatchResult result (λ paused. paused.limits ≡ R.limits)
        (λ outcome. outcome.book.limits ≡ R.limits) }
    ensures rounds { IfOk result (λ paused. paused.rounds ≡ leg.entry.until) }
    // Whatever stand the run began at, it is paused further on, or has halted.
    ensures goes_on { (s : Stand C K) → IsPaused C.told K.keeps
        (moves.terms_of R.limits leg.entry.terms.plan.now leg.entry.terms.waits) s plant.old keeper.old pause
        → MatchResult result (λ paused. IsPaused C.told K.keeps
        (moves.terms_of R.limits leg.entry.terms.plan.now leg.entry.terms.waits) s plant.new keeper.new paused)
        (λ outcome. Halts C.told K.keeps
        (moves.terms_of R.limits leg.entry.terms.plan.now leg.entry.terms.waits) s outcome.halt plant.new keeper.new
        outcome.book.entries) }
{
    let Pause {
        book,
        watches,
        script,
        lost,
        pending,
        rounds,
    } = pause;
    let (kept, shares) = Kept::<R>::new(book, blanks);
    let mut cell = Progress {
        kept,
        shares,
        watches,
        entries: Vec::new(alloc),
        script,
        lost,
        pending,
    };
    match take_rounds(plant, keeper, &mut cell, leg, rounds) {
        Ok(()) => Ok(cell.pause(leg.until)),
        Err(halt) => Err(Outcome {
            book: cell.kept.into_book(),
            halt,
        }),
    }
}

// What a run left that went on as long as it may.
fn outcome_of(went: Result<Pause, Outcome>) -> Outcome
    ensures { MatchResult went (λ paused. (result.halt ≡ Halt.End End.TurnLimit)
        × (result.book ≡ record { limits = paused.limits; entries = paused.journal })) (λ outcome. result ≡ outcome) }
{
    match went {
        Ok(paused) => Outcome {
            book: paused.into_book(),
            halt: Halt::End(End::TurnLimit),
        },
        Err(outcome) => outcome,
    }
}

/// Goes on with a run that is paused to its end.
pub fn finish<C: Plant, K: Keeper, R: Run>(
    alloc: Global,
    plant: &mut C,
    keeper: &mut K,
    pause: Pause,
    blanks: Blanks,
    terms: Terms<'_>,
) -> Outcome
    requires parts { 0 < R.parts }
    requires limits { pause.limits ≡ R.limits }
    requires ledgers { AreBlank R.Run blanks }
    requires rounds { pause.rounds ≤ terms.plan.now.turns }
    ensures limits { result.book.limits ≡ R.limits }
    ensures legal { legal R.limits result.book.entries ≡ true }
    ensures safe { IsSafe result.book.entries }
    // Whatever stand the run began at, it has halted so.
    ensures halts { (s : Stand C K) → IsPaused C.told K.keeps
        (moves.terms_of R.limits terms.entry.plan.now terms.entry.waits) s plant.old keeper.old pause
        → Halts C.told K.keeps (moves.terms_of R.limits terms.entry.plan.now terms.entry.waits) s result.halt plant.new
        keeper.new result.book.entries }
{
    let leg = Leg {
        terms,
        until: terms.plan.turns,
    };
    let outcome = outcome_of(go_on::<_, _, R>(alloc, plant, keeper, pause, blanks, leg));
    outcome.book.is_lawful();
    outcome
}

/// Controls a cell in rounds, from a book on: in each what was done at the cell is booked, each machine takes a turn at
/// what it shows, the script's next action is done, and what is wanted at the cell is answered. Each entry is kept
/// before its command goes out. A round that books nothing, and after which all machines are idle, ends the run; but
/// not a stalled one that waits.
pub fn control<C: Plant, K: Keeper, R: Run>(
    alloc: Global,
    plant: &mut C,
    keeper: &mut K,
    start: Start,
    blanks: Blanks,
    terms: Terms<'_>,
) -> Outcome
    requires parts { 0 < R.parts }
    requires limits { start.book.limits ≡ R.limits }
    requires ledgers { AreBlank R.Run blanks }
    ensures limits { result.book.limits ≡ R.limits }
    ensures legal { legal R.limits result.book.entries ≡ true }
    ensures safe { IsSafe result.book.entries }
    ensures controlled { Controlled C.told K.keeps (moves.terms_of R.limits terms.entry.plan.now terms.entry.waits)
        result.halt plant.old keeper.old start.book.entries start.script start.pending plant.new keeper.new
        result.book.entries }
{
    let paused = Pause::start(start, terms.plan);
    finish::<_, _, R>(alloc, plant, keeper, paused, blanks, terms)
}
