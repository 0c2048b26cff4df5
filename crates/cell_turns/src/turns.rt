//! One turn of a machine, in its steps:
//! 1. `expect`: what the book says that the machine has to show;
//! 2. `observe`: both watches note the reading, and what they say is found; where the turn is refused, they are put
//!    back;
//! 3. `decide`: the first of nine points that applies;
//! 4. `book`: the entry of what was decided is booked and listed;
//! 5. `remember`: what the watch keeps of the turn;
//! 6. `send`: the command of the entry, once the book's lock is free.
ghost use Rattle.std.specs.Prelude.{◌≡◌, IfOk, IfErr, OnErr, vec_len, vec_capacity};
ghost use Rattle.cell_turns.specs.Minds.{machine_of_watch};
ghost use Rattle.cell_turns.specs.Turns.{IsExcused, TurnBooks, Turned};

pub(crate) mod book;
pub mod decide;
pub mod expect;
mod observe;
pub(crate) mod remember;
pub mod send;

use crate::Watch;
use cell_diagnosis::Reading;
use cell_ledger::{Kept, Run, Shares};
use cell_machines::laws::{useful_is_bookable, useful_is_own};
use cell_ports::Plan;
use cell_types::{Command, Entry, Machine, command_of};
use plate_book::Refusal;

/// Why a turn did nothing.
#[derive(Clone, Copy, PartialEq, Eq, Debug)]
pub enum TurnError {
    /// The list of entries can't take one more.
    OutOfMemory,
    /// The book refuses the entry: `JournalFull`, or `PlateLimit` for a plate that would be admitted.
    Refused(Refusal),
}

/// What a turn goes by: its machine, the reading that it notes, and the plan.
#[derive(Clone, Copy, Debug)]
pub struct TurnAt<'a> {
    pub machine: Machine,
    pub reading: Option<Reading>,
    pub plan: &'a Plan,
}

// One turn of a machine that is a constant at each call.
#[inline(always)]
fn note_and_book<R: Run>(
    machine: Machine,
    turn: &TurnAt<'_>,
    kept: &mut Kept<R>,
    shares: &mut Shares<R>,
    watch: &mut Watch,
    entries: &mut Vec<Entry>,
) -> Result<Option<Entry>, TurnError>
    requires constant { turn.now.machine ≡ machine }
    requires watch { machine_of_watch watch.old ≡ turn.now.machine }
    ensures booked { IfOk result (λ e. TurnBooks turn.now.machine turn.now.plan.now turn.now.reading e kept.old kept.new
        entries.old.items entries.new.items shares.old shares.new watch.old watch.new) }
    ensures machine { machine_of_watch watch.new ≡ turn.now.machine }
    ensures excused { IfErr result (λ e. IsExcused kept.old.limits kept.old.entries turn.now.machine turn.now.plan.now
        turn.now.reading watch.old e) }
    ensures memory { result ≡ Err TurnError.OutOfMemory → vec_capacity entries.old ≡ vec_len entries.old }
    ensures unchanged { OnErr result ((entries.new.items ≡ entries.old.items) × (kept.new ≡ kept.old)
        × (shares.new ≡ shares.old) × (watch.new ≡ watch.old)) }
{
    kept.is_lawful();
    useful_is_own();
    useful_is_bookable();
    let book = kept.book();
    let before = *watch;
    let findings = observe::notice(machine, watch, book, turn.reading, turn.plan);
    let anew = remember::begins_anew(machine, book, &before);
    let ruling = decide::decide(machine, book, &before, &findings);
    let entry = match book::entry_of(ruling, machine, &before, book, turn.plan) {
        Ok(entry) => entry,
        Err(refusal) => {
            *watch = before;
            if entries.reserve(1).is_err() {
                return Err(TurnError::OutOfMemory);
            }
            return Err(TurnError::Refused(refusal));
        }
    };
    if book::make_room(entries, &entry).is_err() {
        *watch = before;
        return Err(TurnError::OutOfMemory);
    }
    let booked = entry;
    if let Err(refusal) = book::book_entry(kept, shares, entries, entry) {
        *watch = before;
        return Err(TurnError::Refused(refusal));
    }
    let memory = remember::memory_after(
        machine,
        &before,
        kept.book(),
        findings.sign,
        anew,
        &booked,
    );
    remember::keep(machine, watch, anew, &booked, memory);
    Ok(booked)
}

/// One turn of a machine: it notes the reading and books at most one entry, which it answers. Where it answers an
/// error, nothing has changed. Each machine is told apart here and nowhere below, so that a turn of each is compiled by
/// itself.
pub fn book_turn<R: Run>(
    turn: &TurnAt<'_>,
    kept: &mut Kept<R>,
    shares: &mut Shares<R>,
    watch: &mut Watch,
    entries: &mut Vec<Entry>,
) -> Result<Option<Entry>, TurnError>
    requires { machine_of_watch watch.old ≡ turn.now.machine }
    ensures booked { IfOk result (λ e. TurnBooks turn.now.machine turn.now.plan.now turn.now.reading e kept.old kept.new
        entries.old.items entries.new.items shares.old shares.new watch.old watch.new) }
    ensures machine { machine_of_watch watch.new ≡ turn.now.machine }
    ensures excused { IfErr result (λ e. IsExcused kept.old.limits kept.old.entries turn.now.machine turn.now.plan.now
        turn.now.reading watch.old e) }
    ensures memory { result ≡ Err TurnError.OutOfMemory → vec_capacity entries.old ≡ vec_len entries.old }
    ensures unchanged { OnErr result ((entries.new.items ≡ entries.old.items) × (kept.new ≡ kept.old)
        × (shares.new ≡ shares.old) × (watch.new ≡ watch.old)) }
{
    match turn.machine {
        Machine::Feed => note_and_book(Machine::Feed, turn, kept, shares, watch, entries),
        Machine::Table => note_and_book(Machine::Table, turn, kept, shares, watch, entries),
        Machine::Robot => note_and_book(Machine::Robot, turn, kept, shares, watch, entries),
        Machine::Press1 => note_and_book(Machine::Press1, turn, kept, shares, watch, entries),
        Machine::Press2 => note_and_book(Machine::Press2, turn, kept, shares, watch, entries),
        Machine::Deposit => note_and_book(Machine::Deposit, turn, kept, shares, watch, entries),
    }
}

/// One turn of a machine under the book's lock. It notes the reading in the machine's watches and books at most one
/// entry, that of the first of the nine points that applies, with the verdicts of all readings so far; it lists the
/// entry and answers its command, which is to be sent once the lock is free.
///
/// `OutOfMemory` comes before all else where an entry is wanted and the list can't take one more; a turn that wants
/// none takes no memory, and so can't find it wanting. `Refused` comes with `JournalFull`, or with `PlateLimit` where a
/// plate would be admitted. After an error nothing has changed.
pub fn turn<R: Run>(
    machine: Machine,
    kept: &mut Kept<R>,
    shares: &mut Shares<R>,
    watch: &mut Watch,
    reading: Option<Reading>,
    entries: &mut Vec<Entry>,
    plan: &Plan,
) -> Result<Option<Command>, TurnError>
    requires { machine_of_watch watch.old ≡ machine }
    ensures turned { IfOk result (λ c. Turned machine plan.now reading c kept.old kept.new entries.old.items
        entries.new.items shares.old shares.new watch.old watch.new) }
    ensures machine { machine_of_watch watch.new ≡ machine }
    ensures excused { IfErr result (λ e. IsExcused kept.old.limits kept.old.entries machine plan.now reading watch.old
        e) }
    ensures memory { result ≡ Err TurnError.OutOfMemory → vec_capacity entries.old ≡ vec_len entries.old }
    ensures unchanged { OnErr result ((entries.new.items ≡ entries.old.items) × (kept.new ≡ kept.old)
        × (shares.new ≡ shares.old) × (watch.new ≡ watch.old)) }
{
    let turn = TurnAt {
        machine,
        reading,
        plan,
    };
    match book_turn(&turn, kept, shares, watch, entries)? {
        Some(entry) => Ok(command_of(entry)),
        None => Ok(None),
    }
}
