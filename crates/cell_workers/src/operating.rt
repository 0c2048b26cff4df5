//! The operator's worker.
ghost use Rattle.std.specs.Prelude.{◌≡◌, ◌≢◌, ◌<◌, ◌⊎◌, ◌++◌, ◌∷◌, [], List, true, IfOk, IfErr, OnOk, OnErr, IfSome};
ghost use Rattle.std.specs.Prelude.{IfNone, All, Some, IsSome, is_some, vec_capacity, vec_len};
ghost use Rattle.cell_types.specs.Entries.{actor_of};
ghost use Rattle.cell_types.specs.declared.words.Actor.TheVariants as actors;
ghost use Rattle.cell_rules.specs.Views.{count_of};
ghost use Rattle.cell_rules.specs.Legal.{first_of};
ghost use Rattle.operator_desk.specs.declared.line.Line.{Line};
ghost use Rattle.cell_ledger.specs.Counts.{plus, count_one};
ghost use Rattle.cell_ledger.specs.Held.{Held, held};
ghost use Rattle.cell_ports.specs.Logs.{ActLog, after_hand};
ghost use Rattle.cell_turns.specs.Acts.{act_of};
ghost use Rattle.cell_workers.specs.Operating.{DidHands, Followed, Follows, HandsEnded, IsDue, RefusedAs};
ghost use Rattle.cell_workers.specs.Working.{Serves, Stands};

use crate::ends::End;
use crate::hall::{Ended, Hall, Room};
use crate::working::{Worked, finish, lose, wait_for_more};
use crate::{OperatorPort, Plan};
use cell_ledger::{Run, Shares};
use cell_turns::hands::{act_of, do_by_hand};
use cell_types::Entry;
use operator_desk::{Script, entry_of};
use plate_book::Refusal;
use std::alloc::Global;
use std::sync::Wait;

/// The operator's place among the workers.
const OPERATOR: usize = 6;

/// What the operator's worker holds: his entries, and his shares, which count them.
#[derive(Drop)]
pub struct Bookings<R: Run> {
    pub entries: Vec<Entry>,
    pub shares: Shares<R>,
}

impl<R: Run> Hall<R> {
    /// Books an entry of the operator and lists it. A refusal ends his worker, as `Memory` or `Full` with the run, or
    /// for any other refusal as `PortLost`.
    fn take(&mut self, bookings: &mut Bookings<R>, entry: Entry) -> Result<(), Ended>
        requires { actor_of entry ≡ actors.Operator }
        ensures entries { OnOk result (bookings.new.entries.items ≡ bookings.old.entries.items ++ entry ∷ []) }
        ensures shares { OnOk result (bookings.new.shares ≡ held bookings.old.shares.parts
            (plus bookings.old.shares.counts (count_one entry))) }
        ensures unchanged { OnErr result ((bookings.new.entries.items ≡ bookings.old.entries.items)
            × (bookings.new.shares ≡ bookings.old.shares)) }
        ensures refused { vec_len bookings.old.entries < vec_capacity bookings.old.entries
            → IfErr result (λ ended. RefusedAs R.limits entry ended) }
        ensures allowed { is_some (first_of self.old.kept.limits self.old.kept.entries entry) ≢ true
            → IfErr result (λ ended. ended ≡ Ended.Memory) }
        ensures kept { OnErr result (self.new.kept ≡ self.old.kept) }
        ensures ends { IfErr result (λ ended. ended ≢ Ended.PortLost → IsSome self.new.end) }
        ensures stands { Stands self.old.end self.new.end }
    {
        self.kept.is_lawful();
        if bookings.entries.reserve(1).is_err() {
            self.finish(End::Memory);
            return Err(Ended::Memory);
        }
        let booked = entry;
        match self.book(&mut bookings.shares, entry) {
            Ok(()) => {
                bookings.entries.push_reserved(booked);
                Ok(())
            }
            Err(Refusal::JournalFull) => {
                self.finish(End::Full);
                Err(Ended::Full)
            }
            Err(Refusal::OutOfMemory) => {
                self.finish(End::Memory);
                Err(Ended::Memory)
            }
            Err(_) => Err(Ended::PortLost),
        }
    }
}

/// Takes the lock, books an entry and wakes all, where it was booked or ended the run.
fn locked_booking<R: Run, W: Wait>(
    rt: &W,
    room: &Room<R>,
    bookings: &mut Bookings<R>,
    entry: Entry,
) -> Result<(), Ended>
    requires { actor_of entry ≡ actors.Operator }
    ensures entries { OnOk result (bookings.new.entries.items ≡ bookings.old.entries.items ++ entry ∷ []) }
    ensures shares { OnOk result (bookings.new.shares ≡ held bookings.old.shares.parts
        (plus bookings.old.shares.counts (count_one entry))) }
    ensures unchanged { OnErr result ((bookings.new.entries.items ≡ bookings.old.entries.items)
        × (bookings.new.shares ≡ bookings.old.shares)) }
    ensures refused { vec_len bookings.old.entries < vec_capacity bookings.old.entries
        → IfErr result (λ ended. RefusedAs R.limits entry ended) }
{
    let taken = room.hall.lock(rt).take(bookings, entry);
    if taken != Err(Ended::PortLost) {
        room.moved.notify_all();
    }
    taken
}

/// Takes the lock and asks the script. It answers the next entry, if it wants an act by hand; one that wants none, a
/// stop or an expected plate, is booked at once. Where there is nothing to do he waits until the journal is longer or
/// an end is set.
fn choose<R: Run, W: Wait>(
    rt: &W,
    room: &Room<R>,
    bookings: &mut Bookings<R>,
    script: &mut Script,
    plan: &Plan,
) -> Result<Option<Entry>, Ended>
    ensures his { IfOk result (λ o. IfSome o (λ e. actor_of e ≡ actors.Operator)) }
    ensures wanted { IfOk result (λ o. IfSome o (λ e. is_some (act_of e) ≡ true)) }
    ensures due { IfOk result (λ o. IfSome o (λ e. IsDue R.limits script.old e)) }
    ensures same { IfOk result (λ o. IfSome o (λ e. script.new ≡ script.old)) }
    ensures ended { IfErr result (λ ended. (ended ≡ Ended.Told) ⊎ (ended ≡ Ended.Memory)) }
    ensures follows { (lines : List Line) → Followed R.limits lines bookings.old.entries.items script.old
        → Followed R.limits lines bookings.new.entries.items script.new }
    ensures serves { (start : Held) → Serves actors.Operator start bookings.old.entries.items bookings.old.shares
        → Serves actors.Operator start bookings.new.entries.items bookings.new.shares }
    ensures did { (before now : ActLog) → DidHands before now bookings.old.entries.items
        → DidHands before now bookings.new.entries.items }
{
    let mut hall = room.hall.lock(rt);
    if hall.end.is_some() {
        return Err(Ended::Told);
    }
    hall.kept.is_lawful();
    let Some(action) = script.next(hall.kept.book()) else {
        if hall.rest(OPERATOR, plan) {
            room.moved.notify_all();
        }
        wait_for_more(rt, room, hall);
        return Ok(None);
    };
    let entry = entry_of(action);
    if act_of(&entry).is_some() {
        return Ok(Some(entry));
    }
    match hall.take(bookings, entry) {
        Ok(()) => {
            drop(hall);
            room.moved.notify_all();
            script.done();
            Ok(None)
        }
        // The script's entry is allowed, so the list or the run was refused memory, and the end is set.
        Err(ended) => {
            drop(hall);
            room.moved.notify_all();
            Err(ended)
        }
    }
}

/// Does by hand what an entry wants, without the lock, and books it. The list's place is reserved before the act.
fn hand_over<O: OperatorPort, R: Run, W: Wait>(
    rt: &W,
    operator: &mut O,
    room: &Room<R>,
    bookings: &mut Bookings<R>,
    entry: Entry,
) -> Result<(), Ended>
    requires actor { actor_of entry ≡ actors.Operator }
    requires wanted { is_some (act_of entry) ≡ true }
    ensures still { O.tells operator.new ≡ true → O.tells operator.old ≡ true }
    ensures entries { OnOk result (bookings.new.entries.items ≡ bookings.old.entries.items ++ entry ∷ []) }
    ensures shares { OnOk result (bookings.new.shares ≡ held bookings.old.shares.parts
        (plus bookings.old.shares.counts (count_one entry))) }
    ensures done { OnOk result (O.tells operator.new ≡ true
        → O.log operator.new ≡ after_hand (O.log operator.old) (act_of entry) true) }
    ensures unchanged { OnErr result ((bookings.new.entries.items ≡ bookings.old.entries.items)
        × (bookings.new.shares ≡ bookings.old.shares)) }
    ensures turns { result ≢ Err Ended.Turns }
    ensures ended { IfErr result (λ ended. O.tells operator.new ≡ true → (lines : List Line)
        → IsDue R.limits lines entry → HandsEnded R.limits lines (O.log operator.old) (O.log operator.new) [] ended) }
{
    if bookings.entries.reserve(1).is_err() {
        finish(rt, room, End::Memory);
        return Err(Ended::Memory);
    }
    let Ok(()) = do_by_hand(operator, &entry) else {
        return Err(Ended::PortLost);
    };
    match locked_booking(rt, room, bookings, entry) {
        Ok(()) => Ok(()),
        Err(ended) => Err(ended),
    }
}

/// Does what the script says next. It answers why the worker ends, if it does.
fn operate<O: OperatorPort, R: Run, W: Wait>(
    rt: &W,
    operator: &mut O,
    room: &Room<R>,
    bookings: &mut Bookings<R>,
    script: &mut Script,
    plan: &Plan,
) -> Option<Ended>
    ensures still { O.tells operator.new ≡ true → O.tells operator.old ≡ true }
    ensures serves { (start : Held) → Serves actors.Operator start bookings.old.entries.items bookings.old.shares
        → Serves actors.Operator start bookings.new.entries.items bookings.new.shares }
    ensures did { IfNone result (O.tells operator.new ≡ true → (before : ActLog)
        → DidHands before (O.log operator.old) bookings.old.entries.items
        → DidHands before (O.log operator.new) bookings.new.entries.items) }
    ensures follows { (lines : List Line) → Followed R.limits lines bookings.old.entries.items script.old
        → Followed R.limits lines bookings.new.entries.items script.new }
    ensures turns { result ≢ Some Ended.Turns }
    ensures ended { IfSome result (λ ended. O.tells operator.new ≡ true → (before : ActLog)
        → DidHands before (O.log operator.old) bookings.old.entries.items → (lines : List Line)
        → Followed R.limits lines bookings.old.entries.items script.old
        → HandsEnded R.limits lines before (O.log operator.new) bookings.new.entries.items ended) }
{
    let entry = match choose(rt, room, bookings, script, plan) {
        Ok(Some(entry)) => entry,
        Ok(None) => return None,
        Err(ended) => return Some(ended),
    };
    match hand_over(rt, operator, room, bookings, entry) {
        Ok(()) => {
            script.done();
            None
        }
        Err(ended) => Some(ended),
    }
}

/// Follows the script until an end.
fn operate_all<O: OperatorPort, R: Run, W: Wait>(
    rt: &W,
    operator: &mut O,
    room: &Room<R>,
    bookings: &mut Bookings<R>,
    script: &mut Script,
    plan: &Plan,
) -> Ended
    ensures still { O.tells operator.new ≡ true → O.tells operator.old ≡ true }
    ensures serves { (start : Held) → Serves actors.Operator start bookings.old.entries.items bookings.old.shares
        → Serves actors.Operator start bookings.new.entries.items bookings.new.shares }
    ensures follows { (lines : List Line) → Followed R.limits lines bookings.old.entries.items script.old
        → Followed R.limits lines bookings.new.entries.items script.new }
    ensures turns { result ≢ Ended.Turns }
    ensures ended { O.tells operator.new ≡ true → (before : ActLog)
        → DidHands before (O.log operator.old) bookings.old.entries.items → (lines : List Line)
        → Followed R.limits lines bookings.old.entries.items script.old
        → HandsEnded R.limits lines before (O.log operator.new) bookings.new.entries.items result }
{
    for _ in rt.forever() {
        if let Some(ended) = operate(rt, operator, room, bookings, script, plan) {
            return ended;
        }
    }
    unreachable!()
}

/// The operator's worker: it follows the script until an end. What an entry wants done by hand is done without the
/// lock, before it is booked.
pub fn run_operator<O: OperatorPort, R: Run, W: Wait>(
    rt: &W,
    alloc: Global,
    operator: &mut O,
    mut script: Script,
    room: &Room<R>,
    shares: Shares<R>,
    plan: &Plan,
) -> Worked<R>
    ensures actor { All (λ e. actor_of e ≡ actors.Operator) result.entries.items }
    ensures counts { result.shares ≡ held shares.parts (plus shares.counts (count_of result.entries.items)) }
    ensures still { O.tells operator.new ≡ true → O.tells operator.old ≡ true }
    ensures follows { Follows R.limits script result.entries.items }
    ensures did { O.tells operator.new ≡ true
        → HandsEnded R.limits script (O.log operator.old) (O.log operator.new) result.entries.items result.ended }
    ensures turns { result.ended ≢ Ended.Turns }
{
    let mut bookings = Bookings {
        entries: Vec::new(alloc),
        shares,
    };
    let ended = operate_all(rt, operator, room, &mut bookings, &mut script, plan);
    if ended == Ended::PortLost {
        lose(rt, room, OPERATOR, plan);
    }
    let Bookings { entries, shares } = bookings;
    Worked {
        entries,
        shares,
        ended,
    }
}
