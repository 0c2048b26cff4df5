//! What the operator does by hand, and its booking.
ghost use Rattle.std.specs.Prelude.{◌≡◌, ◌++◌, true, false, None, IfOk, OnErr, is_ok, is_some, option_to_list};
ghost use Rattle.cell_rules.specs.Views.{count_of};
ghost use Rattle.cell_ledger.specs.Counts.{plus};
ghost use Rattle.cell_ledger.specs.Held.{held};
ghost use Rattle.cell_ports.specs.Logs.{after_act, after_hand};
ghost use Rattle.cell_turns.specs.Acts.{act_of, ActedAtMost};
ghost use Rattle.cell_turns.specs.Handing.{IsHis, IsSpared, IsHanded, handed_entry, handed_log};

use crate::schedule::{Handed, OutOfMemory};
use crate::turns::book::book_entry;
use cell_ledger::{Kept, Run, Shares};
use cell_ports::{Act, OperatorPort, PortFault};
use cell_types::{Actor, Entry, actor_of};
use plate_book::Book;

/// The act by hand that an entry wants.
pub fn act_of(entry: &Entry) -> Option<Act>
    ensures { result ≡ act_of entry.now }
{
    match entry {
        Entry::Quarantined { src, .. } => Some(Act::Remove(*src)),
        Entry::Repaired { machine } => Some(Act::Home(*machine)),
        _ => None,
    }
}

fn act<O: OperatorPort>(operator: &mut O, act: Act) -> Result<(), PortFault>
    ensures still { O.tells operator.new ≡ true → O.tells operator.old ≡ true }
    ensures told { O.tells operator.new ≡ true
        → O.log operator.new ≡ after_act (O.log operator.old) act (is_ok result) }
{
    match act {
        Act::Remove(station) => operator.remove(station),
        Act::Home(machine) => operator.home(machine),
    }
}

/// Does by hand what an entry wants, if it wants an act.
pub fn do_by_hand<O: OperatorPort>(operator: &mut O, entry: &Entry) -> Result<(), PortFault>
    ensures still { O.tells operator.new ≡ true → O.tells operator.old ≡ true }
    ensures told { O.tells operator.new ≡ true
        → O.log operator.new ≡ after_hand (O.log operator.old) (act_of entry.now) (is_ok result) }
    ensures wanted { OnErr result (is_some (act_of entry.now) ≡ true) }
{
    match act_of(entry) {
        Some(wanted) => act(operator, wanted),
        None => Ok(()),
    }
}

/// Whether an entry is the operator's, and the book allows it.
fn is_his(book: &Book, entry: &Entry) -> bool
    ensures his { result ≡ true → IsHis book.now.limits book.now.entries entry.now }
    ensures spared { result ≡ false → IsSpared book.now.limits book.now.entries entry.now }
{
    actor_of(*entry) == Actor::Operator && book.allows(*entry).is_ok()
}

/// Books an entry of the operator, after its act by hand.
pub fn hand<O: OperatorPort, R: Run>(
    entry: Entry,
    operator: &mut O,
    kept: &mut Kept<R>,
    shares: &mut Shares<R>,
    entries: &mut Vec<Entry>,
) -> Result<Handed, OutOfMemory>
    ensures handed { IfOk result (λ how. IsHanded kept.old.limits kept.old.entries entry how) }
    ensures entries { IfOk result (λ how. entries.new.items ≡ entries.old.items ++ option_to_list
        (handed_entry how entry)) }
    ensures kept { IfOk result (λ how. kept.new ≡ record {
      limits = kept.old.limits;
      entries =
          kept.old.entries ++ option_to_list (handed_entry how entry);
    }) }
    ensures shares { IfOk result (λ how. shares.new
        ≡ held shares.old.parts (plus shares.old.counts (count_of (option_to_list (handed_entry how entry))))) }
    ensures told { O.tells operator.new ≡ true
        → IfOk result (λ how. O.log operator.new ≡ handed_log how (O.log operator.old) entry) }
    ensures still { O.tells operator.new ≡ true → O.tells operator.old ≡ true }
    ensures his { OnErr result (IsHis kept.old.limits kept.old.entries entry) }
    ensures unchanged { OnErr result ((entries.new.items ≡ entries.old.items) × (kept.new ≡ kept.old)
        × (shares.new ≡ shares.old)) }
    ensures acted { O.tells operator.new ≡ true
        → OnErr result (ActedAtMost (act_of entry) (O.log operator.old) (O.log operator.new)) }
{
    if !is_his(kept.book(), &entry) {
        return Ok(Handed::Spared);
    }
    if entries.reserve(1).is_err() {
        return Err(OutOfMemory);
    }
    if do_by_hand(operator, &entry).is_err() {
        return Ok(Handed::Failed);
    }
    if book_entry(kept, shares, entries, Some(entry)).is_err() {
        return Err(OutOfMemory);
    }
    Ok(Handed::Booked)
}
