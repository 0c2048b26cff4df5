//! The fourth step of a turn: the entry of what was decided is booked and listed.
ghost use Rattle.std.specs.Prelude.{◌≡◌, ◌<◌, ◌++◌, None, IfOk, IfErr, IfSome, OnOk, OnErr, option_to_list, vec_len};
ghost use Rattle.std.specs.Prelude.{vec_capacity};
ghost use Rattle.cell_rules.specs.Views.{count_of};
ghost use Rattle.cell_rules.specs.Legal.{first_of};
ghost use Rattle.cell_ledger.specs.Counts.{plus};
ghost use Rattle.cell_ledger.specs.Held.{held};
ghost use Rattle.cell_turns.specs.Turns.{IsRuled, IsUnbooked};
ghost use Rattle.cell_turns.specs.declared.turns.decide.Ruling.TheVariants.{PastLast};

use crate::Watch;
use crate::schedule::OutOfMemory;
use crate::turns::decide::Ruling;
use cell_ledger::{Kept, Run, Shares};
use cell_machines::propose;
use cell_ports::Plan;
use cell_types::{Entry, Machine};
use plate_book::{Book, Refusal};

/// The entry of a turn by what was decided; `PlateLimit` past plate 100,000.
#[inline(always)]
pub fn entry_of(
    ruling: Ruling,
    machine: Machine,
    watch: &Watch,
    book: &Book,
    plan: &Plan,
) -> Result<Option<Entry>, Refusal>
    requires { watch.now.machine ≡ machine }
    ensures ok { IfOk result (λ e. IsRuled book.now.limits book.now.entries watch.now.machine plan.now.plates ruling
        e) }
    ensures err { IfErr result (λ why. (ruling ≡ PastLast) × (why ≡ Refusal.PlateLimit)) }
{
    match ruling {
        Ruling::Nothing => Ok(None),
        Ruling::Books(entry) => Ok(Some(entry)),
        Ruling::PastLast => Err(Refusal::PlateLimit),
        Ruling::Proposes => Ok(propose(machine, book, plan.plates)),
    }
}

/// Reserves a place in the list for an entry, if there is one.
pub fn make_room(entries: &mut Vec<Entry>, entry: &Option<Entry>) -> Result<(), OutOfMemory>
    ensures room { OnOk result (IfSome entry.now (λ _. vec_len entries.new < vec_capacity entries.new)) }
    ensures full { OnErr result (vec_capacity entries.old ≡ vec_len entries.old) }
    ensures same { entries.new.items ≡ entries.old.items }
{
    match entry {
        Some(_) => match entries.reserve(1) {
            Ok(_) => Ok(()),
            Err(_) => Err(OutOfMemory),
        },
        None => Ok(()),
    }
}

/// Books an entry, if there is one, and lists it.
#[inline(always)]
pub fn book_entry<R: Run>(
    kept: &mut Kept<R>,
    shares: &mut Shares<R>,
    entries: &mut Vec<Entry>,
    entry: Option<Entry>,
) -> Result<(), Refusal>
    requires { IfSome entry (λ _. vec_len entries.old < vec_capacity entries.old) }
    ensures entries { OnOk result (entries.new.items ≡ entries.old.items ++ option_to_list entry) }
    ensures kept { OnOk result (kept.new ≡ record {
      limits = kept.old.limits;
      entries =
          kept.old.entries ++ option_to_list entry;
    }) }
    ensures shares { OnOk result (shares.new
        ≡ held shares.old.parts (plus shares.old.counts (count_of (option_to_list entry)))) }
    ensures allowed { OnOk result (IfSome entry (λ e. first_of kept.old.limits kept.old.entries e ≡ None)) }
    ensures refused { IfErr result (λ why. IsUnbooked kept.old.limits kept.old.entries entry why) }
    ensures unchanged { OnErr result ((entries.new.items ≡ entries.old.items) × (kept.new ≡ kept.old)
        × (shares.new ≡ shares.old)) }
{
    let Some(entry) = entry else {
        return Ok(());
    };
    let added = entry;
    kept.apply(shares, entry)?;
    entries.push_reserved(added);
    Ok(())
}
