//! The operator's part of a round.
ghost use Rattle.std.specs.Prelude.{◌≡◌, [], IfErr, IfOk, None, Some, false, true};
ghost use Rattle.cell_types.specs.declared.words.Machine.{Machine as MachineValue};
ghost use Rattle.cell_ports.specs.declared.plan.Plan.{Plan as PlanValue};
ghost use Rattle.cell_turns.specs.Minds.{machine_of_watch};
ghost use Rattle.cell_turns.specs.Six.{at};
ghost use Rattle.cell_turns.specs.Acts.{act_of};
ghost use Rattle.cell_rounds.specs.Calls.{IsKept, Misses, halted};
ghost use Rattle.cell_rounds.specs.Moves.{Hands};
ghost use Rattle.cell_rounds.specs.Runs.{Goes};
ghost use Rattle.cell_rounds.specs.Stands.{Serving, Turning, state};

use crate::progress::{Halt, Progress};
use cell_ledger::Run;
use cell_plant::{Keeper, Plant};
use cell_ports::Act;
use cell_turns::hands::act_of;
use cell_types::Entry;
use cell_workers::End;
use operator_desk::entry_of;

/// Does by hand what an entry wants, if it wants an act, and says whether it was done.
pub(crate) fn do_by_hand<C: Plant>(plant: &mut C, entry: &Entry) -> Result<bool, Halt>
    ensures done { IfOk result (λ done. done ≡ true → Hands C.told (act_of entry.now) plant.old plant.new) }
    ensures failed { IfOk result (λ done. done ≡ false → Misses C.told (act_of entry.now) None plant.old plant.new) }
    ensures gone { IfErr result (λ halt. (halt ≡ Halt.Gone)
        × Misses C.told (act_of entry.now) (Some Halt.Gone) plant.old plant.new) }
{
    match act_of(entry) {
        Some(Act::Remove(station)) => Ok(plant.remove(station)?),
        Some(Act::Home(machine)) => Ok(plant.home(machine)?),
        None => Ok(true),
    }
}

/// Books an entry of the operator that the book allows, and keeps it.
pub(crate) fn book_his<K: Keeper, R: Run>(
    entry: Entry,
    keeper: &mut K,
    cell: &mut Progress<R>,
) -> Result<(), Halt>
    ensures same { (cell.new.watches ≡ cell.old.watches) × (cell.new.script ≡ cell.old.script)
        × (cell.new.lost ≡ cell.old.lost) × (cell.new.pending ≡ cell.old.pending) }
    ensures limits { cell.new.kept.limits ≡ cell.old.kept.limits }
    ensures booked { IsKept K.keeps entry result keeper.old keeper.new cell.old.kept cell.new.kept }
{
    let booked = entry;
    if cell.kept.apply(&mut cell.shares, entry).is_err() {
        return Err(Halt::End(End::Memory));
    }
    keeper.keep(booked)?;
    Ok(())
}

/// The next action of the script, where it has one now. Where the hands fail nothing is booked, and the script goes no
/// further.
pub(crate) fn operate<C: Plant, K: Keeper, R: Run>(
    plant: &mut C,
    keeper: &mut K,
    cell: &mut Progress<R>,
) -> Result<(), Halt>
    requires { (m : MachineValue) → machine_of_watch (at cell.old.watches m) ≡ m }
    ensures machines { (m : MachineValue) → machine_of_watch (at cell.new.watches m) ≡ m }
    ensures limits { cell.new.kept.limits ≡ cell.old.kept.limits }
    ensures led { (p : PlanValue) → Goes C.told K.keeps cell.old.kept.limits p (halted result) (Turning [])
        (Serving 0) (state plant.old keeper.old
        cell.old.kept.entries cell.old.watches cell.old.pending cell.old.script cell.old.lost)
        (state plant.new keeper.new
        cell.new.kept.entries cell.new.watches cell.new.pending cell.new.script cell.new.lost) }
{
    if cell.lost {
        return Ok(());
    }
    let Some(action) = cell.script.next(cell.kept.book()) else {
        return Ok(());
    };
    let entry = entry_of(action);
    if !do_by_hand(plant, &entry)? {
        cell.lost = true;
        return Ok(());
    }
    cell.script.done();
    book_his(entry, keeper, cell)
}
