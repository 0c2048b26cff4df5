//! What someone at the cell did and wants.
ghost use Rattle.std.specs.Prelude.{◌≡◌, ◌+◌, ℕ, Some};
ghost use Rattle.cell_types.specs.Texts.{all_machine};
ghost use Rattle.cell_types.specs.declared.words.Machine.{Machine as MachineValue};
ghost use Rattle.cell_plant.specs.declared.desk.Wish.TheVariants as wishes;
ghost use Rattle.operator_desk.specs.declared.line.Task.TheVariants as tasks;
ghost use Rattle.cell_ports.specs.declared.plan.Plan.{Plan as PlanValue};
ghost use Rattle.cell_turns.specs.Minds.{machine_of_watch};
ghost use Rattle.cell_turns.specs.Six.{at};
ghost use Rattle.cell_rounds.specs.Calls.{halted};
ghost use Rattle.cell_rounds.specs.Moves.{entry_wanted};
ghost use Rattle.cell_rounds.specs.Runs.{Goes, answering};
ghost use Rattle.cell_rounds.specs.Stands.{Closing, Noted, Noting, Serving, Turning, Wanted, state};

use crate::hands::{book_his, do_by_hand};
use crate::progress::{Halt, Progress};
use cell_ledger::Run;
use cell_plant::{Denial, Keeper, Plant, Reply, Wish};
use cell_types::{Entry, PlateId, Station};
use operator_desk::Task;
use plate_book::Book;

// The most of what was done at the cell that is heard in a round, and the most wishes.
const MOST_IN_A_ROUND: u32 = 10_064;

// The entry of taking out what stands at a station: of the plate that the book has there, or of the first plate where
// it has none.
fn clearing(book: &Book, src: Station) -> Option<Entry>
    ensures { result ≡ Some (entry_wanted book.now.entries (tasks.Clear src)) }
{
    let plate = match book.plate_at(src) {
        Some(plate) => plate,
        None => PlateId::new(1)?,
    };
    Some(Entry::Quarantined { plate, src })
}

// The entry by which a task is booked. There always is one.
fn entry_of_task(book: &Book, task: Task) -> Option<Entry>
    ensures { result ≡ Some (entry_wanted book.now.entries task) }
{
    match task {
        Task::Stop(machine) => Some(Entry::StopAsked { machine }),
        Task::Clear(station) => clearing(book, station),
        Task::Repair(machine) => Some(Entry::Repaired { machine }),
        Task::Expect(plate) => Some(Entry::Expected { plate }),
    }
}

// Books what was done at the cell, where the book allows it.
fn book_act<C: Plant, K: Keeper, R: Run>(
    task: Task,
    plant: &mut C,
    keeper: &mut K,
    cell: &mut Progress<R>,
) -> Result<(), Halt>
    requires { (m : MachineValue) → machine_of_watch (at cell.old.watches m) ≡ m }
    ensures machines { (m : MachineValue) → machine_of_watch (at cell.new.watches m) ≡ m }
    ensures limits { cell.new.kept.limits ≡ cell.old.kept.limits }
    ensures led { (p : PlanValue) (n : ℕ) → Goes C.told K.keeps cell.old.kept.limits p (halted result) (Noted n task)
        (Noting (n + 1)) (state plant.old keeper.old
        cell.old.kept.entries cell.old.watches cell.old.pending cell.old.script cell.old.lost)
        (state plant.new keeper.new
        cell.new.kept.entries cell.new.watches cell.new.pending cell.new.script cell.new.lost) }
{
    let done = task;
    let Some(entry) = entry_of_task(cell.book(), task) else {
        return Ok(());
    };
    let wanted = entry;
    if let Err(why) = cell.book().allows(entry) {
        plant.refuse_act(done, why);
        return Ok(());
    }
    book_his(wanted, keeper, cell)
}

/// Books what was done at the cell since the last round.
pub(crate) fn book_acts<C: Plant, K: Keeper, R: Run>(
    plant: &mut C,
    keeper: &mut K,
    cell: &mut Progress<R>,
) -> Result<(), Halt>
    requires { (m : MachineValue) → machine_of_watch (at cell.old.watches m) ≡ m }
    ensures machines { (m : MachineValue) → machine_of_watch (at cell.new.watches m) ≡ m }
    ensures limits { cell.new.kept.limits ≡ cell.old.kept.limits }
    ensures led { (p : PlanValue) → Goes C.told K.keeps cell.old.kept.limits p (halted result) (Noting 0)
        (Turning all_machine) (state plant.old keeper.old
        cell.old.kept.entries cell.old.watches cell.old.pending cell.old.script cell.old.lost)
        (state plant.new keeper.new
        cell.new.kept.entries cell.new.watches cell.new.pending cell.new.script cell.new.lost) }
{
    for _count in 0..MOST_IN_A_ROUND {
        let Some(task) = plant.act_done() else {
            return Ok(());
        };
        book_act(task, plant, keeper, cell)?;
    }
    Ok(())
}

// Does what is wanted, and gives the answer.
fn grant<C: Plant, K: Keeper, R: Run>(
    task: Task,
    plant: &mut C,
    keeper: &mut K,
    cell: &mut Progress<R>,
) -> Result<Reply, Halt>
    requires { (m : MachineValue) → machine_of_watch (at cell.old.watches m) ≡ m }
    ensures machines { (m : MachineValue) → machine_of_watch (at cell.new.watches m) ≡ m }
    ensures limits { cell.new.kept.limits ≡ cell.old.kept.limits }
    ensures led { (p : PlanValue) (n : ℕ) → Goes C.told K.keeps cell.old.kept.limits p (halted result) (Wanted n
        (wishes.For task))
        (answering n result) (state plant.old keeper.old
        cell.old.kept.entries cell.old.watches cell.old.pending cell.old.script cell.old.lost)
        (state plant.new keeper.new
        cell.new.kept.entries cell.new.watches cell.new.pending cell.new.script cell.new.lost) }
{
    let Some(entry) = entry_of_task(cell.book(), task) else {
        return Ok(Reply::Denied(Denial::Unreadable));
    };
    let wanted = entry;
    if let Err(why) = cell.book().allows(entry) {
        return Ok(Reply::Denied(Denial::Book(why)));
    }
    if !do_by_hand(plant, &wanted)? {
        return Ok(Reply::Denied(Denial::Failed));
    }
    book_his(wanted, keeper, cell)?;
    Ok(Reply::Booked(cell.book().journal().len()))
}

// Does what is wanted, if it can be read and there is room for it, and gives the answer.
fn reply_to<C: Plant, K: Keeper, R: Run>(
    wish: Wish,
    plant: &mut C,
    keeper: &mut K,
    cell: &mut Progress<R>,
) -> Result<Reply, Halt>
    requires { (m : MachineValue) → machine_of_watch (at cell.old.watches m) ≡ m }
    ensures machines { (m : MachineValue) → machine_of_watch (at cell.new.watches m) ≡ m }
    ensures limits { cell.new.kept.limits ≡ cell.old.kept.limits }
    ensures led { (p : PlanValue) (n : ℕ) → Goes C.told K.keeps cell.old.kept.limits p (halted result) (Wanted n wish)
        (answering n result) (state plant.old keeper.old
        cell.old.kept.entries cell.old.watches cell.old.pending cell.old.script cell.old.lost)
        (state plant.new keeper.new
        cell.new.kept.entries cell.new.watches cell.new.pending cell.new.script cell.new.lost) }
{
    match wish {
        Wish::For(task) => grant(task, plant, keeper, cell),
        Wish::Unreadable => Ok(Reply::Denied(Denial::Unreadable)),
        Wish::TooMuch => Ok(Reply::Denied(Denial::TooMany)),
    }
}

// Does what is wanted, if it can be done, and answers it.
fn answer<C: Plant, K: Keeper, R: Run>(
    wish: Wish,
    plant: &mut C,
    keeper: &mut K,
    cell: &mut Progress<R>,
) -> Result<(), Halt>
    requires { (m : MachineValue) → machine_of_watch (at cell.old.watches m) ≡ m }
    ensures machines { (m : MachineValue) → machine_of_watch (at cell.new.watches m) ≡ m }
    ensures limits { cell.new.kept.limits ≡ cell.old.kept.limits }
    ensures led { (p : PlanValue) (n : ℕ) → Goes C.told K.keeps cell.old.kept.limits p (halted result) (Wanted n wish)
        (Serving (n + 1)) (state plant.old keeper.old
        cell.old.kept.entries cell.old.watches cell.old.pending cell.old.script cell.old.lost)
        (state plant.new keeper.new
        cell.new.kept.entries cell.new.watches cell.new.pending cell.new.script cell.new.lost) }
{
    let reply = reply_to(wish, plant, keeper, cell)?;
    plant.reply(reply)?;
    Ok(())
}

/// Answers what is wanted at the cell.
pub(crate) fn serve<C: Plant, K: Keeper, R: Run>(
    plant: &mut C,
    keeper: &mut K,
    cell: &mut Progress<R>,
) -> Result<(), Halt>
    requires { (m : MachineValue) → machine_of_watch (at cell.old.watches m) ≡ m }
    ensures machines { (m : MachineValue) → machine_of_watch (at cell.new.watches m) ≡ m }
    ensures limits { cell.new.kept.limits ≡ cell.old.kept.limits }
    ensures led { (p : PlanValue) → Goes C.told K.keeps cell.old.kept.limits p (halted result) (Serving 0)
        Closing (state plant.old keeper.old
        cell.old.kept.entries cell.old.watches cell.old.pending cell.old.script cell.old.lost)
        (state plant.new keeper.new
        cell.new.kept.entries cell.new.watches cell.new.pending cell.new.script cell.new.lost) }
{
    for _count in 0..MOST_IN_A_ROUND {
        let Some(wish) = plant.wish() else {
            return Ok(());
        };
        answer(wish, plant, keeper, cell)?;
    }
    Ok(())
}
