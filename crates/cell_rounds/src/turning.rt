//! The machines' part of a round.
ghost use Rattle.std.specs.Prelude.{◌≡◌, ◌∷◌, [], IfErr, IfOk, List, OnErr};
ghost use Rattle.cell_types.specs.declared.words.Machine.{Machine as MachineValue};
ghost use Rattle.cell_types.specs.Entries.{command_of};
ghost use Rattle.cell_types.specs.Texts.{all_machine};
ghost use Rattle.cell_turns.specs.Minds.{Mind, machine_of_watch};
ghost use Rattle.cell_turns.specs.Schedules.{FitAll};
ghost use Rattle.cell_turns.specs.declared.six.Six.{Six as SixValue};
ghost use Rattle.cell_turns.specs.Six.{at};
ghost use Rattle.cell_rounds.specs.Calls.{Sent, TurnHalts, Turned, halted};
ghost use Rattle.cell_rounds.specs.Rest.{are_idle};
ghost use Rattle.cell_rounds.specs.Runs.{Goes};
ghost use Rattle.cell_rounds.specs.Stands.{Turning, state};

use crate::progress::{Halt, Progress};
use crate::settle::is_settled;
use cell_diagnosis::Reading;
use cell_ledger::Run;
use cell_plant::{Keeper, Plant};
use cell_ports::Plan;
use cell_turns::turns::{TurnAt, book_turn};
use cell_turns::{TurnError, Watches};
use cell_types::{Entry, MACHINES, Machine, command_of};
use cell_workers::{End, is_idle};
use plate_book::Book;

// A turn of a machine at a reading: the entry that it booked, if it booked one.
fn turn<R: Run>(
    machine: Machine,
    reading: Option<Reading>,
    cell: &mut Progress<R>,
    plan: &Plan,
) -> Result<Option<Entry>, Halt>
    requires { (m : MachineValue) → machine_of_watch (at cell.old.watches m) ≡ m }
    ensures machines { (m : MachineValue) → machine_of_watch (at cell.new.watches m) ≡ m }
    ensures limits { cell.new.kept.limits ≡ cell.old.kept.limits }
    ensures same { (cell.new.script ≡ cell.old.script) × (cell.new.lost ≡ cell.old.lost)
        × (cell.new.pending ≡ cell.old.pending) }
    ensures turned { IfOk result (λ booked. Turned cell.old.kept.limits plan.now machine reading booked
        cell.old.kept.entries cell.old.watches cell.new.kept.entries cell.new.watches) }
    ensures unchanged { OnErr result ((cell.new.kept ≡ cell.old.kept) × (cell.new.watches ≡ cell.old.watches)) }
    ensures halts { IfErr result (TurnHalts cell.old.kept.limits plan.now machine reading cell.old.kept.entries
        cell.old.watches) }
{
    cell.entries.clear();
    let turn = TurnAt {
        machine,
        reading,
        plan,
    };
    let booked = book_turn(
        &turn,
        &mut cell.kept,
        &mut cell.shares,
        cell.watches.pick(machine),
        &mut cell.entries,
    );
    match booked {
        Ok(booked) => Ok(booked),
        Err(TurnError::OutOfMemory) => Err(Halt::End(End::Memory)),
        Err(TurnError::Refused(_)) => Err(Halt::End(End::Full)),
    }
}

// Sends the command of an entry that was kept, if it has one, and notes in the machine's watch if it wasn't carried
// out.
fn send<C: Plant, R: Run>(
    machine: Machine,
    entry: Entry,
    plant: &mut C,
    cell: &mut Progress<R>,
) -> Result<(), Halt>
    requires { (m : MachineValue) → machine_of_watch (at cell.old.watches m) ≡ m }
    ensures machines { (m : MachineValue) → machine_of_watch (at cell.new.watches m) ≡ m }
    ensures same { (cell.new.kept ≡ cell.old.kept) × (cell.new.script ≡ cell.old.script)
        × (cell.new.lost ≡ cell.old.lost)
        × (cell.new.pending ≡ cell.old.pending) }
    ensures sent { Sent C.told machine (command_of entry) (halted result) plant.old plant.new cell.old.watches
        cell.new.watches }
{
    let Some(command) = command_of(entry) else {
        return Ok(());
    };
    if !plant.command(machine, command)? {
        cell.watches.pick(machine).command_failed();
    }
    Ok(())
}

// A turn of a machine. The entry that it books is kept, and then its command is sent.
fn take_turn<C: Plant, K: Keeper, R: Run>(
    machine: Machine,
    plant: &mut C,
    keeper: &mut K,
    cell: &mut Progress<R>,
    plan: &Plan,
) -> Result<(), Halt>
    requires { (m : MachineValue) → machine_of_watch (at cell.old.watches m) ≡ m }
    ensures machines { (m : MachineValue) → machine_of_watch (at cell.new.watches m) ≡ m }
    ensures limits { cell.new.kept.limits ≡ cell.old.kept.limits }
    ensures led { (rest : List MachineValue) → Goes C.told K.keeps cell.old.kept.limits plan.now (halted result)
        (Turning (machine ∷ rest)) (Turning rest)
        (state plant.old keeper.old
        cell.old.kept.entries cell.old.watches cell.old.pending cell.old.script cell.old.lost)
        (state plant.new keeper.new
        cell.new.kept.entries cell.new.watches cell.new.pending cell.new.script cell.new.lost) }
{
    let reading = plant.read(machine);
    let Some(entry) = turn(machine, reading, cell, plan)? else {
        return Ok(());
    };
    let booked = entry;
    keeper.keep(entry)?;
    send(machine, booked, plant, cell)
}

// A turn of a machine, unless its last command may not have gone out.
fn take_part<C: Plant, K: Keeper, R: Run>(
    machine: Machine,
    plant: &mut C,
    keeper: &mut K,
    cell: &mut Progress<R>,
    plan: &Plan,
) -> Result<(), Halt>
    requires { (m : MachineValue) → machine_of_watch (at cell.old.watches m) ≡ m }
    ensures machines { (m : MachineValue) → machine_of_watch (at cell.new.watches m) ≡ m }
    ensures limits { cell.new.kept.limits ≡ cell.old.kept.limits }
    ensures led { (rest : List MachineValue) → Goes C.told K.keeps cell.old.kept.limits plan.now (halted result)
        (Turning (machine ∷ rest)) (Turning rest)
        (state plant.old keeper.old
        cell.old.kept.entries cell.old.watches cell.old.pending cell.old.script cell.old.lost)
        (state plant.new keeper.new
        cell.new.kept.entries cell.new.watches cell.new.pending cell.new.script cell.new.lost) }
{
    if !is_settled(machine, plant, cell)? {
        return Ok(());
    }
    take_turn(machine, plant, keeper, cell, plan)
}

/// A turn of each machine in order, but of one whose last command may not have gone out.
pub(crate) fn take_turns<C: Plant, K: Keeper, R: Run>(
    plant: &mut C,
    keeper: &mut K,
    cell: &mut Progress<R>,
    plan: &Plan,
) -> Result<(), Halt>
    requires { (m : MachineValue) → machine_of_watch (at cell.old.watches m) ≡ m }
    ensures machines { (m : MachineValue) → machine_of_watch (at cell.new.watches m) ≡ m }
    ensures limits { cell.new.kept.limits ≡ cell.old.kept.limits }
    ensures led { Goes C.told K.keeps cell.old.kept.limits plan.now (halted result) (Turning all_machine) (Turning [])
        (state plant.old keeper.old
        cell.old.kept.entries cell.old.watches cell.old.pending cell.old.script cell.old.lost)
        (state plant.new keeper.new
        cell.new.kept.entries cell.new.watches cell.new.pending cell.new.script cell.new.lost) }
{
    for machine in MACHINES {
        take_part(machine, plant, keeper, cell, plan)?;
    }
    Ok(())
}

/// Whether all machines are idle after a round that booked nothing.
pub(crate) fn are_idle(book: &Book, watches: &Watches, plan: &Plan) -> bool
    ensures { (minds : SixValue Mind) → FitAll watches.now minds → result ≡ are_idle book.now.entries plan.now minds }
{
    is_idle(Machine::Feed, book, &watches.feed, plan)
        && (is_idle(Machine::Table, book, &watches.table, plan)
            && (is_idle(Machine::Robot, book, &watches.robot, plan)
                && (is_idle(Machine::Press1, book, &watches.press1, plan)
                    && (is_idle(Machine::Press2, book, &watches.press2, plan)
                        && is_idle(Machine::Deposit, book, &watches.deposit, plan)))))
}
