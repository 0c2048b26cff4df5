//! The last command of a journal that a run goes on from, which may not have gone out.
ghost use Rattle.std.specs.Prelude.{◌≡◌, IfErr, None, is_ok};
ghost use Rattle.cell_types.specs.declared.words.Machine.{Machine as MachineValue};
ghost use Rattle.cell_turns.specs.Minds.{machine_of_watch};
ghost use Rattle.cell_turns.specs.Six.{at};
ghost use Rattle.cell_rounds.specs.Calls.{Resends, Settles, halted};
ghost use Rattle.cell_rounds.specs.Moves.{Stops};
ghost use Rattle.cell_rounds.specs.Stands.{command_by, last_command, last_of};

use crate::progress::{Halt, Progress};
use cell_diagnosis::{Reading, bit};
use cell_journal::Journal;
use cell_ledger::Run;
use cell_plant::Plant;
use cell_ports::Plan;
use cell_types::{
    Actor, Arm, Axis, Command, Entry, Machine, Pose, actor_of, axes_of, axis_number, command_of,
    machine_of_axis, motion_named, place_in_machine, poses_of, press_of,
};
use plate_book::Book;

/// The command of a journal's last entry, and the machine that it is for.
#[derive(Clone, Copy, Debug, PartialEq, Eq)]
pub struct LastCommand {
    pub machine: Machine,
    pub command: Command,
}

/// A command of which it isn't known yet whether it went out, and how many more readings are looked at.
#[derive(Clone, Copy, Debug)]
pub(crate) struct PendingCommand {
    last: LastCommand,
    looks: u16,
}

// Whether a command went out, by what its machine shows.
#[derive(Clone, Copy, Debug, PartialEq, Eq)]
enum Sight {
    /// It did.
    WentOut,
    /// It didn't.
    Kept,
    /// It isn't to be seen yet.
    Open,
}

// The command of an entry of a machine, if it has one.
fn command_by(entry: Entry) -> Option<LastCommand>
    ensures { result ≡ command_by entry }
{
    let wanted = entry;
    let Actor::Machine(machine) = actor_of(entry) else {
        return None;
    };
    Some(LastCommand {
        machine,
        command: command_of(wanted)?,
    })
}

/// The command of a journal's last entry, if that is a machine's and has one.
pub fn last_command(journal: &Journal) -> Option<LastCommand>
    ensures { result ≡ last_command journal.now.entries }
{
    command_by(journal.get(journal.len().saturating_sub(1))?)
}

// The byte of a machine's switches that an axis has.
fn switches_of(axis: Axis, reading: Reading) -> u8 {
    for (place, other) in axes_of(machine_of_axis(axis)).iter().enumerate() {
        if *other == axis {
            return reading.switches[place];
        }
    }
    0
}

// The switch of a pose of an axis.
fn bit_of_pose(axis: Axis, pose: Pose) -> u8 {
    for (place, other) in poses_of(axis).iter().enumerate() {
        if *other == pose {
            return 1 << place;
        }
    }
    0
}

// Whether an axis has left: it shows another thing than its old pose alone, or of a belt no plate where its motion
// begins.
fn has_left(book: &Book, axis: Axis, to: Pose, reading: Reading) -> bool {
    match motion_named(axis, to) {
        Some(motion) => !bit(reading.presence, place_in_machine(motion.from)),
        None => switches_of(axis, reading) != bit_of_pose(axis, book.pose(axis).at),
    }
}

// Whether an arm shows a plate.
fn holds(arm: Arm, reading: Reading) -> bool {
    match arm {
        Arm::Arm1 => bit(reading.presence, 0),
        Arm::Arm2 => bit(reading.presence, 1),
    }
}

fn sight_where(went_out: bool, otherwise: Sight) -> Sight {
    if went_out { Sight::WentOut } else { otherwise }
}

// Whether a command is looked for before it is sent again: a magnet's or one that starts a motion, since one of these
// does harm if it comes twice.
fn is_looked_for(last: LastCommand) -> bool {
    matches!(
        last.command,
        Command::MagnetOn(_) | Command::MagnetOff(_) | Command::On(_, _)
    )
}

// Whether a command went out. One that does no harm where it comes twice isn't looked for.
fn sight_of(book: &Book, last: LastCommand, reading: Option<Reading>) -> Sight {
    if !is_looked_for(last) {
        return Sight::Kept;
    }
    match (last.command, reading) {
        (Command::On(axis, to), Some(reading)) => {
            sight_where(has_left(book, axis, to, reading), Sight::Open)
        }
        (Command::MagnetOn(arm), Some(reading)) => sight_where(holds(arm, reading), Sight::Kept),
        (Command::MagnetOff(arm), Some(reading)) => sight_where(!holds(arm, reading), Sight::Kept),
        (Command::On(_, _) | Command::MagnetOn(_) | Command::MagnetOff(_), None) => Sight::Open,
        _ => Sight::Kept,
    }
}

// How many readings to look at most: as many as an axis may stay at its old pose.
fn most_looks(command: Command, plan: &Plan) -> u16 {
    match command {
        Command::On(axis, _) => plan.limits[axis_number(axis)].leave(),
        _ => plan.limits[axis_number(Axis::RobotTurn)].leave(),
    }
}

/// A command that may not have gone out, and how many readings are looked at for it.
pub(crate) fn begin_looking(last: Option<LastCommand>, plan: &Plan) -> Option<PendingCommand>
    ensures { last_of result ≡ last }
{
    let last = last?;
    Some(PendingCommand {
        last,
        looks: most_looks(last.command, plan),
    })
}

// Stops a press before it is sent anywhere, as one has to be that hasn't left its pose.
fn stop_press<C: Plant>(machine: Machine, plant: &mut C) -> Result<(), Halt>
    ensures stops { Stops C.told machine (is_ok result) plant.old plant.new }
    ensures gone { IfErr result (λ halt. halt ≡ Halt.Gone) }
{
    if press_of(machine).is_some() {
        plant.command(machine, Command::AllOff(machine))?;
    }
    Ok(())
}

// Sends a command again.
fn send_again<C: Plant, R: Run>(
    last: LastCommand,
    plant: &mut C,
    cell: &mut Progress<R>,
) -> Result<(), Halt>
    requires { (m : MachineValue) → machine_of_watch (at cell.old.watches m) ≡ m }
    ensures machines { (m : MachineValue) → machine_of_watch (at cell.new.watches m) ≡ m }
    ensures same { (cell.new.kept ≡ cell.old.kept) × (cell.new.script ≡ cell.old.script)
        × (cell.new.lost ≡ cell.old.lost) }
    ensures pending { last_of cell.new.pending ≡ None }
    ensures sends { Resends C.told last (halted result) plant.old plant.new cell.old.watches cell.new.watches }
{
    cell.pending = None;
    stop_press(last.machine, plant)?;
    if !plant.command(last.machine, last.command)? {
        cell.watches.pick(last.machine).command_failed();
    }
    Ok(())
}

/// Whether a machine may take a turn, as it shows itself in this round: the last command wasn't its own, or its
/// readings show that it went out, or it was sent again since they don't.
pub(crate) fn is_settled<C: Plant, R: Run>(
    machine: Machine,
    plant: &mut C,
    cell: &mut Progress<R>,
) -> Result<bool, Halt>
    requires { (m : MachineValue) → machine_of_watch (at cell.old.watches m) ≡ m }
    ensures machines { (m : MachineValue) → machine_of_watch (at cell.new.watches m) ≡ m }
    ensures same { (cell.new.kept ≡ cell.old.kept) × (cell.new.script ≡ cell.old.script)
        × (cell.new.lost ≡ cell.old.lost) }
    ensures settles { Settles C.told machine result (last_of cell.old.pending) plant.old plant.new cell.old.watches
        cell.new.watches (last_of cell.new.pending) }
{
    let Some(pending) = cell.pending else {
        return Ok(true);
    };
    if pending.last.machine != machine {
        return Ok(true);
    }
    let reading = plant.read(machine);
    let looks = pending.looks.saturating_sub(1);
    match sight_of(cell.kept.book(), pending.last, reading) {
        Sight::Open if looks > 0 => {
            cell.pending = Some(PendingCommand { looks, ..pending });
            return Ok(false);
        }
        Sight::WentOut => cell.pending = None,
        Sight::Open | Sight::Kept => send_again(pending.last, plant, cell)?,
    }
    Ok(true)
}
