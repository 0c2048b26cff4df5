//! What the operator does by hand in a world that a method commands. There is no book, so his script goes by the world.
ghost use Rattle.std.specs.Prelude.{◌≡◌, OnOk};
ghost use Rattle.std.specs.Io.KnownBytes.{Appends};
ghost use Rattle.cell_drive.specs.Deeds.{after_deed, deed_by, deed_line, deed_of, is_due};

use cell_sim::World;
use cell_types::texts::{machine_word, station_word};
use cell_types::{Machine, Station};
use operator_desk::{Line, Task, Trigger};
use std::io;
use std::io::Write;

/// What the operator does.
#[derive(Clone, Copy)]
pub(crate) enum Deed {
    /// He asks that the machine is stopped.
    Stop(Machine),
    /// He takes this plate out of the station.
    Clear(Station, u32),
    /// He puts the machine at home.
    Repair(Machine),
    /// He does nothing, and his line is done.
    Nothing,
}

// Whether a trigger holds in the world. There are no booked failures.
fn is_due(world: &World, when: Trigger) -> bool
    ensures { result ≡ is_due world.now when }
{
    match when {
        Trigger::Always => true,
        Trigger::Admitted(number) => number <= world.laid(),
        Trigger::Delivered(number) => number <= world.taken_out(),
        Trigger::Quarantined(number) => number <= world.removed(),
        Trigger::Failed(_) => false,
    }
}

// What a task is now, if it can be done.
fn deed_of(world: &World, task: Task) -> Option<Deed>
    ensures { result ≡ deed_of world.now task }
{
    match task {
        Task::Stop(machine) => Some(Deed::Stop(machine)),
        Task::Clear(station) => match world.plate_at(station) {
            Some(plate) => Some(Deed::Clear(station, plate)),
            None => None,
        },
        Task::Repair(machine) => Some(Deed::Repair(machine)),
        Task::Expect(_) => Some(Deed::Nothing),
    }
}

/// What the operator does now by a line, where its trigger holds and it can be done.
pub(crate) fn deed_by(world: &World, line: Line) -> Option<Deed>
    ensures { result ≡ deed_by world.now line }
{
    if is_due(world, line.when) {
        deed_of(world, line.task)
    } else {
        None
    }
}

/// Does it.
pub(crate) fn do_deed(world: &mut World, deed: Deed)
    ensures { world.new ≡ after_deed deed world.old }
{
    match deed {
        Deed::Clear(station, _) => world.remove(station),
        Deed::Repair(machine) => world.home(machine),
        Deed::Stop(_) | Deed::Nothing => {}
    }
}

/// Tells the method of it.
pub(crate) fn tell_deed<W: Write>(writer: &mut W, deed: Deed) -> io::Result<()>
    ensures { OnOk result (Appends (W.contents writer.old) (W.contents writer.new) (deed_line deed)) }
{
    match deed {
        Deed::Stop(machine) => writeln!(writer, "stop_asked,{},,", machine_word(machine)),
        Deed::Clear(station, plate) => {
            writeln!(writer, "quarantined,{plate},{},", station_word(station))
        }
        Deed::Repair(machine) => writeln!(writer, "repaired,{},,", machine_word(machine)),
        Deed::Nothing => Ok(()),
    }
}
