//! An entry as a sentence.
ghost use Rattle.std.specs.Prelude.{◌≡◌};
ghost use Rattle.cell_sentences.specs.Sentences.{actor_name};

use crate::{
    arm_name, axis_of_its_machine, cause_name, colour_name, machine_name, station_name,
    the_machine, way_to_pose, zone_name,
};
use cell_types::{Actor, Entry, PlateId, actor_of};
use std::fmt;

/// Shows an entry as a sentence with its actor first, as "robot: arm 1 grips plate 1 at the table".
#[derive(Clone, Copy, Debug, PartialEq, Eq)]
pub struct EntrySentence(pub Entry);

/// Shows a plate by its number, as "plate 1".
#[derive(Clone, Copy, Debug, PartialEq, Eq)]
pub struct PlateName(pub PlateId);

// What an entry says of its actor.
#[derive(Clone, Copy)]
struct Deed(Entry);

/// The name of who books an entry.
pub fn actor_name(actor: Actor) -> &'static str
    ensures { result.now ≡ actor_name actor }
{
    match actor {
        Actor::Machine(machine) => machine_name(machine),
        Actor::Operator => "operator",
    }
}

impl fmt::Display for EntrySentence {
    ghost use Rattle.std.specs.Prelude.{Some};
    ghost use Rattle.cell_sentences.specs.Sentences.{entry_sentence};

    ghost output = { λ shown. Some (entry_sentence shown.0) };

    fn fmt<W: fmt::Write>(&self, f: &mut fmt::Formatter<W>) -> fmt::Result {
        let actor = actor_name(actor_of(self.0));
        let deed = Deed(self.0);
        write!(f, "{actor}: {deed}")
    }
}

impl fmt::Display for PlateName {
    ghost use Rattle.std.specs.Prelude.{Some};
    ghost use Rattle.cell_sentences.specs.Sentences.{plate_name};

    ghost output = { λ shown. Some (plate_name shown.0) };

    fn fmt<W: fmt::Write>(&self, f: &mut fmt::Formatter<W>) -> fmt::Result {
        write!(f, "plate {}", self.0.number())
    }
}

impl fmt::Display for Deed {
    ghost use Rattle.std.specs.Prelude.{Some};
    ghost use Rattle.cell_sentences.specs.Sentences.{deed};

    ghost output = { λ shown. Some (deed shown.0) };

    fn fmt<W: fmt::Write>(&self, f: &mut fmt::Formatter<W>) -> fmt::Result {
        match self.0 {
            Entry::Lamp { colour, .. } => write!(f, "its light turns {}", colour_name(colour)),
            Entry::Admitted { plate } => write!(f, "{} is admitted", PlateName(plate)),
            Entry::Claimed { zone, .. } => write!(f, "claims {}", zone_name(zone)),
            Entry::Yielded { zone, .. } => write!(f, "gives up {}", zone_name(zone)),
            Entry::Started { axis, to } => {
                let way = way_to_pose(to);
                write!(f, "{}starts to go {way}", axis_of_its_machine(axis))
            }
            Entry::Arrived { axis, at } => {
                let way = way_to_pose(at);
                write!(f, "{}has gone {way}", axis_of_its_machine(axis))
            }
            Entry::Conveyed { plate, dest, .. } => {
                write!(f, "brings {} to {}", PlateName(plate), station_name(dest))
            }
            Entry::Forged { plate, .. } => write!(f, "forges {}", PlateName(plate)),
            Entry::Gripped { arm, plate, src } => write!(
                f,
                "{} grips {} at {}",
                arm_name(arm),
                PlateName(plate),
                station_name(src)
            ),
            Entry::Dropped { arm, plate, dest } => write!(
                f,
                "{} drops {} at {}",
                arm_name(arm),
                PlateName(plate),
                station_name(dest)
            ),
            Entry::Delivered { plate } => write!(f, "{} leaves the cell", PlateName(plate)),
            Entry::Declared { cause, .. } => {
                write!(f, "is declared failed, since {}", cause_name(cause))
            }
            Entry::StopAsked { machine } => write!(f, "asks {} to stop", the_machine(machine)),
            Entry::Quarantined { plate, src } => write!(
                f,
                "takes {} from {} into quarantine",
                PlateName(plate),
                station_name(src)
            ),
            Entry::Repaired { machine } => write!(f, "{} is repaired", the_machine(machine)),
            Entry::Expected { plate } => write!(f, "{} is expected back", PlateName(plate)),
            Entry::Reinstated { plate } => write!(f, "{} is laid back", PlateName(plate)),
        }
    }
}
