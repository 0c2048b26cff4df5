//! A refusal as a sentence of what is so.
ghost use Rattle.std.specs.Prelude.{◌≡◌, ◌++◌};
ghost use Rattle.cell_sentences.specs.Sentences.{refusal_sentence};

use crate::{axis_name, light_name, station_name, the_machine, zone_name};
use cell_rules::Refusal;
use std::fmt;

/// Shows a refusal as a sentence of what is so, as "the feed light is red".
#[derive(Clone, Copy, Debug, PartialEq, Eq)]
pub struct RefusalSentence(pub Refusal);

impl fmt::Display for RefusalSentence {
    ghost use Rattle.std.specs.Prelude.{Some};

    ghost output = { λ shown. Some (refusal_sentence shown.0) };

    fn fmt<W: fmt::Write>(&self, f: &mut fmt::Formatter<W>) -> fmt::Result {
        let (first, second, third) = refusal_parts(self.0);
        write!(f, "{first}{second}{third}")
    }
}

// The sentence in three parts, of which the first ones may be empty.
fn refusal_parts(refusal: Refusal) -> (&'static str, &'static str, &'static str)
    ensures { result.0.now ++ (result.1.now ++ result.2.now) ≡ refusal_sentence refusal }
{
    match refusal {
        Refusal::JournalFull => ("", "", "the journal is full"),
        Refusal::PlateLimit => ("", "", "as many plates are admitted as the limit allows"),
        Refusal::MachineFailed(machine) => ("", the_machine(machine), " is booked failed"),
        Refusal::MachineHealthy(machine) => ("", the_machine(machine), " isn't booked failed"),
        Refusal::OwnerFailed(owner) => ("", the_machine(owner), ", the owner, is booked failed"),
        Refusal::WrongPose(axis) => (
            "",
            axis_name(axis),
            " isn't where it has to be, moves, or has no such motion",
        ),
        Refusal::ZoneTaken(zone) => ("", zone_name(zone), " is held"),
        Refusal::NotHolder(zone) => ("", "the machine doesn't hold ", zone_name(zone)),
        Refusal::NotNeighbour => (
            "",
            "",
            "the machine has no part in the zone, or the arm doesn't serve the station",
        ),
        Refusal::StationEmpty(station) => ("", "no plate is at ", station_name(station)),
        Refusal::StationFull(station) => ("", "a plate is at ", station_name(station)),
        Refusal::WrongPlate => ("", "", "the plate isn't the one that the entry has to name"),
        Refusal::LampRed(belt) => ("", light_name(belt), " is red"),
        Refusal::LampAlready(belt) => ("", light_name(belt), " has that colour already"),
        Refusal::NoPress => ("", "", "the machine isn't a press"),
        Refusal::AlreadyAsked(machine) => ("a stop of ", the_machine(machine), " is asked already"),
        Refusal::PlateStillThere(station) => ("", "a plate is still at ", station_name(station)),
        Refusal::PlateExpected => ("", "", "a plate is expected back"),
        Refusal::NotReturnable => (
            "",
            "",
            "the plate was cleared from a station that isn't before a press",
        ),
        Refusal::OutOfMemory => ("", "", "memory was refused"),
    }
}
