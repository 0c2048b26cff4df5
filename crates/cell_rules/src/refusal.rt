//! Why an entry isn't allowed.
use cell_types::texts::{axis_word, belt_word, machine_word, station_word, zone_word};
use cell_types::{Axis, Belt, Machine, Station, Zone};
use std::fmt;

/// The refusals, in the one order in which they are tested. The rules are those of this project's profile.
#[derive(Clone, Copy, Debug, PartialEq, Eq)]
pub enum Refusal {
    /// The journal has no place left.
    JournalFull,
    /// As many plates are admitted as the limit allows.
    PlateLimit,
    /// The machine is booked failed.
    MachineFailed(Machine),
    /// The machine isn't booked failed.
    MachineHealthy(Machine),
    /// The owner of the zone or station is booked failed.
    OwnerFailed(Machine),
    /// The axis isn't where it has to be, moves, or has no such motion.
    WrongPose(Axis),
    /// The zone is held.
    ZoneTaken(Zone),
    /// The machine doesn't hold the zone.
    NotHolder(Zone),
    /// The machine is neither owner nor visitor of the zone, or the arm doesn't reach the station.
    NotNeighbour,
    /// No plate is at the station.
    StationEmpty(Station),
    /// A plate is at the station.
    StationFull(Station),
    /// The plate named isn't the one that the entry has to name.
    WrongPlate,
    /// The light is red.
    LampRed(Belt),
    /// The light has that colour already.
    LampAlready(Belt),
    /// The machine isn't a press.
    NoPress,
    /// A stop is asked of the machine already.
    AlreadyAsked(Machine),
    /// A plate is still at a station of the machine.
    PlateStillThere(Station),
    /// A plate is expected at FeedIn already.
    PlateExpected,
    /// The plate was cleared from a station that isn't before a press.
    NotReturnable,
    /// Memory was refused.
    OutOfMemory,
}

impl Refusal {
    ghost use Rattle.std.specs.Prelude.{◌≡◌};
    ghost use Rattle.std.specs.Option.{option_copied};
    ghost use Rattle.cell_rules.specs.Words.{refusal_name, refusal_word};

    /// The refusal's name, as it is printed.
    pub fn name(&self) -> &'static str
        ensures { result.now ≡ refusal_name self.now }
    {
        match self {
            Refusal::JournalFull => "JournalFull",
            Refusal::PlateLimit => "PlateLimit",
            Refusal::MachineFailed(_) => "MachineFailed",
            Refusal::MachineHealthy(_) => "MachineHealthy",
            Refusal::OwnerFailed(_) => "OwnerFailed",
            Refusal::WrongPose(_) => "WrongPose",
            Refusal::ZoneTaken(_) => "ZoneTaken",
            Refusal::NotHolder(_) => "NotHolder",
            Refusal::NotNeighbour => "NotNeighbour",
            Refusal::StationEmpty(_) => "StationEmpty",
            Refusal::StationFull(_) => "StationFull",
            Refusal::WrongPlate => "WrongPlate",
            Refusal::LampRed(_) => "LampRed",
            Refusal::LampAlready(_) => "LampAlready",
            Refusal::NoPress => "NoPress",
            Refusal::AlreadyAsked(_) => "AlreadyAsked",
            Refusal::PlateStillThere(_) => "PlateStillThere",
            Refusal::PlateExpected => "PlateExpected",
            Refusal::NotReturnable => "NotReturnable",
            Refusal::OutOfMemory => "OutOfMemory",
        }
    }

    /// The word of the machine, axis, zone, station or light that the refusal names, if it names one.
    pub fn word(&self) -> Option<&'static str>
        ensures { option_copied result ≡ refusal_word self.now }
    {
        match self {
            Refusal::MachineFailed(machine)
            | Refusal::MachineHealthy(machine)
            | Refusal::OwnerFailed(machine)
            | Refusal::AlreadyAsked(machine) => Some(machine_word(*machine)),
            Refusal::WrongPose(axis) => Some(axis_word(*axis)),
            Refusal::ZoneTaken(zone) | Refusal::NotHolder(zone) => Some(zone_word(*zone)),
            Refusal::StationEmpty(station)
            | Refusal::StationFull(station)
            | Refusal::PlateStillThere(station) => Some(station_word(*station)),
            Refusal::LampRed(belt) | Refusal::LampAlready(belt) => Some(belt_word(*belt)),
            _ => None,
        }
    }
}

impl fmt::Display for Refusal {
    ghost use Rattle.std.specs.Prelude.{Some};
    ghost use Rattle.cell_rules.specs.Words.{refusal_text};

    ghost output = { λ why. Some (refusal_text why) };

    fn fmt<W: fmt::Write>(&self, f: &mut fmt::Formatter<W>) -> fmt::Result {
        match self.word() {
            Some(word) => write!(f, "{} {word}", self.name()),
            None => write!(f, "{}", self.name()),
        }
    }
}
