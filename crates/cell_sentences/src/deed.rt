//! What an entry did.
use crate::{
    PlateName, arm_name, axis_name, colour_name, light_name, station_name, the_machine,
    way_to_pose, zone_name,
};
use cell_types::Entry;
use std::fmt;

/// Shows what an entry did, to stand after its number, as "admitted plate 1".
#[derive(Clone, Copy, Debug, PartialEq, Eq)]
pub struct EntryDeed(pub Entry);

impl fmt::Display for EntryDeed {
    ghost use Rattle.std.specs.Prelude.{Some};
    ghost use Rattle.cell_sentences.specs.Sentences.{entry_deed};

    ghost output = { λ shown. Some (entry_deed shown.0) };

    fn fmt<W: fmt::Write>(&self, f: &mut fmt::Formatter<W>) -> fmt::Result {
        match self.0 {
            Entry::Lamp { belt, colour } => {
                write!(f, "turned {} {}", light_name(belt), colour_name(colour))
            }
            Entry::Admitted { plate } => write!(f, "admitted {}", PlateName(plate)),
            Entry::Claimed { machine, zone } => write!(
                f,
                "claimed {} for {}",
                zone_name(zone),
                the_machine(machine)
            ),
            Entry::Yielded { zone, .. } => write!(f, "gave up {}", zone_name(zone)),
            Entry::Started { axis, to } => {
                write!(f, "sent {} {}", axis_name(axis), way_to_pose(to))
            }
            Entry::Arrived { axis, at } => {
                write!(f, "brought {} {}", axis_name(axis), way_to_pose(at))
            }
            Entry::Conveyed { plate, dest, .. } => {
                write!(f, "brought {} to {}", PlateName(plate), station_name(dest))
            }
            Entry::Forged { plate, press } => {
                write!(f, "forged {} in {}", PlateName(plate), the_machine(press))
            }
            Entry::Gripped { arm, plate, src } => write!(
                f,
                "gripped {} at {} with {}",
                PlateName(plate),
                station_name(src),
                arm_name(arm)
            ),
            Entry::Dropped { plate, dest, .. } => {
                write!(f, "dropped {} at {}", PlateName(plate), station_name(dest))
            }
            Entry::Delivered { plate } => write!(f, "delivered {}", PlateName(plate)),
            Entry::Declared { machine, .. } => {
                write!(f, "declared {} failed", the_machine(machine))
            }
            Entry::StopAsked { machine } => write!(f, "asked {} to stop", the_machine(machine)),
            Entry::Quarantined { plate, src } => write!(
                f,
                "took {} from {} into quarantine",
                PlateName(plate),
                station_name(src)
            ),
            Entry::Repaired { machine } => write!(f, "repaired {}", the_machine(machine)),
            Entry::Expected { plate } => write!(f, "expected {} back", PlateName(plate)),
            Entry::Reinstated { plate } => write!(f, "laid {} back", PlateName(plate)),
        }
    }
}
