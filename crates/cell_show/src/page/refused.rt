//! The last step of a page whose text isn't that of a legal journal: which record isn't booked, why, and which part of
//! the drawing the refusal names.
ghost use Rattle.std.specs.Prelude.{◌≡◌, Err, OnOk};
ghost use Rattle.std.specs.Io.KnownBytes.{Appends};
ghost use Rattle.cell_show.specs.Refused.{refused_line};

use crate::page::PageError;
use crate::page::rows::Last;
use cell_audit::AuditError;
use cell_sentences::RefusalSentence;
use cell_types::{Entry, axis_number, belt_number, machine_number, station_number, zone_number};
use plate_book::Refusal;
use std::fmt;
use std::io::Write;

// The part of the drawing that a refusal names, if it names one.
#[derive(Clone, Copy)]
struct PartName(Refusal);

impl fmt::Display for PartName {
    ghost use Rattle.std.specs.Prelude.{Some};
    ghost use Rattle.cell_show.specs.Refused.{part_name};

    ghost output = { λ why. Some (part_name why.0) };

    fn fmt<W: fmt::Write>(&self, f: &mut fmt::Formatter<W>) -> fmt::Result {
        match self.0 {
            Refusal::MachineFailed(machine)
            | Refusal::MachineHealthy(machine)
            | Refusal::OwnerFailed(machine)
            | Refusal::AlreadyAsked(machine) => write!(f, "machine-{}", machine_number(machine)),
            Refusal::WrongPose(axis) => write!(f, "axis-{}", axis_number(axis)),
            Refusal::ZoneTaken(zone) | Refusal::NotHolder(zone) => {
                write!(f, "zone-{}", zone_number(zone))
            }
            Refusal::StationEmpty(station)
            | Refusal::StationFull(station)
            | Refusal::PlateStillThere(station) => write!(f, "plate-{}", station_number(station)),
            Refusal::LampRed(belt) | Refusal::LampAlready(belt) => {
                write!(f, "lamp-{}", belt_number(belt))
            }
            Refusal::JournalFull
            | Refusal::PlateLimit
            | Refusal::NotNeighbour
            | Refusal::WrongPlate
            | Refusal::NoPress
            | Refusal::PlateExpected
            | Refusal::NotReturnable
            | Refusal::OutOfMemory => Ok(()),
        }
    }
}

/// Why an entry isn't booked.
#[derive(Clone, Copy)]
pub(crate) struct Reason(pub(crate) Refusal);

impl fmt::Display for Reason {
    ghost use Rattle.std.specs.Prelude.{Some};
    ghost use Rattle.cell_show.specs.Refused.{refusal_cells};
    ghost use Rattle.cell_show.specs.Rows.{with_commas};

    ghost output = { λ why. Some (with_commas (refusal_cells why.0)) };

    fn fmt<W: fmt::Write>(&self, f: &mut fmt::Formatter<W>) -> fmt::Result {
        let why = self.0;
        write!(
            f,
            "\"{why}: {}\",\"{}\"",
            RefusalSentence(why),
            PartName(why)
        )
    }
}

// The last step for an answer, with the entry of the record that isn't booked, if it is one's.
#[derive(Clone, Copy)]
struct LastStep(Option<AuditError>, Option<Entry>);

impl fmt::Display for LastStep {
    ghost use Rattle.std.specs.Prelude.{Some};
    ghost use Rattle.cell_show.specs.Refused.{last_step};

    ghost output = { λ step. Some (last_step step.0 step.1) };

    fn fmt<W: fmt::Write>(&self, f: &mut fmt::Formatter<W>) -> fmt::Result {
        let refused = Last(self.1);
        match self.0 {
            Some(AuditError::Unreadable(place)) => {
                write!(f, "[{place},\"the record can't be read\",\"\",{refused}]")
            }
            Some(AuditError::Refused(place, why)) => {
                write!(f, "[{place},{},{refused}]", Reason(why))
            }
            Some(AuditError::ReadFault | AuditError::OutOfMemory) | None => write!(f, "null"),
        }
    }
}

/// Writes the line of the last step.
pub(crate) fn write_refused<W: Write>(
    writer: &mut W,
    answer: Option<AuditError>,
    refused: Option<Entry>,
) -> Result<(), PageError>
    ensures fault { result ≡ Err PageError.TooManyEntries → ⊥ }
    ensures line { OnOk result (Appends (W.contents writer.old) (W.contents writer.new) (refused_line answer refused)) }
{
    writeln!(writer, "\"refused\":{},", LastStep(answer, refused))?;
    Ok(())
}
