//! The bars of a chart, in SVG's elements.
use crate::chart::lanes::{Lane, Open};
use crate::chart::scale::Scale;
use cell_sentences::{cause_name, machine_name};
use cell_types::texts::{machine_word, pose_word};
use cell_types::{Cause, Machine, PlateId, Pose};
use std::io::Write;
use std::{fmt, io};

/// What a bar is of.
#[derive(Clone, Copy, Debug)]
pub(crate) enum What {
    /// A motion to a pose, or of a belt by its name.
    Motion(Pose),
    /// The machine that holds a zone.
    Holder(Machine),
    /// The plate at a station.
    Plate(PlateId),
    /// Why a machine is failed.
    Failed(Cause),
}

impl What {
    // The colour of its bar.
    fn fill(self) -> &'static str {
        match self {
            What::Motion(to) => motion_fill(to),
            What::Holder(machine) => machine_fill(machine),
            What::Plate(plate) => plate_fill(plate),
            What::Failed(_) => "#e53935",
        }
    }

    // The word that stands in its bar, of a plate without its number.
    fn word(self) -> &'static str {
        match self {
            What::Motion(to) => pose_word(to),
            What::Holder(machine) => machine_word(machine),
            What::Plate(_) => "plate",
            What::Failed(_) => "FAILED",
        }
    }

    // How wide a bar is at least in which the word stands.
    fn least_width(self) -> u64 {
        match self {
            What::Plate(_) => 24,
            What::Failed(_) => 0,
            _ => (self.word().len() as u64)
                .saturating_mul(6)
                .saturating_add(4),
        }
    }
}

impl fmt::Display for What {
    fn fmt<W: fmt::Write>(&self, f: &mut fmt::Formatter<W>) -> fmt::Result {
        match self {
            What::Motion(to) => write!(f, "{}", pose_word(*to)),
            What::Holder(machine) => write!(f, "held by {}", machine_name(*machine)),
            What::Plate(plate) => write!(f, "plate {}", plate.number()),
            What::Failed(cause) => write!(f, "failed, {}", cause_name(*cause)),
        }
    }
}

// The colour of a motion: a press that forges has its own.
fn motion_fill(to: Pose) -> &'static str {
    match to {
        Pose::Top => "#f0b45c",
        _ => "#a9c3e4",
    }
}

// The colour of a zone's bar by its holder.
fn machine_fill(machine: Machine) -> &'static str {
    match machine {
        Machine::Feed => "#c5e1a5",
        Machine::Table => "#ffe082",
        Machine::Robot => "#b39ddb",
        Machine::Press1 => "#ffab91",
        Machine::Press2 => "#f48fb1",
        Machine::Deposit => "#80cbc4",
    }
}

// The colour of a plate, of which there are eight.
fn plate_fill(plate: PlateId) -> &'static str {
    match plate.number() % 8 {
        0 => "#e6ee9c",
        1 => "#90caf9",
        2 => "#ffcc80",
        3 => "#a5d6a7",
        4 => "#ce93d8",
        5 => "#ef9a9a",
        6 => "#80deea",
        _ => "#bcaaa4",
    }
}

// Writes the word of a bar, where it has room.
fn write_word<W: Write>(out: &mut W, x: u64, y: u64, width: u64, what: What) -> io::Result<()> {
    if width < what.least_width() {
        return Ok(());
    }
    let left = x.saturating_add(3);
    let base = y.saturating_add(15);
    match &what {
        What::Plate(plate) => {
            let number = plate.number();
            writeln!(out, "<text x=\"{left}\" y=\"{base}\">{number}</text>")
        }
        What::Failed(_) => {
            writeln!(
                out,
                "<text x=\"{left}\" y=\"{base}\" font-weight=\"bold\" fill=\"#b00000\">FAILED</text>"
            )
        }
        _ => {
            let word = what.word();
            writeln!(out, "<text x=\"{left}\" y=\"{base}\">{word}</text>")
        }
    }
}

/// Draws what went on in a lane up to a time. A failure is drawn over what else is there, so that it shows through.
pub(crate) fn draw_bar<W: Write>(
    out: &mut W,
    scale: Scale,
    lane: Lane,
    open: Open,
    until: u64,
) -> io::Result<()> {
    let Open { what, since } = open;
    let x = scale.x(since);
    let y = lane.top();
    let width = scale.x(until).saturating_sub(x).max(2);
    let height = lane.height().saturating_sub(2);
    let fill = what.fill();
    let opacity = match what {
        What::Failed(_) => "0.25",
        _ => "1",
    };
    writeln!(
        out,
        "<rect x=\"{x}\" y=\"{y}\" width=\"{width}\" height=\"{height}\" fill=\"{fill}\" fill-opacity=\"{opacity}\" \
         stroke=\"#555555\" stroke-width=\"0.5\"><title>{what}: {since} to {until}</title></rect>"
    )?;
    write_word(out, x, y, width, what)
}
