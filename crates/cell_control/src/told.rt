//! What is told of a run.
ghost use Rattle.cell_control.specs.Controlling.{HasStatus};

use cell_lines::Loss;
use cell_output::status;
use cell_rounds::Halt;
use cell_types::Totals;
use cell_workers::End;
use std::io;
use std::io::Write;

// The words of an end.
fn end_words(end: End) -> &'static str {
    match end {
        End::Finished => "finished",
        End::Stalled => "stalled",
        End::TurnLimit => "turn limit",
        End::Memory => "memory",
        End::Full => "full",
    }
}

// The words of a lost cell.
fn loss_words(loss: Option<Loss>) -> &'static str {
    match loss {
        Some(Loss::Silence) | None => "cell gone",
        Some(Loss::End) => "cell ended",
        Some(Loss::TooManyLines) => "too many lines",
        Some(Loss::NoCell) => "no cell",
        Some(Loss::OtherVersion) => "another version",
        Some(Loss::ReadFault) => "read of the cell failed",
        Some(Loss::WriteFault) => "write to the cell failed",
    }
}

/// The exit status of a run that halted so.
pub(crate) fn status_of(halt: Halt, loss: Option<Loss>) -> u8
    ensures { HasStatus halt result }
{
    match (halt, loss) {
        (Halt::End(End::Finished), _) => status::SUCCESS,
        (Halt::End(End::Memory), _) => status::OUT_OF_MEMORY,
        (Halt::Unkept, _) => status::DEVICE_FAULT,
        (Halt::Gone, Some(Loss::ReadFault | Loss::WriteFault)) => status::DEVICE_FAULT,
        _ => status::REFUSED,
    }
}

/// Tells how a run halted, and what its book counts.
pub(crate) fn tell<E: Write>(
    errors: &mut E,
    halt: Halt,
    loss: Option<Loss>,
    totals: Totals,
) -> io::Result<()> {
    let words = match halt {
        Halt::End(end) => end_words(end),
        Halt::Gone => loss_words(loss),
        Halt::Unkept => "journal can't be written",
    };
    writeln!(errors, "{words}")?;
    writeln!(errors, "admitted {}", totals.admitted)?;
    writeln!(errors, "forged {}", totals.forged)?;
    writeln!(errors, "quarantined {}", totals.quarantined)?;
    writeln!(errors, "delivered {}", totals.delivered)
}
