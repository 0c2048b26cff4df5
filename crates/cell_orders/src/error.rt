//! Why a command has no status.
ghost use Rattle.std.specs.Prelude.{◌≡◌, Some};
ghost use Rattle.cell_orders.specs.Commands.{failed_at};

use crate::failure::Failure;
use cell_output::WriteFault;
use std::alloc::AllocError;
use std::io;

/// Why a command ends without a status.
#[derive(Clone, Copy, Debug)]
pub enum CommandError<'a> {
    /// A write was refused, as its watched writer noted.
    Write(WriteFault),
    /// A read failed, or a write that isn't watched, or memory was refused.
    System(Failure<'a>),
}

impl<'a> CommandError<'a> {
    /// An error of the system at the file of a path.
    pub(crate) fn at(path: &'a str, error: io::Error) -> CommandError<'a>
        ensures { result ≡ failed_at (Some path.entry) error }
    {
        CommandError::System(Failure {
            file: Some(path),
            error,
        })
    }
}

impl<'a> From<WriteFault> for CommandError<'a> {
    ghost use Rattle.std.specs.Prelude.{◌≡◌};
    ghost use Rattle.cell_orders.specs.declared.error.CommandError.TheVariants as kinds;

    ghost from_gives = { λ fault error. error ≡ kinds.Write fault };

    fn from(fault: WriteFault) -> CommandError<'a> {
        CommandError::Write(fault)
    }
}

impl<'a> From<Failure<'a>> for CommandError<'a> {
    ghost use Rattle.std.specs.Prelude.{◌≡◌};
    ghost use Rattle.cell_orders.specs.declared.error.CommandError.TheVariants as kinds;

    ghost from_gives = { λ failure error. error ≡ kinds.System failure };

    fn from(failure: Failure<'a>) -> CommandError<'a> {
        CommandError::System(failure)
    }
}

impl<'a> From<io::Error> for CommandError<'a> {
    ghost use Rattle.std.specs.Prelude.{◌≡◌, None};
    ghost use Rattle.cell_orders.specs.Commands.{failed_at};

    ghost from_gives = { λ e error. error ≡ failed_at None e };

    fn from(error: io::Error) -> CommandError<'a> {
        CommandError::System(Failure { file: None, error })
    }
}

impl<'a> From<AllocError> for CommandError<'a> {
    ghost use Rattle.cell_orders.specs.Commands.{IsUnnamed};

    ghost from_gives = { λ _ error. IsUnnamed error };

    fn from(error: AllocError) -> CommandError<'a> {
        CommandError::from(io::Error::from(error))
    }
}
