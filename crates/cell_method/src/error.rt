//! Why a run breaks off.
use line_reader::ReadFault;
use std::io;

/// Why a run breaks off.
#[derive(Clone, Copy, Debug, PartialEq, Eq)]
pub enum DriveError {
    /// The reader of the method's lines failed.
    ReadFault,
    /// The writer of the answers failed.
    WriteFault,
    /// Memory was refused.
    OutOfMemory,
}

impl From<ReadFault> for DriveError {
    ghost use Rattle.std.specs.Prelude.{◌≡◌};
    ghost use Rattle.cell_method.specs.declared.error.DriveError.TheVariants as error;

    ghost from_gives = { λ _ e. e ≡ error.ReadFault };

    fn from(_error: ReadFault) -> DriveError {
        DriveError::ReadFault
    }
}

impl From<io::Error> for DriveError {
    ghost use Rattle.std.specs.Prelude.{◌≡◌};
    ghost use Rattle.cell_method.specs.declared.error.DriveError.TheVariants as error;

    ghost from_gives = { λ _ e. e ≡ error.WriteFault };

    fn from(_error: io::Error) -> DriveError {
        DriveError::WriteFault
    }
}
