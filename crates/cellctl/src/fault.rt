//! The status with which the program ends by an error of the system.
ghost use Rattle.std.specs.Prelude.{◌≡◌, ◌≢◌};
ghost use Rattle.std.specs.IoError.{error_kind};

use cell_output::status;
use std::io;
use std::io::ErrorKind;

/// The status of an error of the system: that of want of memory, or of a device.
pub(crate) fn status_of(error: &io::Error) -> u8
    ensures memory { error_kind error.now ≡ ErrorKind.OutOfMemory → result ≡ 4 }
    ensures device { error_kind error.now ≢ ErrorKind.OutOfMemory → result ≡ 3 }
{
    match error.kind() {
        ErrorKind::OutOfMemory => status::OUT_OF_MEMORY,
        _ => status::DEVICE_FAULT,
    }
}
