//! Why there is no chart, or not all of it.
ghost use Rattle.std.specs.Prelude.{◌≡◌};

use std::alloc::AllocError;
use std::error::Error;
use std::fmt;

/// Why there is no chart, or not all of it.
#[derive(Clone, Copy, Debug, PartialEq, Eq)]
pub enum ChartError {
    /// The journal has more entries than a chart shows. Nothing was written.
    TooManyEntries,
    /// Memory was refused. Nothing was written.
    OutOfMemory,
    /// The writer failed. A first part may be written.
    WriteFault,
}

impl fmt::Display for ChartError {
    ghost use Rattle.std.specs.Prelude.{Some};
    ghost use Rattle.cell_show.specs.Chart.{error_text};

    ghost output = { λ why. Some (error_text why) };

    fn fmt<W: fmt::Write>(&self, f: &mut fmt::Formatter<W>) -> fmt::Result {
        match self {
            ChartError::TooManyEntries => write!(f, "TooManyEntries"),
            ChartError::OutOfMemory => write!(f, "OutOfMemory"),
            ChartError::WriteFault => write!(f, "WriteFault"),
        }
    }
}

impl Error for ChartError {}

impl From<AllocError> for ChartError {
    ghost use Rattle.std.specs.Prelude.{◌≡◌};
    ghost use Rattle.cell_show.specs.declared.chart.error.ChartError.TheVariants as error;

    ghost from_gives = { λ _ e. e ≡ error.OutOfMemory };

    fn from(_refused: AllocError) -> ChartError {
        ChartError::OutOfMemory
    }
}
