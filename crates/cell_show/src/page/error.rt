//! Why a page isn't written whole.
use std::error::Error;
use std::{fmt, io};

/// Why a page isn't written whole.
#[derive(Clone, Copy, Debug, PartialEq, Eq)]
pub enum PageError {
    /// The journal has more entries than a picture in which they play shows. Nothing was written.
    TooManyEntries,
    /// The writer failed. A first part of the page may be written.
    WriteFault,
}

impl fmt::Display for PageError {
    ghost use Rattle.std.specs.Prelude.{Some};
    ghost use Rattle.cell_show.specs.Page.{error_text};

    ghost output = { λ why. Some (error_text why) };

    fn fmt<W: fmt::Write>(&self, f: &mut fmt::Formatter<W>) -> fmt::Result {
        match self {
            PageError::TooManyEntries => write!(f, "TooManyEntries"),
            PageError::WriteFault => write!(f, "WriteFault"),
        }
    }
}

impl Error for PageError {}

impl From<io::Error> for PageError {
    ghost use Rattle.std.specs.Prelude.{◌≡◌};
    ghost use Rattle.cell_show.specs.declared.page.error.PageError.TheVariants as error;

    ghost from_gives = { λ _ e. e ≡ error.WriteFault };

    fn from(_error: io::Error) -> PageError {
        PageError::WriteFault
    }
}
