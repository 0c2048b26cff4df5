//! Why nothing is shown, or not all of it.
ghost use Rattle.std.specs.Prelude.{◌≡◌};
ghost use Rattle.cell_show.specs.Shown.{entries_word};

use crate::page::{MAX_PAGE_ENTRIES, PageError};
use cell_output::WriteFault;
use std::error::Error;
use std::fmt;

/// Why nothing is shown, or not all of it.
#[derive(Clone, Copy, Debug, PartialEq, Eq)]
pub enum ShowError {
    /// The journal has only so many entries before the first that can't be read or isn't allowed. Nothing was written.
    NoSuchEntry(u32),
    /// The journal has more entries than a chart or a picture in which they play shows. Nothing was written.
    TooManyEntries,
    /// The writer failed. A first part may be written.
    WriteFault,
}

// The word for so many entries.
fn word_of(entries: u32) -> &'static str
    ensures { result.now ≡ entries_word entries }
{
    if entries == 1 { "entry" } else { "entries" }
}

impl fmt::Display for ShowError {
    ghost use Rattle.std.specs.Prelude.{Some};
    ghost use Rattle.cell_show.specs.Shown.{error_text};

    ghost output = { λ why. Some (error_text why) };

    fn fmt<W: fmt::Write>(&self, f: &mut fmt::Formatter<W>) -> fmt::Result {
        match self {
            ShowError::NoSuchEntry(entries) => {
                let word = word_of(*entries);
                write!(f, "NoSuchEntry: the journal has {entries} {word}")
            }
            ShowError::TooManyEntries => {
                write!(
                    f,
                    "TooManyEntries: such a picture shows at most {MAX_PAGE_ENTRIES} entries; of a longer journal \
                        --html --from N --count M shows a part"
                )
            }
            ShowError::WriteFault => write!(f, "WriteFault"),
        }
    }
}

impl Error for ShowError {}

impl From<WriteFault> for ShowError {
    ghost use Rattle.std.specs.Prelude.{◌≡◌};
    ghost use Rattle.cell_show.specs.declared.error.ShowError.TheVariants as error;

    ghost from_gives = { λ _ e. e ≡ error.WriteFault };

    fn from(_fault: WriteFault) -> ShowError {
        ShowError::WriteFault
    }
}

impl From<PageError> for ShowError {
    ghost use Rattle.std.specs.Prelude.{◌≡◌};
    ghost use Rattle.cell_show.specs.Shown.{of_page};

    ghost from_gives = { λ why e. e ≡ of_page why };

    fn from(why: PageError) -> ShowError {
        match why {
            PageError::TooManyEntries => ShowError::TooManyEntries,
            PageError::WriteFault => ShowError::WriteFault,
        }
    }
}
