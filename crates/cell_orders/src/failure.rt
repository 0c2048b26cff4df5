//! An error of the system, and the file that it is of.
use std::alloc::AllocError;
use std::io;

/// An error of the system, with the path of the file that could not be read, where it is one that the command line
/// names.
#[derive(Clone, Copy, Debug)]
pub struct Failure<'a> {
    pub file: Option<&'a str>,
    pub error: io::Error,
}

impl<'a> From<io::Error> for Failure<'a> {
    ghost use Rattle.std.specs.Prelude.{◌≡◌, None};

    ghost from_gives = { λ e failure. (failure.file ≡ None) × (failure.error ≡ e) };

    fn from(error: io::Error) -> Failure<'a> {
        Failure { file: None, error }
    }
}

impl<'a> From<AllocError> for Failure<'a> {
    ghost use Rattle.std.specs.Prelude.{◌≡◌, None};

    ghost from_gives = { λ _ failure. failure.file ≡ None };

    fn from(error: AllocError) -> Failure<'a> {
        Failure {
            file: None,
            error: io::Error::from(error),
        }
    }
}
