//! What is told where the program ends by a device that failed or for want of memory.
ghost use Rattle.std.specs.Prelude.{◌≡◌, OnOk};
ghost use Rattle.std.specs.Io.KnownBytes.{Appends};
ghost use Rattle.cellctl.specs.Ends.{end_lines, failed_line, lines_below, or_failed, stream_failed, unknown_failed};

use cell_command::{Resource, tell_failure};
use cell_output::status;
use std::io;
use std::io::Write;

/// For each standard stream the error of its last call that failed, if one did.
#[derive(Clone, Copy, Debug)]
pub(crate) struct Faults {
    pub(crate) input: Option<io::Error>,
    pub(crate) output: Option<io::Error>,
    pub(crate) errors: Option<io::Error>,
}

/// What failed, and the error, if it is known.
#[derive(Clone, Copy, Debug)]
pub(crate) struct Failed<'a> {
    pub(crate) resource: Resource<'a>,
    pub(crate) error: Option<io::Error>,
}

impl Failed<'_> {
    /// No thread could be started.
    pub(crate) const NO_THREAD: Failed<'static> = Failed {
        resource: Resource::Threads,
        error: None,
    };
}

// A stream that failed by an error, or else what failed beside it.
fn or_failed<'a>(
    resource: Resource<'a>,
    error: Option<io::Error>,
    other: Option<Failed<'a>>,
) -> Option<Failed<'a>>
    ensures { result ≡ or_failed resource.entry error other.entry }
{
    match error {
        Some(_) => Some(Failed { resource, error }),
        None => other,
    }
}

// What failed where no stream has an error.
fn unknown_failed<'a>(status: u8) -> Option<Failed<'a>>
    ensures { result ≡ unknown_failed status }
{
    if status == status::DEVICE_FAULT {
        Some(Failed {
            resource: Resource::Output,
            error: None,
        })
    } else {
        None
    }
}

impl Faults {
    /// No call has failed.
    pub(crate) const NONE: Faults = Faults {
        input: None,
        output: None,
        errors: None,
    };

    /// The stream that failed, where the program ends with a status. If none has an error, a write of standard output
    /// took nothing.
    pub(crate) fn failed<'a>(&self, status: u8) -> Option<Failed<'a>>
        ensures { result ≡ stream_failed self.now status }
    {
        let errors = or_failed(Resource::Errors, self.errors, unknown_failed(status));
        let output = or_failed(Resource::Output, self.output, errors);
        or_failed(Resource::Input, self.input, output)
    }
}

// Tells what failed, if it is known.
fn tell_failed<E: Write>(errors: &mut E, failed: Option<Failed<'_>>) -> io::Result<()>
    ensures { OnOk result (Appends (E.contents errors.old) (E.contents errors.new) (failed_line failed.entry)) }
{
    match failed {
        Some(failed) => tell_failure(errors, &failed.resource, failed.error),
        None => Ok(()),
    }
}

// Writes a line, and below it what failed, if it is known.
fn tell_below<E: Write>(errors: &mut E, line: &str, failed: Option<Failed<'_>>) -> io::Result<()>
    ensures { OnOk result (Appends (E.contents errors.old) (E.contents errors.new)
        (lines_below line.now failed.entry)) }
{
    writeln!(errors, "{line}")?;
    tell_failed(errors, failed)
}

/// Tells among the errors that the program ends by a device that failed or for want of memory, where a status says so,
/// and then what failed, and why.
pub(crate) fn tell_end<E: Write>(
    errors: &mut E,
    status: u8,
    failed: Option<Failed<'_>>,
) -> io::Result<()>
    ensures { OnOk result (Appends (E.contents errors.old) (E.contents errors.new) (end_lines status failed.entry)) }
{
    match status {
        status::DEVICE_FAULT => tell_below(errors, "read fault", failed),
        status::OUT_OF_MEMORY => tell_below(errors, "out of memory", failed),
        _ => Ok(()),
    }
}
