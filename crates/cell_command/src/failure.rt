//! What is told of a read or a write that failed, or of a thread that could not be started.
ghost use Rattle.std.specs.Prelude.{◌≡◌, OnOk, option_map};
ghost use Rattle.std.specs.Io.KnownBytes.{Appends};
ghost use Rattle.cell_command.specs.Failures.{cause_text, failure_line, kind_words, not_open, number_text};
ghost use Rattle.cell_command.specs.Failures.{number_words, resource_name, reason, refusal};

use crate::escaped::Escaped;
use std::io::{ErrorKind, Write};
use std::{fmt, io};

/// What failed: a file or a stream of which a read or a write did, or the threads of a run.
#[derive(Clone, Copy, Debug, PartialEq, Eq)]
pub enum Resource<'a> {
    /// The file of this path, of which a read failed.
    File(&'a str),
    /// Standard input, of which a read failed.
    Input,
    /// Standard output, of which a write failed.
    Output,
    /// Standard error, of which a write failed.
    Errors,
    /// The threads of the command `run`, of which one could not be started.
    Threads,
}

// Why a read or a write failed.
#[derive(Clone, Copy, Debug, PartialEq, Eq)]
enum Cause {
    // In words.
    Words(&'static str),
    // What failed, and the number of the system's error, for which there are no words.
    Number(&'static str, u32),
}

impl fmt::Display for Cause {
    ghost use Rattle.std.specs.Prelude.{Some};
    ghost use Rattle.cell_command.specs.Failures.{cause_text};

    ghost output = { λ cause. Some (cause_text cause) };

    fn fmt<W: fmt::Write>(&self, f: &mut fmt::Formatter<W>) -> fmt::Result {
        match self {
            Cause::Words(words) => write!(f, "{words}"),
            Cause::Number(words, number) => { write!(f, "{words} (error {number} of the system)") }
        }
    }
}

// What a resource is called.
fn name_of<'a>(resource: &Resource<'a>) -> &'a str
    ensures { result.now ≡ resource_name resource.now }
{
    match resource {
        Resource::File(path) => path,
        Resource::Input => "standard input",
        Resource::Output => "standard output",
        Resource::Errors => "standard error",
        Resource::Threads => "run",
    }
}

// What failed of a resource.
fn refusal_of(resource: &Resource<'_>) -> &'static str
    ensures { result.now ≡ refusal resource.now }
{
    match resource {
        Resource::File(_) | Resource::Input => "can't be read",
        Resource::Output | Resource::Errors => "can't be written",
        Resource::Threads => "no thread could be started",
    }
}

// The words for a resource that isn't open for what was tried.
fn not_open_of(resource: &Resource<'_>) -> &'static str
    ensures { result.now ≡ not_open resource.now }
{
    match resource {
        Resource::File(_) | Resource::Input => "not open for reading",
        Resource::Output | Resource::Errors => "not open for writing",
        Resource::Threads => "no thread could be started",
    }
}

// The words for a kind of error, where there are some.
fn words_of_kind(kind: ErrorKind) -> Option<&'static str>
    ensures { option_map (λ words. words.now) result ≡ kind_words kind }
{
    match kind {
        ErrorKind::NotFound => Some("no such file"),
        ErrorKind::PermissionDenied => Some("permission denied"),
        ErrorKind::NotADirectory => Some("its path goes through a file"),
        ErrorKind::IsADirectory => Some("is a folder"),
        ErrorKind::FilesystemLoop => Some("its links go in a circle"),
        ErrorKind::InvalidFilename => Some("its name is too long"),
        ErrorKind::FileTooLarge => Some("too large"),
        ErrorKind::StorageFull => Some("no space left"),
        ErrorKind::QuotaExceeded => Some("no space left in the quota"),
        ErrorKind::ReadOnlyFilesystem => Some("can't be written, as all of its file system"),
        ErrorKind::BrokenPipe => Some("nobody reads it any more"),
        ErrorKind::WouldBlock => Some("it would have to be waited for"),
        ErrorKind::TimedOut => Some("timed out"),
        ErrorKind::StaleNetworkFileHandle => Some("gone from its server"),
        ErrorKind::ResourceBusy => Some("in use"),
        ErrorKind::ExecutableFileBusy => Some("in use"),
        ErrorKind::WriteZero => Some("takes no more"),
        ErrorKind::Interrupted => Some("interrupted too often"),
        ErrorKind::OutOfMemory => Some("no memory for it"),
        _ => None,
    }
}

// The words for an error of Linux that has no kind, by its number, where there are some.
fn words_of_number(resource: &Resource<'_>, number: u32) -> Option<&'static str>
    ensures { option_map (λ words. words.now) result ≡ number_words resource.now number }
{
    match number {
        5 => Some("the device failed"),
        6 | 19 => Some("no such device"),
        9 => Some(not_open_of(resource)),
        23 | 24 => Some("too many files are open"),
        _ => None,
    }
}

// The cause of an error that has a number of the system's.
fn cause_of_number(resource: &Resource<'_>, number: u32) -> Cause
    ensures { cause_text result ≡ number_text resource.now number }
{
    match words_of_number(resource, number) {
        Some(words) => Cause::Words(words),
        None => Cause::Number(refusal_of(resource), number),
    }
}

// The cause of an error, where one may be known.
fn cause_of(resource: &Resource<'_>, error: Option<io::Error>) -> Cause
    ensures { cause_text result ≡ reason resource.now error }
{
    let Some(error) = error else {
        return Cause::Words(refusal_of(resource));
    };
    if let Some(words) = words_of_kind(error.kind()) {
        return Cause::Words(words);
    }
    match error.raw_os_error() {
        Some(number) => cause_of_number(resource, number.unsigned_abs()),
        None => Cause::Words(refusal_of(resource)),
    }
}

/// Tells in a line what failed, and why, where the error is known.
pub fn tell_failure<E: Write>(
    errors: &mut E,
    resource: &Resource<'_>,
    error: Option<io::Error>,
) -> io::Result<()>
    ensures { OnOk result (Appends (E.contents errors.old) (E.contents errors.new) (failure_line resource.now error)) }
{
    let name = Escaped(name_of(resource));
    let cause = cause_of(resource, error);
    writeln!(errors, "cellctl: {name}: {cause}")
}
