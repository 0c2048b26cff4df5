//! `cellctl`: the audit and the migration of a production cell's journal, its pictures and explanations, the check of a
//! run's settings, and the runs of the simulated cell.
#![tactic(auto)]

mod asked;
mod continued;
mod control;
mod driven;
mod end;
mod fault;
mod least;
mod named;
mod orders;
mod sweep;

ghost use Rattle.std.specs.Prelude.{◌≡◌, ◌⊎◌, IfOk, map};
ghost use Rattle.std.specs.Io.KnownBytes.{Keeps};
ghost use Rattle.clap.specs.Words.{kind_of};
ghost use Rattle.cell_output.specs.Watched.{bytes_held};
ghost use Rattle.cellctl.specs.Carried.{IsTurnedAway, Obeys, status_of_error};

use cell_command::{Escaped, Resource, read_words};
use cell_explain::endings::{EndedRun, write_ending};
use cell_orders::{CommandError, Failure};
use cell_output::{WatchedWriter, status};
use cell_rows::{TellsFault, Watched};
use clap::Error;
use clap::error::ErrorKind;
use end::{Failed, Faults, tell_end};
use fault::status_of;
use named::Named;
use orders::{Carried, carry_out};
use std::alloc::{AllocError, Global};
use std::env::Env;
use std::io::{BufReader, BufWriter, IsTerminal, Write};
use std::process::ExitCode;
use std::rt::Files;
use std::sync::Wait;
use std::thread::Threads;
use std::{env, io};

// How a command line was obeyed.
#[derive(Clone, Copy, Debug)]
struct Obeyed {
    status: u8,
    // Whether there was no run, since no thread could be started.
    lacks_thread: bool,
}

// Writes clap's words to the errors. What they print of the command line has no control characters but line feeds.
fn write_refusal<E: Write>(alloc: Global, errors: &mut E, error: &Error) -> io::Result<()> {
    let text = error.to_string(alloc)?;
    for line in text.as_str().split_terminator('\n') {
        let line = Escaped(line);
        writeln!(errors, "{line}")?;
    }
    Ok(())
}

// Writes clap's words to the errors, or the help that was asked for to the output, and gives the status.
fn refuse<W: Write, E: Write>(
    alloc: Global,
    output: &mut W,
    errors: &mut E,
    error: &Error,
) -> io::Result<u8>
    ensures { IfOk result (λ status. status ≡ status_of_error (kind_of error.now)) }
{
    if error.kind() == ErrorKind::OutOfMemory {
        return Ok(status::OUT_OF_MEMORY);
    }
    if error.use_stderr() {
        write_refusal(alloc, errors, error)?;
        Ok(status::WRONG_ARGUMENTS)
    } else {
        write!(output, "{error}")?;
        output.flush()?;
        Ok(status::SUCCESS)
    }
}

// Writes out all that was written for an order, and then explains the end of a run, where that is wanted. It gives the
// status.
fn finish<W: Write, E: Write>(
    alloc: Global,
    output: &mut W,
    errors: &mut E,
    carried: Carried,
) -> io::Result<u8>
    ensures status { IfOk result (λ status. status ≡ carried.status) }
    ensures kept { Keeps (W.contents output.old) (W.contents output.new) }
{
    let Carried {
        status,
        ending,
        is_out,
        ..
    } = carried;
    if !is_out {
        output.flush()?;
    }
    if let Some(ending) = ending {
        let run = EndedRun {
            journal: &ending.run.journal,
            before: ending.before,
            end: ending.run.end,
            plan: &ending.run.plan,
            faults: ending.faults.as_slice(),
            operator: ending.operator.as_slice(),
        };
        write_ending(alloc, &run, errors)?;
    }
    Ok(status)
}

// Reads words, and does what they say over any reader and writers. With `progress` the errors tell how far what takes
// long is.
fn main_over<
    'a,
    R: AllocGlobal + Files + Threads + Wait + Sync,
    I: TellsFault + Drop,
    W: Write,
    E: Write,
>(
    rt: &R,
    input: I,
    output: &mut WatchedWriter<'_, W>,
    errors: &mut WatchedWriter<'_, E>,
    progress: bool,
    words: &'a [&'a str],
) -> Result<Obeyed, Failure<'a>>
    ensures { IfOk result (λ obeyed. Obeys (map (λ w. w.now) words.now) (I.remaining input)
        (bytes_held W.contents output.old) (bytes_held W.contents output.new) (bytes_held E.contents errors.old)
        obeyed.status
        ⊎ IsTurnedAway (map (λ w. w.now) words.now) obeyed.status) }
{
    match read_words(rt.alloc(), words) {
        Ok(order) => match carry_out(rt, input, output, errors, progress, order) {
            Ok(carried) => {
                let lacks_thread = carried.lacks_thread;
                let status = finish(rt.alloc(), output, errors, carried)?;
                Ok(Obeyed {
                    status,
                    lacks_thread,
                })
            }
            Err(CommandError::Write(_)) => Ok(Obeyed {
                status: status::DEVICE_FAULT,
                lacks_thread: false,
            }),
            Err(CommandError::System(failure)) => Err(failure),
        },
        Err(error) => Ok(Obeyed {
            status: refuse(rt.alloc(), output, errors, &error)?,
            lacks_thread: false,
        }),
    }
}

// The words of the command line, of which the first is the program's name. A word that isn't UTF-8 is invalid data.
fn words_of<R: AllocGlobal + Env>(rt: &R) -> io::Result<Vec<String>> {
    let alloc = rt.alloc();
    let arguments = env::args(&(Named { rt }, alloc))?;
    Ok(arguments.collect(alloc)?)
}

// The same words, as they are read.
fn texts_of(alloc: Global, words: &[String]) -> Result<Vec<&str>, AllocError> {
    let mut texts = Vec::new(alloc);
    for word in words {
        texts.push(word.as_str())?;
    }
    Ok(texts)
}

// Reads words, does what they say over the standard streams, and notes the errors of those.
fn over_streams<'a, R: AllocGlobal + Files + Input + Print + Threads + Wait + Sync, E: Print>(
    rt: &R,
    errors: &E,
    progress: bool,
    words: &'a [&'a str],
    faults: &mut Faults,
) -> Result<Obeyed, Failure<'a>> {
    let mut input = Watched::new(BufReader::new(rt.alloc(), rt.reader())?);
    let mut output = BufWriter::new(rt.alloc(), io::writer(rt))?;
    let mut output = WatchedWriter::new(&mut output);
    let mut errors = io::writer(errors);
    let mut errors = WatchedWriter::new(&mut errors);
    let obeyed = main_over(rt, &mut input, &mut output, &mut errors, progress, words);
    *faults = Faults {
        input: input.error(),
        output: output.error(),
        errors: errors.error(),
    };
    obeyed
}

// Reads words, does what they say, tells where it failed, and gives the status.
fn obey<R: AllocGlobal + Files + Input + Print + Threads + Wait + Sync, E: Print>(
    rt: &R,
    errors: &E,
    progress: bool,
    words: &[&str],
) -> u8 {
    let mut faults = Faults::NONE;
    match over_streams(rt, errors, progress, words, &mut faults) {
        Ok(
            Obeyed {
                status,
                lacks_thread: true,
            },
        ) => told(errors, status, Some(Failed::NO_THREAD)),
        Ok(Obeyed { status, .. }) => told(errors, status, faults.failed(status)),
        Err(Failure { file, error }) => {
            let status = status_of(&error);
            let failed = match file {
                Some(path) => Some(Failed {
                    resource: Resource::File(path),
                    error: Some(error),
                }),
                None => faults.failed(status),
            };
            told(errors, status, failed)
        }
    }
}

// Tells where the program failed, if it did, and gives the status. Where standard error fails too the status alone
// tells.
fn told<E: Print>(errors: &E, status: u8, failed: Option<Failed<'_>>) -> u8
    ensures { result ≡ status }
{
    let _ = tell_end(&mut io::writer(errors), status, failed);
    status
}

// Tells that a word isn't UTF-8, and gives the status.
fn refuse_bytes<E: Write>(errors: &mut E) -> u8 {
    match writeln!(errors, "error: an argument isn't UTF-8") {
        Ok(()) => status::WRONG_ARGUMENTS,
        Err(_) => status::DEVICE_FAULT,
    }
}

// Reads the words of the command line, does what they say, tells where it failed, and gives the status.
fn run<R: AllocGlobal + Env + Files + Input + Print + Threads + Wait + Sync, E: Print>(
    rt: &R,
    errors: &E,
    progress: bool,
) -> u8 {
    let words = match words_of(rt) {
        Ok(words) => words,
        Err(e) if e.kind() == io::ErrorKind::InvalidData => {
            return refuse_bytes(&mut io::writer(errors));
        }
        Err(e) => return told(errors, status_of(&e), None),
    };
    match texts_of(rt.alloc(), words.as_slice()) {
        Ok(texts) => obey(rt, errors, progress, texts.as_slice()),
        Err(_) => told(errors, status::OUT_OF_MEMORY, None),
    }
}

fn main(rt: HostRuntime) -> ExitCode {
    let errors = rt.stderr();
    let progress = errors.is_terminal();
    ExitCode::from(run(&rt, &errors, progress))
}
