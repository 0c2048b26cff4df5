//! The command that controls a cell over the standard streams.

use cell_audit::{AuditError, write_answer};
use cell_command::Controlling;
use cell_control::{ControlOptions, Orders, Streams, control_cell, read_orders};
use cell_journal_file::{JournalFile, Past, PastError, read_past};
use cell_orders::{CommandError, Failure, script_in, settings_in, tell_too_long, wrong};
use cell_output::{WatchedWriter, status};
use cell_plant::Unkept;
use cell_rows::TellsFault;
use cell_runs::{empty_book, refuse_input};
use plate_book::Book;
use std::fs::{File, OpenFile};
use std::io;
use std::io::{ErrorKind, Write};
use std::rt::Files;

/// The journal's file that is to be written, and how much of it stands.
#[derive(Drop)]
struct Opened<F> {
    file: F,
    past: Option<Past>,
}

// An answer of the system about the file of a path, whose error names that file.
fn about<'a, T>(path: &'a str, answer: io::Result<T>) -> Result<T, Failure<'a>> {
    match answer {
        Ok(value) => Ok(value),
        Err(error) => Err(Failure {
            file: Some(path),
            error,
        }),
    }
}

// How a cell is to be controlled.
fn options_of(controlling: &Controlling<'_>) -> ControlOptions {
    ControlOptions {
        explain: controlling.explain,
        wait: controlling.wait,
        resume: controlling.resume,
    }
}

// Tells that no run can go on from a journal's file, and why, and gives the status.
fn refuse_past<'a, E: Write>(
    errors: &mut WatchedWriter<'_, E>,
    why: PastError,
) -> Result<u8, CommandError<'a>> {
    match why {
        PastError::Refused(AuditError::ReadFault) => Ok(status::DEVICE_FAULT),
        PastError::Refused(why) => Ok(write_answer(errors, Err(why))?),
        PastError::OtherProfile => {
            writeln!(
                errors,
                "the journal is of profile 1, which cellctl migrate writes in profile 2"
            )?;
            Ok(status::REFUSED)
        }
    }
}

// Cuts off what stands behind the last whole line of a journal's file.
fn cut<F: OpenFile, E: Write>(file: &F, past: &Past, errors: &mut E) -> io::Result<()> {
    if past.whole == past.length {
        return Ok(());
    }
    file.set_len(past.whole)?;
    let count = past.length.saturating_sub(past.whole);
    writeln!(
        errors,
        "a last record without its end was cut off: {count} bytes"
    )
}

// The file of a journal that is to be begun, unless it is there already.
fn begin_in<'a, R: Files>(rt: &R, path: &'a str) -> Result<Option<Opened<R::File>>, Failure<'a>> {
    match File::create_new(rt, path) {
        Ok(file) => Ok(Some(Opened { file, past: None })),
        Err(error) if error.kind() == ErrorKind::AlreadyExists => Ok(None),
        Err(error) => about(path, Err(error)),
    }
}

// The book from which a run goes on, and its journal's file.
fn started<R: AllocGlobal, F: Write + OpenFile + Drop, E: Write>(
    rt: &R,
    opened: Opened<F>,
    orders: &Orders<'_>,
    sync: bool,
    errors: &mut E,
) -> io::Result<(Book, JournalFile<F>)> {
    let alloc = rt.alloc();
    let Opened { file, past } = opened;
    let Some(past) = past else {
        let journal = JournalFile::begin(alloc, file, sync)?;
        return Ok((empty_book(alloc, &orders.plan)?, journal));
    };
    cut(&file, &past, errors)?;
    let journal = if past.whole == 0 {
        JournalFile::begin(alloc, file, sync)?
    } else {
        JournalFile::resume(alloc, file, sync, past.whole)
    };
    Ok((past.book, journal))
}

// Controls a cell, and writes its journal ahead to the file of a path.
fn control_kept<'a, R: AllocGlobal + Files, I: TellsFault + Drop, W: Write + Drop, E: Write + Drop>(
    rt: &R,
    path: &'a str,
    opened: Opened<R::File>,
    orders: Orders<'_>,
    controlling: &Controlling<'a>,
    mut streams: Streams<I, W, E>,
) -> Result<u8, CommandError<'a>> {
    let started = started(rt, opened, &orders, controlling.sync, &mut streams.errors);
    let (book, mut journal) = about(path, started)?;
    let options = options_of(controlling);
    let told = control_cell(rt.alloc(), orders, book, options, &mut journal, streams);
    match journal.fault() {
        Some(error) => Ok(about(path, Err(error))?),
        None => Ok(told.status?),
    }
}

// Controls a cell, and keeps no journal.
fn control_unkept<'a, R: AllocGlobal, I: TellsFault + Drop, W: Write + Drop, E: Write + Drop>(
    rt: &R,
    orders: Orders<'_>,
    controlling: &Controlling<'a>,
    streams: Streams<I, W, E>,
) -> Result<u8, CommandError<'a>> {
    let alloc = rt.alloc();
    let book = empty_book(alloc, &orders.plan)?;
    let options = options_of(controlling);
    let told = control_cell(alloc, orders, book, options, &mut Unkept, streams);
    Ok(told.status?)
}

// What comes of the file of a journal that is asked for.
#[derive(Drop)]
enum Found<F> {
    // The run begins with it, or goes on from it.
    File(Opened<F>),
    // No run can go on from it.
    Refused(PastError),
    // It is there already, and none is to go on from it.
    Already,
}

// The file of a journal that is to be gone on from, as far as it is legal.
fn past_in<'a, R: AllocGlobal + Files>(
    rt: &R,
    path: &'a str,
    orders: &Orders<'_>,
) -> Result<Found<R::File>, Failure<'a>> {
    let opened = File::options().read(true).append(true).open(rt, path);
    let mut file = about(path, opened)?;
    match about(path, read_past(rt.alloc(), &mut file, &orders.plan))? {
        Ok(past) => Ok(Found::File(Opened {
            file,
            past: Some(past),
        })),
        Err(why) => Ok(Found::Refused(why)),
    }
}

// Finds the file of a journal, which is there exactly if a run is to go on from it.
fn found_in<'a, R: AllocGlobal + Files>(
    rt: &R,
    path: &'a str,
    orders: &Orders<'_>,
    resume: bool,
) -> Result<Found<R::File>, Failure<'a>> {
    if resume {
        return past_in(rt, path, orders);
    }
    match begin_in(rt, path)? {
        Some(opened) => Ok(Found::File(opened)),
        None => Ok(Found::Already),
    }
}

// Controls a cell by orders that were read.
fn control_orders<'a, R: AllocGlobal + Files, I: TellsFault + Drop, W: Write, E: Write>(
    rt: &R,
    orders: Orders<'_>,
    controlling: &Controlling<'a>,
    input: I,
    output: &mut WatchedWriter<'_, W>,
    errors: &mut WatchedWriter<'_, E>,
) -> Result<u8, CommandError<'a>> {
    let Some(path) = controlling.journal else {
        let streams = Streams {
            input,
            output,
            errors,
        };
        return control_unkept(rt, orders, controlling, streams);
    };
    let opened = match found_in(rt, path, &orders, controlling.resume)? {
        Found::File(opened) => opened,
        Found::Refused(why) => return refuse_past(errors, why),
        Found::Already => {
            let why = "the file of --journal is there already, and --resume goes on from it";
            return Ok(wrong(errors, why)?);
        }
    };
    let streams = Streams {
        input,
        output,
        errors,
    };
    control_kept(rt, path, opened, orders, controlling, streams)
}

/// Controls the cell whose lines are on the input, by what two files say. They are read before any is judged; all that
/// is told is told among the errors.
pub(crate) fn control_words<'a, R: AllocGlobal + Files, I: TellsFault + Drop, W: Write, E: Write>(
    rt: &R,
    input: I,
    output: &mut WatchedWriter<'_, W>,
    errors: &mut WatchedWriter<'_, E>,
    controlling: Controlling<'a>,
) -> Result<u8, CommandError<'a>> {
    if controlling.resume && controlling.journal.is_none() {
        return Ok(wrong(errors, "--resume goes on from the file of --journal")?);
    }
    if controlling.sync && controlling.journal.is_none() {
        return Ok(wrong(errors, "--sync goes with --journal")?);
    }
    let settings = settings_in(rt, controlling.settings)?;
    let operator = script_in(rt, controlling.operator)?.bytes;
    let Some(settings) = settings else {
        return Ok(tell_too_long(errors)?);
    };
    match read_orders(rt.alloc(), settings.as_slice(), operator.as_slice()) {
        Ok(orders) => control_orders(rt, orders, &controlling, input, output, errors),
        Err(error) => Ok(refuse_input(errors, error)?),
    }
}
