//! Cells that are given as lines.
use cell_control::{ControlOptions, Finished, Streams, control_cell, read_orders};
use cell_plant::Unkept;
use cell_runs::empty_book;
use plate_book::Book;
use std::io::Write;
use std::process::Abort;
use std::test::Fail;

/// A new run, of which nothing is told besides.
pub(crate) const NEW: ControlOptions = ControlOptions {
    explain: false,
    wait: false,
    resume: false,
};

/// A new run that goes on where it is stalled.
pub(crate) const WAITING: ControlOptions = ControlOptions { wait: true, ..NEW };

/// A new run of which it is told why it ended so.
pub(crate) const EXPLAINED: ControlOptions = ControlOptions {
    explain: true,
    ..NEW
};

/// A run that goes on from a journal.
pub(crate) const RESUMED: ControlOptions = ControlOptions {
    explain: false,
    wait: false,
    resume: true,
};

/// What the machines show at the opening.
pub(crate) const STILL: &str = "\
reading,feed,,
reading,table,low/belt,
reading,robot,table1/in/in,
reading,press1,middle,
reading,press2,middle,
reading,deposit,,
";

/// The lines that stop all machines.
pub(crate) const STOP: &str = "\
all_off,feed,,
all_off,table,,
all_off,robot,,
all_off,press1,,
all_off,press2,,
all_off,deposit,,
";

/// An empty book for one plate.
pub(crate) fn new_book<R: AllocGlobal + Abort>(rt: &R) -> Book {
    let orders = read_orders(rt.alloc(), b"plates = 1\n", b"")
        .ok()
        .expect(rt, "orders");
    empty_book(rt.alloc(), &orders.plan)
        .ok()
        .expect(rt, "a book")
}

/// What a run left of a cell whose lines are these parts of a text, from this book on, with this script of the
/// operator.
pub(crate) fn controlled<R: AllocGlobal + Abort>(
    rt: &R,
    book: Book,
    operator: &str,
    options: ControlOptions,
    parts: &[&str],
) -> Result<Finished<Vec<u8>, Vec<u8>>, Fail> {
    let lines = joined(rt, parts)?;
    let streams = Streams {
        input: lines.as_slice(),
        output: Vec::new(rt.alloc()),
        errors: Vec::new(rt.alloc()),
    };
    Ok(controlled_over(rt, book, operator, options, streams))
}

/// The same over these streams.
pub(crate) fn controlled_over<R: AllocGlobal + Abort, W: Write + Drop, E: Write + Drop>(
    rt: &R,
    book: Book,
    operator: &str,
    options: ControlOptions,
    streams: Streams<&[u8], W, E>,
) -> Finished<W, E> {
    let alloc = rt.alloc();
    let orders = read_orders(alloc, b"plates = 1\n", operator.as_bytes());
    let orders = orders.ok().expect(rt, "orders");
    control_cell(alloc, orders, book, options, &mut Unkept, streams)
}

/// Parts of a text, one after the other.
pub(crate) fn joined<R: AllocGlobal>(rt: &R, parts: &[&str]) -> Result<Vec<u8>, Fail> {
    let mut text = Vec::new(rt.alloc());
    for part in parts {
        text.extend_from_slice(part.as_bytes())?;
    }
    Ok(text)
}

/// What was written has to be these parts, and what was told has to begin so, with this status.
pub(crate) fn is_due<R: AllocGlobal + Abort>(
    rt: &R,
    left: &Finished<Vec<u8>, Vec<u8>>,
    output: &[&str],
    errors: &[&str],
    status: u8,
) -> Result<(), Fail> {
    let written = joined(rt, output)?;
    let told = joined(rt, errors)?;
    assert!(rt; left.output.as_slice() == written.as_slice());
    assert!(rt; left.errors.as_slice().starts_with(told.as_slice()));
    assert!(rt; matches!(left.status, Ok(found) if found == status));
    Ok(())
}
