//! What is told of the lines of the cell that can't be read, and of what was done there that isn't allowed.
use cell_types::texts::{machine_word, station_word};
use operator_desk::Task;
use plate_book::Refusal;
use std::fmt;
use std::io::Write;

// The bytes of a line, with a question mark in place of each that isn't plain.
#[derive(Clone, Copy)]
struct Plain<'a>(&'a [u8]);

impl fmt::Display for Plain<'_> {
    fn fmt<W: fmt::Write>(&self, f: &mut fmt::Formatter<W>) -> fmt::Result {
        for byte in self.0 {
            let sign = match *byte {
                b' '..=b'~' => char::from(*byte),
                _ => '?',
            };
            write!(f, "{sign}")?;
        }
        Ok(())
    }
}

/// Tells that a line of this number can't be read.
pub(crate) fn tell_line<E: Write>(errors: &mut E, number: u64, line: &[u8]) {
    let line = Plain(line);
    let _ = writeln!(errors, "line {number} of the cell can't be read: {line}");
}

/// Tells that the cell plans another number of plates than the settings.
pub(crate) fn tell_plates<E: Write>(errors: &mut E, planned: u32, plates: u32) {
    let _ = writeln!(
        errors,
        "the cell plans {planned} plates, and the settings {plates}"
    );
}

// What was done at the cell, in words.
#[derive(Clone, Copy)]
struct Done(Task);

impl fmt::Display for Done {
    fn fmt<W: fmt::Write>(&self, f: &mut fmt::Formatter<W>) -> fmt::Result {
        match self.0 {
            Task::Stop(machine) => write!(f, "stop {}", machine_word(machine)),
            Task::Clear(station) => write!(f, "clear {}", station_word(station)),
            Task::Repair(machine) => write!(f, "repair {}", machine_word(machine)),
            Task::Expect(plate) => write!(f, "expect {}", plate.number()),
        }
    }
}

/// Tells that the book refuses what was done at the cell.
pub(crate) fn tell_refused<E: Write>(errors: &mut E, task: Task, why: Refusal) {
    let (done, name) = (Done(task), why.name());
    let _ = match why.word() {
        Some(word) => writeln!(
            errors,
            "the cell did {done}, which isn't allowed: {name} {word}"
        ),
        None => writeln!(errors, "the cell did {done}, which isn't allowed: {name}"),
    };
}
