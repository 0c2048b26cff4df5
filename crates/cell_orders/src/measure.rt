//! The command that measures journals.
ghost use Rattle.std.specs.Prelude.{◌≡◌, Err, IfOk, false, length};
ghost use Rattle.cell_audit.specs.Lines.{lines_of};
ghost use Rattle.cell_output.specs.Watched.{bytes_held};
ghost use Rattle.cell_orders.specs.Measured.{AreLegal, HasLegalText, IsFound, MeasuresJournals, MeasuresWords};
ghost use Rattle.cell_orders.specs.Measured.{form_asked};

use crate::error::CommandError;
use crate::failure::Failure;
use crate::mistaken::wrong;
use crate::texts::book_in;
use crate::times::{durations_in, tell_times};
use cell_audit::{AuditError, write_answer};
use cell_charts::{Bar, write_measures_chart};
use cell_command::{Escaped, Measuring};
use cell_measures::{Durations, Measured, Measures, csv_of, measure, table_of};
use cell_output::{WatchedWriter, WriteFault, status};
use std::alloc::{AllocError, Global};
use std::io::Write;
use std::rt::Files;

// What is told where both forms are asked for.
const ONE_FORM: &str = "of --csv and --svg one alone can be given";

/// How measures are told.
#[derive(Clone, Copy, Debug, PartialEq, Eq)]
pub(crate) enum MeasureForm {
    /// In a table.
    Table,
    /// In CSV.
    Csv,
    /// In a picture.
    Picture,
}

// The form that the flags ask for, if they ask for one alone; with no flag it is a table.
fn form_asked(measuring: &Measuring<'_>) -> Option<MeasureForm>
    ensures { result ≡ form_asked measuring.now.csv measuring.now.svg }
{
    match (measuring.csv, measuring.svg) {
        (false, false) => Some(MeasureForm::Table),
        (true, false) => Some(MeasureForm::Csv),
        (false, true) => Some(MeasureForm::Picture),
        (true, true) => None,
    }
}

/// What was found of a journal: its measures, or the line of the audit where it is refused.
#[derive(Drop)]
pub(crate) enum Found {
    Legal(Measures),
    Refused(Vec<u8>),
}

// A legal journal's name as it is printed, and its measures.
#[derive(Drop)]
struct Legal {
    name: String,
    measures: Measures,
}

// What was found of all journals.
#[derive(Drop)]
struct Sorted {
    legal: Vec<Legal>,
    // Whether one at least is refused, and the lines of those that are.
    refused: bool,
    lines: Vec<u8>,
}

// The line of the audit for a journal that is refused.
fn line_of(alloc: Global, why: AuditError) -> Result<Vec<u8>, AllocError>
    ensures { IfOk result (λ line. line.items ≡ lines_of (Err why)) }
{
    let mut line = Vec::new(alloc);
    match write_answer(&mut WatchedWriter::new(&mut line), Err(why)) {
        Ok(_) => Ok(line),
        Err(WriteFault) => Err(AllocError),
    }
}

// Measures the journal in a file, or gives the audit's line where it is refused. It keeps the entries, and no text.
fn find<'a, R: AllocGlobal + Files>(
    rt: &R,
    path: &'a str,
    durations: &Durations,
) -> Result<Found, Failure<'a>>
    ensures { IfOk result IsFound }
{
    let reading = book_in(rt, path)?;
    match reading.answer {
        Ok(_) => Ok(Found::Legal(measure(rt.alloc(), reading.book.journal(), durations)?)),
        Err(why) => Ok(Found::Refused(line_of(rt.alloc(), why)?)),
    }
}

// A name as it is printed.
fn printed(alloc: Global, name: &str) -> Result<String, AllocError> {
    let name = Escaped(name);
    format!(in alloc; "{name}")
}

impl Sorted {
    // Adds what was found of a journal. The line of a refused one begins with its name, where there are several.
    fn add(
        &mut self,
        alloc: Global,
        path: &str,
        found: Found,
        several: bool,
    ) -> Result<(), AllocError>
        ensures { IfOk result (λ _. IsFound found → self.new.refused ≡ false
            → HasLegalText × (self.old.refused ≡ false)) }
    {
        let name = printed(alloc, path)?;
        match found {
            Found::Legal(measures) => self.legal.push(Legal { name, measures })?,
            Found::Refused(line) => {
                self.refused = true;
                if several {
                    self.lines.extend_from_slice(name.as_str().as_bytes())?;
                    self.lines.extend_from_slice(b": ")?;
                }
                self.lines.extend_from_slice(line.as_slice())?;
            }
        }
        Ok(())
    }

    // The legal journals with their measures.
    fn measured(&self, alloc: Global) -> Result<Vec<Measured<'_>>, AllocError> {
        let mut journals = Vec::new(alloc);
        for legal in self.legal.as_slice() {
            journals.push(Measured {
                name: legal.name.as_str(),
                measures: legal.measures,
            })?;
        }
        Ok(journals)
    }

    // A picture of the legal journals' measures.
    fn picture(&self, alloc: Global) -> Result<Vec<u8>, AllocError> {
        let mut bars = Vec::new(alloc);
        for legal in self.legal.as_slice() {
            bars.push(Bar {
                name: legal.name.as_str(),
                measures: &legal.measures,
            })?;
        }
        let mut picture = Vec::new(alloc);
        match write_measures_chart(&mut picture, bars.as_slice()) {
            Ok(()) => Ok(picture),
            Err(_) => Err(AllocError),
        }
    }

    // What is printed of the legal journals.
    fn text(&self, alloc: Global, form: MeasureForm) -> Result<Vec<u8>, AllocError> {
        let text = match form {
            MeasureForm::Table => table_of(alloc, self.measured(alloc)?.as_slice())?,
            MeasureForm::Csv => csv_of(alloc, self.measured(alloc)?.as_slice())?,
            MeasureForm::Picture => return self.picture(alloc),
        };
        Ok(text.into_bytes())
    }

    // The status of all journals.
    fn status(&self) -> u8
        ensures { result ≡ 0 → self.now.refused ≡ false }
    {
        if self.refused {
            status::REFUSED
        } else {
            status::SUCCESS
        }
    }
}

// Reads all journals, and measures those that are legal.
#[tactic(auto, using(crate::proofs::Measuring::none_yet, crate::proofs::Measuring::more_found, crate::proofs::Measuring::all_found))]
fn sort<'a, R: AllocGlobal + Files>(
    rt: &R,
    measuring: &Measuring<'a>,
    durations: &Durations,
) -> Result<Sorted, Failure<'a>>
    ensures { IfOk result (λ sorted. sorted.refused ≡ false → AreLegal (length measuring.now.journals.items)) }
{
    let alloc = rt.alloc();
    let mut sorted = Sorted {
        legal: Vec::new(alloc),
        refused: false,
        lines: Vec::new(alloc),
    };
    let several = measuring.journals.len() > 1;
    for path in measuring.journals.as_slice() {
        let found = find(rt, path, durations)?;
        sorted.add(alloc, path, found, several)?;
    }
    Ok(sorted)
}

// Writes what was found of all journals: the lines of those that are refused to the errors, where there are several.
fn tell<'a, W: Write, E: Write>(
    alloc: Global,
    output: &mut WatchedWriter<'_, W>,
    errors: &mut E,
    several: bool,
    form: MeasureForm,
    sorted: &Sorted,
) -> Result<u8, CommandError<'a>>
    ensures { IfOk result (λ status. status ≡ 0 → sorted.now.refused ≡ false) }
{
    if several {
        errors.write_all(sorted.lines.as_slice())?;
    } else if sorted.refused {
        output.write_bytes(sorted.lines.as_slice())?;
        return Ok(sorted.status());
    }
    let text = sorted.text(alloc, form)?;
    output.write_bytes(text.as_slice())?;
    Ok(sorted.status())
}

// Measures the journals that the words of the command line name, and tells their measures in a form, or why the
// durations are refused.
fn measure_in<'a, R: AllocGlobal + Files, W: Write, E: Write>(
    rt: &R,
    output: &mut WatchedWriter<'_, W>,
    errors: &mut E,
    measuring: &Measuring<'a>,
    form: MeasureForm,
) -> Result<u8, CommandError<'a>>
    ensures { IfOk result (MeasuresJournals measuring.now) }
{
    match durations_in(rt, measuring.times)? {
        Ok(durations) => {
            let sorted = sort(rt, measuring, &durations)?;
            let several = measuring.journals.len() > 1;
            tell(rt.alloc(), output, errors, several, form, &sorted)
        }
        Err(line) => Ok(tell_times(output, line.as_str())?),
    }
}

/// Measures the journals that the words of the command line name, in the form that they ask for. All are read before
/// anything is written.
pub fn measure_words<'a, R: AllocGlobal + Files, W: Write, E: Write>(
    rt: &R,
    output: &mut WatchedWriter<'_, W>,
    errors: &mut E,
    measuring: &Measuring<'a>,
) -> Result<u8, CommandError<'a>>
    ensures { IfOk result (MeasuresWords measuring.now (bytes_held W.contents output.old)
        (bytes_held W.contents output.new) (E.contents errors.old) (E.contents errors.new)) }
{
    match form_asked(measuring) {
        Some(form) => measure_in(rt, output, errors, measuring, form),
        None => Ok(wrong(errors, ONE_FORM)?),
    }
}
