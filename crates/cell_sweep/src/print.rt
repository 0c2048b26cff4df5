//! How a sweep is printed.
ghost use Rattle.std.specs.Prelude.{◌≡◌, [], true, IfOk, OnOk, string_bytes};
ghost use Rattle.cell_sweep.specs.Cases.{text_of};
ghost use Rattle.std.specs.Io.KnownBytes.{Appends};
ghost use Rattle.std.specs.List.{flat_map};
ghost use Rattle.cell_runs.specs.Runs.{word_of as end_word};
ghost use Rattle.cell_sweep.specs.Rows.{csv_line, fault_fields, faults_text, head_of, is_csv, kind_text, parting};
ghost use Rattle.cell_sweep.specs.Rows.{quoted, quoted_byte, quoted_if_any, records_of, rest_of_line};

use crate::choice::{Choice, Part};
use crate::form::Form;
use crate::kinds::word_of;
use crate::row::Row;
use cell_charts::{Square, write_sweep_chart};
use cell_sim::{Fault, PlannedFault};
use cell_types::texts::axis_word;
use cell_workers::End;
use std::alloc::{AllocError, Global};
use std::io::{Result, Write};

/// The line above the rows of CSV, of runs with one fault and of others.
const SINGLE_CSV_HEAD: &str =
    "axis,motion,kind,end,admitted,forged,quarantined,delivered,time,waits_for\n";

const CSV_HEAD: &str = "faults,end,admitted,forged,quarantined,delivered,time,waits_for\n";

/// The line above the rows of a table, of runs with one fault and of others.
const SINGLE_TABLE_HEAD: &str = "axis          motion  kind            end         \
admitted  forged  quarantined  delivered      time  waits for\n";

const TABLE_HEAD: &str = "end         admitted  forged  quarantined  delivered      time  \
faults                                        waits for\n";

/// How wide the faults are in a table.
const FAULTS_WIDTH: usize = 44;

/// The word of an end.
pub(crate) fn word_of_end(end: End) -> &'static str
    ensures { result.now ≡ end_word end }
{
    match end {
        End::Finished => "finished",
        End::Stalled => "stalled",
        End::TurnLimit => "turn limit",
        End::Memory => "memory",
        End::Full => "full",
    }
}

// A kind as a list of kinds has it.
fn kind_text(alloc: Global, kind: Fault) -> std::result::Result<String, AllocError>
    ensures { IfOk result (λ text. string_bytes text ≡ kind_text kind) }
{
    let word = word_of(kind);
    match kind.readings() {
        Some(readings) => format!(in alloc; "{word}:{readings}"),
        None => String::from_str(alloc, word),
    }
}

// Writes a byte of a text in quotes: a quote is doubled.
fn write_byte<W: Write>(writer: &mut W, byte: u8) -> Result<()>
    ensures { OnOk result (Appends (W.contents writer.old) (W.contents writer.new) (quoted_byte byte)) }
{
    if byte == b'"' {
        writer.write_all(b"\"\"")
    } else {
        writer.write_all(&[byte])
    }
}

// Writes a text in quotes.
fn write_quoted<W: Write>(writer: &mut W, text: &[u8]) -> Result<()>
    ensures { OnOk result (Appends (W.contents writer.old) (W.contents writer.new) (quoted text.now)) }
{
    writer.write_all(b"\"")?;
    for byte in text {
        write_byte(writer, *byte)?;
    }
    writer.write_all(b"\"")
}

// Writes a text in quotes, where there is one.
fn write_if_any<W: Write>(writer: &mut W, text: &[u8]) -> Result<()>
    ensures { OnOk result (Appends (W.contents writer.old) (W.contents writer.new) (quoted_if_any text.now)) }
{
    if text.is_empty() {
        Ok(())
    } else {
        write_quoted(writer, text)
    }
}

// Writes the three fields of a fault that is alone in its run.
fn write_fault<W: Write>(alloc: Global, writer: &mut W, fault: PlannedFault) -> Result<()>
    ensures { OnOk result (Appends (W.contents writer.old) (W.contents writer.new) (fault_fields fault)) }
{
    let axis = axis_word(fault.axis);
    let motion = fault.motion;
    let kind = kind_text(alloc, fault.fault)?;
    write!(writer, "{axis},{motion},{kind},")
}

// Writes the fields of each fault.
fn write_each_fault<W: Write>(alloc: Global, writer: &mut W, faults: &[PlannedFault]) -> Result<()>
    ensures { OnOk result (Appends (W.contents writer.old) (W.contents writer.new) (flat_map fault_fields faults.now)) }
{
    for fault in faults {
        write_fault(alloc, writer, *fault)?;
    }
    Ok(())
}

// A line feed as a semicolon.
fn parting(byte: u8) -> u8
    ensures { result ≡ parting byte }
{
    if byte == b'\n' { b';' } else { byte }
}

// The records of a script in one line, with semicolons between them.
fn records_of(alloc: Global, text: &[u8]) -> std::result::Result<Vec<u8>, AllocError>
    ensures { IfOk result (λ line. line.items ≡ records_of text.now) }
{
    let inside = &text[..text.len().saturating_sub(1)];
    inside.iter().map(|byte| parting(*byte)).collect(alloc)
}

// Writes the faults of a run with this script of faults.
fn write_faults<W: Write>(
    alloc: Global,
    writer: &mut W,
    choice: Choice,
    text: &[u8],
    faults: &[PlannedFault],
) -> Result<()>
    ensures { text.now ≡ text_of faults.now
        → OnOk result (Appends (W.contents writer.old) (W.contents writer.new) (faults_text choice faults.now)) }
{
    if choice == Choice::Single {
        return write_each_fault(alloc, writer, faults);
    }
    let records = records_of(alloc, text)?;
    write_quoted(writer, records.as_slice())?;
    writer.write_all(b",")
}

// Writes the fields of a row of CSV behind those of its faults.
fn write_rest<W: Write>(writer: &mut W, row: &Row) -> Result<()>
    ensures { OnOk result (Appends (W.contents writer.old) (W.contents writer.new) (rest_of_line row.now)) }
{
    write!(
        writer,
        "{},{},{},{},{},{},",
        word_of_end(row.end),
        row.totals.admitted,
        row.totals.forged,
        row.totals.quarantined,
        row.totals.delivered,
        row.time,
    )?;
    write_if_any(writer, row.waits.as_slice())?;
    writer.write_all(b"\n")
}

// Writes a row of CSV, of a run with this script of faults.
fn write_csv<W: Write>(
    alloc: Global,
    writer: &mut W,
    choice: Choice,
    text: &[u8],
    row: &Row,
) -> Result<()>
    ensures { text.now ≡ text_of row.now.faults
        → OnOk result (Appends (W.contents writer.old) (W.contents writer.new) (csv_line choice row.now)) }
{
    write_faults(alloc, writer, choice, text, row.faults.as_slice())?;
    write_rest(writer, row)
}

// Writes what a run waits for behind the other columns, where there is anything.
fn write_waits<W: Write>(writer: &mut W, waits: &[u8]) -> Result<()> {
    if waits.is_empty() {
        return writer.write_all(b"\n");
    }
    writer.write_all(b"  ")?;
    writer.write_all(waits)?;
    writer.write_all(b"\n")
}

// Writes a fault that is alone in its run, in a table.
fn write_aligned<W: Write>(alloc: Global, writer: &mut W, fault: PlannedFault) -> Result<()> {
    let axis = axis_word(fault.axis);
    let motion = fault.motion;
    let kind = kind_text(alloc, fault.fault)?;
    write!(writer, "{axis:<12}  {motion:>6}  {kind:<14}  ")
}

// Writes the records of a script of faults as the last but one column of a table.
fn write_records<W: Write>(alloc: Global, writer: &mut W, text: &[u8], last: bool) -> Result<()> {
    let records = records_of(alloc, text)?;
    writer.write_all(b"  ")?;
    writer.write_all(records.as_slice())?;
    if last {
        return Ok(());
    }
    for _space in records.len()..FAULTS_WIDTH {
        writer.write_all(b" ")?;
    }
    Ok(())
}

// Writes the columns of numbers of a table.
fn write_numbers<W: Write>(writer: &mut W, row: &Row) -> Result<()> {
    let totals = row.totals;
    write!(
        writer,
        "{:<10}  {:>8}  {:>6}  {:>11}  {:>9}  {:>8}",
        word_of_end(row.end),
        totals.admitted,
        totals.forged,
        totals.quarantined,
        totals.delivered,
        row.time,
    )
}

// Writes a row of a table, of a run with this script of faults.
fn write_table<W: Write>(
    alloc: Global,
    writer: &mut W,
    choice: Choice,
    text: &[u8],
    row: &Row,
) -> Result<()> {
    if choice == Choice::Single {
        for fault in &row.faults {
            write_aligned(alloc, writer, *fault)?;
        }
        write_numbers(writer, row)?;
    } else {
        write_numbers(writer, row)?;
        write_records(alloc, writer, text, row.waits.is_empty())?;
    }
    write_waits(writer, row.waits.as_slice())
}

/// The line above the rows; in CSV it stands in the first part.
pub(crate) fn head_of(choice: Choice, part: Part, form: Form) -> &'static str
    ensures { is_csv form ≡ true → result.now ≡ head_of choice part }
{
    match (form, choice) {
        (Form::Chart, _) => "",
        (Form::Csv, _) if part.number != 1 => "",
        (Form::Csv, Choice::Single) => SINGLE_CSV_HEAD,
        (Form::Csv, Choice::Pairs | Choice::Random { .. }) => CSV_HEAD,
        (Form::Table, Choice::Single) => SINGLE_TABLE_HEAD,
        (Form::Table, Choice::Pairs | Choice::Random { .. }) => TABLE_HEAD,
    }
}

/// How the rows of a sweep are told.
#[derive(Clone, Copy)]
pub(crate) struct Layout {
    pub(crate) choice: Choice,
    pub(crate) form: Form,
}

// Writes a row, of a run with this script of faults.
fn write_row<W: Write>(
    alloc: Global,
    writer: &mut W,
    layout: Layout,
    text: &[u8],
    row: &Row,
) -> Result<()>
    ensures { is_csv layout.form ≡ true → text.now ≡ text_of row.now.faults
        → OnOk result (Appends (W.contents writer.old) (W.contents writer.new) (csv_line layout.choice row.now)) }
{
    match layout.form {
        Form::Table => write_table(alloc, writer, layout.choice, text, row),
        Form::Csv => write_csv(alloc, writer, layout.choice, text, row),
        Form::Chart => Ok(()),
    }
}

/// The line of a row, of a run with this script of faults.
pub(crate) fn line_of(
    alloc: Global,
    layout: Layout,
    text: &[u8],
    row: &Row,
) -> std::result::Result<Vec<u8>, AllocError>
    ensures { is_csv layout.form ≡ true → text.now ≡ text_of row.now.faults
        → IfOk result (λ line. line.items ≡ csv_line layout.choice row.now) }
{
    let mut line = Vec::new(alloc);
    match write_row(alloc, &mut line, layout, text, row) {
        Ok(()) => Ok(line),
        Err(_) => Err(AllocError),
    }
}

/// How many runs there were, and how many had each end.
#[derive(Clone, Copy, Debug, Default)]
pub(crate) struct Ends {
    runs: u64,
    finished: u64,
    stalled: u64,
    turn_limit: u64,
    full: u64,
}

impl Ends {
    /// Counts a run with this end.
    pub(crate) fn add(&mut self, end: End) {
        self.runs = self.runs.saturating_add(1);
        match end {
            End::Finished => self.finished = self.finished.saturating_add(1),
            End::Stalled => self.stalled = self.stalled.saturating_add(1),
            End::TurnLimit => self.turn_limit = self.turn_limit.saturating_add(1),
            End::Full => self.full = self.full.saturating_add(1),
            End::Memory => {}
        }
    }

    /// How many runs there were.
    pub(crate) fn runs(&self) -> u64 {
        self.runs
    }
}

// A number of runs as tenths of a percent of all.
fn share_of(count: u64, runs: u64) -> u64 {
    let half = u128::from(runs) / 2;
    let parts = u128::from(count) * 1000 + half;
    let share = parts.checked_div(u128::from(runs)).unwrap_or(0);
    u64::try_from(share).unwrap_or(u64::MAX)
}

// Writes how many runs had an end, and unless each has one fault their share of all.
fn write_count<W: Write>(
    writer: &mut W,
    choice: Choice,
    end: End,
    count: u64,
    runs: u64,
) -> Result<()> {
    let end = word_of_end(end);
    if choice == Choice::Single {
        return writeln!(writer, "{end} {count}");
    }
    let share = share_of(count, runs);
    let percent = share / 10;
    let tenth = share % 10;
    writeln!(writer, "{end} {count}  {percent}.{tenth} %")
}

// Writes how many runs there were, and how many had each end.
fn write_all_counts<W: Write>(writer: &mut W, choice: Choice, ends: Ends) -> Result<()> {
    let runs = ends.runs;
    write!(writer, "\nruns {runs}\n")?;
    write_count(writer, choice, End::Finished, ends.finished, runs)?;
    write_count(writer, choice, End::Stalled, ends.stalled, runs)?;
    write_count(writer, choice, End::TurnLimit, ends.turn_limit, runs)?;
    write_count(writer, choice, End::Full, ends.full, runs)
}

/// What is told behind the rows: of a table how many runs there were, and how many had each end; the chart of these
/// runs with one fault; of CSV nothing.
pub(crate) fn end_text(
    alloc: Global,
    layout: Layout,
    kinds: &[Fault],
    ends: Ends,
    squares: &[Square],
) -> std::result::Result<Vec<u8>, AllocError>
    ensures { is_csv layout.form ≡ true → IfOk result (λ text. text.items ≡ []) }
{
    let mut text = Vec::new(alloc);
    let written = match layout.form {
        Form::Csv => return Ok(text),
        Form::Table => write_all_counts(&mut text, layout.choice, ends),
        Form::Chart => write_sweep_chart(&mut text, kinds, squares),
    };
    match written {
        Ok(()) => Ok(text),
        Err(_) => Err(AllocError),
    }
}
