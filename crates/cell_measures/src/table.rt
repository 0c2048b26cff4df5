//! Measures as a table, as lines of words, and as lines of CSV.
use crate::measures::Measures;
use crate::rows::{Row, rows_of};
use std::alloc::{AllocError, Global};

/// How wide a row's name is in a table, and a column of numbers: a table of five columns has 79 characters in a line.
const NAME_WIDTH: usize = 24;

const COLUMN_WIDTH: usize = 11;

/// How many journals stand side by side.
const COLUMNS: usize = 5;

/// A journal's name, and its measures.
#[derive(Clone, Copy, Debug)]
pub struct Measured<'a> {
    pub name: &'a str,
    pub measures: Measures,
}

// Adds spaces before a text that is to be so wide, and the text.
fn push_right(line: &mut String, text: &str, width: usize) -> Result<(), AllocError> {
    for _ in 0..width.saturating_sub(text.len()) {
        line.push_str(" ")?;
    }
    line.push_str(text)
}

// Adds a row's name with spaces in the place of underscores, and as many as it lacks to the width of names.
fn push_name(line: &mut String, row: &Row) -> Result<(), AllocError> {
    let before = line.len();
    for part in row.of.split('_') {
        line.push_str(part)?;
        line.push_str(" ")?;
    }
    line.push_str(if row.name == "per_1000" {
        "per 1000"
    } else {
        row.name
    })?;
    let width = line.len().saturating_sub(before);
    push_right(line, "", NAME_WIDTH.saturating_sub(width))
}

// A row's number as it is told, and what stands there where there is none.
fn number_text(alloc: Global, row: &Row, none: &str) -> Result<String, AllocError> {
    match row.number {
        Some(number) => number.text(alloc),
        None => String::from_str(alloc, none),
    }
}

// The lines of journals' names, each with the number that its column has, and the line of these numbers.
fn push_heads(
    alloc: Global,
    text: &mut String,
    first: usize,
    journals: &[Measured<'_>],
) -> Result<(), AllocError> {
    let mut heads = String::new(alloc);
    push_right(&mut heads, "", NAME_WIDTH)?;
    for (place, journal) in journals.iter().enumerate() {
        let number = first.saturating_add(place);
        let number = format!(in alloc; "{number}")?;
        text.push_str(number.as_str())?;
        text.push_str(": ")?;
        text.push_str(journal.name)?;
        text.push_str("\n")?;
        push_right(&mut heads, number.as_str(), COLUMN_WIDTH)?;
    }
    text.push_str(heads.as_str())?;
    text.push_str("\n")
}

// The rows of some journals.
fn all_rows(alloc: Global, journals: &[Measured<'_>]) -> Result<Vec<Vec<Row>>, AllocError> {
    let mut all = Vec::new(alloc);
    for journal in journals {
        all.push(rows_of(alloc, &journal.measures)?)?;
    }
    Ok(all)
}

// A line with one number of each journal.
fn push_line(
    alloc: Global,
    text: &mut String,
    row: &Row,
    place: usize,
    all: &[Vec<Row>],
) -> Result<(), AllocError> {
    push_name(text, row)?;
    for rows in all {
        let number = match rows.get(place) {
            Some(row) => number_text(alloc, row, "-")?,
            None => String::new(alloc),
        };
        push_right(text, number.as_str(), COLUMN_WIDTH)?;
    }
    text.push_str("\n")
}

// The table of journals that stand side by side.
fn push_block(
    alloc: Global,
    text: &mut String,
    journals: &[Measured<'_>],
) -> Result<(), AllocError> {
    let all = all_rows(alloc, journals)?;
    let Some(rows) = all.first() else {
        return Ok(());
    };
    for (place, row) in rows.iter().enumerate() {
        push_line(alloc, text, row, place, all.as_slice())?;
    }
    Ok(())
}

/// The table of journals' measures: a line for each number. Up to five journals stand side by side, and more one below
/// the other; of one alone no name is told. A dash stands for a number that there isn't.
pub fn table_of(alloc: Global, journals: &[Measured<'_>]) -> Result<String, AllocError> {
    let mut text = String::new(alloc);
    let mut first: usize = 1;
    for block in journals.chunks(COLUMNS) {
        if first > 1 {
            text.push_str("\n")?;
        }
        if journals.len() > 1 {
            push_heads(alloc, &mut text, first, block)?;
        }
        push_block(alloc, &mut text, block)?;
        first = first.saturating_add(COLUMNS);
    }
    Ok(text)
}

// The line of a number: the word `time`, what it is of, which it is, and the number, or a dash where there is none.
fn push_row(alloc: Global, text: &mut String, row: &Row) -> Result<(), AllocError> {
    text.push_str("time ")?;
    text.push_str(row.of)?;
    text.push_str(" ")?;
    text.push_str(row.name)?;
    text.push_str(" ")?;
    text.push_str(number_text(alloc, row, "-")?.as_str())?;
    text.push_str("\n")
}

/// The measures of one journal as lines of four words, one for each number, in the order of the table: `time`, what the
/// number is of, which it is, and the number, or a dash where there isn't one.
pub fn lines_of(alloc: Global, measures: &Measures) -> Result<String, AllocError> {
    let mut text = String::new(alloc);
    for row in rows_of(alloc, measures)? {
        push_row(alloc, &mut text, &row)?;
    }
    Ok(text)
}

// Adds a field of CSV: in quotes where it has a comma, a quote or the end of a line.
fn push_field(text: &mut String, field: &str) -> Result<(), AllocError> {
    let is_plain = !field.bytes().any(|byte| byte == b','
        || byte == b'"'
        || byte == b'\n'
        || byte == b'\r');
    if is_plain {
        return text.push_str(field);
    }
    text.push_str("\"")?;
    for (place, part) in field.split('"').enumerate() {
        if place > 0 {
            text.push_str("\"\"")?;
        }
        text.push_str(part)?;
    }
    text.push_str("\"")
}

// The line of CSV with the names of all numbers.
fn push_header(alloc: Global, text: &mut String) -> Result<(), AllocError> {
    text.push_str("journal")?;
    for row in rows_of(alloc, &Measures::NONE)? {
        text.push_str(",")?;
        text.push_str(row.of)?;
        text.push_str("_")?;
        text.push_str(row.name)?;
    }
    text.push_str("\n")
}

// The line of CSV of a journal.
fn push_journal(
    alloc: Global,
    text: &mut String,
    journal: &Measured<'_>,
) -> Result<(), AllocError> {
    push_field(text, journal.name)?;
    for row in rows_of(alloc, &journal.measures)? {
        text.push_str(",")?;
        text.push_str(number_text(alloc, &row, "")?.as_str())?;
    }
    text.push_str("\n")
}

/// Journals' measures in CSV: a line with the names of all numbers, and one for each journal, which begins with its
/// name. A number that there isn't is an empty field.
pub fn csv_of(alloc: Global, journals: &[Measured<'_>]) -> Result<String, AllocError> {
    let mut text = String::new(alloc);
    push_header(alloc, &mut text)?;
    for journal in journals {
        push_journal(alloc, &mut text, journal)?;
    }
    Ok(text)
}
