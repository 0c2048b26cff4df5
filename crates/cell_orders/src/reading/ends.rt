//! Whether a record goes on behind a text that was cut.
ghost use Rattle.std.specs.Prelude.{◌≡◌, ◌≤◌, ◌↔◌, IfOk, IfSome, IsTrue, OnOk, length, option_map};
ghost use Rattle.csv.specs.Records.{fields_of};
ghost use Rattle.cell_rows.specs.Rows.{TakesRow, rows_of};
ghost use Rattle.cell_orders.specs.Ends.{GoesOn, IsSetUp, rows_to_come};

use csv::{ByteRecord, Reader, ReaderBuilder};
use std::alloc::{AllocError, Global};
use std::io::Read;

// csv's reader of records, as texts are read here.
fn csv_reader<R: Read>(alloc: Global, source: R) -> Reader<R>
    ensures open { IsSetUp result }
    ensures rows { rows_to_come R.remaining result ≡ option_map rows_of (R.remaining source) }
{
    ReaderBuilder::new()
        .has_headers(false)
        .flexible(true)
        .from_reader(alloc, source)
}

// Reads the next record, and says whether there was one.
fn next_row<R: Read>(reader: &mut Reader<R>, row: &mut ByteRecord) -> Result<bool, AllocError>
    requires { IsSetUp reader.old }
    ensures open { OnOk result (IsSetUp reader.new) }
    ensures takes { IfOk result (TakesRow (rows_to_come R.remaining reader.old) (rows_to_come R.remaining reader.new)
        (fields_of row.new)) }
{
    let Ok(found) = reader.read_byte_record(row) else {
        return Err(AllocError);
    };
    Ok(found)
}

// Whether a text has so many records.
fn has_records<R: Read + Drop>(alloc: Global, source: R, count: u64) -> Result<bool, AllocError>
    ensures { IfOk result (λ has. IfSome (R.remaining source) (λ text. IsTrue has ↔ (count ≤ length (rows_of text)))) }
{
    let mut reader = csv_reader(alloc, source);
    let mut row = ByteRecord::new(alloc);
    'records: for _ in 0..count {
        if !next_row(&mut reader, &mut row)? {
            return Ok(false);
        }
    }
    Ok(true)
}

/// Whether the record of a number, counted from 0, goes on behind a text: with one byte more no record comes after it.
pub(crate) fn goes_on(alloc: Global, text: &[u8], number: u32) -> Result<bool, AllocError>
    ensures { IfOk result (λ on. IsTrue on ↔ GoesOn text.now number) }
{
    let ended = has_records(alloc, text.chain(b"x".as_slice()), u64::from(number) + 2)?;
    Ok(!ended)
}
