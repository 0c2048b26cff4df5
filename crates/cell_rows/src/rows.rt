//! The records of a reader's text.
ghost use Rattle.std.specs.Prelude.{◌≡◌, ◌<◌, Some, ◌≢◌, ◌∷◌, [], true, false, length, Err, IfOk, IfSome, IsErrOf};
ghost use Rattle.std.specs.Prelude.{IsNone, OnOk, option_map};
ghost use Rattle.csv.specs.Records.{field_at, fields_of};
ghost use Rattle.cell_rows.specs.Rows.{IsOpen, TakesRow, current_row, device_failed, failed_in, is_csv, open_in};
ghost use Rattle.cell_rows.specs.Rows.{rows_in, rows_left, rows_of};
ghost use Rattle.cell_rows.specs.Fitting.{BeginsUnfit, Fits};
ghost use Rattle.cell_rows.specs.Sights.{bytes_left};
ghost use Rattle.cell_rows.specs.declared.rows.Source.TheVariants as Source;

use crate::ahead::{Next, ReadAhead};
use crate::watched::TellsFault;
use csv::{ByteRecord, ErrorKind, Reader, ReaderBuilder};
use std::alloc::Global;
use std::mem;

/// Why no record came.
#[derive(Clone, Copy, Debug, PartialEq, Eq)]
pub enum RowError {
    /// The reader failed.
    ReadFault,
    /// Memory was refused.
    OutOfMemory,
    /// The next record isn't one of four fields of at most 20 bytes each, whatever comes after what was read of it.
    Unfit,
}

/// The fields of a record of four.
#[derive(Clone, Copy, Debug)]
pub struct Four<'a> {
    pub first: &'a [u8],
    pub second: &'a [u8],
    pub third: &'a [u8],
    pub fourth: &'a [u8],
}

// Where the records of a text come from.
#[derive(Drop)]
enum Source<R> {
    // Only plain lines were read so far, straight from the bytes.
    Plain(ReadAhead<R>),
    // csv reads all that is left.
    Csv(Reader<ReadAhead<R>>),
    // While the one becomes the other.
    Moved,
}

/// The records of a reader's text, with the one that was read last.
///
/// Lines of four plain fields are taken straight from the bytes, which is what csv reads there. From the first line on
/// that has a quote, a carriage return or fewer fields, csv reads all that is left, and all of a text that begins with
/// a byte order mark. Where the text ends behind plain lines, csv reads nothing.
#[derive(Drop)]
pub struct RowReader<R> {
    alloc: Global,
    source: Source<R>,
    row: ByteRecord,
}

// What csv reads of the bytes that are left.
fn csv_reader<R: TellsFault>(alloc: Global, ahead: ReadAhead<R>) -> Reader<ReadAhead<R>>
    ensures open { open_in (Source.Csv result) }
    ensures rows { rows_in R.remaining (Source.Csv result) ≡ option_map rows_of (bytes_left R.remaining ahead) }
{
    ReaderBuilder::new()
        .has_headers(false)
        .flexible(true)
        .from_reader(alloc, ahead)
}

// Reads the next record with csv, and says whether there was one.
#[tactic(auto, unfolding(crate::specs::Rows::rows_left))]
fn read_next<R: TellsFault>(
    reader: &mut Reader<ReadAhead<R>>,
    row: &mut ByteRecord,
) -> Result<bool, RowError>
    requires { open_in (Source.Csv reader.old) }
    ensures open { OnOk result (open_in (Source.Csv reader.new)) }
    ensures takes { IfOk result (TakesRow (rows_in R.remaining (Source.Csv reader.old))
        (rows_in R.remaining (Source.Csv reader.new)) (fields_of row.new)) }
    ensures fault { IsErrOf result RowError.ReadFault → failed_in R.failed (Source.Csv reader.new) ≡ true }
    ensures fits { result ≢ Err RowError.Unfit }
{
    match reader.read_byte_record(row) {
        Ok(found) => Ok(found),
        Err(e) => match e.kind() {
            // csv's clauses don't say that its error of a reader came from the reader, so that is looked up.
            ErrorKind::Io(_) if reader.get_ref().has_failed() => Err(RowError::ReadFault),
            ErrorKind::Io(_) | ErrorKind::OutOfMemory => Err(RowError::OutOfMemory),
            _ => unreachable!(),
        },
    }
}

// Puts a source where one was moved out.
fn fill<R>(source: &mut Source<R>, next: Source<R>)
    requires { source.old ≡ Source.Moved }
    ensures { source.new ≡ next }
{
    match mem::replace(source, next) {
        Source::Moved => {}
        _ => unreachable!(),
    }
}

#[tactic(auto, unfolding(crate::specs::Rows::IsOpen, crate::specs::Rows::rows_left))]
impl<R: TellsFault> RowReader<R> {
    /// The records of what the reader has left. It reads nothing yet.
    pub fn new(alloc: Global, source: R) -> RowReader<R>
        ensures open { IsOpen result }
        ensures rows { rows_left R.remaining result ≡ option_map rows_of (R.remaining source) }
        ensures failed { device_failed R.failed result ≡ R.failed source }
    {
        RowReader {
            alloc,
            source: Source::Plain(ReadAhead::new(source)),
            row: ByteRecord::new(alloc),
        }
    }

    // Lets csv read all that is left. It stands apart since it moves much, and is called once.
    #[cold]
    #[inline(never)]
    fn hand_over(&mut self)
        requires { IsOpen self.old }
        ensures open { IsOpen self.new }
        ensures rows { rows_left R.remaining self.new ≡ rows_left R.remaining self.old }
        ensures csv { is_csv self.new.source ≡ true }
    {
        let next = match mem::replace(&mut self.source, Source::Moved) {
            Source::Plain(ahead) => Source::Csv(csv_reader(self.alloc, ahead)),
            other => other,
        };
        fill(&mut self.source, next);
    }

    // Lets csv read all that is left, if it doesn't yet.
    fn give_to_csv(&mut self)
        requires { IsOpen self.old }
        ensures open { IsOpen self.new }
        ensures rows { rows_left R.remaining self.new ≡ rows_left R.remaining self.old }
        ensures csv { is_csv self.new.source ≡ true }
    {
        match &self.source {
            Source::Plain(_) => self.hand_over(),
            Source::Csv(_) | Source::Moved => {}
        }
    }

    // Reads the next record with csv, and says whether there was one.
    #[inline(never)]
    fn advance_csv(&mut self) -> Result<bool, RowError>
        requires open { IsOpen self.old }
        requires csv { is_csv self.old.source ≡ true }
        ensures open { OnOk result (IsOpen self.new) }
        ensures takes { IfOk result (TakesRow (rows_left R.remaining self.old) (rows_left R.remaining self.new)
            (current_row self.new)) }
        ensures fault { IsErrOf result RowError.ReadFault → device_failed R.failed self.new ≡ true }
        ensures csv { is_csv self.new.source ≡ true }
        ensures fits { result ≢ Err RowError.Unfit }
    {
        let Source::Csv(reader) = &mut self.source else {
            unreachable!();
        };
        read_next(reader, &mut self.row)
    }

    /// Reads the next record, and says whether there was one.
    ///
    /// A line that is plain up to its fourth comma, or to the 21st byte of a field of it, is `Unfit`: no end of it is
    /// looked for. After an error the reader may stand inside a record, and is open no more.
    #[inline(always)]
    pub fn advance(&mut self) -> Result<bool, RowError>
        requires { IsOpen self.old }
        ensures open { OnOk result (IsOpen self.new) }
        ensures takes { IfOk result (TakesRow (rows_left R.remaining self.old) (rows_left R.remaining self.new)
            (current_row self.new)) }
        // The next record, which there is, isn't one of four short fields.
        ensures unfit { IsErrOf result RowError.Unfit → IfSome (rows_left R.remaining self.old) BeginsUnfit }
        // As long as csv doesn't read, a record that comes is one of four short fields.
        ensures fits { IfOk result (λ found. found ≡ true → is_csv self.new.source ≡ false
            → Fits (current_row self.new)) }
        ensures fault { IsErrOf result RowError.ReadFault → device_failed R.failed self.new ≡ true }
    {
        if let Source::Plain(ahead) = &mut self.source {
            match ahead.advance() {
                Ok(Next::Line) => return Ok(true),
                Ok(Next::End) => return Ok(false),
                Ok(Next::Odd) => {}
                Err(why) => return Err(why),
            }
        }
        self.give_to_csv();
        self.advance_csv()
    }

    /// The fields of the record that was read last, if it has four.
    #[inline(always)]
    pub fn four(&self) -> Option<Four<'_>>
        ensures some { IfSome result (λ four. current_row self.now ≡ four.first.now ∷ four.second.now ∷ four.third.now
            ∷ four.fourth.now ∷ []) }
        ensures none { IsNone result → length (current_row self.now) ≢ 4 }
    {
        match &self.source {
            Source::Plain(ahead) => Some(ahead.four()),
            Source::Csv(_) | Source::Moved => four_of(&self.row),
        }
    }
}

// The fields of a record, if it has four.
fn four_of(row: &ByteRecord) -> Option<Four<'_>>
    ensures some { IfSome result (λ four. fields_of row.now ≡ four.first.now ∷ four.second.now ∷ four.third.now
        ∷ four.fourth.now ∷ []) }
    ensures none { IsNone result → length (fields_of row.now) ≢ 4 }
{
    if row.len() != 4 {
        return None;
    }
    Some(Four {
        first: field(row, 0),
        second: field(row, 1),
        third: field(row, 2),
        fourth: field(row, 3),
    })
}

// The field at a place.
fn field(row: &ByteRecord, place: usize) -> &[u8]
    requires { place < length (fields_of row.now) }
    ensures { field_at (fields_of row.now) place ≡ Some result.now }
{
    match row.get(place) {
        Some(field) => field,
        None => unreachable!(),
    }
}
