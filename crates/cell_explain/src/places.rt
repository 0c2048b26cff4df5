//! Where the records of a text stand in it, by the rules of csv.
ghost use Rattle.std.specs.Prelude.{◌≡◌, ◌==◌, ◌≤◌, ◌<◌, ◌+◌, ◌^◌, ◌&&◌, IfSome, IsNone, false, if◌then◌else◌, length};
ghost use Rattle.std.specs.Prelude.{not, take};
ghost use Rattle.cell_rows.specs.Rows.{rows_of};
ghost use Rattle.cell_explain.specs.Places.{HasRecord, Stands, ends_line, line_after};
ghost use Rattle.cell_explain.specs.Spots.{first_place, is_open, spot_after};

/// Where in a text the next byte comes.
#[derive(Clone, Copy, PartialEq, Eq)]
pub(crate) enum Spot {
    /// Before a record.
    Between,
    /// At the start of a field, after a comma.
    FieldStart,
    /// In a field without quotes.
    Plain,
    /// In a quoted field.
    Quoted,
    /// After a quote in a quoted field, which ends the quoted part unless a second quote comes.
    Closed,
}

impl Spot {
    /// Where the byte comes that follows this one.
    pub(crate) fn after(self, byte: u8) -> Spot
        ensures { result ≡ spot_after self byte }
    {
        match (self, byte) {
            (Spot::Quoted, b'"') => Spot::Closed,
            (Spot::Quoted, _) => Spot::Quoted,
            (_, b',') => Spot::FieldStart,
            (_, b'\n' | b'\r') => Spot::Between,
            (Spot::Plain, _) => Spot::Plain,
            (_, b'"') => Spot::Quoted,
            _ => Spot::Plain,
        }
    }

    fn is_open(self) -> bool
        ensures { result ≡ is_open self }
    {
        !matches!(self, Spot::Between)
    }
}

/// A record as it stands in a text.
#[derive(Clone, Copy)]
pub(crate) struct Record<'a> {
    /// The line in which it begins, from 1.
    pub line: usize,
    pub bytes: &'a [u8],
}

// A walk through a text: where it is, how many records and lines ended, and whether it comes from a return.
#[derive(Clone, Copy)]
struct Walk {
    spot: Spot,
    records: usize,
    ended: usize,
    after_return: bool,
}

impl Walk {
    fn new() -> Walk
        ensures { result ≡ record { spot = Spot.Between; records = 0; ended = 0; after_return = false } }
    {
        Walk {
            spot: Spot::Between,
            records: 0,
            ended: 0,
            after_return: false,
        }
    }

    // Passes a byte, and counts its line where it ends one.
    fn count(&mut self, byte: u8)
        requires { self.old.ended + 1 < 2 ^ 64 }
        ensures ended { self.new.ended ≡ self.old.ended + (if ends_line self.old.after_return byte then 1 else 0) }
        ensures after_return { self.new.after_return ≡ (byte == 13) }
        ensures spot { self.new.spot ≡ self.old.spot }
        ensures records { self.new.records ≡ self.old.records }
    {
        if byte == b'\r' || byte == b'\n' && !self.after_return {
            self.ended += 1;
        }
        self.after_return = byte == b'\r';
    }

    // Passes a byte, and counts the record that ends before it.
    fn pass(&mut self, byte: u8)
        requires ended { self.old.ended + 1 < 2 ^ 64 }
        requires records { self.old.records + 1 < 2 ^ 64 }
        ensures ended { self.new.ended ≡ self.old.ended + (if ends_line self.old.after_return byte then 1 else 0) }
        ensures after_return { self.new.after_return ≡ (byte == 13) }
        ensures spot { self.new.spot ≡ spot_after self.old.spot byte }
        ensures records { self.new.records ≡ self.old.records
            + (if is_open self.old.spot && not (is_open self.new.spot) then 1 else 0) }
    {
        self.count(byte);
        let was_open = self.spot.is_open();
        self.spot = self.spot.after(byte);
        if was_open && !self.spot.is_open() {
            self.records += 1;
        }
    }

    // Whether the record of a number began with the byte that was passed last, by whether one went on before it.
    fn begins(&self, was_open: bool, number: u32) -> bool
        ensures { result ≡ (not was_open && is_open self.now.spot && (self.now.records == number)) }
    {
        !was_open && self.spot.is_open() && self.records == number as usize
    }

    // The same, but that no record begins before a place.
    fn pass_from(&mut self, first: usize, at: usize, byte: u8)
        requires ended { self.old.ended + 1 < 2 ^ 64 }
        requires records { self.old.records + 1 < 2 ^ 64 }
        ensures ended { self.new.ended ≡ self.old.ended + (if ends_line self.old.after_return byte then 1 else 0) }
        ensures after_return { self.new.after_return ≡ (byte == 13) }
        ensures before { at < first → (self.new.spot ≡ self.old.spot) × (self.new.records ≡ self.old.records) }
        ensures behind { first ≤ at → (self.new.spot ≡ spot_after self.old.spot byte) × (self.new.records
            ≡ self.old.records + (if is_open self.old.spot && not (is_open self.new.spot) then 1 else 0)) }
    {
        if at < first {
            self.count(byte);
        } else {
            self.pass(byte);
        }
    }
}

// Where the first record may begin: behind a byte order mark.
fn first_place(text: &[u8]) -> usize
    ensures { result ≡ first_place text.now }
{
    if text.len() >= 3 && text[0] == 0xEF && text[1] == 0xBB && text[2] == 0xBF {
        3
    } else {
        0
    }
}

// Where a record stands: the line in which it begins, its first byte, and the place behind it.
#[derive(Clone, Copy)]
struct Place {
    line: usize,
    start: usize,
    end: usize,
}

// The place of the record of a number, counted from 0; `None` where the text has no such record.
fn find_record(text: &[u8], number: u32) -> Option<Place>
    ensures some { IfSome result (λ place. Stands text.now number place.start place.end
        × (place.line ≡ line_after (take place.start text.now))) }
    ensures none { IsNone result → length (rows_of text.now) ≤ number }
{
    let mut walk = Walk::new();
    let mut begun = None;
    let first = first_place(text);
    for at in 0..text.len() {
        let (ended, was_open) = (walk.ended, walk.spot.is_open());
        walk.pass_from(first, at, text[at]);
        match begun {
            None if walk.begins(was_open, number) => begun = Some((ended + 1, at)),
            Some((line, start)) if !walk.spot.is_open() => {
                return Some(Place {
                    line,
                    start,
                    end: at,
                });
            }
            _ => {}
        }
    }
    let (line, start) = begun?;
    Some(Place {
        line,
        start,
        end: text.len(),
    })
}

/// The record of a number, counted from 0; an empty one in the first line where the text has none.
pub(crate) fn record_of(text: &[u8], number: u32) -> Record<'_>
    ensures { HasRecord text.now number result.line result.bytes.now }
{
    match find_record(text, number) {
        Some(place) => Record {
            line: place.line,
            bytes: &text[place.start..place.end],
        },
        None => Record {
            line: 1,
            bytes: &text[..0],
        },
    }
}
