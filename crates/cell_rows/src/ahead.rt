//! A reader whose next bytes are in sight, so that plain lines are taken straight from them.
ghost use Rattle.std.specs.Prelude.{◌≡◌, ◌≢◌, ◌≤◌, ◌<◌, ◌∷◌, [], length, slice_range, true, false};
ghost use Rattle.std.specs.Prelude.{IfOk, IfSome, IsErr, IsErrOf, OnOk};
ghost use Rattle.std.specs.Io.KnownBytes.{IsAtEnd, Keeps, ReadConsumes};
ghost use Rattle.std.specs.Io.{ReadsAtMost};
ghost use Rattle.cell_rows.specs.Rows.{TakesRow};
ghost use Rattle.cell_rows.specs.Fitting.{BeginsUnfit, Fits};
ghost use Rattle.cell_rows.specs.Sights.{FeedsTwice, HasNoLine, InSight, KeepsRows, bytes_left, plain_row, rows_ahead};
ghost use Rattle.cell_rows.specs.Texts.{Row};

use crate::places::{NOWHERE, Places};
use crate::rows::{Four, RowError};
use crate::scan::{SIZE, Stop, line_together, next_line};
use crate::watched::TellsFault;
use std::io;
use std::io::Read;

/// What comes next of a text.
#[derive(Clone, Copy, Debug, PartialEq, Eq)]
pub(crate) enum Next {
    /// A plain line, which was taken.
    Line,
    /// Nothing: the text ends.
    End,
    /// A line that isn't plain.
    Odd,
}

/// A reader, the bytes of it that are in sight, and the places of the line that was taken last.
#[derive(Drop)]
pub(crate) struct ReadAhead<R> {
    source: R,
    buffer: [u8; SIZE],
    at: usize,
    filled: usize,
    places: Places,
}

// A piece of a text.
fn piece(text: &[u8], from: usize, to: usize) -> &[u8]
    requires { (from ≤ to) × (to ≤ length text.now) }
    ensures { result.now ≡ slice_range text.now from to }
{
    &text[from..to]
}

impl<R: TellsFault> ReadAhead<R> {
    /// A reader of which no byte is in sight yet.
    pub(crate) fn new(source: R) -> ReadAhead<R>
        ensures sight { InSight result }
        ensures left { bytes_left R.remaining result ≡ R.remaining source }
        ensures fresh { R.failed result.source ≡ R.failed source }
    {
        ReadAhead {
            source,
            buffer: [0; SIZE],
            at: 0,
            filled: 0,
            places: NOWHERE,
        }
    }

    /// Whether a read failed.
    pub(crate) fn has_failed(&self) -> bool
        ensures { result ≡ R.failed self.now.source }
    {
        self.source.has_failed()
    }

    // Whether two line feeds come next.
    fn begins_blank(&self) -> bool
        requires { InSight self.now }
        ensures { result ≡ true → FeedsTwice self.now.buffer self.now.at self.now.filled }
    {
        self.at + 1 < self.filled
            && self.buffer[self.at] == b'\n'
            && self.buffer[self.at + 1] == b'\n'
    }

    // Passes over blank lines in sight, up to the line feed before another line.
    fn skip_blank(&mut self)
        requires { InSight self.old }
        ensures sight { InSight self.new }
        ensures rows { rows_ahead R.remaining self.new ≡ rows_ahead R.remaining self.old }
    {
        for _ in 0..SIZE {
            if !self.begins_blank() {
                return;
            }
            self.at += 1;
        }
    }

    // Takes the next line, if it is plain and whole in sight, byte by byte.
    fn take_any_line(&mut self) -> Result<(), Stop>
        requires { InSight self.old }
        ensures sight { InSight self.new }
        ensures takes { OnOk result (TakesRow (rows_ahead R.remaining self.old) (rows_ahead R.remaining self.new)
            (plain_row self.new) true) }
        ensures fits { OnOk result (Fits (plain_row self.new)) }
        ensures kept { IsErr result → self.new ≡ self.old }
        ensures unfit { IsErrOf result Stop.Unfit → IfSome (rows_ahead R.remaining self.old) BeginsUnfit }
    {
        let places = next_line(&self.buffer, self.at, self.filled)?;
        self.places = places;
        self.at = places.fourth;
        Ok(())
    }

    // Takes the next line, if it is plain and whole in sight.
    #[inline(always)]
    fn take_line(&mut self) -> Result<(), Stop>
        requires { InSight self.old }
        ensures sight { InSight self.new }
        ensures takes { OnOk result (TakesRow (rows_ahead R.remaining self.old) (rows_ahead R.remaining self.new)
            (plain_row self.new) true) }
        ensures fits { OnOk result (Fits (plain_row self.new)) }
        ensures kept { IsErr result → self.new ≡ self.old }
        ensures unfit { IsErrOf result Stop.Unfit → IfSome (rows_ahead R.remaining self.old) BeginsUnfit }
    {
        if let Some(places) = line_together(&self.buffer, self.at, self.filled) {
            self.places = places;
            self.at = places.fourth;
            return Ok(());
        }
        self.take_any_line()
    }

    // What comes next where no byte came any more: nothing, if none is in sight but the line feed of the line before.
    fn rest(&self) -> Next
        requires { InSight self.now }
        ensures line { result ≢ Next.Line }
        ensures end { result ≡ Next.End → (self.now.filled < 16384)
            × HasNoLine (slice_range self.now.buffer self.now.at self.now.filled) }
    {
        if self.filled == SIZE {
            return Next::Odd;
        }
        match piece(&self.buffer, self.at, self.filled) {
            [] | [b'\n'] => Next::End,
            _ => Next::Odd,
        }
    }

    // Reads on, so that more bytes are in sight, and says whether any came.
    fn refill(&mut self) -> io::Result<bool>
        requires { InSight self.old }
        ensures sight { OnOk result (InSight self.new) }
        ensures kept { OnOk result (Keeps (bytes_left R.remaining self.old) (bytes_left R.remaining self.new)) }
        ensures end { IfOk result (λ came. came ≡ false → self.new.filled < 16384
            → IsAtEnd (R.remaining self.new.source)) }
        ensures failed { IsErr result → R.failed self.new.source ≡ true }
    {
        self.buffer.copy_within(self.at..self.filled, 0);
        self.filled -= self.at;
        self.at = 0;
        let count = self.source.read_told(&mut self.buffer[self.filled..])?;
        self.filled += count;
        Ok(count > 0)
    }

    /// Takes the next line, if it is plain, over as many reads as it takes. It reads no more of a line that is plain so
    /// far and none of a record that fits.
    #[inline(always)]
    pub(crate) fn advance(&mut self) -> Result<Next, RowError>
        requires { InSight self.old }
        ensures sight { OnOk result (InSight self.new) }
        ensures takes { IfOk result (λ next. next ≡ Next.Line
            → TakesRow (rows_ahead R.remaining self.old) (rows_ahead R.remaining self.new) (plain_row self.new) true) }
        ensures fits { IfOk result (λ next. next ≡ Next.Line → Fits (plain_row self.new)) }
        ensures end { IfOk result (λ next. next ≡ Next.End → (row : Row)
            → TakesRow (rows_ahead R.remaining self.old) (rows_ahead R.remaining self.new) row false) }
        ensures kept { IfOk result (λ next. next ≡ Next.Odd
            → KeepsRows (rows_ahead R.remaining self.old) (rows_ahead R.remaining self.new)) }
        ensures unfit { IsErrOf result RowError.Unfit → IfSome (rows_ahead R.remaining self.old) BeginsUnfit }
        ensures fault { IsErrOf result RowError.ReadFault → R.failed self.new.source ≡ true }
    {
        for _ in 0..u64::MAX {
            match self.take_line() {
                Ok(()) => return Ok(Next::Line),
                Err(Stop::Unfit) => return Err(RowError::Unfit),
                Err(Stop::Odd) if self.begins_blank() => self.skip_blank(),
                Err(Stop::Odd) => return Ok(Next::Odd),
                Err(Stop::Cut) => match self.refill() {
                    Ok(true) => {}
                    Ok(false) => return Ok(self.rest()),
                    Err(_) => return Err(RowError::ReadFault),
                },
            }
        }
        Ok(Next::Odd)
    }

    /// The fields of the line that was taken last.
    #[inline(always)]
    pub(crate) fn four(&self) -> Four<'_>
        ensures { plain_row self.now ≡ result.first.now ∷ result.second.now ∷ result.third.now ∷ result.fourth.now
            ∷ [] }
    {
        let Places {
            start,
            first,
            second,
            third,
            fourth,
        } = self.places;
        Four {
            first: piece(&self.buffer, start, first),
            second: piece(&self.buffer, first + 1, second),
            third: piece(&self.buffer, second + 1, third),
            fourth: piece(&self.buffer, third + 1, fourth),
        }
    }
}

impl<R: TellsFault> Read for ReadAhead<R> {
    ghost use Rattle.cell_rows.specs.Sights.{bytes_left};

    ghost remaining = { bytes_left R.remaining };

    fn read(&mut self, buf: &mut [u8]) -> io::Result<usize>
        ensures bound { ReadsAtMost result buf.new }
        ensures bytes { ReadConsumes (bytes_left R.remaining self.old) (bytes_left R.remaining self.new) result
            buf.new }
    {
        let filled = self.filled.min(SIZE);
        if self.at >= filled {
            return self.source.read(buf);
        }
        let count = buf.len().min(filled - self.at);
        buf[..count].copy_from_slice(&self.buffer[self.at..self.at + count]);
        self.at += count;
        Ok(count)
    }
}
