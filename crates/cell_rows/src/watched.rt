//! Readers that tell whether they failed.
ghost use Rattle.std.specs.Prelude.{◌≡◌, ◌⊎◌, false, true, IfErr, IsErr, None, Some};
ghost use Rattle.std.specs.Io.{ReadsAtMost};
ghost use Rattle.std.specs.Io.KnownBytes.{ReadConsumes};
ghost use Rattle.cell_rows.specs.Watched.{bytes_under, error_noted, read_failed};

use std::io;
use std::io::{ErrorKind, Read};

/// A reader that tells whether a read of it failed.
pub trait TellsFault: Read {
    ghost use Rattle.std.specs.Prelude.{◌≡◌, Bool, true, IsErr};
    ghost use Rattle.std.specs.Io.{ReadsAtMost};
    ghost use Rattle.std.specs.Io.KnownBytes.{ReadConsumes};

    /// Whether a read failed.
    ghost failed: { Self → Bool };

    /// Whether a read failed.
    fn has_failed(&self) -> bool
        ensures { result ≡ failed self.now };

    /// Reads as `read` does. A read that fails is told from then on.
    fn read_told(&mut self, buf: &mut [u8]) -> io::Result<usize>
        ensures bound { ReadsAtMost result buf.new }
        ensures bytes { ReadConsumes (Self.remaining self.old) (Self.remaining self.new) result buf.new }
        ensures told { IsErr result → failed self.new ≡ true };
}

/// The bytes of a text in memory can always be read.
impl TellsFault for &[u8] {
    ghost use Rattle.std.specs.Prelude.{false};

    ghost failed = { λ _. false };

    fn has_failed(&self) -> bool {
        false
    }

    fn read_told(&mut self, buf: &mut [u8]) -> io::Result<usize> {
        self.read(buf)
    }
}

/// A reader that is lent tells what it tells.
impl<R: TellsFault> TellsFault for &mut R {
    ghost failed = { λ r. R.failed r.now };

    fn has_failed(&self) -> bool {
        TellsFault::has_failed(&**self)
    }

    fn read_told(&mut self, buf: &mut [u8]) -> io::Result<usize> {
        TellsFault::read_told(&mut **self, buf)
    }
}

/// Any reader, with what it takes to tell whether a read of it failed, and by which error. A read that was interrupted
/// is tried again.
#[derive(Drop)]
pub struct Watched<R> {
    source: R,
    // The error of the last read that failed, if one did.
    error: Option<io::Error>,
}

impl<R: Read> Watched<R> {
    /// A reader no read of which failed yet.
    pub fn new(source: R) -> Watched<R>
        ensures bytes { bytes_under R.remaining result ≡ R.remaining source }
        ensures fresh { read_failed result ≡ false }
        ensures error { error_noted result ≡ None }
    {
        Watched {
            source,
            error: None,
        }
    }

    /// The error of the last read that failed, if one did.
    pub fn error(&self) -> Option<io::Error>
        ensures { result ≡ error_noted self.now }
    {
        self.error
    }
}

impl<R: Read> Read for Watched<R> {
    ghost use Rattle.cell_rows.specs.Watched.{bytes_under};

    ghost remaining = { bytes_under R.remaining };

    fn read(&mut self, buf: &mut [u8]) -> io::Result<usize>
        ensures bound { ReadsAtMost result buf.new }
        ensures bytes { ReadConsumes (bytes_under R.remaining self.old) (bytes_under R.remaining self.new) result
            buf.new }
        // A failure is noted where an error is answered, and only there, and a note stays.
        ensures noted { read_failed self.new ≡ true → (read_failed self.old ≡ true) ⊎ IsErr result }
        ensures notes { IsErr result → read_failed self.new ≡ true }
        ensures kept { read_failed self.old ≡ true → read_failed self.new ≡ true }
        ensures error { IfErr result (λ e. error_noted self.new ≡ Some e) }
    {
        for _ in 0..u64::MAX {
            match self.source.read(buf) {
                Ok(count) => return Ok(count),
                Err(e) if e.kind() == ErrorKind::Interrupted => {}
                Err(e) => {
                    self.error = Some(e);
                    return Err(e);
                }
            }
        }
        let error = io::Error::from(ErrorKind::Interrupted);
        self.error = Some(error);
        Err(error)
    }
}

impl<R: Read> TellsFault for Watched<R> {
    ghost use Rattle.cell_rows.specs.Watched.{read_failed};

    ghost failed = { read_failed };

    fn has_failed(&self) -> bool {
        self.error.is_some()
    }

    fn read_told(&mut self, buf: &mut [u8]) -> io::Result<usize> {
        self.read(buf)
    }
}
