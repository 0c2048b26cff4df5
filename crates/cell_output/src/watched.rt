//! A writer that notes whether a write of it was refused.
ghost use Rattle.std.specs.Prelude.{◌≡◌, ◌≢◌, ◌⊎◌, ◌↔◌, ◌++◌, true, false, map};
ghost use Rattle.std.specs.Prelude.{IfErr, IfOk, IsErr, IsOk, None, OnOk, Some};
ghost use Rattle.std.specs.IoError.{error_kind};
ghost use Rattle.std.specs.List.{concat};
ghost use Rattle.std.specs.Io.{WritesAtMost};
ghost use Rattle.std.specs.Io.KnownBytes.{Appends, Keeps, WriteAppends};
ghost use Rattle.cell_output.specs.Watched.{IsSameWriter, Refuses, Watches, WritesPart, bytes_held, error_noted};
ghost use Rattle.cell_output.specs.Watched.{has_refused, taken_of};

use crate::whole::write_whole;
use arrayvec::{ArrayVec, CapacityError};
use std::io;
use std::io::{ErrorKind, Write};

// How many bytes of pieces are written at once at most.
const ROOM: usize = 128;

/// A write was refused.
#[derive(Clone, Copy, Debug, PartialEq, Eq)]
pub struct WriteFault;

/// A writer that notes whether a write of it was refused: whether one took none of its bytes, or failed and wasn't
/// interrupted. It notes the error of the last call that failed, too. A write that was interrupted is tried again, and
/// is refused where that comes 2^64 - 1 times.
#[derive(Drop)]
pub struct WatchedWriter<'a, W> {
    writer: &'a mut W,
    refused: bool,
    // The error of the last call that failed and wasn't interrupted, if one did.
    error: Option<io::Error>,
}

// Notes the error of a call, if it failed and wasn't interrupted.
fn note_error<T>(noted: &mut Option<io::Error>, answer: &io::Result<T>)
    ensures failed { IfErr answer.now (λ e. error_kind e ≢ ErrorKind.Interrupted → noted.new ≡ Some e) }
    ensures worked { IsOk answer.now → noted.new ≡ noted.old }
{
    match answer {
        Err(error) if error.kind() != ErrorKind::Interrupted => *noted = Some(*error),
        _ => {}
    }
}

// The error that is noted after this one of a write. That none of its bytes was taken is no error of the writer.
fn noted_after(noted: Option<io::Error>, error: io::Error) -> Option<io::Error> {
    match error.kind() {
        ErrorKind::WriteZero => noted,
        _ => Some(error),
    }
}

// Puts pieces into a room, one after the other, if they fit.
fn gather(pieces: &[&[u8]], room: &mut ArrayVec<u8, ROOM>) -> Result<(), CapacityError>
    ensures { OnOk result (room.new.items ≡ room.old.items ++ concat (map (λ p. p.now) pieces.now)) }
{
    for piece in pieces {
        room.try_extend_from_slice(piece)?;
    }
    Ok(())
}

impl<'a, W: Write> WatchedWriter<'a, W> {
    /// A writer no write of which was refused yet.
    pub fn new(writer: &'a mut W) -> WatchedWriter<'a, W>
        ensures writer { Watches result writer.entry }
        ensures refused { has_refused result ≡ false }
        ensures error { error_noted result ≡ None }
    {
        WatchedWriter {
            writer,
            refused: false,
            error: None,
        }
    }

    /// The error of the last call that failed and wasn't interrupted, if one did.
    pub fn error(&self) -> Option<io::Error>
        ensures { result ≡ error_noted self.now }
    {
        self.error
    }

    // Notes the writer's answer to a write of some bytes, and gives how many it took, or that it refused them.
    fn note(&mut self, answer: io::Result<usize>) -> Result<usize, WriteFault>
        ensures writer { IsSameWriter self.old self.new }
        ensures bytes { bytes_held W.contents self.new ≡ bytes_held W.contents self.old }
        ensures taken { IfOk result (λ count. count ≡ taken_of answer) }
        ensures fault { IsErr result ↔ Refuses answer }
        ensures noted { (has_refused self.new ≡ true) ↔ (has_refused self.old ≡ true) ⊎ Refuses answer }
        ensures error { IfErr answer (λ e. error_kind e ≢ ErrorKind.Interrupted → error_noted self.new ≡ Some e) }
    {
        note_error(&mut self.error, &answer);
        match answer {
            Ok(0) => {}
            Ok(count) => return Ok(count),
            Err(e) if e.kind() == ErrorKind::Interrupted => return Ok(0),
            Err(_) => {}
        }
        self.refused = true;
        Err(WriteFault)
    }

    /// Writes bytes.
    pub fn write_bytes(&mut self, bytes: &[u8]) -> Result<(), WriteFault>
        ensures writer { IsSameWriter self.old self.new }
        ensures whole { OnOk result (Appends (bytes_held W.contents self.old) (bytes_held W.contents self.new)
            bytes.now) }
        // After an error a first part of the bytes was written, and not all.
        ensures part { IsErr result → WritesPart (bytes_held W.contents self.old) (bytes_held W.contents self.new)
            bytes.now }
        // It fails where a write was refused, and only there.
        ensures fault { IsErr result → has_refused self.new ≡ true }
        ensures same { OnOk result (has_refused self.new ≡ has_refused self.old) }
    {
        match write_whole(self.writer, bytes) {
            Ok(()) => Ok(()),
            Err(error) => {
                self.error = noted_after(self.error, error);
                self.refused = true;
                Err(WriteFault)
            }
        }
    }

    // Writes pieces of a text, each by itself.
    fn write_each(&mut self, pieces: &[&[u8]]) -> Result<(), WriteFault>
        ensures writer { IsSameWriter self.old self.new }
        ensures whole { OnOk result (Appends (bytes_held W.contents self.old) (bytes_held W.contents self.new)
            (concat (map (λ p. p.now) pieces.now))) }
        ensures part { IsErr result → WritesPart (bytes_held W.contents self.old) (bytes_held W.contents self.new)
            (concat (map (λ p. p.now) pieces.now)) }
        ensures fault { IsErr result → has_refused self.new ≡ true }
        ensures same { OnOk result (has_refused self.new ≡ has_refused self.old) }
    {
        for piece in pieces {
            self.write_bytes(piece)?;
        }
        Ok(())
    }

    /// Writes pieces of a text, one after the other: at once, where they have at most 128 bytes.
    pub fn write_pieces(&mut self, pieces: &[&[u8]]) -> Result<(), WriteFault>
        ensures writer { IsSameWriter self.old self.new }
        ensures whole { OnOk result (Appends (bytes_held W.contents self.old) (bytes_held W.contents self.new)
            (concat (map (λ p. p.now) pieces.now))) }
        // After an error a first part of the text was written, and not all.
        ensures part { IsErr result → WritesPart (bytes_held W.contents self.old) (bytes_held W.contents self.new)
            (concat (map (λ p. p.now) pieces.now)) }
        // It fails where a write was refused, and only there.
        ensures fault { IsErr result → has_refused self.new ≡ true }
        ensures same { OnOk result (has_refused self.new ≡ has_refused self.old) }
    {
        let mut room = ArrayVec::new();
        match gather(pieces, &mut room) {
            Ok(()) => self.write_bytes(room.as_slice()),
            Err(_) => self.write_each(pieces),
        }
    }
}

impl<W: Write> Write for WatchedWriter<'_, W> {
    ghost use Rattle.cell_output.specs.Watched.{bytes_held};

    ghost contents = { bytes_held W.contents };

    /// One write. Where it was interrupted it isn't noted: whoever calls tries it again.
    fn write(&mut self, buf: &[u8]) -> io::Result<usize>
        ensures bound { WritesAtMost result buf.now }
        ensures bytes { WriteAppends (bytes_held W.contents self.old) (bytes_held W.contents self.new) result buf.now }
        ensures writer { IsSameWriter self.old self.new }
        ensures noted { IfErr result (λ e. error_kind e ≢ ErrorKind.Interrupted → error_noted self.new ≡ Some e) }
    {
        let answer = self.writer.write(buf);
        let _ = self.note(answer);
        answer
    }

    fn flush(&mut self) -> io::Result<()>
        ensures bytes { Keeps (bytes_held W.contents self.old) (bytes_held W.contents self.new) }
        ensures writer { IsSameWriter self.old self.new }
        ensures noted { IfErr result (λ e. error_kind e ≢ ErrorKind.Interrupted → error_noted self.new ≡ Some e) }
    {
        let answer = self.writer.flush();
        note_error(&mut self.error, &answer);
        answer
    }
}
