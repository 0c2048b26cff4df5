//! Readers and writers over others: some fail, some move few bytes at a time, some are interrupted, one takes nothing.
use std::io;
use std::io::{Read, Write};

/// A reader over another that fails after a number of bytes.
#[derive(Drop)]
pub struct FailingReader<R> {
    source: R,
    left: usize,
}

impl<R: Drop> FailingReader<R> {
    /// A reader over another that fails after so many bytes.
    pub fn new(source: R, left: usize) -> FailingReader<R> {
        FailingReader { source, left }
    }
}

impl<R: Read> Read for FailingReader<R> {
    fn read(&mut self, buf: &mut [u8]) -> io::Result<usize> {
        if self.left == 0 {
            return Err(io::Error::from(io::ErrorKind::Other));
        }
        let most = self.left.min(buf.len());
        let count = self.source.read(&mut buf[..most])?;
        self.left = self.left.saturating_sub(count);
        Ok(count)
    }
}

/// A writer over another that takes a number of bytes and then fails.
#[derive(Drop)]
pub struct FailingWriter<W> {
    writer: W,
    left: usize,
}

impl<W: Drop> FailingWriter<W> {
    /// A writer over another that fails after so many bytes.
    pub fn new(writer: W, left: usize) -> FailingWriter<W> {
        FailingWriter { writer, left }
    }

    /// The writer below.
    pub fn inner(&self) -> &W {
        &self.writer
    }
}

impl<W: Write> Write for FailingWriter<W> {
    fn write(&mut self, buf: &[u8]) -> io::Result<usize> {
        if self.left == 0 && !buf.is_empty() {
            return Err(io::Error::from(io::ErrorKind::StorageFull));
        }
        let most = self.left.min(buf.len());
        let count = self.writer.write(&buf[..most])?;
        self.left = self.left.saturating_sub(count);
        Ok(count)
    }

    fn flush(&mut self) -> io::Result<()> {
        self.writer.flush()
    }
}

/// A reader or a writer over another that moves so many bytes at a time at most.
#[derive(Drop)]
pub struct Pieces<S> {
    stream: S,
    size: usize,
}

impl<S: Drop> Pieces<S> {
    /// A reader or a writer over another, in pieces of this size at most.
    pub fn new(stream: S, size: usize) -> Pieces<S> {
        Pieces { stream, size }
    }

    /// The reader or the writer below.
    pub fn inner(&self) -> &S {
        &self.stream
    }
}

impl<S: Read> Read for Pieces<S> {
    fn read(&mut self, buf: &mut [u8]) -> io::Result<usize> {
        let most = self.size.min(buf.len());
        self.stream.read(&mut buf[..most])
    }
}

impl<S: Write> Write for Pieces<S> {
    fn write(&mut self, buf: &[u8]) -> io::Result<usize> {
        let most = self.size.min(buf.len());
        self.stream.write(&buf[..most])
    }

    fn flush(&mut self) -> io::Result<()> {
        self.stream.flush()
    }
}

/// A reader or a writer over another that is interrupted before each call that gets through to that.
#[derive(Drop)]
pub struct Interrupted<S> {
    stream: S,
    was_interrupted: bool,
}

impl<S: Drop> Interrupted<S> {
    /// A reader or a writer over another, whose first call is interrupted.
    pub fn new(stream: S) -> Interrupted<S> {
        Interrupted {
            stream,
            was_interrupted: false,
        }
    }

    /// The reader or the writer below.
    pub fn inner(&self) -> &S {
        &self.stream
    }
}

impl<S> Interrupted<S> {
    // Whether this call is interrupted: each second one isn't.
    fn interrupts(&mut self) -> bool {
        self.was_interrupted = !self.was_interrupted;
        self.was_interrupted
    }
}

impl<S: Read> Read for Interrupted<S> {
    fn read(&mut self, buf: &mut [u8]) -> io::Result<usize> {
        if self.interrupts() {
            return Err(io::Error::from(io::ErrorKind::Interrupted));
        }
        self.stream.read(buf)
    }
}

impl<S: Write> Write for Interrupted<S> {
    fn write(&mut self, buf: &[u8]) -> io::Result<usize> {
        if self.interrupts() {
            return Err(io::Error::from(io::ErrorKind::Interrupted));
        }
        self.stream.write(buf)
    }

    fn flush(&mut self) -> io::Result<()> {
        self.stream.flush()
    }
}

/// A writer that takes no byte, and doesn't say that it failed.
#[derive(Drop)]
pub struct Unwilling;

impl Write for Unwilling {
    fn write(&mut self, _buf: &[u8]) -> io::Result<usize> {
        Ok(0)
    }

    fn flush(&mut self) -> io::Result<()> {
        Ok(())
    }
}
