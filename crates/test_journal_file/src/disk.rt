//! A file in memory, which fails, is slow and is interrupted as a test wants.
ghost use Rattle.std.specs.Io.{WritesAtMost};

use std::cell::RefCell;
use std::fs::{Metadata, OpenFile};
use std::io;
use std::io::{ErrorKind, Write};

/// What a file holds, what it still takes, and how often it was written and handed to the device.
#[derive(Drop)]
pub(crate) struct Disk {
    pub(crate) bytes: Vec<u8>,
    /// How many more bytes it takes.
    pub(crate) room: usize,
    /// How many bytes a write takes at most.
    pub(crate) step: usize,
    pub(crate) writes: u32,
    pub(crate) synced: u32,
}

impl Disk {
    // One write. Once there is no room it fails.
    fn write(&mut self, buf: &[u8]) -> io::Result<usize>
        ensures { WritesAtMost result buf.now }
    {
        if self.room == 0 {
            return Err(io::Error::from(ErrorKind::StorageFull));
        }
        let most = self.room.min(self.step).min(buf.len());
        self.bytes.extend_from_slice(&buf[..most])?;
        self.room = self.room.saturating_sub(most);
        self.writes = self.writes.saturating_add(1);
        Ok(most)
    }
}

/// A file that is open on a disk.
#[derive(Clone, Copy)]
pub(crate) struct TestFile<'a> {
    pub(crate) disk: &'a RefCell<Disk>,
}

impl Write for TestFile<'_> {
    fn write(&mut self, buf: &[u8]) -> io::Result<usize> {
        match self.disk.try_borrow_mut() {
            Ok(mut disk) => disk.write(buf),
            Err(_) => Err(io::Error::from(ErrorKind::Other)),
        }
    }

    fn flush(&mut self) -> io::Result<()> {
        Ok(())
    }
}

impl OpenFile for TestFile<'_> {
    fn metadata(&self) -> io::Result<Metadata> {
        match self.disk.try_borrow() {
            Ok(disk) => Ok(Metadata::of_file(disk.bytes.len() as u64)),
            Err(_) => Err(io::Error::from(ErrorKind::Other)),
        }
    }

    fn set_len(&self, _size: u64) -> io::Result<()> {
        Err(io::Error::from(ErrorKind::Unsupported))
    }

    fn sync_all(&self) -> io::Result<()> {
        match self.disk.try_borrow_mut() {
            Ok(mut disk) => {
                disk.synced = disk.synced.saturating_add(1);
                Ok(())
            }
            Err(_) => Err(io::Error::from(ErrorKind::Other)),
        }
    }

    fn sync_data(&self) -> io::Result<()> {
        Err(io::Error::from(ErrorKind::Unsupported))
    }
}
