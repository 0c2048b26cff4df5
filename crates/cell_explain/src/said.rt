//! What is said of a text, and its writing.
ghost use Rattle.std.specs.Prelude.{◌≡◌, IfOk, IsErr, OnErr, string_bytes, true};
ghost use Rattle.cell_output.specs.Watched.{IsSameWriter, WritesPart, bytes_held, has_refused};
ghost use Rattle.cell_explain.specs.Told.{SaysNothing, WritesSaying};

use cell_output::{WatchedWriter, WriteFault, status};
use std::alloc::{AllocError, Global};
use std::io::Write;

/// What is said of a text, and the exit status.
#[derive(Drop)]
pub(crate) struct Said {
    pub status: u8,
    pub text: Vec<u8>,
}

impl Said {
    /// Nothing is said, since memory was refused.
    pub(crate) fn nothing(alloc: Global) -> Said
        ensures { SaysNothing result.status result.text.items }
    {
        Said {
            status: status::OUT_OF_MEMORY,
            text: Vec::new(alloc),
        }
    }

    /// A line is said with a status, unless its memory was refused.
    pub(crate) fn line(alloc: Global, status: u8, line: Result<String, AllocError>) -> Said
        ensures status { IfOk line (λ _. result.status ≡ status) }
        ensures line { IfOk line (λ text. result.text.items ≡ string_bytes text) }
        ensures nothing { OnErr line (SaysNothing result.status result.text.items) }
    {
        match line {
            Ok(line) => Said {
                status,
                text: line.into_bytes(),
            },
            Err(_) => Said::nothing(alloc),
        }
    }

    /// Writes what is said, and gives the status.
    pub(crate) fn write<W: Write>(
        &self,
        writer: &mut WatchedWriter<'_, W>,
    ) -> Result<u8, WriteFault>
        ensures writer { IsSameWriter writer.old writer.new }
        ensures whole { IfOk result (WritesSaying (bytes_held W.contents writer.old) (bytes_held W.contents writer.new)
            self.now.status self.now.text.items) }
        ensures part { IsErr result → WritesPart (bytes_held W.contents writer.old) (bytes_held W.contents writer.new)
            self.now.text.items }
        ensures fault { IsErr result → has_refused writer.new ≡ true }
    {
        writer.write_bytes(self.text.as_slice())?;
        Ok(self.status)
    }
}
