//! A reader that keeps what it hands on.
ghost use Rattle.std.specs.Prelude.{◌≡◌, ◌++◌, List, ℕ, Some, take, IfOk, IsErr};
ghost use Rattle.std.specs.Io.{ReadsAtMost};
ghost use Rattle.std.specs.Io.KnownBytes.{ReadConsumes, prepend_known};

use crate::reading::more::MOST_KEPT;
use std::alloc::Global;
use std::io;
use std::io::{ErrorKind, Read};
use std::marker::{Brand, PhantomData};

/// The whole text of a reader, where its bytes are known. It is a type alone: a caller picks what it stands for where
/// it passes `Brand`.
pub(crate) trait Whole {
    ghost use Rattle.std.specs.Prelude.{ℕ, List, Option};

    ghost text: { Option (List ℕ) };
}

impl Whole for Brand {
    ghost use Rattle.std.specs.Prelude.{None};

    ghost text = { None };
}

/// A reader that keeps a copy of all that it hands on: what it kept, followed by what is left, is the whole text.
#[derive(Drop)]
pub(crate) struct Keeping<T: Whole, R: Read> {
    pub(crate) source: R,
    pub(crate) kept: Vec<u8>,
    // Why no more can be kept: memory for the copy was refused, or for a read, or the text is too large.
    pub(crate) refused: Option<ErrorKind>,
    pub(crate) of: PhantomData<T>,
    ghost whole: { (text : List ℕ) → T.text ≡ Some text → prepend_known kept.items (R.remaining source) ≡ Some text },
}

impl<T: Whole, R: Read> Keeping<T, R> {
    /// A reader that kept nothing yet.
    pub(crate) fn new(alloc: Global, source: R) -> Keeping<T, R>
        requires { T.text ≡ R.remaining source }
        ensures { R.remaining result.source ≡ R.remaining source }
    {
        Keeping {
            source,
            kept: Vec::new(alloc),
            refused: None,
            of: PhantomData,
        }
    }

    // Notes an error, if it tells that memory was refused, or that the text is too large.
    fn note(&mut self, error: io::Error) -> io::Error
        ensures kept { self.new.kept ≡ self.old.kept }
        ensures source { self.new.source ≡ self.old.source }
    {
        let kind = error.kind();
        if matches!(kind, ErrorKind::OutOfMemory | ErrorKind::FileTooLarge) {
            self.refused = Some(kind);
        }
        error
    }
}

impl<T: Whole, R: Read> Read for Keeping<T, R> {
    ghost remaining = { λ keeping. R.remaining keeping.source };

    fn read(&mut self, buf: &mut [u8]) -> io::Result<usize>
        ensures bound { ReadsAtMost result buf.new }
        ensures bytes { ReadConsumes (R.remaining self.old.source) (R.remaining self.new.source) result buf.new }
        // It keeps what it hands on, and nothing where it answers an error.
        ensures kept { IfOk result (λ count. self.new.kept.items ≡ self.old.kept.items ++ take count buf.new) }
        ensures nothing { IsErr result → self.new.kept.items ≡ self.old.kept.items }
    {
        if self.kept.len() >= MOST_KEPT {
            return Err(self.note(io::Error::from(ErrorKind::FileTooLarge)));
        }
        if let Err(e) = self.kept.reserve(buf.len()) {
            return Err(self.note(io::Error::from(e)));
        }
        match self.source.read(buf) {
            Ok(count) => {
                let Ok(()) = self.kept.extend_from_slice(&buf[..count]) else {
                    unreachable!();
                };
                Ok(count)
            }
            Err(e) => Err(self.note(e)),
        }
    }
}
