//! The words of the command line, with the program's own name first.
use std::env::{Env, FillError};
use std::io;

const NAME: &[u8] = b"cellctl";

/// The environment, in which the program has its own name. The path by which it was called may have any bytes, and
/// nothing depends on it.
#[derive(Clone, Copy)]
pub(crate) struct Named<'a, R> {
    pub(crate) rt: &'a R,
}

impl<R: Env> Env for Named<'_, R> {
    fn arg(&self, i: usize, buf: &mut [u8]) -> Result<usize, FillError> {
        if i > 0 {
            return self.rt.arg(i, buf);
        }
        match buf.get_mut(..NAME.len()) {
            Some(place) => {
                place.copy_from_slice(NAME);
                Ok(NAME.len())
            }
            None => Err(FillError::TooLong),
        }
    }

    fn var(&self, name: &str, buf: &mut [u8]) -> Result<usize, FillError> {
        self.rt.var(name, buf)
    }

    fn var_at(&self, i: usize, buf: &mut [u8]) -> Result<usize, FillError> {
        self.rt.var_at(i, buf)
    }

    fn current_dir(&self, buf: &mut [u8]) -> io::Result<usize> {
        self.rt.current_dir(buf)
    }

    fn set_current_dir(&self, path: &str) -> io::Result<()> {
        self.rt.set_current_dir(path)
    }
}
