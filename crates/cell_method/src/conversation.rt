//! A conversation with a method.
use crate::line::LineReader;

/// A conversation with a method: the lines that it writes, and the writer of what is told to it.
#[derive(Drop)]
pub struct Conversation<'a, R, W> {
    pub lines: LineReader<R>,
    pub writer: &'a mut W,
}
