//! Texts with long tails.
use std::alloc::{AllocError, Global};

/// What is repeated behind a first part of a text, with its name.
pub(crate) const TAILS: [(&str, &[u8]); 10] = [
    ("letters", b"a"),
    ("commas", b","),
    ("quotes", b"\""),
    ("lines of one letter", b"y\n"),
    ("a quote before each letter", b"\"a"),
    ("blank fields", b",,,\n"),
    ("lines that a carriage return ends", b"a\r"),
    ("quoted lines", b"a,\"\nb\"\n"),
    ("bytes 0", b"\0"),
    ("byte order marks", b"\xEF\xBB\xBF"),
];

/// What may follow a tail: nothing, the end of a quoted field, or whole lines.
pub(crate) const ENDS: [&[u8]; 3] = [b"", b"\",,\n", b"\n\"a\",,,\nalways,,stop,press1\n"];

/// A text of a first part, of a tail that is repeated to so many bytes at least, and of an end.
pub(crate) fn text_with(
    alloc: Global,
    first: &[u8],
    tail: &[u8],
    size: usize,
    end: &[u8],
) -> Result<Vec<u8>, AllocError> {
    let mut block = Vec::new(alloc);
    for _ in 0..1000 {
        block.extend_from_slice(tail)?;
    }
    let mut text = Vec::from_slice(alloc, first)?;
    for _ in 0..size {
        if text.len() >= size {
            break;
        }
        text.extend_from_slice(block.as_slice())?;
    }
    text.extend_from_slice(end)?;
    Ok(text)
}
