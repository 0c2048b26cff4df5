//! The text of settings: as long as it may be, longer, without an end, and from readers that fail.
use crate::orders::texts::text_with;
use cell_orders::settings_text;
use std::io;
use std::io::ErrorKind;
use std::test::Fail;
use test_samples::{FailingReader, Interrupted, Pieces};

const MOST: usize = 1_048_576;

#[test]
fn settings_may_have_so_many_bytes(rt: HostRuntime) -> Result<(), Fail> {
    let alloc = rt.alloc();
    let text = text_with(alloc, b"", b"#", MOST + 1, b"")?;
    for &size in &[0, 1, 65_536, MOST - 1, MOST] {
        let part = text.as_slice().get(..size).ok_or("short")?;
        let read = settings_text(alloc, part)?.ok_or("too long")?;
        assert!(rt; read.as_slice() == part, "of {size} bytes");
    }
    let long = text.as_slice().get(..MOST + 1).ok_or("short")?;
    assert!(rt; settings_text(alloc, long)?.is_none());
    assert!(rt; settings_text(alloc, io::repeat(0))?.is_none());
    Ok(())
}

#[test]
fn settings_come_from_any_reader(rt: HostRuntime) -> Result<(), Fail> {
    let alloc = rt.alloc();
    let text = b"plates = 1\n".as_slice();
    for &size in &[1, 3, 100] {
        let slow = Interrupted::new(Pieces::new(text, size));
        let read = settings_text(alloc, slow)?.ok_or("too long")?;
        assert!(rt; read.as_slice() == text, "in pieces of {size}");
    }
    for left in 0..text.len() {
        let failing = FailingReader::new(text, left);
        let kind = settings_text(alloc, failing).err().map(|e| e.kind());
        assert!(rt; kind == Some(ErrorKind::Other), "after {left} bytes");
    }
    Ok(())
}
