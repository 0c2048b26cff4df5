//! The texts of journals: what is read of each is judged and explained as the whole is.
use crate::orders::texts::{ENDS, TAILS, text_with};
use cell_audit::{AuditError, audit_text};
use cell_explain::explain_journal;
use cell_orders::journal_text;
use cell_output::WatchedWriter;
use plate_book::Refusal;
use std::alloc::Global;
use std::io;
use std::io::{ErrorKind, Read};
use std::process::Abort;
use std::test::Fail;
use test_samples::{FailingReader, Interrupted, Pieces, one_plate_text};

// A byte order mark, a line end of two bytes, a blank line, a quoted field, and an entry that is refused.
const QUOTED: &[u8] = b"\xEF\xBB\xBFprofile,1,,\r\n\n\"repaired\",feed,,\n";

const PLAIN: &[u8] = b"\nprofile,2,,\nlamp,feed,green,\nrepaired,feed,,\n";

// What is said of a journal's text, and the status.
fn said_of(alloc: Global, text: &[u8]) -> (Vec<u8>, Option<u8>) {
    let mut said = Vec::new(alloc);
    let status = explain_journal(alloc, text, &mut WatchedWriter::new(&mut said)).ok();
    (said, status)
}

// Checks that what is read of a text is judged and explained as the whole is, and says whether it is cut within the
// record that is refused.
fn check<W: AllocGlobal + Abort>(rt: &W, text: &[u8], what: (&str, usize)) -> bool {
    let alloc = rt.alloc();
    let read = journal_text(alloc, text).expect(rt, "memory");
    let bytes = read.bytes.as_slice();
    assert!(rt; text.starts_with(bytes), "a first part, {what:?}");
    assert!(rt;
        !read.is_whole || bytes.len() == text.len(),
        "whole, {what:?}"
    );
    assert!(rt;
        read.answer == audit_text(alloc, text),
        "the answer, {what:?}"
    );
    let cuts = read.cuts_record(alloc).expect(rt, "memory");
    let (said, status) = said_of(alloc, bytes);
    let (due, wanted) = said_of(alloc, text);
    assert!(rt; status == wanted, "the status, {what:?}");
    assert!(rt;
        cuts || said.as_slice() == due.as_slice(),
        "what is said, {what:?}"
    );
    cuts
}

// Checks a first part of a text with a tail and an end behind it, and says whether it is cut within a record.
fn is_cut<W: AllocGlobal + Abort>(
    rt: &W,
    part: &[u8],
    (name, tail): (&str, &[u8]),
    end: &[u8],
) -> bool {
    let text = text_with(rt.alloc(), part, tail, 90_000, end).expect(rt, "memory");
    check(rt, text.as_slice(), (name, part.len()))
}

// Checks a first part of a text with each tail, and gives how many are cut within a record.
fn cuts_of<W: AllocGlobal + Abort>(rt: &W, part: &[u8], end: &[u8]) -> usize {
    let mut cuts = 0usize;
    for &tail in &TAILS {
        if is_cut(rt, part, tail, end) {
            cuts = cuts.saturating_add(1);
        }
    }
    cuts
}

// Checks each first part of a text with each tail, and an end by turns, behind it, and gives how many are cut within a
// record.
fn check_all<W: AllocGlobal + Abort>(rt: &W, journal: &[u8]) -> usize {
    let mut cuts = 0usize;
    for len in 0..journal.len() + 1 {
        let more = cuts_of(rt, &journal[..len], ENDS[len % ENDS.len()]);
        cuts = cuts.saturating_add(more);
    }
    cuts
}

#[test]
fn a_part_of_a_quoted_journal_decides(rt: HostRuntime) {
    check_all(&rt, QUOTED);
}

#[test]
fn a_part_of_a_plain_journal_decides(rt: HostRuntime) {
    let cuts = check_all(&rt, PLAIN);
    assert!(rt; 0 < cuts, "none is cut within a record");
}

#[test]
fn a_legal_journal_is_read_whole(rt: HostRuntime) -> Result<(), Fail> {
    let alloc = rt.alloc();
    let text = one_plate_text(alloc, 2)?;
    let pair = b"claimed,robot,z3,\nyielded,robot,z3,\n";
    let long = text_with(alloc, text.as_slice(), pair, 200_000, b"")?;
    for &whole in &[text.as_slice(), long.as_slice(), b"".as_slice()] {
        let read = journal_text(alloc, whole)?;
        assert!(rt; read.is_whole && read.bytes.as_slice() == whole);
        check(&rt, whole, ("whole", whole.len()));
    }
    let refused = text_with(
        alloc,
        b"profile,1,,\n",
        pair,
        500_000,
        b"claimed,robot,z1,\n",
    )?;
    check(&rt, refused.as_slice(), ("refused at the end", 0));
    Ok(())
}

#[test]
fn a_journal_without_an_end_is_read_until_it_is_refused(rt: HostRuntime) -> Result<(), Fail> {
    let alloc = rt.alloc();
    let refused = b"profile,1,,\nadmitted,1,,\n".as_slice();
    let read = journal_text(alloc, refused.chain(io::repeat(b'\n')))?;
    assert!(rt; read.bytes.len() < 100_000 && !read.is_whole);
    assert!(rt;
        read.answer == Err(AuditError::Refused(1, Refusal::LampRed(cell_types::Belt::Feed)))
    );
    assert!(rt; !read.cuts_record(alloc)?);
    let cut = journal_text(alloc, b"profile,1,,\n".as_slice().chain(io::repeat(b'a')))?;
    assert!(rt; cut.bytes.len() < 100_000 && cut.cuts_record(alloc)?);
    Ok(())
}

#[test]
fn blank_lines_of_a_journal_without_an_end_are_too_large(rt: HostRuntime) {
    let kind = journal_text(rt.alloc(), io::repeat(b'\n'))
        .err()
        .map(|e| e.kind());
    assert!(rt; kind == Some(ErrorKind::FileTooLarge));
}

#[test]
fn a_journal_comes_from_any_reader(rt: HostRuntime) -> Result<(), Fail> {
    let alloc = rt.alloc();
    for &size in &[1, 7, 1000] {
        let read = journal_text(alloc, Interrupted::new(Pieces::new(QUOTED, size)))?;
        assert!(rt; read.bytes.as_slice() == QUOTED, "in pieces of {size}");
    }
    for left in 0..QUOTED.len() {
        let read = journal_text(alloc, FailingReader::new(QUOTED, left))?;
        assert!(rt;
            read.answer == Err(AuditError::ReadFault),
            "after {left} bytes"
        );
    }
    Ok(())
}
