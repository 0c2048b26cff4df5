//! The texts of scripts: what is read of each decides as the whole does.
use crate::orders::texts::{ENDS, TAILS, text_with};
use cell_explain::{explain_faults, explain_operator};
use cell_orders::script_text;
use cell_output::WatchedWriter;
use cell_rows::{LineError, ScriptLine, read_script};
use cell_sim::PlannedFault;
use operator_desk::Line;
use std::alloc::Global;
use std::io;
use std::io::{ErrorKind, Read};
use std::process::Abort;
use std::test::Fail;
use test_samples::{FailingReader, Interrupted, Pieces};

// A byte order mark, quoted fields, a line end of two bytes, a blank line, and a line that can't be read.
const FAULTS: &[u8] = b"\xEF\xBB\xBF\"press_two\",1,\"slow\",3\r\n\nx,1";

const OPERATOR: &[u8] = b"\n\"always\",,stop,\"press1\"\r\n,";

// Which script a text is.
#[derive(Clone, Copy, Debug)]
enum Kind {
    Faults,
    Operator,
}

// Why a script isn't good, if it isn't.
fn error_of<L: ScriptLine + Drop>(alloc: Global, text: &[u8]) -> Option<LineError> {
    read_script::<L>(alloc, text).err()
}

// What is said of a script, and the status.
fn said_of(alloc: Global, kind: Kind, text: &[u8]) -> (Vec<u8>, Option<u8>) {
    let mut said = Vec::new(alloc);
    let mut writer = WatchedWriter::new(&mut said);
    let status = match kind {
        Kind::Faults => explain_faults(alloc, text, &mut writer).ok(),
        Kind::Operator => explain_operator(alloc, text, &mut writer).ok(),
    };
    (said, status)
}

// Checks that what is read of a text decides as the whole does, and says whether it is all, and whether it is cut
// within the record that is refused.
fn check<L: ScriptLine + Drop, W: AllocGlobal + Abort>(
    rt: &W,
    kind: Kind,
    text: &[u8],
    what: (&str, usize),
) -> (bool, bool) {
    let alloc = rt.alloc();
    let read = script_text(alloc, text).expect(rt, "memory");
    let bytes = read.bytes.as_slice();
    assert!(rt; text.starts_with(bytes), "a first part, {kind:?} {what:?}");
    assert!(rt;
        read.is_whole == (bytes.len() == text.len()),
        "whole, {kind:?} {what:?}"
    );
    assert!(rt;
        error_of::<L>(alloc, bytes) == error_of::<L>(alloc, text),
        "{kind:?} {what:?}"
    );
    let cuts = read.cuts_record::<L>(alloc).expect(rt, "memory");
    let (said, status) = said_of(alloc, kind, bytes);
    let (due, wanted) = said_of(alloc, kind, text);
    assert!(rt; status == wanted, "the status, {kind:?} {what:?}");
    assert!(rt;
        cuts || said.as_slice() == due.as_slice(),
        "what is said, {kind:?} {what:?}"
    );
    (read.is_whole, cuts)
}

// So many bytes of a tail are more than are read of a script.
fn size_of(tail: &[u8]) -> usize {
    if tail.contains(&b'\n') || tail.contains(&b'\r') {
        600_000
    } else {
        340_000
    }
}

// Checks a first part of a script with a tail and an end behind it, and says whether it is cut within a record. Not all
// is read of it.
fn is_cut<L: ScriptLine + Drop, W: AllocGlobal + Abort>(
    rt: &W,
    kind: Kind,
    part: &[u8],
    (name, tail): (&str, &[u8]),
    end: &[u8],
) -> bool {
    let text = text_with(rt.alloc(), part, tail, size_of(tail), end).expect(rt, "memory");
    let (is_whole, cuts) = check::<L, W>(rt, kind, text.as_slice(), (name, part.len()));
    assert!(rt; !is_whole, "read to its end, {kind:?} {name}");
    cuts
}

// Checks a first part of a script with each tail, and gives how many are cut within a record.
fn cuts_of<L: ScriptLine + Drop, W: AllocGlobal + Abort>(
    rt: &W,
    kind: Kind,
    part: &[u8],
    end: &[u8],
) -> usize {
    let mut cuts = 0usize;
    for &tail in &TAILS {
        if is_cut::<L, W>(rt, kind, part, tail, end) {
            cuts = cuts.saturating_add(1);
        }
    }
    cuts
}

// Checks each first part of a script with each tail, and an end by turns, behind it, and gives how many are cut within
// a record.
fn check_all<L: ScriptLine + Drop, W: AllocGlobal + Abort>(
    rt: &W,
    kind: Kind,
    script: &[u8],
) -> usize {
    let mut cuts = 0usize;
    for len in 0..script.len() + 1 {
        let more = cuts_of::<L, W>(rt, kind, &script[..len], ENDS[len % ENDS.len()]);
        cuts = cuts.saturating_add(more);
    }
    cuts
}

#[test]
fn a_part_of_a_script_of_faults_decides(rt: HostRuntime) {
    let cuts = check_all::<PlannedFault, HostRuntime>(&rt, Kind::Faults, FAULTS);
    assert!(rt; 0 < cuts, "none is cut within a record");
}

#[test]
fn a_part_of_an_operators_script_decides(rt: HostRuntime) {
    let cuts = check_all::<Line, HostRuntime>(&rt, Kind::Operator, OPERATOR);
    assert!(rt; 0 < cuts, "none is cut within a record");
}

#[test]
fn a_good_script_is_read_whole(rt: HostRuntime) -> Result<(), Fail> {
    let alloc = rt.alloc();
    let mut text = Vec::new(alloc);
    for _ in 0..1000 {
        text.extend_from_slice(b"\r\n\n\n\"always\",\"\",\"expect\",\"100000\"\n")?;
    }
    check::<Line, HostRuntime>(&rt, Kind::Operator, text.as_slice(), ("1,000 lines", 0));
    text.extend_from_slice(b"\nalways,,expect,1\n")?;
    check::<Line, HostRuntime>(&rt, Kind::Operator, text.as_slice(), ("1,001 lines", 0));
    let blank = text_with(alloc, b"", b"\n\r\n", 1_000_000, b"always,,expect,1")?;
    check::<Line, HostRuntime>(&rt, Kind::Operator, blank.as_slice(), ("blank lines", 0));
    Ok(())
}

#[test]
fn blank_lines_of_a_script_without_an_end_are_too_large(rt: HostRuntime) {
    let kind = script_text(rt.alloc(), io::repeat(b'\n'))
        .err()
        .map(|e| e.kind());
    assert!(rt; kind == Some(ErrorKind::FileTooLarge));
}

#[test]
fn a_script_comes_from_any_reader(rt: HostRuntime) -> Result<(), Fail> {
    let alloc = rt.alloc();
    for &size in &[1, 7, 1000] {
        let read = script_text(alloc, Interrupted::new(Pieces::new(OPERATOR, size)))?;
        assert!(rt;
            read.is_whole && read.bytes.as_slice() == OPERATOR,
            "in pieces of {size}"
        );
    }
    for left in 0..OPERATOR.len() {
        let kind = script_text(alloc, FailingReader::new(OPERATOR, left))
            .err()
            .map(|e| e.kind());
        assert!(rt; kind == Some(ErrorKind::Other), "after {left} bytes");
    }
    let endless = script_text(alloc, OPERATOR.chain(io::repeat(b'a')))?;
    assert!(rt; !endless.is_whole && endless.cuts_record::<Line>(alloc)?);
    Ok(())
}
