//! What of a journal's file is read.
use cell_audit::AuditError;
use cell_diagnosis::Limits;
use cell_journal_file::{Past, PastError, read_past};
use cell_ports::Plan;
use cell_types::Belt;
use plate_book::Refusal;
use std::io::Read;
use std::process::Abort;
use test_samples::{FailingReader, Interrupted, ONE_PLATE, Pieces, entry_of, text_of};

// What is read: how many bytes the whole lines have, how many entries they spell, and the record of the last; or why
// no run goes on.
type Wanted = Result<(u64, u32, &'static str), PastError>;

// Texts, and what is read of them where the plan's journal may have two entries.
const CASES: [(&str, Wanted); 13] = [
    ("", Ok((0, 0, ""))),
    ("profile,2,,", Ok((0, 0, ""))),
    ("profile,2,,\n", Ok((12, 0, ""))),
    ("profile,2,,\nlamp,feed,gree", Ok((12, 0, ""))),
    (
        "profile,2,,\nlamp,feed,green,\n",
        Ok((29, 1, "lamp,feed,green,")),
    ),
    (
        "profile,2,,\nlamp,feed,green,\nadmitted,1,,",
        Ok((29, 1, "lamp,feed,green,")),
    ),
    (
        "\n\"profile\",2,,\rlamp,feed,green,\r\n\n",
        Ok((34, 1, "lamp,feed,green,")),
    ),
    (
        "profile,1,,\nlamp,feed,green,\n",
        Err(PastError::OtherProfile),
    ),
    (
        "\nprofile",
        Err(PastError::Refused(AuditError::Unreadable(0))),
    ),
    (
        "lamp,feed,green,\n",
        Err(PastError::Refused(AuditError::Unreadable(0))),
    ),
    (
        "profile,2,,\nlamp\n",
        Err(PastError::Refused(AuditError::Unreadable(1))),
    ),
    (
        "profile,2,,\nlamp,feed,green,\nlamp,feed,green,\n",
        Err(PastError::Refused(AuditError::Refused(2, Refusal::LampAlready(Belt::Feed)))),
    ),
    (
        "profile,2,,\nlamp,feed,green,\nlamp,feed,red,\nlamp,feed,green,\n",
        Err(PastError::Refused(AuditError::Refused(3, Refusal::JournalFull))),
    ),
];

// A plan whose journal may have so many entries.
fn plan_of(rt: &impl Abort, journal_limit: u32) -> Plan {
    assert!(rt; 1 <= journal_limit && journal_limit <= 1_000_000);
    let limits = Limits::new(3, 20).expect(rt, "the limits are in range");
    Plan {
        plates: 6,
        journal_limit,
        turns: 1000,
        limits: [limits; 9],
    }
}

// Whether this was read.
fn is_read(past: &Past, length: u64, wanted: (u64, u32, &str)) -> bool {
    let (whole, count, last) = wanted;
    let journal = past.book.journal();
    let has_last = journal.get(count.saturating_sub(1)) == entry_of(last);
    past.whole == whole && past.length == length && journal.len() == count && has_last
}

// Reads a text, at once, byte by byte and interrupted.
fn check<R: Read + Drop, W: AllocGlobal + Abort>(
    rt: &W,
    mut source: R,
    text: &str,
    wanted: Wanted,
) {
    let plan = plan_of(rt, 2);
    let read = read_past(rt.alloc(), &mut source, &plan).expect(rt, "a reader that doesn't fail");
    let holds = match (&read, wanted) {
        (Ok(past), Ok(wanted)) => is_read(past, text.len() as u64, wanted),
        (Err(why), Err(wanted)) => *why == wanted,
        _ => false,
    };
    assert!(rt; holds, "of {text:?}");
}

#[test]
fn whole_lines_are_read(rt: HostRuntime) {
    for &(text, wanted) in &CASES {
        check(&rt, text.as_bytes(), text, wanted);
        let slow = Interrupted::new(Pieces::new(text.as_bytes(), 1));
        check(&rt, slow, text, wanted);
    }
}

#[test]
fn a_text_may_be_cut_anywhere(rt: HostRuntime) {
    let plan = plan_of(&rt, 1000);
    let text = text_of(rt.alloc(), 2, &ONE_PLATE[..7]).expect(&rt, "memory");
    let mut whole = 0;
    let mut lines = 0u32;
    for length in 0..text.len() {
        let mut first = &text[..length];
        let read = read_past(rt.alloc(), &mut first, &plan).expect(&rt, "a text in memory");
        let past = read.expect(&rt, "a first part of a journal's text");
        assert_eq!(rt; (past.whole, past.length), (whole, length as u64));
        assert_eq!(rt;
            past.book.journal().len(),
            lines.saturating_sub(1),
            "at {length}"
        );
        if text[length] == b'\n' {
            whole = length as u64 + 1;
            lines = lines.saturating_add(1);
        }
    }
}

#[test]
fn a_reader_that_fails_is_told(rt: HostRuntime) {
    let plan = plan_of(&rt, 1000);
    let text = b"profile,2,,\nlamp,feed,green,\n".as_slice();
    for count in 0..text.len() {
        let mut reader = FailingReader::new(text, count);
        assert!(rt;
            read_past(rt.alloc(), &mut reader, &plan).is_err(),
            "after {count} bytes"
        );
    }
}
