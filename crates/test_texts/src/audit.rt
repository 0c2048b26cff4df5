//! The audit of texts, whole, cut and from readers that fail, and the writing of journals.
mod endless;
mod lines;
mod migration;
mod readings;

use cell_audit::{AuditError, WriteError, audit, audit_text, write_journal};
use cell_journal::Journal;
use cell_types::{Axis, Belt, Machine, Station, Totals};
use plate_book::{Book, Refusal};
use std::alloc::Global;
use std::io;
use std::io::Read;
use std::process::Abort;
use test_samples::{
    FailingReader, FailingWriter, Interrupted, LAID_BACK, ONE_PLATE, Pieces, Unwilling, begun,
    book_all, one_plate_text, text_of,
};

// What an audit answers: the profile with the totals, or why the text isn't legal.
type Answer = Result<(u8, Totals), AuditError>;

// A text begins with so many records of a list, in a profile, and this follows.
pub(crate) type Begin = (u8, usize, &'static str);

pub(crate) const EMPTY: Totals = Totals {
    entries: 0,
    admitted: 0,
    forged: 0,
    quarantined: 0,
    delivered: 0,
    reinstated: 0,
};

const TWO_ENTRIES: Totals = Totals {
    entries: 2,
    admitted: 1,
    forged: 0,
    quarantined: 0,
    delivered: 0,
    reinstated: 0,
};

pub(crate) const FOUR_ENTRIES: Totals = Totals {
    entries: 4,
    admitted: 1,
    forged: 0,
    quarantined: 0,
    delivered: 0,
    reinstated: 0,
};

// A plate is carried through the cell.
pub(crate) const CARRIED: Totals = Totals {
    entries: 62,
    admitted: 1,
    forged: 1,
    quarantined: 0,
    delivered: 1,
    reinstated: 0,
};

// A plate is cleared from the table.
const CLEARED: Totals = Totals {
    entries: 11,
    admitted: 1,
    forged: 0,
    quarantined: 1,
    delivered: 0,
    reinstated: 0,
};

// The plate is laid back then.
const REINSTATED: Totals = Totals {
    entries: 13,
    admitted: 1,
    forged: 0,
    quarantined: 1,
    delivered: 0,
    reinstated: 1,
};

// Texts that are judged by their first record, and others that are legal.
const FIRST: [(&[u8], Answer); 11] = [
    (b"", Err(AuditError::Unreadable(0))),
    (b"profile,2,,\n", Ok((2, EMPTY))),
    (b"profile,3,,\n", Err(AuditError::Unreadable(0))),
    (b"profile,,,\n", Err(AuditError::Unreadable(0))),
    (b"profile,02,,\n", Err(AuditError::Unreadable(0))),
    (b"profile,12,,\n", Err(AuditError::Unreadable(0))),
    (b"profile,2,1,\n", Err(AuditError::Unreadable(0))),
    (b"profile,1,\n", Err(AuditError::Unreadable(0))),
    (b"profile,1,,", Ok((1, EMPTY))),
    (
        b"profile,1,,\nlamp,feed,green,\nadmitted,1,,\nstarted,feed_belt,to_end,\nconveyed,feed_belt,1,feed_end",
        Ok((1, FOUR_ENTRIES)),
    ),
    (
        b"\n\"profile\",1,\"\",\r\n\n\nlamp,\"feed\",green,\n\"admitted\",\"1\",,\n\n",
        Ok((1, TWO_ENTRIES)),
    ),
];

// Texts with entries that aren't allowed.
const REFUSED: [(&[u8], Answer); 9] = [
    (
        b"profile,1,,\nadmitted,1,,\n",
        Err(AuditError::Refused(1, Refusal::LampRed(Belt::Feed))),
    ),
    (
        b"profile,1,,\nlamp,feed,green,\nadmitted,1,,\nadmitted,2,,\n",
        Err(AuditError::Refused(3, Refusal::LampRed(Belt::Feed))),
    ),
    (
        b"profile,1,,\nlamp,feed,green,\nlamp,feed,green,\n",
        Err(AuditError::Refused(2, Refusal::LampAlready(Belt::Feed))),
    ),
    (
        b"profile,1,,\nlamp,deposit,green,\n",
        Err(AuditError::Refused(1, Refusal::StationEmpty(Station::DepEnd))),
    ),
    (
        b"profile,1,,\nlamp,feed,green,\nadmitted,1,,\nlamp,feed,green,\n",
        Err(AuditError::Refused(3, Refusal::StationFull(Station::FeedIn))),
    ),
    (
        b"profile,1,,\nlamp,feed,green,\ndeclared,feed,silent,\nadmitted,1,,\n",
        Err(AuditError::Refused(3, Refusal::MachineFailed(Machine::Feed))),
    ),
    (
        b"profile,1,,\nstarted,feed_belt,rest,\n",
        Err(AuditError::Refused(1, Refusal::WrongPose(Axis::FeedBelt))),
    ),
    (
        b"profile,2,,\nexpected,1,,\n",
        Err(AuditError::Refused(1, Refusal::WrongPlate)),
    ),
    (
        b"profile,2,,\nreinstated,1,,\n",
        Err(AuditError::Refused(1, Refusal::WrongPlate)),
    ),
];

// Texts with a record that can't be read.
const UNREAD: [(&[u8], Answer); 9] = [
    (b"profile,1,,\nlamp,fe", Err(AuditError::Unreadable(1))),
    (
        b"profile,1,,\nlamp,feed,green\n",
        Err(AuditError::Unreadable(1)),
    ),
    (
        b"profile,1,,\nlamp,feed,green,,\n",
        Err(AuditError::Unreadable(1)),
    ),
    (
        b"profile,1,,\nlamp,\xff,green,\n",
        Err(AuditError::Unreadable(1)),
    ),
    (
        b"profile,1,,\nadmitted,01,,\n",
        Err(AuditError::Unreadable(1)),
    ),
    (
        b"profile,1,,\nadmitted,100001,,\n",
        Err(AuditError::Unreadable(1)),
    ),
    (
        b"profile,1,,\nexpected,1,,\n",
        Err(AuditError::Unreadable(1)),
    ),
    (
        b"profile,1,,\nreinstated,1,,\n",
        Err(AuditError::Unreadable(1)),
    ),
    (
        b"profile,2,,\nexpected,0,,\n",
        Err(AuditError::Unreadable(1)),
    ),
];

// A plate that is carried through the cell; one that was cleared from a press isn't laid back.
const OF_ONE_PLATE: [(Begin, Answer); 5] = [
    ((1, 62, ""), Ok((1, CARRIED))),
    (
        (1, 62, "delivered,1,,\n"),
        Err(AuditError::Refused(63, Refusal::LampRed(Belt::Deposit))),
    ),
    ((2, 62, ""), Ok((2, CARRIED))),
    (
        (2, 62, "delivered,1,,\n"),
        Err(AuditError::Refused(63, Refusal::LampRed(Belt::Deposit))),
    ),
    (
        (
            2,
            34,
            "declared,press1,missing_motion,\nquarantined,1,press1,\nrepaired,press1,,\nexpected,1,,\n",
        ),
        Err(AuditError::Refused(38, Refusal::NotReturnable)),
    ),
];

// A plate that is laid back is one of profile 2 alone: in a text of profile 1 the record by which it is expected can't
// be read. A plate that was cleared from the table may be laid back.
const OF_LAID_BACK: [(Begin, Answer); 4] = [
    ((2, 13, ""), Ok((2, REINSTATED))),
    ((1, 13, ""), Err(AuditError::Unreadable(11))),
    ((3, 13, ""), Err(AuditError::Unreadable(0))),
    ((2, 11, ""), Ok((2, CLEARED))),
];

// The last records after a million entries. A full journal takes faults.
const LAST: [(&[u8], Answer); 3] = [
    (
        b"",
        Ok((
            1,
            Totals {
                entries: 1_000_000,
                admitted: 0,
                forged: 0,
                quarantined: 0,
                delivered: 0,
                reinstated: 0,
            },
        )),
    ),
    (
        b"lamp,feed,green,\n",
        Err(AuditError::Refused(1_000_001, Refusal::JournalFull)),
    ),
    (
        b"declared,feed,silent,\n",
        Ok((
            1,
            Totals {
                entries: 1_000_001,
                admitted: 0,
                forged: 0,
                quarantined: 0,
                delivered: 0,
                reinstated: 0,
            },
        )),
    ),
];

// A reader of a text that turns the feed light green and red in turn, and then ends with a last record.
#[derive(Drop)]
struct Lamps {
    left: u32,
    last: &'static [u8],
    line: &'static [u8],
}

impl Read for Lamps {
    fn read(&mut self, buf: &mut [u8]) -> io::Result<usize> {
        if self.line.is_empty() {
            if self.left == 0 {
                self.line = self.last;
                self.last = b"";
            } else {
                self.left -= 1;
                self.line = if self.left % 2 == 1 {
                    b"lamp,feed,green,\n"
                } else {
                    b"lamp,feed,red,\n"
                };
            }
        }
        let count = self.line.read(buf)?;
        Ok(count)
    }
}

// A reader's text is judged so. What is read, and how many bytes of it or how many at a time, is told where that is
// wrong.
pub(crate) fn judges<R: Read + Drop>(
    rt: &impl Abort,
    alloc: Global,
    reader: R,
    wanted: Answer,
    (shown, bytes): (&str, usize),
) {
    let answer = audit(alloc, reader);
    assert!(rt; answer == wanted, "{shown}: {bytes} bytes");
}

// A text is judged so, in memory, at once and byte by byte, and where each read is interrupted once before.
fn is_judged(rt: &impl Abort, alloc: Global, text: &[u8], wanted: Answer) {
    let lossy = String::from_utf8_lossy(alloc, text).expect(rt, "memory");
    let shown = lossy.as_str();
    let answer = audit_text(alloc, text);
    assert!(rt; answer == wanted, "{shown}: in memory");
    judges(rt, alloc, text, wanted, (shown, text.len()));
    judges(rt, alloc, Pieces::new(text, 1), wanted, (shown, 1));
    let interrupted = Interrupted::new(text);
    judges(rt, alloc, interrupted, wanted, (shown, text.len()));
    let both = Interrupted::new(Pieces::new(text, 1));
    judges(rt, alloc, both, wanted, (shown, 1));
}

// The text that begins so with a list's records.
pub(crate) fn text_begun(
    rt: &impl Abort,
    alloc: Global,
    records: &[&str],
    (profile, count, more): Begin,
) -> Vec<u8> {
    let first = &records[..count.min(records.len())];
    let mut text = text_of(alloc, profile, first).expect(rt, "memory");
    text.extend_from_slice(more.as_bytes()).expect(rt, "memory");
    text
}

// The texts that begin with a list's records are judged so.
fn are_judged(rt: &impl Abort, alloc: Global, records: &[&str], cases: &[(Begin, Answer)]) {
    for (begin, wanted) in cases {
        let text = text_begun(rt, alloc, records, *begin);
        is_judged(rt, alloc, text.as_slice(), *wanted);
    }
}

// Texts are judged so.
fn texts_are_judged(rt: &impl Abort, alloc: Global, cases: &[(&[u8], Answer)]) {
    for (text, wanted) in cases {
        is_judged(rt, alloc, text, *wanted);
    }
}

#[test]
fn judges_texts_and_the_ways_of_plates(rt: HostRuntime) {
    texts_are_judged(&rt, rt.alloc(), &FIRST);
    texts_are_judged(&rt, rt.alloc(), &REFUSED);
    texts_are_judged(&rt, rt.alloc(), &UNREAD);
    are_judged(&rt, rt.alloc(), &ONE_PLATE, &OF_ONE_PLATE);
    are_judged(&rt, rt.alloc(), &LAID_BACK, &OF_LAID_BACK);
}

#[test]
fn takes_a_million_entries_and_a_record_of_a_million_letters(rt: HostRuntime) {
    for &(last, wanted) in &LAST {
        let lamps = Lamps {
            left: 1_000_000,
            last,
            line: b"profile,1,,\n",
        };
        judges(&rt, rt.alloc(), lamps, wanted, ("entries", last.len()));
    }
    let letters = io::repeat(b'a').take(1_000_000);
    let reader = b"profile,1,,\n".as_slice().chain(letters);
    let wanted = Err(AuditError::Unreadable(1));
    judges(&rt, rt.alloc(), reader, wanted, ("letters", 1_000_000));
}

// What is due for the first bytes of the text of one plate's journal, told from where its lines end: `rest` are the
// bytes that are cut off. The plate is admitted by the second entry, forged by the 35th and delivered by the last.
pub(crate) fn due_for_a_cut_text(profile: u8, text: &[u8], rest: &[u8]) -> Answer {
    let mut line_ends = 0u32;
    for byte in text {
        if *byte == b'\n' {
            line_ends = line_ends.saturating_add(1);
        }
    }
    let entries = if text.ends_with(b"\n") {
        line_ends.saturating_sub(1)
    } else if rest.starts_with(b"\n") {
        line_ends
    } else {
        return Err(AuditError::Unreadable(line_ends));
    };
    let totals = Totals {
        entries,
        admitted: u32::from(2 <= entries),
        forged: u32::from(35 <= entries),
        delivered: u32::from(62 <= entries),
        ..EMPTY
    };
    Ok((profile, totals))
}

// A text of one plate's journal is judged as is due where it is cut, and where its reader fails there.
fn is_judged_up_to(rt: &impl Abort, alloc: Global, profile: u8, whole: &[u8], left: usize) {
    let (text, rest) = whole.split_at(left.min(whole.len()));
    let due = due_for_a_cut_text(profile, text, rest);
    judges(rt, alloc, text, due, ("cut", left));
    let fault = Err(AuditError::ReadFault);
    let failing = FailingReader::new(whole, left);
    judges(rt, alloc, failing, fault, ("failing", left));
    let slow = Interrupted::new(Pieces::new(whole, 1));
    let failing = FailingReader::new(slow, left);
    judges(rt, alloc, failing, fault, ("slow and failing", left));
}

#[test]
fn judges_a_text_that_is_cut_or_whose_reader_fails_anywhere(rt: HostRuntime) {
    for &profile in &[1, 2] {
        let text = one_plate_text(rt.alloc(), profile).expect(&rt, "memory");
        for left in 0..text.len() + 1 {
            is_judged_up_to(&rt, rt.alloc(), profile, text.as_slice(), left);
        }
    }
}

// The book of a journal of these records.
fn book_of(rt: &impl Abort, alloc: Global, records: &[&str]) -> Book {
    let mut book = begun(alloc, 100, 10, 0).expect(rt, "a book");
    assert!(rt; book_all(&mut book, records).is_ok());
    book
}

// This text is written of a journal, and is judged so.
fn is_written(rt: &impl Abort, alloc: Global, journal: &Journal, text: &[u8], wanted: Answer) {
    let mut written = Vec::new(alloc);
    assert!(rt; write_journal(alloc, journal, &mut written).is_ok());
    assert!(rt; written.as_slice() == text);
    judges(
        rt,
        alloc,
        written.as_slice(),
        wanted,
        ("written", text.len()),
    );
}

// The text of these records is written of their journal, and is judged so.
fn are_written(rt: &impl Abort, alloc: Global, records: &[&str], wanted: Answer) {
    let book = book_of(rt, alloc, records);
    let text = text_of(alloc, 2, records).expect(rt, "memory");
    is_written(rt, alloc, book.journal(), text.as_slice(), wanted);
}

#[test]
fn writes_the_text_that_is_audited(rt: HostRuntime) {
    let alloc = rt.alloc();
    let empty = Journal::with_limit(alloc, 1).expect(&rt, "a journal");
    is_written(&rt, alloc, &empty, b"profile,2,,\n", Ok((2, EMPTY)));
    are_written(&rt, alloc, &ONE_PLATE, Ok((2, CARRIED)));
    are_written(&rt, alloc, &LAID_BACK, Ok((2, REINSTATED)));
}

// A writer that takes so many bytes at a time and fails after a number of them has taken the first part of the text.
fn part_is_written(
    rt: &impl Abort,
    alloc: Global,
    journal: &Journal,
    text: &[u8],
    (size, left): (usize, usize),
) {
    let mut writer = FailingWriter::new(Pieces::new(Vec::new(alloc), size), left);
    let answer = write_journal(alloc, journal, &mut writer);
    let wanted = if left < text.len() {
        Err(WriteError::WriteFault)
    } else {
        Ok(())
    };
    assert!(rt; answer == wanted, "after {left} bytes");
    let part = &text[..left.min(text.len())];
    assert!(rt;
        writer.inner().inner().as_slice() == part,
        "after {left} bytes"
    );
}

// A writer that is interrupted and takes so many bytes at a time takes the text.
fn is_written_slowly(rt: &impl Abort, alloc: Global, journal: &Journal, text: &[u8], size: usize) {
    let mut writer = Interrupted::new(Pieces::new(Vec::new(alloc), size));
    let answer = write_journal(alloc, journal, &mut writer);
    assert!(rt;
        answer.is_ok() && writer.inner().inner().as_slice() == text,
        "{size} bytes at a time"
    );
}

// A writer that fails after any number of bytes has taken the first part of the text.
fn parts_are_written(rt: &impl Abort, alloc: Global, journal: &Journal, text: &[u8]) {
    for left in 0..text.len() + 1 {
        part_is_written(rt, alloc, journal, text, (usize::MAX, left));
    }
    part_is_written(rt, alloc, journal, text, (1, text.len()));
}

#[test]
fn tells_of_writers_that_fail_after_any_number_of_bytes_are_slow_or_take_nothing(rt: HostRuntime) {
    let alloc = rt.alloc();
    let book = book_of(&rt, alloc, &ONE_PLATE);
    let whole = one_plate_text(alloc, 2).expect(&rt, "memory");
    let (journal, text) = (book.journal(), whole.as_slice());
    parts_are_written(&rt, alloc, journal, text);
    is_written_slowly(&rt, alloc, journal, text, 1);
    is_written_slowly(&rt, alloc, journal, text, usize::MAX);
    let answer = write_journal(alloc, journal, &mut Unwilling);
    assert!(rt; answer == Err(WriteError::WriteFault), "nothing was taken");
}
