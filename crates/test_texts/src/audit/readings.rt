//! What is read of journals' texts: the answer, and the entries before the place that it names.
use cell_audit::{AuditError, read_rows};
use cell_rows::{RowReader, TellsFault, Watched};
use cell_types::{Belt, Totals};
use plate_book::Refusal;
use std::process::Abort;
use test_samples::{FailingReader, entry_of};

// A reading: its answer, how many entries its book has, and the record of the last.
type Wanted = (Result<(u8, Totals), AuditError>, u32, &'static str);

const NONE: Totals = Totals {
    entries: 0,
    admitted: 0,
    forged: 0,
    quarantined: 0,
    delivered: 0,
    reinstated: 0,
};

const ONE_ADMITTED: Totals = Totals {
    entries: 2,
    admitted: 1,
    forged: 0,
    quarantined: 0,
    delivered: 0,
    reinstated: 0,
};

// Legal journals, which are read whole, and others, which are read up to their last good entry.
const CASES: [(&str, Wanted); 5] = [
    (
        "profile,1,,\nlamp,feed,green,\nadmitted,1,,\n",
        (Ok((1, ONE_ADMITTED)), 2, "admitted,1,,"),
    ),
    ("profile,2,,\n", (Ok((2, NONE)), 0, "")),
    (
        "profile,1,,\nlamp,feed,green,\nlamp,feed,green,\nadmitted,1,,\n",
        (
            Err(AuditError::Refused(2, Refusal::LampAlready(Belt::Feed))),
            1,
            "lamp,feed,green,",
        ),
    ),
    (
        "profile,1,,\nlamp,feed,green,\nadmitted,1,,\nlamp,fe",
        (Err(AuditError::Unreadable(3)), 2, "admitted,1,,"),
    ),
    ("", (Err(AuditError::Unreadable(0)), 0, "")),
];

fn is_read<R: TellsFault + Drop, W: AllocGlobal + Abort>(
    rt: &W,
    text: R,
    what: &str,
    wanted: Wanted,
) {
    let (answer, count, last) = wanted;
    let mut rows = RowReader::new(rt.alloc(), text);
    let read = read_rows(rt.alloc(), &mut rows).expect(rt, "memory");
    let journal = read.book.journal();
    let is_last = journal.get(count.saturating_sub(1)) == entry_of(last);
    let holds = read.answer == answer && journal.len() == count && is_last;
    assert!(rt; holds, "of {what}: {:?}", read.answer);
}

#[test]
fn a_journal_is_read_up_to_its_last_good_entry(rt: HostRuntime) {
    for &(text, wanted) in &CASES {
        is_read(&rt, text.as_bytes(), text, wanted);
    }
    let text = b"profile,1,,\nlamp,feed,green,\n".as_slice();
    let reader = FailingReader::new(text, text.len());
    let wanted = (Err(AuditError::ReadFault), 1, "lamp,feed,green,");
    is_read(&rt, Watched::new(reader), "a reader that fails", wanted);
}
