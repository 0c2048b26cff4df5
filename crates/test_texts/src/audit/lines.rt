//! What is printed for an audit of texts, and what readers and writers that fail leave of it.
use crate::audit::{Begin, text_begun};
use cell_audit::audit_lines;
use cell_output::WriteFault;
use std::alloc::Global;
use std::io::Read;
use std::process::Abort;
use test_samples::{
    FailingReader, FailingWriter, Interrupted, LAID_BACK, ONE_PLATE, Pieces, Unwilling,
    one_plate_text,
};

// A case: its name, a text, the status, and the lines that are printed.
type Case = (&'static str, &'static [u8], u8, &'static str);

const NO_ENTRIES: &str = "legal 0\nadmitted 0\nforged 0\nquarantined 0\ndelivered 0\n";

const ONE_ENTRY: &str = "legal 1\nadmitted 0\nforged 0\nquarantined 0\ndelivered 0\n";

const TEXTS: [Case; 15] = [
    ("no bytes", b"", 1, "unreadable 0\n"),
    ("no entries", b"profile,1,,\n", 0, NO_ENTRIES),
    (
        "a plate at the end of the feed belt",
        b"profile,1,,\nlamp,feed,green,\nadmitted,1,,\nstarted,feed_belt,to_end,\nconveyed,feed_belt,1,feed_end\n",
        0,
        "legal 4\nadmitted 1\nforged 0\nquarantined 0\ndelivered 0\n",
    ),
    (
        "a plate under a red light",
        b"profile,1,,\nadmitted,1,,\n",
        1,
        "refused 1 LampRed feed\n",
    ),
    (
        "a second plate under a red light",
        b"profile,1,,\nlamp,feed,green,\nadmitted,1,,\nadmitted,2,,\n",
        1,
        "refused 3 LampRed feed\n",
    ),
    (
        "a green light made green",
        b"profile,1,,\nlamp,feed,green,\nlamp,feed,green,\n",
        1,
        "refused 2 LampAlready feed\n",
    ),
    (
        "no plate at the end of the deposit belt",
        b"profile,1,,\nlamp,deposit,green,\n",
        1,
        "refused 1 StationEmpty dep_end\n",
    ),
    (
        "a plate on the feed belt",
        b"profile,1,,\nlamp,feed,green,\nadmitted,1,,\nlamp,feed,green,\n",
        1,
        "refused 3 StationFull feed_in\n",
    ),
    (
        "the second plate first",
        b"profile,1,,\nlamp,feed,green,\nadmitted,2,,\n",
        1,
        "refused 2 WrongPlate\n",
    ),
    (
        "a zone that isn't held",
        b"profile,1,,\nstarted,press_one,top,\n",
        1,
        "refused 1 NotHolder z3\n",
    ),
    (
        "a machine that has failed",
        b"profile,1,,\ndeclared,feed,silent,\nlamp,feed,red,\n",
        1,
        "refused 2 MachineFailed feed\n",
    ),
    ("a cut word", b"profile,1,,\nlamp,fe", 1, "unreadable 1\n"),
    (
        "a byte that isn't UTF-8",
        b"profile,1,,\nlamp,\xff,green,\n",
        1,
        "unreadable 1\n",
    ),
    (
        "a number that begins with 0",
        b"profile,1,,\nadmitted,01,,\n",
        1,
        "unreadable 1\n",
    ),
    (
        "a number above 100,000",
        b"profile,1,,\nadmitted,100001,,\n",
        1,
        "unreadable 1\n",
    ),
];

const OF_OTHER_MAKERS: [Case; 19] = [
    (
        "line ends of Windows",
        b"profile,1,,\r\nlamp,feed,green,\r\n",
        0,
        ONE_ENTRY,
    ),
    (
        "line ends of old Macintoshes",
        b"profile,1,,\rlamp,feed,green,\r",
        0,
        ONE_ENTRY,
    ),
    (
        "a byte order mark",
        b"\xef\xbb\xbfprofile,1,,\nlamp,feed,green,\n",
        0,
        ONE_ENTRY,
    ),
    (
        "two byte order marks",
        b"\xef\xbb\xbf\xef\xbb\xbfprofile,1,,\n",
        1,
        "unreadable 0\n",
    ),
    (
        "a byte order mark further on",
        b"profile,1,,\n\xef\xbb\xbflamp,feed,green,\n",
        1,
        "unreadable 1\n",
    ),
    (
        "text of two bytes a letter",
        b"\xff\xfep\x00r\x00o\x00f\x00i\x00l\x00e\x00",
        1,
        "unreadable 0\n",
    ),
    (
        "all fields quoted",
        b"\"profile\",\"1\",\"\",\"\"\n\"lamp\",\"feed\",\"green\",\"\"\n",
        0,
        ONE_ENTRY,
    ),
    (
        "a quote that isn't closed",
        b"profile,1,,\nlamp,feed,\"green,\nadmitted,1,,\n",
        1,
        "unreadable 1\n",
    ),
    ("a blank line first", b"\nprofile,1,,\n", 0, NO_ENTRIES),
    ("blank lines last", b"profile,1,,\n\n\r\n", 0, NO_ENTRIES),
    ("lines without a record", b"\n\n", 1, "unreadable 0\n"),
    ("a blank first", b" profile,1,,\n", 1, "unreadable 0\n"),
    (
        "a blank last",
        b"profile,1,,\nlamp,feed,green, \n",
        1,
        "unreadable 1\n",
    ),
    (
        "a line of blanks",
        b"profile,1,,\n   \n",
        1,
        "unreadable 1\n",
    ),
    (
        "a zero byte last",
        b"profile,1,,\n\x00",
        1,
        "unreadable 1\n",
    ),
    ("capital letters", b"PROFILE,1,,\n", 1, "unreadable 0\n"),
    ("semicolons", b"profile;1;;\n", 1, "unreadable 0\n"),
    (
        "a row of headings",
        b"kind,a,b,c\nprofile,1,,\n",
        1,
        "unreadable 0\n",
    ),
    ("no profile", b"lamp,feed,green,\n", 1, "unreadable 0\n"),
];

// Texts that begin with the journal of a plate that is laid back. In profile 2 alone there is a sixth line, and in
// profile 1 the record by which the plate is expected can't be read. The refusals that a plate laid back brings are
// told by their names.
const OF_LAID_BACK: [(Begin, u8, &str); 9] = [
    (
        (2, 13, ""),
        0,
        "legal 13\nadmitted 1\nforged 0\nquarantined 1\ndelivered 0\nreinstated 1\n",
    ),
    ((1, 13, ""), 1, "unreadable 11\n"),
    ((3, 13, ""), 1, "unreadable 0\n"),
    (
        (2, 10, ""),
        0,
        "legal 10\nadmitted 1\nforged 0\nquarantined 1\ndelivered 0\nreinstated 0\n",
    ),
    (
        (1, 10, ""),
        0,
        "legal 10\nadmitted 1\nforged 0\nquarantined 1\ndelivered 0\n",
    ),
    (
        (2, 0, ""),
        0,
        "legal 0\nadmitted 0\nforged 0\nquarantined 0\ndelivered 0\nreinstated 0\n",
    ),
    ((2, 11, "expected,1,,\n"), 1, "refused 12 PlateExpected\n"),
    (
        (2, 12, "expected,1,,\n"),
        1,
        "refused 13 LampAlready feed\n",
    ),
    ((2, 0, "expected,1,,\n"), 1, "refused 1 WrongPlate\n"),
];

const OF_ONE_PLATE: [(Begin, u8, &str); 1] = [(
    (1, 62, ""),
    0,
    "legal 62\nadmitted 1\nforged 1\nquarantined 0\ndelivered 1\n",
)];

// These lines are printed for a reader's text, with this status. What is read, and how many bytes of it or how many at
// a time, is told where that is wrong.
fn prints<R: Read + Drop>(
    rt: &impl Abort,
    alloc: Global,
    reader: R,
    (status, lines): (u8, &str),
    (name, bytes): (&str, usize),
) {
    let mut written = Vec::new(alloc);
    let answer = audit_lines(alloc, reader, &mut written);
    assert!(rt;
        answer == Ok(status) && written.as_slice() == lines.as_bytes(),
        "{name}: {bytes} bytes"
    );
}

// The same is printed for a text byte by byte.
fn bytes_are_printed(
    rt: &impl Abort,
    alloc: Global,
    text: &[u8],
    (status, lines): (u8, &str),
    name: &str,
) {
    let mut writer = Pieces::new(Vec::new(alloc), 1);
    let answer = audit_lines(alloc, Pieces::new(text, 1), &mut writer);
    assert!(rt;
        answer == Ok(status) && writer.inner().as_slice() == lines.as_bytes(),
        "{name}, byte by byte"
    );
}

// The same is printed for a text byte by byte, and where reads and writes are interrupted.
fn prints_slowly(
    rt: &impl Abort,
    alloc: Global,
    text: &[u8],
    (status, lines): (u8, &str),
    name: &str,
) {
    bytes_are_printed(rt, alloc, text, (status, lines), name);
    let mut writer = Interrupted::new(Pieces::new(Vec::new(alloc), 1));
    let answer = audit_lines(alloc, Interrupted::new(text), &mut writer);
    assert!(rt;
        answer == Ok(status) && writer.inner().inner().as_slice() == lines.as_bytes(),
        "{name}, interrupted"
    );
}

// These lines are printed for the texts that begin with a list's records.
fn are_printed(rt: &impl Abort, alloc: Global, records: &[&str], cases: &[(Begin, u8, &str)]) {
    for (begin, status, lines) in cases {
        let text = text_begun(rt, alloc, records, *begin);
        let wanted = (*status, *lines);
        prints(rt, alloc, text.as_slice(), wanted, (*lines, text.len()));
        prints_slowly(rt, alloc, text.as_slice(), wanted, lines);
    }
}

// These lines are printed for texts.
fn texts_are_printed(rt: &impl Abort, alloc: Global, cases: &[Case]) {
    for (name, text, status, lines) in cases {
        let wanted = (*status, *lines);
        prints(rt, alloc, *text, wanted, (*name, text.len()));
        prints_slowly(rt, alloc, text, wanted, name);
    }
}

#[test]
fn prints_what_an_audit_finds(rt: HostRuntime) {
    texts_are_printed(&rt, rt.alloc(), &TEXTS);
    texts_are_printed(&rt, rt.alloc(), &OF_OTHER_MAKERS);
    are_printed(&rt, rt.alloc(), &LAID_BACK, &OF_LAID_BACK);
    are_printed(&rt, rt.alloc(), &ONE_PLATE, &OF_ONE_PLATE);
}

// A writer that takes so many bytes gives the status where the lines aren't longer, and else its fault.
fn writer_of(rt: &impl Abort, alloc: Global, text: &[u8], length: usize, left: usize) {
    let mut writer = FailingWriter::new(Vec::new(alloc), left);
    let answer = audit_lines(alloc, text, &mut writer);
    let wanted = if left < length {
        Err(WriteFault)
    } else {
        Ok(0)
    };
    assert!(rt; answer == wanted, "after {left} bytes");
}

// Legal texts without entries, and how long the lines are that are printed for them.
const LENGTHS: [(&[u8], usize); 2] = [(b"profile,1,,\n", 54), (b"profile,2,,\n", 67)];

#[test]
fn prints_nothing_where_the_reader_fails_and_tells_that_the_writer_failed(rt: HostRuntime) {
    let carried = one_plate_text(rt.alloc(), 1).expect(&rt, "memory");
    for left in 0..carried.len() + 1 {
        let reader = FailingReader::new(Pieces::new(carried.as_slice(), 1), left);
        prints(&rt, rt.alloc(), reader, (3, ""), ("a fault", left));
    }
    for &(text, length) in &LENGTHS {
        for left in 0..length + 1 {
            writer_of(&rt, rt.alloc(), text, length, left);
        }
        let answer = audit_lines(rt.alloc(), text, &mut Unwilling);
        assert!(rt; answer == Err(WriteFault), "nothing was taken");
    }
}
