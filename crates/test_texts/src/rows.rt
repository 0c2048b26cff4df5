//! The records of texts, read at once, byte by byte and in pieces, and readers that fail.
use cell_rows::{Four, RowError, RowReader, Watched};
use std::alloc::{AllocError, Global};
use std::io::Read;
use std::process::Abort;
use test_samples::{FailingReader, Interrupted, Pieces};

// A case: its name, a text, and the records of that. Each field has a bar after it, and each record a semicolon; a
// question mark stands for a record that hasn't four fields, and a word at the end for an error.
type Case = (&'static str, &'static [u8], &'static [u8]);

const RECORDS: [Case; 13] = [
    ("no bytes", b"", b""),
    ("blank fields", b",,,\n", b"||||;"),
    (
        "quoted fields",
        b"\"a\",\"b,\"\"c\",\"d\ne\",f\n",
        b"a|b,\"c|d\ne|f|;",
    ),
    (
        "blank lines",
        b"\n\r\na,b,c,d\n\n\ne,f,g,h\n\n",
        b"a|b|c|d|;e|f|g|h|;",
    ),
    (
        "records of any length",
        b"a\na,b,c\na,b,c,d\na,b,c,d,e\n",
        b"?;?;a|b|c|d|;?;",
    ),
    (
        "a last line without an end",
        b"a,b,c,d\ne,f,g,h",
        b"a|b|c|d|;e|f|g|h|;",
    ),
    (
        "a last line cut after a field",
        b"a,b,c,d\ne,f,",
        b"a|b|c|d|;?;",
    ),
    (
        "line ends of two bytes",
        b"a,b,c,d\r\ne,f,g,h\r\n",
        b"a|b|c|d|;e|f|g|h|;",
    ),
    ("no trimming", b" a,b ,\tc,d\n", b" a|b |\tc|d|;"),
    (
        "bytes that aren't UTF-8",
        b"\xff,\x80b,c,d\n",
        b"\xff|\x80b|c|d|;",
    ),
    ("a byte order mark", b"\xef\xbb\xbfa,b,c,d\n", b"a|b|c|d|;"),
    (
        "a byte order mark in mid-text",
        b"a,b,c,d\n\xef\xbb\xbfe,f,g,h\n",
        b"a|b|c|d|;\xef\xbb\xbfe|f|g|h|;",
    ),
    (
        "quoted fields between plain lines",
        b"a,b,c,d\n\"e\",f,g,h\ni,j,k,l\n",
        b"a|b|c|d|;e|f|g|h|;i|j|k|l|;",
    ),
];

// Plain lines that are no record of four short fields, and others beside them.
const UNFIT: [Case; 10] = [
    ("a fifth field", b"a,b,c,d\ne,f,g,h,i\nj", b"a|b|c|d|;unfit"),
    (
        "a fourth comma at the end",
        b"a,b,c,d\ne,f,g,h,",
        b"a|b|c|d|;unfit",
    ),
    (
        "after blank lines",
        b"\n\n\na,b,c,d\n\n\ne,f,g,h,i",
        b"a|b|c|d|;unfit",
    ),
    (
        "a field of 20 bytes",
        b"a,b,c,12345678901234567890\n12345678901234567890,,,\n",
        b"a|b|c|12345678901234567890|;12345678901234567890||||;",
    ),
    (
        "a first field of 21 bytes",
        b"123456789012345678901",
        b"unfit",
    ),
    (
        "a second field of 21 bytes",
        b"a,123456789012345678901\n",
        b"unfit",
    ),
    (
        "a third field of 21 bytes",
        b"a,b,123456789012345678901,",
        b"unfit",
    ),
    (
        "a fourth field of 21 bytes",
        b"a,b,c,123456789012345678901\n",
        b"unfit",
    ),
    (
        "a quote before the fifth field",
        b"\"a\",b,c,d\ne,f,g,h,i\n",
        b"a|b|c|d|;?;",
    ),
    (
        "a quote in mid-line",
        b"a,b\"c,d,e\nf,g,h,i,j\n",
        b"a|b\"c|d|e|;?;",
    ),
];

const TWO_LINES: &[u8] = b"a,b,c,d\ne,f,g,h\n";

// The records that come of these lines before the reader fails, after so many bytes.
const FAILING: [(usize, &[u8]); 5] = [
    (0, b"fault"),
    (7, b"fault"),
    (8, b"a|b|c|d|;fault"),
    (15, b"a|b|c|d|;fault"),
    (16, b"a|b|c|d|;e|f|g|h|;fault"),
];

const SIZES: [usize; 9] = [1, 2, 17, 18, 1000, 16_383, 16_384, 16_385, 100_000];

// Writes each field of a record with a bar after it, or a question mark where there aren't four.
fn write_row(list: &mut Vec<u8>, row: Option<Four<'_>>) -> Result<(), AllocError> {
    match row {
        Some(four) => {
            for &field in &[four.first, four.second, four.third, four.fourth] {
                list.extend_from_slice(field)?;
                list.push(b'|')?;
            }
        }
        None => list.push(b'?')?,
    }
    list.push(b';')?;
    Ok(())
}

// The records of a reader are these.
fn lists<R: Read + Drop>(
    rt: &impl Abort,
    alloc: Global,
    reader: R,
    wanted: &[u8],
    (name, bytes): (&str, usize),
) {
    let mut rows = RowReader::new(alloc, Watched::new(reader));
    let mut list = Vec::new(alloc);
    for _ in 0..4000 {
        match rows.advance() {
            Ok(true) => write_row(&mut list, rows.four()).expect(rt, "memory"),
            Ok(false) => break,
            Err(error) => {
                let word = match error {
                    RowError::ReadFault => b"fault".as_slice(),
                    RowError::OutOfMemory => b"memory",
                    RowError::Unfit => b"unfit",
                };
                list.extend_from_slice(word).expect(rt, "memory");
                break;
            }
        }
    }
    assert!(rt; list.as_slice() == wanted, "{name}, {bytes} bytes");
}

// A reader of a text that hands out one byte at a time, is interrupted before each, and fails after a number of bytes.
fn slow(text: &[u8], fails_at: usize) -> FailingReader<Interrupted<Pieces<&[u8]>>> {
    FailingReader::new(Interrupted::new(Pieces::new(text, 1)), fails_at)
}

#[test]
fn reads_the_records_of_texts_and_tells_that_the_reader_failed(rt: HostRuntime) {
    for &cases in &[RECORDS.as_slice(), UNFIT.as_slice()] {
        for (name, text, wanted) in cases {
            lists(&rt, rt.alloc(), *text, wanted, (*name, text.len()));
            lists(&rt, rt.alloc(), slow(text, usize::MAX), wanted, (*name, 1));
        }
    }
    for &(fails_at, wanted) in &FAILING {
        let reader = slow(TWO_LINES, fails_at);
        lists(&rt, rt.alloc(), reader, wanted, ("a fault", fails_at));
    }
}

// A text of 3,000 parts: one is the second of these, one the third, and all others the first.
fn long_text(rt: &impl Abort, alloc: Global, [most, second, third]: [&[u8]; 3]) -> Vec<u8> {
    let mut text = Vec::new(alloc);
    for place in 0..3000 {
        let part = match place {
            1500 => second,
            2500 => third,
            _ => most,
        };
        text.extend_from_slice(part).expect(rt, "memory");
    }
    text
}

// One line has a quoted field, and one ends in two bytes.
#[test]
fn pieces_of_any_size_give_the_same_records(rt: HostRuntime) {
    let lines = [
        b"claimed,table,z1,\n".as_slice(),
        b"\"a,b\",c,d,e\n",
        b"f,g,h,i\r\n",
    ];
    let rows = [
        b"claimed|table|z1||;".as_slice(),
        b"a,b|c|d|e|;",
        b"f|g|h|i|;",
    ];
    let text = long_text(&rt, rt.alloc(), lines);
    let wanted = long_text(&rt, rt.alloc(), rows);
    for &size in &SIZES {
        let reader = Pieces::new(text.as_slice(), size);
        lists(&rt, rt.alloc(), reader, wanted.as_slice(), ("pieces", size));
    }
}
