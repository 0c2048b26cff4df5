//! What is told of numbers of entries, of words that are printed back, and of files and streams that fail.
use cell_command::{Count, Escaped, Resource, read_count, tell_failure};
use std::alloc::Global;
use std::io;
use std::io::ErrorKind;
use std::process::Abort;
use std::test::Fail;

// A word, and the number that it writes. A number beyond is one of 4294967296 or more.
const NUMBERS: [(&str, Option<Count>); 17] = [
    ("0", Some(Count::Number(0))),
    ("20", Some(Count::Number(20))),
    ("03", Some(Count::Number(3))),
    ("+3", Some(Count::Number(3))),
    ("4294967295", Some(Count::Number(4294967295))),
    ("4294967296", Some(Count::Beyond)),
    ("+4294967296", Some(Count::Beyond)),
    (
        "99999999999999999999999999999999999999999999",
        Some(Count::Beyond),
    ),
    ("", None),
    ("+", None),
    ("++3", None),
    ("-3", None),
    ("3 ", None),
    ("three", None),
    ("0x10", None),
    ("99999999999999999999x", None),
    ("٣", None),
];

#[test]
fn reads_numbers_of_entries(rt: HostRuntime) {
    for &(word, due) in &NUMBERS {
        assert!(rt; read_count(word) == due, "{word}");
    }
}

// A text, and how it is printed back.
const PRINTED: [(&str, &str); 6] = [
    ("", ""),
    ("examples/whole.journal", "examples/whole.journal"),
    ("\u{1b}[31mc", "\\u001B[31mc"),
    ("a\nb\tc\u{0}", "a\\u000Ab\\u0009c\\u0000"),
    (
        "\u{7f}\u{80}\u{9b}31m\u{9f}\u{a0}",
        "\\u007F\\u0080\\u009B31m\\u009F\u{a0}",
    ),
    ("Öl ☃ 𝄞", "Öl ☃ 𝄞"),
];

#[test]
fn prints_control_characters_as_escapes(rt: HostRuntime) -> Result<(), Fail> {
    for &(text, due) in &PRINTED {
        let printed = format!(in rt.alloc(); "{}", Escaped(text))?;
        assert!(rt; printed.as_str() == due, "{due}");
    }
    Ok(())
}

// The line that tells of a failure.
fn line(alloc: Global, resource: &Resource<'_>, error: Option<io::Error>) -> io::Result<Vec<u8>> {
    let mut line: Vec<u8> = Vec::new(alloc);
    tell_failure(&mut line, resource, error)?;
    Ok(line)
}

// A failure is told so.
fn check<R: AllocGlobal + Abort>(
    rt: &R,
    resource: &Resource<'_>,
    error: Option<io::Error>,
    due: &str,
) -> io::Result<()> {
    let told = line(rt.alloc(), resource, error)?;
    assert!(rt; told.as_slice() == due.as_bytes(), "{due}");
    Ok(())
}

// An error of Linux's number, of a file that was read, and what is told of it.
const NUMBERED: [(i32, &str); 12] = [
    (2, "cellctl: a: no such file\n"),
    (5, "cellctl: a: the device failed\n"),
    (6, "cellctl: a: no such device\n"),
    (9, "cellctl: a: not open for reading\n"),
    (12, "cellctl: a: no memory for it\n"),
    (13, "cellctl: a: permission denied\n"),
    (20, "cellctl: a: its path goes through a file\n"),
    (21, "cellctl: a: is a folder\n"),
    (24, "cellctl: a: too many files are open\n"),
    (36, "cellctl: a: its name is too long\n"),
    (40, "cellctl: a: its links go in a circle\n"),
    (75, "cellctl: a: can't be read (error 75 of the system)\n"),
];

#[test]
fn tells_errors_of_the_system(rt: HostRuntime) -> Result<(), Fail> {
    for &(number, due) in &NUMBERED {
        check(
            &rt,
            &Resource::File("a"),
            Some(io::Error::from_raw_os_error(number)),
            due,
        )?;
    }
    Ok(())
}

#[test]
fn tells_what_failed(rt: HostRuntime) -> Result<(), Fail> {
    let full = Some(io::Error::from(ErrorKind::StorageFull));
    let named = Resource::File("\u{1b}[31m");
    let cases = [
        (
            Resource::Output,
            full,
            "cellctl: standard output: no space left\n",
        ),
        (
            Resource::Errors,
            full,
            "cellctl: standard error: no space left\n",
        ),
        (
            Resource::Threads,
            None,
            "cellctl: run: no thread could be started\n",
        ),
        (
            Resource::Output,
            None,
            "cellctl: standard output: can't be written\n",
        ),
        (
            Resource::Input,
            None,
            "cellctl: standard input: can't be read\n",
        ),
        (named, full, "cellctl: \\u001B[31m: no space left\n"),
    ];
    for (resource, error, due) in &cases {
        check(&rt, resource, *error, due)?;
    }
    Ok(())
}

#[test]
fn tells_how_a_stream_is_shut(rt: HostRuntime) -> Result<(), Fail> {
    let shut = Some(io::Error::from_raw_os_error(9));
    let other = Some(io::Error::other("of the program's own"));
    let cases = [
        (
            Resource::Output,
            shut,
            "cellctl: standard output: not open for writing\n",
        ),
        (
            Resource::Input,
            shut,
            "cellctl: standard input: not open for reading\n",
        ),
        (
            Resource::Input,
            other,
            "cellctl: standard input: can't be read\n",
        ),
    ];
    for (resource, error, due) in &cases {
        check(&rt, resource, *error, due)?;
    }
    Ok(())
}

#[test]
fn tells_each_kind_in_words(rt: HostRuntime) -> Result<(), Fail> {
    let kinds = [
        (
            ErrorKind::FileTooLarge,
            "cellctl: standard output: too large\n",
        ),
        (
            ErrorKind::QuotaExceeded,
            "cellctl: standard output: no space left in the quota\n",
        ),
        (
            ErrorKind::BrokenPipe,
            "cellctl: standard output: nobody reads it any more\n",
        ),
        (
            ErrorKind::WouldBlock,
            "cellctl: standard output: it would have to be waited for\n",
        ),
        (ErrorKind::TimedOut, "cellctl: standard output: timed out\n"),
        (
            ErrorKind::ResourceBusy,
            "cellctl: standard output: in use\n",
        ),
        (
            ErrorKind::WriteZero,
            "cellctl: standard output: takes no more\n",
        ),
        (
            ErrorKind::Interrupted,
            "cellctl: standard output: interrupted too often\n",
        ),
    ];
    for &(kind, due) in &kinds {
        check(&rt, &Resource::Output, Some(io::Error::from(kind)), due)?;
    }
    Ok(())
}
