//! Methods that don't keep to the protocol, and devices that fail.
use crate::drive::sample::{COMMANDS, ENTRIES, driven, has_line};
use cell_drive::{DriveOptions, drive_texts};
use cell_output::{WatchedWriter, WriteFault};
use cell_rows::Watched;
use cell_runs::Texts;
use std::process::Abort;
use std::sync::Wait;
use std::test::Fail;
use test_samples::{FailingReader, Unwilling};

const ONE_PLATE: [&str; 3] = ["plates = 1\n", "", ""];

#[test]
fn a_method_that_ends_quits(rt: HostRuntime) -> Result<(), Fail> {
    for &driving in &[ENTRIES, COMMANDS] {
        let written = driven(&rt, ONE_PLATE, driving, b"".as_slice(), 1);
        assert!(rt; has_line(written.output.as_slice(), "end,quit,,"));
    }
    Ok(())
}

// So many lines feeds' worth of a text.
fn repeated<R: AllocGlobal>(rt: &R, text: &[u8], times: u32) -> Result<Vec<u8>, Fail> {
    let mut whole = Vec::new(rt.alloc());
    for _ in 0..times {
        whole.extend_from_slice(text)?;
    }
    Ok(whole)
}

#[test]
fn a_line_without_end_is_answered_once(rt: HostRuntime) -> Result<(), Fail> {
    let mut lines = repeated(&rt, b"0123456789,".as_slice(), 20_000)?;
    lines.extend_from_slice(b"\ndone,,,\n")?;
    let written = driven(&rt, ONE_PLATE, ENTRIES, lines.as_slice(), 1);
    let text = written.output.as_slice();
    assert!(rt; has_line(text, "unreadable,,,") && has_line(text, "round,2,,"));
    Ok(())
}

#[test]
fn bytes_that_are_no_text_are_answered(rt: HostRuntime) -> Result<(), Fail> {
    let lines = [
        0xFF, 0x00, b',', 0xC3, b',', b',', b'\n', 0xEF, 0xBB, 0xBF, b'\n',
    ];
    for &driving in &[ENTRIES, COMMANDS] {
        let written = driven(&rt, ONE_PLATE, driving, lines.as_slice(), 1);
        assert!(rt; has_line(written.output.as_slice(), "unreadable,,,"));
    }
    Ok(())
}

#[test]
fn a_round_has_ten_thousand_lines_at_most(rt: HostRuntime) -> Result<(), Fail> {
    let lines = repeated(&rt, b"x\n".as_slice(), 10_001)?;
    for &driving in &[ENTRIES, COMMANDS] {
        let written = driven(&rt, ONE_PLATE, driving, lines.as_slice(), 1);
        assert!(rt; has_line(written.output.as_slice(), "end,too many lines,,"));
    }
    Ok(())
}

// The texts of a run with one plate.
fn one_plate() -> Texts<'static> {
    Texts::new(b"plates = 1\n", b"", b"")
}

// The answer where the reader gives this many bytes of `lamp,feed,green,` and then fails.
fn over_failing_reader<R: AllocGlobal + Abort + Wait>(rt: &R, driving: DriveOptions<'_>) {
    let mut output = Vec::new(rt.alloc());
    let mut errors = Vec::new(rt.alloc());
    let lines = FailingReader::new(b"lamp,feed,green,\nlamp".as_slice(), 19);
    let answer = drive_texts(
        rt,
        one_plate(),
        driving,
        Watched::new(lines),
        &mut WatchedWriter::new(&mut output),
        &mut WatchedWriter::new(&mut errors),
    );
    assert!(rt; answer == Ok(3));
}

#[test]
fn a_reader_that_fails_ends_the_run(rt: HostRuntime) {
    over_failing_reader(&rt, ENTRIES);
    over_failing_reader(&rt, COMMANDS);
}

#[test]
fn a_closed_output_ends_the_run(rt: HostRuntime) {
    let mut errors = Vec::new(rt.alloc());
    for &driving in &[ENTRIES, COMMANDS] {
        let lines = b"done,,,\n".as_slice();
        let answer = drive_texts(
            &rt,
            one_plate(),
            driving,
            lines,
            &mut WatchedWriter::new(&mut Unwilling),
            &mut WatchedWriter::new(&mut errors),
        );
        assert!(rt; answer == Err(WriteFault));
    }
}
