//! What a method has written.
use cell_drive::{DriveOptions, drive_texts};
use cell_output::WatchedWriter;
use cell_runs::Texts;
use std::process::Abort;
use std::sync::Wait;
use std::test::Fail;

/// By entries, and nothing told besides.
pub(crate) const ENTRIES: DriveOptions<'static> = DriveOptions {
    raw: false,
    journal: false,
    explain: false,
    from: None,
};

/// By commands, and nothing told besides.
pub(crate) const COMMANDS: DriveOptions<'static> = DriveOptions {
    raw: true,
    journal: false,
    explain: false,
    from: None,
};

/// What the machines show at the opening, and that the first round is open.
pub(crate) const OPENING: &str = "\
drive,1,1,
reading,feed,,
reading,table,low/belt,
reading,robot,table1/in/in,
reading,press1,middle,
reading,press2,middle,
reading,deposit,,
round,1,,
";

/// What is written, and what is told to the errors.
#[derive(Drop)]
pub(crate) struct Written {
    pub(crate) output: Vec<u8>,
    pub(crate) errors: Vec<u8>,
}

/// What is written where a method writes these lines, by the settings, the faults and the operator's script. The run
/// has to end with this status.
pub(crate) fn driven<R: AllocGlobal + Abort + Wait>(
    rt: &R,
    [settings, faults, operator]: [&str; 3],
    driving: DriveOptions<'_>,
    lines: &[u8],
    status: u8,
) -> Written {
    let mut output = Vec::new(rt.alloc());
    let mut errors = Vec::new(rt.alloc());
    let texts = Texts::new(settings.as_bytes(), faults.as_bytes(), operator.as_bytes());
    let answer = drive_texts(
        rt,
        texts,
        driving,
        lines,
        &mut WatchedWriter::new(&mut output),
        &mut WatchedWriter::new(&mut errors),
    );
    assert!(rt; answer == Ok(status));
    Written { output, errors }
}

/// What is written has to begin so.
pub(crate) fn begins<R: AllocGlobal + Abort>(
    rt: &R,
    written: &Written,
    parts: &[&str],
) -> Result<(), Fail> {
    let due = joined(rt, parts)?;
    assert!(rt; written.output.as_slice().starts_with(due.as_slice()));
    Ok(())
}

/// Whether a text has a line.
pub(crate) fn has_line(text: &[u8], line: &str) -> bool {
    for found in text.split(|byte| *byte == b'\n') {
        if found == line.as_bytes() {
            return true;
        }
    }
    false
}

/// Parts of a text, one after the other.
pub(crate) fn joined<R: AllocGlobal>(rt: &R, parts: &[&str]) -> Result<Vec<u8>, Fail> {
    let mut text = Vec::new(rt.alloc());
    for part in parts {
        text.extend_from_slice(part.as_bytes())?;
    }
    Ok(text)
}

/// The lines of a method that books the entries of a journal's text, and waits after each command to move and each
/// green light.
pub(crate) fn patient<R: AllocGlobal>(rt: &R, journal: &[u8]) -> Result<Vec<u8>, Fail> {
    let mut lines = Vec::new(rt.alloc());
    for record in journal.split(|byte| *byte == b'\n').skip(1) {
        lines.extend_from_slice(record)?;
        lines.push(b'\n')?;
        if record.starts_with(b"started") {
            lines.extend_from_slice(b"done,,,\ndone,,,\ndone,,,\ndone,,,\n")?;
        } else if record.ends_with(b"green,") || record.starts_with(b"delivered") {
            lines.extend_from_slice(b"done,,,\n")?;
        }
    }
    Ok(lines)
}
