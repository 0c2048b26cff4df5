//! What the tests share: sweeps of few runs, and the lines that they print.
use cell_output::WatchedWriter;
use cell_sim::Fault;
use cell_sweep::{Choice, Form, Part, Sweep, sweep_texts};
use std::process::Abort;
use std::test::Fail;
use std::thread::Threads;

/// What a sweep prints with this status, in CSV or as a table.
pub(crate) fn printed<R: AllocGlobal + Abort + Threads + Sync>(
    rt: &R,
    texts: [&[u8]; 2],
    sweep: Sweep<'_>,
    status: u8,
) -> Result<String, Fail> {
    let [settings, operator] = texts;
    let mut output = Vec::new(rt.alloc());
    let mut errors = Vec::new(rt.alloc());
    let mut writer = WatchedWriter::new(&mut output);
    let answer = sweep_texts(rt, settings, operator, sweep, &mut writer, &mut errors);
    assert!(rt; answer == Ok(status));
    assert!(rt; errors.is_empty() != sweep.progress);
    Ok(String::from_utf8(output).ok().ok_or("no text")?)
}

/// A sweep in CSV through these kinds, in the first so many motions.
pub(crate) fn in_csv(kinds: &[Fault], motions: Option<u32>, service: bool) -> Sweep<'_> {
    Sweep {
        kinds,
        motions,
        choice: Choice::Single,
        part: Part::WHOLE,
        service,
        form: Form::Csv,
        progress: false,
        threads: 1,
    }
}

/// The first line of a text that begins so, or nothing.
pub(crate) fn line_with<'a>(text: &'a str, begin: &str) -> &'a str {
    for line in text.lines() {
        if line.starts_with(begin) {
            return line;
        }
    }
    ""
}

/// A field of a line of CSV, counted from 0, of those before the first in quotes.
pub(crate) fn field(line: &str, number: usize) -> &str {
    line.split(',').nth(number).unwrap_or("")
}
