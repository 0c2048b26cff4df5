//! The command that measures journals, of a file that the test writes where it runs.
use cell_command::Measuring;
use cell_orders::measure_words;
use cell_output::WatchedWriter;
use std::fs;
use std::process::Abort;
use std::rt::Files;
use std::test::Fail;

const JOURNAL: &str = "profile,1,,\nlamp,feed,green,\nadmitted,1,,\n";

// What a call writes to the output and to the errors, where a picture of a journal is asked for and maybe CSV, and its
// status, which it has to give.
fn told<R: AllocGlobal + Files + Abort>(
    rt: &R,
    csv: bool,
    journal: &str,
) -> Result<(Vec<u8>, Vec<u8>, u8), Fail> {
    let mut output = Vec::new(rt.alloc());
    let mut errors = Vec::new(rt.alloc());
    let mut journals = Vec::new(rt.alloc());
    journals.push(journal)?;
    let measuring = Measuring {
        times: None,
        csv,
        svg: true,
        journals,
    };
    let mut writer = WatchedWriter::new(&mut output);
    let Ok(status) = measure_words(rt, &mut writer, &mut errors, &measuring) else {
        panic!(rt; "no status: {measuring:?}");
    };
    Ok((output, errors, status))
}

#[test]
fn measures_are_drawn(rt: HostRuntime) -> Result<(), Fail> {
    fs::write(&rt, "drawn.journal", JOURNAL)?;
    let (output, errors, status) = told(&rt, false, "drawn.journal")?;
    let picture = output.as_slice();
    assert!(rt; picture.starts_with(b"<svg ") && picture.ends_with(b"</svg>\n"));
    assert!(rt; errors.is_empty() && status == 0);
    Ok(())
}

// No file is looked for.
#[test]
fn csv_and_a_picture_exclude_each_other(rt: HostRuntime) -> Result<(), Fail> {
    let due = "error: of --csv and --svg one alone can be given\n";
    let (output, errors, status) = told(&rt, true, "nowhere.journal")?;
    assert!(rt; output.is_empty() && errors.as_slice() == due.as_bytes() && status == 2);
    Ok(())
}
