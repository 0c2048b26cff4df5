//! Runs that go on from a journal, by their texts.
ghost use Rattle.std.specs.Prelude.{◌<◌};

use crate::runs::follow::RUNS;
use crate::runs::rounds::{check_world, read_case, told};
use cell_audit::{audit, read_rows};
use cell_output::{WatchedWriter, WriteFault};
use cell_rows::RowReader;
use cell_runs::{Inputs, Texts, book_after, read_inputs, run_after, simulate_from};
use cell_sim::World;
use cell_workers::End;
use sim_plant::SimPlant;
use std::io::Write;
use std::process::Abort;
use std::test::Fail;
use test_samples::{CLEARED_PRESS, FailingWriter, ONE_PLATE, STUCK_PRESS, text_of};

// The status where a run goes on from a journal by these three texts, or that the writer failed.
fn go_on<R: AllocGlobal + Abort, W: Write>(
    rt: &R,
    journal: &[u8],
    [settings, faults, operator]: [&[u8]; 3],
    alone: bool,
    writer: &mut W,
) -> Result<u8, WriteFault> {
    let mut rows = RowReader::new(rt.alloc(), journal);
    let before = read_rows(rt.alloc(), &mut rows).ok().expect(rt, "memory");
    let texts = Texts::new(settings, faults, operator);
    let mut writer = WatchedWriter::new(writer);
    let (status, _) = run_after(rt.alloc(), &before, texts, alone, &mut writer)?;
    Ok(status)
}

// What is printed where a run goes on from a journal by these three texts, or the whole journal's text. It has to end
// with this status.
fn gone_on<R: AllocGlobal + Abort>(
    rt: &R,
    journal: &[u8],
    texts: [&[u8]; 3],
    alone: bool,
    status: u8,
    case: &str,
) -> Vec<u8> {
    let mut written = Vec::new(rt.alloc());
    let answer = go_on(rt, journal, texts, alone, &mut written);
    assert!(rt; answer == Ok(status), "{case}");
    written
}

#[test]
fn from_an_empty_journal_it_is_a_run_from_the_opening(rt: HostRuntime) -> Result<(), Fail> {
    let empty = text_of(rt.alloc(), 2, &[])?;
    for &case in &RUNS {
        let (texts, status, printed, _) = read_case(case);
        let lines = gone_on(&rt, empty.as_slice(), texts, false, status, case);
        assert!(rt; lines.as_slice() == printed.as_bytes(), "{case}");
        let journal = gone_on(&rt, empty.as_slice(), texts, true, status, case);
        let whole = told(&rt, texts, false, true, status, case);
        assert!(rt; journal.as_slice() == whole.as_slice(), "{case}");
    }
    Ok(())
}

// A run that goes on from a journal in a watched world has to finish, and to break no rule.
fn check_watched<R: AllocGlobal + Abort>(
    rt: &R,
    journal: &[u8],
    [settings, faults, operator]: [&[u8]; 3],
    case: &str,
) {
    let alloc = rt.alloc();
    let mut rows = RowReader::new(alloc, journal);
    let reading = read_rows(alloc, &mut rows).ok().expect(rt, "memory");
    let inputs = read_inputs(alloc, Texts::new(settings, faults, operator)).expect(rt, case);
    let Inputs {
        plan,
        faults,
        script,
        durations,
    } = inputs;
    let book = book_after(alloc, &plan, reading.book.journal()).expect(rt, case);
    let world = World::from_book(&book, plan.plates, &durations).with_watch();
    let mut cell = SimPlant::new(world, &faults);
    let outcome = simulate_from(alloc, book, &mut cell, script, &plan);
    assert!(rt; outcome.end == End::Finished, "{case}");
    check_world(rt, cell.world(), case);
}

// The first so many lines of a text.
fn lines_of(text: &[u8], count: usize) -> &[u8] {
    let mut left = count;
    for (place, &byte) in text.iter().enumerate() {
        if left == 0 {
            return &text[..place];
        }
        if byte == b'\n' {
            left = left.saturating_sub(1);
        }
    }
    text
}

// From the first lines of its journal on, so many and each few more, a run without faults has to come to the same
// totals. Its own journal begins with them and is legal.
fn check_parts<R: AllocGlobal + Abort>(
    rt: &R,
    whole: &[u8],
    texts: [&[u8]; 3],
    printed: &str,
    step: usize,
) -> Result<(), Fail>
    requires { 0 < step }
{
    let count = whole.iter().filter(|byte| **byte == b'\n').count();
    for lines in (1..=count).step_by(step) {
        let case = format!(in rt.alloc(); "{printed} after {lines} lines")?;
        let part = lines_of(whole, lines);
        let written = gone_on(rt, part, texts, false, 0, case.as_str());
        assert!(rt; written.as_slice() == printed.as_bytes(), "{case}");
        let journal = gone_on(rt, part, texts, true, 0, case.as_str());
        assert!(rt; journal.starts_with(part), "{case}");
        assert!(rt; audit(rt.alloc(), journal.as_slice()).is_ok(), "{case}");
        check_watched(rt, part, texts, case.as_str());
    }
    Ok(())
}

const TWO: &str = "finished\nadmitted 2\nforged 2\nquarantined 0\ndelivered 2\n";

const SIX: &str = "finished\nadmitted 6\nforged 6\nquarantined 0\ndelivered 6\n";

#[test]
fn a_run_goes_on_from_each_part_of_its_journal(rt: HostRuntime) -> Result<(), Fail> {
    let texts: [&[u8]; 3] = [b"plates = 2", b"", b""];
    let whole = told(&rt, texts, false, true, 0, TWO);
    check_parts(&rt, whole.as_slice(), texts, TWO, 1)
}

#[test]
fn a_long_run_goes_on_from_parts_of_its_journal(rt: HostRuntime) -> Result<(), Fail> {
    let texts: [&[u8]; 3] = [b"plates = 6", b"", b""];
    let whole = told(&rt, texts, false, true, 0, SIX);
    check_parts(&rt, whole.as_slice(), texts, SIX, 7)
}

// Journals from which a run goes on: how many records of one plate's journal, what follows them, the settings, the
// script of faults, the operator's script, the status, what is printed, and a record that the run then books.
const WORKED: [&str; 10] = [
    // The whole journal: nothing is left to do, and the second plate comes.
    "62||plates = 1|||0|finished\nadmitted 1\nforged 1\nquarantined 0\ndelivered 1\n|delivered,1,,",
    "62||plates = 2|||0|finished\nadmitted 2\nforged 2\nquarantined 0\ndelivered 2\n|delivered,2,,",
    // A motion that is under way isn't counted and has no fault: the next one of the belt is its first.
    "3||plates = 1|feed_belt,1,no_motion,||1|stalled\nadmitted 1\nforged 0\nquarantined 0\ndelivered 0\n\
    |conveyed,feed_belt,1,feed_end",
    // The arm is full, in the table and before the press, and a press has forged its plate, or hasn't yet.
    "20||plates = 1|||0|finished\nadmitted 1\nforged 1\nquarantined 0\ndelivered 1\n|dropped,arm1,1,press1",
    "28||plates = 1|||0|finished\nadmitted 1\nforged 1\nquarantined 0\ndelivered 1\n|dropped,arm1,1,press1",
    "34||plates = 1|||0|finished\nadmitted 1\nforged 1\nquarantined 0\ndelivered 1\n|forged,press1,1,",
    "35||plates = 1|||0|finished\nadmitted 1\nforged 1\nquarantined 0\ndelivered 1\n|delivered,1,,",
    // A press failed on its way. Its motion goes no further, and its plate waits for the operator.
    "34|declared,press1,no_departure,\n|plates = 1|||1|stalled\nadmitted 1\nforged 0\nquarantined 0\n\
    delivered 0\n|declared,press1,no_departure,",
    "34|declared,press1,no_departure,\n|plates = 1||failed,press1,clear,press1\nfailed,press1,repair,press1\n|0|\
    finished\nadmitted 1\nforged 0\nquarantined 1\ndelivered 0\n|repaired,press1,,",
    // A plate that was taken out before it was forged is laid back.
    "6|declared,table,operator_stop,\ndeclared,feed,operator_stop,\nquarantined,1,feed_end,\nrepaired,feed,,\n\
    repaired,table,,\n|plates = 1||always,,expect,1\n|0|\
    finished\nadmitted 1\nforged 1\nquarantined 1\ndelivered 1\n|reinstated,1,,",
];

// Whether one of the lines of a text is this record.
fn has_record(text: &[u8], record: &str) -> bool {
    text.split(|byte| *byte == b'\n')
        .any(|line| line == record.as_bytes())
}

// A run that goes on from a worked journal has to print what the case says, and to book its record.
fn check_worked<R: AllocGlobal + Abort>(rt: &R, case: &str) -> Result<(), Fail> {
    let (count, rest) = case.split_once('|').unwrap_or(("", ""));
    let (more, rest) = rest.split_once('|').unwrap_or(("", ""));
    let count = count.parse::<usize>().unwrap_or(0).min(ONE_PLATE.len());
    let mut journal = text_of(rt.alloc(), 2, &ONE_PLATE[..count])?;
    journal.extend_from_slice(more.as_bytes())?;
    let (texts, status, printed, record) = read_case(rest);
    let lines = gone_on(rt, journal.as_slice(), texts, false, status, case);
    assert!(rt; lines.as_slice() == printed.as_bytes(), "{case}");
    let whole = gone_on(rt, journal.as_slice(), texts, true, status, case);
    assert!(rt; whole.starts_with(journal.as_slice()), "{case}");
    assert!(rt; has_record(whole.as_slice(), record), "{case}");
    Ok(())
}

#[test]
fn a_run_goes_on_from_a_worked_journal(rt: HostRuntime) -> Result<(), Fail> {
    for &case in &WORKED {
        check_worked(&rt, case)?;
    }
    Ok(())
}

// A run that stalled for a press that failed goes on where the operator has something to do.
#[test]
fn a_stalled_run_goes_on_by_the_operator(rt: HostRuntime) {
    let plates: &[u8] = b"plates = 6";
    let texts = [plates, STUCK_PRESS.as_bytes(), b""];
    let stalled = told(&rt, texts, false, true, 1, "stalled");
    let again = gone_on(
        &rt,
        stalled.as_slice(),
        [plates, b"", b""],
        false,
        1,
        "again",
    );
    let lines: &[u8] = b"stalled\nadmitted 6\nforged 5\nquarantined 0\ndelivered 5\n";
    assert!(rt; again.as_slice() == lines);
    let texts = [plates, b"", CLEARED_PRESS.as_bytes()];
    let cleared = gone_on(&rt, stalled.as_slice(), texts, false, 0, "cleared");
    let lines: &[u8] = b"finished\nadmitted 6\nforged 5\nquarantined 1\ndelivered 5\n";
    assert!(rt; cleared.as_slice() == lines);
}

// The texts of which one is refused: the journal, the three of the run, and the line. The journal is told last, and
// then the first of its entries that the settings don't allow.
const REFUSED: [&str; 9] = [
    "brew|plates = 0|brew|brew|settings OutOfRange plates\n",
    "brew|plates = 1|brew|brew|faults unreadable 1\n",
    "brew|plates = 1||brew|operator unreadable 1\n",
    "brew|plates = 1|||unreadable 0\n",
    "profile,2,,\nlamp,feed,green,\nbrew\n|plates = 1|||unreadable 2\n",
    "profile,2,,\nlamp,feed,green,\nadmi|plates = 1|||unreadable 2\n",
    "profile,1,,\nlamp,feed,green,\nadmitted,1,,\nadmitted,2,,\n|plates = 1|||refused 3 LampRed feed\n",
    "profile,2,,\nlamp,feed,green,\nadmitted,1,,\nstarted,feed_belt,to_end,\n|plates = 1\njournal_limit = 2|||\
    refused 3 JournalFull\n",
    "profile,2,,\nlamp,feed,green,\nadmitted,1,,\nstop_asked,table,,\ndeclared,feed,operator_stop,\n\
    quarantined,1,feed_in,\nrepaired,feed,,\nlamp,feed,green,\nadmitted,2,,\n|plates = 1|||refused 8 PlateLimit\n",
];

// The line of a case has to be printed, whether the journal is wanted or not.
fn check_first<R: AllocGlobal + Abort>(rt: &R, case: &str, alone: bool) {
    let mut parts = case.split('|');
    let journal = parts.next().unwrap_or("").as_bytes();
    let settings = parts.next().unwrap_or("").as_bytes();
    let faults = parts.next().unwrap_or("").as_bytes();
    let operator = parts.next().unwrap_or("").as_bytes();
    let line = parts.next().unwrap_or("").as_bytes();
    let written = gone_on(rt, journal, [settings, faults, operator], alone, 1, case);
    assert!(rt; written.as_slice() == line, "{case}");
}

#[test]
fn the_first_text_that_is_refused_is_told(rt: HostRuntime) {
    for &case in &REFUSED {
        check_first(&rt, case, false);
        check_first(&rt, case, true);
    }
}

// A run that goes on from a whole journal has to answer this over a writer that fails after so many bytes.
fn check_cut<R: AllocGlobal + Abort>(
    rt: &R,
    journal: &[u8],
    left: usize,
    wanted: Result<u8, WriteFault>,
) {
    let mut writer = FailingWriter::new(Vec::new(rt.alloc()), left);
    let answer = go_on(rt, journal, [b"plates = 1", b"", b""], false, &mut writer);
    assert!(rt; answer == wanted, "after {left} bytes");
}

#[test]
fn a_failed_write_is_told(rt: HostRuntime) -> Result<(), Fail> {
    let journal = text_of(rt.alloc(), 2, &ONE_PLATE)?;
    let lines = b"finished\nadmitted 1\nforged 1\nquarantined 0\ndelivered 1\n".len();
    for left in 0..lines {
        check_cut(&rt, journal.as_slice(), left, Err(WriteFault));
    }
    check_cut(&rt, journal.as_slice(), lines, Ok(0));
    Ok(())
}
