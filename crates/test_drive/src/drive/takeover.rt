//! Runs that go on from where a journal left the cell.
use crate::drive::sample::{COMMANDS, ENTRIES, Written, driven, has_line, patient};
use cell_drive::DriveOptions;
use cell_journal::Journal;
use plate_book::Book;
use std::process::Abort;
use std::sync::Wait;
use std::test::Fail;
use test_samples::{LAID_BACK, ONE_PLATE, begun, book_all, text_of};

const SETTINGS: [&str; 3] = ["plates = 1\n", "", ""];

const FOUR_ROUNDS: &str = "done,,,\ndone,,,\ndone,,,\ndone,,,\n";

// A run that goes on from a journal, as these options say.
fn going_on<R: AllocGlobal + Abort + Wait>(
    rt: &R,
    texts: [&str; 3],
    driving: DriveOptions<'_>,
    journal: &Journal,
    lines: &[u8],
    status: u8,
) -> Written {
    let driving = DriveOptions {
        from: Some(journal),
        ..driving
    };
    driven(rt, texts, driving, lines, status)
}

// The lines of records, as they are told behind the first line for a plate.
fn told<R: AllocGlobal>(rt: &R, records: &[&str]) -> Result<Vec<u8>, Fail> {
    let mut text = Vec::new(rt.alloc());
    text.extend_from_slice(b"drive,1,1,\n")?;
    for record in records {
        text.extend_from_slice(record.as_bytes())?;
        text.push(b'\n')?;
    }
    text.extend_from_slice(b"reading,feed,")?;
    Ok(text)
}

// A method takes over after so many entries of the journal of one plate. It waits until a motion that was under way has
// ended, and books the others.
fn taken_over<R: AllocGlobal + Abort + Wait>(rt: &R, count: usize) -> Result<Written, Fail> {
    let book = begun(rt.alloc(), 1_000, 1, count)?;
    let rest = text_of(rt.alloc(), 2, &ONE_PLATE[count.min(62)..])?;
    let mut lines = Vec::new(rt.alloc());
    lines.extend_from_slice(FOUR_ROUNDS.as_bytes())?;
    lines.extend_from_slice(patient(rt, rest.as_slice())?.as_slice())?;
    let driving = DriveOptions {
        journal: true,
        explain: true,
        ..ENTRIES
    };
    Ok(going_on(rt, SETTINGS, driving, book.journal(), lines.as_slice(), 0))
}

// The first entries are told, and the run goes on to its end with nothing untrue and no rule broken.
fn check_taken_over<R: AllocGlobal + Abort + Wait>(rt: &R, count: usize) -> Result<(), Fail> {
    let written = taken_over(rt, count)?;
    let text = written.output.as_slice();
    let due = told(rt, &ONE_PLATE[..count.min(62)])?;
    assert!(rt; text.starts_with(due.as_slice()));
    assert!(rt; has_line(text, "end,finished,,") && has_line(text, "entries 62"));
    assert!(rt; has_line(text, "admitted 1") && has_line(text, "forged 1"));
    assert!(rt; has_line(text, "delivered 1") && has_line(text, "refused 0"));
    assert!(rt; has_line(text, "collisions 0") && has_line(text, "untrue 0"));
    assert!(rt; has_line(text, "broken 0") && has_line(text, "lost 0"));
    let whole = text_of(rt.alloc(), 2, &ONE_PLATE)?;
    assert!(rt; written.errors.as_slice() == whole.as_slice());
    Ok(())
}

#[test]
fn a_method_takes_over_after_any_entry(rt: HostRuntime) -> Result<(), Fail> {
    for count in 0..63 {
        check_taken_over(&rt, count)?;
    }
    Ok(())
}

#[test]
fn from_an_empty_journal_all_is_as_before(rt: HostRuntime) -> Result<(), Fail> {
    let book = begun(rt.alloc(), 1_000, 1, 0)?;
    let whole = text_of(rt.alloc(), 2, &ONE_PLATE)?;
    let by_entries = patient(&rt, whole.as_slice())?;
    let by_commands = b"lamp,feed,green,\ndone,,,\non,feed_belt,to_end,\ndone,,,\n".as_slice();
    for (driving, lines, status) in [
        (ENTRIES, by_entries.as_slice(), 0),
        (COMMANDS, by_commands, 1),
    ] {
        let driving = DriveOptions {
            journal: true,
            explain: true,
            ..driving
        };
        let before = driven(&rt, SETTINGS, driving, lines, status);
        let after = going_on(&rt, SETTINGS, driving, book.journal(), lines, status);
        assert!(rt; before.output.as_slice() == after.output.as_slice());
        assert!(rt; before.errors.as_slice() == after.errors.as_slice());
    }
    Ok(())
}

// What stands before the line of the end.
fn before_end(text: &[u8]) -> &[u8] {
    for place in 0..text.len() {
        if text[place..].starts_with(b"\nend,") {
            return &text[..place];
        }
    }
    text
}

#[test]
fn both_ways_go_on_from_the_same_cell(rt: HostRuntime) -> Result<(), Fail> {
    for count in 0..63 {
        let book = begun(rt.alloc(), 1_000, 1, count)?;
        let lines = b"quit,,,\n".as_slice();
        let entries = going_on(&rt, SETTINGS, ENTRIES, book.journal(), lines, 1);
        let commands = going_on(&rt, SETTINGS, COMMANDS, book.journal(), lines, 1);
        let due = before_end(entries.output.as_slice());
        let text = commands.output.as_slice();
        assert!(rt; has_line(due, "round,1,,") && before_end(text) == due);
        assert!(rt; has_line(text, "rounds 1") && has_line(text, "broken 0"));
        assert!(rt; has_line(text, "forged 1") == (count >= 35));
    }
    Ok(())
}

#[test]
fn by_commands_a_plate_goes_on(rt: HostRuntime) -> Result<(), Fail> {
    let book = begun(rt.alloc(), 1_000, 1, 4)?;
    let lines = b"on,feed_belt,to_table,\ndone,,,\ndone,,,\ndone,,,\nquit,,,\n".as_slice();
    let written = going_on(&rt, SETTINGS, COMMANDS, book.journal(), lines, 1);
    let text = written.output.as_slice();
    assert!(rt; has_line(text, "reading,feed,,feed_end") && has_line(text, "reading,feed,,table"));
    assert!(rt; has_line(text, "admitted 1") && has_line(text, "broken 0"));
    Ok(())
}

// Press 1 is declared failed on its way to the top, with the plate in it.
fn failed<R: AllocGlobal>(rt: &R) -> Result<Book, Fail> {
    let mut book = begun(rt.alloc(), 1_000, 1, 34)?;
    book_all(&mut book, &["declared,press1,no_departure,"])?;
    Ok(book)
}

#[test]
fn a_cell_with_a_failed_press_is_taken_over(rt: HostRuntime) -> Result<(), Fail> {
    let book = failed(&rt)?;
    let texts = ["plates = 1\n", "", "failed,press1,clear,press1\n"];
    let written = going_on(
        &rt,
        texts,
        ENTRIES,
        book.journal(),
        FOUR_ROUNDS.as_bytes(),
        0,
    );
    let text = written.output.as_slice();
    assert!(rt; has_line(text, "declared,press1,no_departure,"));
    assert!(rt; has_line(text, "reading,press1,middle,press1"));
    assert!(rt; has_line(text, "quarantined,1,press1,") && has_line(text, "round,1,,"));
    assert!(rt; has_line(text, "end,finished,,") && has_line(text, "entries 36"));
    assert!(rt; has_line(text, "quarantined 1") && has_line(text, "rounds a plate - - -"));
    Ok(())
}

#[test]
fn what_is_measured_begins_at_the_takeover(rt: HostRuntime) -> Result<(), Fail> {
    // The deposit light is green, and the first reading takes the plate.
    let written = taken_over(&rt, 61)?;
    let text = written.output.as_slice();
    assert!(rt; has_line(text, "rounds a plate 0 0 0") && has_line(text, "deposit moving 0"));
    // It is turned green in the fifth round.
    let written = taken_over(&rt, 60)?;
    let text = written.output.as_slice();
    assert!(rt; has_line(text, "rounds a plate 5 5 5"));
    // The deposit belt is under way, and goes on for two ends of rounds.
    let written = taken_over(&rt, 58)?;
    let text = written.output.as_slice();
    assert!(rt; has_line(text, "deposit moving 2") && has_line(text, "feed moving 0"));
    Ok(())
}

#[test]
fn faults_and_the_operator_begin_at_the_takeover(rt: HostRuntime) -> Result<(), Fail> {
    let book = begun(rt.alloc(), 1_000, 1, 4)?;
    let texts = [
        "plates = 1\n",
        "feed_belt,1,refuse_command,\n",
        "admitted,1,stop,press1\n",
    ];
    let lines = b"claimed,feed,z1,\nstarted,feed_belt,to_table,\ndone,,,\nquit,,,\n".as_slice();
    let written = going_on(&rt, texts, ENTRIES, book.journal(), lines, 1);
    let text = written.output.as_slice();
    assert!(rt; has_line(text, "ok,5,,") && has_line(text, "failed,6,,"));
    assert!(rt; has_line(text, "stop_asked,press1,,") && has_line(text, "entries 7"));
    Ok(())
}

#[test]
fn what_is_booked_too_early_of_a_plate_that_was_there_is_untrue(
    rt: HostRuntime,
) -> Result<(), Fail> {
    let book = begun(rt.alloc(), 1_000, 1, 3)?;
    let driving = DriveOptions {
        explain: true,
        ..ENTRIES
    };
    let lines = b"conveyed,feed_belt,1,feed_end\nquit,,,\n".as_slice();
    let written = going_on(&rt, SETTINGS, driving, book.journal(), lines, 1);
    assert!(rt; has_line(written.output.as_slice(), "untrue 1"));
    let why = "untrue in round 1: conveyed,feed_belt,1,feed_end: feed_end is empty";
    assert!(rt; has_line(written.errors.as_slice(), why));
    Ok(())
}

// What a method books behind a journal in which plate 1 was laid back: plate 1 goes to the table, and plate 2 is laid
// in.
const BEHIND_LAID_BACK: [&str; 10] = [
    "started,feed_belt,to_end,",
    "conveyed,feed_belt,1,feed_end",
    "claimed,feed,z1,",
    "started,feed_belt,to_table,",
    "conveyed,feed_belt,1,table",
    "yielded,feed,z1,",
    "lamp,feed,green,",
    "admitted,2,,",
    "started,feed_belt,to_end,",
    "conveyed,feed_belt,2,feed_end",
];

#[test]
fn a_plate_that_was_laid_back_is_told_apart(rt: HostRuntime) -> Result<(), Fail> {
    let mut book = begun(rt.alloc(), 1_000, 2, 0)?;
    book_all(&mut book, &LAID_BACK)?;
    let rest = text_of(rt.alloc(), 2, &BEHIND_LAID_BACK)?;
    let mut lines = Vec::new(rt.alloc());
    lines.extend_from_slice(FOUR_ROUNDS.as_bytes())?;
    lines.extend_from_slice(patient(&rt, rest.as_slice())?.as_slice())?;
    let texts = ["plates = 2\n", "", "failed,table,repair,table\n"];
    let written = going_on(&rt, texts, ENTRIES, book.journal(), lines.as_slice(), 1);
    let text = written.output.as_slice();
    assert!(rt; has_line(text, "repaired,table,,") && has_line(text, "refused 0"));
    assert!(rt; has_line(text, "admitted 2") && has_line(text, "untrue 0"));
    assert!(rt; has_line(text, "broken 0") && has_line(text, "lost 0"));
    Ok(())
}

#[test]
fn a_journal_past_the_limits_is_refused(rt: HostRuntime) -> Result<(), Fail> {
    let book = begun(rt.alloc(), 1_000, 2, 62)?;
    let mut two = begun(rt.alloc(), 1_000, 2, 62)?;
    book_all(&mut two, &["lamp,feed,green,", "admitted,2,,"])?;
    for driving in [ENTRIES, COMMANDS] {
        let texts = ["plates = 1\njournal_limit = 5\n", "", ""];
        let written = going_on(&rt, texts, driving, book.journal(), b"".as_slice(), 1);
        assert!(rt; written.output.as_slice() == b"refused 6 JournalFull\n".as_slice());
        let written = going_on(&rt, SETTINGS, driving, two.journal(), b"".as_slice(), 1);
        assert!(rt; written.output.as_slice() == b"refused 64 PlateLimit\n".as_slice());
        // A text that is refused is told before.
        let texts = ["plates = 0\n", "", ""];
        let written = going_on(&rt, texts, driving, two.journal(), b"".as_slice(), 1);
        assert!(rt; written.output.as_slice() == b"settings OutOfRange plates\n".as_slice());
    }
    Ok(())
}
