//! Texts of scripts, and what the operator does along the way of one plate from the feed belt to the table.
use cell_types::texts::{read_machine, read_station};
use cell_types::{Machine, PlateId, Station};
use operator_desk::{Action, Script, ScriptError, entry_of};
use plate_book::Book;
use std::alloc::Global;
use std::process::Abort;
use test_samples::{begun, book_all, entry_of as entry, plate};

// How a text is refused, or that it isn't.
type Refused = Option<ScriptError>;

const RIGHT: [&[u8]; 10] = [
    b"",
    b"\n\n",
    b"always,,stop,press1\n",
    b"admitted,0,stop,feed",
    b"delivered,100000,repair,deposit\n",
    b"quarantined,1,clear,dep_end\n",
    b"failed,press2,clear,press2\nfailed,press2,repair,press2\n",
    b"always,,expect,1\n",
    b"quarantined,1,expect,100000\nfailed,table,expect,2\n",
    b"\"always\",\"\",\"stop\",\"feed\"\r\n",
];

// Texts whose first record is no line.
const WRONG: [&[u8]; 25] = [
    b"always,1,stop,press1\n",
    b"always,,stop\n",
    b"always,,stop,feed,\n",
    b"always,,stop,",
    b"Always,,stop,feed\n",
    b"always,,clear,feed\n",
    b"always,,stop,feed_in\n",
    b"always,,expect,0\n",
    b"always,,expect,100001\n",
    b"always,,expect,01\n",
    b"always,,expect,+1\n",
    b"always,,expect,\n",
    b"always,,expect,feed_in\n",
    b"always,1,expect,1\n",
    b"admitted,,stop,feed\n",
    b"admitted,01,stop,feed\n",
    b"admitted,00,stop,feed\n",
    b"admitted,+1,stop,feed\n",
    b"admitted,100001,stop,feed\n",
    b"admitted,feed,stop,feed\n",
    b"failed,1,stop,feed\n",
    b"failed,feed_in,repair,feed\n",
    b" always,,stop,feed\n",
    b"\xff",
    b"always,,stop,\xff\n",
];

// How many lines that ask for a stop come first, what follows them, and how the text is refused, or that it isn't:
// records are counted from one, and a thousand lines are taken.
const AFTER_STOPS: [(usize, &[u8], Refused); 9] = [
    (
        0,
        b"brew,,stop,feed\nbrew,,stop,feed\n",
        Some(ScriptError::Unreadable(1)),
    ),
    (
        1,
        b"brew,,stop,feed\nbrew,,stop,feed\n",
        Some(ScriptError::Unreadable(2)),
    ),
    (
        2,
        b"brew,,stop,feed\nbrew,,stop,feed\n",
        Some(ScriptError::Unreadable(3)),
    ),
    (
        999,
        b"brew,,stop,feed\nbrew,,stop,feed\n",
        Some(ScriptError::Unreadable(1000)),
    ),
    (1000, b"", None),
    (
        1000,
        b"always,,stop,feed\n",
        Some(ScriptError::TooManyLines),
    ),
    (1000, b"brew,,,\n", Some(ScriptError::TooManyLines)),
    (1000, b"\xff", Some(ScriptError::TooManyLines)),
    (
        999,
        b"brew,,,\nalways,,stop,feed\n",
        Some(ScriptError::Unreadable(1000)),
    ),
];

// A story: how many entries of the journal of one plate are booked first, the script, and then steps, parted by bars.
// These are the steps: `book` a record; `next` says by which record the script's next action is booked, and `nothing`
// that there is none; `does` says the same as `next`, and the record is booked and the line done; `done` is the line
// alone. `empty` asks whether no plate is at a station, `filled` whether the first plate is, `asked` and `sound`
// whether a stop is asked of a machine and whether it isn't failed, and `expects` which plate is expected.
const STORIES: [&str; 11] = [
    // A line waits for its trigger.
    "0|admitted,1,stop,feed\n|nothing|book lamp,feed,green,|book admitted,1,,|next stop_asked,feed,,|done|\
     nothing|done|nothing",
    // It waits until its entry is allowed.
    "8|failed,table,clear,table\n|nothing|book claimed,feed,z1,|book declared,table,operator_stop,|nothing|\
     book yielded,feed,z1,|does quarantined,1,table,|nothing|empty table",
    // A station under a visit isn't cleared.
    "7|failed,table,clear,table\n|book declared,table,operator_stop,|nothing",
    // Lines are done in their order.
    "8|failed,table,clear,table\nquarantined,1,repair,table\ndelivered,0,stop,robot\n|nothing|\
     book declared,table,operator_stop,|does quarantined,1,table,|does repaired,table,,|does stop_asked,robot,,|\
     nothing|asked robot|sound table",
    // A plate is expected once, and only one that was cleared.
    "0|always,,expect,1\n|nothing",
    "8|always,,expect,1\n|nothing|book declared,table,operator_stop,|book quarantined,1,table,|\
     does expected,1,,|nothing|expects 1",
    "8|always,,expect,2\n|book declared,table,operator_stop,|book quarantined,1,table,|nothing",
    "8|always,,expect,1\n|book declared,table,operator_stop,|book quarantined,1,table,|book expected,1,,|nothing",
    // A plate that was cleared from a press isn't expected, and none is under a green light.
    "34|quarantined,1,expect,1\n|book declared,press1,missing_motion,|book quarantined,1,press1,|\
     book repaired,press1,,|nothing",
    "8|quarantined,1,expect,1\n|book declared,table,operator_stop,|book quarantined,1,table,|\
     book lamp,feed,green,|nothing",
    // A plate is cleared and expected.
    "2|admitted,1,stop,feed\nfailed,feed,clear,feed_in\nfailed,feed,repair,feed\nquarantined,1,expect,1\n|\
     does stop_asked,feed,,|nothing|book declared,feed,operator_stop,|does quarantined,1,feed_in,|\
     does repaired,feed,,|does expected,1,,|nothing|book lamp,feed,green,|book reinstated,1,,|filled feed_in",
];

// So many lines that ask for a stop, and a text after them, are refused so, or not.
fn is_refused(rt: &impl Abort, alloc: Global, count: usize, last: &[u8], wanted: Refused) {
    let mut text = Vec::new(alloc);
    for _ in 0..count {
        text.extend_from_slice(b"always,,stop,feed\n")
            .expect(rt, "memory");
    }
    text.extend_from_slice(last).expect(rt, "memory");
    let given = Script::read(alloc, text.as_slice()).err();
    let shown = String::from_utf8_lossy(alloc, last).expect(rt, "memory");
    assert!(rt; given == wanted, "{count} stops and {shown}");
}

#[test]
fn reads_the_words_of_lines_and_takes_a_thousand(rt: HostRuntime) {
    for &text in &RIGHT {
        is_refused(&rt, rt.alloc(), 0, text, None);
    }
    for &text in &WRONG {
        is_refused(&rt, rt.alloc(), 0, text, Some(ScriptError::Unreadable(1)));
    }
    for &(count, last, wanted) in &AFTER_STOPS {
        is_refused(&rt, rt.alloc(), count, last, wanted);
    }
}

// Whether a book answers a question so.
fn holds(book: &Book, question: &str, name: &str) -> bool {
    let station = read_station(name.as_bytes());
    let machine = read_machine(name.as_bytes());
    match question {
        "empty" => matches!(station, Some(place) if book.plate_at(place).is_none()),
        "filled" => matches!(station, Some(place) if book.plate_at(place) == plate(1).ok()),
        "asked" => matches!(machine, Some(asked) if book.asked(asked)),
        "sound" => matches!(machine, Some(sound) if !book.failed(sound)),
        "expects" => {
            matches!(name.parse::<u32>(), Ok(number) if book.expected() == plate(number).ok())
        }
        _ => false,
    }
}

// The script's next action is booked by this record.
fn has_next(rt: &impl Abort, script: &Script, book: &Book, record: &str, story: &str) {
    let action = script.next(book).expect(rt, story);
    let wanted = entry(record).expect(rt, story);
    assert!(rt; entry_of(action) == wanted, "{record} in {story}");
}

fn take_step(rt: &impl Abort, script: &mut Script, book: &mut Book, step: &str, story: &str) {
    let (word, rest) = step.split_once(' ').unwrap_or((step, ""));
    match word {
        "book" => assert!(rt; book_all(book, &[rest]).is_ok()),
        "next" => has_next(rt, script, book, rest, story),
        "nothing" => assert!(rt; script.next(book).is_none(), "{story}"),
        "does" => {
            has_next(rt, script, book, rest, story);
            assert!(rt; book_all(book, &[rest]).is_ok());
            script.done();
        }
        "done" => script.done(),
        _ => assert!(rt; holds(book, word, rest), "{step} in {story}"),
    }
}

fn tell(rt: &impl Abort, alloc: Global, story: &str) {
    let mut parts = story.split('|');
    let count = parts.next().unwrap_or("").parse::<u32>().ok();
    let text = parts.next().unwrap_or("").as_bytes();
    let mut script = Script::read(alloc, text).ok().expect(rt, story);
    let mut book = begun(alloc, 100, 10, count.expect(rt, story) as usize).expect(rt, story);
    for step in parts {
        take_step(rt, &mut script, &mut book, step, story);
    }
}

#[test]
fn does_what_is_next_where_its_trigger_holds_and_its_entry_is_allowed(rt: HostRuntime) {
    for &story in &STORIES {
        tell(&rt, rt.alloc(), story);
    }
}

#[test]
fn books_actions_by_their_entries(rt: HostRuntime) {
    for &(action, record) in &[
        (Action::Stop(Machine::Robot), "stop_asked,robot,,"),
        (Action::Repair(Machine::Robot), "repaired,robot,,"),
        (
            Action::Clear(Station::Arm1, PlateId::default()),
            "quarantined,1,arm1,",
        ),
        (Action::Expect(PlateId::default()), "expected,1,,"),
    ] {
        assert!(rt; Some(entry_of(action)) == entry(record), "{record}");
    }
}
