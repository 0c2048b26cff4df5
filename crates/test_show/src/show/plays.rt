//! Journals that play.
use crate::states::booked;
use cell_show::moving::write_moving;
use cell_show::page::{MAX_PAGE_ENTRIES, PageError};
use cell_show::{Form, show_journal};
use cell_types::{Belt, Colour, Entry};
use plate_book::Book;
use std::alloc::Global;
use std::process::Abort;
use test_samples::{FailingWriter, ONE_PLATE};

// The feed belt carries a plate to its end, and stops.
const FEED: [&str; 7] = [
    "lamp,feed,green,",
    "admitted,1,,",
    "started,feed_belt,to_end,",
    "conveyed,feed_belt,1,feed_end",
    "declared,feed,operator_stop,",
    "quarantined,1,feed_end,",
    "repaired,feed,,",
];

// What stands in the picture of these entries. They take 20 beats before the first of them, one for each and three more
// for that which ends a motion, 24 after each of the last three, and 40 after that: 142 beats of 50 milliseconds.
const PLAYED: [&str; 11] = [
    "<style>@media (prefers-reduced-motion:no-preference){\n",
    ".E{animation:7100ms linear infinite}.S{animation:7100ms steps(1) infinite}\n",
    // The belt goes from the third entry on, in beat 23, to the fourth, in beat 27, and then carries the next plate.
    ".a0{animation-name:a0}@keyframes a0{16.197%{transform:translate(0px,0px)}\
     19.014%{transform:translate(116px,0px)}19.015%{transform:translate(0px,0px)}\
     100.000%{transform:translate(0px,0px)}}\n",
    // The plate is at the belt's start from the second entry to the fourth, and at its end up to the sixth.
    ".p0{animation-name:p0}@keyframes p0{15.492%{opacity:1}19.014%{opacity:0}}\n",
    ".p1{animation-name:p1}@keyframes p1{19.014%{opacity:1}37.323%{opacity:0}}\n",
    ".f0{animation-name:f0}@keyframes f0{19.718%{opacity:1}54.929%{opacity:0}}\n",
    ".l0{animation-name:l0}@keyframes l0{14.788%{opacity:1}15.492%{opacity:0}}\n",
    ".c3{animation-name:c3}@keyframes c3{37.323%{transform:translateY(-30px)}}\n",
    "<text x=\"20\" y=\"26\" font-size=\"16\" font-weight=\"bold\">7 entries</text>\n",
    "<text y=\"0\">the opening</text>\n<text y=\"30\">feed belt: plate 1 is admitted</text>\n\
     <text y=\"60\">feed belt: is declared failed, since the operator asked for the stop</text>\n",
    "<g class=\"S f0\" opacity=\"0\">\n\
     <rect x=\"20\" y=\"222\" width=\"180\" height=\"56\" rx=\"4\" fill=\"#eef0f3\" stroke=\"#c00000\"",
];

// The picture in which the first of these records play.
fn played(rt: &impl Abort, alloc: Global, records: &[&str], entries: u32) -> String {
    let book = booked(rt, alloc, records);
    let mut bytes = Vec::new(alloc);
    assert!(rt; write_moving(&mut bytes, book.journal(), entries, None).is_ok());
    String::from_utf8(bytes).ok().expect(rt, "text")
}

#[test]
fn plays_each_entry_at_its_time(rt: HostRuntime) {
    let file = played(&rt, rt.alloc(), &FEED, 7);
    let picture = file.as_str();
    assert!(rt;
        picture.starts_with("<svg xmlns=\"http://www.w3.org/2000/svg\" viewBox=\"0 0 800 480\"")
    );
    assert!(rt; picture.ends_with("</svg>\n"));
    for part in &PLAYED {
        assert!(rt; picture.find(*part).is_some(), "{part}");
    }
}

// What doesn't change has no keyframes, and of entries beyond those that play nothing is there.
#[test]
fn plays_the_first_entries_alone(rt: HostRuntime) {
    let file = played(&rt, rt.alloc(), &FEED, 2);
    let picture = file.as_str();
    assert!(rt; picture.find("2 entries</text>").is_some());
    assert!(rt; picture.find("@keyframes p0{").is_some());
    for part in &["@keyframes a0{", "@keyframes f0{", "is declared failed"] {
        assert!(rt; picture.find(*part).is_none(), "{part}");
    }
}

#[test]
fn plays_up_to_the_entry_that_is_refused(rt: HostRuntime) {
    let mut bytes = Vec::new(rt.alloc());
    let text = b"profile,1,,\nlamp,feed,green,\nlamp,feed,green,\n".as_slice();
    let answer = show_journal(rt.alloc(), text, Form::Moving, None, &mut bytes);
    assert!(rt; answer == Ok(1));
    let file = String::from_utf8(bytes).ok().expect(&rt, "text");
    assert!(rt; file.as_str().find("1 entry</text>").is_some());
    assert!(rt;
        file.as_str()
            .ends_with(">refused 2 LampAlready feed</text>\n</svg>\n")
    );
}

// After one plate the machines that aren't at home go there.
const HOME: [&str; 14] = [
    "claimed,table,z1,",
    "claimed,table,z2,",
    "started,table_turn,belt,",
    "arrived,table_turn,belt,",
    "started,table_lift,low,",
    "arrived,table_lift,low,",
    "yielded,table,z1,",
    "yielded,table,z2,",
    "claimed,press1,z3,",
    "started,press_one,middle,",
    "arrived,press_one,middle,",
    "yielded,press1,z3,",
    "started,robot_turn,table1,",
    "arrived,robot_turn,table1,",
];

// Writes records of the first plate as those of another one, a line each.
fn push_records(rt: &impl Abort, alloc: Global, text: &mut String, records: &[&str], plate: &str) {
    for record in records {
        let line = record.replace(alloc, ",1,", plate).expect(rt, "memory");
        assert!(rt; text.push_str(line.as_str()).is_ok());
        assert!(rt; text.push_str("\n").is_ok());
    }
}

// Six plates one after another, which take more than 430 entries, play in less than 300,000 bytes.
#[test]
fn six_plates_play_in_few_bytes(rt: HostRuntime) {
    let mut text = String::new(rt.alloc());
    assert!(rt; text.push_str("profile,1,,\n").is_ok());
    for plate in [",1,", ",2,", ",3,", ",4,", ",5,", ",6,"] {
        push_records(&rt, rt.alloc(), &mut text, &ONE_PLATE, plate);
        push_records(&rt, rt.alloc(), &mut text, &HOME, plate);
    }
    let mut bytes = Vec::new(rt.alloc());
    let answer = show_journal(rt.alloc(), text.as_bytes(), Form::Moving, None, &mut bytes);
    assert!(rt; answer == Ok(0));
    assert!(rt; bytes.len() < 300_000);
    let file = String::from_utf8(bytes).ok().expect(&rt, "text");
    assert!(rt; file.as_str().find("456 entries</text>").is_some());
}

// A journal of so many entries, of which each switches the feed light.
fn switching(rt: &impl Abort, alloc: Global, count: u32) -> Book {
    let mut book = Book::new(alloc, 30_000, 1).ok().expect(rt, "a book");
    for place in 0..count {
        let colour = if place % 2 == 0 {
            Colour::Green
        } else {
            Colour::Red
        };
        let belt = Belt::Feed;
        assert!(rt; book.apply(Entry::Lamp { belt, colour }).is_ok());
    }
    book
}

#[test]
fn refuses_a_journal_that_is_too_long(rt: HostRuntime) {
    let mut bytes = Vec::new(rt.alloc());
    let long = switching(&rt, rt.alloc(), MAX_PAGE_ENTRIES + 1);
    let answer = write_moving(&mut bytes, long.journal(), 1, None);
    assert!(rt; answer == Err(PageError::TooManyEntries) && bytes.is_empty());
    let longest = switching(&rt, rt.alloc(), MAX_PAGE_ENTRIES);
    assert!(rt; write_moving(&mut bytes, longest.journal(), MAX_PAGE_ENTRIES, None).is_ok());
    assert!(rt; bytes.len() < 5_000_000);
}

// A writer that fails after so many bytes has taken a first part of the picture.
#[test]
fn a_writer_that_fails_is_told(rt: HostRuntime) {
    let book = booked(&rt, rt.alloc(), &FEED);
    let file = played(&rt, rt.alloc(), &FEED, 7);
    let whole = file.as_bytes();
    let length = whole.len();
    for &left in &[0, 100, 1000, 5000, length.saturating_sub(1), length] {
        let mut writer = FailingWriter::new(Vec::new(rt.alloc()), left);
        let answer = write_moving(&mut writer, book.journal(), 7, None);
        assert!(rt; answer.is_ok() == (left == length), "after {left} bytes");
        let part = &whole[..left.min(length)];
        assert!(rt; writer.inner().as_slice() == part, "after {left} bytes");
    }
}
