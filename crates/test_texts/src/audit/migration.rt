//! The migration of texts from profile 1, whole, cut and from readers that fail, and to writers that fail.
use crate::audit::{CARRIED, FOUR_ENTRIES, due_for_a_cut_text, judges};
use cell_audit::{AuditError, MigrateError, migrate, migrate_lines};
use cell_output::{WatchedWriter, WriteFault};
use cell_rows::{TellsFault, Watched};
use cell_types::{AXES, BELTS, Belt, Entry, MACHINES, Totals, ZONES};
use cell_views::{
    count_of, expected_of, holder_of, is_asked, is_failed, lamp_of, place_of, pose_of,
};
use plate_book::Refusal;
use std::alloc::Global;
use std::io::Read;
use std::process::Abort;
use test_samples::{
    FailingReader, FailingWriter, Interrupted, LAID_BACK, ONE_PLATE, Pieces, Unwilling, entry_of,
    one_plate_text, plate, text_of,
};

// What a migration answers: the totals, or why the text isn't migrated.
type Answer = Result<Totals, MigrateError>;

const FIRST_ENTRIES: &[u8] =
    b"profile,1,,\nlamp,feed,green,\nadmitted,1,,\nstarted,feed_belt,to_end,\nconveyed,feed_belt,1,feed_end\n";

const FIRST_ENTRIES_MIGRATED: &[u8] =
    b"profile,2,,\nlamp,feed,green,\nadmitted,1,,\nstarted,feed_belt,to_end,\nconveyed,feed_belt,1,feed_end\n";

// Texts, the answers, and what is written: nothing of a text that is refused.
const TEXTS: [(&[u8], Answer, &[u8]); 9] = [
    (FIRST_ENTRIES, Ok(FOUR_ENTRIES), FIRST_ENTRIES_MIGRATED),
    (
        FIRST_ENTRIES_MIGRATED,
        Err(MigrateError::Unreadable(0)),
        b"",
    ),
    (b"", Err(MigrateError::Unreadable(0)), b""),
    (b"profile,2,,\n", Err(MigrateError::Unreadable(0)), b""),
    (b"profile,3,,\n", Err(MigrateError::Unreadable(0)), b""),
    (b"lamp,feed,green,\n", Err(MigrateError::Unreadable(0)), b""),
    (
        b"profile,1,,\nadmitted,1,,\n",
        Err(MigrateError::Refused(1, Refusal::LampRed(Belt::Feed))),
        b"",
    ),
    (
        b"profile,1,,\nlamp,feed,green,\nadmitted,1,,\nadmitted,2,,\n",
        Err(MigrateError::Refused(3, Refusal::LampRed(Belt::Feed))),
        b"",
    ),
    (
        b"profile,1,,\nlamp,feed,green,\nprofile,1,,\n",
        Err(MigrateError::Unreadable(2)),
        b"",
    ),
];

// Texts, the statuses, and what is written to the writer and to that of the errors.
const PRINTED: [(&[u8], u8, &str, &str); 4] = [
    (
        b"profile,1,,\nlamp,feed,green,\n",
        0,
        "profile,2,,\nlamp,feed,green,\n",
        "",
    ),
    (
        b"profile,1,,\nadmitted,1,,\n",
        1,
        "",
        "refused 1 LampRed feed\n",
    ),
    (b"profile,1,,\nlamp,feed,green\n", 1, "", "unreadable 1\n"),
    (b"profile,2,,\n", 1, "", "unreadable 0\n"),
];

// What a reader hands out is migrated to this text, or refused. The number of its bytes is told where that is wrong.
fn migrates<R: Read + Drop>(
    rt: &impl Abort,
    alloc: Global,
    (reader, length): (R, usize),
    wanted: Answer,
    text: &[u8],
) {
    let mut written = Vec::new(alloc);
    let answer = migrate(alloc, reader, &mut written);
    assert!(rt;
        answer == wanted && written.as_slice() == text,
        "{length} bytes"
    );
}

// The same for a text at once and byte by byte, and where reads and writes are interrupted.
fn is_migrated(rt: &impl Abort, alloc: Global, text: &[u8], wanted: Answer, migrated: &[u8]) {
    migrates(rt, alloc, (text, text.len()), wanted, migrated);
    let slow = Interrupted::new(Pieces::new(text, 1));
    let mut writer = Interrupted::new(Pieces::new(Vec::new(alloc), 1));
    let answer = migrate(alloc, slow, &mut writer);
    assert!(rt;
        answer == wanted && writer.inner().inner().as_slice() == migrated,
        "{} bytes, slowly",
        text.len()
    );
}

#[test]
fn migrates_texts_of_profile_1_and_writes_nothing_of_others(rt: HostRuntime) {
    let alloc = rt.alloc();
    for &(text, wanted, migrated) in &TEXTS {
        is_migrated(&rt, alloc, text, wanted, migrated);
    }
    let due = Ok((2, FOUR_ENTRIES));
    judges(&rt, alloc, FIRST_ENTRIES_MIGRATED, due, ("migrated", 4));
    let laid_back = text_of(alloc, 1, &LAID_BACK).expect(&rt, "memory");
    let wanted = Err(MigrateError::Unreadable(11));
    is_migrated(&rt, alloc, laid_back.as_slice(), wanted, b"");
}

// The first bytes of the text of one plate's journal are migrated, or refused, as is due.
fn cut_is_migrated(rt: &impl Abort, alloc: Global, text: &[u8], rest: &[u8]) {
    match due_for_a_cut_text(1, text, rest) {
        Ok((_, totals)) => {
            let records = &ONE_PLATE[..(totals.entries as usize).min(ONE_PLATE.len())];
            let wanted = text_of(alloc, 2, records).expect(rt, "memory");
            is_migrated(rt, alloc, text, Ok(totals), wanted.as_slice());
        }
        Err(AuditError::Unreadable(place)) => {
            is_migrated(rt, alloc, text, Err(MigrateError::Unreadable(place)), b"");
        }
        Err(_) => panic!(rt; "a part of a legal text is refused"),
    }
}

// A writer that fails after so many bytes has taken the first part of what is written for the text of one plate's
// journal.
fn part_is_written(rt: &impl Abort, alloc: Global, text: &[u8], whole: &[u8], left: usize) {
    let mut writer = FailingWriter::new(Vec::new(alloc), left);
    let answer = migrate(alloc, text, &mut writer);
    let wanted = if left < whole.len() {
        Err(MigrateError::WriteFault)
    } else {
        Ok(CARRIED)
    };
    assert!(rt; answer == wanted, "after {left} bytes");
    let part = &whole[..left.min(whole.len())];
    assert!(rt; writer.inner().as_slice() == part, "after {left} bytes");
}

// What is due is told where the text of one plate's journal is cut after so many bytes, or its reader or writer fails
// then.
fn tells_of_a_cut(rt: &impl Abort, alloc: Global, whole: &[u8], migrated: &[u8], left: usize) {
    let (text, rest) = whole.split_at(left.min(whole.len()));
    cut_is_migrated(rt, alloc, text, rest);
    let failing = FailingReader::new(whole, left);
    migrates(
        rt,
        alloc,
        (failing, left),
        Err(MigrateError::ReadFault),
        b"",
    );
    part_is_written(rt, alloc, whole, migrated, left);
}

#[test]
fn tells_what_is_due_where_the_text_is_cut_or_its_reader_or_writer_fails(rt: HostRuntime) {
    let carried = one_plate_text(rt.alloc(), 1).expect(&rt, "memory");
    let migrated = one_plate_text(rt.alloc(), 2).expect(&rt, "memory");
    for left in 0..carried.len() + 1 {
        tells_of_a_cut(
            &rt,
            rt.alloc(),
            carried.as_slice(),
            migrated.as_slice(),
            left,
        );
    }
}

// The entries of a text of one record a line.
fn entries_in(rt: &impl Abort, alloc: Global, text: &[u8]) -> Vec<Entry> {
    let text = str::from_utf8(text).ok().expect(rt, "the text is UTF-8");
    let mut entries = Vec::new(alloc);
    for record in text.split('\n') {
        if let Some(entry) = entry_of(record) {
            entries.push(entry).expect(rt, "memory");
        }
    }
    entries
}

// The views tell the same of the first two plates, of each axis and each light, and of the whole.
fn place_the_same(rt: &impl Abort, old: &[Entry], new: &[Entry]) {
    for &number in &[1, 2] {
        let plate = plate(number).expect(rt, "a plate");
        assert!(rt;
            place_of(new, plate) == place_of(old, plate),
            "plate {number}"
        );
    }
    for &axis in &AXES {
        assert!(rt; pose_of(new, axis) == pose_of(old, axis), "an axis");
    }
    for &belt in &BELTS {
        assert!(rt; lamp_of(new, belt) == lamp_of(old, belt), "a light");
    }
    assert!(rt; count_of(new) == count_of(old), "the totals");
    assert!(rt;
        expected_of(new) == expected_of(old),
        "the plate that is expected"
    );
}

// The views tell the same of each zone and each machine.
fn hold_the_same(rt: &impl Abort, old: &[Entry], new: &[Entry]) {
    for &zone in &ZONES {
        assert!(rt; holder_of(new, zone) == holder_of(old, zone), "a zone");
    }
    for &machine in &MACHINES {
        assert!(rt;
            is_failed(new, machine) == is_failed(old, machine),
            "a failure"
        );
        assert!(rt; is_asked(new, machine) == is_asked(old, machine), "a stop");
    }
}

// A text of so many entries is migrated, and the views tell the same of both texts' entries.
fn check_views(rt: &impl Abort, alloc: Global, text: &[u8], count: usize) {
    let mut written = Vec::new(alloc);
    let old = entries_in(rt, alloc, text);
    let answer = migrate(alloc, text, &mut written);
    assert!(rt; answer == Ok(count_of(old.as_slice())), "{count} entries");
    let new = entries_in(rt, alloc, written.as_slice());
    assert!(rt; old.len() == count && new.len() == count, "{count} entries");
    place_the_same(rt, old.as_slice(), new.as_slice());
    hold_the_same(rt, old.as_slice(), new.as_slice());
}

#[test]
fn keeps_what_the_views_tell(rt: HostRuntime) {
    for &records in &[ONE_PLATE.as_slice(), &LAID_BACK[..10]] {
        for place in 0..records.len() + 1 {
            let text = text_of(rt.alloc(), 1, &records[..place]).expect(&rt, "memory");
            check_views(&rt, rt.alloc(), text.as_slice(), place);
        }
    }
}

// What a migration of a reader's text answers, writes and tells.
fn prints<R: TellsFault + Drop>(
    rt: &impl Abort,
    alloc: Global,
    reader: R,
    status: u8,
    [migrated, line]: [&str; 2],
) {
    let mut written = Vec::new(alloc);
    let mut errors = Vec::new(alloc);
    let answer = migrate_lines(
        alloc,
        reader,
        &mut WatchedWriter::new(&mut written),
        &mut WatchedWriter::new(&mut errors),
    );
    assert!(rt;
        answer == Ok(status)
            && written.as_slice() == migrated.as_bytes()
            && errors.as_slice() == line.as_bytes(),
        "{migrated}{line}"
    );
}

#[test]
fn prints_the_line_of_a_refusal_elsewhere_and_ends_with_a_fault_of_its_reader_or_writers(
    rt: HostRuntime,
) {
    for &(text, status, migrated, line) in &PRINTED {
        prints(&rt, rt.alloc(), text, status, [migrated, line]);
    }
    let text = b"profile,1,,\nlamp,feed,green,\n".as_slice();
    let failing = FailingReader::new(text, 20);
    prints(&rt, rt.alloc(), Watched::new(failing), 3, ["", ""]);
    let mut taken = Vec::new(rt.alloc());
    let mut unwilling = Unwilling;
    let answer = migrate_lines(
        rt.alloc(),
        text,
        &mut WatchedWriter::new(&mut unwilling),
        &mut WatchedWriter::new(&mut taken),
    );
    assert!(rt; answer == Err(WriteFault), "the text isn't taken");
    let text = b"profile,2,,\n".as_slice();
    let answer = migrate_lines(
        rt.alloc(),
        text,
        &mut WatchedWriter::new(&mut taken),
        &mut WatchedWriter::new(&mut unwilling),
    );
    assert!(rt; answer == Err(WriteFault), "the line isn't taken");
    assert!(rt; taken.is_empty());
}
