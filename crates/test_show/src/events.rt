//! The tests of `cell_events`: the rows of short journals, worked by hand, traces and value change dumps, and writers
//! that fail.
use crate::measures::samples::journal_of;
use cell_events::{EventForm, EventsError, Site, events_of, write_events};
use cell_measures::Durations;
use cell_output::WatchedWriter;
use cell_types::{Axis, PlateId, Pose, Station};
use std::process::Abort;
use test_samples::{FailingWriter, LAID_BACK, ONE_PLATE};

// The text of a journal of these records in a form, where each motion takes one unit of time.
fn text_in<R: AllocGlobal + Abort>(rt: &R, records: &[&str], form: EventForm) -> String {
    let journal = journal_of(rt, records);
    let mut text = Vec::new(rt.alloc());
    let mut output = WatchedWriter::new(&mut text);
    let answer = write_events(rt.alloc(), &journal, &Durations::ONE, form, &mut output);
    assert!(rt; answer == Ok(()));
    String::from_utf8(text).expect(rt, "words")
}

const CARRIED: &str = "\
entry,begin,end,actor,kind,axis,pose,zone,plate,station,cause
1,0,0,feed,lamp,feed_belt,green,,,,
2,0,0,feed,admitted,,,,1,feed_in,
3,0,0,feed,started,feed_belt,to_end,,1,feed_in,
4,0,1,feed,conveyed,feed_belt,to_end,,1,feed_end,
5,1,1,feed,claimed,,,z1,1,feed_end,
6,1,1,feed,started,feed_belt,to_table,,1,feed_end,
7,1,2,feed,conveyed,feed_belt,to_table,,1,table,
8,2,2,feed,yielded,,,z1,,,
9,2,2,table,claimed,,,z1,1,table,
";

#[test]
fn rows_of_a_plate_that_is_carried(rt: HostRuntime) {
    let text = text_in(&rt, &ONE_PLATE[..9], EventForm::Csv);
    assert!(&rt; text.as_str() == CARRIED);
}

// The rows of later entries of the same journal.
#[test]
fn rows_of_a_plate_that_is_forged(rt: HostRuntime) {
    let text = text_in(&rt, &ONE_PLATE, EventForm::Csv);
    assert!(&rt; text.as_str().starts_with(CARRIED));
    assert!(&rt; text.as_str().lines().count() == 63);
    for row in &[
        "17,4,4,robot,claimed,,,z2,,,",
        "19,4,5,robot,arrived,arm_one,out,,,,",
        "20,5,5,robot,gripped,arm_one,,,1,table,",
        "26,6,7,robot,arrived,robot_turn,p1_load,,1,arm1,",
        "29,8,8,robot,dropped,arm_one,,,1,press1,",
        "35,9,10,press1,forged,press_one,top,,1,press1,",
        "59,17,18,deposit,conveyed,deposit_belt,to_end,,1,dep_end,",
        "61,18,18,deposit,lamp,deposit_belt,green,,,,",
        "62,18,18,deposit,delivered,,,,1,dep_end,",
    ] {
        assert!(&rt; text.as_str().lines().any(|line| line == *row), "{row}");
    }
}

const CLEARED: &str = "\
9,0,0,table,declared,,,,1,table,operator_stop
10,2,2,operator,quarantined,,,,1,table,
11,2,2,operator,expected,,,,1,,
12,2,2,feed,lamp,feed_belt,green,,,,
13,2,2,feed,reinstated,,,,1,feed_in,
";

#[test]
fn rows_of_a_plate_that_is_laid_back(rt: HostRuntime) {
    let text = text_in(&rt, &LAID_BACK, EventForm::Csv);
    assert!(&rt; text.as_str().ends_with(CLEARED));
}

const STOPPED: [&str; 6] = [
    "lamp,feed,green,",
    "admitted,7,,",
    "stop_asked,feed,,",
    "declared,feed,operator_stop,",
    "quarantined,7,feed_in,",
    "repaired,feed,,",
];

#[test]
fn rows_of_a_machine_that_is_stopped(rt: HostRuntime) {
    let text = text_in(&rt, &STOPPED, EventForm::Csv);
    assert!(&rt;
        text.as_str().ends_with(
            "3,0,0,operator,stop_asked,,,,7,feed,\n4,0,0,feed,declared,,,,7,feed_in,operator_stop\n\
        5,0,0,operator,quarantined,,,,7,feed_in,\n6,0,0,operator,repaired,,,,,feed,\n"
        )
    );
}

#[test]
fn a_journal_without_entries(rt: HostRuntime) {
    let text = text_in(&rt, &[], EventForm::Csv);
    assert!(&rt; text.as_str().lines().count() == 1);
    let trace = text_in(&rt, &[], EventForm::Trace);
    assert!(&rt; trace.as_str().lines().count() == 1 + 3 + 9 + 5 + 1);
    let dump = text_in(&rt, &[], EventForm::Vcd);
    assert!(&rt; dump.as_str().ends_with("0l0\n0l1\n$end\n"));
}

#[test]
fn times_that_are_set(rt: HostRuntime) {
    let mut durations = Durations::ONE;
    durations.set(Axis::FeedBelt, Pose::ToTable, 5);
    let journal = journal_of(&rt, &ONE_PLATE[..7]);
    let events = events_of(rt.alloc(), &journal, &durations).expect(&rt, "memory");
    let last = events.last().expect(&rt, "an event");
    assert!(&rt; (last.number, last.begin, last.end) == (7, 1, 6));
    assert!(&rt; last.place == Some(Site::Station(Station::Table)));
    assert!(&rt; last.plate == PlateId::new(1));
}

const SLICES: [&str; 8] = [
    "{\"name\":\"process_name\",\"ph\":\"M\",\"pid\":1,\"tid\":0,\"args\":{\"name\":\"machines\"}},",
    "{\"name\":\"thread_name\",\"ph\":\"M\",\"pid\":1,\"tid\":9,\"args\":{\"name\":\"deposit_belt\"}},",
    "{\"name\":\"thread_name\",\"ph\":\"M\",\"pid\":3,\"tid\":1,\"args\":{\"name\":\"plate 1\"}},",
    "{\"name\":\"to_end\",\"ph\":\"X\",\"pid\":1,\"tid\":1,\"ts\":0,\"dur\":1000,\"args\":{\"entry\":3}},",
    "{\"name\":\"feed_in\",\"ph\":\"X\",\"pid\":3,\"tid\":1,\"ts\":0,\"dur\":1000,\"args\":{\"entry\":2}},",
    "{\"name\":\"feed\",\"ph\":\"X\",\"pid\":2,\"tid\":1,\"ts\":1000,\"dur\":1000,\"args\":{\"entry\":5}},",
    "{\"name\":\"declared table operator_stop\",\"ph\":\"i\",\"s\":\"p\",\"pid\":1,\"tid\":2,\"ts\":0,\
     \"args\":{\"entry\":9}},",
    "{\"name\":\"table\",\"ph\":\"X\",\"pid\":3,\"tid\":1,\"ts\":2000,\"dur\":0,\"args\":{\"entry\":7}},",
];

#[test]
fn slices_and_marks(rt: HostRuntime) {
    let text = text_in(&rt, &LAID_BACK, EventForm::Trace);
    assert!(&rt;
        text.as_str()
            .starts_with("{\"traceEvents\":[\n{\"name\":\"process_name\"")
    );
    assert!(&rt; text.as_str().ends_with("\n],\"displayTimeUnit\":\"ms\"}\n"));
    for slice in &SLICES {
        assert!(&rt; text.as_str().lines().any(|line| line == *slice), "{slice}");
    }
}

// A motion that a failure ends lasts until its machine is repaired, and a zone that is held until the journal ends.
#[test]
fn what_still_lasts(rt: HostRuntime) {
    let records = [
        "claimed,table,z1,",
        "started,table_lift,high,",
        "started,press_one,top,",
        "declared,press1,no_departure,",
        "repaired,press1,,",
        "arrived,table_lift,high,",
    ];
    let text = text_in(&rt, &records, EventForm::Trace);
    for slice in &[
        "{\"name\":\"top\",\"ph\":\"X\",\"pid\":1,\"tid\":7,\"ts\":0,\"dur\":0,\"args\":{\"entry\":3}},",
        "{\"name\":\"repaired press1\",\"ph\":\"i\",\"s\":\"p\",\"pid\":1,\"tid\":7,\"ts\":0,\"args\":{\"entry\":5}},",
        "{\"name\":\"high\",\"ph\":\"X\",\"pid\":1,\"tid\":2,\"ts\":0,\"dur\":1000,\"args\":{\"entry\":2}},",
        "{\"name\":\"table\",\"ph\":\"X\",\"pid\":2,\"tid\":1,\"ts\":0,\"dur\":1000,\"args\":{\"entry\":1}}",
    ] {
        assert!(&rt; text.as_str().lines().any(|line| line == *slice), "{slice}");
    }
}

const FIRST_LINES: &str = "\
$timescale 1 ms $end
$scope module cell $end
$var string 1 a0 feed_belt $end
$var string 1 a1 table_lift $end
";

const CHANGES: &str = "\
$end
1l0
b1 s0
0l0
sto_end a0
#1
srest a0
b0 s0
b1 s1
sfeed z0
sto_table a0
#2
srest a0
b0 s1
b1 s2
s- z0
stable z0
";

#[test]
fn changes_of_variables(rt: HostRuntime) {
    let text = text_in(&rt, &ONE_PLATE[..9], EventForm::Vcd);
    assert!(&rt; text.as_str().starts_with(FIRST_LINES));
    assert!(&rt;
        text.as_str().contains("$var integer 32 s8 dep_end $end\n$var wire 1 m0 feed_failed $end\n")
    );
    assert!(&rt; text.as_str().contains("#0\n$dumpvars\nsrest a0\nslow a1\n"));
    assert!(&rt; text.as_str().ends_with(CHANGES));
    let failed = text_in(&rt, &STOPPED, EventForm::Vcd);
    assert!(&rt; failed.as_str().ends_with("b111 s0\n0l0\n1m0\nb0 s0\n0m0\n"));
}

// A writer that takes so many bytes has taken the first ones.
#[test]
fn a_writer_that_fails(rt: HostRuntime) {
    let journal = journal_of(&rt, &LAID_BACK);
    for form in [EventForm::Csv, EventForm::Trace, EventForm::Vcd] {
        let whole = text_in(&rt, &LAID_BACK, form);
        for left in [0, 1, 61, 62, 100, whole.len().saturating_sub(1)] {
            let mut writer = FailingWriter::new(Vec::new(rt.alloc()), left);
            let mut output = WatchedWriter::new(&mut writer);
            let answer = write_events(rt.alloc(), &journal, &Durations::ONE, form, &mut output);
            assert!(&rt; answer == Err(EventsError::WriteFault));
            assert!(&rt; whole.as_bytes().get(..left) == Some(writer.inner().as_slice()));
        }
    }
}
