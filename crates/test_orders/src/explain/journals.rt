//! What is said of journals: legal ones, refused ones and ones that can't be read.
use crate::explain::said::{Kind, check_texts};
use cell_explain::explain_journal;
use cell_output::{WatchedWriter, WriteFault};

// A legal journal has the lines of the audit.
const LEGAL: [(&str, &str); 2] = [
    (
        "profile,1,,\nlamp,feed,green,\nadmitted,1,,\n",
        "legal 2\nadmitted 1\nforged 0\nquarantined 0\ndelivered 0\n",
    ),
    (
        "profile,2,,\n",
        "legal 0\nadmitted 0\nforged 0\nquarantined 0\ndelivered 0\nreinstated 0\n",
    ),
];

// A refused entry is told with the one that made it so.
const REFUSED: [(&str, &str); 12] = [
    (
        "profile,1,,\nlamp,feed,green,\nadmitted,1,,\nadmitted,2,,\n",
        "line 4, entry 3: admitted,2,,: LampRed feed: the feed light is red, since entry 2 admitted plate 1\n",
    ),
    (
        "profile,1,,\nadmitted,1,,\n",
        "line 2, entry 1: admitted,1,,: LampRed feed: the feed light is red, from the start on\n",
    ),
    (
        "profile,1,,\nlamp,feed,green,\nadmitted,2,,\n",
        "line 3, entry 2: admitted,2,,: WrongPlate: the plate isn't the one that the entry has to name, from the \
            start on; the next plate is 1\n",
    ),
    (
        "profile,1,,\ndeclared,press2,silent,\nstarted,press_two,top,\n",
        "line 3, entry 2: started,press_two,top,: MachineFailed press2: press 2 is booked failed, since entry 1 \
            declared press 2 failed\n",
    ),
    (
        "profile,1,,\ndeclared,feed,silent,\nrepaired,feed,,\nrepaired,feed,,\n",
        "line 4, entry 3: repaired,feed,,: MachineHealthy feed: the feed belt isn't booked failed, since entry 2 \
            repaired the feed belt\n",
    ),
    (
        "profile,1,,\nclaimed,robot,z2,\nclaimed,table,z2,\n",
        "line 3, entry 2: claimed,table,z2,: ZoneTaken z2: zone z2 is held, since entry 1 claimed zone z2 for the \
            robot\n",
    ),
    (
        "profile,1,,\nclaimed,robot,z3,\nyielded,robot,z3,\nyielded,robot,z3,\n",
        "line 4, entry 3: yielded,robot,z3,: NotHolder z3: the machine doesn't hold zone z3, since entry 2 gave up \
            zone z3\n",
    ),
    (
        "profile,1,,\nclaimed,feed,z5,\n",
        "line 2, entry 1: claimed,feed,z5,: NotNeighbour: the machine has no part in the zone, or the arm doesn't \
            serve the station\n",
    ),
    (
        "profile,1,,\nclaimed,table,z1,\nclaimed,table,z2,\nstarted,table_lift,high,\nstarted,table_lift,low,\n",
        "line 5, entry 4: started,table_lift,low,: WrongPose table_lift: the table's lift isn't where it has to be, \
            moves, or has no such motion, since entry 3 sent the table's lift high; it goes high, and it has to stand \
            still\n",
    ),
    (
        "profile,1,,\nlamp,feed,green,\nadmitted,1,,\nlamp,feed,green,\n",
        "line 4, entry 3: lamp,feed,green,: StationFull feed_in: a plate is at the feed belt's start, since entry 2 \
            admitted plate 1\n",
    ),
    (
        "profile,1,,\nstop_asked,robot,,\nstop_asked,robot,,\n",
        "line 3, entry 2: stop_asked,robot,,: AlreadyAsked robot: a stop of the robot is asked already, since entry 1 \
            asked the robot to stop\n",
    ),
    (
        "profile,1,,\nforged,table,1,\n",
        "line 2, entry 1: forged,table,1,: NoPress: the machine isn't a press\n",
    ),
];

// An axis that isn't where an entry needs it is told with where it is, and what the entry needs.
const OUT_OF_PLACE: [(&str, &str); 7] = [
    (
        "profile,1,,\nclaimed,table,z1,\nclaimed,table,z2,\nstarted,table_lift,low,\n",
        "line 4, entry 3: started,table_lift,low,: WrongPose table_lift: the table's lift isn't where it has to be, \
            moves, or has no such motion, from the start on; its pose is low already\n",
    ),
    (
        "profile,1,,\nclaimed,press1,z3,\nstarted,press_one,bottom,\n",
        "line 3, entry 2: started,press_one,bottom,: WrongPose press_one: press 1 isn't where it has to be, moves, or \
            has no such motion, from the start on; its pose is middle, and its pose has to be top\n",
    ),
    (
        "profile,1,,\nstarted,feed_belt,low,\n",
        "line 2, entry 1: started,feed_belt,low,: WrongPose feed_belt: the feed belt isn't where it has to be, moves, \
            or has no such motion, from the start on; it has no such motion\n",
    ),
    (
        "profile,1,,\nforged,press1,1,\n",
        "line 2, entry 1: forged,press1,1,: WrongPose press_one: press 1 isn't where it has to be, moves, or has no \
            such motion, from the start on; its pose is middle, and it has to be going to the top\n",
    ),
    (
        "profile,1,,\ngripped,arm1,1,table\n",
        "line 2, entry 1: gripped,arm1,1,table: WrongPose arm_one: arm 1 isn't where it has to be, moves, or has no \
            such motion, from the start on; its pose is in, and its pose has to be out\n",
    ),
    (
        "profile,1,,\ndropped,arm1,1,press1\n",
        "line 2, entry 1: dropped,arm1,1,press1: WrongPose robot_turn: the robot's turn isn't where it has to be, \
            moves, or has no such motion, from the start on; its pose is at the table, and it has to face press 1\n",
    ),
    (
        "profile,1,,\nclaimed,robot,z2,\nstarted,arm_one,out,\n",
        "line 3, entry 2: started,arm_one,out,: WrongPose table_lift: the table's lift isn't where it has to be, \
            moves, or has no such motion, from the start on; its pose is low, and its pose has to be high\n",
    ),
];

// A plate that isn't expected is told by its last entry.
const NOT_EXPECTED: [(&str, &str); 3] = [
    (
        "profile,2,,\nlamp,feed,green,\nadmitted,1,,\nexpected,1,,\n",
        "line 4, entry 3: expected,1,,: WrongPlate: the plate isn't the one that the entry has to name, since entry 2 \
            admitted plate 1\n",
    ),
    (
        "profile,2,,\nlamp,feed,green,\nadmitted,1,,\ndeclared,feed,silent,\nquarantined,1,feed_in,\nexpected,1,\
            ,\nexpected,1,,\n",
        "line 7, entry 6: expected,1,,: PlateExpected: a plate is expected back, since entry 5 expected plate 1 back\n",
    ),
    (
        "profile,2,,\nreinstated,1,,\n",
        "line 2, entry 1: reinstated,1,,: WrongPlate: the plate isn't the one that the entry has to name, from the \
            start on; no plate is expected\n",
    ),
];

// A record that can't be read is told by its field.
const UNREADABLE: [(&str, &str); 13] = [
    (
        "",
        "line 1: the first record is profile,1,, or profile,2,,\n",
    ),
    (
        "\n\nprofile,3,,\n",
        "line 3: the first record is profile,1,, or profile,2,,\n",
    ),
    (
        "profile,1,,\nconveyed,feed_belt,1,tabel\n",
        "line 2, entry 1: conveyed,feed_belt,1,tabel: field 4: one of feed_in, feed_end, table, arm1, arm2, press1, \
            press2, dep_in, dep_end\n",
    ),
    (
        "profile,1,,\nlamp,fed,green,\n",
        "line 2, entry 1: lamp,fed,green,: field 2: one of feed, deposit\n",
    ),
    (
        "profile,1,,\nadmitted,0,,\n",
        "line 2, entry 1: admitted,0,,: field 2: a number from 1 to 100000, in digits alone, with no 0 in front\n",
    ),
    (
        "profile,1,,\nclaimed,feed,z6,\n",
        "line 2, entry 1: claimed,feed,z6,: field 3: one of z1, z2, z3, z4, z5\n",
    ),
    (
        "profile,1,,\nadmitted,1,,x\n",
        "line 2, entry 1: admitted,1,,x: field 4: nothing\n",
    ),
    (
        "profile,1,,\nexpected,1,,\n",
        "line 2, entry 1: expected,1,,: field 1: one of lamp, admitted, claimed, yielded, started, arrived, conveyed, \
            forged, gripped, dropped, delivered, declared, stop_asked, quarantined, repaired\n",
    ),
    (
        "profile,1,,\n\nlamp,feed,green,\r\n\r\n1,2,3,4,5,6\n",
        "line 5, entry 2: six fields, and not four\n",
    ),
    (
        "profile,1,,\nlamp",
        "line 2, entry 1: one field, and not four\n",
    ),
    (
        "\u{feff}profile,2,,\n\"lamp\",feed,\"gre\nen\",\n",
        "line 2, entry 1: \"lamp\",feed,\"gre.en\",: field 3: one of red, green\n",
    ),
    (
        "profile,2,,\nlamp,feed,\"green,\nadmitted,1,,\n",
        "line 2, entry 1: lamp,feed,\"green,.admitted,1,,.: a quote isn't closed\n",
    ),
    (
        "profile,2,,\nlamp,\u{1b}[31mfeed0123456789012345678901234567890123456789012345678901234567890123456789,\
            green,\n",
        "line 2, entry 1: lamp,.[31mfeed012345678901234567890123456789012345678901234567890123456789012345...: field \
            2: one of feed, deposit\n",
    ),
];

#[test]
fn a_journal_is_explained(rt: HostRuntime) {
    check_texts(&rt, Kind::Journal, 0, &LEGAL);
    check_texts(&rt, Kind::Journal, 1, &REFUSED);
    check_texts(&rt, Kind::Journal, 1, &OUT_OF_PLACE);
    check_texts(&rt, Kind::Journal, 1, &NOT_EXPECTED);
    check_texts(&rt, Kind::Journal, 1, &UNREADABLE);
}

#[test]
fn a_writer_that_fails_is_told_of(rt: HostRuntime) {
    let text = b"profile,1,,\nadmitted,1,,\n".as_slice();
    for &len in &[0, 1, 10, 60] {
        let mut room = [0; 60];
        let mut writer = &mut room[..len];
        let answer = explain_journal(rt.alloc(), text, &mut WatchedWriter::new(&mut writer));
        assert!(rt; answer == Err(WriteFault), "{len} bytes: {answer:?}");
    }
}
