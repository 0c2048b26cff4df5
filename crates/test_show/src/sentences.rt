//! A sentence of each kind of entry and of each refusal, and the names of poses.
use cell_sentences::{EntrySentence, RefusalSentence, pose_name};
use cell_types::{Axis, Belt, Machine, Pose, Station, Zone};
use plate_book::Refusal;
use std::fmt::Display;
use std::process::Abort;
use test_samples::entry_of;

// An entry is a sentence with its actor first.
const ENTRIES: [(&str, &str); 18] = [
    ("lamp,feed,green,", "feed belt: its light turns green"),
    ("admitted,3,,", "feed belt: plate 3 is admitted"),
    ("claimed,robot,z2,", "robot: claims zone z2"),
    ("yielded,press1,z3,", "press 1: gives up zone z3"),
    ("started,arm_one,out,", "robot: arm 1 starts to go out"),
    ("started,press_two,top,", "press 2: starts to go to the top"),
    ("arrived,table_lift,high,", "table: the lift has gone high"),
    (
        "conveyed,feed_belt,3,table",
        "feed belt: brings plate 3 to the table",
    ),
    ("forged,press1,2,", "press 1: forges plate 2"),
    (
        "gripped,arm1,1,table",
        "robot: arm 1 grips plate 1 at the table",
    ),
    (
        "dropped,arm2,1,dep_in",
        "robot: arm 2 drops plate 1 at the deposit belt's start",
    ),
    (
        "delivered,100000,,",
        "deposit belt: plate 100000 leaves the cell",
    ),
    (
        "declared,robot,silent,",
        "robot: is declared failed, since its readings are missing",
    ),
    ("stop_asked,press2,,", "operator: asks press 2 to stop"),
    (
        "quarantined,1,table,",
        "operator: takes plate 1 from the table into quarantine",
    ),
    ("repaired,press2,,", "operator: press 2 is repaired"),
    ("expected,1,,", "operator: plate 1 is expected back"),
    ("reinstated,1,,", "feed belt: plate 1 is laid back"),
];

// A refusal is a sentence of what is so.
const REFUSALS: [(Refusal, &str); 20] = [
    (Refusal::JournalFull, "the journal is full"),
    (
        Refusal::PlateLimit,
        "as many plates are admitted as the limit allows",
    ),
    (
        Refusal::MachineFailed(Machine::Press2),
        "press 2 is booked failed",
    ),
    (
        Refusal::MachineHealthy(Machine::Feed),
        "the feed belt isn't booked failed",
    ),
    (
        Refusal::OwnerFailed(Machine::Table),
        "the table, the owner, is booked failed",
    ),
    (
        Refusal::WrongPose(Axis::TableLift),
        "the table's lift isn't where it has to be, moves, or has no such motion",
    ),
    (Refusal::ZoneTaken(Zone::Z1), "zone z1 is held"),
    (
        Refusal::NotHolder(Zone::Z5),
        "the machine doesn't hold zone z5",
    ),
    (
        Refusal::NotNeighbour,
        "the machine has no part in the zone, or the arm doesn't serve the station",
    ),
    (
        Refusal::StationEmpty(Station::DepEnd),
        "no plate is at the deposit belt's end",
    ),
    (
        Refusal::StationFull(Station::FeedIn),
        "a plate is at the feed belt's start",
    ),
    (
        Refusal::WrongPlate,
        "the plate isn't the one that the entry has to name",
    ),
    (Refusal::LampRed(Belt::Feed), "the feed light is red"),
    (
        Refusal::LampAlready(Belt::Deposit),
        "the deposit light has that colour already",
    ),
    (Refusal::NoPress, "the machine isn't a press"),
    (
        Refusal::AlreadyAsked(Machine::Robot),
        "a stop of the robot is asked already",
    ),
    (
        Refusal::PlateStillThere(Station::Arm2),
        "a plate is still at arm 2",
    ),
    (Refusal::PlateExpected, "a plate is expected back"),
    (
        Refusal::NotReturnable,
        "the plate was cleared from a station that isn't before a press",
    ),
    (Refusal::OutOfMemory, "memory was refused"),
];

const POSES: [(Pose, &str); 2] = [
    (Pose::P1Load, "at press 1 to load it"),
    (Pose::Middle, "middle"),
];

fn is_shown<S: Display, W: AllocGlobal + Abort>(rt: &W, shown: &S, wanted: &str) {
    let said = format!(in rt.alloc(); "{shown}").expect(rt, "memory");
    assert!(rt; said.as_str() == wanted, "{said}, and not: {wanted}");
}

#[test]
fn entries_and_refusals_are_sentences(rt: HostRuntime) {
    for &(record, wanted) in &ENTRIES {
        let entry = entry_of(record).expect(&rt, record);
        is_shown(&rt, &EntrySentence(entry), wanted);
    }
    for &(why, wanted) in &REFUSALS {
        is_shown(&rt, &RefusalSentence(why), wanted);
    }
    for &(pose, wanted) in &POSES {
        is_shown(&rt, &pose_name(pose), wanted);
    }
}
