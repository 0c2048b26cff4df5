//! The one order of refusals: for each two refusals that an entry can meet together, a case in which the first is
//! answered while both conditions hold. docs/ORDER.md lists the pairs, in the order of these cases.
use crate::book::all_answer;
use test_samples::ONE_PLATE;

// A case: the limits of entries and plates, how many entries of the one plate's journal come first, the records that
// follow, the record that is refused, and the refusal.

const ADMITTED: [&str; 15] = [
    "2 1 2||admitted,1,,|JournalFull",
    "1 10 0|declared,feed,silent,|admitted,1,,|JournalFull",
    "1 10 1||admitted,2,,|JournalFull",
    "2 10 2||admitted,1,,|JournalFull",
    "5 10 2|declared,feed,silent, quarantined,1,feed_in expected,1,,|admitted,2,,|JournalFull",
    "100 1 2|declared,feed,silent,|admitted,1,,|PlateLimit",
    "100 1 2||admitted,1,,|PlateLimit",
    "100 1 2||admitted,1,,|PlateLimit",
    "100 1 2|declared,feed,silent, quarantined,1,feed_in expected,1,,|admitted,2,,|PlateLimit",
    "100 10 0|declared,feed,silent,|admitted,2,,|MachineFailed feed",
    "100 10 0|declared,feed,silent,|admitted,1,,|MachineFailed feed",
    "100 10 2|declared,feed,silent, quarantined,1,feed_in expected,1,,|admitted,2,,|MachineFailed feed",
    "100 10 0||admitted,2,,|WrongPlate",
    "100 10 2|declared,feed,silent, quarantined,1,feed_in expected,1,, repaired,feed,, \
        lamp,feed,green,|admitted,3,,|WrongPlate",
    "100 10 2|declared,feed,silent, quarantined,1,feed_in expected,1,, repaired,feed,,|admitted,2,,|LampRed feed",
];

const ARRIVED: [&str; 3] = [
    "1 10 0|declared,press2,silent,|arrived,press_two,rest,|JournalFull",
    "1 10 1||arrived,feed_belt,rest,|JournalFull",
    "100 10 0|declared,press2,silent,|arrived,press_two,rest,|MachineFailed press2",
];

const CLAIMED: [&str; 9] = [
    "1 10 0|declared,press2,silent,|claimed,press2,z1,|JournalFull",
    "1 10 0|declared,press2,silent,|claimed,robot,z4,|JournalFull",
    "5 10 5||claimed,feed,z1,|JournalFull",
    "1 10 1||claimed,feed,z2,|JournalFull",
    "100 10 0|declared,press2,silent, declared,robot,silent,|claimed,robot,z4,|MachineFailed robot",
    "100 10 5|declared,feed,silent,|claimed,feed,z1,|MachineFailed feed",
    "100 10 0|declared,press2,silent,|claimed,press2,z1,|MachineFailed press2",
    "100 10 5|declared,table,silent,|claimed,feed,z1,|OwnerFailed table",
    "100 10 5||claimed,robot,z1,|ZoneTaken z1",
];

const CONVEYED: [&str; 6] = [
    "1 10 0|declared,robot,silent,|conveyed,arm_one,1,feed_end|JournalFull",
    "1 10 1||conveyed,feed_belt,1,feed_end|JournalFull",
    "1 10 1||conveyed,feed_belt,1,feed_end|JournalFull",
    "100 10 0|declared,robot,silent,|conveyed,arm_one,1,feed_end|MachineFailed robot",
    "100 10 0|declared,deposit,silent,|conveyed,deposit_belt,1,dep_end|MachineFailed deposit",
    "100 10 0||conveyed,feed_belt,1,feed_end|WrongPose feed_belt",
];

const DELIVERED: [&str; 6] = [
    "1 10 0|declared,deposit,silent,|delivered,1,,|JournalFull",
    "59 10 59||delivered,2,,|JournalFull",
    "1 10 1||delivered,1,,|JournalFull",
    "100 10 59|declared,deposit,silent,|delivered,2,,|MachineFailed deposit",
    "100 10 0|declared,deposit,silent,|delivered,1,,|MachineFailed deposit",
    "100 10 59||delivered,2,,|WrongPlate",
];

const DROPPED: [&str; 23] = [
    "1 10 0|declared,robot,silent,|dropped,arm1,1,press1|JournalFull",
    "1 10 0|declared,press2,silent,|dropped,arm1,1,press2|JournalFull",
    "1 10 1||dropped,arm1,1,press1|JournalFull",
    "1 10 1||dropped,arm1,1,press1|JournalFull",
    "29 10 29||dropped,arm1,1,press1|JournalFull",
    "20 10 20||dropped,arm1,2,press1|JournalFull",
    "100 10 0|declared,press2,silent, declared,robot,silent,|dropped,arm1,1,press2|MachineFailed robot",
    "100 10 0|declared,robot,silent,|dropped,arm1,1,press1|MachineFailed robot",
    "100 10 0|declared,robot,silent,|dropped,arm1,1,press1|MachineFailed robot",
    "100 10 29|declared,robot,silent,|dropped,arm1,1,press1|MachineFailed robot",
    "100 10 20|declared,robot,silent,|dropped,arm1,2,press1|MachineFailed robot",
    "100 10 0|declared,press2,silent,|dropped,arm1,1,press2|OwnerFailed press2",
    "100 10 0|declared,press2,silent,|dropped,arm1,1,press2|OwnerFailed press2",
    "100 10 29|declared,press1,silent,|dropped,arm1,1,press1|OwnerFailed press1",
    "100 10 20|declared,press2,silent,|dropped,arm1,2,press2|OwnerFailed press2",
    "100 10 0||dropped,arm1,1,press1|WrongPose robot_turn",
    "100 10 30||dropped,arm1,1,press1|WrongPose arm_one",
    "100 10 20||dropped,arm1,2,press1|WrongPose robot_turn",
    "100 10 29||dropped,arm1,1,press1|StationEmpty arm1",
    "100 10 31|yielded,robot,z3, claimed,table,z1, claimed,table,z2, started,table_lift,low, arrived,table_lift,low, \
        started,table_turn,belt, arrived,table_turn,belt, yielded,table,z1, yielded,table,z2, lamp,feed,green, \
        admitted,2,, started,feed_belt,to_end, conveyed,feed_belt,2,feed_end claimed,feed,z1, \
        started,feed_belt,to_table, conveyed,feed_belt,2,table yielded,feed,z1, claimed,table,z1, claimed,table,z2, \
        started,table_lift,high, arrived,table_lift,high, started,table_turn,robot, arrived,table_turn,robot, \
        yielded,table,z1, yielded,table,z2, started,robot_turn,table1, arrived,robot_turn,table1, claimed,robot,z2, \
        started,arm_one,out, arrived,arm_one,out, gripped,arm1,2,table started,arm_one,in, arrived,arm_one,in, \
        claimed,robot,z3, started,robot_turn,p1_load, arrived,robot_turn,p1_load, started,arm_one,out, \
        arrived,arm_one,out,|dropped,arm1,1,press1|StationFull press1",
    "1 10 0|declared,robot,silent,|dropped,arm1,1,feed_in|JournalFull",
    "1 10 1||dropped,arm1,1,feed_in|JournalFull",
    "100 10 0|declared,robot,silent,|dropped,arm1,1,feed_in|MachineFailed robot",
];

const EXPECTED: [&str; 9] = [
    "1 10 0|declared,press2,silent,|expected,1,,|JournalFull",
    "6 10 2|declared,feed,silent, quarantined,1,feed_in repaired,feed,, lamp,feed,green,|expected,1,,|JournalFull",
    "5 10 2|declared,feed,silent, quarantined,1,feed_in expected,1,,|expected,1,,|JournalFull",
    "34 10 32|declared,press1,silent, quarantined,1,press1|expected,1,,|JournalFull",
    "100 10 1||expected,1,,|WrongPlate",
    "100 10 2|declared,feed,silent, quarantined,1,feed_in expected,1,,|expected,2,,|WrongPlate",
    "100 10 2|declared,feed,silent, quarantined,1,feed_in expected,1,, repaired,feed,, \
        lamp,feed,green,|expected,1,,|LampAlready feed",
    "100 10 32|declared,press1,silent, quarantined,1,press1 lamp,feed,green,|expected,1,,|LampAlready feed",
    "100 10 32|declared,press1,silent, quarantined,1,press1 lamp,feed,green, admitted,2,, declared,feed,silent, \
        quarantined,2,feed_in expected,2,,|expected,1,,|PlateExpected",
];

const FORGED: [&str; 9] = [
    "1 10 0|declared,table,silent,|forged,table,1,|JournalFull",
    "1 10 1||forged,feed,1,|JournalFull",
    "100 10 0|declared,table,silent,|forged,table,1,|MachineFailed table",
    "1 10 0|declared,press2,silent,|forged,press2,1,|JournalFull",
    "1 10 1||forged,press1,1,|JournalFull",
    "1 10 1||forged,press1,1,|JournalFull",
    "100 10 0|declared,press2,silent,|forged,press2,1,|MachineFailed press2",
    "100 10 0|declared,press2,silent,|forged,press2,1,|MachineFailed press2",
    "100 10 0||forged,press1,1,|WrongPose press_one",
];

const GRIPPED: [&str; 23] = [
    "1 10 0|declared,robot,silent,|gripped,arm1,1,table|JournalFull",
    "1 10 0|declared,press2,silent,|gripped,arm2,1,press2|JournalFull",
    "1 10 1||gripped,arm1,1,table|JournalFull",
    "1 10 1||gripped,arm1,1,table|JournalFull",
    "20 10 20||gripped,arm1,1,table|JournalFull",
    "7 10 7||gripped,arm1,2,table|JournalFull",
    "100 10 0|declared,press2,silent, declared,robot,silent,|gripped,arm2,1,press2|MachineFailed robot",
    "100 10 0|declared,robot,silent,|gripped,arm1,1,table|MachineFailed robot",
    "100 10 0|declared,robot,silent,|gripped,arm1,1,table|MachineFailed robot",
    "100 10 20|declared,robot,silent,|gripped,arm1,1,table|MachineFailed robot",
    "100 10 7|declared,robot,silent,|gripped,arm1,2,table|MachineFailed robot",
    "100 10 0|declared,press2,silent,|gripped,arm2,1,press2|OwnerFailed press2",
    "100 10 0|declared,press2,silent,|gripped,arm2,1,press2|OwnerFailed press2",
    "100 10 20|declared,table,silent,|gripped,arm1,1,table|OwnerFailed table",
    "100 10 7|declared,table,silent,|gripped,arm1,2,table|OwnerFailed table",
    "100 10 0||gripped,arm1,1,table|WrongPose arm_one",
    "100 10 21||gripped,arm1,1,table|WrongPose arm_one",
    "100 10 7||gripped,arm1,2,table|WrongPose arm_one",
    "100 10 20||gripped,arm1,1,table|StationEmpty table",
    "100 10 22|yielded,robot,z2, claimed,table,z1, claimed,table,z2, started,table_lift,low, arrived,table_lift,low, \
        started,table_turn,belt, arrived,table_turn,belt, yielded,table,z1, yielded,table,z2, lamp,feed,green, \
        admitted,2,, started,feed_belt,to_end, conveyed,feed_belt,2,feed_end claimed,feed,z1, \
        started,feed_belt,to_table, conveyed,feed_belt,2,table yielded,feed,z1, claimed,table,z1, claimed,table,z2, \
        started,table_lift,high, arrived,table_lift,high, started,table_turn,robot, arrived,table_turn,robot, \
        yielded,table,z1, yielded,table,z2, claimed,robot,z2, started,arm_one,out, \
        arrived,arm_one,out,|gripped,arm1,1,table|StationFull arm1",
    "1 10 0|declared,robot,silent,|gripped,arm1,1,feed_in|JournalFull",
    "1 10 1||gripped,arm1,1,feed_in|JournalFull",
    "100 10 0|declared,robot,silent,|gripped,arm1,1,feed_in|MachineFailed robot",
];

const LAMP: [&str; 17] = [
    "1 10 0|declared,deposit,silent,|lamp,deposit,green,|JournalFull",
    "58 10 58||lamp,deposit,green,|JournalFull",
    "1 10 1||lamp,deposit,green,|JournalFull",
    "61 10 61||lamp,deposit,green,|JournalFull",
    "100 10 58|declared,deposit,silent,|lamp,deposit,green,|MachineFailed deposit",
    "100 10 0|declared,deposit,silent,|lamp,deposit,green,|MachineFailed deposit",
    "100 10 58||lamp,deposit,green,|WrongPose deposit_belt",
    "1 10 0|declared,feed,silent,|lamp,feed,green,|JournalFull",
    "3 10 3||lamp,feed,green,|JournalFull",
    "2 10 2||lamp,feed,green,|JournalFull",
    "1 10 1||lamp,feed,green,|JournalFull",
    "100 10 3|declared,feed,silent,|lamp,feed,green,|MachineFailed feed",
    "100 10 2|declared,feed,silent,|lamp,feed,green,|MachineFailed feed",
    "100 10 3||lamp,feed,green,|WrongPose feed_belt",
    "1 10 0|declared,deposit,silent,|lamp,deposit,red,|JournalFull",
    "1 10 1||lamp,deposit,red,|JournalFull",
    "100 10 0|declared,deposit,silent,|lamp,deposit,red,|MachineFailed deposit",
];

const QUARANTINED: [&str; 9] = [
    "1 10 1||quarantined,1,feed_in|JournalFull",
    "5 10 5||quarantined,1,table|JournalFull",
    "1 10 1||quarantined,1,feed_in|JournalFull",
    "2 10 2||quarantined,2,feed_in|JournalFull",
    "100 10 5||quarantined,1,table|MachineHealthy table",
    "100 10 0||quarantined,1,feed_in|MachineHealthy feed",
    "100 10 2||quarantined,2,feed_in|MachineHealthy feed",
    "100 10 5|declared,table,silent,|quarantined,1,table|ZoneTaken z1",
    "100 10 7|declared,table,silent,|quarantined,2,table|ZoneTaken z1",
];

const REINSTATED: [&str; 6] = [
    "1 10 0|declared,feed,silent,|reinstated,1,,|JournalFull",
    "1 10 1||reinstated,1,,|JournalFull",
    "6 10 2|declared,feed,silent, quarantined,1,feed_in expected,1,, repaired,feed,,|reinstated,1,,|JournalFull",
    "100 10 0|declared,feed,silent,|reinstated,1,,|MachineFailed feed",
    "100 10 2|declared,feed,silent, quarantined,1,feed_in expected,1,,|reinstated,1,,|MachineFailed feed",
    "100 10 0||reinstated,1,,|WrongPlate",
];

const REPAIRED: [&str; 6] = [
    "1 10 1||repaired,feed,,|JournalFull",
    "5 10 5||repaired,table,,|JournalFull",
    "2 10 2||repaired,feed,,|JournalFull",
    "100 10 5||repaired,table,,|MachineHealthy table",
    "100 10 2||repaired,feed,,|MachineHealthy feed",
    "100 10 7|declared,table,silent,|repaired,table,,|ZoneTaken z1",
];

const STARTED: [&str; 94] = [
    "1 10 0|declared,robot,silent,|started,arm_one,in,|JournalFull",
    "1 10 1||started,arm_one,in,|JournalFull",
    "100 10 0|declared,robot,silent,|started,arm_one,in,|MachineFailed robot",
    "1 10 0|declared,robot,silent,|started,arm_one,out,|JournalFull",
    "1 10 0|declared,table,silent,|started,arm_one,out,|JournalFull",
    "1 10 1||started,arm_one,out,|JournalFull",
    "1 10 1||started,arm_one,out,|JournalFull",
    "100 10 1|declared,table,silent, declared,robot,silent,|started,arm_one,out,|MachineFailed robot",
    "100 10 0|declared,robot,silent,|started,arm_one,out,|MachineFailed robot",
    "100 10 0|declared,robot,silent,|started,arm_one,out,|MachineFailed robot",
    "100 10 0|declared,table,silent,|started,arm_one,out,|OwnerFailed table",
    "100 10 0|declared,table,silent,|started,arm_one,out,|OwnerFailed table",
    "100 10 0||started,arm_one,out,|WrongPose table_lift",
    "1 10 0|declared,deposit,silent,|started,deposit_belt,to_end,|JournalFull",
    "58 10 58||started,deposit_belt,to_end,|JournalFull",
    "1 10 1||started,deposit_belt,to_end,|JournalFull",
    "1 10 1||started,deposit_belt,to_end,|JournalFull",
    "59 10 59||started,deposit_belt,to_end,|JournalFull",
    "100 10 58|declared,deposit,silent,|started,deposit_belt,to_end,|MachineFailed deposit",
    "100 10 0|declared,deposit,silent,|started,deposit_belt,to_end,|MachineFailed deposit",
    "100 10 0|declared,deposit,silent,|started,deposit_belt,to_end,|MachineFailed deposit",
    "100 10 59|declared,deposit,silent,|started,deposit_belt,to_end,|MachineFailed deposit",
    "100 10 0||started,deposit_belt,to_end,|NotHolder z5",
    "100 10 60||started,deposit_belt,to_end,|NotHolder z5",
    "100 10 59||started,deposit_belt,to_end,|StationEmpty dep_in",
    "1 10 0|declared,feed,silent,|started,feed_belt,to_end,|JournalFull",
    "3 10 3||started,feed_belt,to_end,|JournalFull",
    "1 10 1||started,feed_belt,to_end,|JournalFull",
    "4 10 4||started,feed_belt,to_end,|JournalFull",
    "100 10 3|declared,feed,silent,|started,feed_belt,to_end,|MachineFailed feed",
    "100 10 0|declared,feed,silent,|started,feed_belt,to_end,|MachineFailed feed",
    "100 10 4|declared,feed,silent,|started,feed_belt,to_end,|MachineFailed feed",
    "100 10 6||started,feed_belt,to_end,|WrongPose feed_belt",
    "100 10 6||started,feed_belt,to_end,|WrongPose feed_belt",
    "100 10 4||started,feed_belt,to_end,|StationEmpty feed_in",
    "1 10 0|declared,feed,silent,|started,feed_belt,to_table,|JournalFull",
    "1 10 0|declared,table,silent,|started,feed_belt,to_table,|JournalFull",
    "3 10 3||started,feed_belt,to_table,|JournalFull",
    "1 10 1||started,feed_belt,to_table,|JournalFull",
    "1 10 1||started,feed_belt,to_table,|JournalFull",
    "7 10 7||started,feed_belt,to_table,|JournalFull",
    "100 10 2|declared,table,silent, declared,feed,silent,|started,feed_belt,to_table,|MachineFailed feed",
    "100 10 3|declared,feed,silent,|started,feed_belt,to_table,|MachineFailed feed",
    "100 10 0|declared,feed,silent,|started,feed_belt,to_table,|MachineFailed feed",
    "100 10 0|declared,feed,silent,|started,feed_belt,to_table,|MachineFailed feed",
    "100 10 8|declared,feed,silent,|started,feed_belt,to_table,|MachineFailed feed",
    "100 10 3|declared,table,silent,|started,feed_belt,to_table,|OwnerFailed table",
    "100 10 0|declared,table,silent,|started,feed_belt,to_table,|OwnerFailed table",
    "100 10 0|declared,table,silent,|started,feed_belt,to_table,|OwnerFailed table",
    "100 10 7|declared,table,silent,|started,feed_belt,to_table,|OwnerFailed table",
    "100 10 3||started,feed_belt,to_table,|WrongPose feed_belt",
    "100 10 3||started,feed_belt,to_table,|WrongPose feed_belt",
    "100 10 11||started,feed_belt,to_table,|WrongPose table_lift",
    "100 10 0||started,feed_belt,to_table,|NotHolder z1",
    "100 10 8||started,feed_belt,to_table,|NotHolder z1",
    "100 10 7||started,feed_belt,to_table,|StationEmpty feed_end",
    "1 10 0|declared,press2,silent,|started,press_two,rest,|JournalFull",
    "1 10 1||started,feed_belt,rest,|JournalFull",
    "100 10 0|declared,press2,silent,|started,press_two,rest,|MachineFailed press2",
    "1 10 0|declared,press2,silent,|started,press_two,bottom,|JournalFull",
    "1 10 1||started,press_one,bottom,|JournalFull",
    "1 10 1||started,press_one,bottom,|JournalFull",
    "100 10 0|declared,press2,silent,|started,press_two,bottom,|MachineFailed press2",
    "100 10 0|declared,press2,silent,|started,press_two,bottom,|MachineFailed press2",
    "100 10 0||started,press_one,bottom,|WrongPose press_one",
    "1 10 0|declared,press2,silent,|started,press_two,middle,|JournalFull",
    "1 10 1||started,press_one,middle,|JournalFull",
    "1 10 1||started,press_one,middle,|JournalFull",
    "29 10 29||started,press_one,middle,|JournalFull",
    "100 10 0|declared,press2,silent,|started,press_two,middle,|MachineFailed press2",
    "100 10 0|declared,press2,silent,|started,press_two,middle,|MachineFailed press2",
    "100 10 29|declared,press1,silent,|started,press_one,middle,|MachineFailed press1",
    "100 10 0||started,press_one,middle,|WrongPose press_one",
    "100 10 29||started,press_one,middle,|WrongPose press_one",
    "100 10 38||started,press_one,middle,|NotHolder z3",
    "1 10 0|declared,press2,silent,|started,press_two,top,|JournalFull",
    "34 10 34||started,press_one,top,|JournalFull",
    "1 10 1||started,press_one,top,|JournalFull",
    "1 10 1||started,press_one,top,|JournalFull",
    "100 10 34|declared,press1,silent,|started,press_one,top,|MachineFailed press1",
    "100 10 0|declared,press2,silent,|started,press_two,top,|MachineFailed press2",
    "100 10 0|declared,press2,silent,|started,press_two,top,|MachineFailed press2",
    "100 10 38||started,press_one,top,|WrongPose press_one",
    "100 10 44||started,press_one,top,|WrongPose press_one",
    "100 10 0||started,press_one,top,|NotHolder z3",
    "1 10 0|declared,robot,silent,|started,robot_turn,rest,|JournalFull",
    "1 10 1||started,robot_turn,rest,|JournalFull",
    "100 10 0|declared,robot,silent,|started,robot_turn,rest,|MachineFailed robot",
    "1 10 0|declared,table,silent,|started,table_lift,rest,|JournalFull",
    "1 10 1||started,table_lift,rest,|JournalFull",
    "1 10 1||started,table_lift,rest,|JournalFull",
    "100 10 0|declared,table,silent,|started,table_lift,rest,|MachineFailed table",
    "100 10 0|declared,table,silent,|started,table_lift,rest,|MachineFailed table",
    "100 10 0||started,table_lift,rest,|WrongPose table_lift",
];

const STOP_ASKED: [&str; 2] = [
    "1 10 0|declared,press2,silent,|stop_asked,press2,,|JournalFull",
    "1 10 0|stop_asked,press1,,|stop_asked,press1,,|JournalFull",
];

const YIELDED: [&str; 6] = [
    "1 10 0|declared,press2,silent,|yielded,press2,z1,|JournalFull",
    "3 10 3||yielded,feed,z1,|JournalFull",
    "1 10 1||yielded,feed,z1,|JournalFull",
    "100 10 3|declared,feed,silent,|yielded,feed,z1,|MachineFailed feed",
    "100 10 0|declared,press2,silent,|yielded,press2,z1,|MachineFailed press2",
    "100 10 3||yielded,feed,z1,|WrongPose feed_belt",
];

const DECLARED: [&str; 1] = [
    "1 10 1|declared,feed,silent, declared,table,silent, declared,robot,silent, declared,press1,silent, \
        declared,press2,silent, declared,deposit,silent,|declared,feed,silent,|JournalFull",
];

#[test]
fn each_kind_of_entry_meets_the_lower_refusal_first(rt: HostRuntime) {
    for &cases in &[
        ADMITTED.as_slice(),
        ARRIVED.as_slice(),
        CLAIMED.as_slice(),
        CONVEYED.as_slice(),
        DELIVERED.as_slice(),
        DROPPED.as_slice(),
        EXPECTED.as_slice(),
        FORGED.as_slice(),
        GRIPPED.as_slice(),
        LAMP.as_slice(),
        QUARANTINED.as_slice(),
        REINSTATED.as_slice(),
        REPAIRED.as_slice(),
        STARTED.as_slice(),
        STOP_ASKED.as_slice(),
        YIELDED.as_slice(),
        DECLARED.as_slice(),
    ] {
        all_answer(&rt, rt.alloc(), &ONE_PLATE, cases);
    }
}
