//! Why a line of a method can't be read.
use crate::wish::read_length;
use cell_rows::Four;
use cell_types::number::read_plate;
use cell_types::texts::{read_axis, read_kind, read_machine, read_station};
use cell_types::{Kind, ObjectSort, SubjectSort, read_fields, sorts_of};
use std::fmt;

/// What has to stand in a field.
#[derive(Clone, Copy, Debug, PartialEq, Eq)]
pub(crate) enum Wanted {
    /// The kind of a machine's entry.
    Kind,
    Command,
    Machine,
    Axis,
    Arm,
    Belt,
    Plate,
    Colour,
    Zone,
    Pose,
    Cause,
    Station,
    /// The length of a journal.
    Length,
    Nothing,
}

impl Wanted {
    // Whether the bytes may stand in the field: in a record that has what is wanted there, and is read.
    fn allows(self, field: &[u8]) -> bool {
        match self {
            // These are wanted in the first field alone, and told where nothing that may stand there does.
            Wanted::Kind | Wanted::Command => false,
            Wanted::Machine => read_machine(field).is_some(),
            Wanted::Axis => read_axis(field).is_some(),
            Wanted::Arm => matches!(field, b"arm1" | b"arm2"),
            Wanted::Belt => matches!(field, b"feed" | b"deposit"),
            Wanted::Plate => read_plate(field).is_some(),
            Wanted::Colour => matches!(field, b"red" | b"green"),
            Wanted::Zone => read_fields(&[b"claimed", b"feed", field, b""]).is_some(),
            Wanted::Pose => read_fields(&[b"started", b"feed_belt", field, b""]).is_some(),
            Wanted::Cause => read_fields(&[b"declared", b"feed", field, b""]).is_some(),
            Wanted::Station => read_station(field).is_some(),
            Wanted::Length => read_length(field).is_some(),
            Wanted::Nothing => field.is_empty(),
        }
    }

    // What may stand in the field, in words.
    fn text(self) -> &'static str {
        match self {
            Wanted::Kind => {
                "lamp, admitted, claimed, yielded, started, arrived, conveyed, forged, gripped, dropped, delivered, \
                    declared, reinstated, done or quit"
            }
            Wanted::Command => {
                "on, off, magnet_on, magnet_off, lamp, all_off, remove, home, stay, sync, done or quit"
            }
            Wanted::Machine => "feed, table, robot, press1, press2 or deposit",
            Wanted::Axis => {
                "feed_belt, table_lift, table_turn, robot_turn, arm_one, arm_two, press_one, press_two or deposit_belt"
            }
            Wanted::Arm => "arm1 or arm2",
            Wanted::Belt => "feed or deposit",
            Wanted::Plate => "a number from 1 to 100000 with no 0 in front",
            Wanted::Colour => "red or green",
            Wanted::Zone => "z1, z2, z3, z4 or z5",
            Wanted::Pose => {
                "rest, to_end, to_table, low, high, belt, robot, table1, p1_load, p1_unload, p2_load, p2_unload, \
                    deposit2, in, out, middle, top or bottom"
            }
            Wanted::Cause => {
                "stuck_switch, contradictory, stray_position, no_departure, missing_motion, lost_position, \
                    plate_lost, strange_plate, silent, command_fault or operator_stop"
            }
            Wanted::Station => {
                "feed_in, feed_end, table, arm1, arm2, press1, press2, dep_in or dep_end"
            }
            Wanted::Length => "a number from 0 to 1000006 with no 0 in front",
            Wanted::Nothing => "blank",
        }
    }
}

/// Why a line can't be read.
#[derive(Clone, Copy, Debug, PartialEq, Eq)]
pub(crate) enum Unread {
    /// It hasn't four fields of at most 20 bytes each, or it has a quote.
    NoRecord,
    /// Its entry is the operator's.
    Operators,
    /// In the field of this number, counted from 1, this has to stand.
    Field(usize, Wanted),
    /// Each field may stand where it is, but not all of them together.
    Whole,
}

impl fmt::Display for Unread {
    fn fmt<W: fmt::Write>(&self, f: &mut fmt::Formatter<W>) -> fmt::Result {
        match *self {
            Unread::NoRecord => write!(
                f,
                "a line has four fields of at most 20 bytes, and no quote"
            ),
            Unread::Operators => write!(f, "only the operator books such an entry"),
            Unread::Field(number, wanted) => write!(
                f,
                "field {number} has to be {}",
                wanted.text()
            ),
            Unread::Whole => write!(f, "its fields don't go together"),
        }
    }
}

/// The first line of a run that couldn't be read.
#[derive(Clone, Copy, Debug, PartialEq, Eq)]
pub(crate) struct UnreadLine {
    pub(crate) round: u32,
    /// Which line of the round it was, counted from 1 without blank ones.
    pub(crate) line: u32,
    pub(crate) why: Unread,
}

const BLANK: [Wanted; 3] = [Wanted::Nothing; 3];

// Whether a word ends the round or the run.
fn is_end(word: &[u8]) -> bool {
    matches!(word, b"done" | b"quit")
}

// The first of the last three fields that can't be read.
fn first_of(four: Four<'_>, wanted: [Wanted; 3]) -> Unread {
    let fields = [four.second, four.third, four.fourth];
    for place in 0..3 {
        if !wanted[place].allows(fields[place]) {
            return Unread::Field(place + 2, wanted[place]);
        }
    }
    Unread::Whole
}

// What has to stand in the field of an object.
fn object_wanted(sort: ObjectSort) -> Wanted {
    match sort {
        ObjectSort::Nothing => Wanted::Nothing,
        ObjectSort::Plate => Wanted::Plate,
        ObjectSort::Colour => Wanted::Colour,
        ObjectSort::Zone => Wanted::Zone,
        ObjectSort::Pose => Wanted::Pose,
        ObjectSort::Cause => Wanted::Cause,
    }
}

// What has to stand in the last three fields of an entry of this kind.
fn entry_wanted(kind: Kind) -> [Wanted; 3] {
    let sorts = sorts_of(kind);
    let object = object_wanted(sorts.object);
    let station = if sorts.has_station {
        Wanted::Station
    } else {
        Wanted::Nothing
    };
    match sorts.subject {
        SubjectSort::Nothing => [object, station, Wanted::Nothing],
        SubjectSort::Belt => [Wanted::Belt, object, station],
        SubjectSort::Machine => [Wanted::Machine, object, station],
        SubjectSort::Axis => [Wanted::Axis, object, station],
        SubjectSort::Arm => [Wanted::Arm, object, station],
    }
}

/// Why a line by entries can't be read, whose fields these are if it is a record.
pub(crate) fn unread_entry(four: Option<Four<'_>>) -> Unread {
    let Some(four) = four else {
        return Unread::NoRecord;
    };
    match read_kind(four.first) {
        Some(Kind::StopAsked | Kind::Quarantined | Kind::Repaired | Kind::Expected) => {
            Unread::Operators
        }
        Some(kind) => first_of(four, entry_wanted(kind)),
        None if is_end(four.first) => first_of(four, BLANK),
        None => Unread::Field(1, Wanted::Kind),
    }
}

/// Why a line by commands can't be read.
pub(crate) fn unread_command(four: Option<Four<'_>>) -> Unread {
    let Some(four) = four else {
        return Unread::NoRecord;
    };
    let [_, second, third] = BLANK;
    match four.first {
        b"on" => first_of(four, [Wanted::Axis, Wanted::Pose, third]),
        b"off" => first_of(four, [Wanted::Axis, second, third]),
        b"magnet_on" | b"magnet_off" => first_of(four, [Wanted::Arm, second, third]),
        b"lamp" => first_of(four, [Wanted::Belt, Wanted::Colour, third]),
        b"all_off" | b"home" => first_of(four, [Wanted::Machine, second, third]),
        b"remove" => first_of(four, [Wanted::Station, second, third]),
        b"sync" => first_of(four, [Wanted::Length, second, third]),
        b"stay" => first_of(four, BLANK),
        word if is_end(word) => first_of(four, BLANK),
        _ => Unread::Field(1, Wanted::Command),
    }
}
