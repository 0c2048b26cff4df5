//! Which fields the records of a text have.
use crate::fields::Fields;
use crate::wanted::Wanted;
use crate::words::Words;
use cell_types::texts::read_kind;
use cell_types::{ObjectSort, SubjectSort, sorts_of};

const KINDS_OF_ONE: Wanted = Wanted::Word(Words::KindsOfOne);

const KINDS: Wanted = Wanted::Word(Words::Kinds);

const MACHINE: Wanted = Wanted::Word(Words::Machine);

const STATION: Wanted = Wanted::Word(Words::Station);

const AXIS: Wanted = Wanted::Word(Words::Axis);

const POSE: Wanted = Wanted::Word(Words::Pose);

const ZONE: Wanted = Wanted::Word(Words::Zone);

const ARM: Wanted = Wanted::Word(Words::Arm);

const BELT: Wanted = Wanted::Word(Words::Belt);

const COLOUR: Wanted = Wanted::Word(Words::Colour);

const CAUSE: Wanted = Wanted::Word(Words::Cause);

const FAULT: Wanted = Wanted::Word(Words::Fault);

const TRIGGER: Wanted = Wanted::Word(Words::Trigger);

const TASK: Wanted = Wanted::Word(Words::Task);

const PLATE: Wanted = Wanted::Number(1, 100_000);

const TOTAL: Wanted = Wanted::Number(0, 100_000);

const MOTION: Wanted = Wanted::Number(1, 1_000_000);

const READINGS: Wanted = Wanted::Number(1, 1000);

const NOTHING: Wanted = Wanted::Nothing;

// What may stand in the field of an object of this sort.
fn object_wanted(sort: ObjectSort) -> Wanted {
    match sort {
        ObjectSort::Nothing => NOTHING,
        ObjectSort::Plate => PLATE,
        ObjectSort::Colour => COLOUR,
        ObjectSort::Zone => ZONE,
        ObjectSort::Pose => POSE,
        ObjectSort::Cause => CAUSE,
    }
}

// What may stand in the last three fields of the record of an entry, by the word of its kind.
fn entry_named(word: &[u8]) -> (Wanted, Wanted, Wanted) {
    let Some(kind) = read_kind(word) else {
        return (NOTHING, NOTHING, NOTHING);
    };
    let sorts = sorts_of(kind);
    let object = object_wanted(sorts.object);
    let station = if sorts.has_station { STATION } else { NOTHING };
    match sorts.subject {
        SubjectSort::Nothing => (object, station, NOTHING),
        SubjectSort::Belt => (BELT, object, station),
        SubjectSort::Machine => (MACHINE, object, station),
        SubjectSort::Axis => (AXIS, object, station),
        SubjectSort::Arm => (ARM, object, station),
    }
}

// What a trigger of the operator's script names.
fn trigger_named(word: &[u8]) -> Wanted {
    match word {
        b"failed" => MACHINE,
        b"admitted" | b"delivered" | b"quarantined" => TOTAL,
        _ => NOTHING,
    }
}

// What a task of the operator's script names.
fn task_named(word: &[u8]) -> Wanted {
    match word {
        b"clear" => STATION,
        b"expect" => PLATE,
        _ => MACHINE,
    }
}

/// What may stand in the fields of an entry's record, in a text of profile 2 or of profile 1.
pub(crate) fn entry_fields(in_two: bool, fields: &Fields) -> [Wanted; 4] {
    let (first, second, third) = entry_named(fields.at(0));
    let kinds = if in_two { KINDS } else { KINDS_OF_ONE };
    [kinds, first, second, third]
}

/// What may stand in the fields of a line of a script of faults.
pub(crate) fn fault_fields(fields: &Fields) -> [Wanted; 4] {
    let argument = match fields.at(2) {
        b"slow" | b"silent" => READINGS,
        _ => NOTHING,
    };
    [AXIS, MOTION, FAULT, argument]
}

/// What may stand in the fields of a line of the operator's script.
pub(crate) fn operator_fields(fields: &Fields) -> [Wanted; 4] {
    [
        TRIGGER,
        trigger_named(fields.at(0)),
        TASK,
        task_named(fields.at(2)),
    ]
}
