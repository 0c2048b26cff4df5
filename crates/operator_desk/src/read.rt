//! The line of four fields.
ghost use Rattle.std.specs.Prelude.{◌≡◌};
ghost use Rattle.operator_desk.specs.Lines.{task_of, total_of, trigger_of};

use crate::line::{Line, Task, Trigger};
use cell_rows::{Four, ScriptLine};
use cell_types::number::read_plate;
use cell_types::texts::{read_machine, read_station};

// The number of plates that decimal digits write, 0 to 100,000.
fn read_total(bytes: &[u8]) -> Option<u32>
    ensures { result ≡ total_of bytes.now }
{
    if bytes == b"0".as_slice() {
        return Some(0);
    }
    match read_plate(bytes) {
        Some(plate) => Some(plate.number()),
        None => None,
    }
}

// The trigger of a record's first two fields.
#[tactic(auto, unfolding(crate::specs::Lines::trigger_of))]
fn read_trigger(word: &[u8], bound: &[u8]) -> Option<Trigger>
    ensures { result ≡ trigger_of word.now bound.now }
{
    if word == b"always".as_slice() {
        if bound.is_empty() {
            Some(Trigger::Always)
        } else {
            None
        }
    } else if word == b"admitted".as_slice() {
        read_total(bound).map(Trigger::Admitted)
    } else if word == b"delivered".as_slice() {
        read_total(bound).map(Trigger::Delivered)
    } else if word == b"quarantined".as_slice() {
        read_total(bound).map(Trigger::Quarantined)
    } else if word == b"failed".as_slice() {
        read_machine(bound).map(Trigger::Failed)
    } else {
        None
    }
}

// The task of a record's last two fields.
#[tactic(auto, unfolding(crate::specs::Lines::task_of))]
fn read_task(word: &[u8], argument: &[u8]) -> Option<Task>
    ensures { result ≡ task_of word.now argument.now }
{
    if word == b"stop".as_slice() {
        read_machine(argument).map(Task::Stop)
    } else if word == b"clear".as_slice() {
        read_station(argument).map(Task::Clear)
    } else if word == b"repair".as_slice() {
        read_machine(argument).map(Task::Repair)
    } else if word == b"expect".as_slice() {
        read_plate(argument).map(Task::Expect)
    } else {
        None
    }
}

impl ScriptLine for Line {
    ghost use Rattle.operator_desk.specs.Lines.{line_of};

    ghost line_of = { line_of };

    fn read_line(_before: &[Line], fields: Four<'_>) -> Option<Line> {
        match (
            read_trigger(fields.first, fields.second),
            read_task(fields.third, fields.fourth),
        ) {
            (Some(when), Some(task)) => Some(Line { when, task }),
            _ => None,
        }
    }

    fn lines_fit() {}
}
