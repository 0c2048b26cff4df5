//! The text of an operator's script.
use cell_types::texts::{machine_word, station_word};
use operator_desk::{Line, Task, Trigger};
use std::alloc::{AllocError, Global};

// The first two fields of a line.
fn trigger_text(alloc: Global, when: Trigger) -> Result<String, AllocError> {
    match when {
        Trigger::Always => format!(in alloc; "always,"),
        Trigger::Admitted(count) => format!(in alloc; "admitted,{count}"),
        Trigger::Delivered(count) => format!(in alloc; "delivered,{count}"),
        Trigger::Quarantined(count) => format!(in alloc; "quarantined,{count}"),
        Trigger::Failed(machine) => {
            let machine = machine_word(machine);
            format!(in alloc; "failed,{machine}")
        }
    }
}

// The last two fields of a line.
fn task_text(alloc: Global, task: Task) -> Result<String, AllocError> {
    match task {
        Task::Stop(machine) => {
            let machine = machine_word(machine);
            format!(in alloc; "stop,{machine}")
        }
        Task::Clear(station) => {
            let station = station_word(station);
            format!(in alloc; "clear,{station}")
        }
        Task::Repair(machine) => {
            let machine = machine_word(machine);
            format!(in alloc; "repair,{machine}")
        }
        Task::Expect(plate) => {
            let plate = plate.number();
            format!(in alloc; "expect,{plate}")
        }
    }
}

/// The text of a script with these lines.
pub(crate) fn text_of(alloc: Global, lines: &[Line]) -> Result<Vec<u8>, AllocError> {
    let mut text = Vec::new(alloc);
    for line in lines {
        let when = trigger_text(alloc, line.when)?;
        let task = task_text(alloc, line.task)?;
        let line = format!(in alloc; "{when},{task}\n")?;
        text.extend_from_slice(line.as_str().as_bytes())?;
    }
    Ok(text)
}
