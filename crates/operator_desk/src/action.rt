//! What the operator does.
ghost use Rattle.std.specs.Prelude.{◌≡◌};
ghost use Rattle.operator_desk.specs.Next.{action_now, action_of, entry_of, holds, if_allowed};

use crate::line::{Line, Task, Trigger};
use cell_types::{Entry, Machine, PlateId, Station};
use plate_book::Book;

/// What the operator does next. The actions are this project's profile.
#[derive(Clone, Copy, Debug, PartialEq, Eq)]
pub enum Action {
    /// Ask for a stop of the machine.
    Stop(Machine),
    /// Take the plate out of the station, into quarantine.
    Clear(Station, PlateId),
    /// Repair the machine.
    Repair(Machine),
    /// Say that the plate, which was taken into quarantine, will be laid back.
    Expect(PlateId),
}

/// The entry by which an action is booked.
pub fn entry_of(action: Action) -> Entry
    ensures { result ≡ entry_of action }
{
    match action {
        Action::Stop(machine) => Entry::StopAsked { machine },
        Action::Clear(src, plate) => Entry::Quarantined { plate, src },
        Action::Repair(machine) => Entry::Repaired { machine },
        Action::Expect(plate) => Entry::Expected { plate },
    }
}

/// Whether a trigger holds of a book's entries.
#[tactic(auto, unfolding(crate::specs::Next::holds))]
pub fn holds(book: &Book, when: Trigger) -> bool
    ensures { result ≡ holds book.now.entries when }
{
    match when {
        Trigger::Always => true,
        Trigger::Admitted(number) => number <= book.totals().admitted,
        Trigger::Delivered(number) => number <= book.totals().delivered,
        Trigger::Quarantined(number) => number <= book.totals().quarantined,
        Trigger::Failed(machine) => book.failed(machine),
    }
}

// The action of a task: none where the station that is to be cleared is empty.
#[tactic(auto, unfolding(crate::specs::Next::action_of))]
fn action_of(book: &Book, task: Task) -> Option<Action>
    ensures { result ≡ action_of book.now.entries task }
{
    match task {
        Task::Stop(machine) => Some(Action::Stop(machine)),
        Task::Clear(station) => match book.plate_at(station) {
            Some(plate) => Some(Action::Clear(station, plate)),
            None => None,
        },
        Task::Repair(machine) => Some(Action::Repair(machine)),
        Task::Expect(plate) => Some(Action::Expect(plate)),
    }
}

// An action, where its entry is allowed.
fn if_allowed(book: &Book, action: Action) -> Option<Action>
    ensures { result ≡ if_allowed book.now action }
{
    let chosen = action;
    match book.allows(entry_of(action)) {
        Ok(()) => Some(chosen),
        Err(_) => None,
    }
}

/// The action of a line, where its trigger holds and the action's entry is allowed.
#[tactic(auto, unfolding(crate::specs::Next::action_now))]
pub(crate) fn action_now(book: &Book, line: Line) -> Option<Action>
    ensures { result ≡ action_now book.now line }
{
    if !holds(book, line.when) {
        return None;
    }
    match action_of(book, line.task) {
        Some(action) => if_allowed(book, action),
        None => None,
    }
}
