//! What a line of the cell says.
ghost use Rattle.std.specs.Prelude.{◌≡◌, ◌∷◌, [], Some};
ghost use Rattle.cell_types.specs.Numbers.{number_to};
ghost use Rattle.cell_types.specs.Texts.{find_word, machine_named};
ghost use Rattle.operator_desk.specs.Lines.{task_of};
ghost use Rattle.cell_lines.specs.Said.{clear_of, count_of, first_of, heading_named, heading_word, later_headings};
ghost use Rattle.cell_lines.specs.Said.{missing_of, repair_of, said_by, said_of, shown_by, stop_of, synced_of, syncs};
ghost use Rattle.cell_lines.specs.Said.{wish_of};

use crate::reading::reading_of;
use crate::word::is_word;
use cell_diagnosis::Reading;
use cell_rows::Four;
use cell_types::number::{read_number, read_plate};
use cell_types::texts::{read_machine, read_station};
use cell_types::{MAX_PLATES, Machine, Station};
use operator_desk::Task;

/// The cell's answer to a command or an act by hand.
#[derive(Clone, Copy, Debug, PartialEq, Eq)]
pub(crate) enum Answer {
    Done,
    Failed,
    /// The cell doesn't know such a line.
    Unread,
}

/// What a line of the cell says.
#[derive(Clone, Copy, Debug, PartialEq, Eq)]
pub(crate) enum Said {
    /// The protocol begins, in this version, and the cell plans so many plates, if it says how many.
    First(u32, Option<u32>),
    /// What a machine shows.
    Shows(Machine, Reading),
    /// The reading of a machine is missing.
    Missing(Machine),
    /// The round is open for commands.
    Round,
    /// A command's answer.
    Answers(Answer),
    /// Someone at the cell wants this.
    Wishes(Task),
    /// Someone at the cell wants something that can't be read.
    WishesUnread,
    /// Someone at the cell did this.
    Did(Task),
    /// The cell has found the run again whose journal has so many entries.
    Synced(u32),
    /// The run is over.
    Ends,
    /// The machine's line can't be read.
    Garbled(Machine),
    /// The line can't be read.
    Nothing,
}

impl Said {
    /// Whether it says that the run was found again whose journal has so many entries.
    pub(crate) fn is_synced(self, length: u32) -> bool
        ensures { result ≡ syncs length self }
    {
        match self {
            Said::Synced(found) => found == length,
            Said::First(_, _)
            | Said::Shows(_, _)
            | Said::Missing(_)
            | Said::Round
            | Said::Answers(_)
            | Said::Wishes(_)
            | Said::WishesUnread
            | Said::Did(_)
            | Said::Ends
            | Said::Garbled(_)
            | Said::Nothing => false,
        }
    }
}

/// What a line is about, by its first field.
#[derive(Clone, Copy, Debug, PartialEq, Eq)]
pub(crate) enum Heading {
    Reading,
    Missing,
    Round,
    Done,
    Failed,
    Unreadable,
    Wish,
    Stopped,
    Repaired,
    Cleared,
    Synced,
    First,
    End,
}

// The greatest number that a line may have, of those with at most seven digits.
const MOST: u32 = 9_999_999;

// The heading whose word these bytes are.
fn read_heading(bytes: &[u8]) -> Option<Heading>
    ensures { result ≡ heading_named bytes.now }
{
    if is_word(bytes, b"reading") {
        Some(Heading::Reading)
    } else if is_word(bytes, b"missing") {
        Some(Heading::Missing)
    } else if is_word(bytes, b"round") {
        Some(Heading::Round)
    } else if is_word(bytes, b"ok") {
        Some(Heading::Done)
    } else if is_word(bytes, b"failed") {
        Some(Heading::Failed)
    } else if is_word(bytes, b"unreadable") {
        Some(Heading::Unreadable)
    } else {
        read_later_heading(bytes)
    }
}

// Of the headings that are looked for last, the one whose word these bytes are.
fn read_later_heading(bytes: &[u8]) -> Option<Heading>
    ensures { result ≡ find_word heading_word later_headings bytes.now }
{
    if is_word(bytes, b"operator") {
        Some(Heading::Wish)
    } else if is_word(bytes, b"stop_asked") {
        Some(Heading::Stopped)
    } else if is_word(bytes, b"repaired") {
        Some(Heading::Repaired)
    } else if is_word(bytes, b"quarantined") {
        Some(Heading::Cleared)
    } else if is_word(bytes, b"synced") {
        Some(Heading::Synced)
    } else if is_word(bytes, b"drive") {
        Some(Heading::First)
    } else if is_word(bytes, b"end") {
        Some(Heading::End)
    } else {
        None
    }
}

// What a machine shows.
fn shown_by(machine: Option<Machine>, switches: &[u8], presence: &[u8]) -> Said
    ensures { result ≡ shown_by machine switches.now presence.now }
{
    let Some(machine) = machine else {
        return Said::Nothing;
    };
    match reading_of(machine, switches, presence) {
        Some(reading) => Said::Shows(machine, reading),
        None => Said::Garbled(machine),
    }
}

// Which machine's reading is missing.
fn missing_of(machine: Option<Machine>) -> Said
    ensures { result ≡ missing_of machine }
{
    match machine {
        Some(machine) => Said::Missing(machine),
        None => Said::Nothing,
    }
}

// The task of an action's word and its argument.
#[tactic(auto, unfolding(operator_desk::specs::Lines::task_of))]
fn task_of(word: &[u8], argument: &[u8]) -> Option<Task>
    ensures { result ≡ task_of word.now argument.now }
{
    if is_word(word, b"stop") {
        read_machine(argument).map(Task::Stop)
    } else if is_word(word, b"clear") {
        read_station(argument).map(Task::Clear)
    } else if is_word(word, b"repair") {
        read_machine(argument).map(Task::Repair)
    } else if is_word(word, b"expect") {
        read_plate(argument).map(Task::Expect)
    } else {
        None
    }
}

// What someone at the cell wants.
fn wish_of(task: Option<Task>, last: &[u8]) -> Said
    ensures { result ≡ wish_of task last.now }
{
    match task {
        Some(task) if last.is_empty() => Said::Wishes(task),
        _ => Said::WishesUnread,
    }
}

// That someone at the cell stopped a machine.
fn stop_of(machine: Option<Machine>) -> Said
    ensures { result ≡ stop_of machine }
{
    match machine {
        Some(machine) => Said::Did(Task::Stop(machine)),
        None => Said::Nothing,
    }
}

// That someone at the cell repaired a machine.
fn repair_of(machine: Option<Machine>) -> Said
    ensures { result ≡ repair_of machine }
{
    match machine {
        Some(machine) => Said::Did(Task::Repair(machine)),
        None => Said::Nothing,
    }
}

// That someone at the cell took out what stood at a station.
fn clear_of(station: Option<Station>) -> Said
    ensures { result ≡ clear_of station }
{
    match station {
        Some(station) => Said::Did(Task::Clear(station)),
        None => Said::Nothing,
    }
}

// The number from 0 on that these bytes write.
fn count_of(bytes: &[u8]) -> Option<u32>
    ensures { result ≡ count_of bytes.now }
{
    if is_word(bytes, b"0") {
        Some(0)
    } else {
        read_number(MOST, bytes)
    }
}

// Which run the cell has found again.
fn synced_of(length: Option<u32>) -> Said
    ensures { result ≡ synced_of length }
{
    match length {
        Some(length) => Said::Synced(length),
        None => Said::Nothing,
    }
}

// How the protocol begins.
fn first_of(version: Option<u32>, plates: Option<u32>) -> Said
    ensures { result ≡ first_of version plates }
{
    match version {
        Some(version) => Said::First(version, plates),
        None => Said::Nothing,
    }
}

// What a line of this heading says by its other fields.
fn said_by(heading: Heading, second: &[u8], third: &[u8], fourth: &[u8]) -> Said
    ensures { result ≡ said_by heading second.now third.now fourth.now }
{
    match heading {
        Heading::Reading => shown_by(read_machine(second), third, fourth),
        Heading::Missing => missing_of(read_machine(second)),
        Heading::Round => Said::Round,
        Heading::Done => Said::Answers(Answer::Done),
        Heading::Failed => Said::Answers(Answer::Failed),
        Heading::Unreadable => Said::Answers(Answer::Unread),
        Heading::Wish => wish_of(task_of(second, third), fourth),
        Heading::Stopped => stop_of(read_machine(second)),
        Heading::Repaired => repair_of(read_machine(second)),
        Heading::Cleared => clear_of(read_station(third)),
        Heading::Synced => synced_of(count_of(second)),
        Heading::First => first_of(read_number(MOST, second), read_number(MAX_PLATES, third)),
        Heading::End => Said::Ends,
    }
}

/// What a line of these fields says.
pub(crate) fn said_of(four: Four<'_>) -> Said
    ensures { result ≡ said_of (Some (four.entry.first.now ∷ four.entry.second.now ∷ four.entry.third.now
        ∷ four.entry.fourth.now ∷ [])) }
{
    match read_heading(four.first) {
        Some(heading) => said_by(heading, four.second, four.third, four.fourth),
        None => Said::Nothing,
    }
}
