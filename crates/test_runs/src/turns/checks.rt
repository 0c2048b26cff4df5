//! What has to hold after each schedule. An error says what doesn't.
use cell_audit::{audit, write_journal};
use cell_journal::Journal;
use cell_turns::{Ran, Six};
use cell_types::{Actor, Machine};
use plate_book::Book;
use std::alloc::Global;
use test_ports::{TellingHands, TellingPort, did, was_sent};
use test_samples::is_list_of;

/// Whether a book's journal, written as a text, is legal with the book's totals, and keeps the book's limits.
pub(crate) fn is_lawful(
    alloc: Global,
    book: &Book,
    entries: u32,
    plates: u32,
) -> Result<(), &'static str> {
    let totals = book.totals();
    let mut text = Vec::new(alloc);
    let is_written = write_journal(alloc, book.journal(), &mut text) == Ok(());
    let is_legal = is_written && audit(alloc, text.as_slice()) == Ok((2, totals));
    let is_counted = book.journal().len() == totals.entries;
    let is_short = totals.entries <= entries.saturating_add(6) && totals.admitted <= plates;
    if is_legal && is_counted && is_short {
        Ok(())
    } else {
        Err("the journal isn't legal, or isn't within its limits")
    }
}

/// Whether two journals have the same entries.
pub(crate) fn are_same(some: &Journal, other: &Journal) -> Result<(), &'static str> {
    if some.len() != other.len() {
        return Err("the journals are of different lengths");
    }
    for place in 0..some.len() {
        if some.get(place) != other.get(place) {
            return Err("the journals have different entries");
        }
    }
    Ok(())
}

/// Whether the seven lists of a schedule are a journal's entries by their actors.
pub(crate) fn are_lists(journal: &Journal, ran: &Ran) -> Result<(), &'static str> {
    let lists = &ran.machines;
    for &(actor, list) in &[
        (Actor::Machine(Machine::Feed), &lists.feed),
        (Actor::Machine(Machine::Table), &lists.table),
        (Actor::Machine(Machine::Robot), &lists.robot),
        (Actor::Machine(Machine::Press1), &lists.press1),
        (Actor::Machine(Machine::Press2), &lists.press2),
        (Actor::Machine(Machine::Deposit), &lists.deposit),
        (Actor::Operator, &ran.operator),
    ] {
        if !is_list_of(journal, actor, list.as_slice()) {
            return Err("a list isn't its actor's entries");
        }
    }
    Ok(())
}

/// Whether each port was sent the commands of its machine's list but for what failed, and the hands did the acts of the
/// operator's.
pub(crate) fn were_told<P, O>(
    ran: &Ran,
    ports: &Six<TellingPort<P>>,
    hands: &TellingHands<O>,
) -> Result<(), &'static str> {
    let lists = &ran.machines;
    for &(list, port) in &[
        (&lists.feed, &ports.feed),
        (&lists.table, &ports.table),
        (&lists.robot, &ports.robot),
        (&lists.press1, &ports.press1),
        (&lists.press2, &ports.press2),
        (&lists.deposit, &ports.deposit),
    ] {
        was_sent(list.as_slice(), None, port)?;
    }
    did(ran.operator.as_slice(), hands)
}
