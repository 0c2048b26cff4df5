//! The entries of a journal as a list.
use cell_journal::Journal;
use cell_types::{Actor, Entry, actor_of};
use std::alloc::{AllocError, Global};

/// The entries of a journal, the oldest first.
pub fn entries_of(alloc: Global, journal: &Journal) -> Result<Vec<Entry>, AllocError> {
    let mut entries = Vec::new(alloc);
    for place in 0..journal.len() {
        if let Some(entry) = journal.get(place) {
            entries.push(entry)?;
        }
    }
    Ok(entries)
}

/// Whether a list is an actor's entries of a journal, in their order.
pub fn is_list_of(journal: &Journal, actor: Actor, list: &[Entry]) -> bool {
    let mut rest = list.iter().copied();
    for place in 0..journal.len() {
        let entry = journal.get(place);
        if entry.map(actor_of) == Some(actor) && rest.next() != entry {
            return false;
        }
    }
    rest.next().is_none()
}
