//! What a picture shows of the first entries of a book.
ghost use Rattle.std.specs.Prelude.{◌≡◌, ◌≤◌, ◌<◌, ◌+◌, ◌-◌, length, take, slice_get, None};
ghost use Rattle.cell_types.specs.After.{after};
ghost use Rattle.cell_journal.specs.Snapshots.{seen, state_of};
ghost use Rattle.cell_picture.specs.Seen.{ShowsViews, MarksForged};
ghost use Rattle.cell_picture.specs.Told.{facts_told};

use crate::facts::is_whole;
use crate::{Facts, facts_of};
use cell_journal::Snapshot;
use cell_types::Entry;
use plate_book::Book;

/// What a picture shows of the first `i` entries of a book's journal, each part as the journal's views tell it, and the
/// last of these entries; `None` where `i` is 0. At most 255 entries are replayed.
pub fn facts_after(book: &Book, i: u32) -> (Facts, Option<Entry>)
    requires { i ≤ length book.now.entries }
    ensures views { ShowsViews result.0 (take i book.now.entries) }
    ensures forged { MarksForged result.0 (take i book.now.entries) }
    // These facts are a function of those entries.
    ensures told { result.0 ≡ facts_told (take i book.now.entries) }
    ensures none { i ≡ 0 → result.1 ≡ None }
    ensures last { 0 < i → result.1 ≡ slice_get book.now.entries (i - 1) }
{
    let (snapshot, _) = book.state_at(i);
    facts_left(book, &snapshot, i)
}

/// The same, where what the first `i` entries left is at hand. No entry is replayed.
pub fn facts_left(book: &Book, snapshot: &Snapshot, i: u32) -> (Facts, Option<Entry>)
    requires within { i ≤ length book.now.entries }
    requires left { state_of snapshot.now ≡ seen (after (take i book.now.entries)) }
    ensures views { ShowsViews result.0 (take i book.now.entries) }
    ensures forged { MarksForged result.0 (take i book.now.entries) }
    ensures told { result.0 ≡ facts_told (take i book.now.entries) }
    ensures none { i ≡ 0 → result.1 ≡ None }
    ensures last { 0 < i → result.1 ≡ slice_get book.now.entries (i - 1) }
{
    book.is_lawful();
    let last = match i.checked_sub(1) {
        Some(place) => book.journal().get(place),
        None => None,
    };
    let facts = facts_of(snapshot);
    is_whole(&facts);
    (facts, last)
}

/// Applies the next entry to what the first `i` entries of a book's journal left.
pub fn step_on(book: &Book, snapshot: &mut Snapshot, i: u32)
    requires next { i < length book.now.entries }
    requires left { state_of snapshot.old ≡ seen (after (take i book.now.entries)) }
    ensures { state_of snapshot.new ≡ seen (after (take (i + 1) book.now.entries)) }
{
    let journal = book.journal();
    // Entries are counted in 32 bits.
    let _count = journal.len();
    snapshot.change(journal.at(i));
}
