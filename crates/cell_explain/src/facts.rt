//! Facts for which an entry is refused, and since when one holds.
ghost use Rattle.std.specs.Prelude.{◌≡◌, ◌<◌, ◌+◌, ◌^◌, false, length, take, true};
ghost use Rattle.cell_types.specs.After.{after};
ghost use Rattle.cell_journal.specs.Snapshots.{HasRoom, seen, state_of};
ghost use Rattle.cell_explain.specs.Facts.{Holds, IsSinceOf};

use crate::telling::Since;
use cell_journal::{Journal, Snapshot};
use cell_types::{Axis, AxisState, Belt, Colour, Machine, PlateId, Station, Zone};

/// What the first entries of a journal leave, for which another entry is refused.
#[derive(Clone, Copy)]
pub(crate) enum Fact {
    Light(Belt, Colour),
    Failed(Machine, bool),
    Asked(Machine),
    Held(Zone, Option<Machine>),
    NotHeldBy(Zone, Machine),
    Stands(Axis, AxisState),
    Plate(Station, Option<PlateId>),
    Expected(Option<PlateId>),
    Admitted(u32),
    /// There are so many entries or more.
    Entries(u32),
}

// Whether an axis is and goes as another.
fn is_same_state(some: AxisState, other: AxisState) -> bool
    ensures so { result ≡ true → (some.at ≡ other.at) × (some.going ≡ other.going) }
    ensures not_so { result ≡ false → (some.at ≡ other.at) × (some.going ≡ other.going) → ⊥ }
{
    some.at == other.at && some.going == other.going
}

/// How many plates were admitted.
#[tactic(auto, unfolding(cell_journal::specs::Snapshots::state_of))]
pub(crate) fn admitted(state: &Snapshot) -> u32
    ensures { result ≡ (state_of state.now).admitted }
{
    state.totals.admitted
}

impl Fact {
    #[tactic(auto, unfolding(cell_journal::specs::Snapshots::state_of))]
    fn holds(&self, state: &Snapshot) -> bool
        ensures so { result ≡ true → Holds self.now (state_of state.now) }
        ensures not_so { result ≡ false → Holds self.now (state_of state.now) → ⊥ }
    {
        match *self {
            Fact::Light(belt, colour) => state.lamp(belt) == colour,
            Fact::Failed(machine, failed) => state.failed(machine) == failed,
            Fact::Asked(machine) => state.asked(machine),
            Fact::Held(zone, holder) => state.holder(zone) == holder,
            Fact::NotHeldBy(zone, machine) => state.holder(zone) != Some(machine),
            Fact::Stands(axis, pose) => is_same_state(state.pose(axis), pose),
            Fact::Plate(station, plate) => state.plate_at(station) == plate,
            Fact::Expected(plate) => state.expected() == plate,
            Fact::Admitted(count) => admitted(state) == count,
            Fact::Entries(count) => state.totals.entries >= count,
        }
    }
}

// Whether one more entry can be counted.
#[tactic(auto, unfolding(cell_journal::specs::Snapshots::state_of))]
fn has_room(state: &Snapshot) -> bool
    ensures { result ≡ true → HasRoom (state_of state.now) }
{
    state.totals.entries < u32::MAX
        && state.totals.admitted < u32::MAX
        && state.totals.forged < u32::MAX
        && state.totals.quarantined < u32::MAX
        && state.totals.delivered < u32::MAX
        && state.totals.reinstated < u32::MAX
}

// What is left by one entry more, after what the first entries of a journal leave. A journal is shorter than the counts
// reach.
fn left_after(journal: &Journal, left: Snapshot, place: u32) -> Snapshot
    requires there { place < length journal.now.entries }
    requires fits { place + 1 < 2 ^ 32 }
    requires left { state_of left ≡ seen (after (take place journal.now.entries)) }
    ensures { state_of result ≡ seen (after (take (place + 1) journal.now.entries)) }
{
    if has_room(&left) {
        let mut more = left;
        more.change(journal.at(place));
        more
    } else {
        let (more, _) = journal.state_at(place + 1);
        more
    }
}

/// Since when a fact holds that the entries of a journal leave.
pub(crate) fn since_when(journal: &Journal, fact: &Fact) -> Since
    ensures { Holds fact.now (after journal.now.entries)
        → IsSinceOf journal.now.entries (length journal.now.entries) fact.now result }
{
    let mut state = Snapshot::opening();
    let mut since = Since::Opening;
    let mut held = fact.holds(&state);
    for place in 0..journal.len() {
        state = left_after(journal, state, place);
        let holds = fact.holds(&state);
        if holds && !held {
            since = Since::Entry(place + 1, journal.at(place));
        }
        held = holds;
    }
    since
}
