//! What a picture of the cell shows of a journal's state.
ghost use Rattle.std.specs.Prelude.{◌≡◌, length, not};
ghost use Rattle.cell_types.specs.declared.words.Pose.TheVariants as pose;
ghost use Rattle.cell_types.specs.Same.{same_pose};
ghost use Rattle.cell_journal.specs.Snapshots.{state_of};
ghost use Rattle.cell_picture.specs.Shown.{is_forged, shown_at, facts_of};

use cell_journal::Snapshot;
use cell_types::{Axis, AxisState, Belt, Colour, Machine, PlateId, Pose, Station, Totals};

/// A plate at a station, as a picture shows it.
#[derive(Clone, Copy, Debug)]
pub struct ShownPlate {
    pub plate: PlateId,
    /// Whether a press has forged it.
    pub forged: bool,
}

/// What a picture of the cell shows: each list in the order of the cell's words.
#[derive(Clone, Copy, Debug)]
pub struct Facts {
    /// The plate at each station.
    pub plates: [Option<ShownPlate>; 9],
    /// The pose that each axis has or has left, and where it is going.
    pub axes: [AxisState; 9],
    /// The machine that holds each zone.
    pub holders: [Option<Machine>; 5],
    /// Whether each machine is booked failed.
    pub failed: [bool; 6],
    /// Whether a stop is asked of each machine.
    pub asked: [bool; 6],
    /// The colour of each belt's light.
    pub lamps: [Colour; 2],
    /// The plate that is to be laid back at FeedIn, if one is.
    pub expected: Option<PlateId>,
    /// How many plates are in quarantine: those that were taken out, less those that were laid back.
    pub quarantine: u32,
    /// How many entries there were, and of these how many of some kinds.
    pub totals: Totals,
}

// Whether a press has forged the plate in it, by the pose that it has or has left.
fn is_past_top(snapshot: &Snapshot, press: Axis) -> bool
    ensures { result ≡ not (same_pose ((state_of snapshot.now).at press) pose.Middle) }
{
    !matches!(snapshot.pose(press).at, Pose::Middle)
}

// Whether the plate at a station is forged.
fn is_forged(snapshot: &Snapshot, station: Station) -> bool
    ensures { result ≡ is_forged (state_of snapshot.now).at station }
{
    match station {
        Station::Press1 => is_past_top(snapshot, Axis::PressOne),
        Station::Press2 => is_past_top(snapshot, Axis::PressTwo),
        Station::Arm2 | Station::DepIn | Station::DepEnd => true,
        _ => false,
    }
}

// The plate at a station, and whether it is forged.
fn shown_at(snapshot: &Snapshot, station: Station) -> Option<ShownPlate>
    ensures { result ≡ shown_at (state_of snapshot.now) station }
{
    match snapshot.plate_at(station) {
        Some(plate) => Some(ShownPlate {
            plate,
            forged: is_forged(snapshot, station),
        }),
        None => None,
    }
}

/// What a picture shows of a snapshot.
pub fn facts_of(snapshot: &Snapshot) -> Facts
    ensures { result ≡ facts_of snapshot.now }
{
    Facts {
        plates: [
            shown_at(snapshot, Station::FeedIn),
            shown_at(snapshot, Station::FeedEnd),
            shown_at(snapshot, Station::Table),
            shown_at(snapshot, Station::Arm1),
            shown_at(snapshot, Station::Arm2),
            shown_at(snapshot, Station::Press1),
            shown_at(snapshot, Station::Press2),
            shown_at(snapshot, Station::DepIn),
            shown_at(snapshot, Station::DepEnd),
        ],
        axes: snapshot.axes,
        holders: snapshot.holders,
        failed: snapshot.failed,
        asked: snapshot.asked,
        lamps: [snapshot.lamp(Belt::Feed), snapshot.lamp(Belt::Deposit)],
        expected: snapshot.expected,
        quarantine: snapshot
            .totals
            .quarantined
            .saturating_sub(snapshot.totals.reinstated),
        totals: snapshot.totals,
    }
}

// Each list of facts that snapshots give as they are has a place for each of its words.
pub(crate) fn is_whole(facts: &Facts)
    ensures axes { length facts.now.axes ≡ 9 }
    ensures holders { length facts.now.holders ≡ 5 }
    ensures failed { length facts.now.failed ≡ 6 }
    ensures asked { length facts.now.asked ≡ 6 }
{
    let _ = (facts.axes.len(), facts.holders.len());
    let _ = (facts.failed.len(), facts.asked.len());
}
