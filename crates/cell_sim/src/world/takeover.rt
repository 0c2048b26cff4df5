//! A world where a journal left the cell.
ghost use Rattle.std.specs.Prelude.{◌≡◌, ◌≤◌, ◌-◌, length, slice_get};
ghost use Rattle.std.specs.List.{count_by};
ghost use Rattle.plate_book.specs.Listed.{delivered_of};
ghost use Rattle.cell_types.specs.Cell.{motion_named};
ghost use Rattle.cell_sim.specs.Takeover.{axis_left, is_forging, left_by, motion_left, path_left, plate_left};
ghost use Rattle.cell_sim.specs.Takeover.{tells_cleared, tells_laid, was_forged};

use crate::axis::AxisInWorld;
use crate::motion::{Moving, Path};
use crate::world::{Plate, World};
use cell_journal::Journal;
use cell_measures::{Durations, Move};
use cell_types::{
    Axis, Belt, Entry, PlateId, Pose, Station, is_before_press, machine_of_axis, motion_named,
};
use plate_book::Book;

impl World {
    /// The cell where a book's journal left it. Its axes have the book's poses, its plates lie where the book has them,
    /// each by the book's number and forged where the journal says so, and its lights are the book's. A motion that the
    /// book shows under way begins anew, as if its command had just come, with no fault; that of a machine that is
    /// booked failed is stopped before it leaves. What was laid, forged, taken out and removed is counted by the
    /// journal; nothing is lost and nothing has met. A script of faults counts the motions that begin from here on.
    ///
    /// Up to `plates` plates are laid in all, those of the journal included, and besides as many as were taken out by
    /// hand from before a press. Motions take these durations, as by `with_durations`. It isn't watched, unless it is
    /// made so by `with_watch`.
    pub fn from_book(book: &Book, plates: u32, durations: &Durations) -> World
        ensures { result ≡ left_by book.now.entries plates durations.now }
    {
        let totals = book.totals();
        World {
            axes: [
                axis_left(book, Axis::FeedBelt, durations),
                axis_left(book, Axis::TableLift, durations),
                axis_left(book, Axis::TableTurn, durations),
                axis_left(book, Axis::RobotTurn, durations),
                axis_left(book, Axis::ArmOne, durations),
                axis_left(book, Axis::ArmTwo, durations),
                axis_left(book, Axis::PressOne, durations),
                axis_left(book, Axis::PressTwo, durations),
                axis_left(book, Axis::DepositBelt, durations),
            ],
            plates: [
                plate_left(book, Station::FeedIn),
                plate_left(book, Station::FeedEnd),
                plate_left(book, Station::Table),
                plate_left(book, Station::Arm1),
                plate_left(book, Station::Arm2),
                plate_left(book, Station::Press1),
                plate_left(book, Station::Press2),
                plate_left(book, Station::DepIn),
                plate_left(book, Station::DepEnd),
            ],
            feed_light: book.lamp(Belt::Feed),
            deposit_light: book.lamp(Belt::Deposit),
            laid: count_laid(book.journal()),
            cleared: count_cleared(book.journal()),
            forged: totals.forged,
            taken_out: totals.delivered,
            removed: totals.quarantined,
            last_taken_out: last_delivered(book),
            durations: *durations,
            ..World::new(plates)
        }
    }
}

// An axis where a book's journal left it. No motion of it is counted yet.
#[tactic(auto, unfolding(crate::specs::Takeover::axis_left))]
fn axis_left(book: &Book, axis: Axis, durations: &Durations) -> AxisInWorld
    ensures { result ≡ axis_left book.now.entries durations.now axis }
{
    let state = book.pose(axis);
    let motion = match state.going {
        Some(to) => Some(motion_left(book, axis, state.at, to, durations)),
        None => None,
    };
    AxisInWorld {
        pose: state.at,
        motion,
        commands: 0,
    }
}

// A motion of an axis that begins anew. It is stopped where its machine is failed.
fn motion_left(book: &Book, axis: Axis, from: Pose, to: Pose, durations: &Durations) -> Moving
    ensures { result ≡ motion_left book.now.entries durations.now axis from to }
{
    let duration = durations.of(Move { axis, to });
    let motion = Moving::begin(path_left(book, axis, from, to), None, duration);
    Moving {
        stopped: book.failed(machine_of_axis(axis)),
        ..motion
    }
}

// Where a motion that a book shows under way leads.
fn path_left(book: &Book, axis: Axis, from: Pose, to: Pose) -> Path
    ensures { result ≡ path_left book.now.entries from to (motion_named axis to) }
{
    match motion_named(axis, to) {
        Some(motion) => Path::Stations {
            from: motion.from,
            to: motion.dest,
            plate: number_of(book.plate_at(motion.from)),
        },
        None => Path::Poses { from, to },
    }
}

fn number_of(plate: Option<PlateId>) -> Option<u32>
    ensures { result ≡ plate }
{
    match plate {
        Some(plate) => Some(plate.number()),
        None => None,
    }
}

// The plate of a station.
#[tactic(auto, unfolding(crate::specs::Takeover::plate_left))]
fn plate_left(book: &Book, station: Station) -> Option<Plate>
    ensures { result ≡ plate_left book.now.entries station }
{
    match book.plate_at(station) {
        Some(plate) => Some(Plate {
            number: plate.number(),
            is_forged: is_forged(book.journal(), plate),
        }),
        None => None,
    }
}

// Whether a plate was forged.
fn is_forged(journal: &Journal, plate: PlateId) -> bool
    ensures { result ≡ was_forged journal.now.entries plate }
{
    for place in 0..journal.len() {
        if is_forging(journal.at(place), plate) {
            return true;
        }
    }
    false
}

fn is_forging(entry: Entry, plate: PlateId) -> bool
    ensures { result ≡ is_forging plate entry }
{
    match entry {
        Entry::Forged { plate: forged, .. } => forged.number() == plate.number(),
        _ => false,
    }
}

// The plate that was delivered last.
fn last_delivered(book: &Book) -> Option<u32>
    ensures { result ≡ slice_get (delivered_of book.now.entries) (length (delivered_of book.now.entries) - 1) }
{
    match book.delivered().last() {
        Some(plate) => Some(plate.number()),
        None => None,
    }
}

fn tells_laid(entry: Entry) -> bool
    ensures { result ≡ tells_laid entry }
{
    matches!(entry, Entry::Admitted { .. } | Entry::Reinstated { .. })
}

fn tells_cleared(entry: Entry) -> bool
    ensures { result ≡ tells_cleared entry }
{
    match entry {
        Entry::Quarantined { src, .. } => is_before_press(src),
        _ => false,
    }
}

// How many plates were laid, those that were laid back included.
fn count_laid(journal: &Journal) -> u32
    ensures value { result ≡ count_by tells_laid journal.now.entries }
    ensures few { result ≤ length journal.now.entries }
{
    let mut laid = 0;
    for place in 0..journal.len() {
        if tells_laid(journal.at(place)) {
            laid += 1;
        }
    }
    laid
}

// How many plates were taken out by hand from before a press.
fn count_cleared(journal: &Journal) -> u32
    ensures value { result ≡ count_by tells_cleared journal.now.entries }
    ensures few { result ≤ length journal.now.entries }
{
    let mut cleared = 0;
    for place in 0..journal.len() {
        if tells_cleared(journal.at(place)) {
            cleared += 1;
        }
    }
    cleared
}
