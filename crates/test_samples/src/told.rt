//! All that a book tells, to be compared.
use crate::journals::entries_of;
use cell_types::{
    AXES, AxisState, BELTS, Colour, Entry, MACHINES, Machine, Place, PlateId, STATIONS, Station,
    Totals, ZONES,
};
use plate_book::Book;
use std::alloc::{AllocError, Global};

/// What a book tells beside its lists, each part in the order of the cell's words. Places are told of the first three
/// plates.
#[derive(Clone, Copy, PartialEq, Eq, Debug)]
struct Reads {
    plates: [Option<PlateId>; 9],
    places: [Option<Place>; 3],
    axes: [AxisState; 9],
    holders: [Option<Machine>; 5],
    visited: [bool; 5],
    failed: [bool; 6],
    asked: [bool; 6],
    forged: [u32; 6],
    lamps: [Colour; 2],
    totals: Totals,
    expected: Option<PlateId>,
}

fn place_of(book: &Book, number: u32) -> Option<Place> {
    Some(book.place(PlateId::new(number)?))
}

impl Reads {
    fn of(book: &Book) -> Reads {
        Reads {
            plates: STATIONS.map(|station| book.plate_at(station)),
            places: [place_of(book, 1), place_of(book, 2), place_of(book, 3)],
            axes: AXES.map(|axis| book.pose(axis)),
            holders: ZONES.map(|zone| book.holder(zone)),
            visited: ZONES.map(|zone| book.claimed_since(zone, 0)),
            failed: MACHINES.map(|machine| book.failed(machine)),
            asked: MACHINES.map(|machine| book.asked(machine)),
            forged: MACHINES.map(|machine| book.forged_by(machine)),
            lamps: BELTS.map(|belt| book.lamp(belt)),
            totals: book.totals(),
            expected: book.expected(),
        }
    }
}

/// All that a book tells: its journal, and what its other read calls give.
#[derive(Drop)]
pub struct Told {
    reads: Reads,
    entries: Vec<Entry>,
    delivered: Vec<PlateId>,
    quarantine: Vec<(PlateId, Station)>,
}

impl Told {
    /// What a book tells now.
    pub fn of(alloc: Global, book: &Book) -> Result<Told, AllocError> {
        let mut quarantine = Vec::new(alloc);
        for (plate, station) in book.quarantine() {
            quarantine.push((*plate, *station))?;
        }
        Ok(Told {
            reads: Reads::of(book),
            entries: entries_of(alloc, book.journal())?,
            delivered: Vec::from_slice(alloc, book.delivered())?,
            quarantine,
        })
    }

    /// Whether both tell the same.
    pub fn is_same(&self, other: &Told) -> bool {
        self.reads == other.reads
            && self.entries.as_slice() == other.entries.as_slice()
            && self.delivered.as_slice() == other.delivered.as_slice()
            && self.quarantine.as_slice() == other.quarantine.as_slice()
    }
}
