//! What looks on at a run by entries: it measures, and looks whether the world contradicts what is booked.
use crate::measures::Measures;
use crate::refusals::Refusals;
use crate::unread::{UnreadLine, unread_entry};
use crate::untruth::{Untruth, Untruths, contradiction};
use cell_method::Onlooker;
use cell_rows::Four;
use cell_sim::World;
use cell_types::{Entry, PlateId, STATIONS, Station};
use plate_book::Refusal;
use std::alloc::{AllocError, Global};
use std::sync::{Mutex, Wait};

/// What looks on at a run by entries in a world.
#[derive(Drop)]
pub(crate) struct Looker<'a, R: Wait> {
    pub(crate) rt: &'a R,
    /// The world that it looks at.
    pub(crate) world: &'a Mutex<World>,
    pub(crate) measures: Measures,
    pub(crate) refusals: Refusals,
    /// The entries that the world contradicts.
    pub(crate) untruths: Untruths,
    /// The first line that couldn't be read.
    pub(crate) unread: Option<UnreadLine>,
    /// How many lines of the round were answered. At `u32::MAX` the count stays.
    lines: u32,
    /// At which number each plate was laid in last, in the order of the book's numbers; 0 where none was.
    numbers: Vec<u32>,
    /// Memory was refused for a plate's number.
    lacks_memory: bool,
}

impl<'a, R: Wait> Looker<'a, R> {
    /// What looks on in a world, before the first round. The plates that are in it are the book's of their numbers.
    pub(crate) fn new(alloc: Global, rt: &'a R, world: &'a Mutex<World>) -> Looker<'a, R> {
        let measures = Measures::new(alloc, &world.lock(rt));
        let mut looker = Looker {
            rt,
            world,
            measures,
            refusals: Refusals::none(),
            untruths: Untruths::none(),
            unread: None,
            lines: 0,
            numbers: Vec::new(alloc),
            lacks_memory: false,
        };
        for station in STATIONS {
            looker.note_there(station);
        }
        looker
    }

    /// Whether memory was refused for what is told of the run.
    pub(crate) fn lacks_memory(&self) -> bool {
        self.lacks_memory || self.measures.lacks_memory()
    }

    // At which number a plate of the book was laid in last.
    fn number_of(&self, plate: PlateId) -> Option<u32> {
        let place = plate.number() - 1;
        match self.numbers.get(place as usize) {
            Some(0) => None,
            Some(number) => Some(*number),
            None => None,
        }
    }

    // Keeps that a plate of the book is the one that was laid in at this number.
    fn keep(&mut self, plate: PlateId, number: u32) -> Result<(), AllocError> {
        let place = (plate.number() - 1) as usize;
        for _ in self.numbers.len()..place + 1 {
            self.numbers.push(0)?;
        }
        if let Some(kept) = self.numbers.as_mut_slice().get_mut(place) {
            *kept = number;
        }
        Ok(())
    }

    // Keeps that the plate at a station, if there is one, is the book's of its number.
    fn note_there(&mut self, station: Station) {
        let Some(number) = self.world.lock(self.rt).plate_at(station) else {
            return;
        };
        let Some(plate) = PlateId::new(number) else {
            return;
        };
        if self.keep(plate, number).is_err() {
            self.lacks_memory = true;
        }
    }

    // Keeps which plate of the world is the plate that was laid in.
    fn note_plate(&mut self, plate: PlateId) {
        let number = self.world.lock(self.rt).plate_at(Station::FeedIn);
        if self.keep(plate, number.unwrap_or(0)).is_err() {
            self.lacks_memory = true;
        }
    }
}

// The plate that an entry names, if it names one.
fn plate_of(entry: &Entry) -> Option<PlateId> {
    match *entry {
        Entry::Admitted { plate }
        | Entry::Reinstated { plate }
        | Entry::Delivered { plate }
        | Entry::Conveyed { plate, .. }
        | Entry::Forged { plate, .. }
        | Entry::Gripped { plate, .. }
        | Entry::Dropped { plate, .. } => Some(plate),
        _ => None,
    }
}

impl<R: Wait> Onlooker for Looker<'_, R> {
    fn opened(&mut self, round: u32) {
        let world = self.world.lock(self.rt);
        self.measures.open(round, &world);
        self.lines = 0;
    }

    fn booked(&mut self, entry: &Entry) {
        self.lines = self.lines.saturating_add(1);
        match *entry {
            Entry::Admitted { plate } | Entry::Reinstated { plate } => self.note_plate(plate),
            _ => {}
        }
        let number = match plate_of(entry) {
            Some(plate) => self.number_of(plate),
            None => None,
        };
        let fact = contradiction(&self.world.lock(self.rt), entry, number);
        if let Some(fact) = fact {
            let round = self.measures.rounds();
            self.untruths.add(Untruth {
                round,
                entry: *entry,
                fact,
            });
        }
    }

    fn refused(&mut self, why: Refusal) {
        self.lines = self.lines.saturating_add(1);
        self.refusals.count(why);
    }

    fn unread(&mut self, four: Option<Four<'_>>) {
        self.lines = self.lines.saturating_add(1);
        if self.unread.is_none() {
            self.unread = Some(UnreadLine {
                round: self.measures.rounds(),
                line: self.lines,
                why: unread_entry(four),
            });
        }
    }

    fn acted(&mut self, _entry: &Entry) {}

    fn closed(&mut self) {
        self.world.lock(self.rt).end_round();
    }
}
