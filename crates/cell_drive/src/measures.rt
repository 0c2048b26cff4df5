//! What is measured of a run, but for what the world and the book count themselves.
use cell_sim::World;
use std::alloc::{AllocError, Global};

/// In which rounds the plates were laid in, and how long those that were taken out were in the cell.
#[derive(Drop)]
pub(crate) struct Measures {
    /// How many rounds were opened. At `u32::MAX` the count stays.
    rounds: u32,
    /// How many plates were laid in before the first round.
    before: u32,
    /// The round in which each later plate was laid in, in the order in which they were.
    laid: Vec<u32>,
    /// How many plates were taken out so far.
    taken_out: u32,
    /// How many rounds each of them was in the cell.
    stays: Vec<u32>,
    /// Memory was refused, and the lists lack what came since.
    lacks_memory: bool,
}

/// How many rounds the plates that were taken out were in the cell: the shortest, the middle and the longest stay. Of
/// an even number of stays the middle one is the shorter of the two in the middle.
#[derive(Clone, Copy, Debug)]
pub(crate) struct Stays {
    pub(crate) least: u32,
    pub(crate) median: u32,
    pub(crate) most: u32,
}

impl Measures {
    /// Before the first round in a world.
    pub(crate) fn new(alloc: Global, world: &World) -> Measures {
        Measures {
            rounds: 0,
            before: world.laid(),
            laid: Vec::new(alloc),
            taken_out: world.taken_out(),
            stays: Vec::new(alloc),
            lacks_memory: false,
        }
    }

    /// How many rounds were opened.
    pub(crate) fn rounds(&self) -> u32 {
        self.rounds
    }

    /// Whether memory was refused for a measure.
    pub(crate) fn lacks_memory(&self) -> bool {
        self.lacks_memory
    }

    /// Begins another round.
    pub(crate) fn begin(&mut self) {
        self.rounds = self.rounds.saturating_add(1);
    }

    /// Notes the round of this number after all machines were read in it: which plate was laid in and which taken out.
    /// One reading does either at most once.
    pub(crate) fn open(&mut self, round: u32, world: &World) {
        self.rounds = round;
        if self.note_laid(world).is_err() || self.note_taken(world).is_err() {
            self.lacks_memory = true;
        }
    }

    fn note_laid(&mut self, world: &World) -> Result<(), AllocError> {
        if world.laid().saturating_sub(self.before) as usize > self.laid.len() {
            self.laid.push(self.rounds)?;
        }
        Ok(())
    }

    fn note_taken(&mut self, world: &World) -> Result<(), AllocError> {
        if world.taken_out() == self.taken_out {
            return Ok(());
        }
        self.taken_out = world.taken_out();
        if let Some(stay) = self.stay_of(world.last_taken_out()) {
            self.stays.push(stay)?;
        }
        Ok(())
    }

    // How many rounds a plate has been in the cell, by the number at which it was laid in, from 1. One that was there
    // before the first round counts as laid in then.
    fn stay_of(&self, plate: Option<u32>) -> Option<u32> {
        let place = plate?.checked_sub(1)?;
        let laid = match place.checked_sub(self.before) {
            Some(later) => *self.laid.get(later as usize)?,
            None => 1,
        };
        Some(self.rounds.saturating_sub(laid))
    }

    /// The stays of the plates that were taken out, if any were. It leaves them in the order of their lengths.
    pub(crate) fn stays(&mut self) -> Option<Stays> {
        self.stays.as_mut_slice().sort_unstable();
        let stays = self.stays.as_slice();
        let median = *stays.get(stays.len().saturating_sub(1) / 2)?;
        Some(Stays {
            least: *stays.first()?,
            median,
            most: *stays.last()?,
        })
    }
}
