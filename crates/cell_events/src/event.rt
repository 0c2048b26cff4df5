//! An entry of a journal, with its times, and the plate and the place of which it tells.
use cell_types::{Entry, Machine, PlateId, Station};

/// Where something happens.
#[derive(Clone, Copy, Debug, PartialEq, Eq)]
pub enum Site {
    Station(Station),
    Machine(Machine),
}

/// An entry of a journal, with its times, and the plate and the place of which it tells.
#[derive(Clone, Copy, Debug, PartialEq, Eq)]
pub struct Event {
    /// The entry's number, from 1.
    pub number: u32,
    /// When the motion started that the entry ends; of an entry that ends none, `end`.
    pub begin: u64,
    /// When the entry ends at the earliest, in units of time from the first entry on.
    pub end: u64,
    pub entry: Entry,
    /// The plate that the entry names; else the one plate at the stations that it is about, if there is one.
    pub plate: Option<PlateId>,
    /// The station or the machine that the entry names or that it means; else the station of that plate.
    pub place: Option<Site>,
}
