//! The steps of a schedule, as its habits and random numbers give them.
use crate::turns::random::Random;
use crate::turns::settings::Habits;
use cell_diagnosis::Reading;
use cell_turns::{Port, Six, Step};
use cell_types::{Cause, Entry, MACHINES, Machine, PlateId, STATIONS, machine_of_station};
use plate_book::Book;
use test_samples::{ONE_PLATE, entry_of};

/// What the steps of a schedule are drawn from.
#[derive(Clone, Copy)]
pub(crate) struct Drawing {
    pub(crate) random: Random,
    pub(crate) habits: Habits,
    /// How many steps were drawn, how many of the next turns are still disturbed, and in which way.
    pub(crate) steps: usize,
    pub(crate) disturbed: usize,
    pub(crate) way: usize,
}

impl Drawing {
    /// The next step. A turn is of the machine whose turn it is in order, or of any, at what its port shows, or at
    /// something else.
    pub(crate) fn next_step<P: Port>(&mut self, book: &Book, ports: &mut Six<P>) -> Step {
        let place = self.steps % 6;
        self.steps = self.steps.saturating_add(1);
        if self.random.chance(self.habits.hands) {
            return Step::Hand(draw_hand(&mut self.random, self.habits.mending, book));
        }
        let is_disordered = self.random.chance(self.habits.disorder);
        let place = if is_disordered {
            self.random.below(6)
        } else {
            place
        };
        let machine = MACHINES[place];
        let shown = ports.pick(machine).read();
        Step::Turn(machine, self.disturb(shown))
    }

    // What is read where a port shows this. Disturbed turns come some at a time, in one of six ways: none, that reading
    // with another bit, one that shows one switch of each axis, one of any bits, or one of these ways at random.
    fn disturb(&mut self, shown: Option<Reading>) -> Option<Reading> {
        if self.disturbed > 0 {
            self.disturbed -= 1;
        } else if self.random.chance(self.habits.noise) {
            self.disturbed = self.random.below(16);
            self.way = self.random.below(6);
        } else {
            return shown;
        }
        let random = &mut self.random;
        let way = if self.way == 5 {
            random.below(5)
        } else {
            self.way
        };
        match (way, shown) {
            (0, _) | (1 | 2, None) => None,
            (1, Some(reading)) => Some(Reading {
                presence: reading.presence ^ (1 << random.below(3)),
                ..reading
            }),
            (2, Some(reading)) => {
                let mut switches = reading.switches;
                switches[random.below(3)] ^= 1 << random.below(6);
                Some(Reading {
                    switches,
                    ..reading
                })
            }
            (3, _) => {
                let presence = match shown {
                    Some(reading) => reading.presence,
                    None => 0,
                };
                Some(Reading {
                    switches: [1 << random.below(6); 3],
                    presence,
                })
            }
            _ => Some(Reading {
                switches: [
                    random.below(256) as u8,
                    random.below(256) as u8,
                    random.below(256) as u8,
                ],
                presence: random.below(256) as u8,
            }),
        }
    }
}

// An entry by hand: one that mends a failed machine, or any of the operator's, or one that isn't his. A plate is
// cleared from any station: the one that is there, or else any.
fn draw_hand(random: &mut Random, mending_rate: u32, book: &Book) -> Entry {
    let machine = MACHINES[random.below(6)];
    if random.chance(mending_rate) {
        return mending(random, book).unwrap_or(Entry::Repaired { machine });
    }
    match random.below(9) {
        0 => Entry::StopAsked { machine },
        1 | 2 => Entry::Repaired { machine },
        3 | 4 => {
            let src = STATIONS[random.below(9)];
            let any = PlateId::new(random.below(10) as u32 + 1);
            let plate = book.plate_at(src).or(any).unwrap_or_default();
            Entry::Quarantined { plate, src }
        }
        5 => Entry::Declared {
            machine,
            cause: Cause::Silent,
        },
        6 => draw_expected(random, book),
        _ => entry_of(ONE_PLATE[random.below(62)]).unwrap_or(Entry::Repaired { machine }),
    }
}

// What would mend a failed machine, of the first one from any on: a plate that is in it is cleared, and then it is
// repaired. Where none has failed, a plate that was cleared is expected; and where none was cleared either, a stop may
// be asked of that machine.
fn mending(random: &mut Random, book: &Book) -> Option<Entry> {
    let first = random.below(6);
    for step in 0..6 {
        let machine = MACHINES[(first + step) % 6];
        if book.failed(machine) {
            return Some(clearing_of(book, machine).unwrap_or(Entry::Repaired { machine }));
        }
    }
    if !book.quarantine().is_empty() {
        return Some(draw_expected(random, book));
    }
    if random.chance(96) {
        Some(Entry::StopAsked {
            machine: MACHINES[first],
        })
    } else {
        None
    }
}

// The plate is cleared that is in the first station of a machine that has one.
fn clearing_of(book: &Book, machine: Machine) -> Option<Entry> {
    for &src in &STATIONS {
        if machine_of_station(src) == machine {
            if let Some(plate) = book.plate_at(src) {
                return Some(Entry::Quarantined { plate, src });
            }
        }
    }
    None
}

// Any plate is expected, or one of those in quarantine.
fn draw_expected(random: &mut Random, book: &Book) -> Entry {
    let mut plate = PlateId::new(random.below(10) as u32 + 1).unwrap_or_default();
    let quarantine = book.quarantine();
    for place in 0..quarantine.len() {
        if let Some((cleared, _)) = quarantine.get_index(place) {
            if random.chance(512) {
                plate = *cleared;
            }
        }
    }
    Entry::Expected { plate }
}
