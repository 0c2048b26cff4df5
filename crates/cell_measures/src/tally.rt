//! How the time of a journal goes.
ghost use Rattle.std.specs.Prelude.{◌≡◌, ◌+◌, ◌∷◌, [], All, IfOk, count_by, length, max};
ghost use Rattle.cell_measures.specs.Times.{times};
ghost use Rattle.cell_measures.specs.Sums.{Counts, IsCounted, is_declaration, is_delivery, last_of, whole};

use crate::course::Course;
use crate::durations::Durations;
use crate::holders::Holders;
use crate::measures::{Measures, Spent, Spread};
use crate::times::times_of;
use crate::waits::machine_of;
use cell_journal::Journal;
use cell_types::{Entry, Machine, machine_number};
use std::alloc::{AllocError, Global};

// What is counted while a journal is gone through.
#[derive(Drop)]
struct Tally {
    time: u64,
    courses: [Course; 6],
    holders: Holders,
    // When each plate was laid in first, by its number.
    laid_in: Vec<u64>,
    // How long each delivered plate was in the cell.
    plates: Vec<u64>,
    deliveries: Vec<u64>,
    declarations: Vec<u64>,
    repairs: Vec<u64>,
}

impl Tally {
    fn new(alloc: Global) -> Tally
        ensures { Counts result [] [] }
    {
        Tally {
            time: 0,
            courses: [Course::BEGIN; 6],
            holders: Holders::NONE,
            laid_in: Vec::new(alloc),
            plates: Vec::new(alloc),
            deliveries: Vec::new(alloc),
            declarations: Vec::new(alloc),
            repairs: Vec::new(alloc),
        }
    }

    // Counts an entry that ended then.
    fn note(&mut self, entry: &Entry, end: u64) -> Result<(), AllocError>
        requires { All (IsCounted self.old.time) self.old.courses }
        ensures time { IfOk result (λ _. self.new.time ≡ max self.old.time end) }
        ensures courses { IfOk result (λ _. All (IsCounted self.new.time) self.new.courses) }
        ensures deliveries { IfOk result (λ _. length self.new.deliveries.items ≡ length self.old.deliveries.items +
            count_by is_delivery (entry.now ∷ [])) }
        ensures declarations { IfOk result (λ _. length self.new.declarations.items ≡ length self.old.declarations.items
            + count_by is_declaration (entry.now ∷ [])) }
    {
        self.note_course(entry, end)?;
        self.holders.follow(entry, end);
        self.note_plate(entry, end)
    }

    // Counts how the entry's machine spent the time up to its end.
    fn note_course(&mut self, entry: &Entry, end: u64) -> Result<(), AllocError>
        requires { All (IsCounted self.old.time) self.old.courses }
        ensures time { IfOk result (λ _. self.new.time ≡ max self.old.time end) }
        ensures courses { IfOk result (λ _. All (IsCounted self.new.time) self.new.courses) }
        ensures deliveries { self.new.deliveries ≡ self.old.deliveries }
        ensures declarations { self.new.declarations ≡ self.old.declarations }
    {
        self.time = self.time.max(end);
        let waits_from = self.holders.waits_from(entry);
        let course = &mut self.courses[machine_number(machine_of(*entry))];
        course.go_on(end, waits_from);
        if let Some(repaired) = course.follow(entry, end) {
            self.repairs.push(repaired)?;
        }
        Ok(())
    }

    // Counts a plate that was laid in or taken out, or a declaration.
    fn note_plate(&mut self, entry: &Entry, end: u64) -> Result<(), AllocError>
        ensures time { self.new.time ≡ self.old.time }
        ensures courses { self.new.courses ≡ self.old.courses }
        ensures deliveries { IfOk result (λ _. length self.new.deliveries.items ≡ length self.old.deliveries.items +
            count_by is_delivery (entry.now ∷ [])) }
        ensures declarations { IfOk result (λ _. length self.new.declarations.items ≡ length self.old.declarations.items
            + count_by is_declaration (entry.now ∷ [])) }
    {
        match entry {
            Entry::Admitted { .. } => self.laid_in.push(end)?,
            Entry::Delivered { plate } => self.deliver(plate.number(), end)?,
            Entry::Declared { .. } => self.declarations.push(end)?,
            _ => {}
        }
        Ok(())
    }

    // Counts a plate that was taken out then.
    fn deliver(&mut self, number: u32, end: u64) -> Result<(), AllocError>
        ensures time { self.new.time ≡ self.old.time }
        ensures courses { self.new.courses ≡ self.old.courses }
        ensures deliveries { IfOk result (λ _. length self.new.deliveries.items ≡ length self.old.deliveries.items +
            1) }
        ensures declarations { self.new.declarations ≡ self.old.declarations }
    {
        let place = (number as usize).saturating_sub(1);
        if let Some(laid_in) = self.laid_in.get(place) {
            let span = end.saturating_sub(*laid_in);
            self.plates.push(span)?;
        }
        self.deliveries.push(end)?;
        Ok(())
    }

    // How a machine spent the time.
    fn spent_of(&self, machine: Machine) -> Spent
        requires { All (IsCounted self.now.time) self.now.courses }
        ensures { whole result ≡ self.now.time }
    {
        let mut course = self.courses[machine_number(machine)];
        course.go_on(self.time, None);
        course.spent()
    }

    // How each machine spent the time.
    fn spent(&self) -> [Spent; 6]
        requires { All (IsCounted self.now.time) self.now.courses }
        ensures { All (λ s. whole s ≡ self.now.time) result }
    {
        [
            self.spent_of(Machine::Feed),
            self.spent_of(Machine::Table),
            self.spent_of(Machine::Robot),
            self.spent_of(Machine::Press1),
            self.spent_of(Machine::Press2),
            self.spent_of(Machine::Deposit),
        ]
    }

    // What was counted of a journal of so many entries.
    fn finish(mut self, alloc: Global, entries: u32) -> Result<Measures, AllocError>
        requires { All (IsCounted self.time) self.courses }
        ensures entries { IfOk result (λ m. m.entries ≡ entries) }
        ensures time { IfOk result (λ m. m.time ≡ self.time) }
        ensures delivered { IfOk result (λ m. m.delivered ≡ length self.deliveries.items) }
        ensures declared { IfOk result (λ m. m.declared ≡ length self.declarations.items) }
        ensures machines { IfOk result (λ m. All (λ s. whole s ≡ self.time) m.machines) }
    {
        let machines = self.spent();
        let mut waits = waits_for_delivery(
            alloc,
            self.declarations.as_slice(),
            self.deliveries.as_slice(),
        )?;
        Ok(Measures {
            entries,
            time: self.time,
            delivered: self.deliveries.len() as u64,
            plate: Spread::of(&mut self.plates)?,
            rate: rate_of(self.deliveries.as_slice()),
            machines,
            zones: self.holders.held_until(self.time),
            declared: self.declarations.len() as u64,
            to_delivery: Spread::of(&mut waits)?,
            to_repair: Spread::of(&mut self.repairs)?,
        })
    }
}

// A thousand times the plates for each 1,000 units after the first delivery.
fn rate_of(deliveries: &[u64]) -> Option<u64> {
    let first = *deliveries.first()?;
    let last = *deliveries.last()?;
    let later = (deliveries.len() as u64).saturating_sub(1);
    match last.saturating_sub(first) {
        0 => None,
        span => Some(later.saturating_mul(1_000_000) / span),
    }
}

// How long it is from each declaration to the next delivery, where there is one. The deliveries are in the order of
// their times.
fn waits_for_delivery(
    alloc: Global,
    declarations: &[u64],
    deliveries: &[u64],
) -> Result<Vec<u64>, AllocError> {
    let mut waits = Vec::new(alloc);
    for declared in declarations {
        let next = match deliveries.binary_search(declared) {
            Ok(place) | Err(place) => deliveries.get(place),
        };
        if let Some(next) = next {
            waits.push(next.saturating_sub(*declared))?;
        }
    }
    Ok(waits)
}

/// How the time of a journal goes, where each entry is as early as `times_of` says. `AllocError` where memory was
/// refused.
pub fn measure(
    alloc: Global,
    journal: &Journal,
    durations: &Durations,
) -> Result<Measures, AllocError>
    ensures entries { IfOk result (λ m. m.entries ≡ length journal.now.entries) }
    ensures time { IfOk result (λ m. m.time ≡ last_of (times durations.now journal.now.entries)) }
    ensures delivered { IfOk result (λ m. m.delivered ≡ count_by is_delivery journal.now.entries) }
    ensures declared { IfOk result (λ m. m.declared ≡ count_by is_declaration journal.now.entries) }
    ensures whole { IfOk result (λ m. All (λ s. whole s ≡ m.time) m.machines) }
{
    let ends = times_of(alloc, journal, durations)?;
    let mut tally = Tally::new(alloc);
    for place in 0..journal.len() {
        tally.note(&journal.at(place), ends[place as usize])?;
    }
    tally.finish(alloc, journal.len())
}
