//! The faults of the runs of a sweep, by the places of the runs.
ghost use Rattle.std.specs.Prelude.{◌≡◌, ◌<◌, ◌≤◌, ◌+◌, ◌-◌, ◌*◌, ◌/◌, ◌^◌, List, drop, get_or, length};
ghost use Rattle.std.specs.Prelude.{IfOk, IfSome, None, min};
ghost use Rattle.cell_sweep.specs.Cases.{IsCaseAt, begin_of, below, cases_of, drawn, drawn_in, end_of, most_faults};
ghost use Rattle.cell_sweep.specs.Cases.{motions_of, of_kind, pairs, parts_of_all, planned, singles};
ghost use Rattle.cell_sweep.specs.Drawn.{AreDrawn};

use crate::choice::{Choice, Part};
use crate::lots::Lots;
use cell_sim::{Fault, PlannedFault};
use cell_types::{AXES, Axis, axis_number};
use std::alloc::{AllocError, Global};

/// A motion of an axis.
#[derive(Clone, Copy, Debug, PartialEq, Eq)]
pub(crate) struct Motion {
    pub(crate) axis: Axis,
    /// Which of the axis's motions it is, counted from 1.
    pub(crate) number: u32,
}

// How many motions there are of all axes.
#[tactic(auto, unfolding(crate::specs::Cases::motions_by))]
fn count_motions(counts: &[u32; 9]) -> u64
    ensures { result ≡ length (motions_of counts.now) }
{
    let mut all = 0;
    for axis in AXES {
        all += u64::from(counts[axis_number(axis)]);
    }
    all
}

// The motion at a place of all motions.
#[tactic(auto, unfolding(crate::specs::Cases::motions_by))]
fn motion_at(counts: &[u32; 9], place: u64) -> Motion
    requires { place < length (motions_of counts.now) }
    ensures { (d : Motion) → get_or (motions_of counts.now) place d ≡ result }
{
    let mut left = place;
    for axis in AXES {
        let count = u64::from(counts[axis_number(axis)]);
        if left < count {
            return Motion {
                axis,
                number: left as u32 + 1,
            };
        }
        left -= count;
    }
    unreachable!()
}

// The row and the column of a place in so many rows of so many columns; `None` behind them.
fn cell_at(place: u64, rows: u64, columns: u64) -> Option<(u64, u64)>
    ensures row { IfSome result (λ cell. cell.0 < rows) }
    ensures column { IfSome result (λ cell. cell.1 < columns) }
    ensures place { IfSome result (λ cell. cell.0 * columns + cell.1 ≡ place) }
    ensures behind { result ≡ None → rows * columns ≤ place }
{
    if columns == 0 {
        return None;
    }
    let row = place / columns;
    if row < rows {
        Some((row, place % columns))
    } else {
        None
    }
}

// How many pairs of faults in different motions there are; `None` where they are 2^64 or more.
fn count_pairs(motions: u64, kinds: u64) -> Option<u64>
    ensures { IfSome result (λ all. all ≡ motions * (motions - 1) / 2 * (kinds * kinds)) }
{
    let of_motions = motions.checked_mul(motions.saturating_sub(1))? / 2;
    of_motions.checked_mul(kinds.checked_mul(kinds)?)
}

/// The motions and the kinds of faults that a sweep goes through.
#[derive(Clone, Copy)]
pub(crate) struct Places<'a> {
    counts: [u32; 9],
    kinds: &'a [Fault],
    // How many motions there are.
    motions: u64,
    ghost counted: { motions ≡ length (motions_of counts) },
    ghost fits: { motions * length kinds.now < 2 ^ 64 },
}

impl<'a> Places<'a> {
    /// The faults of each kind in so many motions of each axis; `None` where they are 2^64 or more.
    pub(crate) fn new(counts: [u32; 9], kinds: &'a [Fault]) -> Option<Places<'a>>
        ensures counts { IfSome result (λ p. p.counts ≡ counts) }
        ensures kinds { IfSome result (λ p. p.kinds.now ≡ kinds.now) }
    {
        let motions = count_motions(&counts);
        let _fits = motions.checked_mul(kinds.len() as u64)?;
        Some(Places {
            counts,
            kinds,
            motions,
        })
    }

    // The fault of a kind in a motion, by their places.
    fn fault(&self, motion: u64, kind: u64) -> PlannedFault
        requires motion { motion < length (motions_of self.now.counts) }
        requires kind { kind < length self.now.kinds.now }
        ensures { (m : Motion) (f : Fault) → result
            ≡ planned (get_or (motions_of self.now.counts) motion m) (get_or self.now.kinds.now kind f) }
    {
        let motion = motion_at(&self.counts, motion);
        PlannedFault {
            axis: motion.axis,
            motion: motion.number,
            fault: self.kinds[kind as usize],
        }
    }

    // The fault at a place of the faults of each kind in each motion.
    fn fault_at(&self, place: u64) -> PlannedFault
        requires { place < length (singles self.now.kinds.now (motions_of self.now.counts)) }
        ensures { (d : PlannedFault) → get_or (singles self.now.kinds.now (motions_of self.now.counts)) place d
            ≡ result }
    {
        match cell_at(place, self.motions, self.kinds.len() as u64) {
            Some((motion, kind)) => self.fault(motion, kind),
            None => unreachable!(),
        }
    }

    // The pair at a place of the pairs of a fault in this motion and one in a later motion; `None` behind them.
    fn pair_in(&self, motion: u64, place: u64) -> Option<[PlannedFault; 2]>
        requires { motion < length (motions_of self.now.counts) }
        ensures pair { IfSome result (λ pair. (d : List PlannedFault) → get_or (pairs self.now.kinds.now
            (drop motion (motions_of self.now.counts))) place d ≡ pair) }
        ensures behind { result ≡ None → length self.now.kinds.now
            * ((length (motions_of self.now.counts) - (motion + 1)) * length self.now.kinds.now) ≤ place }
    {
        let kinds = self.kinds.len() as u64;
        let later = self.motions - (motion + 1);
        let (kind, other) = cell_at(place, kinds, later * kinds)?;
        match cell_at(other, later, kinds) {
            Some((beyond, second)) => Some([
                self.fault(motion, kind),
                self.fault(motion + 1 + beyond, second),
            ]),
            None => unreachable!(),
        }
    }

    // The pair at a place of the pairs of faults in different motions.
    fn pair_at(&self, place: u64) -> [PlannedFault; 2]
        requires { place < length (pairs self.now.kinds.now (motions_of self.now.counts)) }
        ensures { (d : List PlannedFault) → get_or (pairs self.now.kinds.now (motions_of self.now.counts)) place d
            ≡ result }
    {
        let kinds = self.kinds.len() as u64;
        let mut left = place;
        for motion in 0..self.motions {
            if let Some(pair) = self.pair_in(motion, left) {
                return pair;
            }
            left -= kinds * ((self.motions - (motion + 1)) * kinds);
        }
        unreachable!()
    }

    // A fault in a motion, with a kind that is drawn.
    fn draw_fault(&self, lots: &mut Lots, motion: u64) -> PlannedFault
        requires motion { motion < length (motions_of self.now.counts) }
        requires kinds { 0 < length self.now.kinds.now }
        ensures fault { (m : Motion) → result ≡ of_kind self.now.kinds.now
            (get_or (motions_of self.now.counts) motion m)
            (below (length self.now.kinds.now) lots.old.generator).0 }
        ensures lots { lots.new.generator ≡ (below (length self.now.kinds.now) lots.old.generator).1 }
    {
        let kind = lots.below(self.kinds.len() as u64);
        self.fault(motion, kind)
    }

    // Draws so many motions evenly, or takes all where there are fewer, and for each a kind. The motions are gone
    // through in their order: each is taken with the chance that those still wanted have among those left.
    fn draw(
        &self,
        alloc: Global,
        lots: &mut Lots,
        faults: u32,
    ) -> Result<Vec<PlannedFault>, AllocError>
        requires { 0 < length self.now.kinds.now }
        ensures { IfOk result (λ drawn. drawn.items ≡ drawn_in self.now.kinds.now (motions_of self.now.counts)
            (min faults (length (motions_of self.now.counts))) lots.old.generator) }
    {
        let mut drawn = Vec::new(alloc);
        let mut wanted = u64::from(faults).min(self.motions);
        for motion in 0..self.motions {
            if lots.below(self.motions - motion) < wanted {
                drawn.push(self.draw_fault(lots, motion))?;
                wanted -= 1;
            }
        }
        Ok(drawn)
    }

    // The faults of the run at a place of those that are drawn: none without kinds.
    fn drawn_at(
        &self,
        alloc: Global,
        faults: u32,
        seed: u32,
        place: u64,
    ) -> Result<Vec<PlannedFault>, AllocError>
        ensures drawn { IfOk result (λ case. case.items
            ≡ drawn self.now.kinds.now (motions_of self.now.counts) faults seed place) }
        ensures are { IfOk result (λ case. AreDrawn self.now.kinds.now (motions_of self.now.counts) faults case.items) }
        ensures most { IfOk result (λ case. length case.items ≤ faults) }
    {
        if self.kinds.is_empty() {
            return Ok(Vec::new(alloc));
        }
        let mut lots = Lots::of_run(seed, place);
        self.draw(alloc, &mut lots, faults)
    }

    /// How many runs there are; `None` where they are 2^64 or more.
    pub(crate) fn count(&self, choice: Choice) -> Option<u64>
        ensures { IfSome result (λ all. all
            ≡ length (cases_of choice self.now.kinds.now (motions_of self.now.counts))) }
    {
        let kinds = self.kinds.len() as u64;
        match choice {
            Choice::Single => Some(self.motions * kinds),
            Choice::Pairs => count_pairs(self.motions, kinds),
            Choice::Random { runs, .. } => Some(u64::from(runs)),
        }
    }

    /// The faults of the run at a place.
    pub(crate) fn case_at(
        &self,
        alloc: Global,
        choice: Choice,
        place: u64,
    ) -> Result<Vec<PlannedFault>, AllocError>
        requires { place < length (cases_of choice self.now.kinds.now (motions_of self.now.counts)) }
        ensures case { IfOk result (λ faults. IsCaseAt choice self.now.kinds.now (motions_of self.now.counts) place
            faults.items) }
        ensures most { IfOk result (λ faults. length faults.items ≤ most_faults choice) }
    {
        match choice {
            Choice::Single => {
                let faults = Vec::from_slice(alloc, [self.fault_at(place)].as_slice())?;
                Ok(faults)
            }
            Choice::Pairs => {
                let faults = Vec::from_slice(alloc, self.pair_at(place).as_slice())?;
                Ok(faults)
            }
            Choice::Random { faults, seed, .. } => self.drawn_at(alloc, faults, seed, place),
        }
    }
}

// So many of so many equal parts of a number, rounded down.
fn parts_of_all(all: u64, number: u32, count: u32) -> u64
    ensures { result ≡ parts_of_all all number count }
{
    let parts = u128::from(all) * u128::from(number);
    match parts.checked_div(u128::from(count)) {
        Some(place) => u128::from(all).min(place) as u64,
        None => 0,
    }
}

/// Places one after another.
#[derive(Clone, Copy)]
pub(crate) struct Span {
    pub(crate) begin: u64,
    /// Where they end; there are none if that is before the first.
    pub(crate) end: u64,
}

/// The places of a part of so many.
pub(crate) fn span_of(part: Part, all: u64) -> Span
    ensures begin { result.begin ≡ begin_of part all }
    ensures end { result.end ≡ end_of part all }
    ensures inside { result.end ≤ all }
{
    Span {
        begin: parts_of_all(all, part.number.saturating_sub(1), part.count),
        end: parts_of_all(all, part.number, part.count),
    }
}
