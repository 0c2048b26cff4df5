//! Runs of a sweep that several threads make.
ghost use Rattle.std.specs.Prelude.{◌≡◌, ◌<◌, ◌≤◌, ℕ, List, [], All, IfErr, IfOk, IfSome, Some, length};
ghost use Rattle.std.specs.Prelude.{slice_get};
ghost use Rattle.cell_sim.specs.declared.fault.PlannedFault.{PlannedFault};
ghost use Rattle.cell_branches.specs.Trunks.{IsTrunk};
ghost use Rattle.cell_sweep.specs.Batches.{AreMade, IsMade};
ghost use Rattle.cell_sweep.specs.Cases.{cases_of, motions_of};
ghost use Rattle.cell_sweep.specs.Rows.{IsNoRun};
ghost use Rattle.cell_sweep.specs.Sweeps.{RefusesSome, Wanted, wanted_by};

use crate::places::{Places, Span};
use crate::row::Row;
use crate::runs::NoRun;
use crate::sweep::{Task, run_case};
use std::alloc::{AllocError, Global};
use std::thread;
use std::thread::Threads;

// How many runs of a batch a thread makes at most.
const ROWS: u64 = 64;

/// What is made of a run: its row, and the line of it.
#[derive(Drop)]
pub(crate) struct Made {
    /// The place of the run.
    pub(crate) place: u64,
    pub(crate) row: Row,
    pub(crate) line: Vec<u8>,
}

/// Places one after another, and what threads made of their runs.
///
/// The places stand in rows of one for each thread. In each row a thread makes the run one further on, so that all have
/// as much to do, whatever the kinds of faults take.
#[derive(Drop)]
pub(crate) struct Batch {
    pub(crate) alloc: Global,
    pub(crate) span: Span,
    /// What each thread made, from the first row on.
    pub(crate) lanes: Vec<Vec<Made>>,
}

/// What is made of the run at a place.
pub(crate) fn make_at(
    alloc: Global,
    task: &Task<'_, '_>,
    places: &Places<'_>,
    place: u64,
) -> Result<Made, NoRun>
    requires inside { place < length (cases_of task.now.sweep.choice places.now.kinds.now
        (motions_of places.now.counts)) }
    requires shared { IfSome task.now.shared (λ s. IsTrunk s.now.trunk) }
    ensures place { IfOk result (λ made. made.place ≡ place) }
    ensures made { IfOk result (IsMade task.now.settings.now.text.now task.now.operator.now (wanted_by task.now.sweep)
        (cases_of task.now.sweep.choice places.now.kinds.now (motions_of places.now.counts))) }
    ensures refused { IfErr result (IsNoRun (RefusesSome task.now.settings.now.text.now task.now.operator.now
        task.now.sweep.choice task.now.sweep.service)) }
{
    let faults = places.case_at(alloc, task.sweep.choice, place)?;
    let (row, line) = run_case(alloc, task, faults)?;
    Ok(Made { place, row, line })
}

// The place of a lane in a row; `None` where the lane has none there.
fn place_in(span: Span, lanes: u64, lane: u64, row: u64) -> Option<u64>
    ensures { IfSome result (λ place. place < span.end) }
{
    let column = row.wrapping_add(lane).checked_rem(lanes)?;
    let before = row.checked_mul(lanes)?.checked_add(column)?;
    let place = span.begin.checked_add(before)?;
    if place < span.end { Some(place) } else { None }
}

// Makes the run at a place, if there is one, behind those that are made. One that can't be made is left out.
fn make_next(
    alloc: Global,
    task: &Task<'_, '_>,
    places: &Places<'_>,
    place: Option<u64>,
    made: &mut Vec<Made>,
)
    requires inside { IfSome place (λ place. place < length (cases_of task.now.sweep.choice places.now.kinds.now
        (motions_of places.now.counts))) }
    requires shared { IfSome task.now.shared (λ s. IsTrunk s.now.trunk) }
    ensures { AreMade task.now.settings.now.text.now task.now.operator.now (wanted_by task.now.sweep)
        (cases_of task.now.sweep.choice places.now.kinds.now (motions_of places.now.counts)) made.old.items
        → AreMade task.now.settings.now.text.now task.now.operator.now (wanted_by task.now.sweep)
        (cases_of task.now.sweep.choice places.now.kinds.now (motions_of places.now.counts)) made.new.items }
{
    let Some(place) = place else {
        return;
    };
    if let Ok(one) = make_at(alloc, task, places, place) {
        let _ = made.push(one);
    }
}

// What a thread makes of a batch.
fn make_lane(
    alloc: Global,
    task: &Task<'_, '_>,
    places: &Places<'_>,
    span: Span,
    lanes: u64,
    lane: usize,
) -> Vec<Made>
    requires inside { span.end ≤ length (cases_of task.now.sweep.choice places.now.kinds.now
        (motions_of places.now.counts)) }
    requires shared { IfSome task.now.shared (λ s. IsTrunk s.now.trunk) }
    ensures { AreMade task.now.settings.now.text.now task.now.operator.now (wanted_by task.now.sweep)
        (cases_of task.now.sweep.choice places.now.kinds.now (motions_of places.now.counts)) result.items }
{
    let mut made = Vec::new(alloc);
    for row in 0..ROWS {
        let place = place_in(span, lanes, lane as u64, row);
        make_next(alloc, task, places, place, &mut made);
    }
    made
}

// What a thread made, by its number.
fn lane_at(lanes: &[Vec<Made>], number: usize) -> Option<&Vec<Made>>
    ensures { IfSome result (λ lane. slice_get lanes.now number ≡ Some lane.now) }
{
    lanes.get(number)
}

// What is made of a run, by its row.
fn row_at(made: &[Made], number: usize) -> Option<&Made>
    ensures { IfSome result (λ one. slice_get made.now number ≡ Some one.now) }
{
    made.get(number)
}

impl Batch {
    /// Places of which no run is made yet.
    pub(crate) fn unmade(alloc: Global, span: Span) -> Batch
        ensures span { result.span ≡ span }
        ensures lanes { result.lanes.items ≡ [] }
    {
        let lanes = Vec::new(alloc);
        Batch { alloc, span, lanes }
    }

    /// Places of which so many threads make the runs, as long as threads can be had.
    pub(crate) fn make<R: Threads + Sync>(
        rt: &R,
        alloc: Global,
        task: &Task<'_, '_>,
        places: &Places<'_>,
        span: Span,
    ) -> Result<Batch, AllocError>
        requires inside { span.end ≤ length (cases_of task.now.sweep.choice places.now.kinds.now
            (motions_of places.now.counts)) }
        requires shared { IfSome task.now.shared (λ s. IsTrunk s.now.trunk) }
        ensures span { IfOk result (λ batch. batch.span ≡ span) }
        ensures lanes { IfOk result (λ batch. All (λ lane. AreMade task.now.settings.now.text.now
            task.now.operator.now (wanted_by task.now.sweep)
            (cases_of task.now.sweep.choice places.now.kinds.now (motions_of places.now.counts)) lane.items)
            batch.lanes.items) }
    {
        let count = task.sweep.threads.max(1);
        let make = move |lane: usize| -> Vec<Made>
            requires inside { span.end ≤ length (cases_of task.now.sweep.choice places.now.kinds.now
                (motions_of places.now.counts)) }
            requires shared { IfSome task.now.shared (λ s. IsTrunk s.now.trunk) }
            ensures { AreMade task.entry.now.settings.now.text.now task.entry.now.operator.now
                (wanted_by task.entry.now.sweep) (cases_of task.entry.now.sweep.choice places.entry.now.kinds.now
                (motions_of places.entry.now.counts)) result.items }
        { make_lane(alloc, task, places, span, u64::from(count), lane) };
        let lanes = thread::map_indices(rt, alloc, count as usize, &make)?;
        Ok(Batch { alloc, span, lanes })
    }

    /// What was made of the run at a place, if it was.
    pub(crate) fn made_at(&self, place: u64) -> Option<&Made>
        ensures place { IfSome result (λ one. one.now.place ≡ place) }
        ensures made { (settings operator : List ℕ) (w : Wanted) (cases : List (List PlannedFault))
            → All (λ lane. AreMade settings operator w cases lane.items) self.now.lanes.items
            → IfSome result (λ one. IsMade settings operator w cases one.now) }
    {
        let lanes = self.lanes.len() as u64;
        let before = place.checked_sub(self.span.begin)?;
        let row = before.checked_div(lanes)?;
        let lane = (before % lanes + lanes - row % lanes) % lanes;
        let made = lane_at(self.lanes.as_slice(), lane as usize)?;
        let one = row_at(made.as_slice(), row as usize)?;
        if one.place == place { Some(one) } else { None }
    }
}

/// How many runs are made at a time by so many threads.
pub(crate) fn batch_of(threads: u32) -> u64
    ensures { 0 < result }
{
    u64::from(threads.max(1)) * ROWS
}
