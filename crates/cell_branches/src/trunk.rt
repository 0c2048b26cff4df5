//! The run without faults, paused on its way.
ghost use Rattle.std.specs.Prelude.{◌≡◌, [], IfOk, IfSome, List, true};
ghost use Rattle.operator_desk.specs.declared.line.Line.{Line as LineValue};
ghost use Rattle.cell_sim.specs.Script.{are_later};
ghost use Rattle.cell_sim.specs.Simulated.{opening_with};
ghost use Rattle.sim_plant.specs.Answers.{SimCell, sim_cell};
ghost use Rattle.cell_runs.specs.Cells.{IsSimulated};
ghost use Rattle.cell_runs.specs.Runs.{limits_of};
ghost use Rattle.cell_branches.specs.Trunks.{IsOnWay, IsStop, IsTrunk};

use cell_ledger::Blanks;
use cell_plant::Unkept;
use cell_ports::Plan;
use cell_rounds::{Leg, Pause, Start, Terms, finish, go_on};
use cell_runs::{Outcome, book_after, empty_book, simulate};
use cell_sim::{FaultScript, World};
use operator_desk::Script;
use plate_book::Book;
use sim_plant::{Faultless, SimPlant};
use std::alloc::{AllocError, Global};
use std::marker::{Brand, Model};

// At how many places the run is paused at most.
const MOST_STOPS: u32 = 64;

// About how many bytes the books of these places may take together.
const MOST_BYTES: u32 = 32_000_000;

/// Where the run without faults was paused, and its cell there.
#[derive(Drop)]
pub(crate) struct Stop {
    pub(crate) pause: Pause,
    pub(crate) cell: Faultless,
}

/// The run without faults by a plan and an operator's script, paused on its way.
#[derive(Drop)]
pub struct Trunk {
    plan: Plan,
    script: Script,
    stops: Vec<Stop>,
}

impl Model for Trunk {
    ghost use Rattle.cell_branches.specs.Trunks.{TrunkOf};

    ghost Value = { TrunkOf };

    ghost view = { λ trunk. record { plan = trunk.plan; script = trunk.script; stops = trunk.stops.items } };
}

/// What a run with faults left.
#[derive(Drop)]
pub struct Branch {
    pub outcome: Outcome,
    /// How many plates can still be laid in, those included that can be laid back.
    pub left: u32,
}

// At how many places the run may be paused: its book takes four bytes for an entry, and 57 for a plate.
fn most_stops(plan: &Plan) -> u32 {
    let entries = plan.journal_limit.saturating_mul(4);
    let plates = plan.plates.saturating_mul(57);
    (MOST_BYTES / entries.saturating_add(plates).max(1)).clamp(1, MOST_STOPS)
}

// How many entries the run has.
fn length_of(alloc: Global, script: &Script, plan: &Plan) -> Result<u32, AllocError> {
    let script = script.copy(alloc)?;
    let none = FaultScript::none(alloc);
    let mut cell = SimPlant::new(World::new(plan.plates), &none);
    let outcome = simulate(alloc, &mut cell, script, plan)?;
    Ok(outcome.book.journal().len())
}

// A book with the same journal.
fn copy_of(alloc: Global, plan: &Plan, book: &Book) -> Result<Book, AllocError>
    ensures limits { IfOk result (λ copy. copy.limits ≡ limits_of plan.now) }
    ensures entries { IfOk result (λ copy. copy.entries ≡ book.now.entries) }
{
    match book_after(alloc, plan, book.journal()) {
        Ok(copy) => Ok(copy),
        Err(_) => Err(AllocError),
    }
}

// Goes on from one pause to the next, so many rounds later, unless the run halts before.
fn next_pause(
    alloc: Global,
    plan: &Plan,
    cell: &mut Faultless,
    pause: Pause,
    every: u32,
) -> Option<Pause>
    ensures { (script : List LineValue) → IsOnWay plan.now script cell.old pause
        → IfSome result (λ next. IsOnWay plan.now script cell.new next) }
{
    let until = pause.rounds().saturating_add(every).min(plan.turns);
    if pause.rounds() > until {
        return None;
    }
    let leg = Leg {
        terms: Terms { plan, waits: false },
        until,
    };
    let blanks = Blanks::new(1);
    match go_on::<_, _, Brand>(alloc, cell, &mut Unkept, pause, blanks, leg) {
        Ok(next) => Some(next),
        Err(_outcome) => None,
    }
}

impl Trunk {
    // Keeps where the run is paused.
    fn keep(&mut self, alloc: Global, pause: &Pause, cell: &Faultless) -> Result<(), AllocError>
        requires { IsOnWay self.old.plan self.old.script cell.now pause.now }
        ensures plan { self.new.plan ≡ self.old.plan }
        ensures script { self.new.script ≡ self.old.script }
        ensures on_way { IsTrunk self.old → IsTrunk self.new }
    {
        let book = copy_of(alloc, &self.plan, pause.book())?;
        let stop = Stop {
            pause: pause.copy(book, pause.script().copy(alloc)?),
            cell: cell.copy(alloc),
        };
        self.stops.push(stop)?;
        Ok(())
    }

    /// Runs the simulated cell without faults, and keeps where it is now and then.
    pub fn run(alloc: Global, script: Script, plan: &Plan) -> Result<Trunk, AllocError>
        ensures plan { IfOk result (λ trunk. trunk.plan ≡ plan.now) }
        ensures script { IfOk result (λ trunk. trunk.script ≡ script) }
        ensures on_way { IfOk result IsTrunk }
    {
        let stops = most_stops(plan);
        // The run books about one entry a round.
        let every = (length_of(alloc, &script, plan)? / stops.max(1)).saturating_add(1);
        let start = Start {
            book: empty_book(alloc, plan)?,
            script: script.copy(alloc)?,
            pending: None,
        };
        let mut pause = Pause::start(start, plan);
        let mut cell = Faultless::new(alloc, World::new(plan.plates));
        let mut trunk = Trunk {
            plan: *plan,
            script,
            stops: Vec::new(alloc),
        };
        for _stop in 0..stops {
            trunk.keep(alloc, &pause, &cell)?;
            let Some(next) = next_pause(alloc, plan, &mut cell, pause, every) else {
                return Ok(trunk);
            };
            pause = next;
        }
        Ok(trunk)
    }

    // The last place before each of these faults.
    fn last_before(&self, faults: &FaultScript) -> Option<&Stop>
        requires { IsTrunk self.now }
        ensures stop { IfSome result (λ stop. IsStop self.now.plan self.now.script stop.now) }
        ensures before { IfSome result (λ stop. are_later stop.now.cell.latest faults.now ≡ true) }
    {
        for stop in self.stops.iter().rev() {
            if faults.are_later(stop.cell.latest()) {
                return Some(stop);
            }
        }
        None
    }

    /// Runs the simulated cell with these faults, from the last place before their motions. There is none where a fault
    /// is in a motion before the first.
    pub fn branch(&self, alloc: Global, faults: &FaultScript) -> Result<Option<Branch>, AllocError>
        requires { IsTrunk self.now }
        ensures { IfOk result (λ branch. IfSome branch (λ b. (left : SimCell)
            × IsSimulated (limits_of self.now.plan) self.now.plan
            (sim_cell (opening_with self.now.plan.plates) faults.now) [] self.now.script left
            b.outcome.book.entries b.outcome.end)) }
    {
        let Some(stop) = self.last_before(faults) else {
            return Ok(None);
        };
        let book = copy_of(alloc, &self.plan, stop.pause.book())?;
        let pause = stop.pause.copy(book, stop.pause.script().copy(alloc)?);
        let mut cell = SimPlant::new(stop.cell.world().copy(), faults);
        let terms = Terms {
            plan: &self.plan,
            waits: false,
        };
        let blanks = Blanks::new(1);
        let ran = finish::<_, _, Brand>(alloc, &mut cell, &mut Unkept, pause, blanks, terms);
        let left = cell.world().left();
        let outcome = Outcome {
            book: ran.book,
            end: ran.halt.end(),
        };
        Ok(Some(Branch { outcome, left }))
    }
}
