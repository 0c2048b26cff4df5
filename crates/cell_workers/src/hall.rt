//! What the workers of a run share under one lock.
ghost use Rattle.std.specs.Prelude.{◌≡◌, ◌≢◌, ◌<◌, ◌⊎◌, ◌↔◌, ◌&&◌, ◌++◌, ◌∷◌, [], true, false, None, Some, Option};
ghost use Rattle.std.specs.Prelude.{IsSome, IfOk, IfErr, OnOk, OnErr, option_to_list, is_none, slice_set, vec_capacity};
ghost use Rattle.std.specs.Prelude.{vec_len};
ghost use Rattle.cell_types.specs.Entries.{actor_of};
ghost use Rattle.cell_types.specs.declared.words.Actor.TheVariants as actors;
ghost use Rattle.cell_types.specs.Same.{machine_number};
ghost use Rattle.cell_rules.specs.Views.{is_quarantined};
ghost use Rattle.cell_rules.specs.Legal.{first_of};
ghost use Rattle.cell_ledger.specs.Counts.{plus, count_one};
ghost use Rattle.cell_ledger.specs.Held.{held};
ghost use Rattle.cell_turns.specs.Minds.{Mind, FitsMind, machine_of_watch};
ghost use Rattle.cell_workers.specs.Ends.{is_idle};
ghost use Rattle.cell_workers.specs.Idling.{are_all_idle, idle_after, is_anyone_idle, EndsWhere, end_by};
ghost use Rattle.cell_workers.specs.Standing.{all_called_for};
ghost use Rattle.cell_workers.specs.Working.{Served, Stands, IsFullFor};

use crate::ends::{End, end_at_rest, is_idle};
use cell_diagnosis::Reading;
use cell_ledger::{Kept, Run, Shares};
use cell_ports::Plan;
use cell_turns::Watch;
use cell_turns::turns::{TurnAt, TurnError, book_turn};
use cell_types::{Entry, Machine};
use plate_book::Refusal;
use std::sync::{Condvar, Mutex};

/// Why a worker ended.
#[derive(Clone, Copy, PartialEq, Eq, Debug)]
pub enum Ended {
    /// An end was set by another, or all were idle.
    Told,
    /// It has made all its turns.
    Turns,
    /// It was refused memory.
    Memory,
    /// The journal is full, or no further plate has a number.
    Full,
    /// Its port failed where nothing more can be done, or the operator's booking was refused.
    PortLost,
}

/// What lies under the lock of a run: its book, and who has nothing to do. Each entry of the journal by which a machine
/// set out to do something, `Claimed`, `Yielded`, `Started`, `Gripped` or `Dropped`, was useful for it where it stands.
/// The workers are the machines in their order, and then the operator.
#[derive(Drop)]
pub struct Hall<R: Run> {
    /// The run's book, tied to the run's ledgers.
    pub kept: Kept<R>,
    /// Who has nothing to do as the journal is.
    pub idle: [bool; 7],
    /// Who ended because its port failed.
    pub lost: [bool; 7],
    /// How the run ends; the first that is set stands.
    pub end: Option<End>,
    pub ghost useful: { all_called_for kept.limits kept.entries ≡ true },
}

/// The hall with its lock, and what idle workers wait on until the journal is longer or an end is set.
#[derive(Drop)]
pub struct Room<R: Run> {
    pub hall: Mutex<Hall<R>>,
    pub moved: Condvar,
}

/// What a machine's worker holds: its entries, its shares, which count them, and the machine's watch.
#[derive(Drop)]
pub struct Worker<R: Run> {
    pub entries: Vec<Entry>,
    pub shares: Shares<R>,
    pub watch: Watch,
}

/// Whether all are marked as idle.
fn all_idle(idle: &[bool; 7]) -> bool
    ensures { result ≡ are_all_idle idle.now }
{
    idle.iter().all(|idle| *idle)
}

/// Notes whether a machine whose turn booked nothing is idle, and the end where all are. It answers whether it is.
fn note_rest<R: Run>(
    machine: Machine,
    kept: &Kept<R>,
    watch: &Watch,
    plan: &Plan,
    idle: &mut [bool; 7],
    end: &mut Option<End>,
) -> bool
    ensures rests { (s : Mind) → FitsMind watch.now s → result ≡ is_idle kept.now.entries machine plan.now s }
    ensures idle { idle.new ≡ slice_set idle.old (machine_number machine) result }
    ensures end { EndsWhere (are_all_idle idle.new) plan.now.plates kept.now.entries end.old end.new }
{
    let rests = is_idle(machine, kept.book(), watch, plan);
    idle[machine as usize] = rests;
    if all_idle(idle) {
        *end = Some(end_at_rest(kept.book(), plan));
    }
    rests
}

/// What a turn's error ends.
fn ends_by(error: TurnError) -> (End, Ended)
    ensures end { (before : Option End) → Some result.0 ≡ end_by result.1 before }
    ensures own { (result.1 ≡ Ended.Memory) ⊎ (result.1 ≡ Ended.Full) }
    ensures full { result.1 ≡ Ended.Full → ((why : Refusal) × (error ≡ TurnError.Refused why)) }
    ensures memory { result.1 ≡ Ended.Memory → (error ≡ TurnError.OutOfMemory)
        ⊎ (error ≡ TurnError.Refused Refusal.OutOfMemory) }
{
    match error {
        TurnError::OutOfMemory | TurnError::Refused(Refusal::OutOfMemory) => {
            (End::Memory, Ended::Memory)
        }
        TurnError::Refused(_) => (End::Full, Ended::Full),
    }
}

impl<R: Run> Hall<R> {
    /// A turn of a machine, unless the run has ended. It answers what was booked, and whether the worker is idle now;
    /// or why the worker ends, and nothing was booked.
    pub fn serve(
        &mut self,
        machine: Machine,
        worker: &mut Worker<R>,
        reading: Option<Reading>,
        plan: &Plan,
    ) -> Result<(Option<Entry>, bool), Ended>
        requires { machine_of_watch worker.old.watch ≡ machine }
        ensures served { IfOk result (λ r. Served machine plan.now reading r.0 worker.old.entries.items
            worker.new.entries.items worker.old.shares worker.new.shares worker.old.watch worker.new.watch) }
        ensures kept { IfOk result (λ r. self.new.kept ≡ record {
          limits = self.old.kept.limits;
          entries =
              self.old.kept.entries ++ option_to_list r.0;
        }) }
        ensures machine { machine_of_watch worker.new.watch ≡ machine }
        ensures rests { IfOk result (λ r. (s : Mind) → FitsMind worker.new.watch s
            → r.1 ≡ (is_none r.0 && is_idle self.new.kept.entries machine plan.now s)) }
        ensures idle { IfOk result (λ r. self.new.idle ≡ idle_after machine r.0 r.1 self.old.idle self.old.lost) }
        ensures end { IfOk result (λ r. EndsWhere (is_none r.0 && are_all_idle self.new.idle) plan.now.plates
            self.new.kept.entries self.old.end self.new.end) }
        ensures ended { (result ≢ Err Ended.PortLost) × (result ≢ Err Ended.Turns) }
        ensures told { (result ≡ Err Ended.Told) ↔ IsSome self.old.end }
        ensures full { result ≡ Err Ended.Full
            → IsFullFor self.old.kept.limits self.old.kept.entries machine plan.now reading worker.old.watch }
        ensures memory { result ≡ Err Ended.Memory → vec_capacity worker.old.entries ≡ vec_len worker.old.entries }
        ensures sets { IfErr result (λ ended. self.new.end ≡ end_by ended self.old.end) }
        ensures stands { Stands self.old.end self.new.end }
        ensures lost { self.new.lost ≡ self.old.lost }
        ensures marks { OnErr result (self.new.idle ≡ self.old.idle) }
        ensures unchanged { OnErr result ((worker.new.entries.items ≡ worker.old.entries.items)
            × (worker.new.shares ≡ worker.old.shares) × (worker.new.watch ≡ worker.old.watch)
            × (self.new.kept ≡ self.old.kept)) }
    {
        if self.end.is_some() {
            return Err(Ended::Told);
        }
        let Hall {
            kept,
            idle,
            lost,
            end,
        } = self;
        let Worker {
            entries,
            shares,
            watch,
        } = worker;
        kept.book().is_lawful();
        let turn = TurnAt {
            machine,
            reading,
            plan,
        };
        match book_turn(&turn, kept, shares, watch, entries) {
            Ok(Some(entry)) => {
                *idle = *lost;
                Ok((Some(entry), false))
            }
            Ok(None) => {
                let rests = note_rest(machine, kept, watch, plan, idle, end);
                Ok((None, rests))
            }
            Err(error) => {
                let (told, ended) = ends_by(error);
                *end = Some(told);
                Err(ended)
            }
        }
    }

    /// Whether someone is marked as idle whose port isn't lost, and so may wait.
    pub fn is_anyone_idle(&self) -> bool
        ensures { result ≡ is_anyone_idle self.now.idle self.now.lost }
    {
        self.idle
            .iter()
            .zip(self.lost.iter())
            .any(|(idle, lost)| *idle && !*lost)
    }

    /// Books an entry of the operator. Where it is booked, only those are idle whose ports are lost.
    pub fn book(&mut self, shares: &mut Shares<R>, entry: Entry) -> Result<(), Refusal>
        requires { actor_of entry ≡ actors.Operator }
        ensures ok { OnOk result (shares.new ≡ held shares.old.parts (plus shares.old.counts (count_one entry))) }
        ensures booked { OnOk result (self.new.kept ≡ record {
          limits = self.old.kept.limits;
          entries =
              self.old.kept.entries ++ entry ∷ [];
        }) }
        ensures allowed { OnOk result (first_of self.old.kept.limits self.old.kept.entries entry ≡ None) }
        ensures refused { IfErr result (λ why. why ≢ Refusal.OutOfMemory
            → first_of self.old.kept.limits self.old.kept.entries entry ≡ Some why) }
        ensures memory { result ≡ Err Refusal.OutOfMemory
            → (first_of self.old.kept.limits self.old.kept.entries entry ≡ None) × (is_quarantined entry ≡ true) }
        ensures idle { OnOk result (self.new.idle ≡ self.old.lost) }
        ensures marks { OnErr result (self.new.idle ≡ self.old.idle) }
        ensures lost { self.new.lost ≡ self.old.lost }
        ensures stands { self.new.end ≡ self.old.end }
        ensures unchanged { OnErr result ((shares.new ≡ shares.old) × (self.new.kept ≡ self.old.kept)) }
    {
        let Hall {
            kept,
            idle,
            lost,
            end: _,
        } = self;
        kept.apply(shares, entry)?;
        *idle = *lost;
        Ok(())
    }

    /// Sets an end, unless one is set. It answers whether it did.
    pub fn finish(&mut self, end: End) -> bool
        ensures answer { result ≡ is_none self.old.end }
        ensures kept { self.new.kept ≡ self.old.kept }
        ensures idle { (self.new.idle ≡ self.old.idle) × (self.new.lost ≡ self.old.lost) }
        ensures stands { Stands self.old.end self.new.end }
        ensures first { self.old.end ≡ None → self.new.end ≡ Some end }
    {
        let first = self.end.is_none();
        if first {
            self.end = Some(end);
        }
        first
    }

    /// Marks a worker as idle. Where all are, the run ends. It answers whether that set the end.
    pub fn rest(&mut self, place: usize, plan: &Plan) -> bool
        requires { place < 7 }
        ensures idle { self.new.idle ≡ slice_set self.old.idle place true }
        ensures answer { result ≡ (is_none self.old.end && are_all_idle self.new.idle) }
        ensures end { EndsWhere result plan.now.plates self.old.kept.entries self.old.end self.new.end }
        ensures kept { self.new.kept ≡ self.old.kept }
        ensures stands { Stands self.old.end self.new.end }
        ensures lost { self.new.lost ≡ self.old.lost }
    {
        self.idle[place] = true;
        if !all_idle(&self.idle) {
            return false;
        }
        let end = end_at_rest(self.kept.book(), plan);
        self.finish(end)
    }

    /// Marks a worker whose port failed. It counts as idle from then on. It answers whether that set the end.
    pub fn lose(&mut self, place: usize, plan: &Plan) -> bool
        requires { place < 7 }
        ensures lost { self.new.lost ≡ slice_set self.old.lost place true }
        ensures idle { self.new.idle ≡ slice_set self.old.idle place true }
        ensures answer { result ≡ (is_none self.old.end && are_all_idle self.new.idle) }
        ensures end { EndsWhere result plan.now.plates self.old.kept.entries self.old.end self.new.end }
        ensures kept { self.new.kept ≡ self.old.kept }
        ensures stands { Stands self.old.end self.new.end }
    {
        self.lost[place] = true;
        self.rest(place, plan)
    }
}
