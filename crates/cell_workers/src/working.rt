//! A machine's worker.
ghost use Rattle.std.specs.Prelude.{◌≡◌, ◌≢◌, ◌<◌, ◌+◌, ◌&&◌, [], ℕ, true, false, Option, IfOk, OnErr, IfNone, All};
ghost use Rattle.std.specs.Prelude.{length, is_none, is_some, Some};
ghost use Rattle.cell_types.specs.Entries.{actor_of};
ghost use Rattle.cell_types.specs.declared.words.Actor.TheVariants as actors;
ghost use Rattle.cell_rules.specs.Views.{count_of};
ghost use Rattle.cell_ledger.specs.Counts.{plus};
ghost use Rattle.cell_ledger.specs.Held.{Held, held};
ghost use Rattle.cell_ports.specs.Logs.{Log};
ghost use Rattle.cell_turns.specs.Sent.{Sends};
ghost use Rattle.cell_turns.specs.Minds.{machine_of_watch, has_failed_command};
ghost use Rattle.cell_workers.specs.Traces.{Saw};
ghost use Rattle.cell_workers.specs.Working.{Served, Serves, Shown, Answered, SentAll, Evidence};

use crate::ends::End;
use crate::hall::{Ended, Hall, Room, Worker};
use crate::{Plan, Port, Watch};
use cell_diagnosis::Reading;
use cell_ledger::{Run, Shares};
use cell_turns::turns::send::send;
use cell_types::{Command, Entry, Machine};
use std::alloc::Global;
use std::sync::{MutexGuard, Wait};

/// What a worker did.
#[derive(Drop)]
pub struct Worked<R: Run> {
    /// The entries that it booked.
    pub entries: Vec<Entry>,
    /// Its shares, which grew by what these count.
    pub shares: Shares<R>,
    /// Why it ended.
    pub ended: Ended,
}

/// Sets an end, unless one is set, and wakes all then.
pub fn finish<R: Run, W: Wait>(rt: &W, room: &Room<R>, end: End) {
    let ended = room.hall.lock(rt).finish(end);
    if ended {
        room.moved.notify_all();
    }
}

/// Marks a worker whose port failed, and wakes all where that ended the run.
pub fn lose<R: Run, W: Wait>(rt: &W, room: &Room<R>, place: usize, plan: &Plan)
    requires { place < 7 }
{
    let ended = room.hall.lock(rt).lose(place, plan);
    if ended {
        room.moved.notify_all();
    }
}

/// Waits until the journal is longer or an end is set.
pub fn wait_for_more<R: Run, W: Wait>(rt: &W, room: &Room<R>, hall: MutexGuard<'_, Hall<R>>) {
    let seen = hall.kept.book().journal().len();
    let hall = room.moved.wait_while(rt, hall, |h| {
        h.kept.book().journal().len() == seen && h.end.is_none()
    });
    drop(hall);
}

/// Takes the lock for one turn. An idle worker then waits until the journal is longer or an end is set.
fn locked_turn<R: Run, W: Wait>(
    rt: &W,
    machine: Machine,
    room: &Room<R>,
    worker: &mut Worker<R>,
    reading: Option<Reading>,
    plan: &Plan,
) -> Result<Option<Entry>, Ended>
    requires { machine_of_watch worker.old.watch ≡ machine }
    ensures served { IfOk result (λ e. Served machine plan.now reading e worker.old.entries.items
        worker.new.entries.items worker.old.shares worker.new.shares worker.old.watch worker.new.watch) }
    ensures machine { machine_of_watch worker.new.watch ≡ machine }
    ensures ended { (result ≢ Err Ended.PortLost) × (result ≢ Err Ended.Turns) }
    ensures unchanged { OnErr result ((worker.new.entries.items ≡ worker.old.entries.items)
        × (worker.new.shares ≡ worker.old.shares) × (worker.new.watch ≡ worker.old.watch)) }
{
    let mut hall = room.hall.lock(rt);
    let is_anyone_idle = hall.is_anyone_idle();
    let served = hall.serve(machine, worker, reading, plan);
    match served {
        Ok((None, true)) => {
            if hall.end.is_some() {
                room.moved.notify_all();
            }
            wait_for_more(rt, room, hall);
            Ok(None)
        }
        Ok((booked, _)) => {
            drop(hall);
            // Whoever waits is marked as idle, until an entry is booked.
            if is_anyone_idle && booked.is_some() {
                room.moved.notify_all();
            }
            Ok(booked)
        }
        Err(ended) => {
            drop(hall);
            // One that is told found an end that was set, and all were woken then.
            if ended != Ended::Told {
                room.moved.notify_all();
            }
            Err(ended)
        }
    }
}

/// Why a worker ends after the command of this entry, if it does.
fn lost_by(failed: bool, entry: &Entry) -> Option<Ended>
    ensures lost { result ≡ Some Ended.PortLost → failed ≡ true }
    ensures turns { result ≢ Some Ended.Turns }
{
    if failed && matches!(entry, Entry::Declared { .. }) {
        Some(Ended::PortLost)
    } else {
        None
    }
}

/// Reads the port, takes a turn under the lock and, once the lock is free, sends its command. It answers why the worker
/// ends, if it does.
fn step<P: Port, R: Run, W: Wait>(
    rt: &W,
    machine: Machine,
    port: &mut P,
    room: &Room<R>,
    worker: &mut Worker<R>,
    plan: &Plan,
) -> Option<Ended>
    requires { machine_of_watch worker.old.watch ≡ machine }
    ensures still { P.tells port.new ≡ true → P.tells port.old ≡ true }
    ensures machine { machine_of_watch worker.new.watch ≡ machine }
    ensures serves { (start : Held) → Serves (actors.Machine machine) start worker.old.entries.items worker.old.shares
        → Serves (actors.Machine machine) start worker.new.entries.items worker.new.shares }
    ensures sends { P.tells port.new ≡ true → (before : Log)
        → Sends before false (P.log port.old) worker.old.entries.items (has_failed_command worker.old.watch)
        → Sends before false (P.log port.new) worker.new.entries.items (has_failed_command worker.new.watch) }
    ensures answered { P.tells port.new ≡ true → (before : Log) (k : ℕ)
        → Shown machine plan.now before (P.log port.old) worker.old.entries.items worker.old.watch k
        → Answered plan.now before (P.log port.new) worker.new.entries.items (k + 1) }
    ensures shown { IfNone result (P.tells port.new ≡ true → (before : Log) (k : ℕ)
        → Shown machine plan.now before (P.log port.old) worker.old.entries.items worker.old.watch k
        → Shown machine plan.now before (P.log port.new) worker.new.entries.items worker.new.watch (k + 1)) }
    ensures lost { result ≡ Some Ended.PortLost → has_failed_command worker.new.watch ≡ true }
    ensures turns { result ≢ Some Ended.Turns }
{
    let reading = port.read();
    let booked = match locked_turn(rt, machine, room, worker, reading, plan) {
        Ok(booked) => booked,
        Err(ended) => return Some(ended),
    };
    let Some(entry) = booked else {
        return None;
    };
    let failed = send(port, &mut worker.watch, &entry);
    lost_by(failed, &entry)
}

/// Takes turns until an end.
fn serve_all<P: Port, R: Run, W: Wait>(
    rt: &W,
    machine: Machine,
    port: &mut P,
    room: &Room<R>,
    worker: &mut Worker<R>,
    plan: &Plan,
) -> Ended
    requires { machine_of_watch worker.old.watch ≡ machine }
    ensures still { P.tells port.new ≡ true → P.tells port.old ≡ true }
    ensures serves { (start : Held) → Serves (actors.Machine machine) start worker.old.entries.items worker.old.shares
        → Serves (actors.Machine machine) start worker.new.entries.items worker.new.shares }
    ensures sends { P.tells port.new ≡ true → (before : Log)
        → Sends before false (P.log port.old) worker.old.entries.items (has_failed_command worker.old.watch)
        → Sends before false (P.log port.new) worker.new.entries.items (has_failed_command worker.new.watch) }
    ensures answered { P.tells port.new ≡ true → (before : Log)
        → Shown machine plan.now before (P.log port.old) worker.old.entries.items worker.old.watch 0
        → ((k : ℕ) × Answered plan.now before (P.log port.new) worker.new.entries.items k
        × (result ≡ Ended.Turns → k ≡ plan.now.turns)) }
    ensures lost { result ≡ Ended.PortLost → has_failed_command worker.new.watch ≡ true }
{
    for turn in 0..plan.turns {
        if let Some(ended) = step(rt, machine, port, room, worker, plan) {
            return ended;
        }
    }
    finish(rt, room, End::TurnLimit);
    Ended::Turns
}

/// What a machine's worker begins with: an empty list, its shares, and a watch that has seen nothing.
fn first_worker<R: Run, W: Wait>(
    rt: &W,
    alloc: Global,
    machine: Machine,
    room: &Room<R>,
    shares: Shares<R>,
    plan: &Plan,
) -> Worker<R>
    ensures entries { result.entries.items ≡ [] }
    ensures shares { result.shares ≡ shares }
    ensures machine { machine_of_watch result.watch ≡ machine }
    ensures failed { has_failed_command result.watch ≡ false }
    ensures saw { Saw machine plan.now [] result.watch }
{
    let hall = room.hall.lock(rt);
    let watch = Watch::start(machine, hall.kept.book());
    drop(hall);
    Worker {
        entries: Vec::new(alloc),
        shares,
        watch,
    }
}

/// A machine's worker: it takes the machine's turns until an end, each at a reading of its own, and sends the command
/// of each entry once the lock is free. Its last command is the machine's `AllOff`.
pub fn run_worker<P: Port, R: Run, W: Wait>(
    rt: &W,
    alloc: Global,
    machine: Machine,
    port: &mut P,
    room: &Room<R>,
    shares: Shares<R>,
    plan: &Plan,
) -> Worked<R>
    ensures actor { All (λ e. actor_of e ≡ actors.Machine machine) result.entries.items }
    ensures counts { result.shares ≡ held shares.parts (plus shares.counts (count_of result.entries.items)) }
    ensures still { P.tells port.new ≡ true → P.tells port.old ≡ true }
    ensures sent { P.tells port.new ≡ true → SentAll machine (P.log port.old) (P.log port.new) result.entries.items }
    ensures evidence { P.tells port.new ≡ true
        → Evidence plan.now (P.log port.old) (P.log port.new) result.entries.items }
    ensures turns { result.ended ≡ Ended.Turns → P.tells port.new ≡ true
        → length (P.log port.new).answers ≡ length (P.log port.old).answers + plan.now.turns }
    ensures lost { result.ended ≡ Ended.PortLost → P.tells port.new ≡ true
        → (P.log port.old).failures < (P.log port.new).failures }
{
    let mut worker = first_worker(rt, alloc, machine, room, shares, plan);
    let ended = serve_all(rt, machine, port, room, &mut worker, plan);
    if ended == Ended::PortLost {
        lose(rt, room, machine as usize, plan);
    }
    let _ = port.command(Command::AllOff(machine));
    let Worker {
        entries,
        shares,
        watch: _,
    } = worker;
    Worked {
        entries,
        shares,
        ended,
    }
}
