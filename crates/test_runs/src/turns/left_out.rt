//! Schedules in which a machine takes no turn for a long time.
ghost use Rattle.std.specs.Prelude.{◌≡◌, ◌<◌};
ghost use Rattle.cell_types.specs.declared.words.Machine.{Machine as MachineValue};
ghost use Rattle.cell_turns.specs.Six.{at};
ghost use Rattle.cell_turns.specs.Minds.{machine_of_watch};
ghost use Rattle.cell_ledger.specs.New.{AreBlank};

use crate::turns::checks::is_lawful;
use crate::turns::stage::{Devices, Stage};
use cell_diagnosis::Limits;
use cell_ledger::{Blanks, Run};
use cell_runs::sim_ports;
use cell_sim::{FaultScript, SimOperator, World};
use cell_turns::{OperatorPort, Plan, Port, Step};
use cell_types::{MACHINES, Machine};
use cell_workers::{End, end_at_rest, is_idle};
use plate_book::Book;
use std::marker::Brand;
use std::process::Abort;
use std::sync::{Mutex, Wait};
use test_ports::Failing;

/// How many entries the journal takes, and how many answers and commands a port keeps.
const ROOM: u32 = 10_000;

/// After how many rounds a run has to be over.
const ROUNDS: usize = 5_000;

/// For how many rounds a machine is left out: with five turns each they are 1,000 steps.
const LEFT_OUT: usize = 200;

/// Devices that never fail. They keep as much as the journal takes.
const DEVICES: Devices = Devices {
    failing: [Failing::Never; 6],
    removing: Failing::Never,
    homing: Failing::Never,
    room: ROOM as usize,
};

// A turn of a machine at what its port shows, which isn't refused.
fn take_turn<R: Run, P: Port + Drop, O: OperatorPort + Drop, W: AllocGlobal + Abort>(
    rt: &W,
    stage: &mut Stage<R, P, O>,
    plan: &Plan,
    machine: Machine,
)
    requires { (m : MachineValue) → machine_of_watch (at stage.old.watches m) ≡ m }
    ensures { (m : MachineValue) → machine_of_watch (at stage.new.watches m) ≡ m }
{
    let reading = stage.ports.pick(machine).read();
    let ran = stage.take(rt, &[Step::Turn(machine, reading)], plan);
    assert!(rt; ran.refused == 0, "a turn of {machine:?} is refused");
}

// So many rounds of turns of all machines but one that is left out, in their order.
fn take_rounds<R: Run, P: Port + Drop, O: OperatorPort + Drop, W: AllocGlobal + Abort>(
    rt: &W,
    stage: &mut Stage<R, P, O>,
    plan: &Plan,
    left_out: Option<Machine>,
    rounds: usize,
)
    requires { (m : MachineValue) → machine_of_watch (at stage.old.watches m) ≡ m }
    ensures { (m : MachineValue) → machine_of_watch (at stage.new.watches m) ≡ m }
{
    for turn in 0..rounds.saturating_mul(6) {
        let machine = MACHINES[turn % 6];
        if left_out != Some(machine) {
            take_turn(rt, stage, plan, machine);
        }
    }
}

// Whether all machines are idle after a round that booked nothing.
fn are_idle<R: Run, P: Port + Drop, O: OperatorPort + Drop>(
    stage: &Stage<R, P, O>,
    plan: &Plan,
) -> bool {
    let book = stage.kept.book();
    for &machine in &MACHINES {
        if !is_idle(machine, book, &stage.watch_of(machine), plan) {
            return false;
        }
    }
    true
}

// Rounds in which all machines take part, until they are idle; and how the run ends then.
fn finish<R: Run, P: Port + Drop, O: OperatorPort + Drop, W: AllocGlobal + Abort>(
    rt: &W,
    stage: &mut Stage<R, P, O>,
    plan: &Plan,
) -> Option<End>
    requires { (m : MachineValue) → machine_of_watch (at stage.old.watches m) ≡ m }
{
    for _ in 0..ROUNDS {
        let before = stage.kept.book().journal().len();
        take_rounds(rt, stage, plan, None, 1);
        let is_still = stage.kept.book().journal().len() == before;
        if is_still && are_idle(stage, plan) {
            return Some(end_at_rest(stage.kept.book(), plan));
        }
    }
    None
}

// The journal is legal, and no machines met.
fn check_cell<W: AllocGlobal + Abort + Wait>(rt: &W, book: &Book, world: &Mutex<World>) {
    let answer = is_lawful(rt.alloc(), book, ROOM, 10);
    let collisions = world.lock(rt).collisions();
    assert!(rt;
        answer.is_ok() && collisions == 0,
        "{answer:?}, {collisions} collisions"
    );
}

// A run of ten plates: so many rounds with all machines, then 1,000 steps without each of these in turn, and then
// rounds with all until the end. The run finishes, its journal is legal in each part that was looked at, and no
// machines meet.
fn go_on<R: Run, P: Port + Drop, O: OperatorPort + Drop, W: AllocGlobal + Abort + Wait>(
    rt: &W,
    stage: &mut Stage<R, P, O>,
    plan: &Plan,
    world: &Mutex<World>,
    rounds: usize,
    left_out: &[Machine],
)
    requires { (m : MachineValue) → machine_of_watch (at stage.old.watches m) ≡ m }
{
    take_rounds(rt, stage, plan, None, rounds);
    for machine in left_out {
        take_rounds(rt, stage, plan, Some(*machine), LEFT_OUT);
        check_cell(rt, stage.kept.book(), world);
    }
    let end = finish(rt, stage, plan);
    let delivered = stage.kept.book().totals().delivered;
    assert!(rt;
        end == Some(End::Finished) && delivered == 10,
        "without {left_out:?} after {rounds} rounds: {end:?}, {delivered} delivered"
    );
    check_cell(rt, stage.kept.book(), world);
}

// That run over a simulated cell, of an empty book.
fn play_over<R: Run, W: AllocGlobal + Abort + Wait>(
    rt: &W,
    rounds: usize,
    left_out: &[Machine],
    book: Book,
    blanks: Blanks,
)
    requires parts { 0 < R.parts }
    requires limits { book.limits ≡ R.limits }
    requires ledgers { AreBlank R.Run blanks }
{
    let limits = Limits::new(3, 20).expect(rt, "the limits are in range");
    let plan = Plan {
        plates: 10,
        journal_limit: ROOM,
        turns: 1_000,
        limits: [limits; 9],
    };
    let world = Mutex::new(World::new(plan.plates));
    let faults = FaultScript::read(rt.alloc(), b"").expect(rt, "no faults are readable");
    let ports = sim_ports(rt, &world, &faults);
    let hands = SimOperator::new(rt, &world);
    let mut stage = Stage::<R, _, _>::new(rt, &DEVICES, ports, hands, book, blanks);
    go_on(rt, &mut stage, &plan, &world, rounds, left_out);
}

fn play<W: AllocGlobal + Abort + Wait>(rt: &W, rounds: usize, left_out: &[Machine]) {
    let book = Book::new(rt.alloc(), ROOM, 10).ok().expect(rt, "a book");
    play_over::<Brand, W>(rt, rounds, left_out, book, Blanks::new(1));
}

#[test]
fn a_run_finishes_though_machines_were_left_out(rt: HostRuntime) {
    for &machine in &MACHINES {
        for &rounds in &[0, 5, 17, 38, 60, 90, 150, 333] {
            play(&rt, rounds, &[machine]);
        }
    }
    for &rounds in &[0, 20, 47, 111] {
        play(&rt, rounds, &MACHINES);
    }
}
