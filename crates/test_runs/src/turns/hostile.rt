//! Schedules that seeds determine: their steps, readings, ports and hands.
ghost use Rattle.std.specs.Prelude.{◌≡◌, ◌<◌};
ghost use Rattle.cell_types.specs.declared.words.Machine.{Machine as MachineValue};
ghost use Rattle.cell_turns.specs.Six.{at};
ghost use Rattle.cell_turns.specs.Minds.{machine_of_watch};
ghost use Rattle.cell_ledger.specs.New.{AreBlank};

use crate::turns::checks::{are_lists, are_same, is_lawful, were_told};
use crate::turns::habits::Drawing;
use crate::turns::random::Random;
use crate::turns::settings::Setting;
use crate::turns::stage::Stage;
use crate::turns::tally::Tally;
use cell_journal::Journal;
use cell_ledger::{Blanks, Run};
use cell_runs::sim_ports;
use cell_sim::{FaultScript, SimOperator, World};
use cell_turns::{OperatorPort, Port, Ran, Six, Step, Watch};
use cell_types::{Actor, Machine, Totals, actor_of};
use plate_book::Book;
use std::marker::Brand;
use std::process::Abort;
use std::sync::{Mutex, Wait};
use test_ports::{StillHands, StillPort, TellingHands, TellingPort};

/// The first seed of all.
const SEED: u64 = 0x5e_ed0f_5eed;

// What a stage told before a step.
#[derive(Clone, Copy)]
struct Before {
    totals: Totals,
    // The watch of the machine whose turn it is, or of any at an entry by hand.
    watch: Watch,
    // How many acts the hands were asked to do, and how many failed.
    asked: u32,
    failures: u32,
    // An entry by hand is the operator's, and the book allows it.
    may: bool,
}

impl Before {
    fn of<R: Run, P: Port + Drop, O: OperatorPort + Drop>(
        stage: &Stage<R, P, O>,
        step: &Step,
    ) -> Before {
        let book = stage.kept.book();
        let (machine, may) = match *step {
            Step::Turn(machine, _) => (machine, false),
            Step::Hand(entry) => {
                let is_his = actor_of(entry) == Actor::Operator;
                (Machine::Feed, is_his && book.allows(entry).is_ok())
            }
        };
        Before {
            totals: book.totals(),
            watch: stage.watch_of(machine),
            asked: stage.hands.asked(),
            failures: stage.hands.failures(),
            may,
        }
    }
}

// A turn books one entry of its machine at most. One that is refused leaves the book and the machine's watch as they
// were: the journal is full, or no more plates may be admitted.
fn is_turn<R: Run, P: Port + Drop, O: OperatorPort + Drop>(
    stage: &Stage<R, P, O>,
    machine: Machine,
    before: &Before,
    ran: &Ran,
    setting: &Setting,
    tally: &mut Tally,
) -> bool {
    let totals = stage.kept.book().totals();
    if ran.refused == 0 {
        let more = totals.entries.checked_sub(before.totals.entries);
        return more == Some(0) || more == Some(1);
    }
    let is_unchanged = totals == before.totals && stage.watch_of(machine) == before.watch;
    let is_refused = ran.refused == 1 && is_unchanged;
    if totals.entries >= setting.entries {
        tally.full = tally.full.saturating_add(1);
        return is_refused;
    }
    tally.past_plates = tally.past_plates.saturating_add(1);
    is_refused && totals.admitted == setting.plates && machine == Machine::Feed
}

// An entry by hand is booked where it is the operator's, the book allowed it and the act didn't fail. Else nothing is
// booked, and where it wasn't to be booked nothing is done.
fn is_hand<R: Run, P: Port + Drop, O: OperatorPort + Drop>(
    stage: &Stage<R, P, O>,
    before: &Before,
    ran: &Ran,
    tally: &mut Tally,
) -> bool {
    let totals = stage.kept.book().totals();
    let booked = ran.operator.len();
    if before.may && stage.hands.failures() == before.failures {
        let entries = before.totals.entries.saturating_add(1);
        return ran.refused == 0 && totals.entries == entries && booked == 1;
    }
    let is_unchanged = ran.refused == 0 && totals == before.totals && booked == 0;
    if before.may {
        return is_unchanged;
    }
    tally.spared = tally.spared.saturating_add(1);
    is_unchanged && stage.hands.asked() == before.asked
}

// Takes one step, checks what it did, and answers how many turns were refused in it.
fn take_step<R: Run, P: Port + Drop, O: OperatorPort + Drop, W: AllocGlobal + Abort>(
    rt: &W,
    stage: &mut Stage<R, P, O>,
    step: &Step,
    setting: &Setting,
    tally: &mut Tally,
) -> usize
    requires { (m : MachineValue) → machine_of_watch (at stage.old.watches m) ≡ m }
    ensures { (m : MachineValue) → machine_of_watch (at stage.new.watches m) ≡ m }
{
    let before = Before::of(stage, step);
    let ran = stage.take(rt, &[*step], &setting.plan);
    let holds = match *step {
        Step::Turn(machine, _) => is_turn(stage, machine, &before, &ran, setting, tally),
        Step::Hand(_) => is_hand(stage, &before, &ran, tally),
    };
    assert!(rt; holds, "seed {}: {step:?}", setting.seed);
    ran.refused
}

// The steps that were taken, and how many turns were refused.
#[derive(Drop)]
struct Taken {
    steps: Vec<Step>,
    refused: usize,
}

// A schedule: its setting, what its steps are drawn from, and what came in it.
#[derive(Drop)]
struct Schedule<'a> {
    setting: &'a Setting,
    drawing: Drawing,
    tally: &'a mut Tally,
}

// Draws the steps of a schedule one after another, and takes each as it is drawn.
fn take_steps<R: Run, P: Port + Drop, O: OperatorPort + Drop, W: AllocGlobal + Abort>(
    rt: &W,
    stage: &mut Stage<R, P, O>,
    schedule: &mut Schedule<'_>,
) -> Taken
    requires { (m : MachineValue) → machine_of_watch (at stage.old.watches m) ≡ m }
{
    let mut taken = Taken {
        steps: Vec::new(rt.alloc()),
        refused: 0,
    };
    let setting = schedule.setting;
    for _ in 0..setting.habits.steps {
        let step = schedule
            .drawing
            .next_step(stage.kept.book(), &mut stage.ports);
        let more = take_step(rt, stage, &step, setting, schedule.tally);
        taken.refused = taken.refused.saturating_add(more);
        taken.steps.push(step).expect(rt, "memory");
    }
    taken
}

// What is left of a schedule that was played live.
#[derive(Drop)]
struct Live<'a, P, O> {
    taken: &'a Taken,
    journal: &'a Journal,
    ports: &'a Six<TellingPort<P>>,
    hands: &'a TellingHands<O>,
}

// What has to hold of a schedule holds of one whose steps were taken at once, and its journal is that of the live one.
fn check_again<R: Run, P: Port + Drop, O: OperatorPort + Drop, Q, H, W: AllocGlobal + Abort>(
    rt: &W,
    stage: &Stage<R, P, O>,
    setting: &Setting,
    live: &Live<'_, Q, H>,
    ran: &Ran,
) {
    let book = stage.kept.book();
    let is_counted = stage.shares.counts() == book.totals();
    let is_refused = ran.refused == live.taken.refused;
    assert!(rt; is_counted && is_refused, "seed {}", setting.seed);
    for &answer in &[
        is_lawful(rt.alloc(), book, setting.entries, setting.plates),
        are_same(book.journal(), live.journal),
        are_lists(book.journal(), ran),
        were_told(ran, &stage.ports, &stage.hands),
        were_told(ran, live.ports, live.hands),
    ] {
        assert!(rt; answer.is_ok(), "seed {}: {answer:?}", setting.seed);
    }
}

// The same steps at once, over ports that reach no machine.
fn play_again<R: Run, P, O, W: AllocGlobal + Abort>(
    rt: &W,
    setting: &Setting,
    live: &Live<'_, P, O>,
    book: Book,
    blanks: Blanks,
)
    requires parts { 0 < R.parts }
    requires limits { book.limits ≡ R.limits }
    requires ledgers { AreBlank R.Run blanks }
{
    let ports = StillPort { shown: None }.for_all();
    let mut stage = Stage::<R, _, _>::new(rt, &setting.devices, ports, StillHands, book, blanks);
    let ran = stage.take(rt, live.taken.steps.as_slice(), &setting.plan);
    check_again(rt, &stage, setting, live, &ran);
}

// A schedule whose steps are drawn as it goes on, over a simulated cell, and then the same steps at once.
fn play<R: Run, W: AllocGlobal + Abort + Wait>(
    rt: &W,
    schedule: &mut Schedule<'_>,
    world: &Mutex<World>,
    faults: &FaultScript,
    book: Book,
    blanks: Blanks,
)
    requires parts { 0 < R.parts }
    requires limits { book.limits ≡ R.limits }
    requires ledgers { AreBlank R.Run blanks }
{
    let setting = schedule.setting;
    let ports = sim_ports(rt, world, faults);
    let hands = SimOperator::new(rt, world);
    let mut stage = Stage::<R, _, _>::new(rt, &setting.devices, ports, hands, book, blanks);
    let taken = take_steps(rt, &mut stage, schedule);
    let live = Live {
        taken: &taken,
        journal: stage.kept.book().journal(),
        ports: &stage.ports,
        hands: &stage.hands,
    };
    play_again::<Brand, _, _, W>(rt, setting, &live, setting.book(rt), Blanks::new(1));
    schedule.tally.count_schedule(taken.steps.len(), &stage);
}

// The schedule of a seed.
fn play_seed<W: AllocGlobal + Abort + Wait>(rt: &W, seed: u64, tally: &mut Tally) {
    let mut random = Random { state: seed };
    let setting = Setting::draw(rt, seed, &mut random);
    let faults = FaultScript::read(rt.alloc(), setting.faults.as_bytes());
    let faults = faults.ok().expect(rt, "the faults are readable");
    let world = Mutex::new(World::new(setting.plan.plates));
    let mut schedule = Schedule {
        setting: &setting,
        drawing: Drawing {
            random,
            habits: setting.habits,
            steps: 0,
            disturbed: 0,
            way: 0,
        },
        tally,
    };
    let book = setting.book(rt);
    let blanks = Blanks::new(1);
    play::<Brand, W>(rt, &mut schedule, &world, &faults, book, blanks);
}

// A thousand schedules, from a number on, are lawful, and all that can come came in them.
fn check_thousand<W: AllocGlobal + Abort + Wait>(rt: &W, first: u64) {
    let mut all = Tally::default();
    for number in 0..1_000u64 {
        let seed = SEED.wrapping_add(first).wrapping_add(number);
        play_seed(rt, seed, &mut all);
    }
    assert!(rt; all.has_all(), "from {first} on: {all:?}");
}

#[test]
fn five_thousand_hostile_schedules_are_lawful(rt: HostRuntime) {
    for &first in &[0, 1_000, 2_000, 3_000, 4_000] {
        check_thousand(&rt, first);
    }
}

#[test]
fn five_thousand_more_hostile_schedules_are_lawful(rt: HostRuntime) {
    for &first in &[5_000, 6_000, 7_000, 8_000, 9_000] {
        check_thousand(&rt, first);
    }
}
