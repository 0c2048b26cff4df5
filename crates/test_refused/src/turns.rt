//! Turns and schedules of turns.
ghost use Rattle.std.specs.Prelude.{◌≡◌, ◌<◌};
ghost use Rattle.cell_types.specs.declared.words.Machine.{Machine as MachineValue};
ghost use Rattle.cell_turns.specs.Six.{at};
ghost use Rattle.cell_turns.specs.Minds.{machine_of_watch};
ghost use Rattle.cell_ledger.specs.New.{AreBlank};

use cell_diagnosis::{Limits, Reading};
use cell_ledger::{Blanks, Kept, Run, Shares};
use cell_sim::{FaultScript, SimOperator, SimPort, World};
use cell_turns::{OutOfMemory, Plan, Ran, Six, Step, TurnError, Watch, Watches};
use cell_types::{Belt, Colour, Command, Entry, Machine, Totals};
use plate_book::Book;
use std::alloc::Global;
use std::marker::Brand;
use std::process::Abort;
use std::sync::{Mutex, Wait};
use test_samples::{begun, call_begins, call_ends, entry_of};

// A plan of five plates, with 3 and 20 as limits of each motion.
fn plan(rt: &impl Abort) -> Plan {
    let limits = Limits::new(3, 20).expect(rt, "the limits are in range");
    Plan {
        plates: 5,
        journal_limit: 100,
        turns: 100,
        limits: [limits; 9],
    }
}

// A present reading with these presence bits, and no switch.
fn showing(presence: u8) -> Option<Reading> {
    Some(Reading {
        switches: [0, 0, 0],
        presence,
    })
}

// So many entries, of one plate that was admitted.
fn entries(entries: u32) -> Totals {
    Totals {
        entries,
        admitted: u32::from(1 < entries),
        forged: 0,
        quarantined: 0,
        delivered: 0,
        reinstated: 0,
    }
}

// A turn of a machine at a reading that shows a plate at the first station of the feed belt.
fn turn_at_plate<R: Run>(
    machine: Machine,
    kept: &mut Kept<R>,
    shares: &mut Shares<R>,
    watch: &mut Watch,
    list: &mut Vec<Entry>,
    plan: &Plan,
) -> Result<Option<Command>, TurnError>
    requires { machine_of_watch watch.old ≡ machine }
    ensures { machine_of_watch watch.new ≡ machine }
{
    cell_turns::turn(machine, kept, shares, watch, showing(1), list, plan)
}

// The book and the shares count so many entries.
fn check_counts<R: Run>(rt: &impl Abort, kept: &Kept<R>, shares: &Shares<R>, count: u32) {
    assert!(rt; kept.book().totals() == entries(count) && shares.counts() == entries(count));
}

// The feed light is green, and a plate is shown for the second time: the turn admits it. Where its list is refused
// memory nothing has changed, so the same turn admits it later.
fn admit_with<R: Run>(
    rt: &impl Abort,
    alloc: Global,
    kept: &mut Kept<R>,
    shares: &mut Shares<R>,
    plan: &Plan,
) {
    let feed = Machine::Feed;
    let mut watch = Watch::start(feed, kept.book());
    let mut list = Vec::new(alloc);
    let first = turn_at_plate(feed, kept, shares, &mut watch, &mut list, plan);
    assert!(rt; first == Ok(None));
    let noted = watch;
    let mut list = Vec::new(alloc);
    call_begins(alloc);
    let mut answer = turn_at_plate(feed, kept, shares, &mut watch, &mut list, plan);
    call_ends(alloc, answer.is_err());
    if let Err(why) = answer {
        assert!(rt; why == TurnError::OutOfMemory && list.is_empty() && watch == noted);
        check_counts(rt, kept, shares, 1);
        answer = turn_at_plate(feed, kept, shares, &mut watch, &mut list, plan);
    }
    let red = Command::Lamp(Belt::Feed, Colour::Red);
    assert!(rt; answer == Ok(Some(red)) && list.first().copied() == entry_of("admitted,1,,"));
    check_counts(rt, kept, shares, 2);
}

// The same of a book with blank ledgers.
fn admit<R: Run>(rt: &impl Abort, alloc: Global, book: Book, blanks: Blanks, plan: &Plan)
    requires parts { 0 < R.parts }
    requires limits { book.limits ≡ R.limits }
    requires ledgers { AreBlank R.Run blanks }
{
    let (mut kept, mut shares) = Kept::<R>::new(book, blanks);
    admit_with(rt, alloc, &mut kept, &mut shares, plan);
}

#[test]
fn turn(rt: HostRuntime) {
    let (alloc, blanks) = (rt.alloc(), Blanks::new(1));
    let book = begun(alloc, 100, 10, 1).expect(&rt, "a book");
    admit::<Brand>(&rt, alloc, book, blanks, &plan(&rt));
}

// A stop is asked of the feed belt, which has a plate and declares itself failed; the operator takes the plate out and
// puts the belt at home, and it turns its light green: an entry at each step.
fn steps(rt: &impl Abort) -> [Step; 5] {
    [
        Step::Hand(entry_of(BOOKED[0]).expect(rt, "a record")),
        Step::Turn(Machine::Feed, showing(1)),
        Step::Hand(entry_of(BOOKED[2]).expect(rt, "a record")),
        Step::Hand(entry_of(BOOKED[3]).expect(rt, "a record")),
        Step::Turn(Machine::Feed, showing(0)),
    ]
}

const BOOKED: [&str; 5] = [
    "stop_asked,feed,,",
    "declared,feed,operator_stop,",
    "quarantined,1,feed_in,",
    "repaired,feed,,",
    "lamp,feed,green,",
];

// The book has the first so many entries of the steps after the two that it began with, and the shares count all.
fn check_steps<R: Run>(rt: &impl Abort, kept: &Kept<R>, shares: &Shares<R>, count: usize) {
    let journal = kept.book().journal();
    for (place, record) in (2..7u32).zip(BOOKED.iter()).take(count) {
        assert!(rt; journal.get(place) == entry_of(record), "{record}");
    }
    let counts = shares.counts();
    let length = count.saturating_add(2);
    assert!(rt;
        journal.len() as usize == length
            && counts == kept.book().totals()
            && counts.quarantined == u32::from(2 < count)
    );
}

// A plan, and the simulated machines and hands by which it is carried out.
#[derive(Drop)]
struct Floor<'a, W: Wait> {
    alloc: Global,
    plan: &'a Plan,
    ports: Six<SimPort<'a, W>>,
    hands: SimOperator<'a, W>,
}

// The floor of a world.
fn floor_of<'a, W: AllocGlobal + Wait>(
    rt: &'a W,
    plan: &'a Plan,
    world: &'a Mutex<World>,
    faults: &'a FaultScript,
) -> Floor<'a, W> {
    Floor {
        alloc: rt.alloc(),
        plan,
        ports: Six {
            feed: SimPort::new(rt, world, Machine::Feed, faults),
            table: SimPort::new(rt, world, Machine::Table, faults),
            robot: SimPort::new(rt, world, Machine::Robot, faults),
            press1: SimPort::new(rt, world, Machine::Press1, faults),
            press2: SimPort::new(rt, world, Machine::Press2, faults),
            deposit: SimPort::new(rt, world, Machine::Deposit, faults),
        },
        hands: SimOperator::new(rt, world),
    }
}

// Takes steps on a floor.
fn schedule<R: Run, W: Wait>(
    floor: &mut Floor<'_, W>,
    steps: &[Step],
    kept: &mut Kept<R>,
    shares: &mut Shares<R>,
    watches: &mut Watches,
) -> Result<Ran, OutOfMemory>
    requires { (m : MachineValue) → machine_of_watch (at watches.old m) ≡ m }
    ensures { (m : MachineValue) → machine_of_watch (at watches.new m) ≡ m }
{
    cell_turns::run_schedule(
        floor.alloc,
        steps,
        &mut floor.ports,
        &mut floor.hands,
        kept,
        shares,
        watches,
        floor.plan,
    )
}

// Takes the steps. Where memory is refused, those before stand, and the others lead on from there.
fn take_with<R: Run, W: Abort + Wait>(
    rt: &W,
    floor: &mut Floor<'_, W>,
    kept: &mut Kept<R>,
    shares: &mut Shares<R>,
) {
    let alloc = floor.alloc;
    let mut watches = Watches::start(kept.book());
    let steps = steps(rt);
    call_begins(alloc);
    let answer = schedule(floor, &steps, kept, shares, &mut watches);
    call_ends(alloc, answer.is_err());
    if answer.is_err() {
        let taken = kept.book().journal().len().saturating_sub(2) as usize;
        check_steps(rt, kept, shares, taken);
        let rest = steps.get(taken..).expect(rt, "at most all were taken");
        let again = schedule(floor, rest, kept, shares, &mut watches);
        assert!(rt; matches!(&again, Ok(ran) if ran.refused == 0));
    }
    check_steps(rt, kept, shares, 5);
}

// The same of a book with blank ledgers.
fn take_steps<R: Run, W: Abort + Wait>(rt: &W, floor: &mut Floor<'_, W>, book: Book, blanks: Blanks)
    requires parts { 0 < R.parts }
    requires limits { book.limits ≡ R.limits }
    requires ledgers { AreBlank R.Run blanks }
{
    let (mut kept, mut shares) = Kept::<R>::new(book, blanks);
    take_with(rt, floor, &mut kept, &mut shares);
}

#[test]
fn run_schedule(rt: HostRuntime) {
    let book = begun(rt.alloc(), 100, 10, 2).expect(&rt, "a book");
    let plan = plan(&rt);
    let faults = FaultScript::read(rt.alloc(), b"").expect(&rt, "no faults");
    let world = Mutex::new(World::new(5));
    let mut floor = floor_of(&rt, &plan, &world, &faults);
    take_steps::<Brand, HostRuntime>(&rt, &mut floor, book, Blanks::new(1));
}
