//! Worked examples: turns of the feed belt and of the deposit belt.
ghost use Rattle.std.specs.Prelude.{◌≡◌, ◌<◌, ◌≤◌, length};
ghost use Rattle.cell_turns.specs.Minds.{machine_of_watch};
ghost use Rattle.cell_ledger.specs.New.{AreBlank};

mod schedules;

use cell_diagnosis::{Limits, Reading};
use cell_ledger::{Blanks, Kept, Run, Shares};
use cell_turns::{Plan, TurnError, Watch, turn};
use cell_types::{Belt, Colour, Command, Entry, Machine};
use plate_book::{Book, Refusal};
use std::alloc::Global;
use std::marker::Brand;
use std::process::Abort;
use test_samples::{LAID_BACK, Told, begun, book_all};

const FEED_GREEN: Command = Command::Lamp(Belt::Feed, Colour::Green);

// A plan with 3 and 20 as limits of each motion.
pub(crate) fn plan_of(rt: &impl Abort, plates: u32) -> Plan
    requires { (1 ≤ plates) × (plates ≤ 100000) }
{
    let Some(limits) = Limits::new(3, 20) else {
        panic!(rt; "the limits are in range");
    };
    Plan {
        plates,
        journal_limit: 100,
        turns: 100,
        limits: [limits; 9],
    }
}

// A present reading with these presence bits, and no switch.
pub(crate) fn showing(presence: u8) -> Option<Reading> {
    Some(Reading {
        switches: [0, 0, 0],
        presence,
    })
}

// All that a book tells.
pub(crate) fn told_by(rt: &impl Abort, alloc: Global, book: &Book) -> Told {
    let Ok(told) = Told::of(alloc, book) else {
        panic!(rt; "there is memory");
    };
    told
}

// A reading, and what a turn at it answers.
type Wanted = (Option<Reading>, Result<Option<Command>, TurnError>);

// Turns of one machine, each of which answers what is wanted. Before turn number `fault` (counted from 0) the port's
// failure is told.
#[derive(Clone, Copy)]
struct Turns<'a> {
    machine: Machine,
    plan: &'a Plan,
    fault: usize,
    wanted: &'a [Wanted],
}

// What turns of one machine go over.
#[derive(Drop)]
struct Alone<R: Run> {
    kept: Kept<R>,
    shares: Shares<R>,
    watch: Watch,
    entries: Vec<Entry>,
}

// A turn answers what is wanted. One that is refused leaves the book, the shares, the watch and the list as they were.
fn check_turn<R: Run>(
    rt: &impl Abort,
    alloc: Global,
    alone: &mut Alone<R>,
    turns: &Turns,
    place: usize,
)
    requires machine { machine_of_watch alone.old.watch ≡ turns.now.machine }
    requires place { place < length turns.now.wanted.now }
    ensures { machine_of_watch alone.new.watch ≡ turns.now.machine }
{
    let wanted = &turns.wanted[place];
    let told = told_by(rt, alloc, alone.kept.book());
    let (was, listed) = (alone.watch, alone.entries.len());
    let Alone {
        kept,
        shares,
        watch,
        entries,
    } = alone;
    let answer = turn(
        turns.machine,
        kept,
        shares,
        watch,
        wanted.0,
        entries,
        turns.plan,
    );
    assert!(rt;
        answer == wanted.1 && shares.counts() == kept.book().totals(),
        "turn {place}"
    );
    if answer.is_err() {
        let is_same = told_by(rt, alloc, kept.book()).is_same(&told);
        let is_left = is_same && *watch == was && entries.len() == listed;
        assert!(rt; is_left, "turn {place}");
    }
}

fn check_turns<R: Run>(rt: &impl Abort, alloc: Global, alone: &mut Alone<R>, turns: &Turns)
    requires { machine_of_watch alone.old.watch ≡ turns.now.machine }
{
    for i in 0..turns.wanted.len() {
        if i == turns.fault {
            alone.watch.command_failed();
        }
        check_turn(rt, alloc, alone, turns, i);
    }
}

// The length of the journal after such turns over a book and blank ledgers.
fn take_turns<R: Run>(
    rt: &impl Abort,
    alloc: Global,
    book: Book,
    blanks: Blanks,
    turns: &Turns,
) -> usize
    requires parts { 0 < R.parts }
    requires limits { book.limits ≡ R.limits }
    requires ledgers { AreBlank R.Run blanks }
{
    let (kept, shares) = Kept::<R>::new(book, blanks);
    let before = kept.book().journal().len() as usize;
    let watch = Watch::start(turns.machine, kept.book());
    assert!(rt; !watch.quiet());
    let mut alone = Alone {
        kept,
        shares,
        watch,
        entries: Vec::new(alloc),
    };
    check_turns(rt, alloc, &mut alone, turns);
    let length = alone.kept.book().journal().len() as usize;
    assert!(rt; before <= length && length - before == alone.entries.len());
    length
}

// The same over a book alone, with blank ledgers of its own.
fn length_after<R: AllocGlobal + Abort>(
    rt: &R,
    book: Book,
    machine: Machine,
    plan: &Plan,
    fault: usize,
    wanted: &[Wanted],
) -> usize {
    let turns = Turns {
        machine,
        plan,
        fault,
        wanted,
    };
    take_turns::<Brand>(rt, rt.alloc(), book, Blanks::new(1), &turns)
}

#[test]
fn a_full_journal_takes_a_command_fault(rt: HostRuntime) {
    let book = begun(rt.alloc(), 1, 1, 1).expect(&rt, "a book");
    let plan = plan_of(&rt, 1);
    let turns = [
        (showing(0), Err(TurnError::Refused(Refusal::JournalFull))),
        (showing(0), Ok(Some(Command::AllOff(Machine::Feed)))),
    ];
    let length = length_after(&rt, book, Machine::Feed, &plan, 1, &turns);
    assert!(rt; length == 2);
}

#[test]
fn no_plate_is_admitted_past_the_books_limit(rt: HostRuntime) {
    let mut book = begun(rt.alloc(), 100, 1, 8).expect(&rt, "a book");
    assert!(rt; book_all(&mut book, &["lamp,feed,green,"]).is_ok());
    let plan = plan_of(&rt, 2);
    let turns = [
        (showing(1), Ok(None)),
        (showing(1), Err(TurnError::Refused(Refusal::PlateLimit))),
        (showing(1), Err(TurnError::Refused(Refusal::PlateLimit))),
    ];
    let length = length_after(&rt, book, Machine::Feed, &plan, 3, &turns);
    assert!(rt; length == 9);
}

#[test]
fn two_present_readings_show_that_a_plate_was_taken(rt: HostRuntime) {
    let book = begun(rt.alloc(), 100, 1, 61).expect(&rt, "a book");
    let plan = plan_of(&rt, 1);
    let turns = [
        (None, Ok(None)),
        (None, Ok(None)),
        (showing(0), Ok(None)),
        (
            showing(0),
            Ok(Some(Command::Lamp(Belt::Deposit, Colour::Red))),
        ),
    ];
    let length = length_after(&rt, book, Machine::Deposit, &plan, 4, &turns);
    assert!(rt; length == 62);
}

#[test]
fn a_feed_belt_first_sets_its_light(rt: HostRuntime) {
    let book = begun(rt.alloc(), 100, 10, 0).expect(&rt, "a book");
    let plan = plan_of(&rt, 5);
    let turns = [(showing(0), Ok(Some(FEED_GREEN)))];
    let length = length_after(&rt, book, Machine::Feed, &plan, 1, &turns);
    assert!(rt; length == 1);
}

#[test]
fn a_plate_is_admitted_at_the_second_reading_that_shows_it(rt: HostRuntime) {
    let book = begun(rt.alloc(), 100, 10, 0).expect(&rt, "a book");
    let plan = plan_of(&rt, 5);
    let turns = [
        (showing(0), Ok(Some(FEED_GREEN))),
        (showing(1), Ok(None)),
        (showing(1), Ok(Some(Command::Lamp(Belt::Feed, Colour::Red)))),
        (showing(1), Ok(Some(Command::AllOff(Machine::Feed)))),
    ];
    let length = length_after(&rt, book, Machine::Feed, &plan, 3, &turns);
    assert!(rt; length == 3);
}

// A plate that is expected is laid back at the second reading that shows it, though no plate is left to be admitted.
#[test]
fn a_plate_is_laid_back_at_the_second_reading_that_shows_it(rt: HostRuntime) {
    let Ok(mut book) = Book::new(rt.alloc(), 100, 1) else {
        panic!(rt; "the limits are in range, and there is memory");
    };
    assert!(rt; book_all(&mut book, &LAID_BACK[..11]).is_ok());
    let plan = plan_of(&rt, 1);
    let turns = [
        (showing(0), Ok(Some(FEED_GREEN))),
        (showing(1), Ok(None)),
        (None, Ok(None)),
        (showing(1), Ok(None)),
        (showing(1), Ok(Some(Command::Lamp(Belt::Feed, Colour::Red)))),
    ];
    let length = length_after(&rt, book, Machine::Feed, &plan, 5, &turns);
    assert!(rt; length == 13);
}
