//! Worked examples: schedules over ports in memory.
ghost use Rattle.std.specs.Prelude.{◌≡◌, ◌<◌};
ghost use Rattle.cell_types.specs.declared.words.Machine.{Machine as MachineValue};
ghost use Rattle.cell_turns.specs.Six.{at};
ghost use Rattle.cell_turns.specs.Minds.{machine_of_watch};
ghost use Rattle.cell_ledger.specs.New.{AreBlank};

mod stage;

use crate::turns::schedules::stage::Stage;
use crate::turns::{plan_of, showing};
use cell_diagnosis::Reading;
use cell_ledger::{Blanks, Kept, Run};
use cell_turns::{Act, OperatorPort, Plan, Port, Ran, Six, Step, Watches, run_schedule};
use cell_types::{Belt, Colour, Command, Entry, MACHINES, Machine, Station};
use plate_book::Book;
use std::alloc::Global;
use std::marker::Brand;
use std::process::Abort;
use test_ports::{Failing, StillHands, StillPort, TellingHands, TellingPort, telling_ports};
use test_samples::{LAID_BACK, begun, book_all, entry_of};

type MemoryPort = TellingPort<StillPort>;

type MemoryHands = TellingHands<StillHands>;

// The machines' ports and the operator's hands, in memory.
#[derive(Drop)]
struct Devices {
    ports: Six<MemoryPort>,
    hands: MemoryHands,
}

// What is left after a schedule.
#[derive(Drop)]
struct Played {
    ran: Ran,
    devices: Devices,
    book: Book,
}

// Ports in memory with room for so many commands, each of which fails so.
fn ports(rt: &impl Abort, alloc: Global, room: usize, failing: Failing) -> Six<MemoryPort> {
    let still = StillPort { shown: None }.for_all();
    let Ok(ports) = telling_ports(alloc, still, [failing; 6], room) else {
        panic!(rt; "there is memory");
    };
    ports
}

// A schedule on a book, with ledgers that are blank, over these ports and hands.
fn play_over<R: Run>(
    rt: &impl Abort,
    alloc: Global,
    book: Book,
    blanks: Blanks,
    steps: &[Step],
    mut devices: Devices,
) -> Played
    requires parts { 0 < R.parts }
    requires limits { book.limits ≡ R.limits }
    requires ledgers { AreBlank R.Run blanks }
{
    let (mut kept, mut shares) = Kept::<R>::new(book, blanks);
    let mut watches = Watches::start(kept.book());
    let ran = run_schedule(
        alloc,
        steps,
        &mut devices.ports,
        &mut devices.hands,
        &mut kept,
        &mut shares,
        &mut watches,
        &plan_of(rt, 5),
    );
    let ran = ran.expect(rt, "memory");
    assert!(rt; shares.counts() == kept.book().totals());
    Played {
        ran,
        devices,
        book: kept.into_book(),
    }
}

// A schedule on a book, over these ports. The operator's hands fail so.
fn play_with(
    rt: &impl Abort,
    alloc: Global,
    book: Book,
    steps: &[Step],
    ports: Six<MemoryPort>,
    hands_failing: Failing,
) -> Played {
    let Ok(hands) = MemoryHands::new(alloc, StillHands, hands_failing, hands_failing, 100) else {
        panic!(rt; "there is memory");
    };
    play_over::<Brand>(
        rt,
        alloc,
        book,
        Blanks::new(1),
        steps,
        Devices { ports, hands },
    )
}

const FEED_GREEN: Command = Command::Lamp(Belt::Feed, Colour::Green);

const FEED_RED: Command = Command::Lamp(Belt::Feed, Colour::Red);

// What is counted of what is left after a schedule.
#[derive(Clone, Copy)]
enum Count {
    // The turns that were refused.
    Refused,
    // The entries of the feed belt's list, of the operator's, and of the journal.
    Feed,
    Operator,
    Journal,
    // The commands that the feed belt's port was asked to send, and those at which it failed.
    Asked,
    Failed,
    // The same of acts by hand.
    ActsAsked,
    ActsFailed,
    // What the book counts.
    Admitted,
    Forged,
    Quarantined,
    Reinstated,
    InQuarantine,
}

fn device_count(played: &Played, count: Count) -> u32 {
    match count {
        Count::Asked => played.devices.ports.feed.asked(),
        Count::Failed => played.devices.ports.feed.failures(),
        Count::ActsAsked => played.devices.hands.asked(),
        _ => played.devices.hands.failures(),
    }
}

fn book_count(book: &Book, count: Count) -> u32 {
    let totals = book.totals();
    match count {
        Count::Journal => book.journal().len(),
        Count::Admitted => totals.admitted,
        Count::Forged => totals.forged,
        Count::Quarantined => totals.quarantined,
        _ => totals.reinstated,
    }
}

fn counted(played: &Played, count: Count) -> usize {
    match count {
        Count::Refused => played.ran.refused,
        Count::Feed => played.ran.machines.feed.len(),
        Count::Operator => played.ran.operator.len(),
        Count::InQuarantine => played.book.quarantine().len(),
        Count::Asked | Count::Failed | Count::ActsAsked | Count::ActsFailed => {
            device_count(played, count) as usize
        }
        _ => book_count(&played.book, count) as usize,
    }
}

// What is to be seen of what is left after a schedule.
#[derive(Clone, Copy)]
enum Fact<'a> {
    // There are so many.
    Count(Count, usize),
    // The feed belt's list, or the operator's, has the entries of these records.
    Feed(&'a [&'a str]),
    Operator(&'a [&'a str]),
    // The journal has the entry of this record at a place.
    Journal(u32, &'a str),
    // The feed belt's port, or the table's, was sent these commands.
    Sent(&'a [Command]),
    SentTable(&'a [Command]),
    // These acts were done by hand.
    Acts(&'a [Act]),
    // The journal says of no plate that it came to another place.
    NoneMoved,
}

// Whether entries are those of these records.
fn are_of(entries: &[Entry], records: &[&str]) -> bool {
    let mut same = entries.len() == records.len();
    for (entry, record) in entries.iter().zip(records.iter()) {
        same = same && entry_of(record) == Some(*entry);
    }
    same
}

// Whether a journal says of no plate that it came to another place.
fn moves_none(book: &Book) -> bool {
    for place in 0..book.journal().len() {
        match book.journal().get(place) {
            None | Some(Entry::Arrived { .. } | Entry::Conveyed { .. } | Entry::Delivered { .. }) =>
                {
                    return false;
                }
            Some(_) => {}
        }
    }
    true
}

fn is_seen(played: &Played, fact: Fact) -> bool {
    match fact {
        Fact::Count(count, wanted) => counted(played, count) == wanted,
        Fact::Feed(records) => are_of(played.ran.machines.feed.as_slice(), records),
        Fact::Operator(records) => are_of(played.ran.operator.as_slice(), records),
        Fact::Journal(place, record) => {
            let entry = played.book.journal().get(place);
            entry.is_some() && entry == entry_of(record)
        }
        Fact::Sent(commands) => played.devices.ports.feed.sent() == Some(commands),
        Fact::SentTable(commands) => played.devices.ports.table.sent() == Some(commands),
        Fact::Acts(acts) => played.devices.hands.acts() == Some(acts),
        Fact::NoneMoved => moves_none(&played.book),
    }
}

fn check_seen(rt: &impl Abort, played: &Played, facts: &[Fact]) {
    for place in 0..facts.len() {
        assert!(rt;
            is_seen(played, facts[place]),
            "number {place} of the facts"
        );
    }
}

// Checks what is seen after a schedule on a book, over ports with room for 100 commands. The ports and the operator's
// hands fail so.
fn check(
    rt: &impl Abort,
    alloc: Global,
    book: Book,
    steps: &[Step],
    failing: [Failing; 2],
    facts: &[Fact],
) {
    let [failing, hands_failing] = failing;
    let ports = ports(rt, alloc, 100, failing);
    let played = play_with(rt, alloc, book, steps, ports, hands_failing);
    check_seen(rt, &played, facts);
}

// Neither the ports fail nor the hands.
const NEVER: [Failing; 2] = [Failing::Never, Failing::Never];

// A book with so many of the first entries of the journal of one plate.
fn book_of(rt: &impl Abort, alloc: Global, count: usize) -> Book {
    begun(alloc, 100, 10, count).expect(rt, "a book")
}

// A turn of the feed belt.
fn feed(presence: u8) -> Step {
    Step::Turn(Machine::Feed, showing(presence))
}

// An entry of the operator's.
fn hand(rt: &impl Abort, record: &str) -> Step {
    Step::Hand(entry_of(record).expect(rt, record))
}

#[test]
fn a_plate_is_laid_in(rt: HostRuntime) {
    let facts = [
        Fact::Feed(&["lamp,feed,green,", "admitted,1,,"]),
        Fact::Count(Count::Journal, 2),
        Fact::Journal(0, "lamp,feed,green,"),
        Fact::Journal(1, "admitted,1,,"),
        Fact::Sent(&[FEED_GREEN, FEED_RED]),
        Fact::Count(Count::Refused, 0),
        Fact::Count(Count::Operator, 0),
    ];
    let book = book_of(&rt, rt.alloc(), 0);
    let steps = [feed(0), feed(1), feed(1)];
    check(&rt, rt.alloc(), book, &steps, NEVER, &facts);
}

#[test]
fn a_command_that_fails_is_declared(rt: HostRuntime) {
    let facts = [
        Fact::Count(Count::Feed, 3),
        Fact::Journal(2, "declared,feed,command_fault,"),
        Fact::Sent(&[FEED_GREEN, Command::AllOff(Machine::Feed)]),
        Fact::Count(Count::Failed, 1),
    ];
    let book = book_of(&rt, rt.alloc(), 0);
    let steps = [feed(0), feed(1), feed(1), feed(1)];
    let failing = [Failing::At(2), Failing::Never];
    check(&rt, rt.alloc(), book, &steps, failing, &facts);
}

#[test]
fn a_full_journal_refuses_a_turn(rt: HostRuntime) {
    let facts = [
        Fact::Count(Count::Refused, 3),
        Fact::Count(Count::Journal, 1),
        Fact::Count(Count::Operator, 0),
        Fact::Count(Count::Feed, 0),
        Fact::Count(Count::Asked, 0),
    ];
    let book = begun(rt.alloc(), 1, 1, 1).expect(&rt, "a book");
    let table = Step::Turn(Machine::Table, showing(0));
    let steps = [feed(0), table, hand(&rt, "stop_asked,feed,,"), feed(0)];
    check(&rt, rt.alloc(), book, &steps, NEVER, &facts);
}

// A feed belt whose port takes no command is declared once, and no plate is laid in.
#[test]
fn a_port_that_always_fails_only_stops_its_machine(rt: HostRuntime) {
    let facts = [
        Fact::Feed(&["lamp,feed,green,", "declared,feed,command_fault,"]),
        Fact::Sent(&[]),
        Fact::Count(Count::Failed, 2),
        Fact::Count(Count::Admitted, 0),
    ];
    let steps = [feed(1); 6];
    let alloc = rt.alloc();
    let full = ports(&rt, alloc, 0, Failing::Never);
    let book = book_of(&rt, alloc, 0);
    let played = play_with(&rt, alloc, book, &steps, full, Failing::Never);
    check_seen(&rt, &played, &facts);
    let failing = [Failing::Always, Failing::Never];
    let book = book_of(&rt, alloc, 0);
    check(&rt, alloc, book, &steps, failing, &facts);
}

#[test]
fn missing_readings_show_no_plate(rt: HostRuntime) {
    let facts = [
        Fact::Feed(&["lamp,feed,green,", "declared,feed,silent,"]),
        Fact::Sent(&[FEED_GREEN, Command::AllOff(Machine::Feed)]),
    ];
    let book = book_of(&rt, rt.alloc(), 0);
    let steps = [Step::Turn(Machine::Feed, None); 6];
    check(&rt, rt.alloc(), book, &steps, NEVER, &facts);
}

// A reading of any bits but that of a plate at FeedIn.
fn garbage(bits: u32) -> Option<Reading> {
    if bits % 7 == 0 {
        return None;
    }
    Some(Reading {
        switches: [
            (bits / 256 % 256) as u8,
            (bits / 65_536 % 256) as u8,
            (bits / 16_777_216) as u8,
        ],
        presence: (bits % 128 * 2) as u8,
    })
}

// A turn of each machine in their order, again and again, at such readings.
fn garbage_steps() -> [Step; 120] {
    let mut steps = [Step::Turn(Machine::Feed, None); 120];
    let mut bits: u32 = 12345;
    for i in 0..120 {
        bits = bits.wrapping_mul(1_664_525).wrapping_add(1_013_904_223);
        steps[i] = Step::Turn(MACHINES[i % 6], garbage(bits));
    }
    steps
}

#[test]
fn garbage_shows_no_plate(rt: HostRuntime) {
    let facts = [
        Fact::Count(Count::Refused, 0),
        Fact::Count(Count::Admitted, 0),
        Fact::Count(Count::Forged, 0),
        Fact::NoneMoved,
    ];
    let book = book_of(&rt, rt.alloc(), 0);
    check(&rt, rt.alloc(), book, &garbage_steps(), NEVER, &facts);
}

#[test]
fn what_the_operator_may_not_book_is_spared(rt: HostRuntime) {
    let facts = [
        Fact::Operator(&["stop_asked,feed,,", "repaired,feed,,"]),
        Fact::Feed(&["declared,feed,operator_stop,"]),
        Fact::Acts(&[Act::Home(Machine::Feed)]),
        Fact::Count(Count::ActsFailed, 1),
        Fact::Count(Count::ActsAsked, 2),
        Fact::Count(Count::Journal, 3),
    ];
    let book = book_of(&rt, rt.alloc(), 0);
    let steps = [
        hand(&rt, "lamp,feed,green,"),
        hand(&rt, "repaired,feed,,"),
        hand(&rt, "stop_asked,feed,,"),
        feed(0),
        hand(&rt, "repaired,feed,,"),
        hand(&rt, "repaired,feed,,"),
    ];
    let failing = [Failing::Never, Failing::At(1)];
    check(&rt, rt.alloc(), book, &steps, failing, &facts);
}

#[test]
fn a_plate_is_taken_out_by_hand(rt: HostRuntime) {
    let facts = [
        Fact::Count(Count::Operator, 2),
        Fact::Count(Count::Refused, 0),
        Fact::Acts(&[Act::Remove(Station::Table)]),
        Fact::SentTable(&[Command::AllOff(Machine::Table)]),
        Fact::Count(Count::Quarantined, 1),
    ];
    let book = book_of(&rt, rt.alloc(), 8);
    let steps = [
        hand(&rt, "stop_asked,table,,"),
        Step::Turn(Machine::Table, showing(1)),
        hand(&rt, "quarantined,1,table,"),
        Step::Turn(Machine::Table, showing(0)),
    ];
    check(&rt, rt.alloc(), book, &steps, NEVER, &facts);
}

// A book whose plate was taken out by the operator.
fn book_with_cleared(rt: &impl Abort, alloc: Global) -> Book {
    let Ok(mut book) = Book::new(alloc, 100, 10) else {
        panic!(rt; "the limits are in range, and there is memory");
    };
    assert!(rt; book_all(&mut book, &LAID_BACK[..10]).is_ok());
    book
}

// The operator says that the plate that he took out is laid back, which has no act, and it is shown twice.
#[test]
fn a_plate_is_laid_back(rt: HostRuntime) {
    let facts = [
        Fact::Operator(&["expected,1,,"]),
        Fact::Count(Count::Refused, 0),
        Fact::Count(Count::ActsAsked, 0),
        Fact::Feed(&["lamp,feed,green,", "reinstated,1,,"]),
        Fact::Sent(&[FEED_GREEN, FEED_RED]),
        Fact::Count(Count::Reinstated, 1),
        Fact::Count(Count::InQuarantine, 0),
    ];
    let book = book_with_cleared(&rt, rt.alloc());
    let steps = [
        hand(&rt, "expected,1,,"),
        feed(0),
        hand(&rt, "expected,1,,"),
        feed(1),
        feed(1),
    ];
    check(&rt, rt.alloc(), book, &steps, NEVER, &facts);
}

// Whether a schedule booked nothing.
fn is_nothing(ran: &Ran) -> bool {
    let machines = &ran.machines;
    machines.feed.is_empty()
        && machines.table.is_empty()
        && machines.robot.is_empty()
        && machines.press1.is_empty()
        && machines.press2.is_empty()
        && machines.deposit.is_empty()
        && ran.operator.is_empty()
}

// A turn that is refused: the book, the shares, the machine's watch, the lists and the ports are as they were before
// it.
fn check_refused<R: Run, P: Port + Drop, O: OperatorPort + Drop>(
    rt: &impl Abort,
    alloc: Global,
    stage: &mut Stage<R, P, O>,
    machine: Machine,
    reading: Option<Reading>,
    plan: &Plan,
)
    requires { (m : MachineValue) → machine_of_watch (at stage.old.watches m) ≡ m }
{
    let was = stage.was(rt, alloc, machine);
    let ran = stage.take(rt, alloc, &[Step::Turn(machine, reading)], plan);
    assert!(rt; ran.refused == 1 && is_nothing(&ran));
    stage.check_was(rt, alloc, machine, &was);
}

// After some steps, one more that is refused.
fn refuse_over<R: Run>(
    rt: &impl Abort,
    alloc: Global,
    book: Book,
    blanks: Blanks,
    first: &[Step],
    last: (Machine, Option<Reading>),
)
    requires parts { 0 < R.parts }
    requires limits { book.limits ≡ R.limits }
    requires ledgers { AreBlank R.Run blanks }
{
    let plan = plan_of(rt, 5);
    let ports = ports(rt, alloc, 100, Failing::Never);
    let mut stage = Stage::<R, _, _>::new(book, blanks, ports, StillHands);
    stage.take(rt, alloc, first, &plan);
    check_refused(rt, alloc, &mut stage, last.0, last.1, &plan);
}

fn leave_all(
    rt: &impl Abort,
    alloc: Global,
    book: Book,
    first: &[Step],
    last: (Machine, Option<Reading>),
) {
    refuse_over::<Brand>(rt, alloc, book, Blanks::new(1), first, last);
}

#[test]
fn a_turn_that_is_refused_leaves_all_as_it_was(rt: HostRuntime) {
    let alloc = rt.alloc();
    let full = begun(alloc, 1, 10, 0).expect(&rt, "a book");
    let twice = [
        Step::Turn(Machine::Feed, showing(0)),
        Step::Turn(Machine::Feed, showing(1)),
    ];
    leave_all(&rt, alloc, full, &twice, (Machine::Feed, showing(1)));
    let laid = [Step::Turn(Machine::Feed, showing(1))];
    let mut past = begun(alloc, 100, 1, 8).expect(&rt, "a book");
    assert!(rt; book_all(&mut past, &["lamp,feed,green,"]).is_ok());
    leave_all(&rt, alloc, past, &laid, (Machine::Feed, showing(1)));
    let moving = begun(alloc, 11, 10, 11).expect(&rt, "a book");
    let low = Some(Reading {
        switches: [1, 1, 0],
        presence: 1,
    });
    let high = Some(Reading {
        switches: [2, 1, 0],
        presence: 1,
    });
    let lifted = [Step::Turn(Machine::Table, low)];
    leave_all(&rt, alloc, moving, &lifted, (Machine::Table, high));
}
