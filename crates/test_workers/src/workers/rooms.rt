//! A room of a test's own, in which one worker at a time works on the thread of the test.
ghost use Rattle.std.specs.Prelude.{◌≡◌, ◌<◌, []};
ghost use Rattle.cell_ledger.specs.New.{AreBlank};

use crate::same::check_same;
use crate::workers::alone::{Serving, serve};
use crate::workers::cell::plan_of;
use crate::workers::operators::{Hands, Operating, operate};
use crate::workers::reports::sum_of;
use cell_ledger::{Blanks, Kept, Run, Shares};
use cell_types::{Entry, Totals};
use cell_views::count_of;
use cell_workers::{End, Ended, Hall, Plan, Room, Worked};
use plate_book::Book;
use std::marker::Brand;
use std::process::Abort;
use std::sync::{Condvar, Mutex, Wait};
use test_samples::entry_of;

/// All seven workers.
pub(crate) const ALL: [bool; 7] = [true; 7];

/// No worker.
pub(crate) const NONE: [bool; 7] = [false; 7];

/// All workers but the operator's.
pub(crate) const ALL_BUT_OPERATOR: [bool; 7] = [true, true, true, true, true, true, false];

/// How a run ends, who is idle and who is lost.
pub(crate) type Standing = (Option<End>, [bool; 7], [bool; 7]);

/// Whose work it is.
#[derive(Clone, Copy)]
pub(crate) enum Who<'a> {
    Machine(Serving<'a>),
    Operator(Operating<'a>),
}

/// One worker's work in a room, and what has to come of it.
#[derive(Clone, Copy)]
pub(crate) struct Work<'a> {
    pub name: &'a str,
    pub who: Who<'a>,
    /// Whether the worker may be refused memory: then it may end for want of it, after some of its entries or all.
    pub may_be_refused: bool,
    /// What stands in the room when it begins.
    pub before: Standing,
    /// Why it ends, and the records of what it books.
    pub ended: Ended,
    pub booked: &'a [&'a str],
    /// What stands in the room then, and how many entries the journal has.
    pub after: Standing,
    pub length: u32,
}

/// How many entries and turns there may be, and what is worked in a new room, one work after the other.
pub(crate) type Scene<'a> = (u32, u32, &'a [Work<'a>]);

/// Checks that entries are those of these records.
pub(crate) fn check_entries(rt: &impl Abort, entries: &[Entry], records: &[&str]) {
    check_same(rt, &"how many entries", &entries.len(), &records.len());
    for (entry, record) in entries.iter().zip(records.iter()) {
        check_same(rt, record, &Some(*entry), &entry_of(record));
    }
}

// Checks why a worker ended, what it booked, and that its shares count that beside what they counted before. One that
// was refused memory has booked a first part of it.
fn check_worked<R: Run>(
    rt: &impl Abort,
    work: &Work,
    counted: Totals,
    worked: &Worked<R>,
    is_refused: bool,
) {
    let entries = worked.entries.as_slice();
    let all = work.booked.len();
    let (ended, most) = if is_refused {
        (Ended::Memory, entries.len().min(all))
    } else {
        (work.ended, all)
    };
    check_same(rt, &work.name, &worked.ended, &ended);
    check_entries(rt, entries, &work.booked[..most]);
    let sum = sum_of(counted, count_of(entries));
    check_same(rt, &work.name, &worked.shares.counts(), &sum);
}

// Checks what stands in a room, and that the journal has so many entries.
fn check_hall<R: Run, W: Abort + Wait>(
    rt: &W,
    room: &Room<R>,
    work: &Work,
    booked: usize,
    is_refused: bool,
) {
    let hall = room.hall.lock(rt);
    let length = hall.kept.book().journal().len();
    let found = (hall.end, hall.idle, hall.lost);
    if is_refused {
        check_same(rt, &work.name, &hall.end, &Some(End::Memory));
        check_same(rt, &work.name, &(length as usize), &booked);
    } else {
        check_same(rt, &work.name, &found, &work.after);
        check_same(rt, &work.name, &length, &work.length);
    }
}

// Sets what stands in a room.
fn set_hall<R: Run, W: Wait>(rt: &W, room: &Room<R>, standing: Standing) {
    let (end, idle, lost) = standing;
    let mut hall = room.hall.lock(rt);
    hall.end = end;
    hall.idle = idle;
    hall.lost = lost;
}

// One work. It gives the worker's shares back.
fn do_work<R: Run, W: AllocGlobal + Abort + Wait>(
    rt: &W,
    room: &Room<R>,
    shares: Shares<R>,
    hands: &mut Hands<'_, R, W>,
    work: &Work,
    plan: &Plan,
) -> Shares<R> {
    set_hall(rt, room, work.before);
    let counted = shares.counts();
    let worked = match &work.who {
        Who::Machine(serving) => serve(rt, room, shares, work.name, serving, plan),
        Who::Operator(operating) => operate(shares, hands, work.name, operating, plan),
    };
    let is_refused = work.may_be_refused && worked.ended == Ended::Memory;
    check_worked(rt, work, counted, &worked, is_refused);
    check_hall(rt, room, work, worked.entries.len(), is_refused);
    worked.shares
}

// The works of a scene. The workers' shares are the same, and the operator's hands have others.
fn do_all<R: Run, W: AllocGlobal + Abort + Wait>(
    rt: &W,
    room: &Room<R>,
    first: Shares<R>,
    second: Shares<R>,
    works: &[Work],
    plan: &Plan,
) {
    let mut hands = Hands::new(rt, room, second);
    let mut shares = first;
    for work in works {
        shares = do_work(rt, room, shares, &mut hands, work, plan);
    }
}

fn play_over<R: Run, W: AllocGlobal + Abort + Wait>(
    rt: &W,
    works: &[Work],
    book: Book,
    blanks: Blanks,
    plan: &Plan,
)
    requires parts { R.parts ≡ 2 }
    requires limits { book.limits ≡ R.limits }
    requires empty { book.entries ≡ [] }
    requires ledgers { AreBlank R.Run blanks }
{
    let (kept, all) = Kept::<R>::new(book, blanks);
    let (first, second) = all.split();
    let room = Room {
        hall: Mutex::new(Hall {
            kept,
            idle: NONE,
            lost: NONE,
            end: None,
        }),
        moved: Condvar::new(),
    };
    do_all(rt, &room, first, second, works, plan);
}

/// Plays a scene in a new room with an empty book. In a run that refuses one allocation it may be one of the book's.
pub(crate) fn play_in_room<W: AllocGlobal + Abort + Wait>(rt: &W, scene: Scene) {
    let (entries, turns, works) = scene;
    let plan = plan_of(rt, 1, entries, turns);
    let alloc = rt.alloc();
    let (entries, plates) = (plan.journal_limit, plan.plates);
    let book = Book::new(alloc, entries, plates);
    let Ok(book) = book.or_else(|_| Book::new(alloc, entries, plates)) else {
        panic!(rt; "there is memory");
    };
    play_over::<Brand, W>(rt, works, book, Blanks::new(2), &plan);
}
