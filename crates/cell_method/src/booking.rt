//! A round's lines: each is answered, and the entry that it asks for is booked where it is allowed.
ghost use Rattle.std.specs.Prelude.{◌≡◌, ◌≢◌, Bool, IfErr, IfOk, IsErr, true};
ghost use Rattle.cell_types.specs.Entries.{actor_of, command_of};
ghost use Rattle.cell_types.specs.declared.words.Actor.TheVariants as actors;
ghost use Rattle.cell_rules.specs.Legal.{first_of};
ghost use Rattle.cell_ports.specs.Logs.{after_sending};
ghost use Rattle.cell_method.specs.Conversations.{KeepsWriter};
ghost use Rattle.cell_method.specs.Lines.{lines_left};
ghost use Rattle.cell_method.specs.Asked.{to_book};
ghost use Rattle.cell_method.specs.Order.{ClosesAt, Point, Talking};
ghost use Rattle.cell_method.specs.Replies.{booked_as};
ghost use Rattle.cell_method.specs.Rounds.{AnswersBy, Broke, Fits, Goes, SameDesk, Stand, after_ask, after_judging};

use crate::ask::{Ask, ask_of};
use crate::conversation::Conversation;
use crate::error::DriveError;
use crate::onlooker::Onlooker;
use crate::reply::{Reply, tell};
use cell_ports::Port;
use cell_rows::{Four, TellsFault};
use cell_turns::Ports;
use cell_types::{Actor, Entry, Machine, actor_of, command_of};
use plate_book::{Book, Refusal};
use std::io::Write;

/// The most lines of a round.
pub const MAX_LINES: u32 = 10_000;

/// How a round of lines closed.
#[derive(Clone, Copy, Debug, PartialEq, Eq)]
pub(crate) enum Close {
    /// The method said that the round is over.
    Done,
    /// The method said that the run is over, or there are no more lines.
    Quit,
    /// The round has as many lines as it may.
    Long,
}

// Sends the command of an entry, if it has one, and says whether the port failed.
fn send<P: Port>(port: &mut P, entry: &Entry) -> bool
    ensures still { P.tells port.new ≡ true → P.tells port.old ≡ true }
    ensures told { P.tells port.new ≡ true
        → P.log port.new ≡ after_sending (P.log port.old) (command_of entry.now) result }
{
    match command_of(*entry) {
        Some(command) => port.command(command).is_err(),
        None => false,
    }
}

// The number of a booked entry as an answer.
fn booked_as(number: u32, has_failed: bool) -> Reply
    ensures { result ≡ booked_as number has_failed }
{
    if has_failed {
        Reply::Failed(number)
    } else {
        Reply::Booked(number)
    }
}

// Books an entry of a machine, where it is allowed, sends its command, and gives the answer.
fn book<P: Port, L: Onlooker>(
    machine: Machine,
    entry: Entry,
    book: &mut Book,
    ports: &mut Ports<P>,
    onlooker: &mut L,
) -> Reply
    requires { actor_of entry ≡ actors.Machine machine }
    ensures answers { (failed : Bool) × AnswersBy P.tells P.log
        (λ s. after_judging (first_of book.old.limits s.journal entry) machine entry failed s) book.old.entries
        ports.old book.new.entries ports.new result }
    ensures limits { book.new.limits ≡ book.old.limits }
{
    let wanted = entry;
    match book.apply(entry) {
        Ok(()) => {}
        Err(Refusal::OutOfMemory) => unreachable!(),
        Err(why) => {
            onlooker.refused(why);
            return Reply::Refused(why);
        }
    }
    let has_failed = send(ports.pick(machine), &wanted);
    onlooker.booked(&wanted);
    booked_as(book.journal().len(), has_failed)
}

// Does what a line of these fields asks for, and gives its answer.
fn take<P: Port, L: Onlooker>(
    entry: Option<Entry>,
    four: Option<Four<'_>>,
    cell: &mut Book,
    ports: &mut Ports<P>,
    onlooker: &mut L,
) -> Reply
    ensures answers { (failed : Bool) × AnswersBy P.tells P.log (after_ask cell.old.limits (to_book entry) failed)
        cell.old.entries ports.old cell.new.entries ports.new result }
    ensures limits { cell.new.limits ≡ cell.old.limits }
{
    let Some(entry) = entry else {
        onlooker.unread(four);
        return Reply::Unreadable;
    };
    let wanted = entry;
    match actor_of(entry) {
        Actor::Machine(machine) => book(machine, wanted, cell, ports, onlooker),
        Actor::Operator => {
            onlooker.unread(four);
            Reply::Unreadable
        }
    }
}

/// Answers the lines of a round, each before it reads on.
pub(crate) fn take_lines<R: TellsFault, W: Write, P: Port, L: Onlooker>(
    method: &mut Conversation<'_, R, W>,
    book: &mut Book,
    ports: &mut Ports<P>,
    onlooker: &mut L,
) -> Result<Close, DriveError>
    ensures goes { IfOk result (λ close. (s : Stand) → Fits P.tells P.log book.old.entries ports.old s
        → (to : Point) × ClosesAt close to (lines_left R.remaining method.old.lines)
        (lines_left R.remaining method.new.lines) × Goes P.tells P.log book.old.limits s (Talking 0) to
        (lines_left R.remaining method.old.lines) (lines_left R.remaining method.new.lines) book.new.entries ports.new
        (SameDesk s) (W.contents method.old.writer.now) (W.contents method.new.writer.now)) }
    ensures broke { IsErr result → (s : Stand) → Fits P.tells P.log book.old.entries ports.old s
        → Broke P.tells P.log book.old.limits s (Talking 0) (lines_left R.remaining method.old.lines) book.new.entries
        ports.new (SameDesk s) }
    ensures memory { IfErr result (λ e. e ≢ DriveError.OutOfMemory) }
    ensures limits { book.new.limits ≡ book.old.limits }
    ensures writer { KeepsWriter method.old method.new }
{
    for _count in 0..MAX_LINES {
        if !method.lines.advance()? {
            return Ok(Close::Quit);
        }
        let wanted = match ask_of(&method.lines) {
            Ask::Done => return Ok(Close::Done),
            Ask::Quit => return Ok(Close::Quit),
            Ask::Book(entry) => Some(entry),
            Ask::Nothing => None,
        };
        let reply = take(wanted, method.lines.four(), book, ports, onlooker);
        tell(method.writer, reply)?;
    }
    Ok(Close::Long)
}
