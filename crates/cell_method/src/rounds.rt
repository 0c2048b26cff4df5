//! A run in rounds.
ghost use Rattle.std.specs.Prelude.{◌≡◌, ◌≢◌, ◌+◌, ℕ, [], List, Option, false, true, IfErr, IfOk, IsErr, OnOk};
ghost use Rattle.std.specs.Io.KnownBytes.{Appends};
ghost use Rattle.cell_types.specs.declared.words.Entry.{Entry as EntryValue};
ghost use Rattle.cell_rules.specs.declared.limits.BookLimits.{BookLimits};
ghost use Rattle.cell_rules.specs.Legal.{legal};
ghost use Rattle.cell_rules.specs.Safety.{IsSafe};
ghost use Rattle.cell_method.specs.Conversations.{KeepsWriter};
ghost use Rattle.cell_method.specs.Ends.{end_by, is_finished};
ghost use Rattle.cell_method.specs.Lines.{Row, lines_left};
ghost use Rattle.cell_method.specs.Order.{Point, RoundEndsAt, Showing, between};
ghost use Rattle.cell_method.specs.Rounds.{Broke, BrokeBy, Driven, Fits, FitsDesk, Goes, HandsFit, SameDesk};
ghost use Rattle.cell_method.specs.Rounds.{Stand, start};
ghost use Rattle.cell_method.specs.Shown.{round_line};

use crate::booking::{Close, take_lines};
use crate::conversation::Conversation;
use crate::error::DriveError;
use crate::onlooker::Onlooker;
use crate::operator::{Desk, operate};
use crate::reading_line::show;
use cell_plant::Ported;
use cell_ports::{OperatorPort, Plan, Port};
use cell_rows::TellsFault;
use cell_turns::Ports;
use cell_types::MACHINES;
use line_writer::write_line;
use operator_desk::Script;
use plate_book::Book;
use std::io::Write;

/// How a run ended.
#[derive(Clone, Copy, Debug, PartialEq, Eq)]
pub enum DriveEnd {
    /// As many plates were admitted as the plan has, and no station has one.
    Finished,
    /// There were as many rounds as the plan allows.
    TurnLimit,
    /// The journal has as many entries as the plan allows.
    Full,
    /// The method said that the run is over, or wrote no more lines.
    Quit,
    /// A round had as many lines as it may.
    TooManyLines,
    /// Memory was refused.
    Memory,
}

// Reads each machine in order, and tells what it shows.
fn show_readings<P: Port, W: Write>(ports: &mut Ports<P>, writer: &mut W) -> Result<(), DriveError>
    ensures goes { OnOk result ((l : BookLimits) (s : Stand) (J : List EntryValue) (all : Option (List (Option Row)))
        → Fits P.tells P.log J ports.old s → Goes P.tells P.log l s between (Showing []) all all J ports.new
        (SameDesk s) (W.contents writer.old) (W.contents writer.new)) }
    ensures broke { IsErr result → (l : BookLimits) (s : Stand) (J : List EntryValue) (all : Option (List (Option Row)))
        → Fits P.tells P.log J ports.old s → Broke P.tells P.log l s between all J ports.new (SameDesk s) }
    ensures memory { IfErr result (λ e. e ≢ DriveError.OutOfMemory) }
{
    for machine in MACHINES {
        let reading = ports.pick(machine).read();
        show(writer, machine, reading)?;
    }
    Ok(())
}

// Opens the round of a number.
fn open_round<W: Write>(writer: &mut W, number: u32) -> Result<(), DriveError>
    ensures told { OnOk result (Appends (W.contents writer.old) (W.contents writer.new) (round_line number)) }
    ensures memory { IfErr result (λ e. e ≢ DriveError.OutOfMemory) }
{
    write_line(writer, format_args!("round,{number},,\n"))?;
    writer.flush()?;
    Ok(())
}

// Whether so many plates were admitted, and no station has one.
fn is_finished(book: &Book, plates: u32) -> bool
    ensures { result ≡ is_finished plates book.now.entries }
{
    book.totals().admitted == plates && book.on_stations().is_empty()
}

// The end that a round leaves the run at, if it does.
fn end_at(book: &Book, plan: &Plan) -> Option<DriveEnd>
    ensures { result ≡ end_by plan.now book.now.entries }
{
    if is_finished(book, plan.plates) {
        Some(DriveEnd::Finished)
    } else if book.journal().len() >= plan.journal_limit {
        Some(DriveEnd::Full)
    } else {
        None
    }
}

// The round of a number, and how its lines closed. Where the method said that the round is over, the operator has had
// his turn too.
fn take_round<R: TellsFault, W: Write, P: Port, O: OperatorPort, L: Onlooker>(
    number: u32,
    method: &mut Conversation<'_, R, W>,
    book: &mut Book,
    cell: &mut Ported<P, O>,
    desk: &mut Desk,
    onlooker: &mut L,
) -> Result<Close, DriveError>
    ensures goes { IfOk result (λ close. (s : Stand) (rounds : ℕ) → rounds + 1 ≡ number
        → Fits P.tells P.log book.old.entries cell.old.ports s
        → FitsDesk O.tells O.log desk.old.script desk.old.lost cell.old.hands rounds s
        → (to : Point) × RoundEndsAt close to (lines_left R.remaining method.old.lines)
        (lines_left R.remaining method.new.lines) × Goes P.tells P.log book.old.limits s between to
        (lines_left R.remaining method.old.lines) (lines_left R.remaining method.new.lines) book.new.entries
        cell.new.ports (FitsDesk O.tells O.log desk.new.script desk.new.lost cell.new.hands number)
        (W.contents method.old.writer.now) (W.contents method.new.writer.now)) }
    ensures broke { IfErr result (λ e. (s : Stand) (rounds : ℕ) → rounds + 1 ≡ number
        → Fits P.tells P.log book.old.entries cell.old.ports s
        → FitsDesk O.tells O.log desk.old.script desk.old.lost cell.old.hands rounds s
        → Broke P.tells P.log book.old.limits s between (lines_left R.remaining method.old.lines) book.new.entries
        cell.new.ports (BrokeBy O.tells O.log book.old.limits cell.new.hands e)) }
    ensures limits { book.new.limits ≡ book.old.limits }
    ensures writer { KeepsWriter method.old method.new }
{
    show_readings(&mut cell.ports, method.writer)?;
    open_round(method.writer, number)?;
    onlooker.opened(number);
    match take_lines(method, book, &mut cell.ports, onlooker)? {
        Close::Done => {}
        Close::Quit => return Ok(Close::Quit),
        Close::Long => return Ok(Close::Long),
    }
    operate(desk, &mut cell.hands, book, method.writer, onlooker)?;
    onlooker.closed();
    Ok(Close::Done)
}

// Rounds, until one ends the run.
fn take_rounds<R: TellsFault, W: Write, P: Port, O: OperatorPort, L: Onlooker>(
    method: &mut Conversation<'_, R, W>,
    book: &mut Book,
    cell: &mut Ported<P, O>,
    desk: &mut Desk,
    plan: &Plan,
    onlooker: &mut L,
) -> Result<DriveEnd, DriveError>
    requires { desk.old.lost ≡ false }
    ensures run { IfOk result (λ end. Driven P.tells P.log plan.now book.old.limits
        (start P.log book.old.entries cell.old.ports (O.log cell.old.hands) desk.old.script)
        (lines_left R.remaining method.old.lines) (lines_left R.remaining method.new.lines) end book.new.entries
        cell.new.ports (HandsFit O.tells O.log cell.new.hands) (W.contents method.old.writer.now)
        (W.contents method.new.writer.now)) }
    ensures broke { IfErr result (λ e. Broke P.tells P.log book.old.limits
        (start P.log book.old.entries cell.old.ports (O.log cell.old.hands) desk.old.script) between
        (lines_left R.remaining method.old.lines) book.new.entries cell.new.ports
        (BrokeBy O.tells O.log book.old.limits cell.new.hands e)) }
    ensures limits { book.new.limits ≡ book.old.limits }
    ensures writer { KeepsWriter method.old method.new }
{
    for round in 0..plan.turns {
        match take_round(round + 1, method, book, cell, desk, onlooker)? {
            Close::Done => {}
            Close::Quit => return Ok(DriveEnd::Quit),
            Close::Long => return Ok(DriveEnd::TooManyLines),
        }
        if let Some(end) = end_at(book, plan) {
            return Ok(end);
        }
    }
    Ok(DriveEnd::TurnLimit)
}

/// Lets a method drive a cell over these ports and hands, in rounds, by entries.
pub fn drive<R: TellsFault, W: Write, P: Port, O: OperatorPort, L: Onlooker>(
    method: &mut Conversation<'_, R, W>,
    book: &mut Book,
    cell: &mut Ported<P, O>,
    script: Script,
    plan: &Plan,
    onlooker: &mut L,
) -> Result<DriveEnd, DriveError>
    // Events lead in their order from the start to this end, to the journal, to what the ports were asked, to what the
    // operator's hands did and to what was written.
    ensures run { IfOk result (λ end. Driven P.tells P.log plan.now book.old.limits
        (start P.log book.old.entries cell.old.ports (O.log cell.old.hands) script)
        (lines_left R.remaining method.old.lines) (lines_left R.remaining method.new.lines) end book.new.entries
        cell.new.ports (HandsFit O.tells O.log cell.new.hands) (W.contents method.old.writer.now)
        (W.contents method.new.writer.now)) }
    // The same where it breaks off, but for what was written and which lines are left. Memory is refused only to the
    // booking of a plate that the operator has taken out.
    ensures broke { IfErr result (λ e. Broke P.tells P.log book.old.limits
        (start P.log book.old.entries cell.old.ports (O.log cell.old.hands) script) between
        (lines_left R.remaining method.old.lines) book.new.entries cell.new.ports
        (BrokeBy O.tells O.log book.old.limits cell.new.hands e)) }
    ensures legal { legal book.new.limits book.new.entries ≡ true }
    ensures safe { IsSafe book.new.entries }
    ensures limits { book.new.limits ≡ book.old.limits }
    // What the method is told still goes to the same writer.
    ensures writer { KeepsWriter method.old method.new }
{
    let mut desk = Desk {
        script,
        lost: false,
    };
    let answer = take_rounds(method, book, cell, &mut desk, plan, onlooker);
    book.is_lawful();
    answer
}
