//! A run by commands: the method answers for itself, and the world is watched.
ghost use Rattle.std.specs.Prelude.{◌≡◌, ◌≢◌, ◌<◌, ◌+◌, ◌++◌, [], List, ℕ, IfOk, IfSome, OnOk, length, position, true};
ghost use Rattle.std.specs.List.{list_any};
ghost use Rattle.std.specs.Io.KnownBytes.{Appends};
ghost use Rattle.cell_output.specs.Watched.{bytes_held};
ghost use Rattle.cell_runs.specs.Inputs.{AreLines};
ghost use Rattle.cell_sim.specs.Parts.{is_machine_moving};
ghost use Rattle.cell_sim.specs.Hands.{after_hand};
ghost use Rattle.operator_desk.specs.Next.{left_after};
ghost use Rattle.operator_desk.specs.declared.line.Line.{Line as LineValue};
ghost use Rattle.cell_types.specs.Texts.{all_machine};
ghost use Rattle.cell_method.specs.Conversations.{KeepsWriter};
ghost use Rattle.cell_method.specs.Lines.{lines_left};
ghost use Rattle.cell_drive.specs.Commanded.{AreLaid, Commanded, Goes, GoesOn, IsDone, Point, RoundEndsAt, is_at_rest};
ghost use Rattle.cell_drive.specs.Commanded.{Between, ClosesAt, IsFinished, QuitsAs, Talking};
ghost use Rattle.cell_drive.specs.Commanded.{after_readings, after_turn, after_wish, answer_to, closed_by, counted_in};
ghost use Rattle.cell_drive.specs.Commanded.{readings_told, round_told, run_counts, stand_of, start, synced_line};
ghost use Rattle.cell_drive.specs.Deeds.{IsRead, is_expecting, next_deed, told_of};
ghost use Rattle.cell_drive.specs.Raw.{IsStatusOf, RunsCommands, TellsCommanded};
ghost use Rattle.cell_drive.specs.declared.wish.Wish.TheVariants as wish;

use crate::hands::{Deed, deed_by, do_deed, tell_deed};
use crate::measures::Measures;
use crate::report::{end_text, explain_broken, explain_unread, write_world};
use crate::texts::{Told, status_of, write_told};
use crate::unread::{UnreadLine, unread_command};
use crate::wish::{Wish, wish_of};
use cell_method::{Conversation, DriveEnd, DriveError, MAX_LINES, ReadingLine};
use cell_output::WatchedWriter;
use cell_ports::Act;
use cell_rows::{Four, TellsFault, read_script};
use cell_runs::Inputs;
use cell_sim::{FaultScript, World};
use cell_types::{Command, MACHINES, Machine, Totals};
use line_writer::write_line;
use operator_desk::{Line, ScriptError, Task};
use std::alloc::{AllocError, Global};
use std::io;
use std::io::Write;

// Whether a line says that a plate will be laid back.
fn is_expecting(line: &Line) -> bool
    ensures { result ≡ is_expecting line.now }
{
    matches!(line.task, Task::Expect(_))
}

// The place of the first line that says so.
fn first_expecting(lines: &[Line]) -> Option<usize>
    ensures place { result ≡ position is_expecting lines.now }
    ensures within { IfSome result (λ place. place < length lines.now) }
{
    lines.iter().position(|line| is_expecting(line))
}

/// The lines of the operator's script, of which none says that a plate will be laid back: by commands there is no book
/// that expects one. The error names the first such record, counted from 1.
pub(crate) fn raw_script(alloc: Global, operator: &[u8]) -> Result<Vec<Line>, ScriptError>
    ensures { (script : List LineValue) → AreLines operator.now script → IsRead script result }
{
    let lines: Vec<Line> = match read_script(alloc, operator) {
        Ok(lines) => lines,
        Err(error) => return Err(error),
    };
    match first_expecting(lines.as_slice()) {
        Some(place) => Err(ScriptError::Unreadable((place + 1) as u32)),
        None => Ok(lines),
    }
}

/// How a round of lines closed.
#[derive(Clone, Copy, Debug, PartialEq, Eq)]
pub(crate) enum Close {
    /// The method said that the round is over.
    Done,
    /// The method said that the run is over, or there are no more lines.
    Quit,
    /// The round has as many lines as it may.
    Long,
}

// What a run by commands has from round to round.
#[derive(Drop)]
struct Run {
    world: World,
    script: Vec<Line>,
    // How many of the script's lines are done.
    done: usize,
    // How many rounds were opened.
    rounds: u32,
    // How many commands came. At `u32::MAX` the count stays.
    commands: u32,
    // Whether the method ends the run, and no plate does.
    stays: bool,
    measures: Measures,
    // The first line that couldn't be read.
    unread: Option<UnreadLine>,
}

// Reads each machine in order, and tells what it shows.
fn show_readings<W: Write>(world: &mut World, writer: &mut W) -> io::Result<()>
    ensures told { OnOk result (Appends (W.contents writer.old) (W.contents writer.new)
        (readings_told all_machine world.old)) }
    ensures world { OnOk result (world.new ≡ after_readings all_machine world.old) }
{
    for machine in MACHINES {
        let reading = world.read(machine);
        write_line(writer, ReadingLine { machine, reading })?;
    }
    Ok(())
}

// Tells what each machine shows, opens the round of a number, and notes which plates the readings laid in and took out.
fn open<W: Write>(run: &mut Run, number: u32, writer: &mut W) -> io::Result<()>
    ensures told { OnOk result (Appends (W.contents writer.old) (W.contents writer.new)
        (round_told number run.old.world)) }
    ensures stand { OnOk result (stand_of run.new ≡ record (stand_of run.old) {
      world = after_readings all_machine run.old.world;
      rounds = number;
    }) }
{
    show_readings(&mut run.world, writer)?;
    write_line(writer, format_args!("round,{number},,\n"))?;
    writer.flush()?;
    run.rounds = number;
    run.measures.open(number, &run.world);
    Ok(())
}

// Sends a command, and gives the answer.
fn send(run: &mut Run, command: Command, faults: &FaultScript) -> &'static str
    ensures answer { result.now ≡ answer_to faults.now (stand_of run.old) (wish.Send command) }
    ensures stand { stand_of run.new ≡ after_wish faults.now (stand_of run.old) (wish.Send command) }
{
    run.commands = run.commands.saturating_add(1);
    match run.world.command(command, faults) {
        Ok(()) => "ok,,,\n",
        Err(_) => "failed,,,\n",
    }
}

// Does an act by hand.
fn do_by_hand(run: &mut Run, act: Act)
    ensures { stand_of run.new ≡ record (stand_of run.old) { world = after_hand run.old.world act } }
{
    match act {
        Act::Remove(station) => run.world.remove(station),
        Act::Home(machine) => run.world.home(machine),
    }
}

// Tells an answer.
fn tell<W: Write>(writer: &mut W, answer: &str) -> io::Result<()>
    ensures { OnOk result (Appends (W.contents writer.old) (W.contents writer.new) answer.now) }
{
    write!(writer, "{answer}")?;
    writer.flush()
}

// Tells the readings of now in the same round, after the number of the method's line.
fn sync<W: Write>(run: &mut Run, number: u32, writer: &mut W) -> io::Result<()>
    ensures told { OnOk result (Appends (W.contents writer.old) (W.contents writer.new)
        (synced_line number ++ round_told run.old.rounds run.old.world)) }
    ensures stand { OnOk result (stand_of run.new ≡ record (stand_of run.old) {
      world = after_readings all_machine run.old.world;
      stays = true;
    }) }
{
    run.stays = true;
    write_line(writer, format_args!("synced,{number},,\n"))?;
    open(run, run.rounds, writer)
}

// Does what a line asks for, and answers it.
fn answer<W: Write>(
    run: &mut Run,
    wish: Wish,
    faults: &FaultScript,
    writer: &mut W,
) -> io::Result<()>
    ensures told { OnOk result (Appends (W.contents writer.old) (W.contents writer.new)
        (answer_to faults.now (stand_of run.old) wish)) }
    ensures stand { OnOk result (stand_of run.new ≡ after_wish faults.now (stand_of run.old) wish) }
{
    match wish {
        Wish::Send(command) => {
            let answer = send(run, command, faults);
            tell(writer, answer)
        }
        Wish::Act(act) => {
            do_by_hand(run, act);
            tell(writer, "ok,,,\n")
        }
        Wish::Stay => {
            run.stays = true;
            tell(writer, "ok,,,\n")
        }
        Wish::Sync(number) => sync(run, number, writer),
        Wish::Nothing => tell(writer, "unreadable,,,\n"),
        Wish::Pass | Wish::Done | Wish::Quit => Ok(()),
    }
}

// Keeps why a line of the round can't be read, if it can't and is the first of the run.
fn keep_unread(run: &mut Run, wish: Wish, line: u32, four: Option<Four<'_>>)
    ensures { stand_of run.new ≡ stand_of run.old }
{
    if wish == Wish::Nothing && run.unread.is_none() {
        run.unread = Some(UnreadLine {
            round: run.rounds,
            line,
            why: unread_command(four),
        });
    }
}

// How a line closes the lines of its round, if it does.
fn closed_by(wish: Wish) -> Option<Close>
    ensures { result ≡ closed_by wish }
{
    match wish {
        Wish::Done => Some(Close::Done),
        Wish::Quit => Some(Close::Quit),
        _ => None,
    }
}

// Answers the lines of a round.
fn take_lines<I: TellsFault, W: Write>(
    run: &mut Run,
    faults: &FaultScript,
    method: &mut Conversation<'_, I, W>,
) -> Result<Close, DriveError>
    ensures goes { IfOk result (λ close. (to : Point) × ClosesAt close to (lines_left I.remaining method.old.lines)
        (lines_left I.remaining method.new.lines) × Goes faults.now (stand_of run.old) (stand_of run.new) (Talking 0)
        to (lines_left I.remaining method.old.lines) (lines_left I.remaining method.new.lines)
        (W.contents method.old.writer.now) (W.contents method.new.writer.now)) }
    ensures rounds { IfOk result (λ close. run.new.rounds ≡ run.old.rounds) }
    ensures writer { KeepsWriter method.old method.new }
{
    for count in 0..MAX_LINES {
        if !method.lines.advance()? {
            return Ok(Close::Quit);
        }
        let wish = wish_of(&method.lines);
        if let Some(close) = closed_by(wish) {
            return Ok(close);
        }
        keep_unread(run, wish, count + 1, method.lines.four());
        answer(run, wish, faults, method.writer)?;
    }
    Ok(Close::Long)
}

// What the operator does next, if anything.
fn next_deed(run: &Run) -> Option<Deed>
    ensures { result ≡ next_deed run.now.world (stand_of run.now).lines }
{
    match run.script.get(run.done) {
        Some(line) => deed_by(&run.world, *line),
        None => None,
    }
}

// Marks the first line that isn't done yet as done.
fn mark_done(run: &mut Run)
    ensures { stand_of run.new ≡ record (stand_of run.old) { lines = left_after (stand_of run.old).lines } }
{
    if run.done < run.script.len() {
        run.done += 1;
    }
}

// The operator's next action, where his script has one now: he does it by hand, and it is told.
fn operate<W: Write>(run: &mut Run, writer: &mut W) -> io::Result<()>
    ensures told { OnOk result (Appends (W.contents writer.old) (W.contents writer.new)
        (told_of (next_deed run.old.world (stand_of run.old).lines))) }
    ensures stand { OnOk result (stand_of run.new
        ≡ after_turn (next_deed run.old.world (stand_of run.old).lines) (stand_of run.old)) }
{
    let Some(deed) = next_deed(run) else {
        return Ok(());
    };
    mark_done(run);
    do_deed(&mut run.world, deed);
    tell_deed(writer, deed)
}

// Whether one of these machines moves.
fn is_any_moving(world: &World, machines: &[Machine]) -> bool
    ensures { result ≡ list_any (is_machine_moving world.now) machines.now }
{
    for machine in machines {
        if world.is_machine_moving(*machine) {
            return true;
        }
    }
    false
}

// Whether nothing moves, and no station has a plate.
fn is_at_rest(world: &World) -> bool
    ensures { result ≡ is_at_rest world.now }
{
    !is_any_moving(world, &MACHINES) && world.is_empty()
}

// Whether all plates were laid in.
fn are_laid(world: &World) -> bool
    ensures { AreLaid world.now result }
{
    world.left() == 0
}

// Whether all plates were laid in, none is in the cell, and nothing moves.
fn is_done(world: &World) -> bool
    ensures { IsDone world.now result }
{
    let are_laid = are_laid(world);
    is_at_rest(world) && are_laid
}

// Whether a run that no method ends is finished.
fn is_finished(run: &Run) -> bool
    ensures { IsFinished (stand_of run.now) result }
{
    !run.stays && is_done(&run.world)
}

// The round of a number, and how its lines closed. Where the method said that the round is over, the operator has had
// his turn too.
fn take_round<I: TellsFault, W: Write>(
    run: &mut Run,
    number: u32,
    faults: &FaultScript,
    method: &mut Conversation<'_, I, W>,
) -> Result<Close, DriveError>
    requires { run.old.rounds + 1 ≡ number }
    ensures goes { IfOk result (λ close. GoesOn (stand_of run.old) → (to : Point)
        × RoundEndsAt close to (lines_left I.remaining method.old.lines) (lines_left I.remaining method.new.lines)
        × Goes faults.now (stand_of run.old) (stand_of run.new) Between to (lines_left I.remaining method.old.lines)
        (lines_left I.remaining method.new.lines) (W.contents method.old.writer.now)
        (W.contents method.new.writer.now)) }
    ensures rounds { IfOk result (λ close. run.new.rounds ≡ number) }
    ensures writer { KeepsWriter method.old method.new }
{
    open(run, number, method.writer)?;
    match take_lines(run, faults, method)? {
        Close::Done => {}
        Close::Quit => return Ok(Close::Quit),
        Close::Long => return Ok(Close::Long),
    }
    operate(run, method.writer)?;
    run.world.end_round();
    Ok(Close::Done)
}

// The end of a run that the method left. One that the method was to end is finished where it left the cell so.
fn quit_end(run: &Run) -> DriveEnd
    ensures { QuitsAs (stand_of run.now) result }
{
    if run.stays && is_done(&run.world) {
        DriveEnd::Finished
    } else {
        DriveEnd::Quit
    }
}

// Rounds, until one ends the run.
fn take_rounds<I: TellsFault, W: Write>(
    run: &mut Run,
    inputs: &Inputs,
    method: &mut Conversation<'_, I, W>,
) -> Result<DriveEnd, DriveError>
    requires { run.old.rounds ≡ 0 }
    ensures run { IfOk result (λ ended. Commanded inputs.now.plan inputs.now.faults (stand_of run.old)
        (stand_of run.new) (lines_left I.remaining method.old.lines) (lines_left I.remaining method.new.lines) ended
        (W.contents method.old.writer.now) (W.contents method.new.writer.now)) }
    ensures writer { KeepsWriter method.old method.new }
{
    for round in 0..inputs.plan.turns {
        match take_round(run, round + 1, &inputs.faults, method)? {
            Close::Done => {}
            Close::Quit => return Ok(quit_end(run)),
            Close::Long => return Ok(DriveEnd::TooManyLines),
        }
        if is_finished(run) {
            return Ok(DriveEnd::Finished);
        }
    }
    Ok(DriveEnd::TurnLimit)
}

// The end of a run that ended so, unless memory was refused for its measures.
fn end_of(ended: DriveEnd, lacks_memory: bool) -> DriveEnd
    ensures { result ≢ DriveEnd.Memory → ended ≡ result }
{
    if lacks_memory {
        DriveEnd::Memory
    } else {
        ended
    }
}

// What was counted in the world.
fn totals_of(world: &World) -> Totals
    ensures { result ≡ counted_in world.now }
{
    Totals {
        entries: 0,
        admitted: world.laid(),
        forged: world.forged(),
        quarantined: world.removed(),
        delivered: world.taken_out(),
        reinstated: 0,
    }
}

// How many rounds a run took, how many commands came, and how often machines met, as it is told.
fn counts_text(
    alloc: Global,
    rounds: u32,
    commands: u32,
    collisions: u32,
) -> Result<Vec<u8>, AllocError>
    ensures { IfOk result (λ text. text.items ≡ run_counts rounds commands collisions) }
{
    let text = format!(in alloc;
        "rounds {rounds}\ncommands {commands}\ncollisions {collisions}\n"
    )?;
    Ok(text.into_bytes())
}

// What is told of a run below that.
fn measures_of(alloc: Global, run: &mut Run) -> io::Result<Vec<u8>>
    ensures { stand_of run.new ≡ stand_of run.old }
{
    let mut text = Vec::new(alloc);
    write_world(&mut text, &run.world, &mut run.measures)?;
    Ok(text)
}

// What is told of a run that ended so.
fn told_of(alloc: Global, run: &mut Run, end: DriveEnd) -> io::Result<Vec<u8>>
    ensures told { IfOk result (λ text. TellsCommanded end (stand_of run.old) text.items) }
    ensures stand { stand_of run.new ≡ stand_of run.old }
{
    let mut told = end_text(alloc, end, totals_of(&run.world))?;
    let counts = counts_text(alloc, run.rounds, run.commands, run.world.collisions())?;
    let measures = measures_of(alloc, run)?;
    told.extend_from_slice(counts.as_slice())?;
    told.extend_from_slice(measures.as_slice())?;
    Ok(told)
}

// Tells what came of a run that ended so, and gives its status.
fn tell_run<W: Write, E: Write>(
    alloc: Global,
    run: &mut Run,
    end: DriveEnd,
    writer: &mut WatchedWriter<'_, W>,
    told: Told<'_, E>,
) -> Result<u8, DriveError>
    ensures told { OnOk result ((text : List ℕ) × TellsCommanded end (stand_of run.old) text
        × Appends (bytes_held W.contents writer.old) (bytes_held W.contents writer.new) text) }
    ensures status { IfOk result (IsStatusOf end run.old.world) }
    ensures memory { IfOk result (λ status. status < 3 → end ≢ DriveEnd.Memory) }
{
    let status = status_of(end, run.world.is_safe());
    let Ok(text) = told_of(alloc, run, end) else {
        return Err(DriveError::OutOfMemory);
    };
    write_told(writer, text.as_slice())?;
    if told.explain {
        explain_unread(told.errors, run.unread)?;
        explain_broken(told.errors, &run.world)?;
    }
    Ok(status)
}

/// Lets a method drive this world by commands, by the plan and the faults of these inputs and this script of the
/// operator, tells what came of it, and gives the status.
pub(crate) fn drive_commands<I: TellsFault, W: Write, E: Write>(
    alloc: Global,
    inputs: &Inputs,
    script: Vec<Line>,
    world: World,
    method: &mut Conversation<'_, I, WatchedWriter<'_, W>>,
    told: Told<'_, E>,
) -> Result<u8, DriveError>
    ensures run { IfOk result (λ status. status < 3 → RunsCommands inputs.now (start world script.items)
        (lines_left I.remaining method.old.lines) [] (bytes_held W.contents method.old.writer.now)
        (bytes_held W.contents method.new.writer.now) status) }
    ensures writer { KeepsWriter method.old method.new }
{
    let measures = Measures::new(alloc, &world);
    let mut run = Run {
        world,
        script,
        done: 0,
        rounds: 0,
        commands: 0,
        stays: false,
        measures,
        unread: None,
    };
    let ended = take_rounds(&mut run, inputs, method)?;
    let end = end_of(ended, run.measures.lacks_memory());
    tell_run(alloc, &mut run, end, method.writer, told)
}
