//! A run by its texts.
ghost use Rattle.std.specs.Prelude.{◌≡◌, IfOk, IsErr, OnOk, true};
ghost use Rattle.cell_rules.specs.Legal.{legal};
ghost use Rattle.cell_rules.specs.Safety.{IsSafe};
ghost use Rattle.cell_lines.specs.Stands.{WritesSome, stand_of};
ghost use Rattle.cell_control.specs.Controlling.{AreOrders, Controlling, Controls, HasStatus};
ghost use Rattle.cell_control.specs.Controlling.{Ran, Starts, left_open, start_text};
ghost use Rattle.cell_control.specs.Scripts.{AreDue};
ghost use Rattle.cell_rounds.specs.Moves as moves;

use crate::going_on::go_on;
use crate::told::{status_of, tell};
use cell_explain::endings::{EndedRun, write_ending};
use cell_ledger::Blanks;
use cell_lines::{FarEnd, Loss};
use cell_measures::Durations;
use cell_plant::{Gone, Keeper};
use cell_ports::Plan;
use cell_rounds::{Halt, LastCommand, Outcome, Start, Terms, control, last_command};
use cell_rows::TellsFault;
use cell_runs::{InputError, Texts, read_inputs};
use operator_desk::Script;
use plate_book::Book;
use std::alloc::Global;
use std::io;
use std::io::Write;
use std::marker::Brand;

/// How a cell is controlled, and what is told besides.
#[derive(Clone, Copy, Debug, PartialEq, Eq)]
pub struct ControlOptions {
    /// Whether it is told why the run ended so.
    pub explain: bool,
    /// Whether the run goes on where it is stalled.
    pub wait: bool,
    /// Whether it goes on from a journal.
    pub resume: bool,
}

/// What the texts of a run say.
#[derive(Drop)]
pub struct Orders<'a> {
    pub plan: Plan,
    pub script: Script,
    /// The text of the script.
    pub operator: &'a [u8],
}

/// Reads the settings and the operator's script, in this order. The error is that of the first text that is refused.
pub fn read_orders<'a>(
    alloc: Global,
    settings: &[u8],
    operator: &'a [u8],
) -> Result<Orders<'a>, InputError>
    ensures { AreOrders settings.now operator.now result }
{
    let texts = Texts {
        settings,
        faults: b"",
        operator,
        durations: Durations::ONE,
    };
    let inputs = read_inputs(alloc, texts)?;
    Ok(Orders {
        plan: inputs.plan,
        script: inputs.script,
        operator,
    })
}

// Reads the cell's first line, or has it find a run again whose journal has so many entries.
fn reach<I: TellsFault, W: Write, E: Write>(
    far: &mut FarEnd<I, W, E>,
    plates: u32,
    entries: u32,
    resumes: bool,
) -> Result<(), Gone>
    ensures started { OnOk result (Starts resumes entries (stand_of I.remaining W.contents far.old)
        (stand_of I.remaining W.contents far.new)) }
    ensures part { IsErr result → WritesSome (start_text resumes entries)
        (stand_of I.remaining W.contents far.old).text (stand_of I.remaining W.contents far.new).text }
{
    if resumes {
        far.sync(entries)
    } else {
        far.begin(plates)
    }
}

// The command of which it isn't known whether it went out: of a run that goes on that of the journal's last entry.
fn left_open(book: &Book, resumes: bool) -> Option<LastCommand>
    ensures { result ≡ left_open resumes book.now.entries }
{
    if resumes {
        last_command(book.journal())
    } else {
        None
    }
}

// Controls a cell from its first line on, or from where a journal left it.
fn control_far<I: TellsFault, W: Write, E: Write, K: Keeper>(
    alloc: Global,
    far: &mut FarEnd<I, W, E>,
    keeper: &mut K,
    start: Start,
    terms: Terms<'_>,
    resumes: bool,
) -> Outcome
    ensures ran { Ran K.keeps (moves.terms_of start.book.limits terms.entry.plan.now terms.entry.waits) resumes
        start.book.entries start.script start.pending (stand_of I.remaining W.contents far.old)
        (stand_of I.remaining W.contents far.new) keeper.old keeper.new result.halt result.book.entries }
    ensures limits { result.book.limits ≡ start.book.limits }
    ensures legal { legal start.book.limits result.book.entries ≡ true }
    ensures safe { IsSafe result.book.entries }
{
    let entries = start.book.journal().len();
    if let Err(Gone) = reach(far, terms.plan.plates, entries, resumes) {
        let Start { book, .. } = start;
        book.is_lawful();
        return Outcome {
            book,
            halt: Halt::Gone,
        };
    }
    control::<_, _, Brand>(alloc, far, keeper, start, Blanks::new(1), terms)
}

/// The streams of a run: what the cell writes, what is written to it, and what is told.
#[derive(Drop)]
pub struct Streams<I, W, E> {
    pub input: I,
    pub output: W,
    pub errors: E,
}

/// What a run that was controlled left: both writers, and the exit status.
#[derive(Drop)]
pub struct Finished<W, E> {
    pub output: W,
    pub errors: E,
    pub status: io::Result<u8>,
}

// What a run left that is told of.
#[derive(Drop)]
struct Left<W, E> {
    output: W,
    errors: E,
    outcome: Outcome,
    // Why the cell couldn't be reached any more.
    loss: Option<Loss>,
}

impl<W, E: Write> Left<W, E> {
    // Tells what came of the run, and gives the exit status.
    fn tell_outcome(
        &mut self,
        alloc: Global,
        plan: &Plan,
        operator: &[u8],
        explains: bool,
    ) -> io::Result<u8>
        ensures output { self.new.output ≡ self.old.output }
        ensures status { IfOk result (HasStatus self.old.outcome.halt) }
    {
        let halt = self.outcome.halt;
        let totals = self.outcome.book.totals();
        tell(&mut self.errors, halt, self.loss, totals)?;
        if explains {
            let run = EndedRun {
                journal: self.outcome.book.journal(),
                before: 0,
                end: halt.end(),
                plan,
                faults: b"",
                operator,
            };
            write_ending(alloc, &run, &mut self.errors)?;
        }
        Ok(status_of(halt, self.loss))
    }
}

// Controls a cell over its streams, and stops it at the end.
fn run_far<I: TellsFault + Drop, W: Write, E: Write, K: Keeper>(
    alloc: Global,
    streams: Streams<I, W, E>,
    keeper: &mut K,
    start: Start,
    terms: Terms<'_>,
    resumes: bool,
) -> Left<W, E>
    ensures controls { Controls K.keeps (moves.terms_of start.book.limits terms.entry.plan.now terms.entry.waits)
        resumes start.book.entries start.script start.pending (I.remaining streams.input) (W.contents streams.output)
        (W.contents result.output) keeper.old keeper.new result.outcome.halt result.outcome.book.entries }
    ensures legal { legal start.book.limits result.outcome.book.entries ≡ true }
    ensures safe { IsSafe result.outcome.book.entries }
{
    let mut far = FarEnd::new(streams.input, streams.output, streams.errors);
    let outcome = control_far(alloc, &mut far, keeper, start, terms, resumes);
    let (output, errors, loss) = far.finish();
    Left {
        output,
        errors,
        outcome,
        loss,
    }
}

// Prepares a run. One that goes on from a journal starts with the lines of the script that the journal leaves. Its
// pending command is that of the last entry, of which it isn't known whether it went out.
fn prepare(alloc: Global, start: &mut Start, operator: &[u8], resumes: bool) -> io::Result<()>
    ensures book { start.new.book ≡ start.old.book }
    ensures lines { OnOk result (AreDue resumes operator.now start.old.book.entries start.old.script start.new.script) }
    ensures pending { OnOk result (start.new.pending ≡ left_open resumes start.old.book.entries) }
{
    if resumes {
        go_on(alloc, &mut start.script, operator, start.book.journal())?;
    }
    start.pending = left_open(&start.book, resumes);
    Ok(())
}

/// Controls the cell whose lines are on the input, by these orders and from this book on, and tells at the end what
/// came of it among the errors; gives both writers back, and the exit status.
pub fn control_cell<I: TellsFault + Drop, W: Write + Drop, E: Write + Drop, K: Keeper>(
    alloc: Global,
    orders: Orders<'_>,
    book: Book,
    options: ControlOptions,
    keeper: &mut K,
    streams: Streams<I, W, E>,
) -> Finished<W, E>
    // Rounds led from the book's journal to one that is legal and safe. Each command that was written is that of an
    // entry that was kept before, but for those that stop machines and the one that a run which goes on sends again.
    // Each entry is the one that is due at the reading that the cell's lines spell, or the operator's: by the first
    // line of his script that is left, or because it was done or wanted at the cell.
    ensures controlling { Controlling K.keeps (moves.terms_of book.limits orders.entry.plan options.wait) options.resume
        book.entries orders.entry.script orders.entry.operator.now (I.remaining streams.input)
        (W.contents streams.output) (W.contents result.output) keeper.old keeper.new result.status }
{
    let Orders {
        plan,
        script,
        operator,
    } = orders;
    let mut start = Start {
        book,
        script,
        pending: None,
    };
    let resumes = options.resume;
    let prepared = prepare(alloc, &mut start, operator, resumes);
    match prepared {
        Ok(()) => {}
        Err(error) => {
            return Finished {
                output: streams.output,
                errors: streams.errors,
                status: Err(error),
            };
        }
    }
    let terms = Terms {
        plan: &plan,
        waits: options.wait,
    };
    let mut left = run_far(alloc, streams, keeper, start, terms, resumes);
    let status = left.tell_outcome(alloc, &plan, operator, options.explain);
    Finished {
        output: left.output,
        errors: left.errors,
        status,
    }
}
