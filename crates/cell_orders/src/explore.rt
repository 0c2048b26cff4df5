//! The command that looks at every order of events of the cell.
ghost use Rattle.cell_output.specs.Watched.{bytes_held};
ghost use Rattle.cell_orders.specs.Commands.{IfTold};
ghost use Rattle.cell_orders.specs.Explores.{ExploresWords};

use crate::asked::{limit_of, named, stranger};
use crate::error::CommandError;
use crate::mistaken::wrong;
use crate::numbers::{WRONG_THREADS, number_in, threads_of};
use crate::texts::told;
use cell_command::{Escaped, Exploring};
use cell_explore::{Asked, MOST_PLATES, ProgressLine, Question, explore_lines};
use cell_output::WatchedWriter;
use std::io::Write;
use std::thread::Threads;

/// Looks at every order of events that the words of the command line ask for. With `progress` the errors tell how many
/// states were looked at.
pub fn explore_words<'a, R: AllocGlobal + Threads + Sync, W: Write, E: Write>(
    rt: &R,
    output: &mut WatchedWriter<'_, W>,
    errors: &mut E,
    exploring: &Exploring<'a>,
    progress: bool,
) -> Result<u8, CommandError<'a>>
    ensures { IfTold result (ExploresWords exploring.now (bytes_held W.contents output.old)
        (bytes_held W.contents output.new)
        (E.contents errors.old) (E.contents errors.new)) }
{
    let Some(plan) = number_in(exploring.plates, 0, MOST_PLATES) else {
        return Ok(wrong(errors, "PLATES is a whole number from 0 to 15")?);
    };
    let Some(limit) = limit_of(exploring.limit) else {
        return Ok(wrong(errors, "STATES is a whole number from 1 to 4294967295")?);
    };
    let Some(threads) = threads_of(exploring.threads) else {
        return Ok(wrong(errors, WRONG_THREADS)?);
    };
    let failing = exploring.failing.as_slice();
    if let Some(word) = stranger(failing) {
        let word = Escaped(word);
        let why = format!(in rt.alloc();
            "MACHINE is feed, table, robot, press1, press2 or deposit, and not '{word}'"
        )?;
        return Ok(wrong(errors, why.as_str())?);
    }
    let question = Question {
        plan,
        may_fail: named(failing),
        repairs: exploring.repairs,
    };
    let asked = Asked {
        question,
        limit,
        journal: exploring.journal,
        threads,
    };
    let mut line = ProgressLine::new(errors, progress);
    told(explore_lines(rt, &asked, output, &mut line))
}
