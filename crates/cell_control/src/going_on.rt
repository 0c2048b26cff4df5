//! Which lines of a script are done where a run goes on from a journal.
ghost use Rattle.std.specs.Prelude.{OnOk, true};
ghost use Rattle.cell_control.specs.Scripts.{AreDue};

use cell_explain::endings::lines_done;
use cell_journal::Journal;
use cell_rows::{LineError, read_script};
use operator_desk::{Line, Script};
use std::alloc::{AllocError, Global};

/// Marks the lines of a script as done that were done in a journal, if the operator's text has its lines.
pub(crate) fn go_on(
    alloc: Global,
    script: &mut Script,
    operator: &[u8],
    journal: &Journal,
) -> Result<(), AllocError>
    ensures { OnOk result (AreDue true operator.now journal.now.entries script.old script.new) }
{
    let lines: Vec<Line> = match read_script(alloc, operator) {
        Ok(lines) => lines,
        Err(LineError::OutOfMemory) => return Err(AllocError),
        Err(_) => return Ok(()),
    };
    for _line in 0..lines_done(journal, 0, lines.as_slice()) {
        script.done();
    }
    Ok(())
}
