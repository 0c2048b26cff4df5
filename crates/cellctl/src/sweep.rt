//! The command that runs the simulated cell once for each choice of faults.
ghost use Rattle.std.specs.Prelude.{◌≡◌, IfErr, IfOk};
ghost use Rattle.cell_output.specs.Watched.{bytes_held};
ghost use Rattle.cell_orders.specs.Commands.{IfTold};
ghost use Rattle.cell_sweep.specs.Rows.{is_csv};
ghost use Rattle.cell_sweep.specs.Sweeps.{wanted};
ghost use Rattle.cellctl.specs.Carried.{SweepsFiles, SweepsSome};
ghost use Rattle.cellctl.specs.Swept.{AreKinds, HasNoKind};

use crate::asked::asked_of;
use cell_command::Sweeping;
use cell_orders::{CommandError, script_in, settings_in, tell_too_long, told, wrong};
use cell_output::WatchedWriter;
use cell_sim::Fault;
use cell_sweep::{Form, KINDS, KindsError, Sweep, read_kinds, sweep_texts};
use std::alloc::{AllocError, Global};
use std::io::Write;
use std::rt::Files;
use std::thread::Threads;

// The kinds of faults that a sweep goes through: those of a list, or all. Of a list that is wrong it gives the number
// of its first word that is no kind.
fn kinds_of(alloc: Global, list: Option<&str>) -> Result<Result<Vec<Fault>, u32>, AllocError>
    ensures known { IfOk result (λ read. IfOk read (λ kinds. AreKinds list.entry kinds.items)) }
    ensures wrong { IfOk result (λ read. IfErr read (HasNoKind list.entry)) }
{
    let Some(list) = list else {
        return Ok(Ok(Vec::from_slice(alloc, KINDS.as_slice())?));
    };
    match read_kinds(alloc, list) {
        Ok(kinds) => Ok(Ok(kinds)),
        Err(KindsError::Unknown(number)) => Ok(Err(number)),
        Err(KindsError::OutOfMemory) => Err(AllocError),
    }
}

// How a sweep is told.
fn form_of(sweeping: &Sweeping<'_>) -> Form
    ensures { is_csv result ≡ sweeping.now.csv }
{
    if sweeping.csv {
        Form::Csv
    } else if sweeping.svg {
        Form::Chart
    } else {
        Form::Table
    }
}

// Sweeps by what two files say. Both are read before any is judged.
fn sweep_files<'a, R: AllocGlobal + Files + Threads + Sync, W: Write, E: Write>(
    rt: &R,
    output: &mut WatchedWriter<'_, W>,
    errors: &mut E,
    sweeping: Sweeping<'a>,
    sweep: Sweep<'_>,
) -> Result<u8, CommandError<'a>>
    ensures { IfTold result (SweepsSome (wanted sweep.entry.kinds.now sweep.entry.motions sweep.entry.choice
        sweep.entry.part sweep.entry.service (is_csv sweep.entry.form)) (bytes_held W.contents output.old)
        (bytes_held W.contents output.new)) }
{
    let settings = settings_in(rt, sweeping.settings)?;
    let operator = script_in(rt, sweeping.operator)?;
    let Some(settings) = settings else {
        return told(tell_too_long(output));
    };
    let operator = operator.bytes.as_slice();
    told(sweep_texts(rt, settings.as_slice(), operator, sweep, output, errors))
}

/// Runs the simulated cell once for each choice of faults that the words of the command line ask for. With `progress`
/// the errors tell how many runs are done.
pub(crate) fn sweep_words<'a, R: AllocGlobal + Files + Threads + Sync, W: Write, E: Write>(
    rt: &R,
    output: &mut WatchedWriter<'_, W>,
    errors: &mut E,
    sweeping: Sweeping<'a>,
    progress: bool,
) -> Result<u8, CommandError<'a>>
    ensures { IfTold result (SweepsFiles sweeping.entry (bytes_held W.contents output.old)
        (bytes_held W.contents output.new)
        (E.contents errors.old) (E.contents errors.new)) }
{
    let kinds = match kinds_of(rt.alloc(), sweeping.kinds)? {
        Ok(kinds) => kinds,
        Err(number) => {
            let why = format!(in rt.alloc(); "word {number} of LIST is no kind of fault")?;
            return Ok(wrong(errors, why.as_str())?);
        }
    };
    let asked = match asked_of(&sweeping) {
        Ok(asked) => asked,
        Err(why) => return Ok(wrong(errors, why)?),
    };
    let sweep = Sweep {
        kinds: kinds.as_slice(),
        motions: asked.motions,
        choice: asked.choice,
        part: asked.part,
        service: sweeping.service,
        form: form_of(&sweeping),
        progress,
        threads: asked.threads,
    };
    sweep_files(rt, output, errors, sweeping, sweep)
}
