//! The script of the faults of a run.
ghost use Rattle.std.specs.Prelude.{◌≡◌, IfOk, string_bytes};
ghost use Rattle.cell_sim.specs.Spelled.{script_of};
ghost use Rattle.cell_sweep.specs.Cases.{text_of};

use crate::kinds::word_of;
use cell_sim::PlannedFault;
use cell_types::texts::axis_word;
use std::alloc::{AllocError, Global};

// The script with one fault.
fn script_of(alloc: Global, planned: PlannedFault) -> Result<String, AllocError>
    ensures { IfOk result (λ text. string_bytes text ≡ script_of planned) }
{
    let axis = axis_word(planned.axis);
    let motion = planned.motion;
    let kind = word_of(planned.fault);
    match planned.fault.readings() {
        Some(readings) => format!(in alloc; "{axis},{motion},{kind},{readings}\n"),
        None => format!(in alloc; "{axis},{motion},{kind},\n"),
    }
}

/// The script with these faults: a record of each.
pub(crate) fn text_of(alloc: Global, faults: &[PlannedFault]) -> Result<Vec<u8>, AllocError>
    ensures { IfOk result (λ text. text.items ≡ text_of faults.now) }
{
    let mut text = Vec::new(alloc);
    for fault in faults {
        let record = script_of(alloc, *fault)?;
        text.extend_from_slice(record.as_str().as_bytes())?;
    }
    Ok(text)
}
