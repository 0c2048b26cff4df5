//! Two journals side by side in one page.
ghost use Rattle.std.specs.Prelude.{◌≡◌, ◌≢◌, ◌⊎◌, ◌≤◌, ◌<◌, IfErr, IfOk, IfSome, length};
ghost use Rattle.cell_rows.specs.Rows.{rows_of};
ghost use Rattle.cell_audit.specs.Migrated.{rows_in};
ghost use Rattle.cell_show.specs.Shown.{AsksPast, HasBound, HasEntry, IsOther, OfReader, ShowsBeside, ShowsSomeBeside};
ghost use Rattle.cell_show.specs.Shown.{TellsEntries, TellsStatus, start_of};

use crate::ShowError;
use crate::page::write_beside;
use crate::show::{Form, show_journal};
use cell_output::status;
use cell_rows::TellsFault;
use std::alloc::Global;
use std::io::Write;

/// A journal that is shown beside another one: its reader, and what both journals are called.
#[derive(Clone, Copy, Debug, Drop)]
pub struct Beside<'a, O> {
    pub reader: O,
    pub name: &'a str,
    pub first_name: &'a str,
}

// What stands in place of a page of which nothing is shown, up to the line that says why.
const NO_PAGE: &str =
    "<!DOCTYPE html>\n<html lang=\"en\">\n<meta charset=\"utf-8\">\n<title>Nothing is shown</title>\n";

// The line that stands in place of a page, if there was memory for it.
fn absent_page(alloc: Global, why: ShowError) -> Option<Vec<u8>> {
    let mut page = Vec::new(alloc);
    write!(page, "{NO_PAGE}<p>{why}</p>\n</html>\n").ok()?;
    Some(page)
}

// The page of another journal, or the line in its place; or the status where the reader failed or memory was refused.
fn other_page<R: TellsFault + Drop>(alloc: Global, reader: R, form: Form) -> Result<Vec<u8>, u8>
    ensures page { IfOk result (λ page. OfReader (R.remaining reader)
        (λ text. IsOther form page.items (rows_of text))) }
    ensures status { IfErr result (λ status. (status ≡ 3) ⊎ (status ≡ 4)) }
{
    let mut page = Vec::new(alloc);
    match show_journal(alloc, reader, form, None, &mut page) {
        Ok(status) if status <= status::REFUSED => Ok(page),
        Ok(status::DEVICE_FAULT) => Err(status::DEVICE_FAULT),
        // A page that is written to memory fails only where that is wanting.
        Ok(_) | Err(ShowError::WriteFault) => Err(status::OUT_OF_MEMORY),
        Err(why) => absent_page(alloc, why).ok_or(status::OUT_OF_MEMORY),
    }
}

/// Shows the page of the journal on the reader and beside it that of another one, both in one page by whose controls
/// both are stepped, and gives the exit status, which is that of the first journal. The form is one of a page.
///
/// Each journal is shown as by `show_journal`, both in the same window. Where the other one has fewer entries than that
/// begins after its frame says so. Where one of the readers fails (status 3) or memory is refused (status 4) nothing is
/// written.
pub fn show_beside<R: TellsFault + Drop, O: TellsFault + Drop, W: Write>(
    alloc: Global,
    reader: R,
    other: Beside<'_, O>,
    form: Form,
    entry: Option<u32>,
    writer: &mut W,
) -> Result<u8, ShowError>
    // The status is that of the audit's answer for the journal on the reader.
    ensures status { IfOk result (TellsStatus (rows_in (R.remaining reader))) }
    ensures unread { IfOk result (λ status. 1 < status → writer.new ≡ writer.old) }
    ensures there { IfOk result (λ status. status ≤ 1
        → IfSome (rows_in (R.remaining reader)) (HasEntry entry (start_of form))) }
    // Both pages stand in what was written, each behind its name.
    ensures pages { IfOk result (λ status. status ≤ 1
        → OfReader (O.remaining other.entry.reader) (λ others. IfSome (rows_in (R.remaining reader))
        (ShowsBeside form other.entry.first_name.now other.entry.name.now (rows_of others) (W.contents writer.old)
        (W.contents writer.new)))) }
    ensures past { IfErr result (AsksPast entry (start_of form)) }
    ensures entries { IfErr result (λ why. IfSome (rows_in (R.remaining reader)) (TellsEntries why)) }
    ensures bound { result ≡ Err ShowError.TooManyEntries → HasBound form }
    ensures nothing { IfErr result (λ e. e ≢ ShowError.WriteFault → writer.new ≡ writer.old) }
    // Where the first reader doesn't tell its bytes, all this is so of some text.
    ensures some { ShowsSomeBeside form entry other.entry.first_name.now other.entry.name.now
        (O.remaining other.entry.reader) (W.contents writer.old) (W.contents writer.new) result }
{
    let mut first = Vec::new(alloc);
    let status = match show_journal(alloc, reader, form, entry, &mut first) {
        Ok(status) if status > status::REFUSED => return Ok(status),
        Ok(status) => status,
        // A page that is written to memory fails only where that is wanting.
        Err(ShowError::WriteFault) => return Ok(status::OUT_OF_MEMORY),
        Err(why) => return Err(why),
    };
    let Beside {
        reader: other,
        name,
        first_name,
    } = other;
    let second = match other_page(alloc, other, form) {
        Ok(page) => page,
        Err(status) => return Ok(status),
    };
    write_beside(
        writer,
        first_name,
        first.as_slice(),
        name,
        second.as_slice(),
    )?;
    Ok(status)
}
