//! The plates that weren't admitted, and those that were laid back.
ghost use Rattle.std.specs.Prelude.{OnOk};
ghost use Rattle.std.specs.Io.KnownBytes.{Appends};
ghost use Rattle.cell_explain.specs.Counts.{laid_back_of, unadmitted_of};

use crate::endings::words::{plates, were};
use plate_book::Book;
use std::io::{Result, Write};

/// Writes how many of so many plates weren't admitted, where some weren't.
pub(crate) fn write_unadmitted<W: Write>(writer: &mut W, book: &Book, due: u32) -> Result<()>
    ensures { OnOk result (Appends (W.contents writer.old) (W.contents writer.new)
        (unadmitted_of book.now.entries due)) }
{
    let admitted = book.totals().admitted;
    if admitted < due {
        let left = due - admitted;
        writeln!(writer, "{left}{}{}n't admitted", plates(left), were(left))
    } else {
        Ok(())
    }
}

/// Writes how many plates were laid back, where some were.
pub(crate) fn write_laid_back<W: Write>(writer: &mut W, book: &Book) -> Result<()>
    ensures { OnOk result (Appends (W.contents writer.old) (W.contents writer.new) (laid_back_of book.now.entries)) }
{
    let back = book.totals().reinstated;
    if back > 0 {
        writeln!(writer, "{back}{}{} laid back", plates(back), were(back))
    } else {
        Ok(())
    }
}
