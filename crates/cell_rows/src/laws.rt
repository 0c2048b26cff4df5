//! What holds of records and their lines. Each function's contract is the law, and its body is empty.
ghost use Rattle.std.specs.Prelude.{◌≡◌, false, All, List};
ghost use Rattle.csv.specs.Reading.{strip_bom};
ghost use Rattle.cell_rows.specs.Rows.{Row, device_failed, rows_of};
ghost use Rattle.cell_rows.specs.Lines.{IsPlain, lines_of};

use crate::rows::RowReader;

/// Records of several fields that need no quotes are read back from their lines, unless these begin with a byte order
/// mark.
pub fn plain_lines_are_read_back()
    ensures { (rows : List Row) → All IsPlain rows → strip_bom (lines_of rows) ≡ lines_of rows
        → rows_of (lines_of rows) ≡ rows }
{}

/// A text in memory can always be read: no read of it fails.
pub fn text_never_fails(rows: &RowReader<&[u8]>)
    ensures { device_failed (λ _. false) rows.now ≡ false }
{}
