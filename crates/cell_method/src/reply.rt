//! The answer to a line of a method.
ghost use Rattle.std.specs.Prelude.{◌≡◌, ◌≢◌, IfErr, OnOk};
ghost use Rattle.std.specs.Io.KnownBytes.{Appends};
ghost use Rattle.cell_method.specs.Replies.{line_of, word_or_blank};

use crate::error::DriveError;
use line_writer::write_line;
use plate_book::Refusal;
use std::fmt;
use std::io::Write;

/// The answer to a line of a method.
#[derive(Clone, Copy, Debug, PartialEq, Eq)]
pub enum Reply {
    /// The entry was booked under this number, and its command, if it has one, was sent.
    Booked(u32),
    /// The entry was booked under this number, and its command failed.
    Failed(u32),
    /// The book refuses the entry.
    Refused(Refusal),
    /// The line is no record of a machine's entry.
    Unreadable,
}

// The word of what a refusal names, or nothing.
fn word_or_blank(why: Refusal) -> &'static str
    ensures { result.now ≡ word_or_blank why }
{
    match why.word() {
        Some(word) => word,
        None => "",
    }
}

/// The answer as its line.
impl fmt::Display for Reply {
    ghost use Rattle.std.specs.Prelude.{Some};

    ghost output = { λ reply. Some (line_of reply) };

    fn fmt<W: fmt::Write>(&self, f: &mut fmt::Formatter<W>) -> fmt::Result {
        match self {
            Reply::Booked(number) => write!(f, "ok,{number},,\n"),
            Reply::Failed(number) => write!(f, "failed,{number},,\n"),
            Reply::Refused(why) => write!(f, "refused,{},{},\n", why.name(), word_or_blank(*why)),
            Reply::Unreadable => write!(f, "unreadable,,,\n"),
        }
    }
}

/// Writes an answer, and flushes the writer.
pub(crate) fn tell<W: Write>(writer: &mut W, reply: Reply) -> Result<(), DriveError>
    ensures told { OnOk result (Appends (W.contents writer.old) (W.contents writer.new) (line_of reply)) }
    ensures memory { IfErr result (λ e. e ≢ DriveError.OutOfMemory) }
{
    write_line(writer, reply)?;
    writer.flush()?;
    Ok(())
}
