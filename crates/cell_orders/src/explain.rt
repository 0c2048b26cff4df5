//! The command that says why a text is refused.
ghost use Rattle.std.specs.Prelude.{◌≡◌, IfOk};
ghost use Rattle.cell_output.specs.Watched.{bytes_held};
ghost use Rattle.cell_orders.specs.Explains.{Explains, ExplainsSettings, ExplainsText, text_of};

use crate::error::CommandError;
use crate::mistaken::wrong;
use crate::texts::{
    explain_faults_in, explain_input, explain_journal_in, explain_operator_in, settings_in,
    tell_too_long,
};
use cell_command::Explaining;
use cell_explain::explain_settings;
use cell_output::WatchedWriter;
use std::io::{Read, Write};
use std::rt::Files;

/// A text that is to be explained: a journal on the input, or what is in the file of a path.
#[derive(Clone, Copy, Debug)]
pub enum Text<'a> {
    Input,
    Journal(&'a str),
    Settings(&'a str),
    Faults(&'a str),
    Operator(&'a str),
}

// What is told where more than one text is named.
const ONE_ALONE: &str = "of FILE, --settings, --faults and --operator one alone can be given";

// The text that the words of the command line name, if they name one alone.
fn text_of<'a>(explaining: Explaining<'a>) -> Option<Text<'a>>
    ensures { result ≡ text_of explaining.entry.journal explaining.entry.settings explaining.entry.faults
        explaining.entry.operator }
{
    let Explaining {
        journal,
        settings,
        faults,
        operator,
    } = explaining;
    match (journal, settings, faults, operator) {
        (None, None, None, None) => Some(Text::Input),
        (Some(path), None, None, None) => Some(Text::Journal(path)),
        (None, Some(path), None, None) => Some(Text::Settings(path)),
        (None, None, Some(path), None) => Some(Text::Faults(path)),
        (None, None, None, Some(path)) => Some(Text::Operator(path)),
        _ => None,
    }
}

// Explains the settings in a file, or tells that they are too long.
fn explain_settings_in<'a, R: AllocGlobal + Files, W: Write>(
    rt: &R,
    path: &'a str,
    output: &mut WatchedWriter<'_, W>,
) -> Result<u8, CommandError<'a>>
    ensures { IfOk result (ExplainsSettings (bytes_held W.contents output.old)
        (bytes_held W.contents output.new)) }
{
    match settings_in(rt, path)? {
        Some(text) => Ok(explain_settings(rt.alloc(), text.as_slice(), output)?),
        None => Ok(tell_too_long(output)?),
    }
}

// Explains a text.
fn explain_text<'a, R: AllocGlobal + Files, I: Read + Drop, W: Write>(
    rt: &R,
    input: I,
    output: &mut WatchedWriter<'_, W>,
    text: Text<'a>,
) -> Result<u8, CommandError<'a>>
    ensures { IfOk result (ExplainsText text.entry (I.remaining input)
        (bytes_held W.contents output.old)
        (bytes_held W.contents output.new)) }
{
    match text {
        Text::Input => explain_input(rt.alloc(), input, output),
        Text::Journal(path) => explain_journal_in(rt, path, output),
        Text::Settings(path) => explain_settings_in(rt, path, output),
        Text::Faults(path) => explain_faults_in(rt, path, output),
        Text::Operator(path) => explain_operator_in(rt, path, output),
    }
}

/// Explains the text that the words of the command line name.
pub fn explain_words<'a, R: AllocGlobal + Files, I: Read + Drop, W: Write, E: Write>(
    rt: &R,
    input: I,
    output: &mut WatchedWriter<'_, W>,
    errors: &mut E,
    explaining: Explaining<'a>,
) -> Result<u8, CommandError<'a>>
    ensures { IfOk result (Explains explaining.entry (I.remaining input) (bytes_held W.contents output.old)
        (bytes_held W.contents output.new)
        (E.contents errors.old) (E.contents errors.new)) }
{
    match text_of(explaining) {
        Some(text) => explain_text(rt, input, output, text),
        None => Ok(wrong(errors, ONE_ALONE)?),
    }
}
