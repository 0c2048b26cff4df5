//! The command that shows the cell.
ghost use Rattle.std.specs.Prelude.{◌≡◌, ◌≢◌, ◌<◌, ◌≤◌, ◌^◌, ℕ, IfErr, IfOk, IfSome, List, Option, Some, true, ⊤};
ghost use Rattle.cell_rows.specs.Rows.{rows_of};
ghost use Rattle.cell_audit.specs.Migrated.{rows_in};
ghost use Rattle.cell_output.specs.Watched.{bytes_held};
ghost use Rattle.cell_show.specs.Shown.{AsksPast, HasEntry, ShownOf, TellsEntries, TellsStatus, start_of};
ghost use Rattle.cell_orders.specs.Commands.{IfTold};
ghost use Rattle.cell_orders.specs.Shows.{HasTimes, IsAlone, IsAsked, IsMixed, IsTimed, Plays, Shows, ShowsEntry};
ghost use Rattle.cell_orders.specs.Shows.{ShowsSome, ShowsStill, ShowsWindow, ShowsWords, form_of, takes_times};
ghost use Rattle.cell_orders.specs.Texts.{OfText};

use crate::error::CommandError;
use crate::failure::Failure;
use crate::mistaken::wrong;
use crate::texts::{ended_in, open_watched};
use crate::times::{durations_in, tell_times};
use crate::windows::windowed;
use cell_command::{Count, Escaped, Showing, read_count};
use cell_measures::Durations;
use cell_output::{WatchedWriter, WriteFault, status};
use cell_rows::TellsFault;
use cell_show::page::Window;
use cell_show::{Beside, Form, ShowError, show_beside, show_journal};
use std::alloc::Global;
use std::io;
use std::io::Write;
use std::rt::Files;

// What is shown of a journal: in which form, how many entries, or all where there is no count, and what beside it.
#[derive(Drop)]
struct Show<C, B> {
    form: Form,
    count: Option<C>,
    beside: Option<B>,
}

// The form that the flags ask for, if they ask for one alone.
fn form_of(showing: &Showing<'_>) -> Option<Form>
    ensures { result ≡ form_of showing.now.svg showing.now.html showing.now.unicode }
{
    match (showing.svg, showing.html, showing.unicode) {
        (false, false, false) => Some(Form::Text),
        (false, false, true) => Some(Form::Unicode),
        (true, false, false) => Some(Form::Picture),
        (false, true, false) => Some(Form::Page(Window::FIRST)),
        _ => None,
    }
}

// Shows so many entries of a journal's text, or all of them, beside those of another text where its reader is given.
fn show_with<I: TellsFault + Drop, O: TellsFault + Drop, W: Write>(
    alloc: Global,
    input: I,
    output: &mut W,
    form: Form,
    entry: Option<u32>,
    other: Option<Beside<'_, O>>,
) -> Result<u8, ShowError>
    ensures status { IfOk result (TellsStatus (rows_in (I.remaining input))) }
    ensures unread { IfOk result (λ status. 1 < status → output.new ≡ output.old) }
    ensures there { IfOk result (λ status. status ≤ 1
        → IfSome (rows_in (I.remaining input)) (HasEntry entry (start_of form))) }
    ensures past { IfErr result (AsksPast entry (start_of form)) }
    ensures entries { IfErr result (λ why. IfSome (rows_in (I.remaining input)) (TellsEntries why)) }
    ensures nothing { IfErr result (λ why. why ≢ ShowError.WriteFault → output.new ≡ output.old) }
    ensures some { (text : List ℕ) × ShownOf (rows_of text) entry (start_of form) (λ _. ⊤) result }
{
    match other {
        None => show_journal(alloc, input, form, entry, output),
        Some(beside) => show_beside(alloc, input, beside, form, entry, output),
    }
}

// Shows so many entries of a journal's text, or all of them. An entry that isn't there, or a picture of too many, is
// told among the errors.
fn show_entries<'a, I: TellsFault + Drop, O: TellsFault + Drop, W: Write, E: Write>(
    alloc: Global,
    input: I,
    output: &mut W,
    errors: &mut E,
    show: Show<u32, Beside<'_, O>>,
) -> Result<u8, CommandError<'a>>
    ensures shown { IfOk result (Shows show.entry.count (start_of show.entry.form) (I.remaining input)
        (W.contents output.old) (W.contents output.new) (E.contents errors.old) (E.contents errors.new)) }
    ensures some { IfOk result (ShowsSome show.entry.count (start_of show.entry.form) (W.contents output.old)
        (W.contents output.new) (E.contents errors.old) (E.contents errors.new)) }
{
    match show_with(alloc, input, output, show.form, show.count, show.beside) {
        Ok(status) => Ok(status),
        Err(ShowError::WriteFault) => Err(CommandError::Write(WriteFault)),
        Err(error) => {
            writeln!(errors, "error: {error}")?;
            Ok(status::WRONG_ARGUMENTS)
        }
    }
}

// Tells among the errors that a journal's text hasn't so many entries as no journal has. Nothing is shown.
fn show_beyond<'a, I: TellsFault + Drop, E: Write>(
    alloc: Global,
    input: I,
    errors: &mut E,
    form: Form,
) -> Result<u8, CommandError<'a>>
    ensures shown { (n : ℕ) (old : Option (List ℕ)) → 2 ^ 32 ≤ n
        → IfOk result (Shows (Some n) (start_of form) (I.remaining input) old old (E.contents errors.old)
        (E.contents errors.new)) }
    ensures some { (n : ℕ) (old : Option (List ℕ)) → 2 ^ 32 ≤ n
        → IfOk result (ShowsSome (Some n) (start_of form) old old (E.contents errors.old) (E.contents errors.new)) }
{
    let error = match show_journal(alloc, input, form, Some(u32::MAX), &mut io::sink()) {
        Ok(status) if status > status::REFUSED => return Ok(status),
        // More entries than a picture shows.
        Ok(_) => ShowError::TooManyEntries,
        Err(ShowError::WriteFault) => return Err(CommandError::Write(WriteFault)),
        Err(error) => error,
    };
    writeln!(errors, "error: {error}")?;
    Ok(status::WRONG_ARGUMENTS)
}

// Shows so many entries of a journal's text, or all of them where there is no count.
fn show_count<'a, I: TellsFault + Drop, O: TellsFault + Drop, W: Write, E: Write>(
    alloc: Global,
    input: I,
    output: &mut W,
    errors: &mut E,
    show: Show<Count, Beside<'_, O>>,
) -> Result<u8, CommandError<'a>>
    ensures shown { (entry : Option ℕ) → IsAsked show.entry.count entry
        → IfOk result (Shows entry (start_of show.entry.form) (I.remaining input) (W.contents output.old)
        (W.contents output.new) (E.contents errors.old) (E.contents errors.new)) }
    ensures some { (entry : Option ℕ) → IsAsked show.entry.count entry
        → IfOk result (ShowsSome entry (start_of show.entry.form) (W.contents output.old) (W.contents output.new)
        (E.contents errors.old) (E.contents errors.new)) }
{
    let Show {
        form,
        count,
        beside,
    } = show;
    match count {
        None => {
            let all = Show {
                form,
                count: None,
                beside,
            };
            show_entries(alloc, input, output, errors, all)
        }
        Some(Count::Number(entry)) => {
            let first = Show {
                form,
                count: Some(entry),
                beside,
            };
            show_entries(alloc, input, output, errors, first)
        }
        Some(Count::Beyond) => show_beyond(alloc, input, errors, form),
    }
}

// Shows so many entries of the journal in a file, which is read once.
fn show_in<'a, R: AllocGlobal + Files, O: TellsFault + Drop, W: Write, E: Write>(
    rt: &R,
    path: &'a str,
    output: &mut W,
    errors: &mut E,
    show: Show<Count, Beside<'_, O>>,
) -> Result<u8, CommandError<'a>>
    ensures { (entry : Option ℕ) → IsAsked show.entry.count entry
        → IfOk result (ShowsSome entry (start_of show.entry.form) (W.contents output.old) (W.contents output.new)
        (E.contents errors.old) (E.contents errors.new)) }
{
    let mut reader = open_watched(rt, path)?;
    let shown = show_count(rt.alloc(), &mut reader, output, errors, show);
    ended_in(path, shown, reader.error())
}

// Shows so many entries of the journal in a file, or of that on the input where no file is named, beside that of
// another reader where there is one.
fn show_text<
    'a,
    R: AllocGlobal + Files,
    I: TellsFault + Drop,
    O: TellsFault + Drop,
    W: Write,
    E: Write,
>(
    rt: &R,
    input: I,
    output: &mut W,
    errors: &mut E,
    file: Option<&'a str>,
    show: Show<Count, Beside<'_, O>>,
) -> Result<u8, CommandError<'a>>
    ensures { (entry : Option ℕ) → IsAsked show.entry.count entry
        → IfOk result (λ status. OfText file.entry (I.remaining input)
        (λ text. Shows entry (start_of show.entry.form) text (W.contents output.old) (W.contents output.new)
        (E.contents errors.old) (E.contents errors.new) status)) }
{
    match file {
        None => show_count(rt.alloc(), input, output, errors, show),
        Some(path) => show_in(rt, path, output, errors, show),
    }
}

// What comes of a journal that is shown beside that in another file, unless a read of that one failed.
fn unless_beside_failed<'a>(
    path: &'a str,
    shown: Result<u8, CommandError<'a>>,
    noted: Option<io::Error>,
) -> Result<u8, CommandError<'a>>
    ensures { IfTold result (λ _. result ≡ shown.entry) }
{
    match noted {
        Some(error) if !matches!(shown, Err(CommandError::System(_))) => {
            Err(CommandError::at(path, error))
        }
        _ => shown,
    }
}

// Shows so many entries of a journal, beside that in another file where such a one is named.
fn show_files<'a, R: AllocGlobal + Files, I: TellsFault + Drop, W: Write, E: Write>(
    rt: &R,
    input: I,
    output: &mut W,
    errors: &mut E,
    file: Option<&'a str>,
    show: Show<Count, &'a str>,
) -> Result<u8, CommandError<'a>>
    ensures { (entry : Option ℕ) → IsAsked show.entry.count entry
        → IfOk result (λ status. OfText file.entry (I.remaining input)
        (λ text. Shows entry (start_of show.entry.form) text (W.contents output.old) (W.contents output.new)
        (E.contents errors.old) (E.contents errors.new) status)) }
{
    let Show {
        form,
        count,
        beside,
    } = show;
    let Some(path) = beside else {
        let alone: Show<Count, Beside<'_, &[u8]>> = Show {
            form,
            count,
            beside: None,
        };
        return show_text(rt, input, output, errors, file, alone);
    };
    let mut other = open_watched(rt, path)?;
    let both = Show {
        form,
        count,
        beside: Some(Beside {
            reader: &mut other,
            name: path,
            first_name: file.unwrap_or("standard input"),
        }),
    };
    let shown = show_text(rt, input, output, errors, file, both);
    unless_beside_failed(path, shown, other.error())
}

// The form that is shown, and whether durations go with it.
enum Timed {
    Form(Form),
    // The durations are refused, as this line tells.
    Refused(String),
    // There is neither a picture nor a page for them.
    Loose,
}

// Whether durations go with a form: with a picture, which is then a chart, and with a page, which has one.
fn takes_times(form: &Form) -> bool
    ensures { result ≡ takes_times form.now }
{
    matches!(form, Form::Picture | Form::Page(_))
}

// A form with durations, where they go with it.
fn with_times(form: Form, durations: Durations) -> Form
    requires { takes_times form ≡ true }
    ensures { HasTimes form result }
{
    match form {
        Form::Page(window) => Form::TimedPage(durations, window),
        _ => Form::Chart(durations),
    }
}

// The form with the durations of a file, where one is named.
fn timed_form<'a, R: AllocGlobal + Files>(
    rt: &R,
    form: Form,
    times: Option<&'a str>,
) -> Result<Timed, Failure<'a>>
    ensures { IfOk result (λ timed. IsTimed times.entry form timed) }
{
    if times.is_none() {
        return Ok(Timed::Form(form));
    }
    if !takes_times(&form) {
        return Ok(Timed::Loose);
    }
    match durations_in(rt, times)? {
        Ok(durations) => Ok(Timed::Form(with_times(form, durations))),
        Err(line) => Ok(Timed::Refused(line)),
    }
}

// Shows as many entries as a word says, or all of them where there is none.
fn show_entry<'a, R: AllocGlobal + Files, I: TellsFault + Drop, W: Write, E: Write>(
    rt: &R,
    input: I,
    output: &mut W,
    errors: &mut E,
    form: Form,
    showing: Showing<'a>,
) -> Result<u8, CommandError<'a>>
    ensures { IfOk result (ShowsEntry showing.entry (start_of form) (I.remaining input) (W.contents output.old)
        (W.contents output.new) (E.contents errors.old) (E.contents errors.new)) }
{
    let Some(word) = showing.entry else {
        let all = Show {
            form,
            count: None,
            beside: showing.beside,
        };
        return show_files(rt, input, output, errors, showing.file, all);
    };
    let Some(count) = read_count(word) else {
        let word = Escaped(word);
        writeln!(errors, "error: ENTRY is a whole number, and not '{word}'")?;
        return Ok(status::WRONG_ARGUMENTS);
    };
    let first = Show {
        form,
        count: Some(count),
        beside: showing.beside,
    };
    show_files(rt, input, output, errors, showing.file, first)
}

// Whether another journal is to be shown beside, and no page is asked for.
fn is_alone(beside: Option<&str>, form: Form) -> bool
    ensures { result ≡ true → IsAlone beside.entry (Some form) }
{
    match form {
        Form::Page(_) | Form::TimedPage(..) => false,
        Form::Text | Form::Unicode | Form::Picture | Form::Chart(_) | Form::Moving => {
            beside.is_some()
        }
    }
}

// Shows a journal in a form, of a page with the states that the words ask for.
fn show_windowed<'a, R: AllocGlobal + Files, I: TellsFault + Drop, W: Write, E: Write>(
    rt: &R,
    input: I,
    output: &mut W,
    errors: &mut E,
    form: Form,
    showing: Showing<'a>,
) -> Result<u8, CommandError<'a>>
    ensures { IfOk result (ShowsWindow showing.entry form (I.remaining input) (W.contents output.old)
        (W.contents output.new) (E.contents errors.old) (E.contents errors.new)) }
{
    match windowed(form, showing.from, showing.count) {
        Ok(form) => show_entry(rt, input, output, errors, form, showing),
        Err(why) => Ok(wrong(errors, why)?),
    }
}

// Shows a journal that doesn't play, as the words of the command line ask.
fn show_still<'a, R: AllocGlobal + Files, I: TellsFault + Drop, W: Write, E: Write>(
    rt: &R,
    input: I,
    output: &mut WatchedWriter<'_, W>,
    errors: &mut E,
    showing: Showing<'a>,
) -> Result<u8, CommandError<'a>>
    ensures { IfOk result (ShowsStill showing.entry (I.remaining input) (bytes_held W.contents output.old)
        (bytes_held W.contents output.new) (E.contents errors.old) (E.contents errors.new)) }
{
    let Some(form) = form_of(&showing) else {
        return Ok(wrong(
            errors,
            "of --svg, --html and --unicode one alone can be given",
        )?);
    };
    if is_alone(showing.beside, form) {
        return Ok(wrong(errors, "--beside goes with --html")?);
    }
    match timed_form(rt, form, showing.times)? {
        Timed::Form(form) => show_windowed(rt, input, output, errors, form, showing),
        Timed::Refused(line) => Ok(tell_times(output, line.as_str())?),
        Timed::Loose => Ok(wrong(errors, "--times goes with --svg or --html")?),
    }
}

// Whether something is asked for that doesn't go with a journal that plays: no picture, or not it alone, or another
// option.
fn is_mixed(
    form: Option<Form>,
    times: Option<&str>,
    beside: Option<&str>,
    file: Option<&str>,
    from: Option<&str>,
    count: Option<&str>,
) -> bool
    ensures { result ≡ true → IsMixed form times.entry beside.entry file.entry from.entry count.entry }
{
    match form {
        Some(Form::Picture) => {
            times.is_some()
                || beside.is_some()
                || file.is_some()
                || from.is_some()
                || count.is_some()
        }
        _ => true,
    }
}

// Shows the journal in a file as it plays, as the words of the command line ask.
fn show_moving<'a, R: AllocGlobal + Files, I: TellsFault + Drop, W: Write, E: Write>(
    rt: &R,
    input: I,
    output: &mut WatchedWriter<'_, W>,
    errors: &mut E,
    showing: Showing<'a>,
    path: &'a str,
) -> Result<u8, CommandError<'a>>
    ensures { IfOk result (Plays path.entry showing.entry (I.remaining input) (bytes_held W.contents output.old)
        (bytes_held W.contents output.new) (E.contents errors.old) (E.contents errors.new)) }
{
    let form = form_of(&showing);
    if is_mixed(
        form,
        showing.times,
        showing.beside,
        showing.file,
        showing.from,
        showing.count,
    ) {
        return Ok(wrong(errors, "--animate goes with --svg alone")?);
    }
    let played = Showing {
        file: Some(path),
        ..showing
    };
    show_entry(rt, input, output, errors, Form::Moving, played)
}

/// Shows a journal, as the words of the command line ask.
pub fn show_words<'a, R: AllocGlobal + Files, I: TellsFault + Drop, W: Write, E: Write>(
    rt: &R,
    input: I,
    output: &mut WatchedWriter<'_, W>,
    errors: &mut E,
    showing: Showing<'a>,
) -> Result<u8, CommandError<'a>>
    ensures { IfOk result (ShowsWords showing.entry (I.remaining input) (bytes_held W.contents output.old)
        (bytes_held W.contents output.new) (E.contents errors.old) (E.contents errors.new)) }
{
    match showing.animate {
        None => show_still(rt, input, output, errors, showing),
        Some(path) => show_moving(rt, input, output, errors, showing, path),
    }
}
