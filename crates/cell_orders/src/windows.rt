//! Which states of a journal a page shows, by the words of the command line.
ghost use Rattle.std.specs.Prelude.{◌≡◌, IfErr, IfNone, IfOk, IfSome};
ghost use Rattle.cell_show.specs.Shown.{start_of};
ghost use Rattle.cell_orders.specs.Windows.{AsksNoWindow, AsksWindow, BeginsAfter, HasNoWindow, HasWindow, IsNoCount};
ghost use Rattle.cell_orders.specs.Windows.{IsNoNumber, ShowsUpTo};

use crate::numbers::number_in;
use cell_command::{Count, read_count};
use cell_show::Form;
use cell_show::page::{MAX_PAGE_ENTRIES, Window};

// After how many entries a page begins: as many as a word says, or none where there is no word. No journal has as many
// as the greatest number, which stands for those beyond.
fn start_in(word: Option<&str>) -> Option<u32>
    ensures known { IfSome result (BeginsAfter word.entry) }
    ensures wrong { IfNone result (IsNoNumber word.entry) }
{
    let Some(word) = word else {
        return Some(0);
    };
    match read_count(word)? {
        Count::Number(number) => Some(number),
        Count::Beyond => Some(u32::MAX),
    }
}

// How many entries a page shows: as many as a word says, or as many as it can where there is no word.
fn count_in(word: Option<&str>) -> Option<u32>
    ensures known { IfSome result (ShowsUpTo word.entry) }
    ensures wrong { IfNone result (IsNoCount word.entry) }
{
    match word {
        Some(word) => number_in(word, 0, MAX_PAGE_ENTRIES),
        None => Some(MAX_PAGE_ENTRIES),
    }
}

// Which states the words ask for, or why they are wrong.
fn window_in(from: Option<&str>, count: Option<&str>) -> Result<Window, &'static str>
    ensures known { IfOk result (AsksWindow from.entry count.entry) }
    ensures wrong { IfErr result (λ _. AsksNoWindow from.entry count.entry) }
{
    let Some(from) = start_in(from) else {
        return Err("--from is a whole number");
    };
    let Some(count) = count_in(count) else {
        return Err("--count is a whole number from 0 to 20000");
    };
    Ok(Window { from, count })
}

/// The form with the states that the words ask for, or why they are wrong. They go with a page alone.
pub(crate) fn windowed(
    form: Form,
    from: Option<&str>,
    count: Option<&str>,
) -> Result<Form, &'static str>
    ensures known { IfOk result (HasWindow from.entry count.entry form) }
    ensures start { IfOk result (λ shown. BeginsAfter from.entry (start_of shown)) }
    ensures wrong { IfErr result (λ _. HasNoWindow from.entry count.entry form) }
{
    let is_given = from.is_some() || count.is_some();
    let window = match window_in(from, count) {
        Ok(window) => window,
        Err(why) => return Err(why),
    };
    match form {
        Form::Page(_) => Ok(Form::Page(window)),
        Form::TimedPage(durations, _) => Ok(Form::TimedPage(durations, window)),
        _ if is_given => Err("--from and --count go with --html"),
        _ => Ok(form),
    }
}
