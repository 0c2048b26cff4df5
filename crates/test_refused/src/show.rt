//! Journals that are shown.
use crate::sample::{PLAIN, PROFILE_1, QUOTED, clearing};
use cell_measures::Durations;
use cell_show::page::Window;
use cell_show::{Beside, Form, ShowError, show_beside, show_journal};
use std::alloc::Global;
use std::process::Abort;
use std::test::Fail;
use test_samples::{call_begins, call_ends};

// Room for all that is drawn, so that the writer asks for no memory.
const ROOM: usize = 1_000_000;

// What is written where a journal is shown, and the answer. Where the call is marked, memory may be refused to it.
fn show(alloc: Global, form: Form, marked: bool) -> Result<(Vec<u8>, Result<u8, ShowError>), Fail> {
    let text = clearing(alloc, PROFILE_1, QUOTED)?;
    let mut written = Vec::with_capacity(alloc, ROOM)?;
    if marked {
        call_begins(alloc);
    }
    let answer = show_journal(alloc, text.as_slice(), form, None, &mut written);
    if marked {
        call_ends(alloc, answer == Ok(4));
    }
    Ok((written, answer))
}

// A journal is shown, or nothing is written, where memory was refused.
fn check_show<R: AllocGlobal + Abort>(rt: &R, form: Form) -> Result<(), Fail> {
    let (due, status) = show(rt.alloc(), form, false)?;
    assert!(rt; status == Ok(0));
    let (written, answer) = show(rt.alloc(), form, true)?;
    if answer == Ok(4) {
        assert!(rt; written.is_empty());
    } else {
        assert!(rt; answer == Ok(0) && written.as_slice() == due.as_slice());
    }
    Ok(())
}

#[test]
fn show_journal_as_text(rt: HostRuntime) -> Result<(), Fail> {
    check_show(&rt, Form::Text)
}

#[test]
fn show_journal_as_picture(rt: HostRuntime) -> Result<(), Fail> {
    check_show(&rt, Form::Picture)
}

#[test]
fn show_journal_as_page(rt: HostRuntime) -> Result<(), Fail> {
    check_show(&rt, Form::Page(Window::FIRST))
}

#[test]
fn show_journal_as_chart(rt: HostRuntime) -> Result<(), Fail> {
    check_show(&rt, Form::Chart(Durations::ONE))
}

#[test]
fn show_journal_as_it_plays(rt: HostRuntime) -> Result<(), Fail> {
    check_show(&rt, Form::Moving)
}

#[test]
fn show_journal_as_page_with_chart(rt: HostRuntime) -> Result<(), Fail> {
    check_show(&rt, Form::TimedPage(Durations::ONE, Window::FIRST))
}

// What is written where a journal is shown beside another text, and the answer. Where the call is marked, memory may be
// refused to it.
fn beside(alloc: Global, marked: bool) -> Result<(Vec<u8>, Result<u8, ShowError>), Fail> {
    let text = clearing(alloc, PROFILE_1, QUOTED)?;
    let other = clearing(alloc, PROFILE_1, PLAIN)?;
    let mut written = Vec::with_capacity(alloc, ROOM)?;
    if marked {
        call_begins(alloc);
    }
    let answer = show_beside(
        alloc,
        text.as_slice(),
        Beside {
            reader: other.as_slice(),
            name: "other",
            first_name: "first",
        },
        Form::Page(Window::FIRST),
        None,
        &mut written,
    );
    if marked {
        call_ends(alloc, answer == Ok(4));
    }
    Ok((written, answer))
}

#[test]
fn show_journal_beside_another(rt: HostRuntime) -> Result<(), Fail> {
    let (due, status) = beside(rt.alloc(), false)?;
    assert!(rt; status == Ok(0));
    let (written, answer) = beside(rt.alloc(), true)?;
    if answer == Ok(4) {
        assert!(rt; written.is_empty());
    } else {
        assert!(rt; answer == Ok(0) && written.as_slice() == due.as_slice());
    }
    Ok(())
}
