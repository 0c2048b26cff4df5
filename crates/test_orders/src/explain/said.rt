//! What is said of a text.
use cell_explain::{explain_faults, explain_journal, explain_operator, explain_settings};
use cell_output::WatchedWriter;
use std::process::Abort;

/// What a text is.
#[derive(Clone, Copy)]
pub(crate) enum Kind {
    Journal,
    Settings,
    Faults,
    Operator,
}

/// Checks what is said of something. What is wanted is the whole, or ends with `…`, and what follows isn't looked at.
pub(crate) fn check_said<W: AllocGlobal + Abort>(rt: &W, what: &str, said: &[u8], wanted: &str) {
    let is_said = match wanted.strip_suffix('…') {
        Some(start) => said.starts_with(start.as_bytes()),
        None => said == wanted.as_bytes(),
    };
    let said = String::from_utf8_lossy(rt.alloc(), said).expect(rt, "memory");
    assert!(rt; is_said, "of {what}: {said}, and not: {wanted}");
}

// Checks what is said of a text, and this status.
fn check_text<W: AllocGlobal + Abort>(rt: &W, kind: Kind, status: u8, text: &str, wanted: &str) {
    let alloc = rt.alloc();
    let mut written = Vec::new(alloc);
    let mut writer = WatchedWriter::new(&mut written);
    let bytes = text.as_bytes();
    let answer = match kind {
        Kind::Journal => explain_journal(alloc, bytes, &mut writer),
        Kind::Settings => explain_settings(alloc, bytes, &mut writer),
        Kind::Faults => explain_faults(alloc, bytes, &mut writer),
        Kind::Operator => explain_operator(alloc, bytes, &mut writer),
    };
    check_said(rt, text, written.as_slice(), wanted);
    assert!(rt; answer == Ok(status), "the status of {text}");
}

/// Checks of each of these texts what is said of it, and this status.
pub(crate) fn check_texts<W: AllocGlobal + Abort>(
    rt: &W,
    kind: Kind,
    status: u8,
    cases: &[(&str, &str)],
) {
    for (text, wanted) in cases {
        check_text(rt, kind, status, text, wanted);
    }
}
