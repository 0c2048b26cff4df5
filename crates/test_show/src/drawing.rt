//! The pictures as SVG.
use crate::states::{FAILED_PRESS, TWO_PLATES, drawn_after};
use cell_audit::AuditError;
use cell_show::Form;
use std::alloc::Global;
use std::process::Abort;

// The state after these records is drawn as an SVG file with these parts.
fn shows(
    rt: &impl Abort,
    alloc: Global,
    records: &[&str],
    answer: Option<AuditError>,
    parts: &[&str],
) {
    let file = drawn_after(rt, alloc, records, answer, Form::Picture);
    let picture = file.as_str();
    assert!(rt; picture.starts_with("<svg xmlns=\"http://www.w3.org/2000/svg\""));
    assert!(rt; picture.ends_with("</svg>\n"));
    for part in parts {
        assert!(rt; picture.find(*part).is_some(), "{part}");
    }
}

const WITH_TWO_PLATES: [&str; 4] = [
    "After 50 entries</text>",
    "feed belt: brings plate 2 to the table</text>",
    // The plate in the press is forged, and that on the table isn't.
    "fill=\"#f0b45c\" stroke=\"#000000\" stroke-width=\"1.5\"/>\n\
     <text x=\"400\" y=\"105\" font-size=\"14\" text-anchor=\"middle\">1*</text>",
    "fill=\"#ffffff\" stroke=\"#000000\" stroke-width=\"1.5\"/>\n\
     <text x=\"250\" y=\"255\" font-size=\"14\" text-anchor=\"middle\">2</text>",
];

const WITH_A_FAILED_PRESS: [&str; 5] = [
    "press 1 <tspan fill=\"#c00000\">FAILED</tspan></text>",
    "robot, stop asked</text>",
    "1 plate</text>",
    "plate 1</text>",
    "unreadable 15</text>",
];

#[test]
fn shows_two_plates_and_a_failed_press_with_an_answer(rt: HostRuntime) {
    shows(&rt, rt.alloc(), &TWO_PLATES, None, &WITH_TWO_PLATES);
    let answer = Some(AuditError::Unreadable(15));
    shows(&rt, rt.alloc(), &FAILED_PRESS, answer, &WITH_A_FAILED_PRESS);
}
