//! Scripts of faults, read or refused.
use crate::same::check_same;
use cell_sim::{FaultError, FaultScript};
use std::alloc::Global;
use std::process::Abort;
use std::test::Fail;

const FIRST: Option<FaultError> = Some(FaultError::Unreadable(1));

const SECOND: Option<FaultError> = Some(FaultError::Unreadable(2));

const TOO_MANY: Option<FaultError> = Some(FaultError::TooManyLines);

// A case: how many records there are for the second press's first motions, one for each; what follows them; and how the
// text is refused, if it is.
const CASES: [(usize, &[u8], Option<FaultError>); 29] = [
    // The words of faults.
    (0, b"", None),
    (0, b"press_two,1,no_motion,\n", None),
    (0, b"feed_belt,1000000,keeps_old,", None),
    (
        0,
        b"table_lift,1,both,\ntable_lift,2,both,\ntable_turn,1,both,\n",
        None,
    ),
    (0, b"arm_one,10,slow,1\narm_two,10,slow,1000\n", None),
    (
        0,
        b"robot_turn,1,silent,3\npress_one,1,lose_plate,\ndeposit_belt,1,refuse_command,\n",
        None,
    ),
    (0, b"press_two,0,no_motion,\n", FIRST),
    (0, b"press_two,1,slow,0\n", FIRST),
    (0, b"press_two,1,slow,1001\n", FIRST),
    (0, b"press_two,1,slow,\n", FIRST),
    (0, b"press_two,1,silent,01\n", FIRST),
    (0, b"press_two,1,both,1\n", FIRST),
    (0, b"press_two,01,both,\n", FIRST),
    (0, b"press_two,+1,both,\n", FIRST),
    (0, b"press_two,1000001,both,\n", FIRST),
    (0, b"press_two,10000000000000,both,\n", FIRST),
    (0, b"press2,1,both,\n", FIRST),
    (0, b"press_two,1,broken,\n", FIRST),
    (0, b"press_two,1,both\n", FIRST),
    (0, b"press_two,1,both,,\n", FIRST),
    (0, b"\xff", FIRST),
    // One fault for a motion.
    (0, b"press_two,1,both,\npress_two,1,both,\n", SECOND),
    (0, b"press_two,1,both,\npress_two,1,slow,3\n", SECOND),
    (0, b"press_two,1,both,\nbrew,1,both,\n", SECOND),
    (
        0,
        b"press_two,1,both,\npress_two,2,both,\npress_one,1,both,\npress_two,2,both,\n",
        Some(FaultError::Unreadable(4)),
    ),
    // A thousand records.
    (1000, b"", None),
    (1001, b"", TOO_MANY),
    (1000, b"brew,,,\n", TOO_MANY),
    (
        999,
        b"press_two,1,both,\n",
        Some(FaultError::Unreadable(1000)),
    ),
];

// The text of a case.
fn text_of(alloc: Global, count: usize, last: &[u8]) -> Result<Vec<u8>, Fail> {
    let mut text = Vec::new(alloc);
    for place in 0..count {
        let motion = place as u64 + 1;
        let line = format!(in alloc; "press_two,{motion},both,\n")?;
        text.extend_from_slice(line.as_str().as_bytes())?;
    }
    text.extend_from_slice(last)?;
    Ok(text)
}

// A case is read, or refused, as is wanted.
fn check_case(
    rt: &impl Abort,
    alloc: Global,
    case: (usize, &[u8], Option<FaultError>),
) -> Result<(), Fail> {
    let (count, last, wanted) = case;
    let text = text_of(alloc, count, last)?;
    let refusal = FaultScript::read(alloc, text.as_slice()).err();
    let shown = String::from_utf8_lossy(alloc, last)?;
    check_same(rt, &(count, shown.as_str()), &refusal, &wanted);
    Ok(())
}

#[test]
fn a_script_is_read_or_refused(rt: HostRuntime) -> Result<(), Fail> {
    for &case in &CASES {
        check_case(&rt, rt.alloc(), case)?;
    }
    Ok(())
}
