//! Runs in which a plate that was cleared before it was forged is laid back.
use crate::runs::rounds::check_case;
use std::test::Fail;

// A case is as in `rounds`. The first plate is cleared from the beginning of the feed belt, and the belt is repaired.
const RETURNS: [&str; 3] = [
    // The plate is expected. It is laid back, forged and delivered, and the next plates follow it.
    "plates = 1||admitted,1,stop,feed\nfailed,feed,clear,feed_in\nfailed,feed,repair,feed\nquarantined,1,expect,1\n\
    |0|finished\nadmitted 1\nforged 1\nquarantined 1\ndelivered 1\n|1",
    "plates = 3||admitted,1,stop,feed\nfailed,feed,clear,feed_in\nfailed,feed,repair,feed\nquarantined,1,expect,1\n\
    |0|finished\nadmitted 3\nforged 3\nquarantined 1\ndelivered 3\n|1",
    // It isn't expected, and stays in quarantine.
    "plates = 1||admitted,1,stop,feed\nfailed,feed,clear,feed_in\nfailed,feed,repair,feed\n\
    |0|finished\nadmitted 1\nforged 0\nquarantined 1\ndelivered 0\n|0",
];

#[test]
fn a_plate_that_is_expected_is_laid_back(rt: HostRuntime) -> Result<(), Fail> {
    for &case in &RETURNS {
        check_case(&rt, case)?;
    }
    Ok(())
}
