//! Runs with faults and stops, and what they come to.
use crate::runs::rounds::check_case;
use std::test::Fail;

// A case is as in `rounds`.

const FAULTS: [&str; 3] = [
    // Five plates are carried through the cell.
    "plates = 5|||0|finished\nadmitted 5\nforged 5\nquarantined 0\ndelivered 5\n|0",
    // The cell goes on where a failed press is cleared.
    "plates = 6|press_two,1,no_motion,\n|failed,press2,clear,press2\nfailed,press2,repair,press2\n\
    |0|finished\nadmitted 6\nforged 5\nquarantined 1\ndelivered 5\n|0",
    // The other press forges on where a press fails.
    "plates = 6|press_two,1,no_motion,\n||1|stalled\nadmitted 6\nforged 5\nquarantined 0\ndelivered 5\n|0",
];

const STOPS: [&str; 3] = [
    // The cell goes on where a press is stopped.
    "plates = 5||always,,stop,press1\n|0|finished\nadmitted 5\nforged 5\nquarantined 0\ndelivered 5\n|0",
    // It stalls where both presses are stopped, or the deposit belt.
    "plates = 5||always,,stop,press1\nalways,,stop,press2\n\
    |1|stalled\nadmitted 3\nforged 0\nquarantined 0\ndelivered 0\n|0",
    "plates = 5||always,,stop,deposit\n|1|stalled\nadmitted 5\nforged 3\nquarantined 0\ndelivered 0\n|0",
];

const LIMITS: [&str; 2] = [
    // A full journal ends the run, and so do its turns.
    "plates = 5\njournal_limit = 10|||1|full\nadmitted 1\nforged 0\nquarantined 0\ndelivered 0\n|0",
    "plates = 5\nturns = 1|||1|turn limit\nadmitted 0\nforged 0\nquarantined 0\ndelivered 0\n|0",
];

#[test]
fn runs_end_as_their_faults_stops_and_limits_say(rt: HostRuntime) -> Result<(), Fail> {
    for &cases in &[FAULTS.as_slice(), STOPS.as_slice(), LIMITS.as_slice()] {
        for case in cases {
            check_case(&rt, case)?;
        }
    }
    Ok(())
}
