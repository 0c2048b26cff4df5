//! What holds of runs on one thread. Each function's contract is the law, and its body is empty.
ghost use Rattle.cell_runs.specs.Followed.{FollowedAreSchedules};
ghost use Rattle.cell_runs.specs.Rounds.{RunsAreSchedules, RunsFromAreSchedules, RunsGoOn};

/// A run in rounds is a schedule: there are steps that lead from the empty journal to the run's.
pub fn runs_are_schedules()
    ensures { RunsAreSchedules }
{}

/// What is booked while a journal is followed is a schedule: there are steps that lead from the empty journal to it.
pub fn followed_are_schedules()
    ensures { FollowedAreSchedules }
{}

/// A run from a journal on is a schedule from there, and its journal begins with that one.
pub fn runs_go_on()
    ensures schedules { RunsFromAreSchedules }
    ensures begins { RunsGoOn }
{}
