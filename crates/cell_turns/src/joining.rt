//! What holds of schedules that run one after another. Each function's contract is the law, and its body is empty.
ghost use Rattle.cell_turns.specs.Joined.{LeadsJoin, ScheduledJoin};

/// Where steps lead from one state to a second and more steps from there to a third, all of them lead from the first to
/// the third.
pub fn steps_join()
    ensures { LeadsJoin }
{}

/// What two calls of `run_schedule`, one after the other, say of where their steps lead, one call with all the steps
/// says.
pub fn schedules_join()
    ensures { ScheduledJoin }
{}
