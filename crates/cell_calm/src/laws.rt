//! Laws of runs in which no machine is declared failed but some that may, and no stop is asked; of calm runs, in which
//! none may. Each function's contract is the law, and its body is empty.
ghost use Rattle.std.specs.Prelude.{◌≡◌, ◌≤◌, ◌*◌, ◌+◌, ℕ, Bool, false, true, List, [], length};
ghost use Rattle.cell_types.specs.declared.words.Entry.{Entry};
ghost use Rattle.cell_types.specs.declared.words.Machine.{Machine};
ghost use Rattle.cell_types.specs.After.{Snapshot, after, after_from, opening};
ghost use Rattle.cell_rules.specs.Views.{count_of};
ghost use Rattle.cell_rules.specs.declared.limits.BookLimits.{BookLimits};
ghost use Rattle.cell_ports.specs.declared.plan.Plan.{Plan};
ghost use Rattle.cell_turns.specs.declared.schedule.Step.{Step};
ghost use Rattle.cell_turns.specs.declared.six.Six.{Six};
ghost use Rattle.cell_turns.specs.Minds.{Mind};
ghost use Rattle.cell_turns.specs.Schedules.{Leads, now};
ghost use Rattle.cell_workers.specs.declared.ends.End.TheVariants as end;
ghost use Rattle.operator_desk.specs.declared.line.Line.{Line};
ghost use Rattle.cell_runs.specs.Rounds.{IsRun};
ghost use Rattle.cell_useful.specs.Moves.{is_finished};
ghost use Rattle.cell_progress.specs.Orders.{IsOnePress, IsPossible, cell_of};
ghost use Rattle.cell_progress.specs.Rank.{most_failures};
ghost use Rattle.cell_calm.specs.Calm.{HasRoom, HasRoomFor, HasRoomToFail, fails_only, is_calm, plain};
ghost use Rattle.cell_calm.specs.Failing.{FailingRunsDeliver, FailingRunsEnd, OnePressRunsEnd};
ghost use Rattle.cell_calm.specs.Failing.{WrittenFailingRunsDeliver, WrittenFailingRunsEnd};
ghost use Rattle.cell_calm.specs.Healthy.{AllForged, HealthyRunsFinish, NoneDeclared, WrittenRunsFinish};

/// The journal of a calm run, whatever the machines' turns and whatever the readings and the operator, is an order of
/// events in which nothing may fail and nobody serves: each entry is among those that can happen after the ones before
/// it. So all that holds of every order of events holds of it.
pub fn calm_runs_are_orders()
    ensures { (l : BookLimits) (p : Plan) (first minds : Six Mind) (steps : List Step) (refused failed : ℕ)
        (J : List Entry) → Leads l p (now [] first) steps refused failed (now J minds) → is_calm J ≡ true
        → IsPossible p.plates false (λ m. false) opening J }
{}

/// So it has at most 76 entries for each plate.
pub fn calm_runs_are_short()
    ensures { (l : BookLimits) (p : Plan) (first minds : Six Mind) (steps : List Step) (refused failed : ℕ)
        (J : List Entry) → Leads l p (now [] first) steps refused failed (now J minds) → is_calm J ≡ true
        → length J ≤ 76 * p.plates }
{}

/// Where the limits leave room for the plan, no turn of it is refused.
pub fn calm_turns_are_booked()
    ensures { (l : BookLimits) (p : Plan) (first minds : Six Mind) (steps : List Step) (refused failed : ℕ)
        (J : List Entry) → Leads l p (now [] first) steps refused failed (now J minds) → is_calm J ≡ true
        → HasRoom l p.plates → refused ≡ 0 }
{}

/// A calm run in rounds, where the limits leave room for the plan, never ends because the journal is full or the
/// plates' numbers have run out, and never comes to rest with plates left; where it ends finished, nothing more can
/// happen, and all plates of the plan are admitted, forged and delivered.
pub fn calm_runs_deliver_all()
    ensures never_full { (l : BookLimits) (p : Plan) (script : List Line) (J : List Entry)
        → IsRun l p script J end.Full → is_calm J ≡ true → HasRoom l p.plates → ⊥ }
    ensures never_stalled { (l : BookLimits) (p : Plan) (script : List Line) (J : List Entry)
        → IsRun l p script J end.Stalled → is_calm J ≡ true → HasRoom l p.plates → ⊥ }
    ensures finished { (l : BookLimits) (p : Plan) (script : List Line) (J : List Entry)
        → IsRun l p script J end.Finished → is_calm J ≡ true → HasRoom l p.plates
        → (is_finished p.plates false (cell_of (after J)) ≡ true) × AllForged p.plates J }
{}

/// Where only machines that may fail are declared failed, and nobody clears or repairs them, the journal is an order of
/// events too, whatever the readings and the causes: one in which these machines may fail, each once, and where each
/// failure is that of a command. What a journal leaves doesn't hang on the causes.
pub fn failing_runs_are_orders()
    ensures orders { (may : Machine → Bool) (l : BookLimits) (p : Plan) (first minds : Six Mind) (steps : List Step)
        (refused failed : ℕ) (J : List Entry) → Leads l p (now [] first) steps refused failed (now J minds)
        → fails_only may J ≡ true → IsPossible p.plates false may opening (plain J) }
    ensures left { (s : Snapshot) (J : List Entry) → after_from s (plain J) ≡ after_from s J }
{}

/// So it has at most 76 entries for each plate, and as many more as the machines that may fail can bring: ten for a
/// press.
pub fn failing_runs_are_short()
    ensures any { (may : Machine → Bool) (l : BookLimits) (p : Plan) (first minds : Six Mind) (steps : List Step)
        (refused failed : ℕ) (J : List Entry) → Leads l p (now [] first) steps refused failed (now J minds)
        → fails_only may J ≡ true → length J ≤ 76 * p.plates + most_failures may }
    ensures one_press { (may : Machine → Bool) (l : BookLimits) (p : Plan) (first minds : Six Mind) (steps : List Step)
        (refused failed : ℕ) (J : List Entry) → Leads l p (now [] first) steps refused failed (now J minds)
        → fails_only may J ≡ true → IsOnePress may → length J ≤ 76 * p.plates + 10 }
{}

/// Where the limits leave room for these too, no turn of it is refused.
pub fn failing_turns_are_booked()
    ensures any { (may : Machine → Bool) (l : BookLimits) (p : Plan) (first minds : Six Mind) (steps : List Step)
        (refused failed : ℕ) (J : List Entry) → Leads l p (now [] first) steps refused failed (now J minds)
        → fails_only may J ≡ true → HasRoomFor may l p.plates → refused ≡ 0 }
    ensures one_press { (may : Machine → Bool) (l : BookLimits) (p : Plan) (first minds : Six Mind) (steps : List Step)
        (refused failed : ℕ) (J : List Entry) → Leads l p (now [] first) steps refused failed (now J minds)
        → fails_only may J ≡ true → IsOnePress may → HasRoomToFail l p.plates → refused ≡ 0 }
{}

/// And a run in rounds in which one press may fail never ends because the journal is full or the plates' numbers have
/// run out. Where it comes to rest nothing more can happen: finished with all plates of the plan admitted, forged and
/// delivered, and stalled with all delivered but one.
pub fn failing_runs_deliver_all_but_one()
    ensures never_full { (may : Machine → Bool) (l : BookLimits) (p : Plan) (script : List Line) (J : List Entry)
        → IsRun l p script J end.Full → fails_only may J ≡ true → IsOnePress may → HasRoomToFail l p.plates → ⊥ }
    ensures stalled { (may : Machine → Bool) (l : BookLimits) (p : Plan) (script : List Line) (J : List Entry)
        → IsRun l p script J end.Stalled → fails_only may J ≡ true → IsOnePress may → HasRoomToFail l p.plates
        → (is_finished p.plates false (cell_of (after J)) ≡ true) × ((count_of J).delivered + 1 ≡ p.plates) }
    ensures finished { (may : Machine → Bool) (l : BookLimits) (p : Plan) (script : List Line) (J : List Entry)
        → IsRun l p script J end.Finished → fails_only may J ≡ true → IsOnePress may → HasRoomToFail l p.plates
        → (is_finished p.plates false (cell_of (after J)) ≡ true) × AllForged p.plates J }
{}

/// Calm are the runs of the simulated cell without a fault and without an operator, however they end, if the plan's
/// limits let each motion be as long as it is: no machine is declared failed.
pub fn none_is_declared()
    ensures { NoneDeclared }
{}

/// So where the limits have room, and the plan has rounds enough, such a run ends finished, with all plates admitted,
/// forged and delivered, unless memory was refused.
pub fn healthy_runs_finish()
    ensures { HealthyRunsFinish }
{}

/// And so does the run of which `run_texts` of `cell_runs` writes in rounds, for texts with no fault and no line of the
/// operator.
pub fn written_runs_finish()
    ensures { WrittenRunsFinish }
{}

/// A run of the simulated cell in which one press may fail, at any of its motions, by faults that last, ends finished
/// with all plates admitted, forged and delivered, or stalled with all delivered but one, unless its rounds run out or
/// memory is refused, if the limits have room and let each motion be as long as it is.
pub fn failing_runs_deliver()
    ensures { FailingRunsDeliver }
{}

/// The same of a run that `run_texts` writes, in rounds, if the operator's script is empty and the faults' names no
/// other machine.
pub fn written_failing_runs_deliver()
    ensures { WrittenFailingRunsDeliver }
{}

/// Whichever machines without a belt may fail by faults that last, a run of the simulated cell comes to rest before
/// its rounds run out, if the limits have room, the plan has rounds enough, and memory isn't refused. Where it is one
/// press, it ends finished with all plates delivered, or stalled with all delivered but one.
pub fn failing_runs_end()
    ensures any { FailingRunsEnd }
    ensures one_press { OnePressRunsEnd }
{}

/// The same, for one press, of a run that `run_texts` writes.
pub fn written_failing_runs_end()
    ensures { WrittenFailingRunsEnd }
{}
