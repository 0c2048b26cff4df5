//! Laws of every order of events: of entries each of which can happen in what those before it leave. Each function's
//! contract is the law, and its body is empty.
ghost use Rattle.std.specs.Prelude.{◌≡◌, ◌≤◌, ◌<◌, ◌+◌, ◌*◌, ℕ, Bool, false, true, List, length};
ghost use Rattle.std.specs.List.{Contains};
ghost use Rattle.cell_types.specs.declared.words.Machine.{Machine};
ghost use Rattle.cell_types.specs.declared.words.Entry.{Entry};
ghost use Rattle.cell_types.specs.After.{opening, after, step};
ghost use Rattle.cell_rules.specs.Legal.{legal};
ghost use Rattle.cell_rules.specs.declared.limits.BookLimits.{BookLimits};
ghost use Rattle.cell_useful.specs.Cells.{may_of};
ghost use Rattle.cell_useful.specs.Moves.{entries_of, is_finished, is_stuck};
ghost use Rattle.cell_useful.specs.Told.{IsPossible as IsPossibleAs, cell_seen, opening_of, told_after};
ghost use Rattle.cell_progress.specs.Due.{AreDue, AreDueSeen};
ghost use Rattle.cell_progress.specs.Orders.{EndsWhole, GoesOn, IsOnePress, IsPossible, cell_of, may_after, may_then};
ghost use Rattle.cell_progress.specs.Rank.{most_failures, rank};

/// Nothing is ever stuck, whatever the plan, where nothing may fail but one press, which may do so at any moment and
/// is never repaired: while plates are left that aren't in a failed machine, something can happen that is no failure.
#[tactic(auto, using(crate::proofs::Onward::stuck_never))]
pub fn never_stuck()
    ensures { (plan : ℕ) (may : Machine → Bool) (es : List Entry) → plan ≤ 100000 → IsOnePress may
        → IsPossible plan false may opening es → is_stuck plan false (cell_of (after es)) ≡ false }
{}

/// The rank falls with every entry that can happen, a failure too, and with every clearing and repair of an operator
/// who serves; any machines may fail.
#[tactic(auto, using(crate::proofs::Shortest::rank_law))]
pub fn rank_falls()
    ensures { (plan : ℕ) (serves : Bool) (may : Machine → Bool) (es : List Entry) (e : Entry)
        → IsPossible plan serves may opening es
        → Contains (entries_of plan serves (may_then es may) (cell_of (after es))) e
        → rank plan (may_after e (may_then es may)) (cell_of (step e (after es)))
        < rank plan (may_then es may) (cell_of (after es)) }
{}

/// So no order of events goes on for ever: it has at most 76 entries for each plate and as many more as the machines
/// that may fail weigh, which is ten for one press.
#[tactic(auto, using(crate::proofs::Shortest::short_law, crate::proofs::Shortest::short))]
pub fn orders_are_short()
    ensures one_press { (plan : ℕ) (serves : Bool) (may : Machine → Bool) (es : List Entry) → plan ≤ 100000
        → IsOnePress may → IsPossible plan serves may opening es → length es ≤ 76 * plan + 10 }
    ensures any { (plan : ℕ) (serves : Bool) (may : Machine → Bool) (es : List Entry) → plan ≤ 100000
        → IsPossible plan serves may opening es → length es ≤ 76 * plan + most_failures may }
{}

/// If nothing may fail, there are at most 76 for each plate.
#[tactic(auto, using(crate::proofs::Shortest::calm_law))]
pub fn calm_orders_are_shorter()
    ensures { (plan : ℕ) (serves : Bool) (may : Machine → Bool) (es : List Entry) → plan ≤ 100000
        → ((m : Machine) → may m ≡ false) → IsPossible plan serves may opening es → length es ≤ 76 * plan }
{}

/// From every state that can be reached some entries, none of them a failure, lead on to the end: all plates admitted,
/// and none left in a healthy machine.
#[tactic(auto, using(crate::proofs::Onward::goes_on))]
pub fn forging_goes_on()
    ensures { (plan : ℕ) (may : Machine → Bool) (es : List Entry) → plan ≤ 100000 → IsOnePress may
        → IsPossible plan false may opening es → GoesOn plan false (may_then es may) (after es) }
{}

/// Where it is finished, all plates of the plan but one at most are delivered, and no more than the plan says.
#[tactic(auto, using(crate::proofs::Finished::delivered_law))]
pub fn finished_is_delivered()
    ensures { (plan : ℕ) (may : Machine → Bool) (es : List Entry) → plan ≤ 100000 → IsOnePress may
        → IsPossible plan false may opening es → is_finished plan false (cell_of (after es)) ≡ true
        → (plan ≤ (after es).delivered + 1) × ((after es).delivered ≤ plan) }
{}

/// If nothing may fail, all of them are.
#[tactic(auto, using(crate::proofs::Finished::all_delivered_law))]
pub fn all_are_delivered()
    ensures { (plan : ℕ) (may : Machine → Bool) (es : List Entry) → plan ≤ 100000 → ((m : Machine) → may m ≡ false)
        → IsPossible plan false may opening es → is_finished plan false (cell_of (after es)) ≡ true
        → (after es).delivered ≡ plan }
{}

/// The same of orders as the search of states tells them: nothing is stuck where nothing may fail but one press, nor
/// where an operator serves, whatever may fail.
#[tactic(auto, using(crate::proofs::Asked::seen_never_stuck, crate::proofs::Asked::seen_served))]
pub fn search_finds_none_stuck()
    ensures one_press { (plan : ℕ) (may : List Bool) (es : List Entry) → plan ≤ 100000 → IsOnePress (may_of may)
        → IsPossibleAs plan false (opening_of may) es
        → is_stuck plan false (cell_seen (told_after (opening_of may) es)) ≡ false }
    ensures served { (plan : ℕ) (may : List Bool) (es : List Entry) → plan ≤ 100000
        → IsPossibleAs plan true (opening_of may) es
        → is_stuck plan true (cell_seen (told_after (opening_of may) es)) ≡ false }
{}

/// And none of them is longer than the rank of the opening, whatever the plan.
#[tactic(auto, using(crate::proofs::Asked::seen_short))]
pub fn searched_orders_are_short()
    ensures { (plan : ℕ) (serves : Bool) (may : List Bool) (es : List Entry)
        → IsPossibleAs plan serves (opening_of may) es
        → length es ≤ (76 * plan + 9) + most_failures (may_of may) }
{}

/// An order is a legal journal, where the limits have room for its entries and for the plates of the plan.
#[tactic(auto, using(crate::proofs::Lawful::order_legal))]
pub fn orders_are_legal()
    ensures { (l : BookLimits) (plan : ℕ) (serves : Bool) (may : Machine → Bool) (es : List Entry) → plan ≤ l.plates
        → length es ≤ l.entries → IsPossible plan serves may opening es → legal l es ≡ true }
{}

/// So is an order as the search of states tells it.
#[tactic(auto, using(crate::proofs::Lawful::searched_legal))]
pub fn searched_orders_are_legal()
    ensures { (l : BookLimits) (plan : ℕ) (serves : Bool) (may : List Bool) (es : List Entry) → plan ≤ l.plates
        → length es ≤ l.entries → IsPossibleAs plan serves (opening_of may) es → legal l es ≡ true }
{}

/// Each of its entries is due in what those before it leave, and a legal journal of entries that are due is an order,
/// whatever the limits.
#[tactic(auto, using(crate::proofs::Due::all_due, crate::proofs::Due::due_law))]
pub fn due_journals_are_orders()
    ensures due { (plan : ℕ) (serves : Bool) (may : Machine → Bool) (es : List Entry)
        → IsPossible plan serves may opening es → AreDue plan serves may opening es }
    ensures order { (l : BookLimits) (plan : ℕ) (serves : Bool) (may : Machine → Bool) (J : List Entry)
        → plan ≤ 100000 → legal l J ≡ true → AreDue plan serves may opening J
        → IsPossible plan serves may opening J }
{}

/// And so it is of orders as the search of states tells them.
#[tactic(auto, using(crate::proofs::Due::all_seen_due, crate::proofs::Due::seen_due_law))]
pub fn due_journals_are_searched_orders()
    ensures due { (plan : ℕ) (serves : Bool) (may : List Bool) (es : List Entry)
        → IsPossibleAs plan serves (opening_of may) es → AreDueSeen plan serves (opening_of may) es }
    ensures order { (l : BookLimits) (plan : ℕ) (serves : Bool) (may : List Bool) (J : List Entry) → plan ≤ 100000
        → legal l J ≡ true → AreDueSeen plan serves (opening_of may) J
        → IsPossibleAs plan serves (opening_of may) J }
{}

/// With an operator who clears failed machines and repairs them nothing is ever stuck, whatever may fail.
#[tactic(auto, using(crate::proofs::Onward::served_stuck_never))]
pub fn served_never_stuck()
    ensures { (plan : ℕ) (may : Machine → Bool) (es : List Entry) → plan ≤ 100000
        → IsPossible plan true may opening es → is_stuck plan true (cell_of (after es)) ≡ false }
{}

/// From every state that can be reached with one some entries, none of them a failure, lead on to the end.
#[tactic(auto, using(crate::proofs::Onward::served_goes_on))]
pub fn served_forging_goes_on()
    ensures { (plan : ℕ) (may : Machine → Bool) (es : List Entry) → plan ≤ 100000
        → IsPossible plan true may opening es → GoesOn plan true (may_then es may) (after es) }
{}

/// And where it is finished then, all machines are healthy, all stations are empty, and each plate of the plan was
/// delivered or cleared.
#[tactic(auto, using(crate::proofs::Finished::ends_whole))]
pub fn served_ends_whole()
    ensures { (plan : ℕ) (may : Machine → Bool) (es : List Entry) → plan ≤ 100000
        → IsPossible plan true may opening es → is_finished plan true (cell_of (after es)) ≡ true
        → EndsWhole plan (after es) }
{}
