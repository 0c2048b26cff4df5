//! What holds of every legal journal, whatever the limits. Each function's contract is the law, and its body is empty.
//! The safety rules are those of LNCS 891 and of this project's profile.
ghost use Rattle.std.specs.Prelude.{◌≡◌, ◌≤◌, ◌+◌, ◌++◌, ◌||◌, ◌&&◌, not, nat_le, true, false, List, length, Some};
ghost use Rattle.std.specs.Prelude.{None};
ghost use Rattle.std.specs.List.{list_all};
ghost use Rattle.cell_types.specs.declared.words.Machine.{Machine};
ghost use Rattle.cell_types.specs.declared.words.Cause.{Cause};
ghost use Rattle.cell_types.specs.declared.words.Entry.{Entry};
ghost use Rattle.cell_types.specs.declared.words.Entry.TheVariants.{Declared};
ghost use Rattle.cell_rules.specs.Views.{is_failed};
ghost use Rattle.cell_rules.specs.Situations.{Situation};
ghost use Rattle.cell_rules.specs.declared.limits.BookLimits.{BookLimits};
ghost use Rattle.cell_rules.specs.declared.refusal.Refusal.{Refusal};
ghost use Rattle.cell_rules.specs.First.{first, tests};
ghost use Rattle.cell_rules.specs.Numbers.{refusal_number, ascends_from};
ghost use Rattle.cell_rules.specs.Legal.{first_of, legal};
ghost use Rattle.cell_rules.specs.Profiles.{is_of_one, first_in_one, legal_in_one};
ghost use Rattle.cell_rules.specs.Safety.{IsSafe};
ghost use Rattle.cell_rules.specs.Invariants.{IsKept};
ghost use Rattle.cell_rules.specs.Bridged.{TellsWhatIsLeft};
ghost use Rattle.cell_rules.specs.Carrying.{IsCarrying};

/// What a legal journal tells is what its entries' effects leave.
#[tactic(auto, using(crate::proofs::Safe::Told::told_when_legal))]
pub fn effects_are_what_is_told()
    ensures { (l : BookLimits) (J : List Entry) → legal l J ≡ true → TellsWhatIsLeft J }
{}

/// Each legal journal is safe.
#[tactic(auto, using(crate::proofs::Safe::Safety::safe_when_legal))]
pub fn legal_is_safe()
    ensures { (l : BookLimits) (J : List Entry) → legal l J ≡ true → IsSafe J }
{}

/// Each legal journal keeps the working invariants: who holds which zone while a machine moves, where an arm may be
/// out, how often a plate was forged, and that a failed machine that nobody visits is left alone.
#[tactic(auto, using(crate::proofs::Safe::KeptProofs::kept_when_legal))]
pub fn legal_is_kept()
    ensures { (l : BookLimits) (J : List Entry) → legal l J ≡ true → IsKept J }
{}

/// Where an axis of a healthy machine goes with a motion that carries a plate, the plate is there: a belt's at the
/// first station of its motion, and that of a press on its way to Top.
pub fn healthy_motions_carry()
    ensures { (l : BookLimits) (J : List Entry) → legal l J ≡ true → IsCarrying J }
{}

/// The first part of a legal journal is legal.
pub fn first_part_is_legal()
    ensures { (l : BookLimits) (P R : List Entry) → legal l (P ++ R) ≡ true → legal l P ≡ true }
{}

/// A legal journal has at most six entries beyond its limit, as many as there are machines.
#[tactic(auto, using(crate::proofs::Lengths::length_law))]
pub fn legal_is_short()
    ensures { (l : BookLimits) (J : List Entry) → legal l J ≡ true → length J ≤ l.entries + 6 }
{}

/// A healthy machine can always be declared failed, at a full journal too.
pub fn healthy_is_declared()
    ensures { (l : BookLimits) (J : List Entry) (m : Machine) (cause : Cause) → legal l J ≡ true → is_failed J m ≡ false
        → first_of l J (Declared m cause) ≡ None }
{}

/// The tests of an entry stand in the order of their refusals' numbers.
#[tactic(auto, using(crate::proofs::Order::tests_ascend))]
pub fn tests_are_in_order()
    ensures { (l : BookLimits) (c : Situation) (e : Entry) → ascends_from 1 (tests l c e) ≡ true }
{}

/// The refusal of an entry has the least number of all whose test holds.
#[tactic(auto, using(crate::proofs::Order::first_is_least))]
pub fn first_refusal_is_the_least()
    ensures { (l : BookLimits) (c : Situation) (e : Entry) (r : Refusal) → first l c e ≡ Some r
        → list_all (λ t. not t.0 || nat_le (refusal_number r) (refusal_number t.1)) (tests l c e) ≡ true }
{}

/// Profile 1, which knows no plate that is laid back, refuses in its own journals what is refused here, and its legal
/// journals are the legal ones here of its entries alone. So what is proved of legal journals holds of those of profile
/// 1.
pub fn profile_one_is_kept()
    ensures first { (l : BookLimits) (J : List Entry) (e : Entry) → list_all is_of_one J ≡ true
        → first_in_one l J e ≡ first_of l J e }
    ensures legal { (l : BookLimits) (J : List Entry) → legal_in_one l J ≡ (list_all is_of_one J && legal l J) }
{}
