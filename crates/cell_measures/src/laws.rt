//! The laws that the times of a journal are the least, and that they don't depend on how entries are interleaved that
//! depend on nothing of each other.
ghost use Rattle.std.specs.Prelude.{◌≡◌, ◌≤◌, ◌++◌, ◌∷◌, ℕ, List, false, length, slice_index};
ghost use Rattle.cell_types.specs.declared.words.Entry.{Entry};
ghost use Rattle.cell_measures.specs.declared.durations.Durations.{Durations};
ghost use Rattle.cell_measures.specs.Times.{times};
ghost use Rattle.cell_measures.specs.Schedules.{IsSchedule};
ghost use Rattle.cell_measures.specs.Sums.{last_of};
ghost use Rattle.cell_measures.specs.Exchange.{IsExchange, depends};

/// The times of a journal's entries keep to what each of them waits for and to how long motions take. They are the
/// least that do: no others are less for any entry, nor is the last of them.
pub fn times_are_least()
    ensures keep { (ds : Durations) (J : List Entry) → IsSchedule ds J (times ds J) }
    ensures least { (ds : Durations) (J : List Entry) (at : List ℕ) → IsSchedule ds J at
        → (k : ℕ) → slice_index (times ds J) k ≤ slice_index at k }
    ensures time { (ds : Durations) (J : List Entry) (at : List ℕ) → IsSchedule ds J at
        → last_of (times ds J) ≤ last_of at }
{}

/// Where two neighbours of a journal that depend on nothing of each other are exchanged, their ends are exchanged, all
/// others stay, and so does the last of them.
pub fn exchanged_neighbours()
    ensures ends { (ds : Durations) (J K : List Entry) (a b : Entry) → depends a b ≡ false → depends b a ≡ false
        → IsExchange (length J) (times ds (J ++ a ∷ b ∷ K)) (times ds (J ++ b ∷ a ∷ K)) }
    ensures time { (ds : Durations) (J K : List Entry) (a b : Entry) → depends a b ≡ false → depends b a ≡ false
        → last_of (times ds (J ++ a ∷ b ∷ K)) ≡ last_of (times ds (J ++ b ∷ a ∷ K)) }
{}
