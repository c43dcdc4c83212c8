//! Laws on slots of full load under round-robin matching, as the contracts of functions that do nothing. They hold of its
//! definitions, for 1 to 64 ports.

ghost use Rattle.std.specs.Prelude.{◌≡◌, ℕ, ◌-◌, ◌+◌, ◌%◌, ◌<◌, ◌≤◌, List, ◌∷◌, All, length, drop};
ghost use Rattle.rotating_pick.specs.declared.limits.TheConstants.{LEVELS};
ghost use Rattle.pointer_state.specs.Places.{Places, AreAtPorts, places_at_first, grant_of};
ghost use Rattle.islip_rounds.specs.Numbers.{matched_count};
ghost use Rattle.eslip_rounds.specs.Schedules.{DecidedSlot};
ghost use Rattle.scheduler_laws.specs.FullLoad.{IsFullyLoaded, IsFullyLoadedByRrm, AreTogether};

/// Where in every slot every input asks every output at one level, each grant pointer of the level moves one port on in
/// every slot. So pointers that are together stay together for ever, and those that are apart stay apart.
pub fn rrm_pointers_turn()
    ensures turn { (n rounds t level j : ℕ) (places : Places) (slot : DecidedSlot) (slots : List DecidedSlot) → 0 < rounds → j < n
        → IsFullyLoadedByRrm n rounds t level places (slot ∷ slots)
        → grant_of slot.decision.places j level ≡ (grant_of places j level + 1) % n }
    ensures together { (n rounds t level j k : ℕ) (places : Places) (slots : List DecidedSlot) → 0 < rounds → j < n → k < n
        → IsFullyLoadedByRrm n rounds t level places slots → grant_of places j level ≡ grant_of places k level
        → All (λ slot. grant_of slot.decision.places j level ≡ grant_of slot.decision.places k level) slots }
    ensures apart { (n rounds t level j k : ℕ) (places : Places) (slots : List DecidedSlot) → 0 < rounds → j < n → k < n
        → IsFullyLoadedByRrm n rounds t level places slots → (grant_of places j level ≡ grant_of places k level → ⊥)
        → All (λ slot. grant_of slot.decision.places j level ≡ grant_of slot.decision.places k level → ⊥) slots }
{}

/// From grant pointers of the level that are all at one port, as before the first slot of a switch, the first round of
/// every slot of full load matches one pair, for ever. With one round that is all that a slot matches.
pub fn rrm_matches_one_pair()
    ensures first { (n rounds t level : ℕ) (places : Places) (slots : List DecidedSlot) → 0 < n → 0 < rounds
        → IsFullyLoadedByRrm n rounds t level places slots → AreTogether n level places
        → All (λ slot. slot.decision.numbers.first ≡ 1) slots }
    ensures one_round { (n t level : ℕ) (places : Places) (slots : List DecidedSlot) → 0 < n
        → IsFullyLoadedByRrm n 1 t level places slots → AreTogether n level places
        → All (λ slot. matched_count slot.decision.matched ≡ 1) slots }
    ensures at_first { (n level : ℕ) → AreTogether n level (places_at_first n) }
{}

/// From all pointers of a switch there are such slots, as many as one wants, at each level.
pub fn rrm_full_load_comes()
    ensures { (n rounds t level count : ℕ) (places : Places) → AreAtPorts places → places.ports ≡ n → level < LEVELS
        → (slots : List DecidedSlot) × IsFullyLoadedByRrm n rounds t level places slots × (length slots ≡ count) }
{}

/// What the one word "accepted" is worth: from all pointers at port 0, with one round, every slot of full load after the
/// first `n - 1` has `n` pairs under iSLIP, and every one has a single pair under round-robin matching: with two ports
/// half as many.
pub fn islip_matches_n_times_as_many()
    ensures { (n t level : ℕ) (slots others : List DecidedSlot) → 0 < n
        → IsFullyLoaded n 1 t level (places_at_first n) slots → IsFullyLoadedByRrm n 1 t level (places_at_first n) others
        → All (λ slot. matched_count slot.decision.matched ≡ n) (drop (n - 1) slots) × All (λ slot. matched_count slot.decision.matched ≡ 1) others }
{}
