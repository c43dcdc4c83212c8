//! Laws on slots of full load, as the contracts of functions that do nothing. They hold of the scheduler's
//! definitions, for 1 to 64 ports, one round or more, and any pointers.

ghost use Rattle.std.specs.Prelude.{◌≡◌, ℕ, ◌+◌, ◌-◌, ◌<◌, ◌≤◌, List, All, Any, length, take, drop};
ghost use Rattle.rotating_pick.specs.declared.limits.TheConstants.{LEVELS, MAX_PORTS};
ghost use Rattle.rotating_pick.specs.declared.kinds.Kind.TheVariants.{Uni};
ghost use Rattle.slot_match.specs.Matches.{Serves};
ghost use Rattle.pointer_state.specs.Places.{Places, AreAtPorts, places_at_first};
ghost use Rattle.eslip_rounds.specs.Schedules.{DecidedSlot};
ghost use Rattle.scheduler_laws.specs.FullLoad.{IsFullyLoaded, IsFullMatch, IsFullSlot};

/// Where in every slot every input asks every output at one level, every slot after the first `n - 1` serves every
/// output, and every input, as unicast of that level: `n` pairs, all of them in its first round.
pub fn full_load_is_matched()
    ensures { (n rounds t level : ℕ) (places : Places) (slots : List DecidedSlot) → 0 < rounds → IsFullyLoaded n rounds t level places slots
        → All (IsFullSlot n level) (drop (n - 1) slots) }
{}

/// That many are needed: with one round, from all pointers at port 0, none of the first `n - 1` slots of full load
/// serves every output.
pub fn full_load_is_not_matched_before()
    ensures { (n t level : ℕ) (slots : List DecidedSlot) → 0 < n → n ≤ MAX_PORTS → level < LEVELS
        → IsFullyLoaded n 1 t level (places_at_first n) slots
        → All (λ slot. IsFullMatch n level slot.decision.matched → ⊥) (take (n - 1) slots) }
{}

/// From all pointers of a switch there are such slots, as many as one wants, at each level.
pub fn full_load_comes()
    ensures { (n rounds t level count : ℕ) (places : Places) → AreAtPorts places → places.ports ≡ n → level < LEVELS
        → (slots : List DecidedSlot) × IsFullyLoaded n rounds t level places slots × (length slots ≡ count) }
{}

/// After the first `n - 1` slots of full load every queue of the level is served in any `n` slots one after the other.
pub fn full_load_is_served_in_turn()
    ensures { (n rounds t level i j k : ℕ) (places : Places) (slots : List DecidedSlot) → 0 < rounds → i < n → j < n
        → IsFullyLoaded n rounds t level places slots → n - 1 ≤ k → k + n ≤ length slots
        → Any (λ slot. Serves slot.decision.matched i j level Uni) (take n (drop k slots)) }
{}
