//! Laws of round-robin matching, as the contracts of functions that do nothing. They hold of its definitions;
//! each law says for which numbers of ports and rounds.

ghost use Rattle.std.specs.Prelude.{◌≡◌, ℕ, ◌+◌, ◌*◌, ◌%◌, ◌<◌, ◌≤◌, List, Option, Any, length};
ghost use Rattle.rotating_pick.specs.declared.kinds.Kind.TheVariants.{Uni};
ghost use Rattle.rotating_pick.specs.declared.limits.TheConstants.{MAX_PORTS};
ghost use Rattle.slot_match.specs.declared.rows.Row.{Row};
ghost use Rattle.slot_match.specs.declared.matching.Fed.{Fed};
ghost use Rattle.slot_match.specs.Rows.{HasHead, AreWithin};
ghost use Rattle.slot_match.specs.Matches.{Serves, Completes};
ghost use Rattle.pointer_state.specs.Places.{Places, AreAtPorts, places_at_first, grant_of, accept_of};
ghost use Rattle.eslip_rounds.specs.Slots.{Decision};
ghost use Rattle.eslip_rounds.specs.Schedulers.{IsSchedulerBy, IsScheduler};
ghost use Rattle.eslip_rounds.specs.Schedules.{DecidedSlot};
ghost use Rattle.service_bound.specs.Windows.{IsWindowBy, InFirst};
ghost use Rattle.rrm_rounds.specs.Slots.{IsGrantedFirst, AreMovedByRrm, IsRrmSlot};
ghost use Rattle.rrm_rounds.specs.Decisions.{rrm_decision};
ghost use Rattle.rrm_rounds.specs.Starving.{IsStarved};

/// Where a slot leaves the pointers of unicast, of which `first_match` is the match after the first round. A grant of the
/// first round moves the output's grant pointer one beyond the input, accepted or not, and an output that granted no
/// unicast stays. A pair of the first round moves the input's accept pointer one beyond the output, and an input that
/// accepted no unicast stays.
pub fn rrm_pointers_move()
    ensures granted { (n t : ℕ) (rows : List Row) (first_match matched : List (Option Fed)) (before after : Places)
        → AreMovedByRrm n t rows first_match matched before after
        → (i j level : ℕ) → IsGrantedFirst n t rows before i j level → grant_of after j level ≡ (i + 1) % n }
    ensures grant_stays { (n t : ℕ) (rows : List Row) (first_match matched : List (Option Fed)) (before after : Places)
        → AreMovedByRrm n t rows first_match matched before after
        → (j level : ℕ) → ((i : ℕ) → IsGrantedFirst n t rows before i j level → ⊥) → grant_of after j level ≡ grant_of before j level }
    ensures accepted { (n t : ℕ) (rows : List Row) (first_match matched : List (Option Fed)) (before after : Places)
        → AreMovedByRrm n t rows first_match matched before after
        → (i j level : ℕ) → Serves first_match i j level Uni → accept_of after i level ≡ (j + 1) % n }
    ensures accept_stays { (n t : ℕ) (rows : List Row) (first_match matched : List (Option Fed)) (before after : Places)
        → AreMovedByRrm n t rows first_match matched before after
        → (i level : ℕ) → ((j : ℕ) → Serves first_match i j level Uni → ⊥) → accept_of after i level ≡ accept_of before i level }
{}

/// A slot leaves no choice: two decisions of the same slot, with pointers at ports, are one.
pub fn one_rrm_decision()
    ensures { (n rounds t : ℕ) (rows : List Row) (before : Places) (a b : Decision) → AreWithin n rows → AreAtPorts before → before.ports ≡ n
        → AreAtPorts a.places → AreAtPorts b.places → IsRrmSlot n rounds t rows before a → IsRrmSlot n rounds t rows before b → a ≡ b }
{}

/// What the function of rows and pointers gives is what the slot decides, with its pointers at ports: so it is one of
/// the schedulers of which the laws of runs speak.
pub fn rrm_is_a_scheduler()
    ensures moves { IsSchedulerBy AreMovedByRrm rrm_decision }
    ensures stays { IsScheduler rrm_decision }
{}

/// In a window of `2 * n` slots, a multicast head that is posted in the first slot completes in one of
/// them, whatever unicast is posted.
pub fn rrm_completes()
    ensures { (n rounds t level i : ℕ) (places : Places) (slots : List DecidedSlot) → 0 < rounds → i < n
        → IsWindowBy AreMovedByRrm n rounds t level places slots
        → InFirst (λ rows. HasHead rows level i) slots
        → 2 * n ≤ length slots → Any (λ slot. HasHead slot.rows level i × Completes slot.rows slot.decision.matched level i) slots }
{}

/// From three ports on, up to 64, round-robin matching starves: from all pointers at port 0 there are windows at line
/// rate, as long as one wants and for any number of rounds, in which queue (1, 0) at level 0 is posted in every slot
/// and served in none.
pub fn rrm_starves()
    ensures { (n rounds t count : ℕ) → 3 ≤ n → n ≤ MAX_PORTS → 0 < rounds
        → (slots : List DecidedSlot) × IsStarved n rounds t 1 0 0 (places_at_first n) slots × (length slots ≡ count) }
{}
