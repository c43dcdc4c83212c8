//! Laws of FIRM, as the contracts of functions that do nothing. They hold of its
//! definitions, in every window of slots; each law says for which numbers of ports and rounds.

ghost use Rattle.std.specs.Prelude.{◌≡◌, ℕ, ◌+◌, ◌*◌, ◌%◌, ◌<◌, ◌≤◌, List, Option, All, Any, length, map, take, drop};
ghost use Rattle.rotating_pick.specs.declared.kinds.Kind.TheVariants.{Uni};
ghost use Rattle.rotating_pick.specs.declared.limits.TheConstants.{MAX_PORTS};
ghost use Rattle.slot_match.specs.declared.rows.Row.{Row};
ghost use Rattle.slot_match.specs.declared.matching.Fed.{Fed};
ghost use Rattle.slot_match.specs.Rows.{Names, row_of, HasHead, AreWithin};
ghost use Rattle.slot_match.specs.Matches.{unmatched, Serves, Completes};
ghost use Rattle.pointer_state.specs.Places.{Places, AreAtPorts, ArePointing, grant_of, accept_of};
ghost use Rattle.eslip_rounds.specs.Rounds.{Grants, IsRound};
ghost use Rattle.eslip_rounds.specs.Slots.{Decision, IsRefused};
ghost use Rattle.eslip_rounds.specs.Schedules.{DecidedSlot, IsScheduleBy};
ghost use Rattle.service_bound.specs.Windows.{IsKeptScheduleBy, IsQuietFor, IsWindowBy, InFirst, AreKept, IsClean, IsWithoutMulticast, places_after};
ghost use Rattle.service_bound.specs.Waits.{noted_of, longest_wait};
ghost use Rattle.firm_rounds.specs.Slots.{AreMovedByFirm, IsFirmSlot};
ghost use Rattle.firm_rounds.specs.Decisions.{firm_decision};
ghost use Rattle.firm_rounds.specs.Latest.{IsServedLastByFirm};

/// In a window of `n * n` slots without multicast at the level, a unicast queue that is posted in the first
/// slot is served in one of them, whatever the number of rounds.
pub fn firm_served()
    ensures { (n rounds t level i j : ℕ) (places : Places) (slots : List DecidedSlot) → 0 < rounds → i < n
        → IsWindowBy AreMovedByFirm n rounds t level places slots
        → All (λ slot. IsWithoutMulticast n level slot.rows) slots → InFirst (λ rows. Names (row_of rows i) level Uni j) slots
        → n * n ≤ length slots → Any (λ slot. Serves slot.decision.matched i j level Uni) slots }
{}

/// It need not be a window: where requests are kept, so many slots are enough in which the output is asked as unicast of
/// the level alone, and by inputs that ask nothing better. What others ask of other outputs does not count.
pub fn firm_served_where_quiet()
    ensures { (n rounds t level i j : ℕ) (places : Places) (slots : List DecidedSlot) → 0 < rounds → i < n
        → IsKeptScheduleBy AreMovedByFirm n rounds t level places slots
        → All (λ slot. IsQuietFor n level j slot.rows) slots → InFirst (λ rows. Names (row_of rows i) level Uni j) slots
        → n * n ≤ length slots → Any (λ slot. Serves slot.decision.matched i j level Uni) slots }
{}

/// That many are needed where each slot has one round, for 1 to 64 ports: in some window of `n * n` slots, the
/// queue from input 0 to output 0 at level 0 is posted in every slot and served in the last one alone.
pub fn firm_is_reached()
    ensures { (n t : ℕ) → 0 < n → n ≤ MAX_PORTS → (places : Places) × (slots : List DecidedSlot) × IsServedLastByFirm n 1 t 0 0 0 places slots
        × (length slots ≡ n * n) }
{}

/// In a window without multicast at the level, no queue of the level waits for `n * n` slots.
pub fn firm_waits_are_bounded()
    ensures { (n rounds t level : ℕ) (places : Places) (slots : List DecidedSlot) → 0 < n → 0 < rounds → IsWindowBy AreMovedByFirm n rounds t level places slots
        → All (λ slot. IsWithoutMulticast n level slot.rows) slots
        → longest_wait n level (map noted_of slots) < n * n }
{}

/// In a window of `2 * n` slots, a multicast head that is posted in the first slot completes in one of
/// them, whatever unicast is posted.
pub fn firm_completes()
    ensures { (n rounds t level i : ℕ) (places : Places) (slots : List DecidedSlot) → 0 < rounds → i < n
        → IsWindowBy AreMovedByFirm n rounds t level places slots
        → InFirst (λ rows. HasHead rows level i) slots
        → 2 * n ≤ length slots → Any (λ slot. HasHead slot.rows level i × Completes slot.rows slot.decision.matched level i) slots }
{}

/// Some slots out of the middle of a schedule whose rows are kept are a window, where they are clean.
pub fn firm_parts_are_windows()
    ensures { (n rounds t level first count : ℕ) (places : Places) (slots : List DecidedSlot) → ArePointing n level places
        → IsScheduleBy AreMovedByFirm n rounds t places slots → All (λ slot. AreWithin n slot.rows) slots → AreKept n slots
        → All (λ slot. IsClean n level slot.rows) (take count (drop first slots))
        → IsWindowBy AreMovedByFirm n rounds (t + first) level (places_after places (take first slots)) (take count (drop first slots)) }
{}

/// A slot leaves no choice: two decisions of the same slot, with pointers at ports, are one.
pub fn one_firm_decision()
    ensures { (n rounds t : ℕ) (rows : List Row) (before : Places) (a b : Decision) → AreWithin n rows → AreAtPorts before → before.ports ≡ n
        → AreAtPorts a.places → AreAtPorts b.places → IsFirmSlot n rounds t rows before a → IsFirmSlot n rounds t rows before b → a ≡ b }
{}

/// What the function of rows and pointers gives is what the slot decides, with its pointers at ports.
pub fn firm_decision_is_of_the_slot()
    ensures slot { (n rounds t : ℕ) (rows : List Row) (before : Places) → AreWithin n rows → AreAtPorts before → before.ports ≡ n
        → IsFirmSlot n rounds t rows before (firm_decision n rounds t rows before) }
    ensures at_ports { (n rounds t : ℕ) (rows : List Row) (before : Places) → AreWithin n rows → AreAtPorts before → before.ports ≡ n
        → AreAtPorts (firm_decision n rounds t rows before).places }
{}

/// Where a slot leaves the pointers of unicast, of which `first_match` is the match after the first round. A pair of the
/// first round moves its two pointers one beyond each other, an output whose unicast grant was refused points to the
/// input that refused it, and one that granted no unicast stays; so does an input that accepted none.
pub fn firm_pointers_move()
    ensures paired { (n t : ℕ) (rows : List Row) (first_match matched : List (Option Fed)) (before after : Places)
        → AreMovedByFirm n t rows first_match matched before after
        → (i j level : ℕ) → Serves first_match i j level Uni → (grant_of after j level ≡ (i + 1) % n) × (accept_of after i level ≡ (j + 1) % n) }
    ensures refused { (n t : ℕ) (rows : List Row) (first_match matched : List (Option Fed)) (before after : Places)
        → AreMovedByFirm n t rows first_match matched before after
        → (i j level : ℕ) → IsRefused n t rows before i j level → grant_of after j level ≡ i }
    ensures grant_stays { (n t : ℕ) (rows : List Row) (first_match matched : List (Option Fed)) (before after : Places)
        → IsRound n t rows before (unmatched n) first_match → AreMovedByFirm n t rows first_match matched before after
        → (j level : ℕ) → ((i : ℕ) → Grants n t rows before (unmatched n) i j level Uni → ⊥) → grant_of after j level ≡ grant_of before j level }
    ensures accept_stays { (n t : ℕ) (rows : List Row) (first_match matched : List (Option Fed)) (before after : Places)
        → AreMovedByFirm n t rows first_match matched before after
        → (i level : ℕ) → ((j : ℕ) → Serves first_match i j level Uni → ⊥) → accept_of after i level ≡ accept_of before i level }
{}
