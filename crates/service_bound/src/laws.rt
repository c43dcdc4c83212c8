//! Bounds on waiting, as the contracts of functions that do nothing. They hold of the scheduler's
//! definitions, in every window of slots; each law says for which numbers of ports and rounds.

ghost use Rattle.std.specs.Prelude.{◌≡◌, ℕ, ◌+◌, ◌*◌, ◌/◌, ◌<◌, ◌≤◌, List, All, Any, length, map, take, drop};
ghost use Rattle.rotating_pick.specs.declared.kinds.Kind.TheVariants.{Uni};
ghost use Rattle.rotating_pick.specs.declared.limits.TheConstants.{LEVELS, MAX_PORTS};
ghost use Rattle.slot_match.specs.Rows.{Names, row_of, HasHead, AreWithin};
ghost use Rattle.slot_match.specs.Matches.{Serves, Completes};
ghost use Rattle.pointer_state.specs.Places.{Places, ArePointing};
ghost use Rattle.eslip_rounds.specs.Slots.{AreMoved};
ghost use Rattle.eslip_rounds.specs.Schedules.{DecidedSlot, IsSchedule};
ghost use Rattle.service_bound.specs.Windows.{IsWindow, InFirst, AreKept, IsClean, IsWithoutMulticast, AreAtLineRate, places_after};
ghost use Rattle.service_bound.specs.Windows.{IsKeptScheduleBy, IsQuietFor};
ghost use Rattle.service_bound.specs.declared.limits.TheConstants.{MAX_NOTED};
ghost use Rattle.service_bound.specs.Latest.{IsServedLast, ComesLast};
ghost use Rattle.service_bound.specs.Waits.{noted_of, longest_wait, longest_service, longest_service_in_one_round, longest_service_by};
ghost use Rattle.service_bound.specs.Waits.{longest_service_at_line_rate};

/// In a window of `n * (n * n - n + 2) / 2` slots without multicast at the level, a unicast queue that is
/// posted in the first slot is served in one of them. (McKeown argues for `n * n` slots; where a new
/// request may take a grant this many are proved.)
pub fn unicast_served()
    ensures { (n rounds t level i j : ℕ) (places : Places) (slots : List DecidedSlot) → 0 < rounds → i < n → IsWindow n rounds t level places slots
        → All (λ slot. IsWithoutMulticast n level slot.rows) slots → InFirst (λ rows. Names (row_of rows i) level Uni j) slots
        → longest_service n ≤ length slots → Any (λ slot. Serves slot.decision.matched i j level Uni) slots }
{}

/// It need not be a window: where requests are kept, so many slots as [`crate::longest_service`] tells are enough in which
/// the output is asked as unicast of the level alone, and by inputs that ask nothing better. What others ask of
/// other outputs does not count, of whatever level and kind.
pub fn served_where_quiet()
    ensures { (n rounds t level i j : ℕ) (places : Places) (slots : List DecidedSlot) → 0 < rounds → i < n
        → IsKeptScheduleBy AreMoved n rounds t level places slots → All (λ slot. IsQuietFor n level j slot.rows) slots
        → InFirst (λ rows. Names (row_of rows i) level Uni j) slots
        → longest_service_by n rounds ≤ length slots → Any (λ slot. Serves slot.decision.matched i j level Uni) slots }
{}

/// Where each slot has one round, a window of `2 * n * n - 3 * n + 2` such slots is enough.
pub fn one_round_served()
    ensures { (n t level i j : ℕ) (places : Places) (slots : List DecidedSlot) → i < n → IsWindow n 1 t level places slots
        → All (λ slot. IsWithoutMulticast n level slot.rows) slots → InFirst (λ rows. Names (row_of rows i) level Uni j) slots
        → longest_service_in_one_round n ≤ length slots → Any (λ slot. Serves slot.decision.matched i j level Uni) slots }
{}

/// At line rate, where from one slot to the next each input begins to ask at most one output, one slot less is
/// enough for three ports or more.
pub fn one_round_served_at_line_rate()
    ensures { (n t level i j : ℕ) (places : Places) (slots : List DecidedSlot) → 2 < n → i < n → IsWindow n 1 t level places slots
        → All (λ slot. IsWithoutMulticast n level slot.rows) slots → AreAtLineRate n level slots → InFirst (λ rows. Names (row_of rows i) level Uni j) slots
        → longest_service_in_one_round n ≤ length slots + 1 → Any (λ slot. Serves slot.decision.matched i j level Uni) slots }
{}

/// And whatever the number of rounds, one slot less than without is enough for three ports or more:
/// `n * (n * n - n + 2) / 2 - 1`.
pub fn unicast_served_at_line_rate()
    ensures { (n rounds t level i j : ℕ) (places : Places) (slots : List DecidedSlot) → 2 < n → 0 < rounds → i < n → IsWindow n rounds t level places slots
        → All (λ slot. IsWithoutMulticast n level slot.rows) slots → AreAtLineRate n level slots → InFirst (λ rows. Names (row_of rows i) level Uni j) slots
        → longest_service n ≤ length slots + 1 → Any (λ slot. Serves slot.decision.matched i j level Uni) slots }
{}

/// So many slots at line rate as [`crate::longest_service_at_line_rate`] tells are enough, whatever the numbers of
/// ports and rounds.
pub fn served_at_line_rate()
    ensures { (n rounds t level i j : ℕ) (places : Places) (slots : List DecidedSlot) → 0 < rounds → i < n → IsWindow n rounds t level places slots
        → All (λ slot. IsWithoutMulticast n level slot.rows) slots → AreAtLineRate n level slots → InFirst (λ rows. Names (row_of rows i) level Uni j) slots
        → longest_service_at_line_rate n rounds ≤ length slots → Any (λ slot. Serves slot.decision.matched i j level Uni) slots }
{}

/// Of two ports with two rounds or more, three slots are enough: one less than one round needs.
pub fn two_ports_served()
    ensures { (rounds t level i j : ℕ) (places : Places) (slots : List DecidedSlot) → 1 < rounds → i < 2 → IsWindow 2 rounds t level places slots
        → All (λ slot. IsWithoutMulticast 2 level slot.rows) slots → InFirst (λ rows. Names (row_of rows i) level Uni j) slots
        → 3 ≤ length slots → Any (λ slot. Serves slot.decision.matched i j level Uni) slots }
{}

/// Where each slot has one round, `2 * n * n - 3 * n + 2` slots are needed, for 1 to 64 ports and every queue: in some
/// window of as many, the queue is posted in every slot and served in the last one alone.
pub fn one_round_is_reached()
    ensures { (n t i j level : ℕ) → i < n → j < n → level < LEVELS → n ≤ MAX_PORTS → (places : Places) × (slots : List DecidedSlot)
        × IsServedLast n 1 t i j level places slots × (length slots ≡ longest_service_in_one_round n) }
{}

/// Of two rounds or more, `n * (n * n - n + 2) / 2` slots are needed, for 3 to 64 ports and every queue: a later round
/// serves a request and moves no pointer, so for these ports more rounds make the longest wait longer.
pub fn more_rounds_are_reached()
    ensures { (n rounds t i j level : ℕ) → 2 < n → i < n → j < n → level < LEVELS → n ≤ MAX_PORTS → 1 < rounds → (places : Places)
        × (slots : List DecidedSlot) × IsServedLast n rounds t i j level places slots × (length slots ≡ longest_service n) }
{}

/// And of two ports, three slots are needed, whatever the number of rounds.
pub fn two_ports_are_reached()
    ensures { (rounds t i j level : ℕ) → 0 < rounds → i < 2 → j < 2 → level < LEVELS → (places : Places) × (slots : List DecidedSlot)
        × IsServedLast 2 rounds t i j level places slots × (length slots ≡ 3) }
{}

/// Such windows come about from all pointers at port 0: some schedule from slot 0 on has one of queue (0, 0, 0) from slot
/// `n + 1` on; with one round for 1 to 64 ports, with more for 3 to 64, and of two ports one of three slots.
pub fn longest_waits_come()
    ensures one_round { (n : ℕ) → 0 < n → n ≤ MAX_PORTS → (slots : List DecidedSlot) × ComesLast n 1 (n + 1) 0 0 0 slots
        × (length (drop (n + 1) slots) ≡ longest_service_in_one_round n) }
    ensures more_rounds { (n rounds : ℕ) → 2 < n → n ≤ MAX_PORTS → 1 < rounds → (slots : List DecidedSlot) × ComesLast n rounds (n + 1) 0 0 0 slots
        × (length (drop (n + 1) slots) ≡ longest_service n) }
    ensures two_ports { (rounds : ℕ) → 0 < rounds → (slots : List DecidedSlot) × ComesLast 2 rounds 3 0 0 0 slots × (length (drop 3 slots) ≡ 3) }
{}

/// In a window of `2 * n` slots, a multicast head that is posted in the first slot completes in one of
/// them, whatever unicast is posted.
pub fn multicast_completes()
    ensures { (n rounds t level i : ℕ) (places : Places) (slots : List DecidedSlot) → 0 < rounds → i < n → IsWindow n rounds t level places slots
        → InFirst (λ rows. HasHead rows level i) slots
        → 2 * n ≤ length slots → Any (λ slot. HasHead slot.rows level i × Completes slot.rows slot.decision.matched level i) slots }
{}

/// In a window without multicast at the level, no queue of the level waits for
/// `n * (n * n - n + 2) / 2` slots.
pub fn waits_are_bounded()
    ensures { (n rounds t level : ℕ) (places : Places) (slots : List DecidedSlot) → 0 < n → 0 < rounds → IsWindow n rounds t level places slots
        → All (λ slot. IsWithoutMulticast n level slot.rows) slots
        → longest_wait n level (map noted_of slots) < longest_service n }
{}

/// Where each slot has one round, none waits for `2 * n * n - 3 * n + 2` slots.
pub fn one_round_waits_are_bounded()
    ensures { (n t level : ℕ) (places : Places) (slots : List DecidedSlot) → 0 < n → IsWindow n 1 t level places slots
        → All (λ slot. IsWithoutMulticast n level slot.rows) slots
        → longest_wait n level (map noted_of slots) < longest_service_in_one_round n }
{}

/// At line rate, for three ports or more, none waits for one slot less than that either.
pub fn one_round_waits_at_line_rate_are_bounded()
    ensures { (n t level : ℕ) (places : Places) (slots : List DecidedSlot) → 2 < n → IsWindow n 1 t level places slots
        → All (λ slot. IsWithoutMulticast n level slot.rows) slots → AreAtLineRate n level slots
        → longest_wait n level (map noted_of slots) + 1 < longest_service_in_one_round n }
{}

/// Nor does any, whatever the number of rounds, for one slot less than without, for three ports or more.
pub fn waits_at_line_rate_are_bounded()
    ensures { (n rounds t level : ℕ) (places : Places) (slots : List DecidedSlot) → 2 < n → 0 < rounds → IsWindow n rounds t level places slots
        → All (λ slot. IsWithoutMulticast n level slot.rows) slots → AreAtLineRate n level slots
        → longest_wait n level (map noted_of slots) + 1 < longest_service n }
{}

/// Whatever the number of rounds, no wait reaches the number of slots that [`crate::longest_service`] tells for it.
pub fn waits_are_below_the_longest_service()
    ensures { (n rounds t level : ℕ) (places : Places) (slots : List DecidedSlot) → 0 < n → 0 < rounds → IsWindow n rounds t level places slots
        → All (λ slot. IsWithoutMulticast n level slot.rows) slots
        → longest_wait n level (map noted_of slots) < longest_service_by n rounds }
{}

/// Nor does any, at line rate, reach the number of slots that [`crate::longest_service_at_line_rate`] tells for it.
pub fn waits_are_below_the_longest_service_at_line_rate()
    ensures { (n rounds t level : ℕ) (places : Places) (slots : List DecidedSlot) → 0 < n → 0 < rounds → IsWindow n rounds t level places slots
        → All (λ slot. IsWithoutMulticast n level slot.rows) slots → AreAtLineRate n level slots
        → longest_wait n level (map noted_of slots) < longest_service_at_line_rate n rounds }
{}

/// The numbers that the users of this crate rely on: how many slots a meter notes, and how many slots a service at line
/// rate takes at most, of 2, 3, 16 and 64 ports, with one round and with more.
pub fn limits_are()
    ensures noted { MAX_NOTED ≡ 4294967295 }
    ensures two_ports { (longest_service_at_line_rate 2 1 ≡ 4) × (longest_service_at_line_rate 2 2 ≡ 3) }
    ensures three_ports { (longest_service_at_line_rate 3 1 ≡ 10) × (longest_service_at_line_rate 3 2 ≡ 11) }
    ensures sixteen_ports { (longest_service_at_line_rate 16 1 ≡ 465) × (longest_service_at_line_rate 16 2 ≡ 1935) }
    ensures sixty_four_ports { (longest_service_at_line_rate 64 1 ≡ 8001) × (longest_service_at_line_rate 64 2 ≡ 129087) }
{}

/// For one port or more the bound of one round is at most the bound that holds for any number of rounds, and this one is
/// within `n * n * (n + 1) / 2` and within `n * n * n`. (Two ports need fewer slots with more rounds: three, and four with
/// one round.)
pub fn bounds_are_within()
    ensures one_round { (n : ℕ) → 0 < n → longest_service_in_one_round n ≤ longest_service n }
    ensures half { (n : ℕ) → longest_service n ≤ n * n * (n + 1) / 2 }
    ensures cube { (n : ℕ) → longest_service n ≤ n * n * n }
{}

/// Some slots out of the middle of a schedule whose rows are kept are a window, where they are clean.
pub fn parts_are_windows()
    ensures { (n rounds t level first count : ℕ) (places : Places) (slots : List DecidedSlot) → 0 < n → ArePointing n level places
        → IsSchedule n rounds t places slots → All (λ slot. AreWithin n slot.rows) slots → AreKept n slots
        → All (λ slot. IsClean n level slot.rows) (take count (drop first slots))
        → IsWindow n rounds (t + first) level (places_after places (take first slots)) (take count (drop first slots)) }
{}
