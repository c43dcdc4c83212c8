ghost use Rattle.std.specs.Prelude.{◌≡◌, ◌≢◌, ℕ, ◌+◌, ◌<◌, ◌≤◌, ◌⊎◌, List, Option, All, map};
ghost use Rattle.rotating_pick.specs.declared.kinds.Kind.{Kind};
ghost use Rattle.rotating_pick.specs.declared.kinds.Kind.TheVariants.{Uni};
ghost use Rattle.slot_match.specs.declared.rows.Row.{Row};
ghost use Rattle.slot_match.specs.declared.matching.Fed.{Fed};
ghost use Rattle.slot_match.specs.Rows.{Names, row_of, AreWithin};
ghost use Rattle.slot_match.specs.Matches.{Serves, IsMaximal};
ghost use Rattle.pointer_state.specs.Places.{Places, AreAtPorts};
ghost use Rattle.islip_rounds.specs.Numbers.{matched_count};
ghost use Rattle.eslip_rounds.specs.Slots.{Decision, IsSlot};
ghost use Rattle.eslip_rounds.specs.Schedules.{DecidedSlot, IsSchedule, IsScheduleBy};
ghost use Rattle.eslip_rounds.specs.Schedulers.{Scheduler, IsScheduler, StayAtPorts};
ghost use Rattle.service_bound.specs.Waits.{NotedSlot, noted_of};
ghost use Rattle.maximal_matches.specs.Meanwhile.{slots_waited, slots_sent_another, slots_fed_by_another};

/// The match of a slot is maximal, so that no pair can be added to it, where the slot has at least as many rounds as the
/// switch has ports, and where the last round of all added nothing.
pub fn matches_are_maximal()
    ensures enough { (n rounds t : ℕ) (rows : List Row) (before : Places) (a : Decision) → AreWithin n rows → AreAtPorts before → before.ports ≡ n
        → IsSlot n rounds t rows before a → n ≤ rounds → IsMaximal n rows a.matched }
    ensures unused { (n rounds t : ℕ) (rows : List Row) (before : Places) (a : Decision) → AreWithin n rows → AreAtPorts before → before.ports ≡ n
        → IsSlot n rounds t rows before a → 0 < rounds → a.numbers.last_added ≡ 0 → IsMaximal n rows a.matched }
{}

/// So is the match that a scheduler decides, whichever scheduler of request, grant and accept it is: `decision_of`, the
/// function of rows and pointers, is one.
pub fn decisions_are_maximal()
    ensures enough { (scheduler : Scheduler) (n rounds t : ℕ) (rows : List Row) (places : Places) → IsScheduler scheduler → AreWithin n rows
        → AreAtPorts places → places.ports ≡ n → n ≤ rounds → IsMaximal n rows (scheduler n rounds t rows places).matched }
    ensures unused { (scheduler : Scheduler) (n rounds t : ℕ) (rows : List Row) (places : Places) → IsScheduler scheduler → AreWithin n rows
        → AreAtPorts places → places.ports ≡ n → 0 < rounds → (scheduler n rounds t rows places).numbers.last_added ≡ 0
        → IsMaximal n rows (scheduler n rounds t rows places).matched }
{}

/// And so are the matches of a schedule, whose slots are decided one after the other from pointers at ports on: where the
/// pointers move as those of iSLIP do, and where they move in any other way and stay at ports.
pub fn scheduled_matches_are_maximal()
    ensures enough { (n rounds t : ℕ) (places : Places) (slots : List DecidedSlot) → AreAtPorts places → places.ports ≡ n
        → IsSchedule n rounds t places slots → All (λ slot. AreWithin n slot.rows) slots → n ≤ rounds
        → All (λ slot. IsMaximal n slot.rows slot.decision.matched) slots }
    ensures unused { (n rounds t : ℕ) (places : Places) (slots : List DecidedSlot) → AreAtPorts places → places.ports ≡ n
        → IsSchedule n rounds t places slots → All (λ slot. AreWithin n slot.rows) slots → 0 < rounds
        → All (λ slot. slot.decision.numbers.last_added ≡ 0 → IsMaximal n slot.rows slot.decision.matched) slots }
    ensures enough_by_any { (n rounds t : ℕ) (places : Places) (slots : List DecidedSlot) → AreAtPorts places → places.ports ≡ n
        → IsScheduleBy StayAtPorts n rounds t places slots → All (λ slot. AreWithin n slot.rows) slots → n ≤ rounds
        → All (λ slot. IsMaximal n slot.rows slot.decision.matched) slots }
    ensures unused_by_any { (n rounds t : ℕ) (places : Places) (slots : List DecidedSlot) → AreAtPorts places → places.ports ≡ n
        → IsScheduleBy StayAtPorts n rounds t places slots → All (λ slot. AreWithin n slot.rows) slots → 0 < rounds
        → All (λ slot. slot.decision.numbers.last_added ≡ 0 → IsMaximal n slot.rows slot.decision.matched) slots }
{}

/// More rounds match more: in the same slot, from the same rows and pointers, all pairs that some rounds match are matched
/// by one round more, or several, at the same level with the same kind; so they match at least as many outputs.
pub fn more_rounds_match_more()
    ensures slot { (n rounds more t : ℕ) (rows : List Row) (before : Places) (a b : Decision) → rounds ≤ more → IsSlot n rounds t rows before a
        → IsSlot n more t rows before b → (i j level : ℕ) (kind : Kind) → Serves a.matched i j level kind → Serves b.matched i j level kind }
    ensures count { (n rounds more t : ℕ) (rows : List Row) (before : Places) (a b : Decision) → rounds ≤ more → IsSlot n rounds t rows before a
        → IsSlot n more t rows before b → matched_count a.matched ≤ matched_count b.matched }
    ensures decision { (scheduler : Scheduler) (n rounds more t : ℕ) (rows : List Row) (places : Places) → IsScheduler scheduler → AreWithin n rows
        → AreAtPorts places → places.ports ≡ n → rounds ≤ more → (i j level : ℕ) (kind : Kind)
        → Serves (scheduler n rounds t rows places).matched i j level kind → Serves (scheduler n more t rows places).matched i j level kind }
{}

/// Others are served while a unicast queue waits: in a slot with a maximal match in which it is posted and not served, its
/// input is matched for another queue, or its output with another input. So the slots in which it waits are at most as many
/// as the slots in which its input is matched for another and the slots in which its output is matched with another.
pub fn others_are_served_meanwhile()
    ensures slot { (n i j level : ℕ) (rows : List Row) (matched : List (Option Fed)) → i < n → j < n → IsMaximal n rows matched
        → Names (row_of rows i) level Uni j → (Serves matched i j level Uni → ⊥)
        → ((y other : ℕ) × (kind : Kind) × Serves matched i y other kind) ⊎ ((x other : ℕ) × (kind : Kind) × (x ≢ i) × Serves matched x j other kind) }
    ensures slots { (n i j level : ℕ) (slots : List NotedSlot) → i < n → j < n → All (λ slot. IsMaximal n slot.rows slot.matched) slots
        → slots_waited slots i j level ≤ slots_sent_another slots i j level + slots_fed_by_another slots i j }
    ensures schedule { (n rounds t i j level : ℕ) (places : Places) (slots : List DecidedSlot) → i < n → j < n → AreAtPorts places → places.ports ≡ n
        → IsSchedule n rounds t places slots → All (λ slot. AreWithin n slot.rows) slots → n ≤ rounds → slots_waited (map noted_of slots) i j level
        ≤ slots_sent_another (map noted_of slots) i j level + slots_fed_by_another (map noted_of slots) i j }
    ensures schedule_by_any { (n rounds t i j level : ℕ) (places : Places) (slots : List DecidedSlot) → i < n → j < n → AreAtPorts places → places.ports ≡ n
        → IsScheduleBy StayAtPorts n rounds t places slots → All (λ slot. AreWithin n slot.rows) slots → n ≤ rounds
        → slots_waited (map noted_of slots) i j level
        ≤ slots_sent_another (map noted_of slots) i j level + slots_fed_by_another (map noted_of slots) i j }
{}
