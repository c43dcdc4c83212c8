//! Laws about the lengths of an input's queues, as the contracts of functions that do nothing.

ghost use Rattle.std.specs.Prelude.{◌≡◌, ℕ, ◌+◌, ◌-◌, ◌<◌, ◌≤◌, ◌⊎◌, ◌&&◌, true, false, List, length, ◌++◌, replicate, All, Option, None, Some};
ghost use Rattle.slot_match.specs.declared.matching.Served.{Served};
ghost use Rattle.card_core.specs.declared.plan.Planned.{Planned};
ghost use Rattle.card_core.specs.Plans.{Plan, Queue, IsGoodPlan, size_of, arriving};
ghost use Rattle.card_core.specs.Queues.{before, is_admitted};
ghost use Rattle.queue_lengths.specs.Counters.{Counters, CountBefore};
ghost use Rattle.queue_lengths.specs.Lengths.{length_before, length_in, is_for};

/// A queue grows by the cells of the slot's packet where that enters it, and else not at all.
pub fn lengths_only_rise_by_arrivals()
    ensures served { (plan : Plan) (q : Queue) (served : List (Option Served)) (t : ℕ) → IsGoodPlan plan
        → length_before plan q served (t + 1) ≤ length_in plan q served t }
    ensures none { (plan : Plan) (q : Queue) (served : List (Option Served)) (t : ℕ) → IsGoodPlan plan → arriving plan t ≡ None
        → length_in plan q served t ≡ length_before plan q served t }
    ensures stays { (plan : Plan) (q : Queue) (served : List (Option Served)) (t k : ℕ) (packet : Planned) → IsGoodPlan plan
        → arriving plan t ≡ Some (k, packet) → (is_for q packet && is_admitted plan served t packet) ≡ false
        → length_in plan q served t ≡ length_before plan q served t }
    ensures enters { (plan : Plan) (q : Queue) (served : List (Option Served)) (t k : ℕ) (packet : Planned) → IsGoodPlan plan
        → arriving plan t ≡ Some (k, packet) → (is_for q packet && is_admitted plan served t packet) ≡ true
        → length_in plan q served t ≡ length_before plan q served t + size_of packet }
{}

/// No more cells wait in a queue than the depth.
pub fn lengths_are_at_most_the_depth()
    ensures before { (plan : Plan) (q : Queue) (served : List (Option Served)) (t : ℕ) → IsGoodPlan plan → length_before plan q served t ≤ plan.depth }
    ensures with_arrival { (plan : Plan) (q : Queue) (served : List (Option Served)) (t : ℕ) → IsGoodPlan plan → length_in plan q served t ≤ plan.depth }
{}

/// What is served in a slot or later changes nothing that was before.
pub fn later_services_change_nothing()
    ensures before { (plan : Plan) (q : Queue) (served more : List (Option Served)) (t : ℕ) → t ≤ length served
        → length_before plan q (served ++ more) t ≡ length_before plan q served t }
    ensures with_arrival { (plan : Plan) (q : Queue) (served more : List (Option Served)) (t : ℕ) → t ≤ length served
        → length_in plan q (served ++ more) t ≡ length_in plan q served t }
    ensures admitted { (plan : Plan) (served more : List (Option Served)) (t : ℕ) (packet : Planned) → t ≤ length served
        → is_admitted plan (served ++ more) t packet ≡ is_admitted plan served t packet }
{}

/// Counters of an input before a slot tell its queues before a later one too, where no packet arrives in the slots between
/// them, nothing is served in these, and each queue is as it was.
pub fn gaps_keep_counts()
    ensures { (plan : Plan) (counters : Counters) (served later : List (Option Served)) (slot next : ℕ) → CountBefore plan counters served
        → length served ≡ slot → slot ≤ next → later ≡ served ++ replicate (next - slot) None
        → All (λ packet. (packet.arrival < slot) ⊎ (next ≤ packet.arrival)) plan.packets
        → ((q : Queue) → before plan q later next ≡ before plan q served slot) → CountBefore plan counters later }
{}
