//! Laws that tie what happens at the board to the laws on waiting, as the contracts of functions that do
//! nothing.

ghost use Rattle.std.specs.Prelude.{ℕ, ◌<◌, ◌≤◌, List, All, length, take, drop};
ghost use Rattle.rotating_pick.specs.declared.limits.TheConstants.{LEVELS, MAX_PORTS};
ghost use Rattle.slot_match.specs.Rows.{AreWithin};
ghost use Rattle.pointer_state.specs.Places.{places_at_first};
ghost use Rattle.eslip_rounds.specs.Schedules.{IsSchedule};
ghost use Rattle.service_bound.specs.Windows.{IsWindow, AreKept, IsClean};
ghost use Rattle.slot_histories.specs.declared.events.Event.{Event};
ghost use Rattle.slot_histories.specs.Events.{Setup, posted};
ghost use Rattle.slot_histories.specs.Slots.{places_at};
ghost use Rattle.slot_histories.specs.Legal.{IsLegal};
ghost use Rattle.slot_board.specs.Schedules.{decided_slots};

/// The slots that a legal list of events decides are a schedule, from slot 0 and all pointers at port 0.
/// Their rows name none but the switch's ports, and are kept until they are served.
pub fn histories_are_schedules()
    ensures schedule { (s : Setup) (events : List Event) → 0 < s.ports → s.ports ≤ MAX_PORTS → IsLegal s events
        → IsSchedule s.ports s.rounds 0 (places_at_first s.ports) (decided_slots s events) }
    ensures within { (s : Setup) (events : List Event) → IsLegal s events → All (λ slot. AreWithin s.ports slot.rows) (decided_slots s events) }
    ensures kept { (s : Setup) (events : List Event) → 0 < s.ports → s.ports ≤ MAX_PORTS → IsLegal s events → AreKept s.ports (decided_slots s events) }
{}

/// So any of them, one after the other, that are clean at a level are a window of the laws on waiting.
pub fn histories_have_windows()
    ensures { (s : Setup) (events : List Event) (level first count : ℕ) → 0 < s.ports → s.ports ≤ MAX_PORTS → IsLegal s events → level < LEVELS
        → All (λ slot. IsClean s.ports level slot.rows) (take count (drop first (decided_slots s events)))
        → first ≤ length (decided_slots s events)
        → IsWindow s.ports s.rounds first level (places_at s (posted events) first) (take count (drop first (decided_slots s events))) }
{}
