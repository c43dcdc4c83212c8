//! Laws of events at the board, as the contracts of functions that do nothing.

ghost use Rattle.std.specs.Prelude.{◌≡◌, ◌↔◌, ℕ, ◌+◌, ◌<◌, ◌≤◌, Some, List, [], ◌∷◌, ◌++◌, length, map, IsTrue};
ghost use Rattle.std.specs.List.{range_with_len};
ghost use Rattle.rotating_pick.specs.declared.limits.TheConstants.{MAX_PORTS};
ghost use Rattle.cell_cutter.specs.declared.cell.Cell.{Cell};
ghost use Rattle.slot_match.specs.declared.matching.Fed.{Fed};
ghost use Rattle.slot_match.specs.declared.matching.Served.{Served};
ghost use Rattle.slot_match.specs.Matches.{fed_of};
ghost use Rattle.slot_match.specs.Rows.{AreWithin};
ghost use Rattle.slot_match.specs.Keeping.{Keeps};
ghost use Rattle.slot_histories.specs.declared.events.Event.{Event};
ghost use Rattle.slot_histories.specs.Events.{Setup, posts_of, takes_of, decides, posted};
ghost use Rattle.slot_histories.specs.Slots.{slot_rows, decision_at, served_at, crossed, taken_at};
ghost use Rattle.slot_histories.specs.Legal.{Allows, IsLegal};
ghost use Rattle.slot_histories.specs.Answers.{takings_of, journal_of};
ghost use Rattle.slot_histories.specs.Columns.{column_of, column_after, IsTold};
ghost use Rattle.slot_histories.specs.Parts.{IsPartOf, IsCellOf};
ghost use Rattle.slot_histories.specs.Tests.{is_allowed};

/// The order in which the cards come does not matter: two legal lists of events that decide as many
/// slots, in which each card posts the same and takes as often, have one journal, and each card takes
/// the same.
pub fn order_is_free()
    ensures journal { (s : Setup) (a b : List Event) → IsLegal s a → IsLegal s b → decides a ≡ decides b
        → ((i : ℕ) → i < s.ports → posts_of i a ≡ posts_of i b) → ((i : ℕ) → i < s.ports → takes_of i a ≡ takes_of i b)
        → journal_of s a ≡ journal_of s b }
    ensures takings { (s : Setup) (a b : List Event) → IsLegal s a → IsLegal s b → decides a ≡ decides b
        → ((i : ℕ) → i < s.ports → posts_of i a ≡ posts_of i b) → ((i : ℕ) → i < s.ports → takes_of i a ≡ takes_of i b)
        → (i : ℕ) → i < s.ports → takings_of s i a ≡ takings_of s i b }
{}

/// The rows of a legal list of events name none but the switch's ports.
pub fn rows_are_within()
    ensures { (s : Setup) (events : List Event) (t : ℕ) → IsLegal s events → t < decides events → AreWithin s.ports (slot_rows s.ports (posted events) t) }
{}

/// Requests stay until they are served: the row that a card posts next keeps the one before, where the
/// next slot is decided and where the card has posted it and it is not decided yet.
pub fn rows_are_kept()
    ensures decided { (s : Setup) (events : List Event) (i t : ℕ) → 0 < s.ports → s.ports ≤ MAX_PORTS → IsLegal s events → t + 1 < decides events → i < s.ports
        → Keeps (decision_at s (posted events) t).matched i (posted events i t).row (posted events i (t + 1)).row }
    ensures posted { (s : Setup) (events : List Event) (i t : ℕ) → 0 < s.ports → s.ports ≤ MAX_PORTS → IsLegal s events → t + 1 < length (posts_of i events)
        → i < s.ports
        → Keeps (decision_at s (posted events) t).matched i (posted events i t).row (posted events i (t + 1)).row }
{}

/// What a card takes in a legal list of events is its part of slots 0, 1, 2 and so on.
pub fn takings_are_in_order()
    ensures { (s : Setup) (events : List Event) (i : ℕ) → IsLegal s events → i < s.ports
        → takings_of s i events ≡ map (taken_at s (posted events) i) (range_with_len 0 (takes_of i events)) }
{}

/// A column grows by its card's posts and takes alone, each at the end.
pub fn columns_grow()
    ensures { (s : Setup) (i : ℕ) (events : List Event) (event : Event) → column_of s i (events ++ event ∷ []) ≡ column_after s i events event }
{}

/// After a legal list of events a card's column tells its slot, whether it is done, its last row and what it
/// was served last.
pub fn columns_tell_all()
    ensures { (s : Setup) (i : ℕ) (events : List Event) → IsLegal s events → i < s.ports → IsTold s i events (column_of s i events) }
{}

/// What a slot serves a card is asked for in the row that the card posted for it: the part has an output,
/// lies in the row's set of its level and kind, and has one output for unicast.
pub fn parts_are_requested()
    ensures { (s : Setup) (events : List Event) (i t : ℕ) (served : Served) → 0 < s.ports → s.ports ≤ MAX_PORTS → IsLegal s events → t < decides events
        → i < s.ports
        → served_at s (posted events) i t ≡ Some served → IsPartOf (posted events i t).row served }
{}

/// A cell that crosses to an output has the form of a cell, and is of the input, level and kind that fed
/// the output in the slot before.
pub fn crossing_cells_are_granted()
    ensures { (s : Setup) (events : List Event) (j t : ℕ) (cell : Cell) → 0 < s.ports → s.ports ≤ MAX_PORTS → IsLegal s events → t + 1 < decides events
        → crossed s (posted events) j (t + 1) ≡ Some cell
        → (fed : Fed) × (fed_of (decision_at s (posted events) t).matched j ≡ Some fed) × IsCellOf fed cell }
{}

/// After a legal list of events the test of an event tells whether it may come.
pub fn test_tells_what_may_come()
    ensures { (s : Setup) (events : List Event) (event : Event) → IsLegal s events → IsTrue (is_allowed s events event) ↔ Allows s events event }
{}
