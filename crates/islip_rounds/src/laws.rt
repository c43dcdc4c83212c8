//! Laws on slots of one level of unicast.

ghost use Rattle.std.specs.Prelude.{◌≡◌, ℕ, ◌<◌, List, Option, slice_index};
ghost use Rattle.rotating_pick.specs.PortSets.{Has};
ghost use Rattle.islip_rounds.specs.declared.numbers.RoundsUsed.{RoundsUsed};
ghost use Rattle.islip_rounds.specs.declared.unicast.UniPointers.{UniPointers};
ghost use Rattle.islip_rounds.specs.Rounds.{Feeds};
ghost use Rattle.islip_rounds.specs.Slots.{IsSlot, AreAlike};

/// A slot of one round in which some input asks some output matches some pair that was asked.
pub fn some_pair_is_matched()
    ensures { (n i j : ℕ) (asks : List ℕ) (before after : UniPointers) (matched : List (Option ℕ)) (numbers : RoundsUsed)
        → ((k : ℕ) → k < n → slice_index before.grant k < n) → ((k : ℕ) → k < n → slice_index before.accept k < n)
        → IsSlot n 1 asks before matched numbers after → i < n → j < n → Has (slice_index asks i) j → (x : ℕ) × (y : ℕ) × (x < n) × (y < n)
        × Has (slice_index asks x) y × Feeds matched x y }
{}

/// A slot leaves no choice: two results of the same slot have the same input at each output, the same
/// numbers and each pointer at the same port.
pub fn one_slot()
    ensures { (n rounds : ℕ) (asks : List ℕ) (before p q : UniPointers) (a b : List (Option ℕ)) (x y : RoundsUsed) → IsSlot n rounds asks before a x p
        → IsSlot n rounds asks before b y q → AreAlike a b x y p q }
{}
