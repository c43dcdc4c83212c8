//! Laws of the ideal switch, as the contracts of functions that do nothing.

ghost use Rattle.std.specs.Prelude.{◌≡◌, ℕ, suc, ◌+◌, ◌<◌, ◌≤◌, List, map, length, min, sum};
ghost use Rattle.card_core.specs.Plans.{Plan};
ghost use Rattle.output_queued.specs.Ideal.{total, given};
ghost use Rattle.output_queued.specs.declared.coming.Coming.{Coming};
ghost use Rattle.output_queued.specs.Switches.{Matched, comes, card_for, IsSwitch, AreCards, AreServed, AreEmptied};
ghost use Rattle.output_queued.specs.Lines.{ideal, ran, rises, line_of};

/// With each slot an output of the ideal switch has given out one cell more than before, or all that came,
/// whichever is less.
pub fn ideal_is_the_recurrence()
    ensures { (comes : ℕ → ℕ) (t : ℕ) → given comes (suc t) ≡ min (total comes (suc t)) (given comes t + 1) }
{}

/// Where each slot serves only what its rows name, the ideal switch is never behind: at the end of no slot
/// has the run fed more cells to an output. Nor has it fed more than came.
pub fn reference_is_never_behind()
    ensures came { (cards : List Plan) (matches : List Matched) (j t : ℕ) → AreCards cards → AreServed cards matches → t ≤ length matches
        → ran matches j t ≤ total (comes cards matches j) t }
    ensures ahead { (cards : List Plan) (matches : List Matched) (j t : ℕ) → AreCards cards → AreServed cards matches → t ≤ length matches
        → ran matches j t ≤ ideal cards matches j t }
{}

/// Where in addition no cell waits any more, both have served all cells that came, the run no earlier, and
/// the extra is the sum of the delays: of the slots in which the run served the output, less those in which
/// the ideal switch did.
pub fn whole_runs_serve_the_same()
    ensures count { (cards : List Plan) (matches : List Matched) (j : ℕ) → AreCards cards → AreServed cards matches → AreEmptied cards matches
        → j < length cards → ran matches j (length matches) ≡ ideal cards matches j (length matches) }
    ensures all { (cards : List Plan) (matches : List Matched) (j : ℕ) → AreCards cards → AreServed cards matches → AreEmptied cards matches
        → j < length cards → ran matches j (length matches) ≡ total (comes cards matches j) (length matches) }
    ensures ends { (cards : List Plan) (matches : List Matched) (j : ℕ) → AreCards cards → AreServed cards matches → AreEmptied cards matches
        → j < length cards → (line_of cards matches j).ends ≤ (line_of cards matches j).runs }
    ensures delays { (cards : List Plan) (matches : List Matched) (j : ℕ) → AreCards cards → AreServed cards matches → AreEmptied cards matches
        → j < length cards
        → (line_of cards matches j).extra + sum (rises (ideal cards matches j) (length matches)) ≡ sum (rises (ran matches j) (length matches)) }
{}

/// What a reference's inputs are to send are plans that cards can be made of.
pub fn inputs_are_cards()
    ensures { (ports depth : ℕ) (inputs : List (List Coming)) → IsSwitch ports depth inputs → AreCards (map (card_for ports depth) inputs) }
{}
