//! Laws of matches, as the contracts of functions that do nothing.

ghost use Rattle.std.specs.Prelude.{◌≡◌, ℕ, Some, None, ◌↔◌, List, Option};
ghost use Rattle.slot_match.specs.declared.rows.Row.{Row};
ghost use Rattle.slot_match.specs.declared.matching.Fed.{Fed};
ghost use Rattle.slot_match.specs.declared.matching.Served.{Served};
ghost use Rattle.slot_match.specs.Matches.{IsMatch, IsFreeInput, IsServed};
ghost use Rattle.slot_match.specs.Parts.{served_of};
ghost use Rattle.slot_match.specs.Keeping.{KeepsRest, Keeps, Gives};

/// An input's next row keeps its last one by its own part of the match exactly where it keeps it over
/// the whole match.
pub fn keeping_needs_only_the_part()
    ensures { (n i : ℕ) (matched : List (Option Fed)) (old new : Row) → IsMatch n matched → KeepsRest (Gives (served_of matched i)) old new
        ↔ Keeps matched i old new }
{}

/// An input's part of a match is the one that serves it, and it has none exactly where it is free.
pub fn part_is_what_serves()
    ensures part { (n i : ℕ) (matched : List (Option Fed)) (part : Served) → IsMatch n matched → (served_of matched i ≡ Some part) ↔ IsServed matched i part }
    ensures none { (n i : ℕ) (matched : List (Option Fed)) → IsMatch n matched → (served_of matched i ≡ None) ↔ IsFreeInput matched i }
{}
