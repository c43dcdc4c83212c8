//! Laws of parallel iterative matching, as the contracts of functions that do nothing.

ghost use Rattle.std.specs.Prelude.{◌≡◌, ◌<◌, ℕ, List, slice_index};
ghost use Rattle.rotating_pick.specs.PortSets.{Has};
ghost use Rattle.rotating_pick.specs.declared.kinds.Kind.{Kind};
ghost use Rattle.rotating_pick.specs.declared.kinds.Kind.TheVariants.{Uni};
ghost use Rattle.slot_match.specs.declared.rows.Row.{Row};
ghost use Rattle.slot_match.specs.Matches.{Serves};
ghost use Rattle.slot_match.specs.Rows.{Names, row_of};
ghost use Rattle.random_picks.specs.Rounds.{pim_decision};

/// Each pair of a match was asked: the row of the input names the output, as unicast of level 0, of which the match is.
pub fn pairs_are_asked()
    ensures { (n rounds stream : ℕ) (rows : List Row) (i j level : ℕ) (kind : Kind) → Serves (pim_decision n rounds rows stream).matched i j level kind
        → (i < n) × (level ≡ 0) × (kind ≡ Uni) × Names (row_of rows i) 0 Uni j }
{}
