//! Laws of slots, as the contracts of functions that do nothing.

ghost use Rattle.std.specs.Prelude.{◌≡◌, ℕ, ◌<◌, List};
ghost use Rattle.rotating_pick.specs.declared.kinds.Kind.{Kind};
ghost use Rattle.rotating_pick.specs.declared.limits.TheConstants.{LEVELS};
ghost use Rattle.slot_match.specs.declared.rows.Row.{Row};
ghost use Rattle.slot_match.specs.Rows.{Names, row_of, AreWithin};
ghost use Rattle.slot_match.specs.Matches.{Serves, IsMatch};
ghost use Rattle.pointer_state.specs.Places.{Places, AreAtPorts, ArePointing};
ghost use Rattle.islip_rounds.specs.Slots.{IsSlot as IsIslipSlot};
ghost use Rattle.eslip_rounds.specs.Slots.{Decision, AreMoved, IsSlot};
ghost use Rattle.eslip_rounds.specs.Schedulers.{IsSchedulerBy, IsScheduler};
ghost use Rattle.eslip_rounds.specs.Decisions.{decision_of};
ghost use Rattle.eslip_rounds.specs.OneLevel.{AreUnicastOf, unicast_of, pointers_of, inputs_of};

/// A slot leaves no choice: two decisions of the same slot, with pointers at ports, are one.
pub fn one_decision()
    ensures { (n rounds t : ℕ) (rows : List Row) (before : Places) (a b : Decision) → AreWithin n rows → AreAtPorts before → before.ports ≡ n
        → AreAtPorts a.places → AreAtPorts b.places → IsSlot n rounds t rows before a → IsSlot n rounds t rows before b → a ≡ b }
{}

/// What the function of rows and pointers gives is what the slot decides, with its pointers at ports.
pub fn decision_is_of_the_slot()
    ensures slot { (n rounds t : ℕ) (rows : List Row) (before : Places) → AreWithin n rows → AreAtPorts before → before.ports ≡ n
        → IsSlot n rounds t rows before (decision_of n rounds t rows before) }
    ensures at_ports { (n rounds t : ℕ) (rows : List Row) (before : Places) → AreWithin n rows → AreAtPorts before → before.ports ≡ n
        → AreAtPorts (decision_of n rounds t rows before).places }
{}

/// That function is a scheduler, and its pointers move as those of a slot do.
pub fn decisions_are_scheduled()
    ensures scheduler { IsScheduler decision_of }
    ensures moves { IsSchedulerBy AreMoved decision_of }
{}

/// The match of a slot is a match: no output is matched twice, and no input but with the outputs of one
/// multicast head.
pub fn decisions_are_matches()
    ensures { (n rounds t : ℕ) (rows : List Row) (before : Places) (a : Decision) → AreWithin n rows → AreAtPorts before → before.ports ≡ n
        → IsSlot n rounds t rows before a → IsMatch n a.matched }
{}

/// An input is matched only with outputs that its row names, at that level with that kind.
pub fn matched_outputs_are_named()
    ensures { (n rounds t : ℕ) (rows : List Row) (before : Places) (a : Decision) → IsSlot n rounds t rows before a → (i j level : ℕ) (kind : Kind)
        → Serves a.matched i j level kind → Names (row_of rows i) level kind j }
{}

/// After a slot every pointer is at one of the switch's ports again.
pub fn pointers_stay_at_ports()
    ensures { (n rounds t : ℕ) (rows : List Row) (before : Places) (a : Decision) → AreWithin n rows → AreAtPorts before → before.ports ≡ n
        → IsSlot n rounds t rows before a → (level : ℕ) → level < LEVELS → ArePointing n level a.places }
{}

/// In a slot in which some row names an output, at least one pair is matched.
pub fn something_is_matched()
    ensures { (n rounds t : ℕ) (rows : List Row) (before : Places) (a : Decision) → 0 < rounds → AreWithin n rows → AreAtPorts before → before.ports ≡ n
        → IsSlot n rounds t rows before a → (i j level : ℕ) (kind : Kind) → i < n → Names (row_of rows i) level kind j → (x y l : ℕ) × (k : Kind)
        × Serves a.matched x y l k }
{}

/// A slot whose rows name unicast of one level alone is a slot of iSLIP: its match, its numbers and
/// that level's pointers.
pub fn one_level_is_islip()
    ensures { (n rounds t level : ℕ) (rows : List Row) (before : Places) (a : Decision) → level < LEVELS → AreWithin n rows → AreAtPorts before
        → before.ports ≡ n → AreUnicastOf level rows → IsSlot n rounds t rows before a
        → IsIslipSlot n rounds (unicast_of level rows) (pointers_of level before) (inputs_of a.matched) a.numbers (pointers_of level a.places) }
{}
