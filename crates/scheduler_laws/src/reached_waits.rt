//! Laws about the longest waits at line rate, as the contracts of functions that do nothing. They hold of the scheduler's
//! definitions.

ghost use Rattle.std.specs.Prelude.{◌≡◌, ℕ, ◌+◌, ◌*◌, ◌<◌, ◌≤◌, List, length, drop};
ghost use Rattle.rotating_pick.specs.declared.limits.TheConstants.{MAX_PORTS};
ghost use Rattle.eslip_rounds.specs.Schedules.{DecidedSlot};
ghost use Rattle.service_bound.specs.Waits.{longest_service, longest_service_in_one_round};
ghost use Rattle.scheduler_laws.specs.Reached.{AreFedAtLineRate, ComesLastAtLineRate};
ghost use Rattle.scheduler_laws.specs.ReachedByFirm.{ComesLastByFirmAtLineRate};

/// With one round the bound at line rate is reached, for three ports or more: from all pointers at port 0 and no requests on
/// there are slots to which cells come, at most one to each input in a slot, and in which each input asks for exactly the
/// outputs for which cells wait. In them queue (0, 0) at level 0 is posted in every slot from slot `n + 1` on and served in
/// the last of these alone, which are `2 * n * n - 3 * n + 1` slots.
pub fn one_round_is_reached_by_cells()
    ensures { (n : ℕ) → 2 < n → n ≤ MAX_PORTS
        → (slots : List DecidedSlot) × AreFedAtLineRate n slots × ComesLastAtLineRate n 1 (n + 1) slots
        × (length (drop (n + 1) slots) + 1 ≡ longest_service_in_one_round n) }
{}

/// With two rounds or more it is reached too, by `n * (n * n - n + 2) / 2 - 1` slots.
pub fn more_rounds_are_reached_by_cells()
    ensures { (n rounds : ℕ) → 2 < n → n ≤ MAX_PORTS → 1 < rounds
        → (slots : List DecidedSlot) × AreFedAtLineRate n slots × ComesLastAtLineRate n rounds (n + 1) slots
        × (length (drop (n + 1) slots) + 1 ≡ longest_service n) }
{}

/// Under FIRM, line rate costs nothing where each slot has one round: for two ports
/// or more such slots are `n * n`.
pub fn firm_is_reached_by_cells()
    ensures { (n : ℕ) → 1 < n → n ≤ MAX_PORTS
        → (slots : List DecidedSlot) × AreFedAtLineRate n slots × ComesLastByFirmAtLineRate n 1 (n + 1) slots × (length (drop (n + 1) slots) ≡ n * n) }
{}

/// With two rounds or more it is so from five ports on. For two to four ports such slots are `n * n - 1` then.
pub fn firm_is_reached_in_more_rounds_by_cells()
    ensures square { (n rounds : ℕ) → 4 < n → n ≤ MAX_PORTS → 1 < rounds
        → (slots : List DecidedSlot) × AreFedAtLineRate n slots × ComesLastByFirmAtLineRate n rounds (n + 1) slots
        × (length (drop (n + 1) slots) ≡ n * n) }
    ensures one_less { (n rounds : ℕ) → 1 < n → n < 5 → 1 < rounds
        → (slots : List DecidedSlot) × AreFedAtLineRate n slots × ComesLastByFirmAtLineRate n rounds (n + 1) slots
        × (length (drop (n + 1) slots) + 1 ≡ n * n) }
{}
