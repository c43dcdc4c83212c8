//! Laws of the numbers of a simulation, as the contracts of functions that do nothing.

ghost use Rattle.std.specs.Prelude.{ℕ, ◌≤◌};
ghost use Rattle.simulated_slots.specs.Jobs.{JobValue};
ghost use Rattle.simulated_runs.specs.Laws.{IsConserved, IsLittle};
ghost use Rattle.simulated_runs.specs.Numbers.{numbers_after};

/// No cell is lost and none is made: those that came in measured slots and those that waited before these were dropped,
/// departed, or wait.
pub fn cells_are_conserved()
    ensures { (job : JobValue) (t : ℕ) → job.settings.warm_up ≤ t → IsConserved (numbers_after job t) }
{}

/// Little's law, exactly and of each run: what cells waited in measured slots, in all, is what the departed cells' delays
/// tell, and the ages of the cells that wait.
pub fn littles_law_holds()
    ensures { (job : JobValue) (t : ℕ) → job.settings.warm_up ≤ t → IsLittle (numbers_after job t) }
{}
