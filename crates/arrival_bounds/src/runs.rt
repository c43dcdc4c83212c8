//! Laws on runs of plans, from how the plan's packets arrive alone: the contracts of functions that do nothing.

ghost use Rattle.std.specs.Prelude.{ℕ, ◌+◌, ◌-◌, ◌*◌, ◌<◌, ◌≤◌, sum_by};
ghost use Rattle.rotating_pick.specs.declared.limits.TheConstants.{LEVELS};
ghost use Rattle.eslip_rounds.specs.Schedulers.{Scheduler};
ghost use Rattle.switch_plan.specs.GoodPlans.{SwitchPlan, packets_in};
ghost use Rattle.switch_plan.specs.Totals.{greatest_slots};
ghost use Rattle.run_laws.specs.Runs.{ports_of};
ghost use Rattle.run_laws.specs.Ends.{IsLengthUnder};
ghost use Rattle.queue_measures.specs.Sizing.{deepest_under, DropsNothing};
ghost use Rattle.arrival_bounds.specs.Arrivals.{IsShaped, ArePairsShaped, ArePairsFew, HasCurves, AreCurvesLow, HasWindows};
ghost use Rattle.arrival_bounds.specs.Arrivals.{AreHeldFew, arriving_in, AreQueuesShaped, IsPairFew};
ghost use Rattle.arrival_bounds.specs.TrafficContracts.{Contracts, KeepsContracts, curve_of};
ghost use Rattle.arrival_bounds.specs.Waits.{IsUnicastRun, WaitsAtMost, QueueWaits, HoldByLine, HoldsAtMost, waiting_under, last_slots, HoldWhatComes};

use queue_measures::sizes;

/// Traffic contracts, several for each input and each output, give it an arrival curve: in so many slots in a row no more cells arrive
/// than are in as many windows of a contract as cover the slots, by the contract that allows least.
pub fn contracts_give_curves()
    ensures { (plan : SwitchPlan) (contracts_in contracts_out : ℕ → Contracts) → KeepsContracts plan contracts_in contracts_out
        → HasCurves plan (λ i. curve_of (contracts_in i)) (λ j. curve_of (contracts_out j)) }
{}

/// Where in any `2 * most + 1` slots in a row at most `most + 2` cells arrive at an input and for an output, both together and
/// wherever a packet goes from the one to the other, no cell waits more than `most` slots. Arrival curves of the lines, each
/// with its own, may say so. So it is where in any `4 * cells - 3` slots in a row at most `cells` cells arrive at
/// each input, and at most `cells` for each output: no cell waits more than `2 * cells - 2` slots. And no cell ever waits
/// longer than as many slots as all cells of any input and all for any output are, both together, but two.
pub fn run_delays_are_short()
    ensures pairs { (scheduler : Scheduler) (plan : SwitchPlan) (most : ℕ) → IsUnicastRun scheduler plan
        → ArePairsShaped plan (2 * most + 1) (most + 2) → WaitsAtMost scheduler plan most }
    ensures curves { (scheduler : Scheduler) (plan : SwitchPlan) (most_in most_out : ℕ → ℕ → ℕ) (most : ℕ) → IsUnicastRun scheduler plan
        → HasCurves plan most_in most_out → AreCurvesLow plan most_in most_out (2 * most + 1) (most + 2) → WaitsAtMost scheduler plan most }
    ensures lines { (scheduler : Scheduler) (plan : SwitchPlan) (most cells : ℕ) → IsUnicastRun scheduler plan
        → IsShaped plan (2 * most + 1) cells → 2 * cells ≤ most + 2 → WaitsAtMost scheduler plan most }
    ensures window { (scheduler : Scheduler) (plan : SwitchPlan) (cells : ℕ) → IsUnicastRun scheduler plan → 0 < cells
        → IsShaped plan (4 * cells - 3) cells → WaitsAtMost scheduler plan (2 * cells - 2) }
    ensures all { (scheduler : Scheduler) (plan : SwitchPlan) (cells : ℕ) → IsUnicastRun scheduler plan → ArePairsFew plan cells
        → WaitsAtMost scheduler plan (cells - 2) }
{}

/// One queue alone, from what arrives at its input and for its output: no cell of it waits longer than as many slots as all
/// these cells are, but two, whatever comes to the other inputs and outputs.
pub fn one_queue_waits_for_its_lines()
    ensures { (scheduler : Scheduler) (plan : SwitchPlan) (i j l cells : ℕ) → IsUnicastRun scheduler plan → i < ports_of plan → j < ports_of plan
        → l < LEVELS → IsPairFew plan i j cells → QueueWaits scheduler plan i j l (cells - 2) }
{}

/// Where so few cells wait at each input and for each output, and so few arrive for both in `most` slots in a row, that these are at
/// most `most + 2` cells, no cell waits more than `most` slots. So it is, with `2 * slots` slots, where at most `cells` cells
/// arrive at each input and for each output in any `slots` slots in a row, and three times the cells are at most the slots and one.
pub fn small_buffers_are_soon_empty()
    ensures held { (scheduler : Scheduler) (plan : SwitchPlan) (held_in held_out : ℕ → ℕ) (most : ℕ) → IsUnicastRun scheduler plan
        → HoldByLine scheduler plan held_in held_out → AreHeldFew plan held_in held_out most → WaitsAtMost scheduler plan most }
    ensures third { (scheduler : Scheduler) (plan : SwitchPlan) (slots cells : ℕ) → IsUnicastRun scheduler plan → 0 < slots
        → IsShaped plan slots cells → 3 * cells ≤ slots + 1 → WaitsAtMost scheduler plan (2 * slots) }
{}

/// Where no cell of a queue waits more than `most` slots, the queue never holds more cells than arrive for it in `most + 1` slots in
/// a row that end with the slot. Where no cell waits longer, so it is of each input and each output too.
pub fn what_waits_came_recently()
    ensures queue { (scheduler : Scheduler) (plan : SwitchPlan) (i j l t most : ℕ) → IsUnicastRun scheduler plan → i < ports_of plan
        → QueueWaits scheduler plan i j l most
        → waiting_under scheduler plan i j l t ≤ sum_by (arriving_in plan i j l) (last_slots most t) }
    ensures all { (scheduler : Scheduler) (plan : SwitchPlan) (most : ℕ) → IsUnicastRun scheduler plan → WaitsAtMost scheduler plan most
        → HoldWhatComes scheduler plan most }
{}

/// Where in any `3 * cells - 1` slots in a row at most `cells` cells arrive at each input, and at most `cells` for each
/// output, no input ever holds more than `cells` cells, and no more than `cells` ever wait for an output. Where each line has
/// arrival curves and a window of its own that is long enough, no more ever wait there than arrive in its window. And where
/// no input holds more than so many cells, no queue of the run is ever deeper.
pub fn run_buffers_are_small()
    ensures any { (scheduler : Scheduler) (plan : SwitchPlan) (slots cells : ℕ) → IsUnicastRun scheduler plan → 0 < slots
        → IsShaped plan slots cells → 3 * cells ≤ slots + 1 → HoldsAtMost scheduler plan cells }
    ensures window { (scheduler : Scheduler) (plan : SwitchPlan) (cells : ℕ) → IsUnicastRun scheduler plan → 0 < cells
        → IsShaped plan (3 * cells - 1) cells → HoldsAtMost scheduler plan cells }
    ensures lines { (scheduler : Scheduler) (plan : SwitchPlan) (most_in most_out : ℕ → ℕ → ℕ) (slots_in slots_out : ℕ → ℕ)
        → IsUnicastRun scheduler plan → HasCurves plan most_in most_out → HasWindows plan most_in most_out slots_in slots_out
        → HoldByLine scheduler plan (λ i. most_in i (slots_in i)) (λ j. most_out j (slots_out j)) }
    ensures deepest { (scheduler : Scheduler) (plan : SwitchPlan) (cells slots : ℕ) → IsUnicastRun scheduler plan
        → HoldsAtMost scheduler plan cells → deepest_under scheduler plan slots ≤ cells }
{}

/// Where no cell waits more than `most` slots, the run ends within `most + 1` slots after the arrival slots. So it ends, where all
/// cells of any input and all for any output are two or more, as many slots after the last arrival as these cells, or before.
pub fn runs_end_soon()
    ensures waits { (scheduler : Scheduler) (plan : SwitchPlan) (most slots : ℕ) → IsUnicastRun scheduler plan → WaitsAtMost scheduler plan most
        → IsLengthUnder scheduler plan slots → slots ≤ greatest_slots (packets_in plan) + most + 1 }
    ensures all { (scheduler : Scheduler) (plan : SwitchPlan) (cells slots : ℕ) → IsUnicastRun scheduler plan → ArePairsFew plan cells
        → IsLengthUnder scheduler plan slots → slots ≤ greatest_slots (packets_in plan) + (cells - 2) + 1 }
{}

/// So queues of as many cells drop nothing: where in any `3 * cells - 1` slots in a row at most `cells` cells arrive at each
/// input, and at most `cells` for each output, every packet is admitted with each depth from `cells` on. So it is where each line has
/// a window of its own, with each depth from the most cells of an input's window on. And where no cell waits more than `most` slots
/// by what arrives, it is so with each depth from the most cells on that arrive for a queue in `most + 1` slots in a row.
pub fn runs_drop_nothing()
    ensures any { (scheduler : Scheduler) (plan : SwitchPlan) (window cells slots : ℕ) → IsUnicastRun scheduler plan → 0 < window
        → IsShaped plan window cells → 3 * cells ≤ window + 1 → cells ≤ plan.depth → IsLengthUnder scheduler plan slots
        → DropsNothing scheduler plan slots }
    ensures window { (scheduler : Scheduler) (plan : SwitchPlan) (cells slots : ℕ) → IsUnicastRun scheduler plan → 0 < cells
        → IsShaped plan (3 * cells - 1) cells → cells ≤ plan.depth → IsLengthUnder scheduler plan slots → DropsNothing scheduler plan slots }
    ensures lines { (scheduler : Scheduler) (plan : SwitchPlan) (most_in most_out : ℕ → ℕ → ℕ) (slots_in slots_out : ℕ → ℕ) (slots : ℕ)
        → IsUnicastRun scheduler plan → HasCurves plan most_in most_out → HasWindows plan most_in most_out slots_in slots_out
        → ((i : ℕ) → i < ports_of plan → most_in i (slots_in i) ≤ plan.depth) → IsLengthUnder scheduler plan slots
        → DropsNothing scheduler plan slots }
    ensures queues { (scheduler : Scheduler) (plan : SwitchPlan) (most slots : ℕ) → IsUnicastRun scheduler plan
        → ArePairsShaped plan (2 * most + 1) (most + 2) → AreQueuesShaped plan (most + 1) plan.depth → IsLengthUnder scheduler plan slots
        → DropsNothing scheduler plan slots }
{
    sizes::runs_are_sized();
    sizes::greatest_depth_drops_nothing();
    sizes::depths_are_good();
}
