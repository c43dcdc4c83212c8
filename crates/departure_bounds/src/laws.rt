//! Laws of packet delays, as the contracts of functions that do nothing.

ghost use Rattle.std.specs.Prelude.{ℕ, ◌+◌, ◌-◌, ◌*◌, ◌<◌};
ghost use Rattle.rotating_pick.specs.declared.limits.TheConstants.{LEVELS};
ghost use Rattle.eslip_rounds.specs.Schedulers.{Scheduler, IsScheduler};
ghost use Rattle.switch_plan.specs.GoodPlans.{SwitchPlan, IsGood};
ghost use Rattle.run_laws.specs.Runs.{ports_of};
ghost use Rattle.run_laws.specs.Ends.{IsLengthUnder};
ghost use Rattle.arrival_bounds.specs.Arrivals.{IsShaped, ArePairsShaped, ArePairsFew, HasCurves, AreCurvesLow, IsPairFew};
ghost use Rattle.arrival_bounds.specs.Waits.{IsUnicastRun, WaitsAtMost, QueueWaits};
ghost use Rattle.departure_bounds.specs.Delays.{DepartWithin, QueueDepartsWithin};
ghost use Rattle.departure_bounds.specs.Bounds.{ArrivalBounds};

use arrival_bounds::runs as bounds;
use run_laws::departures;

/// Where no cell waits more than `most` slots, each packet departs at most `most + 1` slots after its arrival: all its cells enter a
/// queue in its arrival slot, and a cell crosses in the slot after that in which it is granted. So it is of the packets of one
/// queue.
pub fn packets_depart_soon()
    ensures all { (scheduler : Scheduler) (plan : SwitchPlan) (slots most : ℕ) → IsUnicastRun scheduler plan → WaitsAtMost scheduler plan most
        → IsLengthUnder scheduler plan slots → DepartWithin scheduler plan slots (most + 1) }
    ensures queue { (scheduler : Scheduler) (plan : SwitchPlan) (slots i j l most : ℕ) → IsUnicastRun scheduler plan
        → QueueWaits scheduler plan i j l most → IsLengthUnder scheduler plan slots → QueueDepartsWithin scheduler plan slots i j l (most + 1) }
{
    departures::packets_depart();
}

/// Where in any `2 * most + 1` slots in a row at most `most + 2` cells arrive at an input and for an output, both together and
/// wherever a packet goes from the one to the other, each packet departs at most `most + 1` slots after its arrival. So it is by
/// arrival curves, and where in any `4 * cells - 3` slots in a row at most `cells` cells arrive at each input and at most `cells`
/// for each output: at most `2 * cells - 1` slots after. With `3 * cells - 1` slots in a row it is `6 * cells - 1`. And no
/// packet takes longer than as many slots as all cells of its input and for its output are, but one, where these are two or more.
pub fn departures_are_bounded()
    ensures pairs { (scheduler : Scheduler) (plan : SwitchPlan) (slots most : ℕ) → IsUnicastRun scheduler plan
        → ArePairsShaped plan (2 * most + 1) (most + 2) → IsLengthUnder scheduler plan slots → DepartWithin scheduler plan slots (most + 1) }
    ensures curves { (scheduler : Scheduler) (plan : SwitchPlan) (most_in most_out : ℕ → ℕ → ℕ) (slots most : ℕ) → IsUnicastRun scheduler plan
        → HasCurves plan most_in most_out → AreCurvesLow plan most_in most_out (2 * most + 1) (most + 2) → IsLengthUnder scheduler plan slots
        → DepartWithin scheduler plan slots (most + 1) }
    ensures quarter { (scheduler : Scheduler) (plan : SwitchPlan) (slots cells : ℕ) → IsUnicastRun scheduler plan → 0 < cells
        → IsShaped plan (4 * cells - 3) cells → IsLengthUnder scheduler plan slots → DepartWithin scheduler plan slots (2 * cells - 1) }
    ensures third { (scheduler : Scheduler) (plan : SwitchPlan) (slots cells : ℕ) → IsUnicastRun scheduler plan → 0 < cells
        → IsShaped plan (3 * cells - 1) cells → IsLengthUnder scheduler plan slots → DepartWithin scheduler plan slots (6 * cells - 1) }
    ensures every { (scheduler : Scheduler) (plan : SwitchPlan) (slots cells : ℕ) → IsUnicastRun scheduler plan → ArePairsFew plan cells
        → IsLengthUnder scheduler plan slots → DepartWithin scheduler plan slots (cells - 2 + 1) }
    ensures queue { (scheduler : Scheduler) (plan : SwitchPlan) (slots i j l cells : ℕ) → IsUnicastRun scheduler plan → i < ports_of plan
        → j < ports_of plan → l < LEVELS → IsPairFew plan i j cells → IsLengthUnder scheduler plan slots
        → QueueDepartsWithin scheduler plan slots i j l (cells - 2 + 1) }
{
    packets_depart_soon();
    bounds::run_delays_are_short();
    bounds::one_queue_waits_for_its_lines();
    bounds::small_buffers_are_soon_empty();
}

/// What is known of a run before it, in one record: where each packet goes to one output and a slot has as many rounds as
/// ports, or more, delays, buffers, depths that drop nothing, departures and the run's end are bounded by what arrives.
pub fn arrivals_bound_runs()
    ensures { (scheduler : Scheduler) (plan : SwitchPlan) (slots : ℕ) → IsScheduler scheduler → IsGood plan → IsLengthUnder scheduler plan slots
        → ArrivalBounds scheduler plan slots }
{
    bounds::run_delays_are_short();
    bounds::small_buffers_are_soon_empty();
    bounds::one_queue_waits_for_its_lines();
    bounds::what_waits_came_recently();
    bounds::run_buffers_are_small();
    bounds::runs_drop_nothing();
    bounds::runs_end_soon();
    packets_depart_soon();
    departures_are_bounded();
}
