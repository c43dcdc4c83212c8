//! How long a queue waits in a run, as the contracts of functions that do nothing.

ghost use Rattle.std.specs.Prelude.{ℕ};
ghost use Rattle.eslip_rounds.specs.Schedulers.{Scheduler};
ghost use Rattle.service_bound.specs.Windows.{AreAtLineRate};
ghost use Rattle.switch_plan.specs.GoodPlans.{SwitchPlan, IsGood};
ghost use Rattle.eslip_rounds.specs.Decisions.{decision_of};
ghost use Rattle.service_bound.specs.Waits.{longest_service_by};
ghost use Rattle.run_laws.specs.Ends.{IsLength};
ghost use Rattle.run_laws.specs.InTime.{CompletesInTimeUnder, ServesInTimeUnder};
ghost use Rattle.run_laws.specs.Promises.{CompletesMulticast, ServesWaiting, WaitsAreShort};
ghost use Rattle.run_laws.specs.Runs.{ports_of};
ghost use Rattle.run_laws.specs.Sums.{schedule_under};

/// The slots of a run are at line rate, under any scheduler: at most one packet arrives at a port in a slot, so from
/// one slot to the next each input begins to ask at most one output of a level.
pub fn runs_are_at_line_rate()
    ensures { (scheduler : Scheduler) (plan : SwitchPlan) (slots level : ℕ) → IsGood plan
        → AreAtLineRate (ports_of plan) level (schedule_under scheduler plan slots) }
{}

/// In so many slots of the run in a row as `longest_service_at_line_rate()` of `service_bound` tells, in which nothing of
/// a better level and no multicast of the level is posted, a unicast queue that is posted in the first is served in
/// one of them. From three ports on this is one slot less than `longest_service()` tells.
pub fn waiting_queues_are_served()
    ensures { (plan : SwitchPlan) (slots : ℕ) → IsGood plan → ServesWaiting plan slots }
{}

/// The longest wait of the best level of all admitted packets is below that number of slots, where none of
/// that level is multicast.
pub fn best_level_waits_are_short()
    ensures { (plan : SwitchPlan) (slots : ℕ) → IsGood plan → WaitsAreShort plan slots }
{}

/// In `2 * n` slots of the run in a row, with `n` ports, in which nothing of a better level is posted, a multicast
/// head that is posted in the first completes in one of them, whatever unicast is posted.
pub fn multicast_heads_complete()
    ensures { (plan : SwitchPlan) (slots : ℕ) → IsGood plan → CompletesMulticast plan slots }
{}

/// So in a run of any length: a unicast queue that is posted is served within as many slots as `longest_service()` of
/// `service_bound` tells, or before the run's end, where in these slots its output is asked as unicast of the level
/// alone, and by inputs that ask nothing better. What others ask of other outputs does not count.
pub fn waiting_queues_are_served_in_time()
    ensures { (plan : SwitchPlan) (slots : ℕ) → IsGood plan → IsLength plan slots
        → ServesInTimeUnder decision_of plan slots (longest_service_by (ports_of plan) plan.rounds) }
{}

/// And a multicast head that is posted completes within `2 * n` slots, or before the run's end, where nothing of a better
/// level is posted in these.
pub fn multicast_heads_complete_in_time()
    ensures { (plan : SwitchPlan) (slots : ℕ) → IsGood plan → IsLength plan slots → CompletesInTimeUnder decision_of plan slots }
{}
