//! Laws of the schedulers by name, as the contracts of functions that do nothing.

ghost use Rattle.scheduler_names.specs.declared.names.SchedulerName.{SchedulerName};
ghost use Rattle.eslip_rounds.specs.Schedulers.{IsScheduler};
ghost use Rattle.named_schedulers.specs.Named.{decision_named};

/// Each is one of the schedulers of which the laws of runs speak: it decides slots of request, grant and accept.
pub fn each_is_a_scheduler()
    ensures { (name : SchedulerName) → IsScheduler (decision_named name) }
{}
