//! How long a queue waits in a simulation, and how many cells, as the contracts of functions that do nothing.

ghost use Rattle.std.specs.Prelude.{◌≡◌, ◌*◌, ◌<◌, ◌≤◌, ℕ};
ghost use Rattle.scheduler_names.specs.declared.names.SchedulerName.TheVariants.{Firm, Islip};
ghost use Rattle.service_bound.specs.Waits.{longest_service_at_line_rate};
ghost use Rattle.made_traffic.specs.Sources.{IsTraffic};
ghost use Rattle.simulated_slots.specs.declared.discipline.Discipline.TheVariants.{Fifo, Scheduled};
ghost use Rattle.simulated_slots.specs.Jobs.{IsJob, JobValue};
ghost use Rattle.simulated_runs.specs.Laws.{AreCompared};
ghost use Rattle.simulated_runs.specs.Numbers.{numbers_after};

/// The longest wait that is told of a simulation, whatever its traffic, its depth and the number of its slots, is below
/// what `longest_service_at_line_rate()` of `service_bound` tells under iSLIP, and below `n * n` of `n` ports under FIRM.
/// Dropped cells do not matter. Of RRM no bound is proved: a queue of its can ask for ever (`rrm_starves()` of `rrm_rounds`);
/// nor of PIM, whose picks can pass a queue over as often as random words say.
pub fn longest_waits_are_bounded()
    ensures islip { (job : JobValue) (t : ℕ) → IsTraffic job.traffic → IsJob job → job.settings.discipline ≡ Scheduled Islip
        → (numbers_after job t).longest_wait < longest_service_at_line_rate job.traffic.ports job.settings.rounds }
    ensures firm { (job : JobValue) (t : ℕ) → IsTraffic job.traffic → IsJob job → job.settings.discipline ≡ Scheduled Firm
        → (numbers_after job t).longest_wait < job.traffic.ports * job.traffic.ports }
{}

/// Under FIFO it is at most one less than there are ports, whatever the rounds that the job says: an input asks for one
/// output alone, so a grant is never refused, and the output's pointer passes each other input once at most.
pub fn fifo_waits_are_bounded()
    ensures { (job : JobValue) (t : ℕ) → IsTraffic job.traffic → IsJob job → job.settings.discipline ≡ Fifo
        → (numbers_after job t).longest_wait < job.traffic.ports }
{}

/// In the ideal switch no more cells wait than in any other to which the same cells come and which drops none of them,
/// whatever the depth of its own queues: after each slot, and so in the sum over the measured slots too, where both measure
/// the same ones.
pub fn ideal_holds_fewest_cells()
    ensures waiting { (ideal other : JobValue) (t : ℕ) → IsTraffic other.traffic → AreCompared ideal other t
        → (numbers_after ideal t).waiting.cells ≤ (numbers_after other t).waiting.cells }
    ensures cell_slots { (ideal other : JobValue) (t : ℕ) → IsTraffic other.traffic → AreCompared ideal other t
        → ideal.settings.warm_up ≡ other.settings.warm_up → (numbers_after ideal t).cell_slots ≤ (numbers_after other t).cell_slots }
{}

/// Where the other switch drops none of the cells and none waits in it behind the last slot, and all slots are measured, the
/// ideal switch has the least sum of delays.
pub fn ideal_has_least_delays()
    ensures { (ideal other : JobValue) (t : ℕ) → IsTraffic other.traffic → AreCompared ideal other t → ideal.settings.warm_up ≡ 0
        → other.settings.warm_up ≡ 0 → (numbers_after other t).waiting.cells ≡ 0 → (numbers_after ideal t).delays ≤ (numbers_after other t).delays }
{}
