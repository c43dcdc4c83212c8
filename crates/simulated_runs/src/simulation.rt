ghost use Rattle.std.specs.Prelude.{◌≡◌, ◌+◌, ◌<◌, ◌≤◌, map, IfOk};
ghost use Rattle.std.specs.List.{range_with_len};
ghost use Rattle.arrival_queues.specs.declared.limits.TheConstants.{MAX_CELLS};
ghost use Rattle.simulated_slots.specs.Jobs.{places_of};
ghost use Rattle.simulated_runs.specs.Numbers.{longest_wait_in, numbers_after, waiting_before};
ghost use Rattle.simulated_runs.specs.SimulationSteps.{sources_before};

use crate::numbers::{Numbers, WaitingNumbers};
use crate::slot_counts::SlotCounts;
use crate::told::{batches, counts, percentiles, ports};
use made_traffic::Source;
use rotating_pick::OutOfMemory;
use simulated_slots::{Arbiter, Arrivals, Departed, Job, take_in};
use std::alloc::{AllocError, Global};
use std::marker::Model;

/// A switch under made traffic, and what was counted of its slots so far.
#[derive(Drop)]
pub(crate) struct Simulation {
    job: Job,
    slot: u32,
    sources: Vec<Source>,
    arrivals: Arrivals,
    arbiter: Arbiter,
    departed: Departed,
    counts: SlotCounts,
}

impl Model for Simulation {
    ghost use Rattle.simulated_runs.specs.SimulationSteps.{IsSimulated, SimulationValue};

    ghost Value = { SimulationValue };

    ghost view = { λ s. record { job = s.job; slot = s.slot } };

    ghost invariant = { λ s. IsSimulated s.job s.slot s.sources.items s.arrivals s.arbiter s.departed s.counts };
}

impl Simulation {
    /// The job before its first slot. It takes all memory that the slots need.
    pub(crate) fn make(alloc: Global, job: &Job) -> Result<Simulation, OutOfMemory>
        requires { places_of job.now ≤ MAX_CELLS }
        ensures { IfOk result (λ simulation. simulation ≡ record { job = job.now; slot = 0 }) }
    {
        let traffic = job.traffic();
        let ports = traffic.ports();
        let settings = job.settings();
        // Tells the proof how many slots there are at most.
        let _ = job.slots();
        Ok(Simulation {
            job: *job,
            slot: 0,
            sources: sources(alloc, job)?,
            arrivals: Arrivals::make(alloc, settings.discipline.queueing(), ports, settings.depth)?,
            arbiter: Arbiter::make(
                alloc,
                settings.discipline,
                settings.rounds,
                ports,
                job.seed(),
            )?,
            departed: Departed::make(alloc, ports, settings.batches)?,
            counts: SlotCounts::none(),
        })
    }

    /// What waits before the next slot.
    pub(crate) fn waiting(&self) -> WaitingNumbers
        ensures { result ≡ waiting_before self.now.job self.now.slot }
    {
        let cells = self.arrivals.queues.held();
        let slots = u64::from(cells) * u64::from(self.slot);
        WaitingNumbers {
            cells,
            age: slots - self.arrivals.queues.sum_of_arrivals(),
        }
    }

    /// Makes the next slot of the job. It takes no memory.
    pub(crate) fn step(&mut self)
        requires { self.old.slot < self.old.job.slots }
        ensures { self.new ≡ record { job = self.old.job; slot = self.old.slot + 1 } }
    {
        let slot = self.slot;
        let batch = self.job.batch(slot);
        let is_first = slot == self.job.settings().warm_up;
        let waiting = self.waiting();
        self.counts.begin(is_first, waiting);
        take_in(&mut self.sources, &mut self.arrivals, slot, batch.is_some());
        self.counts.fill(self.arrivals.queues.held());
        let used = self.arbiter.decide(slot, self.arrivals.queues.rows());
        self.departed
            .serve(&mut self.arrivals.queues, &self.arbiter, slot, batch);
        self.counts
            .end(batch.is_some(), used, self.arrivals.queues.held());
        self.slot += 1;
    }

    /// The numbers of the slots so far, of which one at least is measured.
    pub(crate) fn numbers(&self, alloc: Global) -> Result<Numbers, OutOfMemory>
        requires { self.now.job.settings.warm_up < self.now.slot }
        ensures { IfOk result (λ numbers. numbers ≡ numbers_after self.now.job self.now.slot) }
    {
        let settings = self.job.settings();
        Ok(Numbers {
            arrived: self.arrivals.arrived.total(),
            dropped: self.arrivals.dropped.total(),
            departed: self.departed.delays.total(),
            before: self.counts.before,
            waiting: self.waiting(),
            cell_slots: self.counts.cell_slots,
            delays: self.departed.delays.sum(),
            percentiles: percentiles(&self.departed.delays),
            longest_delay: self.departed.delays.longest(),
            rounds_used: self.counts.rounds_used,
            first_pairs: self.counts.first_pairs,
            peak: self.arrivals.peak,
            most: self.counts.most,
            longest_wait: self.longest_wait(),
            ports: ports(
                alloc,
                self.job.traffic().ports(),
                &self.arrivals,
                &self.departed,
            )?,
            batches: batches(alloc, settings.batches, &self.departed)?,
            counts: counts(alloc, &self.departed.delays)?,
        })
    }

    // The longest wait of an output that an input asked for; an ideal switch has none.
    fn longest_wait(&self) -> u32
        ensures { result ≡ longest_wait_in self.now.job self.now.slot }
    {
        if self.job.settings().discipline.is_ideal() {
            return 0;
        }
        self.arbiter.longest()
    }
}

// The sources of a job, before slot 0.
fn sources(alloc: Global, job: &Job) -> Result<Vec<Source>, AllocError>
    ensures { IfOk result (λ sources. sources.items ≡ sources_before job.now 0) }
{
    let traffic = job.traffic();
    let mut sources = Vec::with_capacity(alloc, traffic.ports() as usize)?;
    for input in 0..traffic.ports() {
        sources.push(Source::new(traffic, job.seed(), input))?;
    }
    Ok(sources)
}
