ghost use Rattle.std.specs.Prelude.{◌≡◌, ◌<◌, ◌≤◌, ◌↔◌, IfSome, IsSome, IsTrue};
ghost use Rattle.simulated_slots.specs.Jobs.{AreSettings, IsJob, batch_at, job_of, places_of};

use crate::discipline::Discipline;
use crate::limits::{MAX_BATCHES, MAX_DEPTH, MAX_SEED, MAX_SLOTS};
use made_traffic::Traffic;
use rotating_pick::MAX_ROUNDS;
use std::marker::Model;

/// What a job says beside its traffic.
#[derive(Clone, Copy, Debug, PartialEq, Eq)]
pub struct Settings {
    /// How cells are queued, and which of them a slot serves.
    pub discipline: Discipline,
    /// The rounds of a slot, 1 to 64. FIFO has one and the ideal switch none, whatever this says.
    pub rounds: u32,
    /// The most cells of a queue, 1 to 1,048,576.
    pub depth: u32,
    /// How many slots come before those that are measured: fewer than there are slots.
    pub warm_up: u32,
    /// Into how many batches the measured slots are parted, 1 to 1,000.
    pub batches: u32,
}

/// What is simulated. A value of this type has all its numbers in their ranges.
#[derive(Clone, Copy, Debug, PartialEq, Eq)]
pub struct Job {
    traffic: Traffic,
    seed: u32,
    slots: u32,
    settings: Settings,
}

impl Model for Job {
    ghost use Rattle.simulated_slots.specs.Jobs.{IsJob, JobValue, job_of};

    ghost Value = { JobValue };

    ghost view = { λ j. job_of j.traffic j.seed j.slots j.settings };

    ghost invariant = { λ j. IsJob (job_of j.traffic j.seed j.slots j.settings) };

    ghost inverse = { λ v. record { traffic = v.traffic; seed = v.seed; slots = v.slots; settings = v.settings } };
}

impl Job {
    /// The job of this traffic with these random numbers, in this many slots: a seed of at most 1,000,000,000, and 1 to
    /// 4,000,000,000 slots. None where a number is out of its range.
    pub fn new(traffic: Traffic, seed: u32, slots: u32, settings: Settings) -> Option<Job>
        ensures in_range { IsSome result ↔ IsJob (job_of traffic seed slots settings) }
        ensures value { IfSome result (λ job. job ≡ job_of traffic seed slots settings) }
    {
        if seed > MAX_SEED || slots > MAX_SLOTS || !are_in_range(&settings, slots) {
            return None;
        }
        Some(Job {
            traffic,
            seed,
            slots,
            settings,
        })
    }

    /// Its traffic.
    pub fn traffic(&self) -> Traffic
        ensures { result ≡ self.now.traffic }
    {
        self.traffic
    }

    /// The seed of its random numbers, at most 1,000,000,000.
    pub fn seed(&self) -> u32
        ensures { result ≡ self.now.seed }
    {
        self.seed
    }

    /// The number of slots, 1 to 4,000,000,000.
    pub fn slots(&self) -> u32
        ensures value { result ≡ self.now.slots }
        ensures some { 0 < result }
        ensures few { result ≤ MAX_SLOTS }
    {
        self.slots
    }

    /// What it says beside.
    pub fn settings(&self) -> Settings
        ensures value { result ≡ self.now.settings }
        ensures in_range { AreSettings self.now.slots result }
    {
        self.settings
    }

    /// For how many cells all queues together have places.
    pub fn places(&self) -> u64
        ensures { result ≡ places_of self.now }
    {
        let queues = self
            .settings
            .discipline
            .queueing()
            .queue_count(self.traffic.ports());
        u64::from(queues) * u64::from(self.settings.depth)
    }

    /// The batch of a slot of the job, None where it comes before those that are measured.
    pub fn batch(&self, slot: u32) -> Option<u32>
        requires { slot < self.now.slots }
        ensures value { result ≡ batch_at self.now slot }
        ensures within { IfSome result (λ batch. batch < self.now.settings.batches) }
    {
        if slot < self.settings.warm_up {
            return None;
        }
        let slots = u64::from(self.slots - self.settings.warm_up);
        Some(
            (u64::from(slot - self.settings.warm_up) * u64::from(self.settings.batches)
                / slots) as u32,
        )
    }
}

// Whether each of the numbers is in its range, in a job of so many slots.
fn are_in_range(settings: &Settings, slots: u32) -> bool
    ensures { IsTrue result ↔ AreSettings slots settings.now }
{
    settings.rounds != 0
        && settings.rounds <= MAX_ROUNDS
        && settings.depth != 0
        && settings.depth <= MAX_DEPTH
        && settings.warm_up < slots
        && settings.batches != 0
        && settings.batches <= MAX_BATCHES
}
