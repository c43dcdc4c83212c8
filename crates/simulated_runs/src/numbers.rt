use delay_counts::DelayCount;
use std::marker::Model;

/// How many percentiles of the delays are told of.
pub const PERCENTILES: usize = 5;

/// The numbers of a port, of the measured slots.
#[derive(Clone, Copy, Debug, PartialEq, Eq)]
pub struct PortNumbers {
    /// How many cells came to the input.
    pub arrived: u64,
    /// How many of them were dropped.
    pub dropped: u64,
    /// How many cells left the input.
    pub left: u64,
    /// How many cells left for the output.
    pub fed: u64,
}

/// The numbers of a batch of the measured slots.
#[derive(Clone, Copy, Debug, PartialEq, Eq)]
pub struct BatchNumbers {
    /// How many cells departed in its slots.
    pub departed: u64,
    /// The sum of their delays, in slots.
    pub delays: u128,
}

/// The cells that wait between two slots.
#[derive(Clone, Copy, Debug, PartialEq, Eq)]
pub struct WaitingNumbers {
    /// How many cells wait.
    pub cells: u32,
    /// For how many slots they have waited, in all.
    pub age: u64,
}

/// The numbers of a simulation, of the measured slots where nothing else is said.
#[derive(Drop)]
pub struct Numbers {
    /// How many cells came.
    pub arrived: u64,
    /// How many of them were dropped.
    pub dropped: u64,
    /// How many cells departed.
    pub departed: u64,
    /// What waited before the first measured slot.
    pub before: WaitingNumbers,
    /// What waits after the last slot.
    pub waiting: WaitingNumbers,
    /// The sum over the slots of the cells that wait when they end.
    pub cell_slots: u64,
    /// The sum of the delays of the cells that departed, in slots.
    pub delays: u128,
    /// The delays up to which at least 50, 90, 99, 99.9 and 99.99 of 100 cells were delayed.
    pub percentiles: [u32; PERCENTILES],
    /// The longest delay.
    pub longest_delay: u32,
    /// The sum over the slots of the rounds that added a pair.
    pub rounds_used: u64,
    /// The sum over the slots of the pairs that the first round added.
    pub first_pairs: u64,
    /// The most cells of one queue, in all slots.
    pub peak: u32,
    /// The most cells of all queues together, in all slots.
    pub most: u32,
    /// For how many slots in a row, of all slots, an input asked for an output in vain.
    pub longest_wait: u32,
    /// The numbers of each port.
    pub ports: Vec<PortNumbers>,
    /// The numbers of each batch.
    pub batches: Vec<BatchNumbers>,
    /// How many cells had each delay.
    pub counts: Vec<DelayCount>,
}

impl Model for Numbers {
    ghost use Rattle.simulated_runs.specs.Numbers.{NumbersValue};

    ghost Value = { NumbersValue };

    ghost view = { λ n. record {
      arrived = n.arrived;
      dropped = n.dropped;
      departed = n.departed;
      before = n.before;
      waiting = n.waiting;
      cell_slots = n.cell_slots;
      delays = n.delays;
      percentiles = n.percentiles;
      longest_delay = n.longest_delay;
      rounds_used = n.rounds_used;
      first_pairs = n.first_pairs;
      peak = n.peak;
      most = n.most;
      longest_wait = n.longest_wait;
      ports = n.ports.items;
      batches = n.batches.items;
      counts = n.counts.items;
    } };
}
