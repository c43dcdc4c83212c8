ghost use Rattle.std.specs.Prelude.{◌≡◌};

use arrival_queues::MAX_CELLS;
use rotating_pick::{MAX_PORTS, MAX_ROUNDS};

/// The greatest seed of a simulation.
pub const MAX_SEED: u32 = 1_000_000_000;

/// The most slots of a simulation, no more than a meter of waits notes.
pub const MAX_SLOTS: u32 = 4_000_000_000;

/// The most cells of a queue.
pub const MAX_DEPTH: u32 = 1_048_576;

/// The most batches of the measured slots.
pub const MAX_BATCHES: u32 = 1_000;

/// The limits of a simulation by their numbers: 64 ports, 64 rounds, a seed of 1,000,000,000, 4,000,000,000 slots,
/// 1,048,576 cells of a queue, 67,108,864 cells of all queues together, and 1,000 batches. It does nothing; its contract
/// says the numbers, which contracts elsewhere name by the constants.
pub fn limits_are()
    ensures ports { MAX_PORTS ≡ 64 }
    ensures rounds { MAX_ROUNDS ≡ 64 }
    ensures seed { MAX_SEED ≡ 1000000000 }
    ensures slots { MAX_SLOTS ≡ 4000000000 }
    ensures depth { MAX_DEPTH ≡ 1048576 }
    ensures cells { MAX_CELLS ≡ 67108864 }
    ensures batches { MAX_BATCHES ≡ 1000 }
{}
