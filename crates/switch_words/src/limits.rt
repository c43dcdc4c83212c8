ghost use Rattle.std.specs.Prelude.{◌≡◌};
ghost use Rattle.switch_words.specs.Limits.{most_depth};

use line_pace::{MAX_LINE_RATE, MAX_SLOT_MICROS};
use rotating_pick::{MAX_PORTS, MAX_ROUNDS};
use voq_banks::MAX_DEPTH;

/// The most workers of a job.
pub const MAX_WORKERS: u32 = 32;

/// The greatest seed of a made input.
pub const MAX_SEED: u32 = 1_000_000_000;

/// The most packets of each port of a made input.
pub const MAX_COUNT: u32 = 4_000;

/// The greatest depth of a queue in a long run, in cells, and its depth there where no option says it.
pub const LONG_DEPTH: u32 = 1_073_741_824;

/// The rounds of a slot where no option says them.
pub(crate) const DEFAULT_ROUNDS: u32 = 4;

/// The workers of a job where no option says them.
pub(crate) const DEFAULT_WORKERS: u32 = 4;

/// The most digits of a number.
pub(crate) const MAX_DIGITS: usize = 10;

/// The limits of what the words say, by their numbers: 64 ports, 64 rounds, 131,072 cells of a queue and
/// 1,073,741,824 in a long run, 32 workers, 1,000,000 microseconds of a slot, 1,600,000 megabits a second of
/// a line, a seed of 1,000,000,000, 4,000 packets of each port of a made input, and ten digits; and 4 rounds
/// and 4 workers where no option says them. It does nothing; its contract says the numbers, which contracts
/// elsewhere name by the constants.
pub fn limits_are()
    ensures ports { MAX_PORTS ≡ 64 }
    ensures rounds { MAX_ROUNDS ≡ 64 }
    ensures depth { MAX_DEPTH ≡ 131072 }
    ensures long_depth { LONG_DEPTH ≡ 1073741824 }
    ensures workers { MAX_WORKERS ≡ 32 }
    ensures micros { MAX_SLOT_MICROS ≡ 1000000 }
    ensures line_rate { MAX_LINE_RATE ≡ 1600000 }
    ensures seed { MAX_SEED ≡ 1000000000 }
    ensures count { MAX_COUNT ≡ 4000 }
    ensures digits { MAX_DIGITS ≡ 10 }
    ensures default_rounds { DEFAULT_ROUNDS ≡ 4 }
    ensures default_workers { DEFAULT_WORKERS ≡ 4 }
{}

/// The greatest depth of a queue, in cells, which a job has where no option says it: 131,072, and 1,073,741,824
/// in a long run.
pub(crate) fn most_depth(long: bool) -> u32
    ensures { result ≡ most_depth long }
{
    if long { LONG_DEPTH } else { MAX_DEPTH }
}
