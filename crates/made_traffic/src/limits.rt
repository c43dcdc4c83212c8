ghost use Rattle.std.specs.Prelude.{◌≡◌};

use rotating_pick::MAX_PORTS;

/// Loads and weights are numbers of millionths, so this is the greatest of either.
pub const MILLION: u32 = 1_000_000;

/// The greatest mean length of a burst, in cells.
pub const MAX_BURST: u32 = 4_096;

/// The limits of made traffic by their numbers: 64 ports, loads and weights of 1,000,000 millionths, and bursts of
/// 4,096 cells. It does nothing; its contract says the numbers, which contracts elsewhere name by the constants.
pub fn limits_are()
    ensures ports { MAX_PORTS ≡ 64 }
    ensures million { MILLION ≡ 1000000 }
    ensures burst { MAX_BURST ≡ 4096 }
{}
