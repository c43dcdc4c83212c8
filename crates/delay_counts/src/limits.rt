ghost use Rattle.std.specs.Prelude.{◌≡◌};

/// The most delays that are counted: 2^40.
pub const MAX_DELAYS: u64 = 1_099_511_627_776;

/// How many numbers there are as which delays of 32 bits are counted: 4,096, and 2,048 for each bit beyond 12.
pub const DELAY_PLACES: u32 = 45_056;

/// The share of all delays, in parts of 10,000.
pub const WHOLE_SHARE: u32 = 10_000;

/// The limits by their numbers. It does nothing; its contract says the numbers, which contracts elsewhere name by the
/// constants.
pub fn limits_are()
    ensures delays { MAX_DELAYS ≡ 1099511627776 }
    ensures places { DELAY_PLACES ≡ 45056 }
    ensures share { WHOLE_SHARE ≡ 10000 }
{}
