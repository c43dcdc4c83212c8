ghost use Rattle.std.specs.Prelude.{◌≡◌};

/// The rounds of a slot, where no option says them.
pub const DEFAULT_ROUNDS: u32 = 4;

/// The cells of an input in a million slots, where no option says them.
pub const DEFAULT_LOAD: u32 = 900_000;

/// The mean cells of a burst, where no option says them.
pub const DEFAULT_BURST: u32 = 1;

/// The cells of a queue, where no option says them.
pub const DEFAULT_DEPTH: u32 = 4_096;

/// The batches of the measured slots, where no option says them.
pub const DEFAULT_BATCHES: u32 = 10;

/// What holds where no option says it, by its number: 4 rounds, 900,000 cells of an input in a million slots, bursts of
/// 1 cell, 4,096 cells of a queue, and 10 batches. It does nothing; its contract says the numbers, which contracts
/// elsewhere name by the constants.
pub fn defaults_are()
    ensures rounds { DEFAULT_ROUNDS ≡ 4 }
    ensures load { DEFAULT_LOAD ≡ 900000 }
    ensures burst { DEFAULT_BURST ≡ 1 }
    ensures depth { DEFAULT_DEPTH ≡ 4096 }
    ensures batches { DEFAULT_BATCHES ≡ 10 }
{}
