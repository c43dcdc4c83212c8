ghost use Rattle.std.specs.Prelude.{◌≡◌};

/// The greatest depth of a queue, in cells.
pub const MAX_DEPTH: u32 = 131_072;

/// The most packets that can enter one queue in a run.
pub const MAX_QUEUE_PACKETS: u32 = 131_072;

/// The limits of a queue by their numbers: 131,072 cells, and 131,072 packets in a run. It does nothing;
/// its contract says the numbers, which contracts elsewhere name by the constants.
pub fn limits_are()
    ensures depth { MAX_DEPTH ≡ 131072 }
    ensures packets { MAX_QUEUE_PACKETS ≡ 131072 }
{}
