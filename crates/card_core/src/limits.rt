ghost use Rattle.std.specs.Prelude.{◌≡◌};

/// The most slots that a card posts in a run.
pub const MAX_SLOTS: u32 = 262_145;

/// The most arrival slots of a card: each packet arrives in a slot below.
pub const MAX_ARRIVALS: u32 = 131_072;

/// The most messages that are put together at an output.
pub const MAX_MESSAGES: u32 = 131_072;

/// The most bytes of all these messages: as many cells, each with 56 bytes.
pub const MAX_BODY: u32 = 7_340_032;

/// The limits of a card by their numbers: 262,145 slots, 131,072 arrival slots, and 131,072 messages of
/// 7,340,032 bytes at its output. It does nothing; its contract says the numbers, which contracts elsewhere
/// name by the constants.
pub fn limits_are()
    ensures slots { MAX_SLOTS ≡ 262145 }
    ensures arrivals { MAX_ARRIVALS ≡ 131072 }
    ensures messages { MAX_MESSAGES ≡ 131072 }
    ensures body { MAX_BODY ≡ 7340032 }
{}
