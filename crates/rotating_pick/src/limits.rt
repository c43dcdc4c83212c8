ghost use Rattle.std.specs.Prelude.{◌≡◌};

/// The most ports that a switch can have: a set of ports is one word.
pub const MAX_PORTS: u32 = 64;

/// The most rounds of request, grant and accept in one slot.
pub const MAX_ROUNDS: u32 = 64;

/// The number of priority levels. Level 0 is the best.
pub const LEVELS: u32 = 4;

/// The length of a table with a place for each port: 64.
pub const PORT_COUNT: usize = MAX_PORTS as usize;

/// The length of a table with a place for each level: 4.
pub const LEVEL_COUNT: usize = LEVELS as usize;

/// The most bytes of one input file, a table or a capture: 16 MiB.
pub const MAX_FILE_BYTES: usize = 16_777_216;

/// The limits of a switch by their numbers: 64 ports, 64 rounds in a slot, 4 levels, and 16,777,216
/// bytes of an input file. It does nothing; its contract says the numbers, which contracts elsewhere
/// name by the constants.
pub fn limits_are()
    ensures ports { MAX_PORTS ≡ 64 }
    ensures rounds { MAX_ROUNDS ≡ 64 }
    ensures levels { LEVELS ≡ 4 }
    ensures file_bytes { MAX_FILE_BYTES ≡ 16777216 }
{}
