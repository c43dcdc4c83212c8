ghost use Rattle.std.specs.Prelude.{◌≡◌};

/// The most slots that a board has.
pub const MAX_SLOTS: u32 = 262_145;

/// The most slots that a board of more than 32 ports has.
pub const MAX_SLOTS_WIDE: u32 = 131_073;

/// The most slots of a board by their numbers: 262,145, and 131,073 for more than 32 ports. It does
/// nothing; its contract says the numbers, which contracts elsewhere name by the constants.
pub fn limits_are()
    ensures slots { MAX_SLOTS ≡ 262145 }
    ensures slots_wide { MAX_SLOTS_WIDE ≡ 131073 }
{}
