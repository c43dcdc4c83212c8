ghost use Rattle.std.specs.Prelude.{◌≡◌};

/// The most cells for which the queues of a switch have places, all together: 2^26.
pub const MAX_CELLS: u32 = 67_108_864;

/// The limit of the queues by its number. It does nothing; its contract says the number, which contracts elsewhere name
/// by the constant.
pub fn limits_are()
    ensures { MAX_CELLS ≡ 67108864 }
{}
