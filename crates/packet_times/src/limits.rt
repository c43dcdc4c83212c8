ghost use Rattle.std.specs.Prelude.{◌≡◌};

/// The most bytes of a packets file.
pub const MAX_PACKETS_BYTES: usize = 134_217_728;

/// The limit by its number: 134,217,728 bytes of a packets file. It does nothing; its contract says the number.
pub fn limits_are()
    ensures { MAX_PACKETS_BYTES ≡ 134217728 }
{}
