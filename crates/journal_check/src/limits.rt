ghost use Rattle.std.specs.Prelude.{◌≡◌};

/// The most bytes of a journal file.
pub const MAX_JOURNAL_BYTES: usize = 134_217_728;

/// The most bytes of a journal file by their number: 134,217,728. It does nothing; its contract says the
/// number, which contracts elsewhere name by the constant.
pub fn limits_are()
    ensures { MAX_JOURNAL_BYTES ≡ 134217728 }
{}
