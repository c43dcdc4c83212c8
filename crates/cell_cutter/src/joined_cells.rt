ghost use Rattle.std.specs.Prelude.{◌≡◌, ℕ, List};
ghost use Rattle.std.specs.List.{flat_map};
ghost use Rattle.rotating_pick.specs.declared.kinds.Kind.{Kind};
ghost use Rattle.cell_cutter.specs.Cells.{used_bytes, cells_of_message};

/// Nothing of a message is lost or twice: the used bytes of its cells, joined in order, are the
/// message. It does nothing; its contract is the law.
pub fn cells_join()
    ensures { (input level : ℕ) (kind : Kind) (message : List ℕ) → flat_map used_bytes (cells_of_message input level kind message) ≡ message }
{}
