ghost use Rattle.std.specs.Prelude.{◌≡◌, ℕ, ◌<◌, ◌++◌, length, List, [], ◌∷◌, if◌then◌else◌};
ghost use Rattle.rotating_pick.specs.declared.kinds.Kind.{Kind};
ghost use Rattle.cell_cutter.specs.Cells.{cells_of_message};
ghost use Rattle.cell_cutter.specs.declared.cell.Cell.{Cell};
ghost use Rattle.reassembly.specs.Flows.{Flow, fresh, bytes_with, with_cell};
ghost use Rattle.reassembly.specs.Cutting.{Stands, messages_of};

/// A flow's messages are its cells cut after each last cell, the used bytes of each piece joined: a
/// cell that is put makes its flow stand for one cell more, and with a last one the message that is
/// lent is the next of them. So all cells of a message, put one after the other, give back the
/// message. It does nothing; its contract is the law.
pub fn flow_is_cut()
    ensures begins { (size : ℕ) → Stands (fresh size) [] }
    ensures stands { (flow : Flow) (cells : List Cell) (cell : Cell) → Stands flow cells → cell.number ≡ flow.next
        → Stands (with_cell flow cell) (cells ++ cell ∷ []) }
    ensures message { (flow : Flow) (cells : List Cell) (cell : Cell) → Stands flow cells
        → messages_of (cells ++ cell ∷ []) ≡ (if cell.last then messages_of cells ++ bytes_with flow cell ∷ [] else messages_of cells) }
    ensures whole { (input level : ℕ) (kind : Kind) (message : List ℕ) → 0 < length message
        → messages_of (cells_of_message input level kind message) ≡ message ∷ [] }
{}
