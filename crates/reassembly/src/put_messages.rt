ghost use Rattle.std.specs.Prelude.{◌≡◌, ℕ, ◌+◌, ◌<◌, ◌≤◌, length, List, true, false};
ghost use Rattle.rotating_pick.specs.declared.kinds.Kind.{Kind};
ghost use Rattle.cell_cutter.specs.Messages.{cells_in};
ghost use Rattle.cell_cutter.specs.Cells.{cell_of};
ghost use Rattle.reassembly.specs.Flows.{Flows, Fits, fresh, flow_of, bytes_with, with_cell};
ghost use Rattle.reassembly.specs.Filling.{begun_with};

use cell_cutter::MAX_MESSAGE_BYTES;
use rotating_pick::{LEVELS, MAX_PORTS};

/// The cells of a message of 1 to 65,551 bytes, put one after the other into a flow in which nothing
/// stands, fit each time where the flow's size is the message's length or more. Only the last one makes
/// it whole: then `put` lends exactly the message, and nothing stands in the flow again. Cells of other
/// flows may come between them. It does nothing; its contract is the law.
pub fn message_is_put()
    ensures begins { (size : ℕ) (message : List ℕ) → begun_with size message 0 ≡ fresh size }
    ensures fits { (all : Flows) (size input level k : ℕ) (kind : Kind) (message : List ℕ) → all.ports ≤ MAX_PORTS → input < all.ports → level < LEVELS
        → length message ≤ MAX_MESSAGE_BYTES → length message ≤ size → k < cells_in (length message)
        → flow_of all (cell_of input level kind message k) ≡ begun_with size message k → Fits all (cell_of input level kind message k) }
    ensures more { (input level k : ℕ) (kind : Kind) (message : List ℕ) → k + 1 < cells_in (length message)
        → (cell_of input level kind message k).last ≡ false }
    ensures stands { (size input level k : ℕ) (kind : Kind) (message : List ℕ) → k + 1 < cells_in (length message)
        → with_cell (begun_with size message k) (cell_of input level kind message k) ≡ begun_with size message (k + 1) }
    ensures last { (input level k : ℕ) (kind : Kind) (message : List ℕ) → k + 1 ≡ cells_in (length message) → (cell_of input level kind message k).last ≡ true }
    ensures ends { (size input level k : ℕ) (kind : Kind) (message : List ℕ) → k + 1 ≡ cells_in (length message)
        → with_cell (begun_with size message k) (cell_of input level kind message k) ≡ fresh size }
    ensures whole { (size input level k : ℕ) (kind : Kind) (message : List ℕ) → k + 1 ≡ cells_in (length message)
        → bytes_with (begun_with size message k) (cell_of input level kind message k) ≡ message }
{}
