ghost use Rattle.std.specs.Prelude.{◌≡◌, ℕ, ◌+◌, ◌*◌, ◌^◌, ◌<◌, ◌≤◌, List, length, Option, Some};
ghost use Rattle.rotating_pick.specs.PortSets.{Has};
ghost use Rattle.rotating_pick.specs.declared.limits.TheConstants.{MAX_PORTS};
ghost use Rattle.slot_match.specs.declared.matching.Served.{Served as AServed};
ghost use Rattle.slot_match.specs.Parts.{served_of};
ghost use Rattle.output_queued.specs.NotingSteps.{source_at, tally_at, IsUnserved};
ghost use Rattle.output_queued.specs.Steps.{MayTake, HasTaken, cells_to, with_cells, Stand, HaveEntered};

use crate::coming::Coming;
use crate::inputs::Input;
use crate::tally::Tally;
use rotating_pick::{PORT_COUNT, Ports, lowest, union, without};
use slot_match::{Match, Served};

/// Takes what the match serves off the inputs' queues. The parts of all inputs are written to `parts`.
pub(crate) fn take_served(
    inputs: &mut Vec<Input>,
    matched: &Match,
    parts: &mut [Option<Served>; PORT_COUNT],
)
    requires size { length inputs.old.items ≤ MAX_PORTS }
    requires count { length inputs.old.items ≡ length matched.now }
    requires may { (i : ℕ) → i < length inputs.old.items → MayTake (served_of matched.now i) (source_at inputs.old.items i) }
    ensures count { length inputs.new.items ≡ length inputs.old.items }
    ensures taken { (i : ℕ) → i < length inputs.old.items → HasTaken (served_of matched.now i) (source_at inputs.old.items i) (source_at inputs.new.items i) }
{
    matched.put_parts(parts);
    for input in 0..inputs.len() {
        inputs[input].take(parts[input]);
    }
}

/// Lets in the packets of slot `slot`, and counts their cells at their outputs. Answers to which outputs a
/// cell has come that the run has not served.
pub(crate) fn let_in(
    inputs: &mut Vec<Input>,
    tallies: &mut Vec<Tally>,
    unserved: Ports,
    slot: u32,
) -> Ports
    requires stand { (ports depth : ℕ) × (served : ℕ → List (Option AServed)) × Stand ports depth slot inputs.old.items served
        × (length tallies.old.items ≡ ports) }
    requires size { length inputs.old.items ≤ MAX_PORTS }
    requires small { (j : ℕ) → (tally_at tallies.old.items j).came ≤ 2 ^ 60 }
    requires unserved { IsUnserved unserved tallies.old.items }
    ensures count { length tallies.new.items ≡ length tallies.old.items }
    ensures small { (j : ℕ) → (tally_at tallies.new.items j).came ≤ (tally_at tallies.old.items j).came + 131072 }
    ensures unserved { IsUnserved result tallies.new.items }
    ensures entered { (ports depth : ℕ) (served : ℕ → List (Option AServed)) → Stand ports depth slot inputs.old.items served
        → HaveEntered ports depth slot ports served inputs.old.items inputs.new.items tallies.old.items tallies.new.items }
{
    let mut unserved = unserved;
    for input in 0..inputs.len() {
        if let Some(packet) = inputs[input].arrive(slot) {
            add_cells(tallies, packet);
            unserved = union(unserved, packet.fan);
        }
    }
    unserved
}

// Counts the cells of a packet at its outputs.
fn add_cells(tallies: &mut Vec<Tally>, packet: Coming)
    requires size { length tallies.old.items ≤ MAX_PORTS }
    requires fan { (j : ℕ) → Has packet.fan j → j < length tallies.old.items }
    requires small { (j : ℕ) → (tally_at tallies.old.items j).came < 2 ^ 63 }
    ensures count { length tallies.new.items ≡ length tallies.old.items }
    ensures tallies { (j : ℕ) → tally_at tallies.new.items j ≡ with_cells (tally_at tallies.old.items j) (cells_to (Some packet) j) }
{
    let mut left = packet.fan;
    while let Some(output) = lowest(left) {
        tallies[output as usize].came += u64::from(packet.cells);
        left = without(left, output);
    }
}
