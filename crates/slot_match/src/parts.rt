ghost use Rattle.std.specs.Prelude.{◌≡◌, ◌<◌, ◌↔◌, ◌⊎◌, ℕ, None, Some, drop, length, map, slice_index_or};
ghost use Rattle.std.specs.List.{range_with_len};
ghost use Rattle.rotating_pick.specs.PortSets.{Has};
ghost use Rattle.rotating_pick.specs.declared.limits.TheConstants.{MAX_PORTS};
ghost use Rattle.slot_match.specs.Parts.{served_of};
ghost use Rattle.slot_match.specs.Steps.{outputs_in};

use crate::matching::{Fed, Match, Served};
use rotating_pick::{PORT_COUNT, Ports, all, difference, lowest, with, without};

impl Match {
    /// Writes each input's part of the match to the place of the input, None exactly where it is free. The
    /// places beyond the ports stay. It takes a step for each port.
    pub fn put_parts(&self, parts: &mut [Option<Served>; PORT_COUNT])
        ensures parts { (i : ℕ) → i < length self.now → slice_index_or parts.new i None ≡ served_of self.now i }
        ensures others { drop (length self.now) parts.new ≡ drop (length self.now) parts.old }
    {
        let ports = self.ports() as usize;
        self.fill_parts(&mut parts[..ports]);
    }

    /// Does the same as [`Match::put_parts`] where only the inputs `before` can have a part, those of an earlier match.
    /// It takes a step for each of these inputs, and for each output that is matched.
    pub fn change_parts(&self, parts: &mut [Option<Served>; PORT_COUNT], before: Ports)
        requires inside { (i : ℕ) → Has before i → i < length self.now }
        requires free { (i : ℕ) → i < length self.now → (Has before i → ⊥) → slice_index_or parts.old i None ≡ None }
        ensures parts { (i : ℕ) → i < length self.now → slice_index_or parts.new i None ≡ served_of self.now i }
        ensures others { drop (length self.now) parts.new ≡ drop (length self.now) parts.old }
    {
        let ports = self.ports() as usize;
        self.replace_parts(&mut parts[..ports], before);
    }

    // Writes each input's part of the match to the place of the input. There are as many places as ports.
    fn fill_parts(&self, parts: &mut [Option<Served>])
        requires { length parts.old ≡ length self.now }
        ensures { parts.new ≡ map (served_of self.now) (range_with_len 0 (length self.now)) }
    {
        parts.fill(None);
        self.put_fed(parts);
    }

    // The same, where only these inputs can have a part.
    fn replace_parts(&self, parts: &mut [Option<Served>], before: Ports)
        requires count { length parts.old ≡ length self.now }
        requires inside { (i : ℕ) → Has before i → i < length self.now }
        requires free { (i : ℕ) → i < length self.now → (Has before i → ⊥) → slice_index_or parts.old i None ≡ None }
        ensures { parts.new ≡ map (served_of self.now) (range_with_len 0 (length self.now)) }
    {
        clear_parts(parts, before);
        self.put_fed(parts);
    }

    // Writes the part of each input that is matched to the place of the input, where no input has a part.
    fn put_fed(&self, parts: &mut [Option<Served>])
        requires count { length parts.old ≡ length self.now }
        requires empty { (i : ℕ) → i < length self.now → slice_index_or parts.old i None ≡ None }
        ensures { parts.new ≡ map (served_of self.now) (range_with_len 0 (length self.now)) }
    {
        let mut rest = difference(all(self.ports()), self.free_outputs());
        while let Some(output) = lowest(rest) {
            rest = without(rest, output);
            if let Some(fed) = self.fed(output) {
                add_output(&mut parts[fed.input as usize], output, fed);
            }
        }
    }
}

// Takes the parts of these inputs away.
fn clear_parts(parts: &mut [Option<Served>], inputs: Ports)
    requires { (i : ℕ) → Has inputs i → i < length parts.old }
    ensures count { length parts.new ≡ length parts.old }
    ensures gone { (i : ℕ) → Has inputs i → slice_index_or parts.new i None ≡ None }
    ensures others { (i : ℕ) → (Has inputs i → ⊥) → slice_index_or parts.new i None ≡ slice_index_or parts.old i None }
{
    let mut rest = inputs;
    while let Some(input) = lowest(rest) {
        rest = without(rest, input);
        parts[input as usize] = None;
    }
}

// Adds the output, which is fed so, to the part of its input.
fn add_output(part: &mut Option<Served>, output: u32, fed: Fed)
    requires { output < MAX_PORTS }
    ensures some { (part_new : _) × (part.new ≡ Some part_new) × (part_new.level ≡ fed.level) × (part_new.kind ≡ fed.kind)
        × ((j : ℕ) → Has part_new.outputs j ↔ ((j ≡ output) ⊎ Has (outputs_in part.old) j)) }
{
    let outputs = outputs_in(*part);
    *part = Some(Served {
        outputs: with(outputs, output),
        level: fed.level,
        kind: fed.kind,
    });
}

// The outputs of a part, none where there is no part.
fn outputs_in(part: Option<Served>) -> Ports
    ensures { result ≡ outputs_in part }
{
    match part {
        Some(part) => part.outputs,
        None => 0,
    }
}
