ghost use Rattle.std.specs.Prelude.{◌≡◌, ◌<◌, ◌↔◌, ℕ, Some, replicate, slice_set};
ghost use Rattle.rotating_pick.specs.PortSets.{Has};
ghost use Rattle.rotating_pick.specs.declared.kinds.Kind.TheVariants.{Multi};
ghost use Rattle.slot_match.specs.declared.matching.Fed.{Fed};
ghost use Rattle.slot_match.specs.Matches.{unmatched, fed_of, Serves};

use crate::marks::Marks;
use crate::matching::Fed;
use rotating_pick::{Kind, LEVELS, MAX_PORTS, PORT_COUNT, Ports, lowest, with, without};
use std::marker::Model;

// In place of an input, where an output is free: a byte that names no port.
const NO_INPUT: u8 = u8::MAX;

/// For each output that a switch can have what feeds it. A journal keeps a match for each slot, so an
/// input is a byte, and levels and kinds are bits.
#[derive(Debug, Drop)]
pub(crate) struct Feeds {
    inputs: [u8; PORT_COUNT],
    marks: Marks,
}

impl Model for Feeds {
    ghost use Rattle.std.specs.Prelude.{List, Option};
    ghost use Rattle.slot_match.specs.declared.matching.Fed.{Fed};
    ghost use Rattle.slot_match.specs.FieldSteps.{feeds_of, AreMarked};

    ghost Value = { List (Option Fed) };

    ghost view = { λ f. feeds_of f.inputs f.marks };

    ghost invariant = { λ f. AreMarked f.inputs f.marks };
}

impl Feeds {
    /// No output is fed.
    pub(crate) fn new() -> Feeds
        ensures { result ≡ unmatched MAX_PORTS }
    {
        Feeds {
            inputs: no_inputs(),
            marks: Marks::new(),
        }
    }

    /// What feeds the output.
    pub(crate) fn get(&self, output: u32) -> Option<Fed>
        requires { output < MAX_PORTS }
        ensures { result ≡ fed_of self.now output }
    {
        let input = u32::from(self.inputs[output as usize]);
        if input >= MAX_PORTS {
            return None;
        }
        Some(Fed {
            input,
            level: self.marks.level(output),
            kind: self.marks.kind(output),
        })
    }

    /// The inputs that feed an output at the level as multicast.
    pub(crate) fn multicasting(&self, level: u8) -> Ports
        requires { level < LEVELS }
        ensures { (i : ℕ) → Has result i ↔ ((j : ℕ) × Serves self.now i j level Multi) }
    {
        let mut found = 0;
        let mut rest = self.marks.alike(level, Kind::Multi);
        while let Some(output) = lowest(rest) {
            found = with(found, u32::from(self.inputs[output as usize]));
            rest = without(rest, output);
        }
        found
    }

    /// A set that has, of the outputs that are fed, those at the level of the kind.
    pub(crate) fn alike(&self, level: u8, kind: Kind) -> Ports
        requires { level < LEVELS }
        ensures { (j : ℕ) (fed : Fed) → fed_of self.now j ≡ Some fed → Has result j ↔ ((fed.level ≡ level) × (fed.kind ≡ kind)) }
    {
        self.marks.alike(level, kind)
    }

    /// Feeds the output by an input.
    pub(crate) fn set(&mut self, output: u32, by: Fed)
        requires output_in { output < MAX_PORTS }
        requires input_in { by.input < MAX_PORTS }
        requires level_in { by.level < LEVELS }
        ensures { self.new ≡ slice_set self.old output (Some by) }
    {
        self.inputs[output as usize] = by.input as u8;
        self.marks.set(output, by.level, by.kind);
    }
}

// A table that names no input.
fn no_inputs() -> [u8; PORT_COUNT]
    ensures { result ≡ replicate MAX_PORTS NO_INPUT }
{
    [NO_INPUT; PORT_COUNT]
}
