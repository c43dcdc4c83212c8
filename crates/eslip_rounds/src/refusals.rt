ghost use Rattle.std.specs.Prelude.{◌≡◌, ℕ, Some, ◌<◌, ◌≤◌, ◌↔◌, ◌⊎◌};
ghost use Rattle.rotating_pick.specs.PortSets.{Has};
ghost use Rattle.rotating_pick.specs.declared.kinds.Kind.{Kind};
ghost use Rattle.slot_match.specs.Matches.{unmatched};
ghost use Rattle.eslip_rounds.specs.declared.grants.Choice.{Choice};
ghost use Rattle.eslip_rounds.specs.Steps.{IsNamed, AreReady, IsUnicastChoice, AreToldOf};
ghost use Rattle.eslip_rounds.specs.Refusals.{Tells};

use crate::asks::Asks;
use crate::grants::{Choice, Ready, chosen, ready_inputs};
use crate::ranks::{RANKS, kind_of, level_of};
use pointer_state::Pointers;
use rotating_pick::{
    Kind, LEVELS, MAX_PORTS, PORT_COUNT, Ports, all, difference, intersection, lowest, with,
    without,
};
use slot_match::Match;

/// The unicast grants of a slot's first round that were not accepted.
#[derive(Clone, Copy)]
pub struct Refused {
    /// The outputs whose grant was refused.
    pub outputs: Ports,
    /// For each of them the input that it granted.
    pub inputs: [u32; PORT_COUNT],
    /// For each of them the level of the grant.
    pub levels: [u8; PORT_COUNT],
}

/// Tells the unicast grants of the first round, of which `first_outputs` were accepted. What `refused` held is not read.
pub(crate) fn refused_grants(
    n: u32,
    first_kind: Kind,
    asks: &Asks,
    p: &Pointers,
    first_outputs: Ports,
    refused: &mut Refused,
)
    requires some { 0 < n }
    requires size { n ≤ MAX_PORTS }
    requires ports { p.now.ports ≡ n }
    ensures { AreToldOf n first_kind asks.now p.now (λ j. ((j < n) × (Has first_outputs j → ⊥)) × IsNamed asks.now j) refused.new }
{
    let ready = all_ready(n, first_kind, asks);
    refused.outputs = 0;
    let left = difference(all(n), first_outputs);
    let mut rest = intersection(left, asks.named());
    while let Some(j) = lowest(rest) {
        let choice = chosen(n, first_kind, asks, &ready, p, j);
        note(first_kind, j, choice, refused);
        rest = without(rest, j);
    }
}

// Before the first round all inputs may ask.
fn all_ready(n: u32, first_kind: Kind, asks: &Asks) -> Ready
    requires some { 0 < n }
    requires size { n ≤ MAX_PORTS }
    ensures { AreReady n first_kind asks.now (unmatched n) result }
{
    ready_inputs(first_kind, asks, &Match::new(n))
}

/// No grant.
pub(crate) fn none_refused() -> Refused {
    Refused {
        outputs: 0,
        inputs: [0; PORT_COUNT],
        levels: [0; PORT_COUNT],
    }
}

// Tells what the output grants, if that is unicast.
fn note(first_kind: Kind, output: u32, choice: Option<Choice>, refused: &mut Refused)
    requires output_in { output < MAX_PORTS }
    requires rank_in { (f : Choice) → choice ≡ Some f → f.rank < RANKS }
    requires new { Has refused.old.outputs output → ⊥ }
    ensures { (i j level : ℕ) → Tells refused.new i j level ↔ (Tells refused.old i j level ⊎ ((j ≡ output) × IsUnicastChoice first_kind choice i level)) }
{
    if let Some(grant) = choice {
        if let Kind::Uni = kind_of(first_kind, grant.rank) {
            refuse(grant.input, output, level_of(grant.rank), refused);
        }
    }
}

// Tells one more grant.
fn refuse(input: u32, output: u32, level: u8, refused: &mut Refused)
    requires output_in { output < MAX_PORTS }
    requires new { Has refused.old.outputs output → ⊥ }
    ensures { (i j l : ℕ) → Tells refused.new i j l ↔ (Tells refused.old i j l ⊎ ((i ≡ input) × (j ≡ output) × (l ≡ level))) }
{
    refused.outputs = with(refused.outputs, output);
    refused.inputs[output as usize] = input;
    refused.levels[output as usize] = level;
}
