ghost use Rattle.std.specs.Prelude.{◌≡◌, ℕ, Some, ◌<◌};
ghost use Rattle.rotating_pick.specs.PortSets.{Has};
ghost use Rattle.rotating_pick.specs.declared.kinds.Kind.{Kind};
ghost use Rattle.rotating_pick.specs.declared.kinds.Kind.TheVariants.{Uni};
ghost use Rattle.slot_match.specs.declared.matching.Fed.{Fed};
ghost use Rattle.slot_match.specs.Matches.{Serves, IsMatch};
ghost use Rattle.pointer_state.specs.Places.{AreAtPorts};
ghost use Rattle.eslip_rounds.specs.Steps.{AreMet};

use pointer_state::Pointers;
use rotating_pick::{Ports, lowest, without};
use slot_match::{Fed, Match};

/// Moves the pointers of each pair of these outputs, all of unicast of level 0, one beyond each other.
pub(crate) fn meet(matched: &Match, outputs: Ports, p: &mut Pointers)
    requires at_ports { AreAtPorts p.old }
    requires whole { IsMatch p.old.ports matched.now }
    requires outputs { (j : ℕ) → Has outputs j → j < p.old.ports }
    requires unicast { (i j level : ℕ) (kind : Kind) → Serves matched.now i j level kind → (level ≡ 0) × (kind ≡ Uni) }
    ensures met { AreMet (λ i j level. Has outputs j × Serves matched.now i j level Uni) p.old p.new }
    ensures at_ports { AreAtPorts p.new }
{
    let mut rest = outputs;
    while let Some(j) = lowest(rest) {
        meet_one(matched.fed(j), j, p);
        rest = without(rest, j);
    }
}

// Moves the pointers of what feeds output `j`, if anything does.
fn meet_one(fed: Option<Fed>, j: u32, p: &mut Pointers)
    requires at_ports { AreAtPorts p.old }
    requires j_in { j < p.old.ports }
    requires input_in { (f : Fed) → fed ≡ Some f → f.input < p.old.ports }
    requires unicast { (f : Fed) → fed ≡ Some f → (f.level ≡ 0) × (f.kind ≡ Uni) }
    ensures met { AreMet (λ i y level. (y ≡ j) × (fed ≡ Some (record { input = i; level = level; kind = Uni }))) p.old p.new }
    ensures at_ports { AreAtPorts p.new }
{
    if let Some(pair) = fed {
        p.met(pair.input, j, 0);
    }
}
