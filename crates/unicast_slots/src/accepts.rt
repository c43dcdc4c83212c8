ghost use Rattle.std.specs.Prelude.{◌≡◌, ℕ, ◌<◌, ◌≤◌, ◌↔◌, ◌⊎◌};
ghost use Rattle.rotating_pick.specs.PortSets.{Has, IsAmong};
ghost use Rattle.rotating_pick.specs.declared.kinds.Kind.{Kind};
ghost use Rattle.rotating_pick.specs.declared.kinds.Kind.TheVariants.{Uni};
ghost use Rattle.slot_match.specs.Matches.{Serves, IsMatch};
ghost use Rattle.eslip_rounds.specs.Rounds.{Takes};
ghost use Rattle.eslip_rounds.specs.Steps.{IsOpen, AreOpen, IsTaken};
ghost use Rattle.unicast_slots.specs.RoundSteps.{offers_of};

use crate::grants::Offers;
use pointer_state::Pointers;
use rotating_pick::{Kind, MAX_PORTS, Ports, lowest, pick, with, without};
use slot_match::Match;

/// Matches each input that is granted with the output that it takes.
pub(crate) fn accept_all(n: u32, offers: &Offers, p: &Pointers, out: &mut Match)
    requires size { n ≤ MAX_PORTS }
    requires ports { p.now.ports ≡ n }
    requires whole { IsMatch n out.old }
    requires open { AreOpen n Uni out.old (offers_of offers.now) }
    ensures whole { IsMatch n out.new }
    ensures pairs { (i j level : ℕ) (kind : Kind) → Serves out.new i j level kind
        ↔ (Serves out.old i j level kind ⊎ IsTaken n Uni p.now (offers_of offers.now) i j level kind) }
{
    let mut rest = offers.granted;
    while let Some(i) = lowest(rest) {
        accept(n, offers, p, i, out);
        rest = without(rest, i);
    }
}

// Matches input `i` with the output that it takes.
fn accept(n: u32, offers: &Offers, p: &Pointers, i: u32, out: &mut Match)
    requires size { n ≤ MAX_PORTS }
    requires ports { p.now.ports ≡ n }
    requires whole { IsMatch n out.old }
    requires granted { Has offers.now.granted i }
    requires open { IsOpen n Uni out.old (offers_of offers.now) i }
    ensures whole { IsMatch n out.new }
    ensures pairs { (x j level : ℕ) (kind : Kind) → Serves out.new x j level kind
        ↔ (Serves out.old x j level kind ⊎ ((x ≡ i) × IsTaken n Uni p.now (offers_of offers.now) i j level kind)) }
{
    let output = taken(n, p.accept(i, 0), offers.outputs[i as usize]);
    out.add(i, output, 0, Kind::Uni);
}

// The output that an input takes of those that grant it: the first of them from its pointer on.
fn taken(n: u32, from: u32, offered: Ports) -> Ports
    requires size { n ≤ MAX_PORTS }
    requires from_in { from < n }
    requires among { IsAmong n offered }
    ensures { (j : ℕ) → Has result j ↔ Takes Uni n from (Has offered) j }
{
    match pick(n, from, offered) {
        Some(j) => with(0, j),
        None => 0,
    }
}
