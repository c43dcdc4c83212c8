ghost use Rattle.std.specs.Prelude.{◌≡◌, ℕ, ◌<◌, ◌≤◌, ◌↔◌, ◌⊎◌, length, slice_index};
ghost use Rattle.rotating_pick.specs.PortSets.{Has, IsAmong};
ghost use Rattle.rotating_pick.specs.declared.kinds.Kind.{Kind};
ghost use Rattle.slot_match.specs.Matches.{Serves, IsMatch};
ghost use Rattle.eslip_rounds.specs.Rounds.{Takes};
ghost use Rattle.eslip_rounds.specs.Steps.{IsOpen, AreOpen, IsTaken};

use crate::grants::Offers;
use crate::ranks::{kind_of, level_of};
use pointer_state::Pointers;
use rotating_pick::{Kind, MAX_PORTS, Ports, lowest, pick, with, without};
use slot_match::Match;

/// Matches each input that is granted with what it takes.
pub(crate) fn accept_all(n: u32, first_kind: Kind, offers: &Offers, p: &Pointers, out: &mut Match)
    requires size { n ≤ MAX_PORTS }
    requires ports { p.now.ports ≡ n }
    requires whole { IsMatch n out.old }
    requires open { AreOpen n first_kind out.old offers.now }
    ensures whole { IsMatch n out.new }
    ensures pairs { (i j level : ℕ) (kind : Kind) → Serves out.new i j level kind
        ↔ (Serves out.old i j level kind ⊎ IsTaken n first_kind p.now offers.now i j level kind) }
{
    let mut rest = offers.granted;
    while let Some(i) = lowest(rest) {
        accept(n, first_kind, offers, p, i, out);
        rest = without(rest, i);
    }
}

// Matches input `i` with what it takes of what it is offered.
fn accept(n: u32, first_kind: Kind, offers: &Offers, p: &Pointers, i: u32, out: &mut Match)
    requires size { n ≤ MAX_PORTS }
    requires ports { p.now.ports ≡ n }
    requires whole { IsMatch n out.old }
    requires granted { Has offers.now.granted i }
    requires open { IsOpen n first_kind out.old offers.now i }
    ensures whole { IsMatch n out.new }
    ensures pairs { (x j level : ℕ) (kind : Kind) → Serves out.new x j level kind
        ↔ (Serves out.old x j level kind ⊎ ((x ≡ i) × IsTaken n first_kind p.now offers.now i j level kind)) }
{
    let at = i as usize;
    let rank = offers.ranks[at];
    let level = level_of(rank);
    let kind = kind_of(first_kind, rank);
    let outputs = taken(n, kind, p.accept(i, level), offers.outputs[at]);
    out.add(i, outputs, level, kind);
}

// Of the outputs that grant an input, those that it takes: the first of them for unicast, all for
// multicast.
fn taken(n: u32, kind: Kind, from: u32, offered: Ports) -> Ports
    requires size { n ≤ MAX_PORTS }
    requires from_in { from < n }
    requires among { IsAmong n offered }
    ensures { (j : ℕ) → Has result j ↔ Takes kind n from (Has offered) j }
{
    match kind {
        Kind::Multi => offered,
        Kind::Uni => match pick(n, from, offered) {
            Some(j) => with(0, j),
            None => 0,
        },
    }
}
