ghost use Rattle.std.specs.Prelude.{◌≡◌, ℕ, ◌<◌, ◌≤◌, List};
ghost use Rattle.pointer_state.specs.Places.{AreAtPorts};
ghost use Rattle.slot_match.specs.declared.rows.Row.{Row};
ghost use Rattle.slot_match.specs.Matches.{IsMatch};
ghost use Rattle.eslip_rounds.specs.Rounds.{preferred};
ghost use Rattle.eslip_rounds.specs.Steps.{AreNamed, AreAsks, IsStep, AreMade};

use crate::accepts::accept_all;
use crate::asks::Asks;
use crate::grants::{Offers, offer_all, ready_inputs};
use islip_rounds::RoundsUsed;
use pointer_state::Pointers;
use rotating_pick::{Kind, MAX_PORTS, MAX_ROUNDS, Ports, all, difference, intersection};
use slot_match::Match;

/// What is told of the rounds of a slot beside their match.
#[derive(Clone, Copy)]
pub(crate) struct Made {
    /// How the rounds were used.
    pub numbers: RoundsUsed,
    /// The outputs that the first of them matched.
    pub first_outputs: Ports,
}

/// Makes the rounds of a slot, whose rows have these columns, and sets `out` to their match. What `offers`
/// held is not read.
pub(crate) fn make_rounds(
    n: u32,
    rounds: u32,
    first_kind: Kind,
    asks: &Asks,
    offers: &mut Offers,
    p: &Pointers,
    out: &mut Match,
) -> Made
    requires some { 0 < n }
    requires size { n ≤ MAX_PORTS }
    requires rounds_some { 0 < rounds }
    requires rounds_few { rounds ≤ MAX_ROUNDS }
    requires ports { p.now.ports ≡ n }
    requires at_ports { AreAtPorts p.now }
    requires asked { AreNamed n asks.now }
    ensures made { (t : ℕ) (rows : List Row) → first_kind ≡ preferred t → AreAsks n rows asks.now → AreMade n rounds t rows p.now out.new result }
    ensures whole { IsMatch n out.new }
{
    *out = Match::new(n);
    round(n, first_kind, asks, offers, p, out);
    let first_outputs = difference(all(n), out.free_outputs());
    let mut matched = out.count();
    let mut added = matched;
    let mut numbers = RoundsUsed::none().after_round(0, added);
    for done in 1..rounds {
        // Once a round adds nothing, no later one would.
        if added > 0 {
            round(n, first_kind, asks, offers, p, out);
            let now = out.count();
            added = now.saturating_sub(matched);
            matched = now;
        }
        numbers = numbers.after_round(done, added);
    }
    Made {
        numbers,
        first_outputs,
    }
}

// One round: the free outputs that any row names grant what they are asked, and the inputs accept of
// what they are granted.
fn round(n: u32, first_kind: Kind, asks: &Asks, offers: &mut Offers, p: &Pointers, out: &mut Match)
    requires size { n ≤ MAX_PORTS }
    requires ports { p.now.ports ≡ n }
    requires at_ports { AreAtPorts p.now }
    requires whole { IsMatch n out.old }
    requires asked { AreNamed n asks.now }
    ensures step { IsStep n first_kind asks.now p.now out.old out.new }
    ensures whole { IsMatch n out.new }
{
    let ready = ready_inputs(first_kind, asks, out);
    let asked = intersection(out.free_outputs(), asks.named());
    offers.granted = 0;
    offer_all(n, first_kind, asks, &ready, p, asked, offers);
    accept_all(n, first_kind, offers, p, out);
}
