ghost use Rattle.std.specs.Prelude.{◌≡◌, ℕ, ◌<◌, ◌≤◌};
ghost use Rattle.pointer_state.specs.Places.{AreAtPorts};
ghost use Rattle.slot_match.specs.Rows.{AreWithin};
ghost use Rattle.slot_match.specs.Matches.{IsMatch};
ghost use Rattle.eslip_rounds.specs.Calls.{CanDecide, IsDecidedBy};
ghost use Rattle.eslip_rounds.specs.Decisions.{decision_of};
ghost use Rattle.eslip_rounds.specs.OneLevel.{AreUnicastOf};
ghost use Rattle.eslip_rounds.specs.Rounds.{IsRound};
ghost use Rattle.eslip_rounds.specs.Slots.{AreMoved};
ghost use Rattle.eslip_rounds.specs.Steps.{AreMade};

use crate::accepts::accept_all;
use crate::grants::{Offers, grant_all, no_offers};
use crate::moves::meet;
use crate::rows::UnicastRows;
use islip_rounds::RoundsUsed;
use pointer_state::Pointers;
use rotating_pick::{MAX_PORTS, MAX_ROUNDS, Ports, all, difference};
use slot_match::Match;
use std::marker::Model;

/// A scheduler of iSLIP for one level of unicast, with what it works in from slot to slot. No slot sees what an earlier
/// one left.
#[derive(Drop)]
pub struct UnicastScheduler {
    offers: Offers,
}

impl Model for UnicastScheduler {
    ghost Value = { Unit {0} };

    ghost view = { λ _. tt };
}

impl UnicastScheduler {
    /// One that no slot has used. Takes no memory.
    pub fn new() -> UnicastScheduler {
        UnicastScheduler {
            offers: no_offers(),
        }
    }

    /// Decides a slot of a switch of `n` ports in `rounds` rounds, each from 1 to 64: sets `out` to the match, moves the
    /// pointers and answers how the rounds were used, as `decide()` of `eslip_rounds` does in every slot. There are `n`
    /// rows within `n`, and `p` and `out` are for `n` ports. Takes no memory.
    pub fn decide(
        &mut self,
        n: u32,
        rounds: u32,
        rows: &UnicastRows,
        p: &mut Pointers,
        out: &mut Match,
    ) -> RoundsUsed
        requires { CanDecide n rounds rows.now p.old out.old }
        ensures { (slot : ℕ) → IsDecidedBy AreMoved decision_of n rounds slot rows.now p.old
            (record { matched = out.new; numbers = result; places = p.new }) }
    {
        prove!(p.ports() == n);
        rows.are_unicast();
        let made = make_rounds(n, rounds, rows, &mut self.offers, p, out);
        meet(out, made.first_outputs, p);
        made.numbers
    }
}

// What is told of the rounds of a slot beside their match.
#[derive(Clone, Copy)]
struct Made {
    // How the rounds were used.
    numbers: RoundsUsed,
    // The outputs that the first of them matched.
    first_outputs: Ports,
}

// Makes the rounds of a slot of these rows, and sets `out` to their match. What `offers` held is not read.
fn make_rounds(
    n: u32,
    rounds: u32,
    rows: &UnicastRows,
    offers: &mut Offers,
    p: &Pointers,
    out: &mut Match,
) -> Made
    requires some { 0 < n }
    requires size { n ≤ MAX_PORTS }
    requires rounds_some { 0 < rounds }
    requires rounds_few { rounds ≤ MAX_ROUNDS }
    requires ports { p.now.ports ≡ n }
    requires at_ports { AreAtPorts p.now }
    requires rows { AreWithin n rows.now }
    requires unicast { AreUnicastOf 0 rows.now }
    ensures made { (t : ℕ) → AreMade n rounds t rows.now p.now out.new (record { numbers = result.numbers; first_outputs = result.first_outputs }) }
    ensures whole { IsMatch n out.new }
{
    *out = Match::new(n);
    round(n, rows, offers, p, out);
    let first_outputs = difference(all(n), out.free_outputs());
    let mut matched = out.count();
    let mut added = matched;
    let mut numbers = RoundsUsed::none().after_round(0, added);
    for done in 1..rounds {
        // Once a round adds nothing, no later one would.
        if added > 0 {
            round(n, rows, offers, p, out);
            let now = out.count();
            added = now.saturating_sub(matched);
            matched = now;
        }
        numbers = numbers.after_round(done, added);
    }
    Made {
        numbers,
        first_outputs,
    }
}

// One round: the free outputs that are asked for grant, and the inputs that are granted accept.
fn round(n: u32, rows: &UnicastRows, offers: &mut Offers, p: &Pointers, out: &mut Match)
    requires size { n ≤ MAX_PORTS }
    requires ports { p.now.ports ≡ n }
    requires at_ports { AreAtPorts p.now }
    requires whole { IsMatch n out.old }
    requires rows { AreWithin n rows.now }
    requires unicast { AreUnicastOf 0 rows.now }
    ensures round { (t : ℕ) → IsRound n t rows.now p.now out.old out.new }
    ensures whole { IsMatch n out.new }
{
    grant_all(n, rows, p, out, offers);
    accept_all(n, offers, p, out);
}
