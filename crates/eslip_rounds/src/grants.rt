ghost use Rattle.std.specs.Prelude.{◌≡◌, ◌≢◌, ℕ, Some, ◌<◌, ◌≤◌, ◌↔◌, length, slice_index};
ghost use Rattle.rotating_pick.specs.PortSets.{Has};
ghost use Rattle.rotating_pick.specs.declared.kinds.Kind.{Kind};
ghost use Rattle.slot_match.specs.Matches.{IsMatch};
ghost use Rattle.eslip_rounds.specs.declared.grants.Choice.{Choice};
ghost use Rattle.eslip_rounds.specs.Rounds.{from_of};
ghost use Rattle.eslip_rounds.specs.RankSteps.{level_at, kind_at};
ghost use Rattle.eslip_rounds.specs.Steps.{MayAsk, AreReady, KeepsToPorts, IsChosen, AreOffers, IsOffered};

use crate::asks::Asks;
use crate::ranks::{RANKS, kind_of, level_of, set_of};
use pointer_state::Pointers;
use rotating_pick::{
    Kind, LEVELS, MAX_PORTS, PORT_COUNT, Ports, contains, intersection, is_empty, lowest, pick,
    union, with, without,
};
use slot_match::Match;

/// The inputs that may ask.
#[derive(Drop)]
pub(crate) struct Ready {
    /// The ranks at which some row names an output.
    pub ranks: Ports,
    /// For each of them the inputs that may ask there.
    pub inputs: [Ports; RANKS],
}

/// The inputs that may ask at each rank that occurs.
pub(crate) fn ready_inputs(first_kind: Kind, asks: &Asks, matched: &Match) -> Ready
    requires { IsMatch (length matched.now) matched.now }
    ensures { AreReady (length matched.now) first_kind asks.now matched.now result }
{
    let mut ready = nobody_ready();
    for rank in 0..RANKS as u32 {
        if !is_empty(asks.outputs[set_of(first_kind, rank)]) {
            ready.ranks = with(ready.ranks, rank);
            ready.inputs[rank as usize] = ready_at(
                matched,
                level_of(rank),
                kind_of(first_kind, rank),
            );
        }
    }
    ready
}

// Nobody, at no rank.
fn nobody_ready() -> Ready
    ensures { result.ranks ≡ 0 }
{
    Ready {
        ranks: 0,
        inputs: [0; RANKS],
    }
}

// The inputs that may ask at the level with the kind.
fn ready_at(matched: &Match, level: u8, kind: Kind) -> Ports
    requires whole { IsMatch (length matched.now) matched.now }
    requires level_in { level < LEVELS }
    ensures { (i : ℕ) → Has result i ↔ ((i < length matched.now) × MayAsk matched.now level kind i) }
{
    match kind {
        Kind::Uni => matched.free_inputs(),
        Kind::Multi => union(matched.free_inputs(), matched.multicasting(level)),
    }
}

/// The input that an output grants, and at which rank.
#[derive(Clone, Copy)]
pub(crate) struct Choice {
    pub rank: u32,
    pub input: u32,
}

/// What the inputs are granted: each at its best rank alone.
#[derive(Drop)]
pub(crate) struct Offers {
    /// The inputs that are granted.
    pub granted: Ports,
    /// For each of them the best rank at which it is granted.
    pub ranks: [u32; PORT_COUNT],
    /// For each of them the outputs that grant it at that rank.
    pub outputs: [Ports; PORT_COUNT],
}

/// Offers what each of the free outputs grants. Nothing was offered before.
pub(crate) fn offer_all(
    n: u32,
    first_kind: Kind,
    asks: &Asks,
    ready: &Ready,
    p: &Pointers,
    free_outputs: Ports,
    offers: &mut Offers,
)
    requires size { n ≤ MAX_PORTS }
    requires ports { p.now.ports ≡ n }
    requires ready { KeepsToPorts n ready.now }
    requires free { (j : ℕ) → Has free_outputs j → j < n }
    requires nothing { offers.old.granted ≡ 0 }
    ensures { AreOffers (λ i j rank. Has free_outputs j × IsChosen n first_kind asks.now ready.now p.now j (record { rank = rank; input = i })) offers.new }
{
    let mut rest = free_outputs;
    while let Some(j) = lowest(rest) {
        if let Some(choice) = chosen(n, first_kind, asks, ready, p, j) {
            offer(offers, choice.input, j, choice.rank);
        }
        rest = without(rest, j);
    }
}

/// No offer.
pub(crate) fn no_offers() -> Offers
    ensures { result.granted ≡ 0 }
{
    Offers {
        granted: 0,
        ranks: [0; PORT_COUNT],
        outputs: [0; PORT_COUNT],
    }
}

/// What output `j` grants: of the inputs that ask it at the lowest rank, the first from its pointer on.
pub(crate) fn chosen(
    n: u32,
    first_kind: Kind,
    asks: &Asks,
    ready: &Ready,
    p: &Pointers,
    j: u32,
) -> Option<Choice>
    requires size { n ≤ MAX_PORTS }
    requires ports { p.now.ports ≡ n }
    requires j_in { j < n }
    requires ready { KeepsToPorts n ready.now }
    ensures { (f : Choice) → (result ≡ Some f) ↔ IsChosen n first_kind asks.now ready.now p.now j f }
{
    let mut rest = ready.ranks;
    while let Some(rank) = lowest(rest) {
        let column = asks.columns[set_of(first_kind, rank)][j as usize];
        let asking = intersection(column, ready.inputs[rank as usize]);
        if let Some(input) = pick(n, pointer_at(p, first_kind, j, rank), asking) {
            return Some(Choice { rank, input });
        }
        rest = without(rest, rank);
    }
    None
}

// From where output `j` picks at the rank.
fn pointer_at(p: &Pointers, first_kind: Kind, j: u32, rank: u32) -> u32
    requires j_in { j < p.now.ports }
    requires rank_in { rank < RANKS }
    ensures value { result ≡ from_of p.now j (level_at rank) (kind_at first_kind rank) }
    ensures within { result < p.now.ports }
{
    let level = level_of(rank);
    match kind_of(first_kind, rank) {
        Kind::Uni => p.grant(j, level),
        Kind::Multi => p.shared(level),
    }
}

// Adds what an output grants to what the input is offered.
fn offer(offers: &mut Offers, input: u32, output: u32, rank: u32)
    requires input_in { input < MAX_PORTS }
    requires output_in { output < MAX_PORTS }
    ensures { IsOffered offers.old offers.new input output rank }
{
    let at = input as usize;
    let granted = contains(offers.granted, input);
    offers.granted = with(offers.granted, input);
    if !granted || rank < offers.ranks[at] {
        offers.ranks[at] = rank;
        offers.outputs[at] = with(0, output);
    } else if rank == offers.ranks[at] {
        offers.outputs[at] = with(offers.outputs[at], output);
    }
}
