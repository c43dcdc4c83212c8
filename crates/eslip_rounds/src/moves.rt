ghost use Rattle.std.specs.Prelude.{◌≡◌, ℕ, Some, ◌<◌, ◌≤◌, ◌↔◌, List, Option, slice_index, IsTrue};
ghost use Rattle.rotating_pick.specs.PortSets.{Has};
ghost use Rattle.rotating_pick.specs.declared.kinds.Kind.TheVariants.{Uni, Multi};
ghost use Rattle.slot_match.specs.declared.matching.Fed.{Fed};
ghost use Rattle.slot_match.specs.Keeping.{Gives};
ghost use Rattle.slot_match.specs.Rows.{AreWithin, HasHead};
ghost use Rattle.slot_match.specs.Matches.{Serves, IsMatch, Completes};
ghost use Rattle.pointer_state.specs.Places.{AreAtPorts, grant_of, accept_of, shared_of};
ghost use Rattle.eslip_rounds.specs.Slots.{AreMoved};
ghost use Rattle.eslip_rounds.specs.Steps.{AreAsks, AreMet, IsPassed};

use crate::asks::Asks;
use crate::ranks::set_of_heads;
use pointer_state::Pointers;
use rotating_pick::{
    Kind, LEVELS, MAX_PORTS, PORT_COUNT, Ports, is_empty, is_subset, lowest, pick, union, without,
};
use slot_match::{Fed, Match, Row, Served};

/// Moves the pointers after the rounds of a slot: those of the unicast pairs of `first_outputs`, which the
/// first round matched, and each level's shared pointer.
pub(crate) fn move_pointers(
    n: u32,
    rows: &[Row],
    asks: &Asks,
    matched: &Match,
    first_outputs: Ports,
    p: &mut Pointers,
)
    requires at_ports { AreAtPorts p.old }
    requires size { n ≤ MAX_PORTS }
    requires ports { p.old.ports ≡ n }
    requires whole { IsMatch n matched.now }
    requires rows { AreWithin n rows.now }
    requires asks { AreAsks n rows.now asks.now }
    requires first_outputs { (j : ℕ) → Has first_outputs j → j < n }
    ensures moved { (t : ℕ) (first_match : List (Option Fed))
        → ((i j level : ℕ) → (Has first_outputs j × Serves matched.now i j level Uni) ↔ Serves first_match i j level Uni)
        → AreMoved n t rows.now first_match matched.now p.old p.new }
    ensures at_ports { AreAtPorts p.new }
{
    meet(matched, first_outputs, p);
    pass_all(n, rows, asks, matched, p);
}

// Moves the pointers of each unicast pair of the outputs that the first round matched.
fn meet(matched: &Match, first_outputs: Ports, p: &mut Pointers)
    requires at_ports { AreAtPorts p.old }
    requires whole { IsMatch p.old.ports matched.now }
    requires first_outputs { (j : ℕ) → Has first_outputs j → j < p.old.ports }
    requires once { (i j k level : ℕ) → Has first_outputs j → Has first_outputs k → Serves matched.now i j level Uni → Serves matched.now i k level Uni
        → j ≡ k }
    ensures met { AreMet (λ i j level. Has first_outputs j × Serves matched.now i j level Uni) p.old p.new }
    ensures at_ports { AreAtPorts p.new }
{
    let mut rest = first_outputs;
    while let Some(j) = lowest(rest) {
        meet_one(matched.fed(j), j, p);
        rest = without(rest, j);
    }
}

// Moves each level's shared pointer one beyond the first head from it on, where that completes.
fn pass_all(n: u32, rows: &[Row], asks: &Asks, matched: &Match, p: &mut Pointers)
    requires at_ports { AreAtPorts p.old }
    requires size { n ≤ MAX_PORTS }
    requires ports { p.old.ports ≡ n }
    requires whole { IsMatch n matched.now }
    requires rows { AreWithin n rows.now }
    requires asks { AreAsks n rows.now asks.now }
    ensures passed { (level : ℕ) → level < LEVELS → IsPassed n rows.now matched.now p.old p.new level }
    ensures beyond { (level : ℕ) → LEVELS ≤ level → shared_of p.new level ≡ shared_of p.old level }
    ensures ports { p.new.ports ≡ p.old.ports }
    ensures grants { (j level : ℕ) → grant_of p.new j level ≡ grant_of p.old j level }
    ensures accepts { (i level : ℕ) → accept_of p.new i level ≡ accept_of p.old i level }
    ensures at_ports { AreAtPorts p.new }
{
    for level in 0..LEVELS as u8 {
        pass(n, rows, asks, matched, level, p);
    }
}

// Moves the pointers of what feeds output `j`, if that is unicast.
fn meet_one(fed: Option<Fed>, j: u32, p: &mut Pointers)
    requires at_ports { AreAtPorts p.old }
    requires j_in { j < p.old.ports }
    requires input_in { (f : Fed) → fed ≡ Some f → f.input < p.old.ports }
    requires level_in { (f : Fed) → fed ≡ Some f → f.level < LEVELS }
    ensures met { AreMet (λ i y level. (y ≡ j) × (fed ≡ Some (record { input = i; level = level; kind = Uni }))) p.old p.new }
    ensures at_ports { AreAtPorts p.new }
{
    if let Some(pair) = fed {
        if let Kind::Uni = pair.kind {
            p.met(pair.input, j, pair.level);
        }
    }
}

// Moves the level's shared pointer one beyond the first head from it on, where that completes.
fn pass(n: u32, rows: &[Row], asks: &Asks, matched: &Match, level: u8, p: &mut Pointers)
    requires at_ports { AreAtPorts p.old }
    requires size { n ≤ MAX_PORTS }
    requires ports { p.old.ports ≡ n }
    requires whole { IsMatch n matched.now }
    requires rows { AreWithin n rows.now }
    requires asks { AreAsks n rows.now asks.now }
    requires level_in { level < LEVELS }
    ensures passed { IsPassed n rows.now matched.now p.old p.new level }
    ensures others { (other : ℕ) → (other ≡ level → ⊥) → shared_of p.new other ≡ shared_of p.old other }
    ensures ports { p.new.ports ≡ p.old.ports }
    ensures grants { (j other : ℕ) → grant_of p.new j other ≡ grant_of p.old j other }
    ensures accepts { (i other : ℕ) → accept_of p.new i other ≡ accept_of p.old i other }
    ensures at_ports { AreAtPorts p.new }
{
    let posted = heads(n, rows, asks, level);
    if let Some(i) = pick(n, p.shared(level), posted) {
        let fan = rows[i as usize].multi[level as usize];
        if completes(fan, matched.served(i), level) {
            p.passed(level, i);
        }
    }
}

// The inputs that post a multicast head at the level.
fn heads(n: u32, rows: &[Row], asks: &Asks, level: u8) -> Ports
    requires size { n ≤ MAX_PORTS }
    requires rows { AreWithin n rows.now }
    requires asks { AreAsks n rows.now asks.now }
    requires level_in { level < LEVELS }
    ensures { (i : ℕ) → Has result i ↔ ((i < n) × HasHead rows.now level i) }
{
    let set = set_of_heads(level);
    joined(asks.outputs[set], &asks.columns[set])
}

// The inputs that are in any of the columns of these outputs.
fn joined(outputs: Ports, columns: &[Ports; PORT_COUNT]) -> Ports
    ensures { (i : ℕ) → Has result i ↔ ((j : ℕ) × Has outputs j × Has (slice_index columns.now j) i) }
{
    let mut all = 0;
    let mut rest = outputs;
    while let Some(j) = lowest(rest) {
        all = union(all, columns[j as usize]);
        rest = without(rest, j);
    }
    all
}

// Whether the part serves all of the fan-out, as multicast of the level.
fn completes(fan: Ports, served: Option<Served>, level: u8) -> bool
    ensures { IsTrue result ↔ ((j : ℕ) → Has fan j → Gives served j level Multi) }
{
    match served {
        Some(part) => is_subset(fan, part.given(level, Kind::Multi)),
        None => is_empty(fan),
    }
}
