ghost use Rattle.std.specs.Prelude.{◌≡◌, ℕ, Some, None, ◌+◌, ◌<◌, ◌≤◌, ◌↔◌, ◌⊎◌, List, Option, length, count_by, is_some, IsTrue, IsNone, IfSome};
ghost use Rattle.rotating_pick.specs.PortSets.{Has};
ghost use Rattle.rotating_pick.specs.declared.kinds.Kind.{Kind};
ghost use Rattle.rotating_pick.specs.declared.kinds.Kind.TheVariants.{Multi};
ghost use Rattle.slot_match.specs.declared.matching.Fed.{Fed};
ghost use Rattle.slot_match.specs.Rows.{AreWithin, Names};
ghost use Rattle.slot_match.specs.Matches.{unmatched, fed_of, Serves, IsFreeInput, IsFreeOutput, IsMulticasting, IsServed, IsMatch, MayAdd, IsMaximal};
ghost use Rattle.slot_match.specs.Keeping.{Gives};
ghost use Rattle.slot_match.specs.Parts.{is_from, served_of};
ghost use Rattle.slot_match.specs.Steps.{IsReady, Wants};

use crate::feeds::Feeds;
use crate::rows::Row;
use rotating_pick::{
    Kind, LEVELS, MAX_PORTS, Ports, all, contains, difference, intersection, is_empty, is_subset,
    lowest, with, without,
};
use std::marker::Model;
use std::mem::size_of;

// A journal keeps a match for each slot, so a match must stay small.
const _: () = prove!(size_of::<Match>() <= 112);

/// What feeds an output in a slot.
#[derive(Clone, Copy, Debug, PartialEq, Eq)]
pub struct Fed {
    pub input: u32,
    pub level: u8,
    pub kind: Kind,
}

/// What a slot gives an input: all outputs that it is matched with.
#[derive(Clone, Copy, Debug, PartialEq, Eq)]
pub struct Served {
    pub outputs: Ports,
    pub level: u8,
    pub kind: Kind,
}

impl Served {
    /// The outputs that the part serves at the level with the kind: all of its outputs, or none.
    pub fn given(&self, level: u8, kind: Kind) -> Ports
        ensures { (j : ℕ) → Has result j ↔ Gives (Some self.now) j level kind }
    {
        if self.level == level && self.kind == kind {
            self.outputs
        } else {
            0
        }
    }
}

/// The match of a slot: what feeds each output.
///
/// Contracts see the list of what feeds each output, as many as there are ports. No output is fed
/// twice, and no input feeds two outputs but those of one multicast head.
#[derive(Debug, Drop)]
pub struct Match {
    ports: u32,
    // How many outputs are matched.
    count: u32,
    fed: Feeds,
    free_inputs: Ports,
    free_outputs: Ports,
}

impl Model for Match {
    ghost use Rattle.std.specs.Prelude.{List, Option, take};
    ghost use Rattle.slot_match.specs.declared.matching.Fed.{Fed};
    ghost use Rattle.slot_match.specs.FieldSteps.{AreKept};

    ghost Value = { List (Option Fed) };

    ghost view = { λ m. take m.ports m.fed };

    ghost invariant = { λ m. AreKept m.ports m.fed m.count m.free_inputs m.free_outputs };
}

impl Match {
    /// The match of a switch of `n` ports, 1 to 64, in which nothing is matched.
    pub fn new(n: u32) -> Match
        requires some { 0 < n }
        requires size { n ≤ MAX_PORTS }
        ensures value { result ≡ unmatched n }
        ensures whole { IsMatch n result }
    {
        Match {
            ports: n,
            count: 0,
            fed: Feeds::new(),
            free_inputs: all(n),
            free_outputs: all(n),
        }
    }

    /// The number of ports of the switch, 1 to 64.
    pub fn ports(&self) -> u32
        ensures value { result ≡ length self.now }
        ensures some { 0 < result }
        ensures size { result ≤ MAX_PORTS }
        ensures whole { IsMatch result self.now }
    {
        self.ports
    }

    /// How many outputs are matched.
    pub fn count(&self) -> u32
        ensures { result ≡ count_by is_some self.now }
    {
        self.count
    }

    /// What feeds the output, None exactly where it is free.
    pub fn fed(&self, output: u32) -> Option<Fed>
        requires { output < length self.now }
        ensures value { result ≡ fed_of self.now output }
        ensures free { IsNone result ↔ IsFreeOutput self.now output }
    {
        self.fed.get(output)
    }

    /// The outputs that are free.
    pub fn free_outputs(&self) -> Ports
        ensures { (j : ℕ) → Has result j ↔ ((j < length self.now) × IsFreeOutput self.now j) }
    {
        self.free_outputs
    }

    /// The inputs that are free.
    pub fn free_inputs(&self) -> Ports
        ensures { (i : ℕ) → Has result i ↔ ((i < length self.now) × IsFreeInput self.now i) }
    {
        self.free_inputs
    }

    /// The inputs that are matched as multicast of the level.
    pub fn multicasting(&self, level: u8) -> Ports
        requires { level < LEVELS }
        ensures { (i : ℕ) → Has result i ↔ IsMulticasting self.now i level }
    {
        self.fed.multicasting(level)
    }

    /// The outputs that are fed at the level, as unicast or as multicast.
    pub fn outputs_at(&self, level: u8, kind: Kind) -> Ports
        requires { level < LEVELS }
        ensures { (j : ℕ) → Has result j ↔ ((i : ℕ) × Serves self.now i j level kind) }
    {
        let fed = difference(all(self.ports), self.free_outputs);
        intersection(fed, self.fed.alike(level, kind))
    }

    /// The input's part of the match, None exactly where it is free.
    pub fn served(&self, input: u32) -> Option<Served>
        requires { input < length self.now }
        ensures value { result ≡ served_of self.now input }
        ensures free { IsNone result ↔ IsFreeInput self.now input }
        ensures part { IfSome result (IsServed self.now input) }
    {
        if contains(self.free_inputs, input) {
            return None;
        }
        let outputs = self.fed_by(input);
        let Some(output) = lowest(outputs) else {
            return None;
        };
        match self.fed.get(output) {
            Some(fed) => Some(Served {
                outputs,
                level: fed.level,
                kind: fed.kind,
            }),
            None => None,
        }
    }

    // The outputs that the input feeds.
    fn fed_by(&self, input: u32) -> Ports
        ensures { (j : ℕ) → Has result j ↔ ((level : ℕ) × (kind : Kind) × Serves self.now input j level kind) }
    {
        let mut outputs = 0;
        for output in 0..self.ports {
            if is_from(self.fed.get(output), input) {
                outputs = with(outputs, output);
            }
        }
        outputs
    }

    /// Whether the match may gain these pairs of the input: there is an output, each is free and below
    /// the number of ports, unicast has one alone, and the input is free, or goes on with a head that
    /// it is matched with as multicast of this level.
    pub fn may_add(&self, input: u32, outputs: Ports, level: u8, kind: Kind) -> bool
        requires input_in { input < length self.now }
        requires level_in { level < LEVELS }
        ensures { IsTrue result ↔ MayAdd (length self.now) self.now input outputs level kind }
    {
        if is_empty(outputs) || !is_subset(outputs, self.free_outputs) {
            return false;
        }
        self.is_ready(input, outputs, level, kind)
    }

    // Whether the input may be matched with these outputs, if they are free: with one alone for unicast,
    // and where it is free or goes on with its head.
    fn is_ready(&self, input: u32, outputs: Ports, level: u8, kind: Kind) -> bool
        requires input_in { input < length self.now }
        requires level_in { level < LEVELS }
        ensures { IsTrue result ↔ IsReady self.now input outputs level kind }
    {
        let free = contains(self.free_inputs, input);
        match kind {
            Kind::Uni => free && is_single(outputs),
            Kind::Multi => free || contains(self.multicasting(level), input),
        }
    }

    /// Matches the input with the outputs, where [`Match::may_add`] allows it. All earlier pairs stay.
    #[inline(always)]
    pub fn add(&mut self, input: u32, outputs: Ports, level: u8, kind: Kind)
        requires input_in { input < length self.old }
        requires level_in { level < LEVELS }
        requires may { MayAdd (length self.old) self.old input outputs level kind }
        ensures count { length self.new ≡ length self.old }
        ensures fed { (j : ℕ) → Has outputs j → Serves self.new input j level kind }
        ensures stays { (j : ℕ) → (Has outputs j → ⊥) → fed_of self.new j ≡ fed_of self.old j }
        ensures whole { IsMatch (length self.new) self.new }
    {
        self.count += feed(&mut self.fed, outputs, Fed { input, level, kind });
        self.free_inputs = without(self.free_inputs, input);
        self.free_outputs = difference(self.free_outputs, outputs);
    }

    /// Whether no free input's row names a free output, and no input that is matched as multicast has
    /// a free output in the rest of its head.
    pub fn is_maximal(&self, rows: &[Row]) -> bool
        requires { AreWithin (length self.now) rows.now }
        ensures { IsTrue result ↔ IsMaximal (length self.now) rows.now self.now }
    {
        for i in 0..self.ports {
            let wanted = self.wanted(i, &rows[i as usize]);
            if !is_empty(intersection(wanted, self.free_outputs)) {
                return false;
            }
        }
        true
    }

    // The outputs that the input could take, with this row, if they were free.
    fn wanted(&self, input: u32, row: &Row) -> Ports
        requires { input < length self.now }
        ensures { (j : ℕ) → Has result j ↔ Wants self.now input row.now j }
    {
        if contains(self.free_inputs, input) {
            return row.named();
        }
        match self.served(input) {
            Some(part) => rest_of(part, row),
            None => 0,
        }
    }
}

// The rest of the head that the part is of, and none where it is of unicast.
fn rest_of(part: Served, row: &Row) -> Ports
    requires { part.level < LEVELS }
    ensures { (j : ℕ) → Has result j ↔ ((part.kind ≡ Multi) × Names row.now part.level Multi j) }
{
    match part.kind {
        Kind::Uni => 0,
        Kind::Multi => row.outputs(part.level, Kind::Multi),
    }
}

// Whether the set has one member at most.
fn is_single(ports: Ports) -> bool
    ensures { IsTrue result ↔ ((j k : ℕ) → Has ports j → Has ports k → j ≡ k) }
{
    match lowest(ports) {
        Some(j) => is_empty(without(ports, j)),
        None => true,
    }
}

// Feeds the outputs by one input, and says how many they are.
fn feed(fed: &mut Feeds, outputs: Ports, by: Fed) -> u32
    requires input_in { by.input < MAX_PORTS }
    requires level_in { by.level < LEVELS }
    requires long { length fed.old ≡ MAX_PORTS }
    requires free { (j : ℕ) → Has outputs j → fed_of fed.old j ≡ None }
    ensures long { length fed.new ≡ MAX_PORTS }
    ensures fed { (j : ℕ) → Has outputs j → fed_of fed.new j ≡ Some by }
    ensures stays { (j : ℕ) → (Has outputs j → ⊥) → fed_of fed.new j ≡ fed_of fed.old j }
    ensures counted { count_by is_some fed.new ≡ count_by is_some fed.old + result }
{
    let mut count = 0;
    let mut rest = outputs;
    while let Some(output) = lowest(rest) {
        fed.set(output, by);
        rest = without(rest, output);
        count += 1;
    }
    count
}

// Whether what feeds an output is the input.
fn is_from(fed: Option<Fed>, input: u32) -> bool
    ensures { result ≡ is_from input fed }
{
    match fed {
        Some(fed) => fed.input == input,
        None => false,
    }
}
