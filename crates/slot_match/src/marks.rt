ghost use Rattle.std.specs.Prelude.{◌≡◌, ◌≢◌, ℕ, ◌%◌, ◌<◌, ◌≤◌, ◌↔◌, IsTrue};
ghost use Rattle.std.specs.Int.{bit_at};
ghost use Rattle.rotating_pick.specs.PortSets.{Has};
ghost use Rattle.rotating_pick.specs.declared.kinds.Kind.TheVariants.{Multi};
ghost use Rattle.slot_match.specs.FieldSteps.{level_at, kind_at};

use rotating_pick::{
    Kind, LEVELS, MAX_PORTS, Ports, all, contains, difference, intersection, with, without,
};

/// A level and a kind for each output, as three sets of outputs.
#[derive(Debug, Drop)]
pub(crate) struct Marks {
    // Those at an odd level, 1 or 3.
    low: Ports,
    // Those at level 2 or 3.
    high: Ports,
    // Those of multicast.
    multi: Ports,
}

impl Marks {
    /// Each output has level 0 and is of unicast.
    pub(crate) fn new() -> Marks
        ensures { (j : ℕ) → kind_at result j ≡ Multi → ⊥ }
    {
        Marks {
            low: 0,
            high: 0,
            multi: 0,
        }
    }

    /// The level of the output.
    pub(crate) fn level(&self, output: u32) -> u8
        requires { output < MAX_PORTS }
        ensures { result ≡ level_at self.now output }
    {
        bit(self.low, output) + 2 * bit(self.high, output)
    }

    /// The kind of the output.
    pub(crate) fn kind(&self, output: u32) -> Kind
        requires { output < MAX_PORTS }
        ensures { result ≡ kind_at self.now output }
    {
        if contains(self.multi, output) {
            Kind::Multi
        } else {
            Kind::Uni
        }
    }

    /// The outputs that have the level and the kind.
    pub(crate) fn alike(&self, level: u8, kind: Kind) -> Ports
        requires { level < LEVELS }
        ensures { (j : ℕ) → Has result j ↔ ((j < MAX_PORTS) × (level_at self.now j ≡ level) × (kind_at self.now j ≡ kind)) }
    {
        let of_kind = part(all(MAX_PORTS), self.multi, is_multi(kind));
        let alike = part(of_kind, self.low, is_odd(level));
        part(alike, self.high, is_high(level))
    }

    /// Gives the output the level and the kind.
    pub(crate) fn set(&mut self, output: u32, level: u8, kind: Kind)
        requires output_in { output < MAX_PORTS }
        requires level_in { level < LEVELS }
        ensures level { level_at self.new output ≡ level }
        ensures kind { kind_at self.new output ≡ kind }
        ensures others { (j : ℕ) → j ≢ output → (level_at self.new j ≡ level_at self.old j) × (kind_at self.new j ≡ kind_at self.old j) }
    {
        self.low = put(self.low, output, is_odd(level));
        self.high = put(self.high, output, is_high(level));
        self.multi = put(self.multi, output, is_multi(kind));
    }
}

// The bit of the port: 1 for a member of the set, else 0.
fn bit(ports: Ports, x: u32) -> u8
    requires { x < MAX_PORTS }
    ensures { result ≡ bit_at ports x }
{
    u8::from(contains(ports, x))
}

// Those of the outputs that are in the set, or those that are not.
fn part(outputs: Ports, ports: Ports, inside: bool) -> Ports
    ensures { (j : ℕ) → Has result j ↔ (Has outputs j × (IsTrue inside ↔ Has ports j)) }
{
    if inside {
        intersection(outputs, ports)
    } else {
        difference(outputs, ports)
    }
}

// The set with the port as a member, or without it.
fn put(ports: Ports, x: u32, member: bool) -> Ports
    requires { x < MAX_PORTS }
    ensures here { IsTrue member ↔ Has result x }
    ensures others { (y : ℕ) → y ≢ x → Has result y ↔ Has ports y }
{
    if member {
        with(ports, x)
    } else {
        without(ports, x)
    }
}

// Whether bit 0 of the level is set.
fn is_odd(level: u8) -> bool
    ensures { IsTrue result ↔ (level % 2 ≡ 1) }
{
    level % 2 == 1
}

// Whether bit 1 of the level, which is below 4, is set.
fn is_high(level: u8) -> bool
    ensures { IsTrue result ↔ (2 ≤ level) }
{
    level >= 2
}

fn is_multi(kind: Kind) -> bool
    ensures { IsTrue result ↔ (kind ≡ Multi) }
{
    match kind {
        Kind::Uni => false,
        Kind::Multi => true,
    }
}
