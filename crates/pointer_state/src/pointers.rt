ghost use Rattle.std.specs.Prelude.{◌≡◌, ℕ, ◌+◌, ◌%◌, ◌<◌, ◌≤◌, ◌↔◌, IsSome, IfSome, length, replicate, slice_index};
ghost use Rattle.pointer_state.specs.CallerTables.{AreInRange, places_from, tables_of};
ghost use Rattle.pointer_state.specs.Places.{place_of, grant_of, accept_of, shared_of, with_place, IsTable, AreAtPorts, places_at_first, places_met};
ghost use Rattle.pointer_state.specs.Places.{places_passed, places_held};

use crate::caller_tables::PointerTables;
use rotating_pick::{LEVEL_COUNT, LEVELS, MAX_PORTS, PORT_COUNT, next};
use std::marker::Model;

/// Where each output grants from, each input accepts from, and each level's multicast is picked from.
///
/// Contracts see the [`Places`] of `specs/`, and of those each pointer by `grant_of`, `accept_of` and
/// `shared_of`. Every pointer is at one of the switch's ports. Levels are 0 to 3.
#[derive(Clone, Copy, Debug, PartialEq, Eq)]
pub struct Pointers {
    ports: u32,
    grant: [[u32; PORT_COUNT]; LEVEL_COUNT],
    accept: [[u32; PORT_COUNT]; LEVEL_COUNT],
    shared: [u32; LEVEL_COUNT],
}

impl Model for Pointers {
    ghost use Rattle.pointer_state.specs.Places.{Places, AreAtPorts};

    ghost Value = { Places };

    ghost view = { λ p. record { ports = p.ports; grant = p.grant; accept = p.accept; shared = p.shared } };

    ghost invariant = { λ p. AreAtPorts (record { ports = p.ports; grant = p.grant; accept = p.accept; shared = p.shared }) };

    ghost inverse = { λ v. record { ports = v.ports; grant = v.grant; accept = v.accept; shared = v.shared } };
}

// A table in which every place is port 0.
fn table_at_first() -> [[u32; PORT_COUNT]; LEVEL_COUNT]
    ensures { result ≡ replicate LEVELS (replicate MAX_PORTS 0) }
{
    [[0; PORT_COUNT]; LEVEL_COUNT]
}

// The rows of a table are whole. A table behind a reference does not tell a proof how long its rows are.
fn has_whole_rows(table: &[[u32; PORT_COUNT]; LEVEL_COUNT])
    ensures { IsTable table.now }
{
    let [best, second, third, worst] = table;
    is_whole(best);
    is_whole(second);
    is_whole(third);
    is_whole(worst);
}

// A row is whole, which its value tells. The compiler makes no copy, since nothing reads it.
fn is_whole(row: &[u32; PORT_COUNT])
    ensures { length row.now ≡ MAX_PORTS }
{
    let _row = *row;
}

// Sets the place of the level and port.
fn point(table: &mut [[u32; PORT_COUNT]; LEVEL_COUNT], level: u8, port: u32, place: u32)
    requires level_in { level < LEVELS }
    requires port_in { port < MAX_PORTS }
    ensures { table.new ≡ with_place table.old level port place }
{
    table[level as usize][port as usize] = place;
}

impl Pointers {
    /// The pointers of a switch of `n` ports, 1 to 64, before its first slot: all are at port 0.
    pub fn new(n: u32) -> Pointers
        requires some { 0 < n }
        requires size { n ≤ MAX_PORTS }
        ensures value { result ≡ places_at_first n }
        ensures at_ports { AreAtPorts result }
        ensures ports { result.ports ≡ n }
        ensures grant { (j level : ℕ) → grant_of result j level ≡ 0 }
        ensures accept { (i level : ℕ) → accept_of result i level ≡ 0 }
        ensures shared { (level : ℕ) → shared_of result level ≡ 0 }
    {
        Pointers {
            ports: n,
            grant: table_at_first(),
            accept: table_at_first(),
            shared: [0; LEVEL_COUNT],
        }
    }

    /// The pointers of `n` ports that are where the tables say. None exactly where [`PointerTables::is_in_range`]
    /// says no: where `n` is not 1 to 64, or a pointer of one of the `n` ports, or a shared one, is at none of them.
    pub fn from_tables(n: u32, tables: &PointerTables) -> Option<Pointers>
        ensures some { IsSome result ↔ AreInRange n tables.now }
        ensures value { IfSome result (λ p. p ≡ places_from n tables.now) }
        ensures at_ports { IfSome result AreAtPorts }
        ensures ports { IfSome result (λ p. p.ports ≡ n) }
        ensures grant { IfSome result (λ p. (j level : ℕ) → grant_of p j level ≡ place_of tables.now.grant level j) }
        ensures accept { IfSome result (λ p. (i level : ℕ) → accept_of p i level ≡ place_of tables.now.accept level i) }
        ensures shared { IfSome result (λ p. (level : ℕ) → shared_of p level ≡ slice_index tables.now.shared level) }
    {
        if tables.is_in_range(n) {
            Some(Pointers::at_tables(n, tables))
        } else {
            None
        }
    }

    /// The pointers of `n` ports that are where the tables say, which [`PointerTables::is_in_range`] has tested.
    pub fn at_tables(n: u32, tables: &PointerTables) -> Pointers
        requires { AreInRange n tables.now }
        ensures value { result ≡ places_from n tables.now }
        ensures at_ports { AreAtPorts result }
        ensures ports { result.ports ≡ n }
        ensures grant { (j level : ℕ) → grant_of result j level ≡ place_of tables.now.grant level j }
        ensures accept { (i level : ℕ) → accept_of result i level ≡ place_of tables.now.accept level i }
        ensures shared { (level : ℕ) → shared_of result level ≡ slice_index tables.now.shared level }
    {
        has_whole_rows(&tables.grant);
        has_whole_rows(&tables.accept);
        Pointers {
            ports: n,
            grant: tables.grant,
            accept: tables.accept,
            shared: tables.shared,
        }
    }

    /// Writes into a caller's tables where the pointers are, so that [`Pointers::from_tables`] gives the same
    /// pointers from them. The places of ports that the switch does not have get what they had there.
    pub fn put_tables(&self, tables: &mut PointerTables)
        ensures value { tables.new ≡ tables_of self.now }
        ensures again { places_from self.now.ports tables.new ≡ self.now }
        ensures grant { (j level : ℕ) → place_of tables.new.grant level j ≡ grant_of self.now j level }
        ensures accept { (i level : ℕ) → place_of tables.new.accept level i ≡ accept_of self.now i level }
        ensures shared { (level : ℕ) → slice_index tables.new.shared level ≡ shared_of self.now level }
    {
        tables.grant = self.grant;
        tables.accept = self.accept;
        tables.shared = self.shared;
    }

    /// The number of ports of the switch, 1 to 64.
    pub fn ports(&self) -> u32
        ensures value { result ≡ self.now.ports }
        ensures at_ports { AreAtPorts self.now }
    {
        self.ports
    }

    /// From where an output picks among the unicast requests of the level.
    pub fn grant(&self, output: u32, level: u8) -> u32
        requires output_in { output < self.now.ports }
        requires level_in { level < LEVELS }
        ensures value { result ≡ grant_of self.now output level }
        ensures within { result < self.now.ports }
    {
        self.grant[level as usize][output as usize]
    }

    /// From where an input picks among the unicast grants of the level.
    pub fn accept(&self, input: u32, level: u8) -> u32
        requires input_in { input < self.now.ports }
        requires level_in { level < LEVELS }
        ensures value { result ≡ accept_of self.now input level }
        ensures within { result < self.now.ports }
    {
        self.accept[level as usize][input as usize]
    }

    /// From where every output picks among the multicast requests of the level.
    pub fn shared(&self, level: u8) -> u32
        requires { level < LEVELS }
        ensures value { result ≡ shared_of self.now level }
        ensures within { result < self.now.ports }
    {
        self.shared[level as usize]
    }

    /// Moves the pointers of a pair that was matched as unicast of the level: the output's grant
    /// pointer to one beyond the input, and the input's accept pointer to one beyond the output.
    /// This is the rule of the iSLIP paper (McKeown 1999, section III).
    pub fn met(&mut self, input: u32, output: u32, level: u8)
        requires input_in { input < self.old.ports }
        requires output_in { output < self.old.ports }
        requires level_in { level < LEVELS }
        ensures value { self.new ≡ places_met self.old input output level }
        ensures at_ports { AreAtPorts self.new }

        // The two pointers move, and all others stay.
        ensures grant { grant_of self.new output level ≡ (input + 1) % self.old.ports }
        ensures accept { accept_of self.new input level ≡ (output + 1) % self.old.ports }
        ensures ports { self.new.ports ≡ self.old.ports }
        ensures grants { (j other : ℕ) → (j ≡ output → other ≡ level → ⊥) → grant_of self.new j other ≡ grant_of self.old j other }
        ensures accepts { (i other : ℕ) → (i ≡ input → other ≡ level → ⊥) → accept_of self.new i other ≡ accept_of self.old i other }
        ensures shared { (other : ℕ) → shared_of self.new other ≡ shared_of self.old other }
    {
        point(&mut self.grant, level, output, next(self.ports, input));
        point(&mut self.accept, level, input, next(self.ports, output));
    }

    /// Moves the shared pointer of the level to one beyond an input whose multicast head completed.
    pub fn passed(&mut self, level: u8, input: u32)
        requires level_in { level < LEVELS }
        requires input_in { input < self.old.ports }
        ensures value { self.new ≡ places_passed self.old level input }
        ensures at_ports { AreAtPorts self.new }

        // The one pointer moves, and all others stay.
        ensures shared { shared_of self.new level ≡ (input + 1) % self.old.ports }
        ensures ports { self.new.ports ≡ self.old.ports }
        ensures grants { (j other : ℕ) → grant_of self.new j other ≡ grant_of self.old j other }
        ensures accepts { (i other : ℕ) → accept_of self.new i other ≡ accept_of self.old i other }
        ensures others { (other : ℕ) → (other ≡ level → ⊥) → shared_of self.new other ≡ shared_of self.old other }
    {
        self.shared[level as usize] = next(self.ports, input);
    }

    /// Moves an output's grant pointer to an input that refused its grant, so that no other input is
    /// granted before it.
    pub fn held(&mut self, input: u32, output: u32, level: u8)
        requires input_in { input < self.old.ports }
        requires output_in { output < self.old.ports }
        requires level_in { level < LEVELS }
        ensures value { self.new ≡ places_held self.old input output level }
        ensures at_ports { AreAtPorts self.new }

        // The one pointer moves, and all others stay.
        ensures grant { grant_of self.new output level ≡ input }
        ensures ports { self.new.ports ≡ self.old.ports }
        ensures grants { (j other : ℕ) → (j ≡ output → other ≡ level → ⊥) → grant_of self.new j other ≡ grant_of self.old j other }
        ensures accepts { (i other : ℕ) → accept_of self.new i other ≡ accept_of self.old i other }
        ensures shared { (other : ℕ) → shared_of self.new other ≡ shared_of self.old other }
    {
        point(&mut self.grant, level, output, input);
    }
}
