ghost use Rattle.std.specs.Prelude.{◌≡◌, ℕ, ◌+◌, ◌^◌, ◌<◌, ◌≤◌, ◌↔◌, List, [], ◌∷◌, ◌++◌, map, replicate, length, is_some, if◌then◌else◌, IsTrue, IfOk};
ghost use Rattle.rotating_pick.specs.PortSets.{Has};
ghost use Rattle.rotating_pick.specs.declared.kinds.Kind.{Kind};
ghost use Rattle.rotating_pick.specs.declared.limits.TheConstants.{LEVELS, MAX_PORTS};
ghost use Rattle.card_core.specs.declared.limits.TheConstants.{MAX_SLOTS};
ghost use Rattle.slot_match.specs.Matches.{unmatched, fed_of, Serves, IsMatch};
ghost use Rattle.slot_match.specs.Rows.{Names, row_of as row_in};
ghost use Rattle.slot_match.specs.declared.rows.Row.{Row as ARow};
ghost use Rattle.card_core.specs.StateSteps.{row_of};
ghost use Rattle.output_queued.specs.Switches.{Matched, card_for, IsSwitch, IsSmallSwitch};
ghost use Rattle.output_queued.specs.Lines.{ideal, ran, line_of};
ghost use Rattle.output_queued.specs.NotingSteps.{HasNoted, MayNote, cards_in, source_at, tally_at, no_tally, IsSmall, IsBefore, IsUnserved};
ghost use Rattle.output_queued.specs.QuietSteps.{IsQuietFor};
ghost use Rattle.output_queued.specs.Steps.{SameSwitch, Ticks};

use crate::coming::Coming;
use crate::entries::{let_in, take_served};
use crate::inputs::Input;
use crate::line::RefLine;
use crate::size_checks::{are_inputs, are_sizes};
use crate::tally::Tally;
use card_core::MAX_SLOTS;
use rotating_pick::{Kind, OutOfMemory, PORT_COUNT, Ports, contains, lowest, without};
use slot_match::{Fed, Match, Row, Served};
use std::alloc::{AllocError, Global};
use std::marker::Model;

/// The ideal switch beside a run: it is told of slot after slot of the run, and keeps for each output how
/// many cells came to it, how many the ideal switch has given out, and how many the run has fed to it.
///
/// It admits the same packets as the run: a packet enters its input's queue where with its cells at most the
/// depth wait there. What is admitted counts at its outputs in its arrival slot; each output of the ideal
/// switch gives out a cell in each slot in which one waits.
///
/// A slot costs a look at each input and output, and a step for each output to which a cell has come that the
/// run has not served. No memory is taken after [`Reference::make`].
#[derive(Drop)]
pub struct Reference {
    ports: u32,
    depth: u32,
    // How many slots were noted.
    slots: u32,
    inputs: Vec<Input>,
    tallies: Vec<Tally>,
    // The outputs to which a cell has come that the run has not served.
    unserved: Ports,
    // The parts of all inputs in a match, which are written over.
    parts: [Option<Served>; PORT_COUNT],
}

impl Model for Reference {
    ghost use Rattle.std.specs.Prelude.{List};
    ghost use Rattle.output_queued.specs.Switches.{Matched};
    ghost use Rattle.output_queued.specs.NotingSteps.{State, HasNoted};

    ghost Value = { State };

    ghost view = { λ r. record {
      ports = r.ports;
      depth = r.depth;
      slots = r.slots;
      sources = r.inputs.items;
      tallies = r.tallies.items;
      unserved = r.unserved;
    } };

    ghost invariant = { λ r. (matches : List Matched)
        × HasNoted (record { ports = r.ports; depth = r.depth; slots = r.slots; sources = r.inputs.items; tallies = r.tallies.items; unserved = r.unserved })
        matches };
}

impl Reference {
    /// Whether these are the packets of a burst, of which a reference can be made: 1 to 64 ports, a depth of 1
    /// to 131,072, a list for each port with rising slots below 131,072, and of each packet 1 to 1,171 cells, a
    /// level of 0 to 3, and one or more of the ports.
    pub fn may_make(n: u32, depth: u32, coming: &[Vec<Coming>]) -> bool
        ensures { IsTrue result ↔ (IsSwitch n depth (map (λ list. list.items) coming.now) × IsSmallSwitch depth (map (λ list. list.items) coming.now)) }
    {
        are_sizes(n, depth, coming) && are_inputs(n, coming)
    }

    /// A reference for a switch of `n` ports with queues of `depth` cells, to whose inputs these packets come,
    /// fewer than 2^32 to each, that has noted no slot. It takes all memory that the reference needs: that is refused is the one cause
    /// of the error.
    pub fn make(
        alloc: Global,
        n: u32,
        depth: u32,
        coming: Vec<Vec<Coming>>,
    ) -> Result<Reference, OutOfMemory>
        requires { IsSwitch n depth (map (λ list. list.items) coming.items) }
        ensures ports { IfOk result (λ r. r.ports ≡ n) }
        ensures depth { IfOk result (λ r. r.depth ≡ depth) }
        ensures coming { IfOk result (λ r. map (λ source. source.coming) r.sources ≡ map (λ list. list.items) coming.items) }
        ensures noted { IfOk result (λ r. HasNoted r []) }
    {
        let mut inputs = inputs(alloc, n, depth, coming)?;
        let mut tallies = tallies(alloc, n)?;
        let unserved = let_in(&mut inputs, &mut tallies, 0, 0);
        Ok(Reference {
            ports: n,
            depth,
            slots: 0,
            inputs,
            tallies,
            unserved,
            parts: [None; PORT_COUNT],
        })
    }

    /// The number of ports of the switch, at most 64.
    pub fn ports(&self) -> u32
        ensures value { result ≡ self.now.ports }
        ensures size { result ≤ MAX_PORTS }
    {
        self.ports
    }

    /// Whether the next slot of a burst may have these rows and this match: fewer than 262,145 slots are noted,
    /// there is a row for each input, which names the queues that are not empty and the remaining fan-out of
    /// each multicast head, and the match is one of as many ports and serves only what the rows name.
    pub fn may_note(&self, rows: &[Row], matched: &Match) -> bool
        ensures { IsTrue result ↔ (MayNote self.now rows.now matched.now × (self.now.slots < MAX_SLOTS)) }
    {
        self.slots < MAX_SLOTS
            && matched.ports() == self.ports
            && are_rows(&self.inputs, rows)
            && are_named(rows, matched)
    }

    /// Notes the next slot, from slot 0 on: the run's rows and its match. There are fewer than 2^32 slots.
    pub fn note(&mut self, rows: &[Row], matched: &Match)
        requires { MayNote self.old rows.now matched.now }
        ensures switch { SameSwitch self.old self.new }
        ensures noted { (matches : List Matched) → HasNoted self.old matches → HasNoted self.new (matches ++ matched.now ∷ []) }
    {
        // Only the contract speaks of the rows.
        let _ = rows;
        self.note_match(matched);
    }

    /// Notes the next slot, from slot 0 on, by the run's match alone, where it may be noted with some rows. There are fewer
    /// than 2^32 slots.
    pub fn note_match(&mut self, matched: &Match)
        requires { (rows : List ARow) × MayNote self.old rows matched.now }
        ensures switch { SameSwitch self.old self.new }
        ensures noted { (matches : List Matched) → HasNoted self.old matches → HasNoted self.new (matches ++ matched.now ∷ []) }
    {
        let unserved = count_slot(&mut self.tallies, self.unserved, self.slots, matched);
        take_served(&mut self.inputs, matched, &mut self.parts);
        self.slots += 1;
        self.unserved = let_in(&mut self.inputs, &mut self.tallies, unserved, self.slots);
    }

    /// Notes the next `slots` slots of the run, in which nothing happens: no cell waits, no packet comes, and
    /// nothing is matched. With them there are fewer than 2^32 slots. It costs a look at each input.
    pub fn skip(&mut self, slots: u32)
        requires quiet { (matches : List Matched) × HasNoted self.old matches × IsQuietFor self.old matches slots }
        requires few { self.old.slots + slots < 2 ^ 32 }
        ensures switch { SameSwitch self.old self.new }
        ensures noted { (matches : List Matched) → HasNoted self.old matches
            → HasNoted self.new (matches ++ replicate slots (unmatched self.old.ports)) }
    {
        if slots == 0 {
            return;
        }
        self.slots += slots;
        self.unserved = let_in(
            &mut self.inputs,
            &mut self.tallies,
            self.unserved,
            self.slots,
        );
    }

    /// The numbers of the output, below the number of ports, over the slots noted. At the end of no slot has
    /// the run fed more cells to the output than the ideal switch has given out.
    pub fn line(&self, output: u32) -> RefLine
        requires { output < self.now.ports }
        ensures value { (matches : List Matched) → HasNoted self.now matches → result ≡ line_of (cards_in self.now) matches output }
        ensures never_behind { (matches : List Matched) (t : ℕ) → HasNoted self.now matches → t ≤ length matches
            → ran matches output t ≤ ideal (cards_in self.now) matches output t }
    {
        self.tallies[output as usize].line
    }

    /// States that there are slots that the reference has noted.
    pub fn noted_slots(&self)
        ensures { (matches : List Matched) × HasNoted self.now matches }
    {
        // Reads a field: that tells the proof what the type says of its value.
        let _ = &self.ports;
    }
}

// The outputs to which a cell has come that the run has not served are counted in slot `slot`. Answers of
// which of them that still holds.
fn count_slot(tallies: &mut Vec<Tally>, unserved: Ports, slot: u32, matched: &Match) -> Ports
    requires few { slot + 1 < 2 ^ 32 }
    requires size { length tallies.old.items ≤ MAX_PORTS }
    requires count { length tallies.old.items ≡ length matched.now }
    requires unserved { IsUnserved unserved tallies.old.items }
    requires small { (j : ℕ) → j < length tallies.old.items → IsSmall slot (tally_at tallies.old.items j) }
    ensures count { length tallies.new.items ≡ length tallies.old.items }
    ensures ticks { (j : ℕ) → Has unserved j
        → Ticks slot (if is_some (fed_of matched.now j) then 1 else 0) (tally_at tallies.old.items j) (tally_at tallies.new.items j) }
    ensures others { (j : ℕ) → (Has unserved j → ⊥) → tally_at tallies.new.items j ≡ tally_at tallies.old.items j }
    ensures unserved { IsUnserved result tallies.new.items }
{
    let mut unserved = unserved;
    let mut left = unserved;
    while let Some(output) = lowest(left) {
        let tally = &mut tallies[output as usize];
        tally.tick(slot, matched.fed(output).is_some());
        if !tally.is_behind() {
            unserved = without(unserved, output);
        }
        left = without(left, output);
    }
    unserved
}

// Whether the rows are those of the inputs' queues.
fn are_rows(inputs: &[Input], rows: &[Row]) -> bool
    ensures { IsTrue result ↔ (rows.now ≡ map (λ source. row_of source.banks source.fans) inputs.now) }
{
    if rows.len() != inputs.len() {
        return false;
    }
    for input in 0..inputs.len() {
        if inputs[input].row() != rows[input] {
            return false;
        }
    }
    true
}

// Whether each pair of the match is one that the rows name.
fn are_named(rows: &[Row], matched: &Match) -> bool
    requires count { length rows.now ≡ length matched.now }
    ensures { IsTrue result ↔ ((i j level : ℕ) (kind : Kind) → Serves matched.now i j level kind → Names (row_in rows.now i) level kind j) }
{
    for output in 0..matched.ports() {
        if let Some(fed) = matched.fed(output) {
            if !names(&rows[fed.input as usize], output, fed) {
                return false;
            }
        }
    }
    true
}

// Whether the row names the output at the level and with the kind by which it is fed.
fn names(row: &Row, output: u32, fed: Fed) -> bool
    requires output { output < MAX_PORTS }
    requires level { fed.level < LEVELS }
    ensures { IsTrue result ↔ Names row.now fed.level fed.kind output }
{
    let level = usize::from(fed.level);
    match fed.kind {
        Kind::Uni => contains(row.uni[level], output),
        Kind::Multi => contains(row.multi[level], output),
    }
}

// The inputs, before the packets of slot 0.
fn inputs(
    alloc: Global,
    n: u32,
    depth: u32,
    coming: Vec<Vec<Coming>>,
) -> Result<Vec<Input>, OutOfMemory>
    requires { IsSwitch n depth (map (λ list. list.items) coming.items) }
    ensures coming { IfOk result (λ inputs. map (λ source. source.coming) inputs.items ≡ map (λ list. list.items) coming.items) }
    ensures before { IfOk result (λ inputs. (i : ℕ) → i < n → IsBefore (card_for n depth (source_at inputs.items i).coming) (source_at inputs.items i) []) }
{
    let mut inputs = Vec::with_capacity(alloc, coming.len())?;
    for packets in coming {
        inputs.push(Input::make(alloc, n, depth, packets)?)?;
    }
    Ok(inputs)
}

// A tally for each output, before any slot.
fn tallies(alloc: Global, n: u32) -> Result<Vec<Tally>, AllocError>
    ensures { IfOk result (λ tallies. tallies.items ≡ replicate n no_tally) }
{
    vec![in alloc; Tally::new(); n as usize]
}
