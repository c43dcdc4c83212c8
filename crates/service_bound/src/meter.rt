ghost use Rattle.std.specs.Prelude.{◌≡◌, ℕ, ◌+◌, ◌*◌, ◌/◌, ◌%◌, ◌<◌, ◌≤◌, ◌≢◌, ◌↔◌, false, List, [], ◌∷◌, ◌++◌, length, replicate, All, Option, IfOk};
ghost use Rattle.rotating_pick.specs.PortSets.{Has};
ghost use Rattle.rotating_pick.specs.declared.kinds.Kind.TheVariants.{Uni};
ghost use Rattle.slot_match.specs.declared.matching.Fed.{Fed};
ghost use Rattle.slot_match.specs.Rows.{Names, AreWithin};
ghost use Rattle.slot_match.specs.Matches.{IsMatch};
ghost use Rattle.slot_match.specs.Keeping.{Gives};
ghost use Rattle.slot_match.specs.Parts.{served_of};
ghost use Rattle.service_bound.specs.Waits.{NotedSlot, NoneWaits, is_waiting, longest_wait};
ghost use Rattle.service_bound.specs.MeterSteps.{queues_at_first, place_of, queues_at, AreBegun, NotesSlot, HasNoted};
ghost use Rattle.service_bound.specs.MeterSteps.{HasParts, WaitsAreKept};

use crate::level_queues::LevelQueues;
use crate::limits::MAX_NOTED;
use rotating_pick::{
    Kind, LEVEL_COUNT, LEVELS, MAX_PORTS, OutOfMemory, PORT_COUNT, Ports, all, difference,
    intersection, lowest, without,
};
use slot_match::{Match, Row, Served};
use std::alloc::{AllocError, Global};
use std::marker::Model;

/// A meter of waits. It is told of slot after slot and keeps for each level the longest wait: for how
/// many slots, one after the other, a unicast queue of the level was posted and not served.
///
/// A slot costs a look at the part of the match of each input with news, a comparison for each of its levels, and a
/// step for each of its queues whose wait begins or ends.
#[derive(Drop)]
pub struct WaitMeter {
    ports: u32,
    // How many slots were noted.
    count: u32,
    // The queues of each input, level by level.
    queues: Vec<LevelQueues>,
}

impl Model for WaitMeter {
    ghost use Rattle.std.specs.Prelude.{List};
    ghost use Rattle.service_bound.specs.Waits.{NotedSlot};
    ghost use Rattle.service_bound.specs.MeterSteps.{Meter, HasNoted};

    ghost Value = { Meter };

    ghost view = { λ m. record { ports = m.ports; count = m.count; queues = m.queues.items } };

    ghost invariant = { λ m. (slots : List NotedSlot) × HasNoted (record { ports = m.ports; count = m.count; queues = m.queues.items }) slots };
}

impl WaitMeter {
    /// A meter for a switch of `n` ports, 1 to 64, that has noted no slot. It takes all memory that it
    /// needs, as one piece: for each input and level 64 numbers and some more.
    pub fn make(alloc: Global, n: u32) -> Result<WaitMeter, OutOfMemory>
        requires some { 0 < n }
        requires size { n ≤ MAX_PORTS }
        ensures { IfOk result (λ m. (m.ports ≡ n) × HasNoted m []) }
    {
        Ok(WaitMeter {
            ports: n,
            count: 0,
            queues: queues(alloc, n)?,
        })
    }

    /// The number of ports of the switch, at most 64.
    pub fn ports(&self) -> u32
        ensures value { result ≡ self.now.ports }
        ensures size { result ≤ MAX_PORTS }
    {
        self.ports
    }

    /// How many slots were noted.
    pub fn count(&self) -> u32
        ensures { result ≡ self.now.count }
    {
        self.count
    }

    /// Notes one slot more, of which there are at most 4,294,967,295: a row for each input, which names
    /// none but the ports, and a match of as many ports. It takes no memory.
    pub fn note(&mut self, rows: &[Row], matched: &Match)
        requires rows { AreWithin self.old.ports rows.now }
        requires matched { length matched.now ≡ self.old.ports }
        requires few { self.old.count < MAX_NOTED }
        ensures noted { (slots : List NotedSlot) → HasNoted self.old slots
            → HasNoted self.new (slots ++ record { rows = rows.now; matched = matched.now } ∷ []) }
        ensures ports { self.new.ports ≡ self.old.ports }
        ensures count { self.new.count ≡ self.old.count + 1 }
    {
        // Tells the proof that the meter has noted some slots.
        self.noted_slots();
        let mut parts = [None; PORT_COUNT];
        matched.put_parts(&mut parts);
        self.note_news(rows, &parts, all(matched.ports()));
    }

    /// Notes one slot more, as `note` does, where only the queues of the inputs `news` can wait otherwise than in the slot
    /// before; before the first slot none waits. `parts` has the inputs' parts of the match. It looks at no other input.
    pub fn note_news(&mut self, rows: &[Row], parts: &[Option<Served>; PORT_COUNT], news: Ports)
        requires rows { AreWithin self.old.ports rows.now }
        requires few { self.old.count < MAX_NOTED }
        requires kept { (slots : List NotedSlot) × (matched : List (Option Fed)) × HasNoted self.old slots × HasParts self.old.ports matched parts.now
            × WaitsAreKept self.old.ports news slots (record { rows = rows.now; matched = matched }) }
        ensures noted { (slots : List NotedSlot) (matched : List (Option Fed)) → HasNoted self.old slots → HasParts self.old.ports matched parts.now
            → HasNoted self.new (slots ++ record { rows = rows.now; matched = matched } ∷ []) }
        ensures ports { self.new.ports ≡ self.old.ports }
        ensures count { self.new.count ≡ self.old.count + 1 }
    {
        let inputs = intersection(news, all(self.ports));
        note_inputs(&mut self.queues, self.count, rows, parts, inputs);
        self.count += 1;
    }

    /// Notes so many slots more in which no queue waits, as where nothing is posted; with them there are at
    /// most 4,294,967,295. It takes no memory, and no longer than one slot.
    pub fn skip(&mut self, slots: u32)
        requires few { self.old.count + slots ≤ MAX_NOTED }
        ensures noted { (before more : List NotedSlot) → HasNoted self.old before → length more ≡ slots → All NoneWaits more
            → HasNoted self.new (before ++ more) }
        ensures ports { self.new.ports ≡ self.old.ports }
        ensures count { self.new.count ≡ self.old.count + slots }
    {
        if slots == 0 {
            return;
        }
        note_none(&mut self.queues, self.count);
        self.count += slots;
    }

    /// The longest wait of the level, 0 to 3, in all slots noted: the greatest of all queues.
    pub fn longest(&self, level: u8) -> u32
        requires level { level < LEVELS }
        ensures { (slots : List NotedSlot) → HasNoted self.now slots → result ≡ longest_wait self.now.ports level slots }
    {
        let mut longest: u32 = 0;
        for input in 0..self.ports {
            let queues = &self.queues[place_of(input, level)];
            longest = longest.max(queues.longest(self.count));
        }
        longest
    }

    /// States that there are slots that the meter has noted.
    pub fn noted_slots(&self)
        ensures { (slots : List NotedSlot) × HasNoted self.now slots }
    {
        // Reads a field: that tells the proof what the type says of its value.
        let _ = &self.ports;
    }
}

// The queues of each input and level note slot `count`, in which none of them waits.
fn note_none(queues: &mut Vec<LevelQueues>, count: u32)
    requires few { count < MAX_NOTED }
    requires begun { (place : ℕ) → place < length queues.old.items → AreBegun count (queues_at queues.old.items place) }
    ensures long { length queues.new.items ≡ length queues.old.items }
    ensures noted { (place : ℕ) → place < length queues.old.items
        → NotesSlot count (λ j. false) (queues_at queues.old.items place) (queues_at queues.new.items place) }
{
    for place in 0..queues.len() {
        queues[place].note(count, 0);
    }
}

// The queues of these inputs note slot `count`, level by level.
fn note_inputs(
    queues: &mut Vec<LevelQueues>,
    count: u32,
    rows: &[Row],
    parts: &[Option<Served>; PORT_COUNT],
    inputs: Ports,
)
    requires rows { AreWithin (length rows.now) rows.now }
    requires size { length rows.now ≤ MAX_PORTS }
    requires long { length queues.old.items ≡ LEVELS * length rows.now }
    requires few { count < MAX_NOTED }
    requires inputs { (i : ℕ) → Has inputs i → i < length rows.now }
    requires begun { (place : ℕ) → place < length queues.old.items → AreBegun count (queues_at queues.old.items place) }
    ensures long { length queues.new.items ≡ length queues.old.items }
    ensures noted { (matched : List (Option Fed)) → HasParts (length rows.now) matched parts.now → (place : ℕ) → Has inputs (place / LEVELS)
        → NotesSlot count (λ j. is_waiting (record { rows = rows.now; matched = matched }) (place / LEVELS) j (place % LEVELS))
        (queues_at queues.old.items place) (queues_at queues.new.items place) }
    ensures others { (place : ℕ) → (Has inputs (place / LEVELS) → ⊥) → queues_at queues.new.items place ≡ queues_at queues.old.items place }
{
    let mut left = inputs;
    while let Some(input) = lowest(left) {
        let served = parts[input as usize];
        note_input(queues, count, rows, served, input as usize);
        left = without(left, input);
    }
}

// The queues of the input, which is served so, note slot `count`.
fn note_input(
    queues: &mut Vec<LevelQueues>,
    count: u32,
    rows: &[Row],
    served: Option<Served>,
    input: usize,
)
    requires rows { AreWithin (length rows.now) rows.now }
    requires size { length rows.now ≤ MAX_PORTS }
    requires long { length queues.old.items ≡ LEVELS * length rows.now }
    requires few { count < MAX_NOTED }
    requires input { input < length rows.now }
    requires begun { (place : ℕ) → place / LEVELS ≡ input → AreBegun count (queues_at queues.old.items place) }
    ensures long { length queues.new.items ≡ length queues.old.items }
    ensures noted { (matched : List (Option Fed)) → IsMatch (length rows.now) matched → served ≡ served_of matched input → (place : ℕ)
        → place / LEVELS ≡ input
        → NotesSlot count (λ j. is_waiting (record { rows = rows.now; matched = matched }) (place / LEVELS) j (place % LEVELS))
        (queues_at queues.old.items place) (queues_at queues.new.items place) }
    ensures others { (place : ℕ) → place / LEVELS ≢ input → queues_at queues.new.items place ≡ queues_at queues.old.items place }
{
    for level in 0..LEVEL_COUNT {
        let outputs = outputs_waiting(&rows[input], served, level);
        queues[input * LEVEL_COUNT + level].note(count, outputs);
    }
}

// The outputs whose queue, of an input with this row and part of the match, is posted at the level and
// not served.
fn outputs_waiting(row: &Row, served: Option<Served>, level: usize) -> Ports
    requires level { level < LEVELS }
    ensures { (j : ℕ) → Has result j ↔ (Names row.now level Uni j × (Gives served j level Uni → ⊥)) }
{
    difference(row.uni[level], unicast(served, level))
}

// The outputs that the part serves as unicast of the level.
fn unicast(served: Option<Served>, level: usize) -> Ports
    ensures { (j : ℕ) → Has result j ↔ Gives served j level Uni }
{
    match served {
        Some(
            Served {
                outputs,
                level: served_at,
                kind: Kind::Uni,
            },
        ) if usize::from(served_at) == level => outputs,
        _ => 0,
    }
}

// The place of the input's queues of the level.
fn place_of(input: u32, level: u8) -> usize
    requires input { input < MAX_PORTS }
    requires level { level < LEVELS }
    ensures { result ≡ place_of input level }
{
    input as usize * LEVEL_COUNT + usize::from(level)
}

// The queues of each input at each level, before any slot.
fn queues(alloc: Global, n: u32) -> Result<Vec<LevelQueues>, AllocError>
    requires { n ≤ MAX_PORTS }
    ensures { IfOk result (λ queues. queues.items ≡ replicate (LEVELS * n) queues_at_first) }
{
    let count = n as usize * LEVEL_COUNT;
    let mut queues = Vec::with_capacity(alloc, count)?;
    for _ in 0..count {
        queues.push(LevelQueues::new())?;
    }
    Ok(queues)
}
