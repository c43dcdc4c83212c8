ghost use Rattle.std.specs.Prelude.{◌≡◌, ℕ, ◌<◌, ◌≤◌, ◌↔◌, ◌⊎◌, List, Some, None, replicate, slice_index, slice_index_or};
ghost use Rattle.rotating_pick.specs.PortSets.{Has, IsAmong};
ghost use Rattle.islip_rounds.specs.Choices.{AreAllChoices};
ghost use Rattle.islip_rounds.specs.Columns.{AreColumns};
ghost use Rattle.islip_rounds.specs.Rounds.{Feeds, IsFreeInput, IsFreeOutput, IsRound};

use crate::kernels::{no_sets, picks};
use crate::unicast::UniPointers;
use rotating_pick::{MAX_PORTS, PORT_COUNT, Ports, all, intersection, with, without};

// One round: each free output grants, and each input that was granted accepts. `columns` has for each
// output the inputs that ask it.
pub(crate) fn round(
    n: u32,
    columns: &[Ports; PORT_COUNT],
    pointers: &UniPointers,
    fed: &mut [Option<u32>; PORT_COUNT],
)
    requires some { 0 < n }
    requires size { n ≤ MAX_PORTS }
    requires grant { (j : ℕ) → j < n → slice_index pointers.now.grant j < n }
    requires accept { (i : ℕ) → i < n → slice_index pointers.now.accept i < n }
    requires within { (i j : ℕ) → Feeds fed.old i j → (i < n) × (j < n) }
    ensures round { (asks : List ℕ) → AreColumns n asks columns.now → IsRound n asks pointers.now fed.old fed.new }
    ensures within { (i j : ℕ) → Feeds fed.new i j → (i < n) × (j < n) }
{
    let asked = requests(n, columns, free_inputs(n, fed));
    let granted = choices(n, &pointers.grant, &asked, free_outputs(n, fed));
    let offers = by_input(n, &granted);
    let accepted = choices(n, &pointers.accept, &offers, all(n));
    feed(n, &accepted, fed);
}

// For each port of `free` the rotating choice of its set from its pointer on.
fn choices(
    n: u32,
    from: &[u32; PORT_COUNT],
    masks: &[Ports; PORT_COUNT],
    free: Ports,
) -> [Option<u32>; PORT_COUNT]
    requires size { n ≤ MAX_PORTS }
    requires from_in { (k : ℕ) → k < n → slice_index from.now k < n }
    requires among { (k : ℕ) → k < n → IsAmong n (slice_index masks.now k) }
    ensures { AreAllChoices n from.now masks.now free result }
{
    let mut chosen = no_ports();
    picks(n, from, masks, free, &mut chosen);
    chosen
}

// A table that has a port at no place.
pub(crate) fn no_ports() -> [Option<u32>; PORT_COUNT]
    ensures { result ≡ replicate PORT_COUNT None }
{
    [None; PORT_COUNT]
}

// The inputs that are matched with no output.
fn free_inputs(n: u32, fed: &[Option<u32>; PORT_COUNT]) -> Ports
    requires some { 0 < n }
    requires size { n ≤ MAX_PORTS }
    requires within { (i j : ℕ) → Feeds fed.now i j → (i < n) × (j < n) }
    ensures { (i : ℕ) → Has result i ↔ ((i < n) × IsFreeInput fed.now i) }
{
    let mut free = all(n);
    for j in 0..n {
        if let Some(i) = fed[j as usize] {
            free = without(free, i);
        }
    }
    free
}

// The outputs that are matched with no input.
fn free_outputs(n: u32, fed: &[Option<u32>; PORT_COUNT]) -> Ports
    requires { n ≤ MAX_PORTS }
    ensures { (j : ℕ) → Has result j ↔ ((j < n) × IsFreeOutput fed.now j) }
{
    let mut free = 0;
    for j in 0..n {
        if fed[j as usize].is_none() {
            free = with(free, j);
        }
    }
    free
}

// For each output the free inputs that ask it.
fn requests(n: u32, columns: &[Ports; PORT_COUNT], free: Ports) -> [Ports; PORT_COUNT]
    requires { n ≤ MAX_PORTS }
    ensures { (j x : ℕ) → j < n → Has (slice_index result j) x ↔ (Has (slice_index columns.now j) x × Has free x) }
{
    let mut asked = no_sets();
    for j in 0..n {
        let at = j as usize;
        asked[at] = intersection(columns[at], free);
    }
    asked
}

// For each input the outputs that grant it.
fn by_input(n: u32, granted: &[Option<u32>; PORT_COUNT]) -> [Ports; PORT_COUNT]
    requires size { n ≤ MAX_PORTS }
    requires inputs { (i j : ℕ) → Feeds granted.now i j → i < MAX_PORTS }
    ensures { (i j : ℕ) → Has (slice_index result i) j ↔ ((j < n) × Feeds granted.now i j) }
{
    let mut offers = no_sets();
    for j in 0..n {
        if let Some(i) = granted[j as usize] {
            let at = i as usize;
            offers[at] = with(offers[at], j);
        }
    }
    offers
}

// Matches each input with the output that it accepted.
fn feed(n: u32, accepted: &[Option<u32>; PORT_COUNT], fed: &mut [Option<u32>; PORT_COUNT])
    requires size { n ≤ MAX_PORTS }
    requires outputs { (i j : ℕ) → slice_index_or accepted.now i None ≡ Some j → j < MAX_PORTS }
    requires free { (i j : ℕ) → slice_index_or accepted.now i None ≡ Some j → IsFreeOutput fed.old j }
    requires once { (i k j : ℕ) → slice_index_or accepted.now i None ≡ Some j → slice_index_or accepted.now k None ≡ Some j → i ≡ k }
    ensures { (i j : ℕ) → Feeds fed.new i j ↔ (Feeds fed.old i j ⊎ ((i < n) × (slice_index_or accepted.now i None ≡ Some j))) }
{
    for i in 0..n {
        if let Some(j) = accepted[i as usize] {
            fed[j as usize] = Some(i);
        }
    }
}
