ghost use Rattle.std.specs.Prelude.{◌≡◌, ℕ, ◌+◌, ◌%◌, ◌<◌, ◌≤◌, Some, None, length, slice_index, slice_index_or, All};
ghost use Rattle.rotating_pick.specs.PortSets.{IsAmong};
ghost use Rattle.islip_rounds.specs.Numbers.{matched_count};
ghost use Rattle.islip_rounds.specs.Rounds.{Feeds, IsMaximal};
ghost use Rattle.islip_rounds.specs.Slots.{AreMoved, IsSlot};

use crate::kernels::{no_sets, transpose};
use crate::numbers::RoundsUsed;
use crate::rounds::{no_ports, round};
use crate::unicast::{UniMatch, UniPointers};
use rotating_pick::{MAX_PORTS, MAX_ROUNDS, PORT_COUNT, Ports, next};

/// One slot of iSLIP for one level of unicast: sets `out` to the match of `rounds` rounds and moves
/// the pointers, for `n` and `rounds` from 1 to 64. `asks` has for each input the outputs that it asks, and
/// the pointers of the `n` ports are at ports, before and after. Takes no memory.
pub fn islip_slot(
    n: u32,
    rounds: u32,
    asks: &[Ports],
    p: &mut UniPointers,
    out: &mut UniMatch,
) -> RoundsUsed
    requires some { 0 < n }
    requires size { n ≤ MAX_PORTS }
    requires rounds_some { 0 < rounds }
    requires rounds_few { rounds ≤ MAX_ROUNDS }
    requires asks { length asks.now ≡ n }
    requires among { All (IsAmong n) asks.now }
    requires grant { (j : ℕ) → j < n → slice_index p.old.grant j < n }
    requires accept { (i : ℕ) → i < n → slice_index p.old.accept i < n }
    ensures slot { IsSlot n rounds asks.now p.old out.new.fed result p.new }
    ensures within { (i j : ℕ) → Feeds out.new.fed i j → (i < n) × (j < n) }
    ensures grant { (j : ℕ) → j < n → slice_index p.new.grant j < n }
    ensures accept { (i : ℕ) → i < n → slice_index p.new.accept i < n }

    // No input is matched twice. No output is, since the match has one input at most for each.
    ensures once { (i j k : ℕ) → Feeds out.new.fed i j → Feeds out.new.fed i k → j ≡ k }

    // The match is maximal where the last round of all added nothing, and where there are n rounds.
    ensures unused { result.last_added ≡ 0 → IsMaximal n asks.now out.new.fed }
    ensures enough { n ≤ rounds → IsMaximal n asks.now out.new.fed }
{
    let mut columns = no_sets();
    transpose(n, asks, &mut columns);
    let mut fed = no_ports();
    round(n, &columns, p, &mut fed);
    let first = fed;
    let mut matched = matched_outputs(&fed);
    let mut added = matched;
    let mut numbers = RoundsUsed::none().after_round(0, added);
    for done in 1..rounds {
        // Once a round adds nothing, no later one would.
        if added > 0 {
            round(n, &columns, p, &mut fed);
            let now = matched_outputs(&fed);
            added = now.saturating_sub(matched);
            matched = now;
        }
        numbers = numbers.after_round(done, added);
    }
    move_pointers(n, &first, &mut p.grant, &mut p.accept);
    out.fed = fed;
    numbers
}

// How many outputs are matched.
fn matched_outputs(fed: &[Option<u32>; PORT_COUNT]) -> u32
    ensures { result ≡ matched_count fed.now }
{
    fed.iter().filter(|input| input.is_some()).count() as u32
}

// Moves the pointers of each pair of the first round one beyond each other.
fn move_pointers(
    n: u32,
    first: &[Option<u32>; PORT_COUNT],
    grant: &mut [u32; PORT_COUNT],
    accept: &mut [u32; PORT_COUNT],
)
    requires size { n ≤ MAX_PORTS }
    requires within { (i j : ℕ) → Feeds first.now i j → (i < n) × (j < n) }
    requires once { (i j k : ℕ) → Feeds first.now i j → Feeds first.now i k → j ≡ k }
    requires grant { (j : ℕ) → j < n → slice_index grant.old j < n }
    requires accept { (i : ℕ) → i < n → slice_index accept.old i < n }
    ensures grant { (j : ℕ) → j < n → slice_index grant.new j < n }
    ensures accept { (i : ℕ) → i < n → slice_index accept.new i < n }
    ensures moved { AreMoved n first.now (record { grant = grant.old; accept = accept.old }) (record { grant = grant.new; accept = accept.new }) }
{
    for j in 0..n {
        if let Some(i) = first[j as usize] {
            grant[j as usize] = next(n, i);
            accept[i as usize] = next(n, j);
        }
    }
}
