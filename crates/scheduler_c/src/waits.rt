ghost use Rattle.std.specs.Prelude.{◌≡◌, ℕ, ◌+◌, ◌*◌, ◌<◌, ◌≤◌, ◌↔◌, ◌⊎◌, ◌==◌, length, slice_index};
ghost use Rattle.std.specs.Int.{bit_at};
ghost use Rattle.rotating_pick.specs.declared.limits.TheConstants.{LEVELS};
ghost use Rattle.scheduler_c.specs.Waits.{IsNoteCall, AreNoted, AreNotedBy, AreLongest, slot_from, word_at, wait_next};

use crate::feeds::{FeedWords, are_feeds};
use crate::queue_sets::{PLACES, waiting_sets};
use crate::rows::are_rows;
use crate::status::{DONE, REFUSED};
use rotating_pick::{LEVEL_COUNT, MAX_PORTS, PORT_COUNT, Ports, contains, is_empty};
use slot_match::Row;

/// Notes one slot more in the waits of the unicast queues of `n` ports, 1 to 64: for how many slots, one after
/// the other, each was posted and not served. `waits` has 256 words for each input, that of its queue of
/// `level` to output `j` at `64 * level + j`, before and then after; begin with 0 in all. `longest` has for each
/// level the longest wait so far. A wait stands still at 0xffffffff.
#[unsafe(no_mangle)]
pub extern "C" fn tiny_tera_note_waits(
    n: u32,
    rows: &[Row],
    feeds: &[FeedWords],
    waits: &mut [u32],
    longest: &mut [u32],
) -> u32
    // It answers 0 exactly where this may be passed, and else 1.
    ensures done { (result ≡ 0) ↔ IsNoteCall n rows.now feeds.now waits.old longest.old }
    ensures status { (result ≡ 0) ⊎ (result ≡ 1) }
    ensures waits { result ≡ 0 → AreNoted n (slot_from rows.now feeds.now) waits.old waits.new }
    ensures longest { result ≡ 0 → AreLongest (LEVELS * n) waits.new longest.old longest.new }
    ensures refused { result ≡ 1 → (waits.new ≡ waits.old) × (longest.new ≡ longest.old) }
{
    if n == 0 || n > MAX_PORTS || !are_feeds(n, feeds) || !are_rows(n, rows) {
        return REFUSED;
    }
    if waits.len() != PLACES * n as usize || longest.len() != LEVEL_COUNT {
        return REFUSED;
    }
    let sets = waiting_sets(n, rows, feeds);
    note_all(&sets[..LEVEL_COUNT * n as usize], waits, longest);
    DONE
}

// Notes the slot at each place, in which the queues of these outputs wait.
fn note_all(sets: &[Ports], waits: &mut [u32], longest: &mut [u32])
    requires size { length sets.now ≤ 256 }
    requires waits { length waits.old ≡ 64 * length sets.now }
    requires longest { length longest.old ≡ LEVELS }
    ensures noted { AreNotedBy sets.now waits.old waits.new }
    ensures longest { AreLongest (length sets.now) waits.new longest.old longest.new }
{
    for place in 0..sets.len() {
        let most = note_place(sets[place], place, waits);
        let level = place % LEVEL_COUNT;
        longest[level] = longest[level].max(most);
    }
}

// Notes the slot in the queues at the place, of which those to these outputs wait, and answers their longest wait.
fn note_place(outputs: Ports, place: usize, waits: &mut [u32]) -> u32
    requires few { place < 256 }
    requires room { 64 * place + 64 ≤ length waits.old }
    ensures noted { (j : ℕ) → j < MAX_PORTS → word_at waits.new place j ≡ wait_next (bit_at outputs j == 1) (word_at waits.old place j) }
    ensures others { (k : ℕ) → (k < 64 * place) ⊎ (64 * place + 64 ≤ k) → slice_index waits.new k ≡ slice_index waits.old k }
    ensures bound { (j : ℕ) → j < MAX_PORTS → word_at waits.new place j ≤ result }
    ensures reached { (result ≡ 0) ⊎ ((j : ℕ) × (j < MAX_PORTS) × (result ≡ word_at waits.new place j)) }
{
    if is_empty(outputs) {
        clear_place(place, waits);
        return 0;
    }
    note_queues(outputs, place, waits)
}

// The queues at the place wait no longer.
fn clear_place(place: usize, waits: &mut [u32])
    requires few { place < 256 }
    requires room { 64 * place + 64 ≤ length waits.old }
    ensures cleared { (j : ℕ) → j < MAX_PORTS → word_at waits.new place j ≡ 0 }
    ensures others { (k : ℕ) → (k < 64 * place) ⊎ (64 * place + 64 ≤ k) → slice_index waits.new k ≡ slice_index waits.old k }
{
    let first = PORT_COUNT * place;
    for output in 0..PORT_COUNT {
        waits[first + output] = 0;
    }
}

// The same as of a place where some wait, queue by queue.
fn note_queues(outputs: Ports, place: usize, waits: &mut [u32]) -> u32
    requires few { place < 256 }
    requires room { 64 * place + 64 ≤ length waits.old }
    ensures noted { (j : ℕ) → j < MAX_PORTS → word_at waits.new place j ≡ wait_next (bit_at outputs j == 1) (word_at waits.old place j) }
    ensures others { (k : ℕ) → (k < 64 * place) ⊎ (64 * place + 64 ≤ k) → slice_index waits.new k ≡ slice_index waits.old k }
    ensures bound { (j : ℕ) → j < MAX_PORTS → word_at waits.new place j ≤ result }
    ensures reached { (result ≡ 0) ⊎ ((j : ℕ) × (j < MAX_PORTS) × (result ≡ word_at waits.new place j)) }
{
    let first = PORT_COUNT * place;
    let mut longest: u32 = 0;
    for output in 0..MAX_PORTS {
        let at = first + output as usize;
        let wait = wait_next(contains(outputs, output), waits[at]);
        waits[at] = wait;
        longest = longest.max(wait);
    }
    longest
}

// The wait of a queue after a slot, in which it waits or not.
fn wait_next(waits: bool, before: u32) -> u32
    ensures { result ≡ wait_next waits before }
{
    if !waits {
        0
    } else if before < u32::MAX {
        before + 1
    } else {
        before
    }
}
