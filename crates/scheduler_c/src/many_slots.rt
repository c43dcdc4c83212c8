ghost use Rattle.std.specs.Prelude.{◌≡◌, ℕ, ◌+◌, ◌*◌, ◌%◌, ◌<◌, ◌↔◌, ◌⊎◌, length, IsTrue};
ghost use Rattle.slot_match.specs.Rows.{AreWithin};
ghost use Rattle.pointer_state.specs.Places.{AreAtPorts};
ghost use Rattle.pointer_state.specs.CallerTables.{AreInRange, tables_of};
ghost use Rattle.eslip_rounds.specs.Slots.{IsSlot};
ghost use Rattle.firm_rounds.specs.Slots.{IsFirmSlot};
ghost use Rattle.rrm_rounds.specs.Slots.{IsRrmSlot};
ghost use Rattle.scheduler_c.specs.Words.{IsSize};
ghost use Rattle.scheduler_c.specs.ManySlots.{IsManyCall, AreDecided, of_slot};
ghost use Rattle.scheduler_c.specs.SchedulerSteps.{IsSlotUnder};

use crate::decisions::decide_tested;
use crate::feeds::FeedWords;
use crate::rows::are_rows;
use crate::status::{DONE, REFUSED};
use crate::words::{RoundsWords, is_size};
use eslip_rounds::Scratch;
use pointer_state::{PointerTables, Pointers};
use scheduler_names::SchedulerName;
use slot_match::Row;

/// Decides slots that follow each other, from slot number `slot` on, as many as there are elements of `used`: the same as
/// so many calls of `tiny_tera_decide`. `rows` and `feeds` have those of the first slot, then those of the second, and so
/// on. `pointers` has where the pointers are before the first slot, and then after the last.
#[unsafe(no_mangle)]
pub extern "C" fn tiny_tera_decide_many(
    n: u32,
    rounds: u32,
    slot: u32,
    rows: &[Row],
    pointers: &mut PointerTables,
    feeds: &mut [FeedWords],
    used: &mut [RoundsWords],
) -> u32
    // It answers 0 exactly where this may be passed, and else 1.
    ensures done { (result ≡ 0) ↔ IsManyCall n rounds rows.now pointers.old feeds.old used.old }
    ensures status { (result ≡ 0) ⊎ (result ≡ 1) }
    ensures slots { result ≡ 0 → AreDecided IsSlot (length used.new) n rounds slot rows.now pointers.old feeds.new used.new pointers.new }
    ensures again { result ≡ 0 → AreInRange n pointers.new }
    ensures refused { result ≡ 1 → (pointers.new ≡ pointers.old) × (feeds.new ≡ feeds.old) × (used.new ≡ used.old) }
{
    decide_many_by(
        SchedulerName::Islip,
        n,
        rounds,
        slot,
        rows,
        pointers,
        feeds,
        used,
    )
}

/// The same as so many calls of `tiny_tera_decide_firm`.
#[unsafe(no_mangle)]
pub extern "C" fn tiny_tera_decide_many_firm(
    n: u32,
    rounds: u32,
    slot: u32,
    rows: &[Row],
    pointers: &mut PointerTables,
    feeds: &mut [FeedWords],
    used: &mut [RoundsWords],
) -> u32
    // It answers 0 exactly where this may be passed, and else 1.
    ensures done { (result ≡ 0) ↔ IsManyCall n rounds rows.now pointers.old feeds.old used.old }
    ensures status { (result ≡ 0) ⊎ (result ≡ 1) }
    ensures slots { result ≡ 0 → AreDecided IsFirmSlot (length used.new) n rounds slot rows.now pointers.old feeds.new used.new pointers.new }
    ensures again { result ≡ 0 → AreInRange n pointers.new }
    ensures refused { result ≡ 1 → (pointers.new ≡ pointers.old) × (feeds.new ≡ feeds.old) × (used.new ≡ used.old) }
{
    decide_many_by(
        SchedulerName::Firm,
        n,
        rounds,
        slot,
        rows,
        pointers,
        feeds,
        used,
    )
}

/// The same as so many calls of `tiny_tera_decide_rrm`.
#[unsafe(no_mangle)]
pub extern "C" fn tiny_tera_decide_many_rrm(
    n: u32,
    rounds: u32,
    slot: u32,
    rows: &[Row],
    pointers: &mut PointerTables,
    feeds: &mut [FeedWords],
    used: &mut [RoundsWords],
) -> u32
    // It answers 0 exactly where this may be passed, and else 1.
    ensures done { (result ≡ 0) ↔ IsManyCall n rounds rows.now pointers.old feeds.old used.old }
    ensures status { (result ≡ 0) ⊎ (result ≡ 1) }
    ensures slots { result ≡ 0 → AreDecided IsRrmSlot (length used.new) n rounds slot rows.now pointers.old feeds.new used.new pointers.new }
    ensures again { result ≡ 0 → AreInRange n pointers.new }
    ensures refused { result ≡ 1 → (pointers.new ≡ pointers.old) × (feeds.new ≡ feeds.old) × (used.new ≡ used.old) }
{
    decide_many_by(
        SchedulerName::Rrm,
        n,
        rounds,
        slot,
        rows,
        pointers,
        feeds,
        used,
    )
}

// Decides slots by the scheduler of this name. All is tested before the first of them.
fn decide_many_by(
    scheduler: SchedulerName,
    n: u32,
    rounds: u32,
    slot: u32,
    rows: &[Row],
    pointers: &mut PointerTables,
    feeds: &mut [FeedWords],
    used: &mut [RoundsWords],
) -> u32
    ensures done { (result ≡ 0) ↔ IsManyCall n rounds rows.now pointers.old feeds.old used.old }
    ensures status { (result ≡ 0) ⊎ (result ≡ 1) }
    ensures slots { result ≡ 0 → AreDecided (IsSlotUnder scheduler) (length used.new) n rounds slot rows.now pointers.old feeds.new used.new pointers.new }
    ensures again { result ≡ 0 → AreInRange n pointers.new }
    ensures refused { result ≡ 1 → (pointers.new ≡ pointers.old) × (feeds.new ≡ feeds.old) × (used.new ≡ used.old) }
{
    if !is_size(n, rounds) || !are_lengths(n, rows.len(), used.len()) || feeds.len() != rows.len() {
        return REFUSED;
    }
    if !are_many_rows(n, rows, used.len()) || !pointers.is_in_range(n) {
        return REFUSED;
    }
    let mut places = Pointers::at_tables(n, pointers);
    decide_all(scheduler, n, rounds, slot, rows, &mut places, feeds, used);
    places.put_tables(pointers);
    DONE
}

// Whether there are `n` elements for each slot.
fn are_lengths(n: u32, count: usize, slots: usize) -> bool
    ensures { IsTrue result ↔ (count ≡ slots * n) }
{
    match slots.checked_mul(n as usize) {
        Some(all) => all == count,
        None => false,
    }
}

// Whether the rows of each slot name none but the `n` outputs.
fn are_many_rows(n: u32, rows: &[Row], slots: usize) -> bool
    requires { length rows.now ≡ slots * n }
    ensures { IsTrue result ↔ ((s : ℕ) → s < slots → AreWithin n (of_slot n s rows.now)) }
{
    let mut at: usize = 0;
    for s in 0..slots {
        let end = at + n as usize;
        if !are_rows(n, &rows[at..end]) {
            return false;
        }
        at = end;
    }
    true
}

// Decides all slots, of which all was tested, over pointers of `n` ports.
fn decide_all(
    scheduler: SchedulerName,
    n: u32,
    rounds: u32,
    slot: u32,
    rows: &[Row],
    p: &mut Pointers,
    feeds: &mut [FeedWords],
    used: &mut [RoundsWords],
)
    requires size { IsSize n rounds }
    requires row_count { length rows.now ≡ length used.old * n }
    requires rows { (s : ℕ) → s < length used.old → AreWithin n (of_slot n s rows.now) }
    requires at_ports { AreAtPorts p.old }
    requires ports { p.old.ports ≡ n }
    requires outputs { length feeds.old ≡ length used.old * n }
    ensures slots { AreDecided (IsSlotUnder scheduler) (length used.new) n rounds slot rows.now (tables_of p.old) feeds.new used.new (tables_of p.new) }
    ensures at_ports { AreAtPorts p.new }
    ensures ports { p.new.ports ≡ n }
{
    let mut scratch = Scratch::new();
    let mut number = slot;
    let mut at: usize = 0;
    for s in 0..used.len() {
        let end = at + n as usize;
        let posted = &rows[at..end];
        let fed = &mut feeds[at..end];
        let numbers = decide_tested(scheduler, n, rounds, number, posted, p, &mut scratch, fed);
        used[s] = numbers;
        number = next_number(number);
        at = end;
    }
}

// The number of the slot after that of this number. Numbers begin anew after the greatest.
fn next_number(number: u32) -> u32
    ensures { result ≡ (number + 1) % 4294967296 }
{
    if number < u32::MAX { number + 1 } else { 0 }
}
