ghost use Rattle.std.specs.Prelude.{◌≡◌, ◌+◌, ◌<◌, ◌≤◌, List, [], ◌∷◌, ◌++◌, length, map, slice_set, take};
ghost use Rattle.std.specs.List.{range_with_len};
ghost use Rattle.slot_match.specs.Rows.{AreWithin};
ghost use Rattle.service_bound.specs.Waits.{NotedSlot, longest_wait};
ghost use Rattle.service_bound.specs.MeterSteps.{HasNoted};
ghost use Rattle.switch_jobs.specs.JournalSteps.{rows_of, noted_in, longest_in};

use crossbar::{Post, put_rows};
use rotating_pick::{LEVEL_COUNT, LEVELS, MAX_PORTS, PORT_COUNT};
use service_bound::{MAX_NOTED, WaitMeter};
use slot_board::Journal;
use slot_match::{Match, Row};

/// The longest wait of each level in the journal's slots, by a meter that has noted none. It takes no memory.
pub(crate) fn longest_waits(meter: WaitMeter, journal: &Journal) -> [u32; LEVEL_COUNT]
    requires new { HasNoted meter [] }
    requires ports { meter.ports ≡ journal.now.setup.ports }
    requires few { length journal.now.slots ≤ MAX_NOTED }
    ensures { result ≡ longest_in journal.now.setup.ports journal.now.slots }
{
    journal.legal();
    let mut meter = meter;
    let mut rows = [Row::empty(); PORT_COUNT];
    for slot in 0..journal.slots() {
        note_slot(
            &mut meter,
            &mut rows,
            journal.posts(slot),
            journal.decided(slot),
        );
    }
    longest_of(&meter)
}

// Notes one slot more, whose rows are written to the first places of the table.
fn note_slot(meter: &mut WaitMeter, rows: &mut [Row; PORT_COUNT], posts: &[Post], matched: &Match)
    requires rows { AreWithin meter.old.ports (rows_of posts.now) }
    requires size { length posts.now ≤ MAX_PORTS }
    requires matched { length matched.now ≡ meter.old.ports }
    requires few { meter.old.count < MAX_NOTED }
    ensures noted { (slots : List NotedSlot) → HasNoted meter.old slots
        → HasNoted meter.new (slots ++ record { rows = rows_of posts.now; matched = matched.now } ∷ []) }
    ensures ports { meter.new.ports ≡ meter.old.ports }
    ensures count { meter.new.count ≡ meter.old.count + 1 }
{
    put_rows(rows, posts);
    meter.note(&rows[..posts.len()], matched);
}

/// The longest wait of each level in the slots that the meter has noted.
pub fn longest_of(meter: &WaitMeter) -> [u32; LEVEL_COUNT]
    ensures { (slots : List NotedSlot) → HasNoted meter.now slots → result ≡ map (λ level. longest_wait meter.now.ports level slots) (range_with_len 0 LEVELS) }
{
    let mut longest = [0; LEVEL_COUNT];
    for level in 0..LEVELS as u8 {
        longest[usize::from(level)] = meter.longest(level);
    }
    longest
}
