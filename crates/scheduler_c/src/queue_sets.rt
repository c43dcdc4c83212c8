ghost use Rattle.std.specs.Prelude.{◌≡◌, ℕ, ◌*◌, ◌<◌, ◌≤◌, ◌↔◌, length, slice_index};
ghost use Rattle.rotating_pick.specs.PortSets.{Has};
ghost use Rattle.scheduler_c.specs.Feeds.{IsFeed, AreFeeds, feed_from};
ghost use Rattle.scheduler_c.specs.Waits.{posted_at, IsFromPlace, IsServedFrom};

use crate::feeds::{FeedWords, feed_from};
use rotating_pick::{Kind, LEVEL_COUNT, LEVELS, MAX_PORTS, PORT_COUNT, Ports, without};
use slot_match::Row;

/// How many places there are for the queues of an input at a level.
pub const PLACES: usize = PORT_COUNT * LEVEL_COUNT;

/// For each input and level the outputs whose queue is posted and not served.
pub fn waiting_sets(n: u32, rows: &[Row], feeds: &[FeedWords]) -> [Ports; PLACES]
    requires size { n ≤ MAX_PORTS }
    requires rows { length rows.now ≡ n }
    requires feeds { AreFeeds n feeds.now }
    ensures { (place j : ℕ) → place < LEVELS * n
        → Has (slice_index result place) j ↔ (Has (posted_at rows.now place) j × (IsServedFrom feeds.now place j → ⊥)) }
{
    let mut sets = posted_sets(rows);
    take_served(n, feeds, &mut sets);
    sets
}

// For each input and level the outputs whose queue is posted.
fn posted_sets(rows: &[Row]) -> [Ports; PLACES]
    requires { length rows.now ≤ MAX_PORTS }
    ensures count { length result ≡ 256 }
    ensures posted { (place : ℕ) → place < LEVELS * length rows.now → slice_index result place ≡ posted_at rows.now place }
{
    let mut sets = [0; PLACES];
    for place in 0..LEVEL_COUNT * rows.len() {
        sets[place] = rows[place / LEVEL_COUNT].uni[place % LEVEL_COUNT];
    }
    sets
}

// Takes the outputs out that are served as unicast.
fn take_served(n: u32, feeds: &[FeedWords], sets: &mut [Ports; PLACES])
    requires size { n ≤ MAX_PORTS }
    requires feeds { AreFeeds n feeds.now }
    requires count { length sets.old ≡ 256 }
    ensures { (place j : ℕ) → place < 256
        → Has (slice_index sets.new place) j ↔ (Has (slice_index sets.old place) j × (j < n → IsServedFrom feeds.now place j → ⊥)) }
{
    for output in 0..n {
        take_output(n, &feeds[output as usize], output, sets);
    }
}

// Takes the output out where it is served as unicast, as these words say.
fn take_output(n: u32, words: &FeedWords, output: u32, sets: &mut [Ports; PLACES])
    requires size { n ≤ MAX_PORTS }
    requires feed { IsFeed n words.now }
    requires output_in { output < n }
    requires count { length sets.old ≡ 256 }
    ensures { (place j : ℕ) → place < 256
        → Has (slice_index sets.new place) j ↔ (Has (slice_index sets.old place) j × (j ≡ output → IsFromPlace (feed_from words.now) place → ⊥)) }
{
    if let Some(fed) = feed_from(n, words) {
        if let Kind::Uni = fed.kind {
            let place = LEVEL_COUNT * fed.input as usize + usize::from(fed.level);
            sets[place] = without(sets[place], output);
        }
    }
}
