ghost use Rattle.std.specs.Prelude.{◌≡◌, ℕ, ◌+◌, ◌<◌, ◌≤◌, List, [], ◌∷◌, ◌++◌, length, slice_index, sum, filter_map, IfOk};
ghost use Rattle.std.specs.List.{range_with_len};
ghost use Rattle.delay_counts.specs.Delays.{counts_of, greatest, percentile};
ghost use Rattle.delay_counts.specs.CountSteps.{HasCounted, count_at, place_count, place_of};

use crate::limits::{DELAY_PLACES, MAX_DELAYS, WHOLE_SHARE};
use crate::places::{delay_at, place_of};
use std::alloc::{AllocError, Global};
use std::marker::Model;

/// How many delays are counted as one number.
#[derive(Clone, Copy, Debug, PartialEq, Eq)]
pub struct DelayCount {
    /// The number: the delay itself below 4,096, and else the delay with 0 for each bit beyond its 12 leading ones.
    pub delay: u32,
    /// How many delays are counted as it.
    pub number: u64,
}

/// How long many cells were delayed, in slots. Delays below 4,096 are counted each, longer ones by their 12 leading
/// bits; a delay is noted in constant time, and nothing but `make` takes memory.
#[derive(Drop)]
pub struct DelayCounts {
    // How many delays are counted as each number, by rising number.
    counts: Vec<u64>,
    total: u64,
    slots: u128,
    longest: u32,
}

impl Model for DelayCounts {
    ghost use Rattle.std.specs.Prelude.{ℕ, List};
    ghost use Rattle.delay_counts.specs.CountSteps.{Counts, HasCounted};

    ghost Value = { Counts };

    ghost view = { λ c. record { numbers = c.counts.items; total = c.total; slots = c.slots; longest = c.longest } };

    ghost invariant = { λ c. (delays : List ℕ) × HasCounted (record { numbers = c.counts.items; total = c.total; slots = c.slots; longest = c.longest }) delays };
}

impl DelayCounts {
    /// Counts of no delay. It takes all memory that they need, 360,448 bytes.
    pub fn make(alloc: Global) -> Result<DelayCounts, AllocError>
        ensures { IfOk result (λ counts. HasCounted counts []) }
    {
        Ok(DelayCounts {
            counts: no_counts(alloc, DELAY_PLACES as usize)?,
            total: 0,
            slots: 0,
            longest: 0,
        })
    }

    /// Counts one delay more, of which there are at most 2^40.
    pub fn note(&mut self, delay: u32)
        requires few { self.old.total < MAX_DELAYS }
        ensures noted { (delays : List ℕ) → HasCounted self.old delays → HasCounted self.new (delays ++ delay ∷ []) }
        ensures total { self.new.total ≡ self.old.total + 1 }
    {
        self.counts[place_of(delay)] += 1;
        self.total += 1;
        self.slots += u128::from(delay);
        self.longest = self.longest.max(delay);
    }

    /// How many delays were counted.
    pub fn total(&self) -> u64
        ensures value { result ≡ self.now.total }
        ensures noted { (delays : List ℕ) → HasCounted self.now delays → result ≡ length delays }
        ensures within { result ≤ MAX_DELAYS }
    {
        self.total
    }

    /// The sum of all delays.
    pub fn sum(&self) -> u128
        ensures { (delays : List ℕ) → HasCounted self.now delays → result ≡ sum delays }
    {
        self.slots
    }

    /// The longest delay, 0 where there are none.
    pub fn longest(&self) -> u32
        ensures { (delays : List ℕ) → HasCounted self.now delays → result ≡ greatest delays }
    {
        self.longest
    }

    /// The least number up to which `share` of 10,000 of the delays are counted, share from 1 to 10,000; 0 where there
    /// are none. So 9,990 is for the percentile 99.9.
    pub fn percentile(&self, share: u32) -> u32
        requires some { 0 < share }
        requires whole { share ≤ WHOLE_SHARE }
        ensures { (delays : List ℕ) → HasCounted self.now delays → result ≡ percentile share delays }
    {
        let wanted = u64::from(share) * self.total;
        let mut seen: u64 = 0;
        for place in 0..DELAY_PLACES {
            seen += self.counts[place as usize];
            if wanted <= u64::from(WHOLE_SHARE) * seen {
                return delay_at(place);
            }
        }
        0
    }

    /// The number of a place, 0 to 45,055, and how many delays are counted as it; None where none are. The numbers rise
    /// with their places.
    pub fn count_at(&self, place: u32) -> Option<DelayCount>
        requires { place < DELAY_PLACES }
        ensures { result ≡ count_at self.now place }
    {
        let number = self.counts[place as usize];
        if number == 0 {
            return None;
        }
        Some(DelayCount {
            delay: delay_at(place),
            number,
        })
    }

    /// States that going over all places gives each number as which delays are counted.
    pub fn places_have_all_counts(&self)
        ensures { (delays : List ℕ) → HasCounted self.now delays
            → filter_map (count_at self.now) (range_with_len 0 place_count) ≡ counts_of delays }
    {
        let _ = &self.total;
    }

    /// States that there are delays that were counted.
    pub fn counted_delays(&self)
        ensures { (delays : List ℕ) × HasCounted self.now delays }
    {
        // Reads a field: that tells the proof what the type says of its value.
        let _ = &self.total;
    }
}

// So many places at which nothing is counted.
fn no_counts(alloc: Global, places: usize) -> Result<Vec<u64>, AllocError>
    ensures length { IfOk result (λ counts. length counts.items ≡ places) }
    ensures none { IfOk result (λ counts. (place : ℕ) → slice_index counts.items place ≡ 0) }
{
    vec![in alloc; 0; places]
}
