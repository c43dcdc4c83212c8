ghost use Rattle.std.specs.Prelude.{◌≡◌, ◌+◌, ◌<◌, replicate, slice_index, slice_set};

use crate::limits::MAX_SLOTS;
use rotating_pick::MAX_PORTS;

/// For each card how many slots it posted, or took.
pub(crate) type Counts = [u32; MAX_PORTS as usize];

// Raises the card's count by 1.
pub(crate) fn raise(counts: &mut Counts, card: u32)
    requires card_in { card < MAX_PORTS }
    requires room { slice_index counts.old card < MAX_SLOTS }
    ensures { counts.new ≡ slice_set counts.old card (slice_index counts.old card + 1) }
{
    counts[card as usize] += 1;
}

// A count of 0 for each card.
pub(crate) fn no_counts() -> Counts
    ensures { result ≡ replicate MAX_PORTS 0 }
{
    [0; MAX_PORTS as usize]
}
