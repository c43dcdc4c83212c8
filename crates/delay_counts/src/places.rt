ghost use Rattle.std.specs.Prelude.{◌≡◌, ◌<◌, ◌≤◌};
ghost use Rattle.delay_counts.specs.Delays.{bits_left_out};
ghost use Rattle.delay_counts.specs.CountSteps.{delay_at, place_count, place_of};

// The numbers that are counted each, and those of one more bit.
const EXACT: u32 = 4_096;

const HALF: u32 = 2_048;

// How many low bits of a delay are left out: as many as it has beyond 12.
fn bits_left_out(delay: u32) -> u32
    ensures value { result ≡ bits_left_out delay }
    ensures within { result ≤ 20 }
{
    20u32.saturating_sub(delay.leading_zeros())
}

/// The place of the number as which a delay is counted, among all such numbers.
pub(crate) fn place_of(delay: u32) -> usize
    ensures value { result ≡ place_of delay }
    ensures within { result < place_count }
{
    let bits = bits_left_out(delay);
    (HALF * bits + (delay >> bits)) as usize
}

/// The number of this place.
pub(crate) fn delay_at(place: u32) -> u32
    requires { place < place_count }
    ensures { result ≡ delay_at place }
{
    if place < EXACT {
        return place;
    }
    let bits = place / HALF - 1;
    (place % HALF + HALF) << bits
}
