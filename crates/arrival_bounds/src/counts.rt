//! Laws on cells that come and go, as numbers: the contracts of functions that do nothing.

ghost use Rattle.std.specs.Prelude.{ℕ, ◌<◌};
ghost use Rattle.arrival_bounds.specs.Counts.{Counts, AreServed, ComeApart, WaitAtMost, AreFewBeside, QueueWaitsAtMost};
ghost use Rattle.arrival_bounds.specs.Counts.{ComeAtMost, AreSmall, ComeByCurves, AreWindows, HoldAtMost};

/// Where matches are maximal, and in any `2 * most + 1` slots in a row at most `most + 2` cells come to the input of a queue
/// in use and for its output, no cell waits more than `most` slots.
pub fn delays_are_short()
    ensures { (n levels most : ℕ) (came gone : Counts) → AreServed n levels came gone → ComeApart n levels came most
        → WaitAtMost n levels came gone most }
{}

/// Where matches are maximal, and so few cells wait at the input of one queue and for its output, or come to them meanwhile,
/// no cell of the queue waits more than `most` slots, whatever holds of the other queues.
pub fn one_queue_is_soon_served()
    ensures { (n levels i j l most : ℕ) (came gone : Counts) → AreServed n levels came gone → i < n → j < n → l < levels
        → AreFewBeside n levels came gone i j most → QueueWaitsAtMost came gone i j l most }
{}

/// Where matches are maximal, and in any `slots` slots in a row so few cells come to each input and for each output that the
/// numbers are small beside the slots, never more wait there than come in so many slots. So it is where each line has a window
/// of its own that is long enough.
pub fn buffers_are_small()
    ensures one { (n levels slots : ℕ) (most_in most_out : ℕ → ℕ) (came gone : Counts) → AreServed n levels came gone → 0 < slots
        → ComeAtMost n levels came slots most_in most_out → AreSmall n levels came slots most_in most_out
        → HoldAtMost n levels came gone most_in most_out }
    ensures lines { (n levels : ℕ) (most_in most_out : ℕ → ℕ → ℕ) (slots_in slots_out : ℕ → ℕ) (came gone : Counts) → AreServed n levels came gone
        → ComeByCurves n levels came most_in most_out → AreWindows n levels came most_in most_out slots_in slots_out
        → HoldAtMost n levels came gone (λ i. most_in i (slots_in i)) (λ j. most_out j (slots_out j)) }
{}
