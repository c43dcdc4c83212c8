ghost use Rattle.std.specs.Prelude.{◌≡◌, ℕ, ◌<◌, List, length, map, IfOk};
ghost use Rattle.std.specs.List.{range_with_len};
ghost use Rattle.delay_counts.specs.Delays.{counts_of, percentile};
ghost use Rattle.delay_counts.specs.CountSteps.{HasCounted as HasDelays};
ghost use Rattle.simulated_slots.specs.Jobs.{JobValue};
ghost use Rattle.simulated_runs.specs.Numbers.{batch_numbers, port_of, shares};
ghost use Rattle.simulated_runs.specs.SimulationSteps.{HasCountedDeparted, HasTakenIn};

use crate::numbers::{BatchNumbers, PERCENTILES, PortNumbers};
use delay_counts::{DELAY_PLACES, DelayCount, DelayCounts};
use simulated_slots::{Arrivals, Departed};
use std::alloc::{AllocError, Global};

/// The numbers of each port of a switch of `n` ports.
pub(crate) fn ports(
    alloc: Global,
    n: u32,
    arrivals: &Arrivals,
    departed: &Departed,
) -> Result<Vec<PortNumbers>, AllocError>
    requires arrived { length arrivals.now.arrived.counts ≡ n }
    requires dropped { length arrivals.now.dropped.counts ≡ n }
    requires left { length departed.now.left.counts ≡ n }
    requires fed { length departed.now.fed.counts ≡ n }
    ensures { IfOk result (λ ports. (job : JobValue) (t : ℕ) → HasTakenIn job t arrivals.now → HasCountedDeparted job t departed.now
        → ports.items ≡ map (port_of job t) (range_with_len 0 n)) }
{
    let mut ports = Vec::with_capacity(alloc, n as usize)?;
    for port in 0..n {
        ports.push(port_numbers(port, arrivals, departed))?;
    }
    Ok(ports)
}

// The numbers of a port.
fn port_numbers(port: u32, arrivals: &Arrivals, departed: &Departed) -> PortNumbers
    requires arrived { port < length arrivals.now.arrived.counts }
    requires dropped { port < length arrivals.now.dropped.counts }
    requires left { port < length departed.now.left.counts }
    requires fed { port < length departed.now.fed.counts }
    ensures { (job : JobValue) (t : ℕ) → HasTakenIn job t arrivals.now → HasCountedDeparted job t departed.now → result ≡ port_of job t port }
{
    PortNumbers {
        arrived: arrivals.arrived.count(port),
        dropped: arrivals.dropped.count(port),
        left: departed.left.count(port),
        fed: departed.fed.count(port),
    }
}

/// The numbers of each of so many batches.
pub(crate) fn batches(
    alloc: Global,
    count: u32,
    departed: &Departed,
) -> Result<Vec<BatchNumbers>, AllocError>
    requires delays { length departed.now.batches.delays ≡ count }
    requires counts { length departed.now.batches.departed.counts ≡ count }
    ensures { IfOk result (λ batches. (job : JobValue) (t : ℕ) → HasCountedDeparted job t departed.now
        → batches.items ≡ map (batch_numbers job t) (range_with_len 0 count)) }
{
    let mut batches = Vec::with_capacity(alloc, count as usize)?;
    for batch in 0..count {
        batches.push(numbers_of_batch(batch, departed))?;
    }
    Ok(batches)
}

// The numbers of a batch.
fn numbers_of_batch(batch: u32, departed: &Departed) -> BatchNumbers
    requires delays { batch < length departed.now.batches.delays }
    requires counts { batch < length departed.now.batches.departed.counts }
    ensures { (job : JobValue) (t : ℕ) → HasCountedDeparted job t departed.now → result ≡ batch_numbers job t batch }
{
    BatchNumbers {
        departed: departed.batches.departed(batch),
        delays: departed.batches.delays(batch),
    }
}

/// The percentiles of the delays that are told of.
pub(crate) fn percentiles(delays: &DelayCounts) -> [u32; PERCENTILES]
    ensures { (noted : List ℕ) → HasDelays delays.now noted → result ≡ map (λ share. percentile share noted) shares }
{
    [
        delays.percentile(5_000),
        delays.percentile(9_000),
        delays.percentile(9_900),
        delays.percentile(9_990),
        delays.percentile(9_999),
    ]
}

/// As which numbers delays were counted, by rising number, with how many were.
pub(crate) fn counts(alloc: Global, delays: &DelayCounts) -> Result<Vec<DelayCount>, AllocError>
    ensures { IfOk result (λ counts. (noted : List ℕ) → HasDelays delays.now noted → counts.items ≡ counts_of noted) }
{
    // Tells the proof that the places have all counts.
    delays.places_have_all_counts();
    let mut counts = Vec::new(alloc);
    for place in 0..DELAY_PLACES {
        if let Some(count) = delays.count_at(place) {
            counts.push(count)?;
        }
    }
    Ok(counts)
}
