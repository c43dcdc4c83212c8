//! How long a slot of a whole run is, where each line card always has cells, and how many slots the workers make.
ghost use Rattle.std.specs.Prelude.{IfOk, IfSome, ◌≤◌};
ghost use Rattle.switch_words.specs.Limits.{IsUpTo};
ghost use Rattle.switch_plan.specs.GoodPlans.{switch_plan_of, IsGood, IsBurst};

use crate::captures::{Load, captures_of, table_of};
use crate::plans::planned;
use card_worker::{Gate, OpenGate};
use rotating_pick::MAX_PORTS;
use std::alloc::Global;
use std::io;
use std::sync::atomic::{AtomicU64, Ordering};
use std::thread::Threads;
use std::time::{Clock, Instant};
use switch_jobs::{jobs, run_ready, run_ready_with};
use switch_plan::Plan;
use switch_words::MAX_WORKERS;

/// The packets of each port: 50 of 19 cells are within the limit of a switch of 64 ports.
const PACKETS: u32 = 50;

/// The bytes of each packet.
const PACKET_BYTES: u32 = 1_000;

/// How many runs are timed. The least time counts, since it was disturbed least.
const RUNS: u32 = 3;

/// How often a card is refused before it gives up.
const PATIENCE: u32 = 64;

/// A run that was timed.
#[derive(Clone, Copy)]
struct Run {
    nanos: u128,
    slots: u32,
    cells: u32,
}

impl Run {
    // The nanoseconds of a slot.
    fn slot_nanos(&self) -> u128 {
        self.nanos / u128::from(self.slots.max(1))
    }
}

// The plan of a switch of `ports` ports for `workers` workers, or None where there was none.
fn plan_of<R: Threads + Sync>(rt: &R, alloc: Global, ports: u32, workers: u32) -> Option<Plan>
    requires ports { ports ≤ MAX_PORTS }
    requires workers { IsUpTo MAX_WORKERS workers }
    ensures good { IfSome result (λ plan. IsGood (switch_plan_of plan)) }
    ensures burst { IfSome result (λ plan. IsBurst (switch_plan_of plan)) }
{
    let load = Load {
        ports,
        packets: PACKETS,
        len: PACKET_BYTES,
    };
    let table = table_of(alloc, ports).ok()?;
    let captures = captures_of(alloc, &load).ok()?;
    planned(rt, alloc, workers, table, captures)?.ok()
}

// Times all slots of a run, or answers None where there was no plan or no memory for it.
fn time_run<R: Threads + Sync + Clock + AllocGlobal>(
    rt: &R,
    ports: u32,
    workers: u32,
) -> io::Result<Option<Run>>
    requires ports { ports ≤ MAX_PORTS }
    requires workers { IsUpTo MAX_WORKERS workers }
{
    let Some(plan) = plan_of(rt, rt.alloc(), ports, workers) else {
        return Ok(None);
    };
    let Ok(ready) = jobs::ready(rt.alloc(), plan) else {
        return Ok(None);
    };
    let begin = Instant::now(rt)?;
    let outcome = run_ready(rt, ready, &OpenGate);
    let end = Instant::now(rt)?;
    Ok(Some(Run {
        nanos: end.duration_since(begin).as_nanos(),
        slots: outcome.summary.slots,
        cells: outcome.summary.cells,
    }))
}

// The run of the least time, or None where there was none.
fn least_run<R: Threads + Sync + Clock + AllocGlobal>(
    rt: &R,
    ports: u32,
    workers: u32,
) -> io::Result<Option<Run>>
    requires ports { ports ≤ MAX_PORTS }
    requires workers { IsUpTo MAX_WORKERS workers }
{
    let mut least: Option<Run> = None;
    for _ in 0..RUNS {
        let Some(run) = time_run(rt, ports, workers)? else {
            continue;
        };
        if least.is_none_or(|other| run.nanos < other.nanos) {
            least = Some(run);
        }
    }
    Ok(least)
}

// Counts the tries of the workers.
#[derive(Drop)]
struct Counting {
    tries: AtomicU64,
}

impl Gate for Counting {
    fn before(&self, _worker: u32) {
        self.tries.fetch_add(1, Ordering::SeqCst);
    }
}

// How many slots the cards made in so many tries, where each was refused as often as its patience lasts: a post and a
// take in each slot.
fn slots_in(tries: u64, ports: u32) -> u64 {
    let refused = u64::from(PATIENCE) * u64::from(ports);
    tries.saturating_sub(refused) / (2 * u64::from(ports.max(1)))
}

// How many slots of a run its workers made, or None where there was no plan or no memory for it.
fn slots_by_workers<R: Threads + Sync + AllocGlobal>(
    rt: &R,
    ports: u32,
    workers: u32,
) -> Option<u64>
    requires ports { ports ≤ MAX_PORTS }
    requires workers { IsUpTo MAX_WORKERS workers }
{
    let plan = plan_of(rt, rt.alloc(), ports, workers)?;
    let ready = jobs::ready(rt.alloc(), plan).ok()?;
    let gate = Counting {
        tries: AtomicU64::new(0),
    };
    let outcome = run_ready_with(rt, ready, &gate, PATIENCE);
    let tries = gate.tries.load(Ordering::SeqCst);
    if outcome.journal.least_refused() == u64::from(PATIENCE) {
        Some(slots_in(tries, ports))
    } else {
        Some(u64::from(outcome.summary.slots))
    }
}

// Tells the time of a slot with `ports` ports and `workers` workers, and how many of the slots the workers made.
fn tell_slots<R: Threads + Sync + Clock + Eprint + AllocGlobal>(
    rt: &R,
    ports: u32,
    workers: u32,
) -> io::Result<()>
    requires ports { ports ≤ MAX_PORTS }
    requires workers { IsUpTo MAX_WORKERS workers }
{
    let Some(run) = least_run(rt, ports, workers)? else {
        return eprintln!(rt; "{ports} ports, {workers} workers: no plan or no memory");
    };
    let nanos = run.slot_nanos();
    let made = slots_by_workers(rt, ports, workers).unwrap_or(0);
    eprintln!(rt;
        "{ports} ports, {workers} workers: {nanos} ns a slot, {} cells in {} slots, {made} of them by workers",
        run.cells, run.slots
    )
}

// Tells the time of a slot with `ports` ports, and with 1, 2 and 4 workers.
fn time_slots<R: Threads + Sync + Clock + Eprint + AllocGlobal>(
    rt: &R,
    ports: u32,
) -> io::Result<()>
    requires { ports ≤ MAX_PORTS }
{
    tell_slots(rt, ports, 1)?;
    tell_slots(rt, ports, 2)?;
    tell_slots(rt, ports, 4)
}

/// Tells the time of a slot with 2 to 64 ports.
pub(crate) fn time_runs<R: Threads + Sync + Clock + Eprint + AllocGlobal>(
    rt: &R,
) -> io::Result<()> {
    time_slots(rt, 2)?;
    time_slots(rt, 8)?;
    time_slots(rt, 16)?;
    time_slots(rt, 32)?;
    time_slots(rt, 64)
}
