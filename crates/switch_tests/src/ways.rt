ghost use Rattle.std.specs.Prelude.{◌≡◌, ◌<◌, ◌^◌, vec_len, None, All, IsTrue, false};

use crate::captures::{ETHERNET, add_record};
use card_worker::Gate;
use rotating_pick::{MAX_FILE_BYTES, OutOfMemory};
use run_laws::Outcome;
use scheduler_names::SchedulerName;
use std::alloc::{AllocError, Global};
use std::process::Abort;
use std::sync::atomic::{AtomicU64, Ordering};
use std::test::Fail;
use std::thread::Threads;
use switch_jobs::{jobs, run_ready_with};
use switch_plan::jobs::plan;
use switch_plan::{Made, made_input};
use switch_words::{GenJob, Settings, Speed};

const TABLE: &[u8] = b"10.0.0.0/24 0\n10.0.1.0/24 1\n10.0.2.0/24 2\n10.0.3.0/24 3\n* 0,1,2,3 3\n";

// What the frames of each port are filled with, and the port that two of them go to.
const INPUTS: [(u8, u8); 4] = [(0, 1), (1, 2), (2, 3), (3, 0)];

// What frames begin with, up to the third byte of an IPv4 destination: a tagged one, an untagged one, and one of ARP.
const TAGGED: &[u8] =
    b"\x02\0\0\0\0\x01\x02\0\0\0\0\x02\x81\0\0\x05\x08\0\x45\0\x05\xdc\0\0\0\0\x40\xfd\0\0\x0a\0\0\x09\x0a\0";

const UNTAGGED: &[u8] =
    b"\x02\0\0\0\0\x01\x02\0\0\0\0\x02\x08\0\x45\0\x05\xdc\0\0\0\0\x40\xfd\0\0\x0a\0\0\x09\x0a\0";

const ARP: &[u8] = b"\x02\0\0\0\0\x01\x02\0\0\0\0\x02\x08\x06";

// The frames of a port, with their lengths: two of 28 cells each to another port, and one of two cells to all.
const FRAMES: [(&[u8], u32); 3] = [(TAGGED, 1_518), (UNTAGGED, 1_514), (ARP, 60)];

fn capture_of(alloc: Global, fill: u8, port: u8) -> Result<Vec<u8>, AllocError> {
    let mut capture = ETHERNET.to_vec(alloc)?;
    for (first, len) in FRAMES {
        let mut first = first.to_vec(alloc)?;
        first.extend_from_slice(&[port, 7])?;
        add_record(&mut capture, &first, fill, len)?;
    }
    Ok(capture)
}

// Counts the tries.
#[derive(Drop)]
struct Counting {
    tries: AtomicU64,
}

impl Gate for Counting {
    fn before(&self, _worker: u32) {
        self.tries.fetch_add(1, Ordering::SeqCst);
    }
}

fn captures(alloc: Global) -> Result<Vec<Vec<u8>>, AllocError> {
    let mut captures = Vec::new(alloc);
    for (fill, port) in INPUTS {
        captures.push(capture_of(alloc, fill, port)?)?;
    }
    Ok(captures)
}

fn are_short(captures: &[Vec<u8>]) -> bool
    ensures { IsTrue result → All (λ capture. vec_len capture < 2 ^ 32) captures.now }
{
    captures.iter().all(|capture| capture.len() < 1 << 32)
}

// What is given to the workers.
#[derive(Clone, Copy)]
enum Traffic {
    // Full-size frames of four ports, each to one output, and short ones to all.
    FourCaptures,
    // The packets that are made for two ports.
    MadePackets,
}

fn settings_for(workers: u32) -> Settings
    ensures { result ≡ record { rounds = 4; depth = 131072; workers = workers; speed = Speed.Untimed; long = false } }
{
    Settings {
        rounds: 4,
        depth: 131_072,
        workers,
        speed: Speed::Untimed,
        long: false,
    }
}

// The packets that `gen 1 2 2` makes.
fn made_packets(alloc: Global) -> Result<Made, OutOfMemory> {
    let job = GenJob {
        settings: settings_for(1),
        scheduler: SchedulerName::Islip,
        seed: 1,
        count: 2,
        ports: 2,
    };
    made_input(alloc, &job)
}

// The table and the captures of the traffic.
fn inputs_of(alloc: Global, traffic: Traffic) -> Result<Made, Fail> {
    match traffic {
        Traffic::FourCaptures => Ok(Made {
            table: TABLE.to_vec(alloc)?,
            captures: captures(alloc)?,
        }),
        Traffic::MadePackets => Ok(made_packets(alloc)?),
    }
}

// The outcome of the traffic by `workers` workers of this patience, and how many tries they made.
fn outcome_of<R: Threads + Sync + Abort>(
    rt: &R,
    alloc: Global,
    traffic: Traffic,
    workers: u32,
    patience: u32,
) -> Result<(Outcome, u64), Fail> {
    let Made { table, captures } = inputs_of(alloc, traffic)?;
    assert!(rt; workers > 0 && workers <= 32 && table.len() <= MAX_FILE_BYTES);
    assert!(rt; !captures.is_empty() && captures.len() <= 4 && are_short(&captures));
    let plan = plan(rt, alloc, &settings_for(workers), table, captures)?;
    let ready = jobs::ready(alloc, plan)?;
    let gate = Counting {
        tries: AtomicU64::new(0),
    };
    let outcome = run_ready_with(rt, ready, &gate, patience);
    Ok((outcome, gate.tries.load(Ordering::SeqCst)))
}

fn are_same(outcome: &Outcome, expected: &Outcome) -> bool {
    let mut pairs = outcome.outputs.iter().zip(expected.outputs.iter());
    outcome.summary == expected.summary
        && outcome.outputs.len() == expected.outputs.len()
        && pairs.all(|(output, other)| output.body == other.body && output.lens == other.lens)
}

// Compares the outcomes of the traffic, whichever its workers and their patience.
fn compare_ways<R: Threads + Sync + Abort>(
    rt: &R,
    alloc: Global,
    traffic: Traffic,
    (slots, cells): (u32, u32),
) -> Result<(), Fail> {
    let (expected, _) = outcome_of(rt, alloc, traffic, 1, 64)?;
    assert!(rt; expected.summary.slots == slots && expected.summary.cells == cells);
    for workers in [1, 2, 32] {
        for patience in [0, 1, 64] {
            let (outcome, tries) = outcome_of(rt, alloc, traffic, workers, patience)?;
            // Without patience all slots are made at the end, by one thread.
            assert!(rt;
                are_same(&outcome, &expected) && (tries == 0) == (patience == 0),
                "{workers} workers, patience {patience}"
            );
        }
    }
    Ok(())
}

#[test]
fn workers_and_patience_do_not_show(rt: HostRuntime) -> Result<(), Fail> {
    compare_ways(&rt, rt.alloc(), Traffic::FourCaptures, (92, 256))?;
    compare_ways(&rt, rt.alloc(), Traffic::MadePackets, (47, 41))
}
