use crate::captures::{ETHERNET, ONE_FRAME};
use crate::commands::{Calls, compare_file, given_of, run};
use crate::one_packet::FILES;
use card_worker::Gate;
use rotating_pick::OutOfMemory;
use std::sync::atomic::{AtomicU32, Ordering};
use std::thread;

// For how many looks at a word a worker is held at most.
const LOOKS: u32 = 10_000_000;

// Holds each of two workers until the other has come: worker 0 at its first try until worker 1 has begun its second,
// and worker 1 at its second try until worker 0 has begun its first.
#[derive(Drop)]
struct Meeting {
    // How many tries each worker has begun.
    zero: AtomicU32,
    one: AtomicU32,
    // How many holds ended since the other had come.
    met: AtomicU32,
}

impl Meeting {
    fn new() -> Meeting {
        Meeting {
            zero: AtomicU32::new(0),
            one: AtomicU32::new(0),
            met: AtomicU32::new(0),
        }
    }

    // Holds the worker until the other has begun `least` tries.
    fn hold_until(&self, tries: &AtomicU32, least: u32) {
        for _ in 0..LOOKS {
            if tries.load(Ordering::SeqCst) >= least {
                self.met.fetch_add(1, Ordering::SeqCst);
                return;
            }
            thread::yield_now();
        }
    }
}

impl Gate for Meeting {
    fn before(&self, worker: u32) {
        if worker == 0 {
            if self.zero.fetch_add(1, Ordering::SeqCst) == 0 {
                self.hold_until(&self.one, 2);
            }
        } else if self.one.fetch_add(1, Ordering::SeqCst) == 1 {
            self.hold_until(&self.zero, 1);
        }
    }
}

#[test]
fn two_workers_meet(rt: HostRuntime) -> Result<(), OutOfMemory> {
    let words = ["run", "--workers", "2", "t", "out", "a", "b"];
    let given = given_of(rt.alloc(), &FILES)?;
    let calls = Calls {
        piece: 4_096,
        fails: &[],
    };
    let gate = Meeting::new();
    let (files, status) = run(&rt, rt.alloc(), &words, given, calls, &gate)?;
    assert!(rt; status == 0 && gate.met.load(Ordering::SeqCst) == 2);
    compare_file(&rt, &files, "out.0.pcap", Some(ETHERNET), &words);
    compare_file(&rt, &files, "out.1.pcap", Some(ONE_FRAME), &words);
    Ok(())
}
