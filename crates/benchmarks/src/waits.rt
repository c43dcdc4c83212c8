//! How long a meter of waits takes to note a slot.
ghost use Rattle.std.specs.Prelude.{◌<◌, ◌≤◌};

use crate::decisions::{BATCHES, Load, SLOTS, decide_batch};
use eslip_rounds::Scratch;
use pointer_state::Pointers;
use rotating_pick::MAX_PORTS;
use service_bound::{MAX_NOTED, WaitMeter};
use slot_match::{Match, Row, are_within};
use std::alloc::Global;
use std::io;
use std::time::{Clock, Instant};

// Notes slots with these rows, of each match in turn.
fn note_batch(meter: &mut WaitMeter, rows: &[Row], first: &Match, second: &Match) {
    let n = meter.ports();
    if !are_within(n, rows) {
        return;
    }
    for _turn in 0..SLOTS / 2 {
        if meter.ports() == n && first.ports() == n && meter.count() < MAX_NOTED {
            meter.note(rows, first);
        }
        if meter.ports() == n && second.ports() == n && meter.count() < MAX_NOTED {
            meter.note(rows, second);
        }
    }
}

// Times how a meter of waits notes full rows of `n` ports: with one match in all slots, so that no wait begins or
// ends after the first, and with nothing matched in every second slot.
fn time_meter<R: Clock + Eprint>(rt: &R, alloc: Global, n: u32, changing: bool) -> io::Result<()>
    requires some { 0 < n }
    requires size { n ≤ MAX_PORTS }
{
    let full = [Load::Full.row(n, 0); MAX_PORTS as usize];
    let rows = &full[..n as usize];
    let mut p = Pointers::new(n);
    let mut matched = Match::new(n);
    let _pairs = decide_batch(
        Load::Full,
        4,
        rows,
        &mut p,
        &mut matched,
        &mut Scratch::new(),
    );
    let nothing = Match::new(n);
    let mut least = u128::MAX;
    for _batch in 0..BATCHES {
        let Ok(mut meter) = WaitMeter::make(alloc, n) else {
            return eprintln!(rt; "no memory for a meter");
        };
        let second = if changing { &nothing } else { &matched };
        let begin = Instant::now(rt)?;
        note_batch(&mut meter, rows, &matched, second);
        let end = Instant::now(rt)?;
        least = least.min(end.duration_since(begin).as_nanos());
    }
    let what = if changing {
        "waits that begin and end"
    } else {
        "waits that go on"
    };
    eprintln!(rt;
        "meter of waits, {what}, {n} ports: {} ns a slot",
        least / SLOTS as u128
    )
}

/// Tells the time of a slot with 16 and 64 ports, where waits go on and where they begin and end.
pub(crate) fn time_meters<R: Clock + Eprint + AllocGlobal>(rt: &R) -> io::Result<()> {
    for changing in [false, true] {
        time_meter(rt, rt.alloc(), 16, changing)?;
        time_meter(rt, rt.alloc(), 64, changing)?;
    }
    Ok(())
}
